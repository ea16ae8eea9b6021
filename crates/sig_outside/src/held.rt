ghost use Rattle.std.specs.Prelude.{◌≡◌, ◌≤◌, ◌<◌, ◌+◌, ◌^◌, ℕ, List, [], ◌∷◌, ◌++◌, length, take, drop, IfOk, IfErr, OnOk, MatchOption, MatchResult};
ghost use Rattle.sig_json.specs.declared.limits.TheConstants.{LAST_NUMBER};
ghost use Rattle.std.specs.Io.KnownBytes.{Consumes, IsAtEnd, Keeps};
ghost use Rattle.sig_outside.specs.Held.{HasPiece, Halts, IsPiece};
ghost use Rattle.sig_outside.specs.Lines.{HasNoLf};

use crate::{LineFault, Source};
use sig_json::limits::{GATHERED_BYTES, LAST_NUMBER};
use std::alloc::Global;
use std::marker::Model;

/// What was taken of a source and not given yet.
///
/// It stands in the vector from the start place on, so that giving a short line moves the place alone. The bytes are moved
/// down only before a further piece is taken.
#[derive(Drop)]
pub struct Held {
    bytes: Vec<u8>,
    start: usize,
    taken: u64,
}

impl Model for Held {
    ghost use Rattle.std.specs.Prelude.{ℕ, ◌+◌, ◌≤◌, length, drop};
    ghost use Rattle.sig_json.specs.declared.limits.TheConstants.{LAST_NUMBER};
    ghost use Rattle.sig_outside.specs.Held.{Holding};

    ghost Value = { Holding };

    ghost view = { λ h. record { kept = drop h.start h.bytes.items; taken = h.taken } };

    ghost invariant = { λ h. (h.start ≤ length h.bytes.items) × (length h.bytes.items ≤ h.start + h.taken) × (h.taken ≤ LAST_NUMBER) };
}

impl Held {
    /// Nothing, of which nothing was taken.
    pub fn new(alloc: Global) -> Held
        ensures { result ≡ record { kept = []; taken = 0 } }
    {
        Held {
            bytes: Vec::new(alloc),
            start: 0,
            taken: 0,
        }
    }

    /// What is kept.
    pub fn as_slice(&self) -> &[u8]
        ensures kept { result.now ≡ self.now.kept }
        ensures bound { length self.now.kept ≤ self.now.taken }
        ensures counted { self.now.taken ≤ LAST_NUMBER }
    {
        self.bytes.as_slice().split_at(self.start).1
    }

    /// Lets the first bytes go.
    pub fn advance(&mut self, count: usize)
        requires { count ≤ length self.old.kept }
        ensures kept { self.new.kept ≡ drop count self.old.kept }
        ensures taken { self.new.taken ≡ self.old.taken }
    {
        self.start += count;
    }

    /// Lets all bytes go.
    pub fn clear(&mut self)
        ensures kept { self.new.kept ≡ [] }
        ensures taken { self.new.taken ≡ self.old.taken }
    {
        self.bytes.clear();
        self.start = 0;
    }

    /// Takes one piece of the source after what is kept, and answers how long it is: 0 at the end of the input.
    pub fn fill<S: Source>(&mut self, source: &mut S) -> Result<usize, LineFault>
        ensures piece { IfOk result (λ n. HasPiece n self.old self.new (S.left source.old) (S.left source.new)) }
        ensures kept { IfErr result (λ e. (self.new.kept ≡ self.old.kept) × (self.new.taken ≡ self.old.taken) × Keeps (S.left source.old) (S.left source.new)) }
        ensures halts { IfErr result (λ e. Halts e self.new.taken (S.faults source.old) (S.faults source.new)) }
        ensures counted { self.new.taken ≤ LAST_NUMBER }
        ensures beside { S.beside source.new ≡ S.beside source.old }
        ensures later { S.faults source.old ≤ S.faults source.new }
        ensures steady { OnOk result (S.faults source.new ≡ S.faults source.old) }
    {
        if self.taken == LAST_NUMBER {
            return Err(LineFault::Endless(LAST_NUMBER));
        }
        drop_front(&mut self.bytes, self.start);
        self.start = 0;
        let ask = (LAST_NUMBER - self.taken).min(GATHERED_BYTES as u64) as usize;
        let count = take_piece(&mut self.bytes, ask, source)?;
        self.taken += count as u64;
        Ok(count)
    }
}

// Moves what stands from a place on to the first place.
fn drop_front(bytes: &mut Vec<u8>, start: usize)
    requires { start ≤ length bytes.old.items }
    ensures { bytes.new.items ≡ drop start bytes.old.items }
{
    let rest = bytes.len() - start;
    bytes.rotate_left(start);
    bytes.truncate(rest);
}

// Takes one piece of at most so many bytes after what stands.
fn take_piece<S: Source>(
    bytes: &mut Vec<u8>,
    ask: usize,
    source: &mut S,
) -> Result<usize, LineFault>
    requires room { length bytes.old.items + ask < 2 ^ 64 }
    requires some { 0 < ask }
    ensures piece { IfOk result (λ n. IsPiece n ask bytes.old.items bytes.new.items (S.left source.old) (S.left source.new)) }
    ensures kept { IfErr result (λ e. (bytes.new.items ≡ bytes.old.items) × Keeps (S.left source.old) (S.left source.new)) }
    ensures halts { (taken : ℕ) → taken < LAST_NUMBER → IfErr result (λ e. Halts e taken (S.faults source.old) (S.faults source.new)) }
    ensures beside { S.beside source.new ≡ S.beside source.old }
    ensures later { S.faults source.old ≤ S.faults source.new }
    ensures steady { OnOk result (S.faults source.new ≡ S.faults source.old) }
{
    let old = bytes.len();
    bytes.resize(old + ask, 0)?;
    let room = &mut bytes.as_mut_slice()[old..];
    let taken = source.take(room);
    bytes.truncate(old + taken.unwrap_or(0));
    match taken {
        Ok(count) => Ok(count),
        Err(_) => Err(LineFault::Failed),
    }
}

/// The place of the first LF, where none stands before the place from which it is sought.
pub fn newline_from(bytes: &[u8], from: usize) -> Option<usize>
    requires within { from ≤ length bytes.now }
    requires sought { HasNoLf (take from bytes.now) }
    ensures none { MatchOption result (HasNoLf bytes.now) (λ at. HasNoLf (take at bytes.now)) }
    ensures some { MatchOption result (HasNoLf bytes.now) (λ at. (at < length bytes.now) × (bytes.now ≡ take at bytes.now ++ 10 ∷ drop (at + 1) bytes.now)) }
{
    for at in from..bytes.len() {
        if bytes[at] == b'\n' {
            return Some(at);
        }
    }
    None
}
