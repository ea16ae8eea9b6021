ghost use Rattle.std.specs.Prelude.{◌≡◌, ◌↔◌, ℕ, List, [], ◌+◌, ◌^◌, ◌-◌, ◌<◌, ◌≤◌, ◌++◌, min, max, length, take, drop, Option, Some, None, IfOk, IsErr, IsTrue, nat_eq};
ghost use Rattle.std.specs.List.{list_any};
ghost use Rattle.std.specs.Io.{ReadsAtMost};
ghost use Rattle.std.specs.Io.KnownBytes.{ReadConsumes};
ghost use Rattle.sig_outside.specs.Causes.{Beside, HasCause};

use crate::planned::is_planned;
use crate::{Failed, Source};
use sig_json::{Bytes, Items};
use std::marker::Model;

/// A source of bytes in memory. It tells what is left.
#[derive(Drop)]
pub struct MemSource {
    bytes: Bytes,
    at: usize,
    piece: usize,
    failing: Items<u64>,
    calls: u64,
    faults: u64,
}

impl Model for MemSource {
    ghost use Rattle.std.specs.Prelude.{ℕ, ◌<◌, ◌≤◌, length, drop};
    ghost use Rattle.sig_outside.specs.Memory.{Given};

    ghost Value = { Given };

    ghost view = { λ s. record { left = drop s.at s.bytes; piece = s.piece; failing = s.failing; calls = s.calls; faults = s.faults } };

    ghost invariant = { λ s. (0 < s.piece) × (s.at ≤ length s.bytes) };
}

impl MemSource {
    /// The input, and the numbers, from 0, of the calls that are to fail.
    pub fn new(bytes: Bytes, failing: Items<u64>) -> MemSource
        ensures { result ≡ record { left = bytes; piece = usize.MAX; failing = failing; calls = 0; faults = 0 } }
    {
        MemSource::in_pieces(bytes, usize::MAX, failing)
    }

    /// The same with at most so many bytes a call. A piece is one byte at least.
    pub fn in_pieces(bytes: Bytes, piece: usize, failing: Items<u64>) -> MemSource
        ensures { result ≡ record { left = bytes; piece = max piece 1; failing = failing; calls = 0; faults = 0 } }
    {
        MemSource {
            bytes,
            at: 0,
            piece: piece.max(1),
            failing,
            calls: 0,
            faults: 0,
        }
    }

    /// What is left.
    pub fn rest(&self) -> &[u8]
        ensures { result.now ≡ self.now.left }
    {
        self.bytes.as_slice().split_at(self.at).1
    }

    /// How many calls it got.
    pub fn calls(&self) -> u64
        ensures { result ≡ self.now.calls }
    {
        self.calls
    }
}

impl Source for MemSource {
    ghost left = { λ s. Some s.left };

    ghost beside = { λ s. None };

    ghost faults = { λ s. s.faults };

    fn take(&mut self, buf: &mut [u8]) -> Result<usize, Failed>
        ensures bound { ReadsAtMost result buf.new }
        ensures bytes { ReadConsumes (Some self.old.left) (Some self.new.left) result buf.new }
        ensures cause { HasCause self.old.faults self.new.faults result }
        ensures gives { IfOk result (λ n. n ≡ min (min (length self.old.left) self.old.piece) (length buf.old)) }
        ensures fails { IsErr result ↔ IsTrue (list_any (nat_eq self.old.calls) self.old.failing) }
        ensures counts { self.new.calls ≡ min (self.old.calls + 1) (2 ^ 64 - 1) }
        ensures stays { (self.new.piece ≡ self.old.piece) × (self.new.failing ≡ self.old.failing) }
    {
        let fails = is_planned(&self.failing, self.calls);
        self.calls = self.calls.saturating_add(1);
        if fails {
            self.faults = self.faults.saturating_add(1);
            return Err(Failed);
        }
        let count = give(self.bytes.as_slice(), self.at, self.piece, buf);
        self.at += count;
        Ok(count)
    }
}

// Copies the bytes from a place on into the buffer, from its first place on: as many as fit, and at most so many.
fn give(bytes: &[u8], at: usize, piece: usize, buf: &mut [u8]) -> usize
    requires within { at ≤ length bytes.now }
    requires some { 0 < piece }
    ensures count { result ≡ min (min (length (drop at bytes.now)) piece) (length buf.old) }
    ensures bound { result ≤ length buf.new }
    ensures within { at + result ≤ length bytes.now }
    ensures front { drop at bytes.now ≡ take result buf.new ++ drop (at + result) bytes.now }
    ensures end { result ≡ 0 → 0 < length buf.new → drop at bytes.now ≡ [] }
{
    let rest = bytes.split_at(at).1;
    let count = rest.len().min(piece).min(buf.len());
    let (front, _) = buf.split_at_mut(count);
    front.copy_from_slice(rest.split_at(count).0);
    count
}
