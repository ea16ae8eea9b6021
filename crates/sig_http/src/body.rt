ghost use Rattle.std.specs.Prelude.{◌≡◌, ◌≤◌, ℕ, length, max, IfErr, IfOk, OnOk};
ghost use Rattle.sig_json.specs.declared.limits.TheConstants.{RESPONSE_BODY_BYTES};
ghost use Rattle.sig_http.specs.declared.limits.TheConstants.{PIECE_BYTES};
ghost use Rattle.sig_http.specs.Faults.{Tallies};
ghost use Rattle.sig_http.specs.Bodies.{EndsBody, IsWithin, StopsBody};
ghost use Rattle.sig_http.specs.Taking.{IsOpenBody, Takes};
ghost use Rattle.sig_http.specs.declared.framing.Framing.TheVariants as framings;

use crate::HttpFault;
use crate::chunks::{Chunks, first, read_chunks};
use crate::framing::Framing;
use crate::piece::{Room, take_piece};
use sig_outside::Source;
use std::alloc::Global;

/// A body that was read, and the bytes after it that were taken with it.
#[derive(Drop)]
pub struct Body {
    pub content: Vec<u8>,
    pub rest: Vec<u8>,
}

/// Reads a body of which these bytes were taken, and no more of the source than a piece beyond its end.
pub fn read_body<S: Source>(
    alloc: Global,
    source: &mut S,
    room: &mut Room,
    limit: usize,
    framing: Framing,
    held: Vec<u8>,
) -> Result<Body, HttpFault>
    requires limit { limit ≤ RESPONSE_BODY_BYTES }
    requires within { IsWithin limit framing }
    ensures body { IfOk result (λ body. EndsBody limit framing held.items body (S.left source.old) (S.left source.new)) }
    ensures bound { IfOk result (λ body. length body.rest.items ≤ max (length held.items) PIECE_BYTES) }
    ensures awaits { Takes (IsOpenBody limit framing) held.items (S.left source.old) (S.left source.new) }
    ensures refused { IfErr result (λ fault. StopsBody limit framing held.items fault (S.left source.old) (S.left source.new)) }
    ensures tally { IfErr result (λ fault. Tallies fault (S.faults source.old) (S.faults source.new)) }
    ensures steady { OnOk result (S.faults source.new ≡ S.faults source.old) }
    ensures beside { S.beside source.new ≡ S.beside source.old }
{
    match framing {
        Framing::Length(count) => read_length(source, room, count, held),
        Framing::Chunks => read_chunked(alloc, source, room, limit, held),
        Framing::End => read_to_end(alloc, source, room, limit, held),
    }
}

// Reads a body of so many bytes.
fn read_length<S: Source>(
    source: &mut S,
    room: &mut Room,
    count: usize,
    held: Vec<u8>,
) -> Result<Body, HttpFault>
    requires { count ≤ RESPONSE_BODY_BYTES }
    ensures body { IfOk result (λ body. (limit : ℕ) → EndsBody limit (framings.Length count) held.items body (S.left source.old) (S.left source.new)) }
    ensures bound { IfOk result (λ body. length body.rest.items ≤ max (length held.items) PIECE_BYTES) }
    ensures awaits { (limit : ℕ) → Takes (IsOpenBody limit (framings.Length count)) held.items (S.left source.old) (S.left source.new) }
    ensures refused { IfErr result (λ fault. (limit : ℕ) → StopsBody limit (framings.Length count) held.items fault (S.left source.old) (S.left source.new)) }
    ensures tally { IfErr result (λ fault. Tallies fault (S.faults source.old) (S.faults source.new)) }
    ensures steady { OnOk result (S.faults source.new ≡ S.faults source.old) }
    ensures beside { S.beside source.new ≡ S.beside source.old }
{
    let mut content = held;
    'pieces: while content.len() < count {
        if take_piece(&mut content, source, room)? == 0 {
            return Err(HttpFault::Cut);
        }
    }
    let rest = content.split_off(count)?;
    Ok(Body { content, rest })
}

// Reads a chunked body.
fn read_chunked<S: Source>(
    alloc: Global,
    source: &mut S,
    room: &mut Room,
    limit: usize,
    held: Vec<u8>,
) -> Result<Body, HttpFault>
    ensures body { IfOk result (λ body. EndsBody limit framings.Chunks held.items body (S.left source.old) (S.left source.new)) }
    ensures bound { IfOk result (λ body. length body.rest.items ≤ max (length held.items) PIECE_BYTES) }
    ensures awaits { Takes (IsOpenBody limit framings.Chunks) held.items (S.left source.old) (S.left source.new) }
    ensures refused { IfErr result (λ fault. StopsBody limit framings.Chunks held.items fault (S.left source.old) (S.left source.new)) }
    ensures tally { IfErr result (λ fault. Tallies fault (S.faults source.old) (S.faults source.new)) }
    ensures steady { OnOk result (S.faults source.new ≡ S.faults source.old) }
    ensures beside { S.beside source.new ≡ S.beside source.old }
{
    let mut held = held;
    let mut content = Vec::new(alloc);
    let mut standing = first(limit);
    'pieces: loop {
        match read_chunks(held.as_slice(), standing, limit, &mut content)? {
            Chunks::Open(next) => standing = next,
            Chunks::Ended(place) => {
                let rest = held.split_off(place)?;
                return Ok(Body { content, rest });
            }
            Chunks::Broken(fault) => return Err(fault),
        }
        held.clear();
        if take_piece(&mut held, source, room)? == 0 {
            return Err(HttpFault::Cut);
        }
    }
}

// Reads a body to the end of the source.
fn read_to_end<S: Source>(
    alloc: Global,
    source: &mut S,
    room: &mut Room,
    limit: usize,
    held: Vec<u8>,
) -> Result<Body, HttpFault>
    requires { limit ≤ RESPONSE_BODY_BYTES }
    ensures body { IfOk result (λ body. EndsBody limit framings.End held.items body (S.left source.old) (S.left source.new)) }
    ensures bound { IfOk result (λ body. length body.rest.items ≤ max (length held.items) PIECE_BYTES) }
    ensures awaits { Takes (IsOpenBody limit framings.End) held.items (S.left source.old) (S.left source.new) }
    ensures refused { IfErr result (λ fault. StopsBody limit framings.End held.items fault (S.left source.old) (S.left source.new)) }
    ensures tally { IfErr result (λ fault. Tallies fault (S.faults source.old) (S.faults source.new)) }
    ensures steady { OnOk result (S.faults source.new ≡ S.faults source.old) }
    ensures beside { S.beside source.new ≡ S.beside source.old }
{
    let mut content = held;
    'pieces: while content.len() <= limit {
        if take_piece(&mut content, source, room)? == 0 {
            let rest = Vec::new(alloc);
            return Ok(Body { content, rest });
        }
    }
    Err(HttpFault::BodyLong)
}
