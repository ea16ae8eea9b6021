ghost use Rattle.std.specs.Prelude.{◌≡◌, ◌≤◌, ◌+◌, ◌++◌, length, max, IfErr, IfOk, IfSome, IsErrOf, OnOk};
ghost use Rattle.sig_outside.specs.Causes.{Raised};
ghost use Rattle.sig_http.specs.declared.limits.TheConstants.{PIECE_BYTES};
ghost use Rattle.sig_http.specs.Bodies.{StopsSection, TakesSection};
ghost use Rattle.sig_http.specs.Faults.{Tallies};
ghost use Rattle.sig_http.specs.Pieces.{Draws};
ghost use Rattle.sig_http.specs.Message.{Reads, ReadsResponseOf, Refuses, RefusesResponse};
ghost use Rattle.sig_http.specs.Taking.{DrawsWhile, IsOpenRequest, IsOpenResponse, IsOpenSection, Takes, TakesAtMost, taken_bytes};
ghost use Rattle.sig_json.specs.declared.limits.TheConstants.{REQUEST_BODY_BYTES, RESPONSE_BODY_BYTES};

use crate::body::{Body, read_body};
use crate::head::{request_head, response_head};
use crate::piece::{Room, take_piece};
use crate::section::{START, Section, scan_section};
use crate::{Got, HttpFault, Kept, Request, Response};
use sig_json::Bytes;
use sig_json::limits::{REQUEST_BODY_BYTES, RESPONSE_BODY_BYTES};
use sig_outside::Source;
use std::alloc::Global;

/// Reads the next request of a source, from the bytes that were kept of it on. The caller lends the same source each time.
///
/// `Got::End` comes exactly where the source ended before the first byte of a request. A fault is the one that the shortest
/// prefix of the bytes decides, and of those that one prefix decides it is the first in the order of `HttpFault`'s head
/// faults: `HeadLong`, `Head`, `Host`, `Expect`, `Coding`, `Length`, `BodyLong`. `Cut` comes where the source ends before any
/// is decided, and `Link` exactly where one of its calls failed: the count of its faults is raised by one, and stays
/// otherwise. After a fault the source isn't to be used any more.
pub fn read_request<S: Source>(
    alloc: Global,
    source: &mut S,
    kept: &mut Kept,
) -> Result<Got, HttpFault>
    // A request that is answered is the one that the bytes which were kept and left decide, however they are cut.
    ensures found { IfOk result (λ got. IfSome (S.left source.old) (λ left. Reads (kept.old ++ left) got kept.new (S.left source.new))) }

    // It takes no more than a piece beyond the message.
    ensures bound { OnOk result (length kept.new ≤ max (length kept.old) PIECE_BYTES) }

    // It takes no piece after the one that completes or breaks the message, whatever it answers.
    ensures awaits { Takes IsOpenRequest kept.old (S.left source.old) (S.left source.new) }

    // And so it takes no more than these bytes.
    ensures most { TakesAtMost (taken_bytes REQUEST_BODY_BYTES) (S.left source.old) (S.left source.new) }

    // A refusal is the one that these bytes decide.
    ensures refused { IfErr result (λ fault. IfSome (S.left source.old) (λ left. Refuses (kept.old ++ left) fault)) }
    ensures link { IsErrOf result HttpFault.Link → Raised (S.faults source.old) (S.faults source.new) }
    ensures steady { (IsErrOf result HttpFault.Link → ⊥) → S.faults source.new ≡ S.faults source.old }
    ensures beside { S.beside source.new ≡ S.beside source.old }
    ensures later { S.faults source.old ≤ S.faults source.new }
{
    let mut room = Room::new(alloc)?;
    let mut held = kept.take(alloc);
    let Some(count) = take_section(&mut held, source, &mut room)? else {
        return Ok(Got::End);
    };
    let after = held.split_off(count)?;
    let (mut request, framing) = request_head(alloc, held.as_slice())?;
    let body = read_body(alloc, source, &mut room, REQUEST_BODY_BYTES, framing, after)?;
    kept.put(body.rest);
    request.body = Bytes::from_vec(body.content);
    Ok(Got::Request(request))
}

/// Reads the next response of a source, from the bytes that were kept of it on. The caller lends the same source each time.
///
/// A response without a length and a coding ends where the source ends. `Cut` comes where the source ends within a
/// response, and where it gives none; `Host`, `Expect` and `Coding` never come, and the other faults as for requests.
pub fn read_response<S: Source>(
    alloc: Global,
    source: &mut S,
    kept: &mut Kept,
) -> Result<Response, HttpFault>
    // The response is the one that the bytes which were kept and left decide, however they are cut.
    ensures found { IfOk result (λ response. IfSome (S.left source.old) (λ left. ReadsResponseOf (kept.old ++ left) response kept.new (S.left source.new))) }

    // It takes no more than a piece beyond the message.
    ensures bound { OnOk result (length kept.new ≤ max (length kept.old) PIECE_BYTES) }

    // It takes no piece after the one that completes or breaks the message, whatever it answers.
    ensures awaits { Takes IsOpenResponse kept.old (S.left source.old) (S.left source.new) }

    // And so it takes no more than these bytes.
    ensures most { TakesAtMost (taken_bytes RESPONSE_BODY_BYTES) (S.left source.old) (S.left source.new) }

    // A refusal is the one that these bytes decide.
    ensures refused { IfErr result (λ fault. IfSome (S.left source.old) (λ left. RefusesResponse (kept.old ++ left) fault)) }
    ensures link { IsErrOf result HttpFault.Link → Raised (S.faults source.old) (S.faults source.new) }
    ensures steady { (IsErrOf result HttpFault.Link → ⊥) → S.faults source.new ≡ S.faults source.old }
    ensures beside { S.beside source.new ≡ S.beside source.old }
    ensures later { S.faults source.old ≤ S.faults source.new }
{
    let mut room = Room::new(alloc)?;
    let mut held = kept.take(alloc);
    let Some(count) = take_section(&mut held, source, &mut room)? else {
        return Err(HttpFault::Cut);
    };
    let after = held.split_off(count)?;
    let (mut response, framing) = response_head(alloc, held.as_slice())?;
    let body = read_body(
        alloc,
        source,
        &mut room,
        RESPONSE_BODY_BYTES,
        framing,
        after,
    )?;
    kept.put(body.rest);
    response.body = Bytes::from_vec(body.content);
    Ok(response)
}

// Takes a whole head section, and answers how long it is; none where the source gives no byte.
fn take_section<S: Source>(
    held: &mut Vec<u8>,
    source: &mut S,
    room: &mut Room,
) -> Result<Option<usize>, HttpFault>
    ensures draws { Draws held.old.items held.new.items (S.left source.old) (S.left source.new) }
    ensures awaits { DrawsWhile IsOpenSection held.old.items held.new.items (S.left source.old) (S.left source.new) }
    ensures taken { IfOk result (λ taken. TakesSection taken held.new.items (S.left source.new)) }
    ensures bound { IfOk result (λ taken. IfSome taken (λ count. length held.new.items ≤ count + max (length held.old.items) PIECE_BYTES)) }
    ensures refused { IfErr result (λ fault. StopsSection fault held.new.items (S.left source.new)) }
    ensures tally { IfErr result (λ fault. Tallies fault (S.faults source.old) (S.faults source.new)) }
    ensures steady { OnOk result (S.faults source.new ≡ S.faults source.old) }
    ensures beside { S.beside source.new ≡ S.beside source.old }
{
    let mut scan = START;
    let mut judged = 0;
    'pieces: loop {
        match scan_section(held.as_slice().split_at(judged).1, scan) {
            Section::Open(next) => scan = next,
            Section::Ended(count) => return Ok(Some(count)),
            Section::Long => return Err(HttpFault::HeadLong),
        }
        judged = held.len();
        if take_piece(held, source, room)? == 0 {
            return if judged == 0 {
                Ok(None)
            } else {
                Err(HttpFault::Cut)
            };
        }
    }
}
