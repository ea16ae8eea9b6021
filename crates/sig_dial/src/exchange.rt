//! One request and its response over a link.

ghost use Rattle.std.specs.Prelude.{◌≡◌, ◌⊎◌, ◌++◌, IfErr, IfOk, IfSome};
ghost use Rattle.sig_http.specs.Message.{ReadsResponseOf};
ghost use Rattle.sig_http.specs.Spelling.{request_spelling};
ghost use Rattle.sig_http.specs.Taking.{IsOpenResponse, Takes, TakesAtMost, taken_bytes};
ghost use Rattle.sig_json.specs.declared.limits.TheConstants.{RESPONSE_BODY_BYTES};
ghost use Rattle.sig_dial.specs.Exchanged as spec;
ghost use Rattle.sig_dial.specs.Exchanged.{Decides, ReadsNothing, StopsBefore, Tallies, Writes, WritesAll};
ghost use Rattle.sig_dial.specs.Interim as interim;
ghost use Rattle.sig_dial.specs.Reading.{StopsReading, exchange_bytes};

use crate::AskFault;
use crate::limits::INTERIM_RESPONSES;
use sig_http::{HttpFault, Kept, Request, Response, SendFault, read_response, write_request};
use sig_links::Link;
use sig_outside::Place;
use std::alloc::Global;

// The status after which a link speaks another protocol (RFC 9110, section 15.2.2).
const SWITCHING_PROTOCOLS: u16 = 101;

/// Writes a request to a link, and reads the response to it.
///
/// A response is read only once the request is written whole. At most `INTERIM_RESPONSES` interim ones before it are passed
/// over (RFC 9110, section 15.2); one more, and one of status 101, which no request here asks for, are no response.
/// `Dial` never comes.
pub fn exchange<L: Link>(
    alloc: Global,
    link: &mut L,
    host: &Place,
    request: &Request,
    kind: &str,
    language: bool,
) -> Result<Response, AskFault>
    ensures writes { Writes (request_spelling host.now request.now kind.now language) (L.written link.old) (L.written link.new) result }
    ensures decides { IfSome (L.left link.old) (λ bytes. Decides bytes result) }
    ensures tallies { Tallies (L.Source.faults link.old) (L.Source.faults link.new) (L.Sink.faults link.old) (L.Sink.faults link.new) result }
    ensures place { L.dialled link.new ≡ L.dialled link.old }

    // Nothing is read before the whole request is written.
    ensures awaits { ReadsNothing (L.left link.old) (L.left link.new) (L.Source.faults link.old) (L.Source.faults link.new)
        ⊎ WritesAll (request_spelling host.now request.now kind.now language)
        (L.written link.old) (L.written link.new) (L.Sink.faults link.old) (L.Sink.faults link.new) }

    // No piece is read after the one that decides the response, whatever is answered.
    ensures stops { IfSome (L.left link.old) (λ bytes. StopsReading bytes (L.left link.new)) }

    // And so no more than these bytes are read.
    ensures most { TakesAtMost exchange_bytes (L.left link.old) (L.left link.new) }
{
    match write_request(alloc, link, host, request, kind, language) {
        Ok(()) => response_of(alloc, link),
        Err(fault) => Err(unsent_by(fault)),
    }
}

// The response to a request at the start of what a link gives, behind the interim ones.
fn response_of<L: Link>(alloc: Global, link: &mut L) -> Result<Response, AskFault>
    ensures stops { IfSome (L.left link.old) (λ bytes. StopsReading bytes (L.left link.new)) }
    ensures most { TakesAtMost exchange_bytes (L.left link.old) (L.left link.new) }
    ensures decides { IfSome (L.left link.old) (λ bytes. Decides bytes result) }
    ensures tallies { Tallies (L.Source.faults link.old) (L.Source.faults link.new) (L.Sink.faults link.old) (L.Sink.faults link.new) result }
    ensures puts { L.Sink.faults link.new ≡ L.Sink.faults link.old }
    ensures writes { L.written link.new ≡ L.written link.old }
    ensures place { L.dialled link.new ≡ L.dialled link.old }
{
    let mut kept = Kept::new(alloc);
    let mut passed = 0;
    while passed <= INTERIM_RESPONSES {
        let response = next_response(alloc, link, &mut kept)?;
        if !is_interim(response.status) {
            return unless_switching(response);
        }
        passed += 1;
    }
    Err(AskFault::NoResponse)
}

// The next response of a link.
fn next_response<L: Link>(
    alloc: Global,
    link: &mut L,
    kept: &mut Kept,
) -> Result<Response, AskFault>
    ensures found { IfOk result (λ response. IfSome (L.left link.old) (λ left. ReadsResponseOf (kept.old ++ left) response kept.new (L.left link.new))) }
    ensures takes { Takes IsOpenResponse kept.old (L.left link.old) (L.left link.new) }
    ensures most { TakesAtMost (taken_bytes RESPONSE_BODY_BYTES) (L.left link.old) (L.left link.new) }
    ensures none { IfErr result (λ fault. IfSome (L.left link.old) (λ left. StopsBefore (kept.old ++ left) fault)) }
    ensures tallies { Tallies (L.Source.faults link.old) (L.Source.faults link.new) (L.Sink.faults link.old) (L.Sink.faults link.new) result }
    ensures puts { L.Sink.faults link.new ≡ L.Sink.faults link.old }
    ensures writes { L.written link.new ≡ L.written link.old }
    ensures place { L.dialled link.new ≡ L.dialled link.old }
{
    match read_response(alloc, link, kept) {
        Ok(response) => Ok(response),
        Err(fault) => Err(unread_by(fault)),
    }
}

// Whether the response to the request is still to come after one of this status.
fn is_interim(status: u16) -> bool
    ensures { result ≡ interim.is_interim status }
{
    100 <= status && status < 200 && status != SWITCHING_PROTOCOLS
}

// This response to a request, unless it changes the protocol, which no request here asks for.
fn unless_switching(response: Response) -> Result<Response, AskFault>
    ensures { result ≡ spec.unless_switching response }
{
    if response.status == SWITCHING_PROTOCOLS {
        return Err(AskFault::NoResponse);
    }
    Ok(response)
}

// Why a request wasn't written whole. A link is never stuck.
fn unsent_by(fault: SendFault) -> AskFault
    ensures { result ≡ spec.unsent_by fault }
{
    match fault {
        SendFault::Link | SendFault::Stuck => AskFault::Link,
        SendFault::Memory => AskFault::Memory,
    }
}

// Why no response was read.
fn unread_by(fault: HttpFault) -> AskFault
    ensures { result ≡ spec.unread_by fault }
{
    match fault {
        HttpFault::Link => AskFault::Link,
        HttpFault::Memory => AskFault::Memory,
        _ => AskFault::NoResponse,
    }
}
