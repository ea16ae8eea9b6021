//! The response to what came of a request.

ghost use Rattle.std.specs.Prelude.{◌≡◌, IfOk, Some};
ghost use Rattle.sig_serving.specs.Line.{seen};
ghost use Rattle.sig_link.specs.Answering as spec;
ghost use Rattle.sig_link.specs.Answering.{IsAnswered, IsResponse};

use crate::End;
use crate::course::Course;
use sig_http::{Request, Response, empty, refusal_of};
use sig_journal::NodeFault;
use sig_json::Memory;
use sig_links::Link;
use sig_serving::{LinkEnd, run_out, send};
use std::alloc::Global;
use std::sync::Wait;

// The status of a request for whose response there is no memory (RFC 4918, section 11.5).
const STARVED: u16 = 507;

/// The response to why a turn has no answer: 503 where the store failed, and 500 where a number would pass its limit (RFC
/// 9110, sections 15.6.1 and 15.6.4). `Memory` has none.
pub fn faulted(alloc: Global, fault: NodeFault) -> Result<Response, Memory>
    ensures { IfOk result (λ response. response ≡ spec.faulted fault) }
{
    match fault {
        NodeFault::Store => empty(alloc, 503),
        NodeFault::Full(_) => empty(alloc, 500),
        NodeFault::Memory => Err(Memory),
    }
}

// Writes a response to what came of a request, and counts it; or that memory ran out.
pub fn respond<E: End, R: Wait, L: Link>(
    alloc: Global,
    rt: &R,
    taker: &mut E::Taker,
    rules: &E::Rules,
    stream: &mut L,
    request: &Request,
    course: &Course<E::Turn>,
    close: bool,
) -> Result<(), LinkEnd>
    ensures answered { IsAnswered E.meaning rules.now close course.now result
        (seen L.left L.written L.Source.faults L.Sink.faults stream.old)
        (seen L.left L.written L.Source.faults L.Sink.faults stream.new) }
    ensures told { E.told taker.new ≡ E.told taker.old }
    ensures left { L.left stream.new ≡ L.left stream.old }
    ensures reads { L.Source.faults stream.new ≡ L.Source.faults stream.old }
    ensures place { L.dialled stream.new ≡ L.dialled stream.old }
{
    match response_to::<E, R>(alloc, rt, taker, rules, course) {
        Ok(mut response) => {
            E::count(rt, taker, request, response.status);
            response.close = close;
            send(alloc, stream, &response)
        }
        Err(Memory) => {
            E::count(rt, taker, request, STARVED);
            Err(run_out(stream))
        }
    }
}

// A response to what came of a request.
fn response_to<E: End, R: Wait>(
    alloc: Global,
    rt: &R,
    taker: &mut E::Taker,
    rules: &E::Rules,
    course: &Course<E::Turn>,
) -> Result<Response, Memory>
    ensures responds { IfOk result (λ response. IsResponse E.meaning rules.now course.now response) }
    ensures told { E.told taker.new ≡ E.told taker.old }
{
    match course {
        Course::Refused(refusal) => refusal_of(alloc, refusal),
        Course::Turned(turn) => E::response(alloc, rt, taker, rules, turn),
    }
}
