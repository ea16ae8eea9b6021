//! The requests of a link, one after the other.

ghost use Rattle.std.specs.Prelude.{◌≡◌, ◌<◌, ℕ, List, [], is_err};
ghost use Rattle.sig_serving.specs.Line.{seen};
ghost use Rattle.sig_link.specs.Exchange as spec;
ghost use Rattle.sig_link.specs.Moment.{desk_of, moment};
ghost use Rattle.sig_link.specs.Serving as serving;
ghost use Rattle.sig_link.specs.Serving.{AnswersRequest, Passes, Serves};
ghost use Rattle.sig_link.specs.Work.{SameBeside, moment_of};

use crate::answering::respond;
use crate::turning::{course_of, follow, keep};
use crate::work::Work;
use crate::{End, LinkLog};
use sig_http::{Got, Kept, Request, read_request};
use sig_json::limits::REQUESTS_PER_LINK;
use sig_json::{Items, Memory};
use sig_links::{Link, Side};
use sig_serving::{LinkEnd, refuse, run_out};
use std::alloc::Global;
use std::sync::Wait;

/// Answers the requests of a link, `REQUESTS_PER_LINK` at most, under this number, and gives the turns that were made.
///
/// Each request is read, routed, and refused by the routes or asked of the taker as one turn; then its response is written.
/// Once it is written whole, what follows its turn is done. The link closes after the last request that it may have, after one
/// that is HTTP/1.0 or asks for closing (RFC 9112, section 9.6), after a fault of a request, and where memory runs out. It may
/// wait for the taker, the link and what follows.
///
/// The end is `End` exactly where the link gave no byte where a request would begin; `Closed` exactly where the last request
/// that was answered is HTTP/1.0 or asks for closing; `Spent` exactly where as many as a link may have were answered and
/// none asks for closing; `Http` and `Sent` where a request can't be read or a response can't be written, for this fault;
/// and `Memory` where memory ran out, after which 507 is written without a body (RFC 4918, section 11.5), or nothing where it
/// ran out in what followed a response.
pub fn serve_link<E: End, R: Wait, L: Link, S: Side>(
    alloc: Global,
    rt: &R,
    taker: &mut E::Taker,
    rules: &E::Rules,
    link: u32,
    stream: &mut L,
    side: &mut S,
) -> LinkLog<E::Turn>
    ensures link { result.link ≡ link }

    // The link was served from its first byte on, with no turn at first, and the log has the turns and the end.
    ensures serves { let came = seen L.left L.written L.Source.faults L.Sink.faults stream.old in
        let left = seen L.left L.written L.Source.faults L.Sink.faults stream.new in
        (kept : List ℕ) × Serves E.meaning rules.now link result.end
        (moment [] came (desk_of (S.view side.old) (E.told taker.old) []))
        (moment kept left (desk_of (S.view side.new) (E.told taker.new) result.turns)) }

    // Where the link was dialled, or that it was accepted, stays.
    ensures place { L.dialled stream.new ≡ L.dialled stream.old }
{
    let mut work = start(alloc, link);
    let end = serve_all::<E, R, L, S>(rt, taker, rules, stream, side, &mut work);
    LinkLog {
        link,
        turns: Items::of(work.turns),
        end,
    }
}

// A link of which nothing was read.
fn start<T>(alloc: Global, link: u32) -> Work<T>
    ensures link { result.link ≡ link }
    ensures answered { result.answered ≡ 0 }
    ensures kept { result.kept ≡ [] }
    ensures turns { result.turns.items ≡ [] }
{
    Work {
        alloc,
        link,
        answered: 0,
        kept: Kept::new(alloc),
        turns: Vec::new(alloc),
    }
}

// Answers the requests of a link.
fn serve_all<E: End, R: Wait, L: Link, S: Side>(
    rt: &R,
    taker: &mut E::Taker,
    rules: &E::Rules,
    stream: &mut L,
    side: &mut S,
    work: &mut Work<E::Turn>,
) -> LinkEnd
    requires { work.old.answered ≡ 0 }
    ensures serves { let came = seen L.left L.written L.Source.faults L.Sink.faults stream.old in
        let left = seen L.left L.written L.Source.faults L.Sink.faults stream.new in
        Serves E.meaning rules.now work.old.link result
        (moment_of work.old came (S.view side.old) (E.told taker.old))
        (moment_of work.new left (S.view side.new) (E.told taker.new)) }
    ensures place { L.dialled stream.new ≡ L.dialled stream.old }
{
    while work.answered < REQUESTS_PER_LINK {
        match serve_next::<E, R, L, S>(rt, taker, rules, stream, side, work) {
            Some(end) => return end,
            None => work.answered += 1,
        }
    }
    LinkEnd::Spent
}

// Answers the next request of a link, or says how the link ends.
fn serve_next<E: End, R: Wait, L: Link, S: Side>(
    rt: &R,
    taker: &mut E::Taker,
    rules: &E::Rules,
    stream: &mut L,
    side: &mut S,
    work: &mut Work<E::Turn>,
) -> Option<LinkEnd>
    requires { work.old.answered < REQUESTS_PER_LINK }
    ensures passes { let came = seen L.left L.written L.Source.faults L.Sink.faults stream.old in
        let left = seen L.left L.written L.Source.faults L.Sink.faults stream.new in
        Passes E.meaning rules.now work.old.link work.old.answered result
        (moment_of work.old came (S.view side.old) (E.told taker.old))
        (moment_of work.new left (S.view side.new) (E.told taker.new)) }
    ensures counts { (work.new.link ≡ work.old.link) × (work.new.answered ≡ work.old.answered) }
    ensures place { L.dialled stream.new ≡ L.dialled stream.old }
{
    match read_request(work.alloc, stream, &mut work.kept) {
        Ok(got) => match got {
            Got::Request(request) => {
                answer::<E, R, L, S>(rt, taker, rules, stream, side, work, &request)
            }
            Got::End => Some(LinkEnd::End),
        },
        Err(fault) => Some(refuse(work.alloc, stream, fault)),
    }
}

// Answers this request, which was read, or says how the link ends.
fn answer<E: End, R: Wait, L: Link, S: Side>(
    rt: &R,
    taker: &mut E::Taker,
    rules: &E::Rules,
    stream: &mut L,
    side: &mut S,
    work: &mut Work<E::Turn>,
    request: &Request,
) -> Option<LinkEnd>
    requires { work.old.answered < REQUESTS_PER_LINK }
    ensures answers { AnswersRequest E.meaning rules.now work.old.link work.old.answered request.now
        result
        (seen L.left L.written L.Source.faults L.Sink.faults stream.old)
        (seen L.left L.written L.Source.faults L.Sink.faults stream.new)
        (desk_of (S.view side.old) (E.told taker.old) work.old.turns.items)
        (desk_of (S.view side.new) (E.told taker.new) work.new.turns.items) }
    ensures left { L.left stream.new ≡ L.left stream.old }
    ensures reads { L.Source.faults stream.new ≡ L.Source.faults stream.old }
    ensures place { L.dialled stream.new ≡ L.dialled stream.old }
    ensures beside { SameBeside work.old work.new }
{
    let close = closes_after(work.answered, request);
    let course = match course_of::<E, R, S>(rt, taker, rules, side, work, request) {
        Ok(course) => course,
        Err(Memory) => return Some(run_out(stream)),
    };
    let alloc = work.alloc;
    match respond::<E, R, L>(alloc, rt, taker, rules, stream, request, &course, close) {
        Ok(()) => {
            let starved = follow::<E, R, S>(rt, taker, rules, side, work, course).is_err();
            end_after(request, starved)
        }
        Err(end) => {
            keep(work, course);
            Some(end)
        }
    }
}

// How the link ends after this request was answered, and memory ran out in what followed or not, where it does.
fn end_after(request: &Request, starved: bool) -> Option<LinkEnd>
    ensures { result ≡ serving.end_after request.now starved }
{
    if starved {
        Some(LinkEnd::Memory)
    } else if request.close {
        Some(LinkEnd::Closed)
    } else {
        None
    }
}

// Whether the link closes after the response to this request, which comes after so many others.
fn closes_after(before: usize, request: &Request) -> bool
    requires { before < REQUESTS_PER_LINK }
    ensures { result ≡ spec.closes_after before request.now }
{
    request.close || before + 1 == REQUESTS_PER_LINK
}
