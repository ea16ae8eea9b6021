//! A request over a link of its own.

ghost use Rattle.std.specs.Prelude.{◌≡◌};
ghost use Rattle.sig_http.specs.Spelling.{request_spelling};
ghost use Rattle.sig_dial.specs.Asked.{Counts, Hears, Sends};

use crate::AskFault;
use crate::exchange::exchange;
use sig_http::{Request, Response};
use sig_links::Side;
use sig_outside::Place;
use std::alloc::Global;

/// Asks a request over a link that is dialled to a place, and gives the link back to the side.
///
/// The request is written for a host, with a body of a kind; `language` says that its texts are in English (`sig_http`'s
/// `write_request`). The host may differ from the place: behind a gateway it is the server's own.
///
/// `Dial` comes exactly where the dial failed, and then no link was taken; any other answer has dialled one. `NoResponse`
/// comes where the whole request was written and the link gave no response to it. `Dial` and `Link` each raise the side's
/// count by one, and any other answer leaves it.
pub fn ask<S: Side>(
    alloc: Global,
    side: &mut S,
    to: &Place,
    host: &Place,
    request: &Request,
    kind: &str,
    language: bool,
) -> Result<Response, AskFault>
    ensures sends { Sends to.now (request_spelling host.now request.now kind.now language) (S.view side.old).sent (S.view side.new).sent result }
    ensures hears { Hears (S.view side.old).ahead (S.view side.new).ahead result }
    ensures times { (S.view side.new).times ≡ (S.view side.old).times }
    ensures counts { Counts (S.view side.old).faults (S.view side.new).faults result }
{
    match side.dial(to) {
        Ok(mut link) => {
            let answer = exchange(alloc, &mut link, host, request, kind, language);
            side.back(link);
            answer
        }
        Err(_) => Err(AskFault::Dial),
    }
}
