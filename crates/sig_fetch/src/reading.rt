//! The page that a poll is answered.

ghost use Rattle.std.specs.Prelude.{◌≡◌};
ghost use Rattle.sig_json.specs.Answers.{Answers};
ghost use Rattle.sig_fetch.specs.Pages as spec;
ghost use Rattle.sig_fetch.specs.Pages.{IsPage};

use crate::FetchFault;
use sig_delivery::{BodyFault, Sets, read_sets};
use sig_dial::AskFault;
use sig_http::Response;
use sig_json::Text;
use std::alloc::Global;

/// The page of what a request was answered. `Peer` says where it is at fault: `http`, `status`, or a member of the body.
pub fn page_in(alloc: Global, answer: Result<Response, AskFault>) -> Result<Sets, FetchFault>
    ensures { IsPage answer result }
{
    match answer {
        Ok(response) => page_of(alloc, &response),
        Err(AskFault::Dial) => Err(FetchFault::Dial),
        Err(AskFault::Link) => Err(FetchFault::Link),
        Err(AskFault::NoResponse) => Err(FetchFault::Peer(Text::of(alloc, "http")?)),
        Err(AskFault::Memory) => Err(FetchFault::Memory),
    }
}

// The page of a response.
fn page_of(alloc: Global, response: &Response) -> Result<Sets, FetchFault>
    ensures { Answers FetchFault.Memory result (spec.page_of response.now) }
{
    if response.status == 200 {
        page_read(read_sets(alloc, response.body.as_slice()))
    } else {
        Err(FetchFault::Peer(Text::of(alloc, "status")?))
    }
}

// A page that was read, or the fault of the body.
fn page_read(read: Result<Sets, BodyFault>) -> Result<Sets, FetchFault>
    ensures { result ≡ spec.page_read read }
{
    match read {
        Ok(page) => Ok(page),
        Err(BodyFault::Bad(member)) => Err(FetchFault::Peer(member)),
        Err(BodyFault::Memory) => Err(FetchFault::Memory),
    }
}
