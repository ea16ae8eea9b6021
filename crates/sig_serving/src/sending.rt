//! What is written to a link.

ghost use Rattle.std.specs.Prelude.{◌≡◌};
ghost use Rattle.sig_http.specs.Spelling.{response_spelling};
ghost use Rattle.sig_serving.specs.Texts.{memory_text, spelled};
ghost use Rattle.sig_serving.specs.Line.{Sends, seen};
ghost use Rattle.sig_serving.specs.Sending.{ClosesWith, IsRefusal, Responds};

use crate::LinkEnd;
use sig_http::{HttpFault, Response, SendFault, fault_of, write_response};
use sig_json::Memory;
use sig_links::Link;
use sig_outside::put_all;
use std::alloc::Global;

// The text of the response where memory runs out (RFC 4918, section 11.5), which needs none.
#[tactic(auto, unfolding(crate::specs::Texts::memory_text))]
fn memory_response() -> &'static [u8]
    ensures { result.now ≡ memory_text }
{
    b"HTTP/1.1 507 Insufficient Storage\r\ncache-control: no-store\r\nconnection: close\r\ncontent-length: 0\r\n\r\n"
}

/// Writes that memory ran out, as far as the link takes it.
pub fn run_out<L: Link>(stream: &mut L) -> LinkEnd
    ensures end { result ≡ LinkEnd.Memory }
    ensures sends { Sends memory_text (seen L.left L.written L.Source.faults L.Sink.faults stream.old) (seen L.left L.written L.Source.faults L.Sink.faults stream.new) }
    ensures left { L.left stream.new ≡ L.left stream.old }
    ensures reads { L.Source.faults stream.new ≡ L.Source.faults stream.old }
    ensures place { L.dialled stream.new ≡ L.dialled stream.old }
{
    let text = memory_response();
    let _ = put_all(stream, text);
    LinkEnd::Memory
}

/// Writes a response, or that memory ran out.
pub fn send<L: Link>(alloc: Global, stream: &mut L, response: &Response) -> Result<(), LinkEnd>
    ensures responds { Responds (response_spelling response.now) result (seen L.left L.written L.Source.faults L.Sink.faults stream.old) (seen L.left L.written L.Source.faults L.Sink.faults stream.new) }
    ensures left { L.left stream.new ≡ L.left stream.old }
    ensures reads { L.Source.faults stream.new ≡ L.Source.faults stream.old }
    ensures place { L.dialled stream.new ≡ L.dialled stream.old }
{
    match write_response(alloc, stream, response) {
        Ok(()) => Ok(()),
        Err(fault) => match fault {
            SendFault::Memory => Err(run_out(stream)),
            SendFault::Link => Err(LinkEnd::Sent(SendFault::Link)),
            SendFault::Stuck => Err(LinkEnd::Sent(SendFault::Stuck)),
        },
    }
}

/// Writes the response to a request that can't be read, where there is one, as far as the link takes it; or that memory ran
/// out.
pub fn refuse<L: Link>(alloc: Global, stream: &mut L, fault: HttpFault) -> LinkEnd
    ensures refusal { IsRefusal fault result (seen L.left L.written L.Source.faults L.Sink.faults stream.old) (seen L.left L.written L.Source.faults L.Sink.faults stream.new) }
    ensures left { L.left stream.new ≡ L.left stream.old }
    ensures reads { L.Source.faults stream.new ≡ L.Source.faults stream.old }
    ensures place { L.dialled stream.new ≡ L.dialled stream.old }
{
    match fault {
        HttpFault::Memory => run_out(stream),
        _ => match fault_of(alloc, &fault) {
            Ok(closing) => close_with(alloc, stream, &closing, fault),
            Err(Memory) => run_out(stream),
        },
    }
}

// Writes this response to the fault, where there is one, as far as the link takes it; or that memory ran out.
fn close_with<L: Link>(
    alloc: Global,
    stream: &mut L,
    closing: &Option<Response>,
    fault: HttpFault,
) -> LinkEnd
    ensures closes { ClosesWith (spelled closing.now) fault result (seen L.left L.written L.Source.faults L.Sink.faults stream.old) (seen L.left L.written L.Source.faults L.Sink.faults stream.new) }
    ensures left { L.left stream.new ≡ L.left stream.old }
    ensures reads { L.Source.faults stream.new ≡ L.Source.faults stream.old }
    ensures place { L.dialled stream.new ≡ L.dialled stream.old }
{
    match closing {
        None => LinkEnd::Http(fault),
        Some(response) => match write_response(alloc, stream, response) {
            Ok(()) => LinkEnd::Http(fault),
            Err(sent) => match sent {
                SendFault::Memory => run_out(stream),
                SendFault::Link => LinkEnd::Http(fault),
                SendFault::Stuck => LinkEnd::Http(fault),
            },
        },
    }
}
