//! How ends and counts are told.

use sig_fetch::{FetchFault, Fetched};
use sig_http::{HttpFault, SendFault};
use sig_json::{Bytes, Memory};
use sig_lines::{bare, encoded, said};
use sig_memory_links::MemLink;
use sig_serving::LinkEnd;
use std::alloc::Global;

/// How a link ended, and what was written to it.
pub fn visited(alloc: Global, end: LinkEnd, link: &MemLink) -> Result<Bytes, Memory> {
    let written = encoded(alloc, link.written())?;
    said(alloc, end_word(end), written.as_slice())
}

fn end_word(end: LinkEnd) -> &'static str {
    match end {
        LinkEnd::End => "end",
        LinkEnd::Spent => "spent",
        LinkEnd::Closed => "closed",
        LinkEnd::Http(fault) => fault_word(fault),
        LinkEnd::Sent(SendFault::Link) => "sent-link",
        LinkEnd::Sent(SendFault::Stuck) => "sent-stuck",
        LinkEnd::Sent(SendFault::Memory) | LinkEnd::Memory => "memory",
    }
}

fn fault_word(fault: HttpFault) -> &'static str {
    match fault {
        HttpFault::Head => "head",
        HttpFault::Host => "host",
        HttpFault::HeadLong => "head-long",
        HttpFault::Length => "length",
        HttpFault::BodyLong => "body-long",
        HttpFault::Coding => "coding",
        HttpFault::Expect => "expect",
        HttpFault::Cut => "cut",
        HttpFault::Link => "link",
        HttpFault::Memory => "memory",
    }
}

/// What a fetch came to, and then what was sent on each link.
pub fn brought(
    alloc: Global,
    fetched: &Result<Fetched, FetchFault>,
    links: &[MemLink],
) -> Result<Bytes, Memory> {
    let mut answer = result_of(alloc, fetched)?;
    for link in links {
        answer.add(b" ")?;
        answer.add(encoded(alloc, link.written())?.as_slice())?;
    }
    Ok(answer)
}

fn result_of(alloc: Global, fetched: &Result<Fetched, FetchFault>) -> Result<Bytes, Memory> {
    match fetched {
        Ok(fetched) => counted(alloc, fetched),
        Err(fault) => faulted(alloc, fault),
    }
}

fn counted(alloc: Global, fetched: &Fetched) -> Result<Bytes, Memory> {
    let Fetched {
        rounds,
        accepted,
        seen,
        refused,
    } = *fetched;
    let text = format!(in alloc;
        "rounds {rounds} accepted {accepted} seen {seen} refused {refused}"
    )?;
    Ok(Bytes::from_vec(text.into_bytes()))
}

fn faulted(alloc: Global, fault: &FetchFault) -> Result<Bytes, Memory> {
    match fault {
        FetchFault::NoGateway => bare(alloc, "no-gateway"),
        FetchFault::Dial => bare(alloc, "dial"),
        FetchFault::Link => bare(alloc, "link"),
        FetchFault::Peer(place) => said(alloc, "peer", place.as_str().as_bytes()),
        FetchFault::Store => bare(alloc, "store"),
        FetchFault::Full(_) => bare(alloc, "full"),
        FetchFault::Memory => Err(Memory),
    }
}
