//! Copies that no program makes, once each. That they are equal is their contract, which leaves open whether there is memory.

use sig_delivery::{Listed, Sets};
use sig_event::EventFault;
use sig_http::{Header, Request, Response};
use sig_json::{Bytes, Items, Memory, PayloadFault, Text};
use sig_jws::Compact;
use sig_outside::Line;
use sig_subject::SubjectFault;
use std::alloc::Global;
use std::test::Fail;

fn copies_a_subject_fault(alloc: Global) -> Result<(), Memory> {
    let fault = SubjectFault::Member(Text::of(alloc, "email")?);
    let copy = fault.copy(alloc)?;
    drop(copy);
    Ok(())
}

fn copies_an_event_fault(alloc: Global) -> Result<(), Memory> {
    let fault = EventFault::Payload(PayloadFault::Missing(Text::of(alloc, "email")?));
    let copy = fault.copy(alloc)?;
    drop(copy);
    Ok(())
}

#[test]
fn faults_are_copied(rt: HostRuntime) -> Result<(), Fail> {
    copies_a_subject_fault(rt.alloc())?;
    copies_an_event_fault(rt.alloc())?;
    Ok(())
}

fn copies_a_line(alloc: Global) -> Result<(), Memory> {
    let line = Line::Text {
        number: 1,
        bytes: Bytes::of(alloc, b"a")?,
    };
    let copy = line.copy(alloc)?;
    drop(copy);
    Ok(())
}

fn copies_a_token(alloc: Global) -> Result<(), Memory> {
    let token = Compact {
        header: Bytes::of(alloc, b"{}")?,
        payload: Bytes::new(alloc),
        mac: Bytes::new(alloc),
        input: Bytes::new(alloc),
    };
    let copy = token.copy(alloc)?;
    drop(copy);
    Ok(())
}

fn sets(alloc: Global) -> Result<Sets, Memory> {
    let mut tokens = Vec::new(alloc);
    tokens.push(Listed {
        jti: Text::of(alloc, "s.1")?,
        text: Bytes::of(alloc, b"a.b.c")?,
    })?;
    Ok(Sets {
        tokens: Items::of(tokens),
        more: true,
    })
}

fn copies_sets(alloc: Global) -> Result<(), Memory> {
    let sets = sets(alloc)?;
    let copy = sets.copy(alloc)?;
    drop(copy);
    Ok(())
}

#[test]
fn lines_and_tokens_are_copied(rt: HostRuntime) -> Result<(), Fail> {
    copies_a_line(rt.alloc())?;
    copies_a_token(rt.alloc())?;
    copies_sets(rt.alloc())?;
    Ok(())
}

fn request(alloc: Global) -> Result<Request, Memory> {
    Ok(Request {
        method: Text::of(alloc, "POST")?,
        path: Text::of(alloc, "/poll")?,
        query: Text::of(alloc, "")?,
        bearer: Some(Text::of(alloc, "x")?),
        close: false,
        body: Bytes::of(alloc, b"{}")?,
    })
}

fn copies_a_request(alloc: Global) -> Result<(), Memory> {
    let request = request(alloc)?;
    let copy = request.copy(alloc)?;
    drop(copy);
    Ok(())
}

fn response(alloc: Global) -> Result<Response, Memory> {
    let mut headers = Vec::new(alloc);
    headers.push(Header {
        name: Text::of(alloc, "allow")?,
        value: Text::of(alloc, "GET")?,
    })?;
    Ok(Response {
        status: 405,
        headers: Items::of(headers),
        close: false,
        body: Bytes::of(alloc, b"{}")?,
    })
}

fn copies_a_response(alloc: Global) -> Result<(), Memory> {
    let response = response(alloc)?;
    let copy = response.copy(alloc)?;
    drop(copy);
    Ok(())
}

#[test]
fn messages_are_copied(rt: HostRuntime) -> Result<(), Fail> {
    copies_a_request(rt.alloc())?;
    copies_a_response(rt.alloc())?;
    Ok(())
}
