//! What no run says: one identifier under two issuers, and a text of the journal that is no token.

use crate::tokens::{ISSUER, OTHER, OTHER_TOKEN, TOKEN, trust};
use sig_json::{Memory, Text};
use sig_receiver::{Heard, Receiver, TakeFault};
use sig_set::{PreparedTrust, Spot};
use std::alloc::Global;
use std::test::Fail;

fn heard(alloc: Global, receiver: &mut Receiver, iss: &str, token: &str) -> Result<Heard, Memory> {
    let trust = PreparedTrust::of(alloc, &trust(alloc)?)?;
    let me = Text::of(alloc, iss)?;
    receiver.hear(&trust, Some(&me), None, token.as_bytes())
}

// Whether the tokens of both issuers are accepted, which have one identifier.
fn hears_both(alloc: Global, receiver: &mut Receiver) -> Result<bool, Memory> {
    let one = heard(alloc, receiver, ISSUER, TOKEN)?;
    let other = heard(alloc, receiver, OTHER, OTHER_TOKEN)?;
    Ok(one == Heard::Accepted && other == Heard::Accepted)
}

fn are_accepted(alloc: Global) -> Result<bool, Memory> {
    let mut receiver = Receiver::new(alloc);
    hears_both(alloc, &mut receiver)
}

#[test]
fn an_identifier_is_known_under_its_issuer(rt: HostRuntime) -> Result<(), Fail> {
    assert!(rt; are_accepted(rt.alloc())?);
    Ok(())
}

fn taken_up(alloc: Global, text: &[u8]) -> Result<(), TakeFault> {
    let mut receiver = Receiver::new(alloc);
    receiver.take_up(text)
}

#[test]
fn a_text_that_is_no_token_is_not_taken(rt: HostRuntime) -> Result<(), Fail> {
    assert!(rt; taken_up(rt.alloc(), b"a.b") == Err(TakeFault::Bad(Spot::Compact)));
    Ok(())
}
