//! Runs of a dispatch by hand.

use crate::{Dispatch, ERRANDS_AT_ONCE};
use sig_courier::Attempt;
use sig_json::{Memory, Text};
use std::alloc::Global;
use std::test::Fail;

// Whether this claim is of that stream.
fn is_of(claimed: &Option<Text>, stream: &Text) -> bool {
    match claimed {
        Some(claimed) => claimed == stream,
        None => false,
    }
}

// Whether streams are claimed in the order in which they were told, each once at a time.
fn claims_in_order(alloc: Global) -> Result<bool, Memory> {
    let mut dispatch = Dispatch::new(alloc);
    let first = Text::of(alloc, "acme-1")?;
    let second = Text::of(alloc, "acme-2")?;
    let mut so = dispatch.wants_listing() && dispatch.begin_listing() && !dispatch.begin_listing();
    dispatch.tell(&first);
    dispatch.tell(&second);
    dispatch.tell(&first);
    dispatch.end_listing(true);
    so = so && !dispatch.wants_listing() && dispatch.claims_at(100);
    so = so && is_of(&dispatch.claim(100), &first);
    dispatch.tell(&first);
    so = so && is_of(&dispatch.claim(100), &second);
    so = so && dispatch.claim(100).is_none() && !dispatch.begin_round(&second);
    dispatch.release(&first, false);
    dispatch.release(&second, false);
    so = so && is_of(&dispatch.claim(100), &first) && is_of(&dispatch.claim(100), &second);
    Ok(so && !dispatch.claims_at(100))
}

// Whether a stream whose attempt was late waits half a minute, and one that is due stands before it.
fn waits_late(alloc: Global) -> Result<bool, Memory> {
    let mut dispatch = Dispatch::new(alloc);
    let late = Text::of(alloc, "acme-1")?;
    let other = Text::of(alloc, "acme-2")?;
    dispatch.tell(&late);
    let mut so = is_of(&dispatch.claim(100), &late);
    let attempt = Attempt {
        stream: late.copy(alloc)?,
        at: 100,
        tokens: 2,
        good: false,
    };
    dispatch.note(&attempt);
    dispatch.release(&late, false);
    so = so && dispatch.claim(129).is_none();
    dispatch.tell(&other);
    so = so && is_of(&dispatch.claim(129), &other) && dispatch.claim(129).is_none();
    Ok(so && dispatch.claims_at(130) && is_of(&dispatch.claim(130), &late))
}

// How many of ten streams are claimed at once.
fn claimed_at_once(alloc: Global) -> Result<u64, Memory> {
    let mut dispatch = Dispatch::new(alloc);
    for name in ["a", "b", "c", "d", "e", "f", "g", "h", "i", "j"] {
        dispatch.tell(&Text::of(alloc, name)?);
    }
    let mut claimed = 0u64;
    for _ in 0..10 {
        if dispatch.claim(100).is_some() {
            claimed = claimed.saturating_add(1);
        }
    }
    Ok(claimed)
}

#[test]
fn streams_are_claimed_in_the_order_in_which_they_were_told(rt: HostRuntime) -> Result<(), Fail> {
    assert!(rt; claims_in_order(rt.alloc())?);
    Ok(())
}

#[test]
fn a_late_stream_waits_and_delays_no_other(rt: HostRuntime) -> Result<(), Fail> {
    assert!(rt; waits_late(rt.alloc())?);
    Ok(())
}

#[test]
fn no_more_than_eight_errands_are_under_way(rt: HostRuntime) -> Result<(), Fail> {
    assert!(rt; claimed_at_once(rt.alloc())? == ERRANDS_AT_ONCE);
    Ok(())
}
