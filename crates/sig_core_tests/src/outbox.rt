//! A copy of what a transmitter keeps. How it answers calls is said by lines of `sig_turns`.

use sig_json::{Items, Memory, Text};
use sig_outbox::{ApplyFault, Defaults, Delivery, Fact, Outbox, StreamConf};
use std::alloc::Global;
use std::test::Fail;

fn created(alloc: Global) -> Result<Fact, Memory> {
    let conf = StreamConf {
        stream: Text::of(alloc, "acme-1")?,
        iss: Text::of(alloc, "https://idp.example")?,
        aud: Items::of(Vec::new(alloc)),
        requested: None,
        delivery: Delivery::Poll,
        interval: 0,
        defaults: Defaults::All,
        description: None,
    };
    Ok(Fact::Created { conf, time: 1 })
}

fn asked(alloc: Global) -> Result<Fact, Memory> {
    Ok(Fact::Asked {
        stream: Text::of(alloc, "acme-1")?,
        state: None,
        time: 2,
    })
}

fn deleted(alloc: Global) -> Result<Fact, Memory> {
    Ok(Fact::Deleted {
        stream: Text::of(alloc, "acme-1")?,
    })
}

// Makes a stream, which owes a token then.
fn make(alloc: Global, outbox: &mut Outbox) -> Result<(), ApplyFault> {
    outbox.apply(created(alloc)?)?;
    outbox.apply(asked(alloc)?)
}

// Whether both are the same until a fact changes the copy, and the other one stays.
fn part(alloc: Global, outbox: &Outbox, copy: &mut Outbox) -> Result<bool, ApplyFault> {
    let are_same = copy.same(outbox);
    copy.apply(deleted(alloc)?)?;
    Ok(are_same && !copy.same(outbox) && outbox.owed("acme-1") == Some(1))
}

fn has_copy(alloc: Global, outbox: &Outbox) -> Result<bool, ApplyFault> {
    let mut copy = outbox.copy()?;
    part(alloc, outbox, &mut copy)
}

fn is_copied(alloc: Global) -> Result<bool, ApplyFault> {
    let mut outbox = Outbox::new(alloc, [7; 16]);
    make(alloc, &mut outbox)?;
    has_copy(alloc, &outbox)
}

#[test]
fn a_copy_is_the_same_until_a_fact_changes_it(rt: HostRuntime) -> Result<(), Fail> {
    assert!(rt; is_copied(rt.alloc())?);
    Ok(())
}
