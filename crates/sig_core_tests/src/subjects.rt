//! Which streams hear of a publication, while streams and what they list come and go.

use sig_event::{Event, News};
use sig_json::{Items, Memory, Text};
use sig_outbox::{ApplyFault, Defaults, Delivery, Fact, Outbox, StreamConf};
use sig_subject::{Member, Plain, Simple, Subject};
use std::alloc::Global;
use std::test::Fail;

fn created(alloc: Global, stream: &str, defaults: Defaults) -> Result<Fact, Memory> {
    let conf = StreamConf {
        stream: Text::of(alloc, stream)?,
        iss: Text::of(alloc, "https://idp.example")?,
        aud: Items::of(Vec::new(alloc)),
        requested: None,
        delivery: Delivery::Poll,
        interval: 0,
        defaults,
        description: None,
    };
    Ok(Fact::Created { conf, time: 1 })
}

fn simple(alloc: Global, id: &str) -> Result<Simple, Memory> {
    Ok(Simple::Plain(Plain::Opaque {
        id: Text::of(alloc, id)?,
    }))
}

// The subject of a text: one that begins with `c` is complex, with a user of that name.
fn subject(alloc: Global, id: &str) -> Result<Subject, Memory> {
    if !id.starts_with('c') {
        return Ok(Subject::Simple(simple(alloc, id)?));
    }
    let mut members = Vec::new(alloc);
    let name = Text::of(alloc, "user")?;
    let simple = simple(alloc, id)?;
    members.push(Member { name, simple })?;
    Ok(Subject::Complex {
        members: Items::of(members),
    })
}

fn listed(alloc: Global, stream: &str, id: &str) -> Result<Fact, Memory> {
    Ok(Fact::Listed {
        stream: Text::of(alloc, stream)?,
        subject: subject(alloc, id)?,
    })
}

fn unlisted(alloc: Global, stream: &str, id: &str) -> Result<Fact, Memory> {
    Ok(Fact::Unlisted {
        stream: Text::of(alloc, stream)?,
        subject: subject(alloc, id)?,
    })
}

fn deleted(alloc: Global, stream: &str) -> Result<Fact, Memory> {
    Ok(Fact::Deleted {
        stream: Text::of(alloc, stream)?,
    })
}

fn published(alloc: Global, name: &str, id: &str) -> Result<Fact, Memory> {
    let uri = "https://schemas.openid.net/secevent/caep/event-type/session-revoked";
    let event = Event::Other {
        uri: Text::of(alloc, uri)?,
    };
    let news = News {
        subject: subject(alloc, id)?,
        event,
    };
    Ok(Fact::Published {
        id: Text::of(alloc, name)?,
        news,
        time: 2,
    })
}

// Streams of both defaults, of which each lists a simple subject, and two a complex one.
fn make(alloc: Global, outbox: &mut Outbox) -> Result<(), ApplyFault> {
    outbox.apply(created(alloc, "b-1", Defaults::None)?)?;
    outbox.apply(created(alloc, "b-2", Defaults::None)?)?;
    outbox.apply(listed(alloc, "b-1", "one")?)?;
    outbox.apply(listed(alloc, "b-2", "one")?)?;
    outbox.apply(listed(alloc, "b-2", "c-one")?)?;
    outbox.apply(created(alloc, "a-1", Defaults::All)?)?;
    outbox.apply(listed(alloc, "a-1", "two")?)
}

// Whether so many tokens are owed by each of the three.
fn owe(outbox: &Outbox, all: Option<u64>, one: Option<u64>, other: Option<u64>) -> bool {
    outbox.owed("a-1") == all && outbox.owed("b-1") == one && outbox.owed("b-2") == other
}

// News about each of the subjects, before any goes.
fn are_heard(alloc: Global, outbox: &mut Outbox) -> Result<bool, ApplyFault> {
    outbox.apply(published(alloc, "p-1", "one")?)?;
    let first = owe(outbox, Some(1), Some(1), Some(1));
    outbox.apply(published(alloc, "p-2", "two")?)?;
    let second = owe(outbox, Some(1), Some(1), Some(1));
    outbox.apply(published(alloc, "p-3", "c-one")?)?;
    Ok(first && second && owe(outbox, Some(2), Some(1), Some(2)))
}

// The same once a subject was taken off, and once a stream was deleted.
fn are_heard_after(alloc: Global, outbox: &mut Outbox) -> Result<bool, ApplyFault> {
    outbox.apply(unlisted(alloc, "b-1", "one")?)?;
    outbox.apply(unlisted(alloc, "a-1", "two")?)?;
    outbox.apply(published(alloc, "p-4", "one")?)?;
    outbox.apply(published(alloc, "p-5", "two")?)?;
    let taken_off = owe(outbox, Some(4), Some(1), Some(3));
    outbox.apply(deleted(alloc, "b-2")?)?;
    outbox.apply(listed(alloc, "b-1", "one")?)?;
    outbox.apply(published(alloc, "p-6", "one")?)?;
    Ok(taken_off && owe(outbox, Some(5), Some(2), None))
}

fn hears_what_it_lists(alloc: Global) -> Result<bool, ApplyFault> {
    let mut outbox = Outbox::new(alloc, [7; 16]);
    make(alloc, &mut outbox)?;
    let before = are_heard(alloc, &mut outbox)?;
    let mut copy = outbox.copy()?;
    let after = are_heard_after(alloc, &mut outbox)?;
    let copied = are_heard_after(alloc, &mut copy)?;
    Ok(before && after && copied && copy.same(&outbox))
}

#[test]
fn a_stream_hears_of_what_it_lists(rt: HostRuntime) -> Result<(), Fail> {
    assert!(rt; hears_what_it_lists(rt.alloc())?);
    Ok(())
}
