use crate::Stopped;
use sig_event::{Event, News};
use sig_json::{Bytes, Items, Memory, Text};
use sig_jws::Key;
use sig_outbox::{Call, Client, Defaults, Outbox, PollAsk, PrepareFault, Rules, Step, Want};
use sig_risc::RiscEvent;
use sig_subject::{Plain, Simple, Subject};
use std::alloc::Global;

const STORE_ID: [u8; 16] = [0x11; 16];

const STORE: &str = "11111111-1111-1111-1111-111111111111";

const FIRST_STREAM: &str = "c0-1";

// Streams that a client may have at most.
const CLIENT_STREAMS: u64 = 16;

// Acknowledgements in one poll.
const PAGE_ACKS: u64 = 1_000;

const NOW: u64 = 1_700_000_000;

// A transmitter whose facts are taken in as they are made.
#[derive(Drop)]
struct Transmitter {
    alloc: Global,
    rules: Rules,
    outbox: Outbox,
}

/// Publishes so often over so many streams, which have every subject, and answers how many tokens the first stream owes.
pub fn publish_often(alloc: Global, count: u64, streams: u64) -> Result<u64, Stopped> {
    let mut transmitter = Transmitter::new(alloc, streams)?;
    transmitter.publish(0, count)?;
    transmitter.owed()
}

/// Publishes so often over one stream and acknowledges all of it, publishes so often again, and then polls once with so many
/// acknowledgements, the newest first; answers how many tokens are still owed.
pub fn poll_once(alloc: Global, before: u64, count: u64, acks: u64) -> Result<u64, Stopped> {
    let mut transmitter = Transmitter::new(alloc, 1)?;
    transmitter.publish(0, before)?;
    transmitter.acknowledge_all(before)?;
    transmitter.publish(before, count)?;
    let apart = count.checked_div(acks).unwrap_or(0);
    transmitter.acknowledge(before.saturating_add(count), apart, acks)?;
    transmitter.owed()
}

impl Transmitter {
    fn new(alloc: Global, streams: u64) -> Result<Transmitter, Stopped> {
        let clients = streams.div_ceil(CLIENT_STREAMS);
        let rules = rules(alloc, clients)?;
        let mut transmitter = Transmitter {
            alloc,
            rules,
            outbox: Outbox::new(alloc, STORE_ID),
        };
        for number in 0..streams {
            transmitter.make(create(alloc, number / CLIENT_STREAMS)?)?;
        }
        Ok(transmitter)
    }

    // The call is dropped by itself, so that no function has a part of its many kinds.
    fn make(&mut self, call: Call) -> Result<(), Stopped> {
        let done = self.call(&call);
        drop(call);
        done
    }

    // A call's fact is taken in; its answer is let go.
    fn call(&mut self, call: &Call) -> Result<(), Stopped> {
        let Step { answer, change } = match self.outbox.prepare(&self.rules, call, NOW) {
            Ok(step) => step,
            Err(fault) => return Err(stopped(fault)),
        };
        drop(answer);
        let Some(prepared) = change else {
            return Ok(());
        };
        let fact = prepared.fact().copy(self.alloc)?;
        match self.outbox.apply(fact) {
            Ok(()) => Ok(()),
            Err(_) => Err(Stopped::Core),
        }
    }

    // Publications that are numbered from `first` on.
    fn publish(&mut self, first: u64, count: u64) -> Result<(), Stopped> {
        for number in first..first.saturating_add(count) {
            self.make(publication(self.alloc, number)?)?;
        }
        Ok(())
    }

    // All of so many tokens, in polls of as many as a body may name.
    fn acknowledge_all(&mut self, count: u64) -> Result<(), Stopped> {
        for page in 0..count / PAGE_ACKS {
            self.acknowledge(
                page.saturating_add(1).saturating_mul(PAGE_ACKS),
                1,
                PAGE_ACKS,
            )?;
        }
        self.acknowledge(count, 1, count % PAGE_ACKS)
    }

    // Polls once with so many acknowledgements: the last token, and from there on each that lies so far before the one before.
    fn acknowledge(&mut self, last: u64, apart: u64, acks: u64) -> Result<(), Stopped> {
        let mut names = Vec::new(self.alloc);
        for ack in 0..acks {
            let number = last.saturating_sub(ack.saturating_mul(apart));
            names.push(token_name(self.alloc, number)?)?;
        }
        self.make(Call::Poll {
            client: client_name(self.alloc, 0)?,
            stream: Text::of(self.alloc, FIRST_STREAM)?,
            ask: PollAsk {
                max: Some(0),
                acks: Items::of(names),
                errors: Items::of(Vec::new(self.alloc)),
            },
        })
    }

    fn owed(&self) -> Result<u64, Stopped> {
        match self.outbox.owed(FIRST_STREAM) {
            Some(owed) => Ok(owed),
            None => Err(Stopped::Core),
        }
    }
}

fn stopped(fault: PrepareFault) -> Stopped {
    match fault {
        PrepareFault::Memory => Stopped::Memory,
        PrepareFault::Number(_) => Stopped::Core,
    }
}

fn client_name(alloc: Global, number: u64) -> Result<Text, Memory> {
    Ok(Text::from_string(format!(in alloc; "c{number}")?))
}

fn token_name(alloc: Global, number: u64) -> Result<Text, Memory> {
    Ok(Text::from_string(format!(in alloc; "{STORE}.{FIRST_STREAM}.{number}")?))
}

fn rules(alloc: Global, clients: u64) -> Result<Rules, Memory> {
    let mut listed = Vec::new(alloc);
    for number in 0..clients {
        listed.push(client(alloc, number)?)?;
    }
    Ok(Rules {
        issuer: Text::of(alloc, "https://idp.example")?,
        base: Text::of(alloc, "https://idp.example")?,
        defaults: Defaults::All,
        interval: 0,
        gateway: None,
        operator: Text::of(alloc, "operator-token")?,
        clients: Items::of(listed),
        key: Key {
            kid: None,
            bytes: Bytes::of(alloc, &[0x61; 32])?,
        },
    })
}

fn client(alloc: Global, number: u64) -> Result<Client, Memory> {
    let mut audience = Vec::new(alloc);
    audience.push(Text::of(alloc, "https://rp.example")?)?;
    Ok(Client {
        name: client_name(alloc, number)?,
        bearer: Text::from_string(format!(in alloc; "token-{number}")?),
        aud: Items::of(audience),
    })
}

fn create(alloc: Global, client: u64) -> Result<Call, Memory> {
    Ok(Call::Create {
        client: client_name(alloc, client)?,
        want: Want {
            requested: None,
            delivery: None,
            description: None,
        },
    })
}

fn publication(alloc: Global, number: u64) -> Result<Call, Memory> {
    let id = Text::from_string(format!(in alloc; "user-{number}")?);
    Ok(Call::Publish {
        id: Text::from_string(format!(in alloc; "publication-{number}")?),
        news: News {
            subject: Subject::Simple(Simple::Plain(Plain::Opaque { id })),
            event: Event::Risc(RiscEvent::SessionsRevoked),
        },
    })
}
