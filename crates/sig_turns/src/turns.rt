//! The core, its rules, and the answers to lines.

use crate::answers::{counted, told};
use crate::calls::call_named;
use sig_json::{Bytes, Items, Memory, Text, Value, list_of, present, text_of};
use sig_jws::Key;
use sig_lines::{Answering, bare, defaults_in, interval_in, number_at, spelled, texts_in};
use sig_outbox::{
    ApplyFault, Call, Client, Defaults, Fact, Outbox, PrepareFault, Prepared, Rules, Step,
};
use std::alloc::Global;
use std::str;

/// The store of the core, 6ba7b810-9dad-11d1-80b4-00c04fd430c8.
const STORE_ID: [u8; 16] = [
    0x6b, 0xa7, 0xb8, 0x10, 0x9d, 0xad, 0x11, 0xd1, 0x80, 0xb4, 0x00, 0xc0, 0x4f, 0xd4, 0x30, 0xc8,
];

/// A transmitter's core, and the rules of its next call.
#[derive(Drop)]
pub struct Turns {
    alloc: Global,
    rules: Rules,
    core: Outbox,
}

impl Turns {
    /// A core without streams, under rules without clients.
    pub fn new(alloc: Global) -> Result<Turns, Memory> {
        let nobody = Items::of(Vec::new(alloc));
        Ok(Turns {
            alloc,
            rules: rules_of(alloc, "", Defaults::All, 0, nobody)?,
            core: Outbox::new(alloc, STORE_ID),
        })
    }

    // Sets the rules where the rest spells some.
    fn ruled(&mut self, rest: &[u8]) -> Result<Option<Bytes>, Memory> {
        let Some(rules) = rules_in(self.alloc, rest)? else {
            return Ok(None);
        };
        let answer = bare(self.alloc, "ok")?;
        self.rules = rules;
        Ok(Some(answer))
    }

    // Makes the core new where nothing follows the word.
    fn cleared(&mut self, rest: &[u8]) -> Result<Option<Bytes>, Memory> {
        if !rest.is_empty() {
            return Ok(None);
        }
        let answer = bare(self.alloc, "ok")?;
        self.core = Outbox::new(self.alloc, STORE_ID);
        Ok(Some(answer))
    }
}

impl Answering for Turns {
    fn told(&mut self, word: &str, rest: &[u8]) -> Result<Option<Bytes>, Memory> {
        match word {
            "rules" => self.ruled(rest),
            "call" => call(self.alloc, &mut self.core, &self.rules, rest),
            "owed" => owed(self.alloc, &self.core, rest),
            "clear" => self.cleared(rest),
            _ => Ok(None),
        }
    }
}

// The rules that the rest spells: clients with their audiences, default subjects, an interval and an issuer.
fn rules_in(alloc: Global, rest: &[u8]) -> Result<Option<Rules>, Memory> {
    let Some(case) = spelled(alloc, rest)? else {
        return Ok(None);
    };
    let (Some(issuer), Some(defaults)) = (text_of(&case, "issuer"), defaults_in(&case)) else {
        return Ok(None);
    };
    let (Some(list), Some(interval)) = (list_of(&case, "clients"), interval_in(&case)) else {
        return Ok(None);
    };
    match clients(alloc, list.as_slice())? {
        Some(clients) => Ok(Some(rules_of(alloc, issuer, defaults, interval, clients)?)),
        None => Ok(None),
    }
}

// Calls ask for neither addresses, bearers nor keys.
fn rules_of(
    alloc: Global,
    issuer: &str,
    defaults: Defaults,
    interval: u64,
    clients: Items<Client>,
) -> Result<Rules, Memory> {
    Ok(Rules {
        issuer: Text::of(alloc, issuer)?,
        base: Text::of(alloc, "")?,
        defaults,
        interval,
        gateway: None,
        operator: Text::of(alloc, "")?,
        clients,
        key: Key {
            kid: None,
            bytes: Bytes::new(alloc),
        },
    })
}

fn clients(alloc: Global, list: &[Value]) -> Result<Option<Items<Client>>, Memory> {
    let mut clients = Vec::new(alloc);
    for value in list {
        match client(alloc, value)? {
            Some(client) => clients.push(client)?,
            None => return Ok(None),
        }
    }
    Ok(Some(Items::of(clients)))
}

fn client(alloc: Global, value: &Value) -> Result<Option<Client>, Memory> {
    let (Some(name), Some(list)) = (text_of(value, "name"), list_of(value, "aud")) else {
        return Ok(None);
    };
    let Some(aud) = texts_in(alloc, list.as_slice())? else {
        return Ok(None);
    };
    Ok(Some(Client {
        name: Text::of(alloc, name)?,
        bearer: Text::of(alloc, "")?,
        aud,
    }))
}

// How many tokens the stream of this name owes, `none` where it doesn't stand; none where the rest is no text.
fn owed(alloc: Global, core: &Outbox, rest: &[u8]) -> Result<Option<Bytes>, Memory> {
    let Ok(stream) = str::from_utf8(rest) else {
        return Ok(None);
    };
    let answer = match core.owed(stream) {
        Some(count) => counted(alloc, "owed", count)?,
        None => bare(alloc, "none")?,
    };
    Ok(Some(answer))
}

// The answer to the call that the rest spells, whose fact is taken in; none where it spells none.
fn call(
    alloc: Global,
    core: &mut Outbox,
    rules: &Rules,
    rest: &[u8],
) -> Result<Option<Bytes>, Memory> {
    let Some(case) = spelled(alloc, rest)? else {
        return Ok(None);
    };
    let (Some(name), Some(now)) = (text_of(&case, "call"), time_in(&case)) else {
        return Ok(None);
    };
    match call_named(alloc, name, &case) {
        Ok(Some(call)) => Ok(Some(made(alloc, core, rules, call, now)?)),
        Ok(None) => Ok(None),
        Err(Memory) => Err(Memory),
    }
}

// The member `at`, 0 where it isn't there.
fn time_in(case: &Value) -> Option<u64> {
    if !present(case, "at") {
        return Some(0);
    }
    number_at(case, "at")
}

// The call is dropped by itself, so that this function has no part of its many kinds.
fn made(
    alloc: Global,
    core: &mut Outbox,
    rules: &Rules,
    call: Call,
    now: u64,
) -> Result<Bytes, Memory> {
    let answer = prepared(alloc, core, rules, &call, now);
    drop(call);
    answer
}

fn prepared(
    alloc: Global,
    core: &mut Outbox,
    rules: &Rules,
    call: &Call,
    now: u64,
) -> Result<Bytes, Memory> {
    match core.prepare(rules, call, now) {
        Ok(step) => taken(alloc, core, step),
        Err(PrepareFault::Number(number)) => counted(alloc, "number", number),
        Err(PrepareFault::Memory) => Err(Memory),
    }
}

// The answer, once the fact is taken in; `unfit` where it doesn't fit.
fn taken(alloc: Global, core: &mut Outbox, step: Step) -> Result<Bytes, Memory> {
    let Step { answer, change } = step;
    let words = told(alloc, &answer);
    drop(answer);
    if kept(alloc, core, change)? {
        return words;
    }
    bare(alloc, "unfit")
}

// Whether the fact of a call, where there is one, fits as a journal's does.
fn kept(alloc: Global, core: &mut Outbox, change: Option<Prepared>) -> Result<bool, Memory> {
    let Some(prepared) = change else {
        return Ok(true);
    };
    let copy = prepared.fact().copy(alloc);
    drop(prepared);
    match copy {
        Ok(fact) => is_applied(core, fact),
        Err(Memory) => Err(Memory),
    }
}

fn is_applied(core: &mut Outbox, fact: Fact) -> Result<bool, Memory> {
    match core.apply(fact) {
        Ok(()) => Ok(true),
        Err(ApplyFault::Bad) => Ok(false),
        Err(ApplyFault::Memory) => Err(Memory),
    }
}
