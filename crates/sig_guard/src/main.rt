//! The library in a small program: an application that takes tokens, and asks after each whether a session may go on.
//!
//!     line -> token -> judged -> rows of the table -> verdict on the session -> printed line
//!
//! Each line of standard input is a token. The application trusts one issuer with one key, and guards the session
//! `s-77`. It stands on `sig_set` for the judgement, on `sig_inbox` for the tokens that it took, and on `sig_sessions` for
//! the table.
//!
//! Left out: that what it took outlives the program, and tokens that come over a link.
#![tactic(auto)]

mod guard;

use crate::guard::Guard;
use sig_inbox::{Found, Seen};
use sig_json::{Bytes, Items, Memory, Text};
use sig_jws::Key;
use sig_sessions::Table;
use sig_set::{Issuer, LastHeader, PreparedTrust, Refusal, Trust};
use sig_subject::{Plain, Simple, Subject};
use std::alloc::Global;
use std::io;

const ISSUER: &str = "https://idp.example";

const AUDIENCE: &str = "https://rp.example";

const KEY: &[u8] = b"0123456789abcdef0123456789abcdef";

fn main(rt: HostRuntime) -> io::Result<()> {
    let alloc = rt.alloc();
    let mut guard = new_guard(alloc).map_err(out_of_memory)?;
    take_all(&rt, alloc, &mut guard)
}

fn take_all(rt: &HostRuntime, alloc: Global, guard: &mut Guard) -> io::Result<()> {
    for line in rt.lines(alloc) {
        let token = line?;
        take(rt, guard, token.as_bytes())?;
    }
    Ok(())
}

fn take(rt: &impl Print, guard: &mut Guard, token: &[u8]) -> io::Result<()> {
    match guard.take(token) {
        Ok(Found::Added) => println!(rt; "taken")?,
        Ok(Found::There) => println!(rt; "seen")?,
        Err(Refusal::Coded { code, spot }) => {
            println!(rt; "refused {} {}", code.as_str(), spot.as_str())?;
        }
        Err(Refusal::Memory) => return Err(out_of_memory(Memory)),
    }
    if guard.is_allowed() {
        println!(rt; "s-77 may go on")
    } else {
        println!(rt; "s-77 is over")
    }
}

fn out_of_memory(_memory: Memory) -> io::Error {
    io::Error::from(io::ErrorKind::OutOfMemory)
}

fn new_guard(alloc: Global) -> Result<Guard, Memory> {
    Ok(Guard {
        alloc,
        trust: trust(alloc)?,
        issuer: Text::of(alloc, ISSUER)?,
        session: session(alloc)?,
        seen: Seen::new(alloc),
        table: Table::new(alloc),
        last: LastHeader::none(),
    })
}

// One issuer with one key, which has no name, prepared for all tokens.
fn trust(alloc: Global) -> Result<PreparedTrust, Memory> {
    let trust = Trust {
        audience: Text::of(alloc, AUDIENCE)?,
        issuers: issuers(alloc)?,
    };
    PreparedTrust::of(alloc, &trust)
}

fn issuers(alloc: Global) -> Result<Items<Issuer>, Memory> {
    let mut issuers = Vec::new(alloc);
    issuers.push(Issuer {
        iss: Text::of(alloc, ISSUER)?,
        keys: keys(alloc)?,
        public_keys: Items::of(Vec::new(alloc)),
    })?;
    Ok(Items::of(issuers))
}

fn keys(alloc: Global) -> Result<Items<Key>, Memory> {
    let mut keys = Vec::new(alloc);
    keys.push(Key {
        kid: None,
        bytes: Bytes::of(alloc, KEY)?,
    })?;
    Ok(Items::of(keys))
}

// The session that is guarded, as the issuer names it.
fn session(alloc: Global) -> Result<Subject, Memory> {
    let id = Text::of(alloc, "s-77")?;
    Ok(Subject::Simple(Simple::Plain(Plain::Opaque { id })))
}
