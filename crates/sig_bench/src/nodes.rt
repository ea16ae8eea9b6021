use crate::Stopped;
use crate::store::{load_stopped, open_files, open_store};
use sig_entry::encode_token;
use sig_event::Claims;
use sig_journal::{GATE_OPEN, Kind};
use sig_json::{Bytes, Items, Memory, Text};
use sig_jws::Key;
use sig_outside::Disk;
use sig_rxnode::{RxAnswer, RxCall, RxFault, RxNode, RxRules};
use sig_set::{Issuer, Trust, WriteFault, claims_of, write};
use sig_system::FileDisk;
use std::alloc::Global;
use std::fs::{File, Files};

// A token's text has at most so many bytes.
const TEXT_BYTES: usize = 8192;

/// Brings so many tokens to a receiver's node, which say what this one does under identifiers of their own. Each is new.
pub fn take_tokens<R: Files<File = File>>(
    alloc: Global,
    rt: &R,
    a: &str,
    b: &str,
    count: u64,
    token: &str,
) -> Result<u64, Stopped> {
    let calls = calls(alloc, count, token)?;
    let rules = rules(alloc)?;
    let (a, b) = open_store(rt, a, b, Kind::Rx)?;
    let mut node = match RxNode::load(alloc, a, b, rules) {
        Ok(node) => node,
        Err(refused) => return Err(load_stopped(refused)),
    };
    let ended = take_all(&mut node, calls.as_slice());
    // Both files are closed.
    let (_, _) = node.into_disks();
    ended
}

/// Makes a receiver's store with so many tokens, and syncs it once they are all written.
pub fn fill_tokens<R: Files<File = File>>(
    alloc: Global,
    rt: &R,
    a: &str,
    b: &str,
    count: u64,
    token: &str,
) -> Result<u64, Stopped> {
    let bytes = records_of(alloc, count, token)?;
    let (mut a, _b) = open_store(rt, a, b, Kind::Rx)?;
    if a.write_at(35, bytes.as_slice()).is_err() || a.sync().is_err() {
        return Err(Stopped::Store);
    }
    Ok(count)
}

/// How many tokens a receiver's node has that is loaded.
pub fn load_tokens<R: Files<File = File>>(
    alloc: Global,
    rt: &R,
    a: &str,
    b: &str,
) -> Result<u64, Stopped> {
    let rules = rules(alloc)?;
    let (a, b) = open_files(rt, a, b)?;
    match RxNode::load(alloc, a, b, rules) {
        Ok(node) => {
            let count = node.tokens() as u64;
            let (_, _) = node.into_disks();
            Ok(count)
        }
        Err(refused) => Err(load_stopped(refused)),
    }
}

fn take_all(node: &mut RxNode<FileDisk>, calls: &[RxCall]) -> Result<u64, Stopped> {
    for call in calls {
        match node.take(0, call) {
            Ok(RxAnswer::Accepted) => {}
            Ok(_) => return Err(Stopped::Record),
            Err(RxFault::Store) => return Err(Stopped::Store),
            Err(RxFault::Full(_)) => return Err(Stopped::Full),
            Err(RxFault::Memory) => return Err(Stopped::Memory),
        }
    }
    Ok(calls.len() as u64)
}

// The deliveries of so many tokens, each by its issuer.
fn calls(alloc: Global, count: u64, token: &str) -> Result<Vec<RxCall>, Stopped> {
    let claims = claims(alloc, token)?;
    let key = key(alloc)?;
    let mut calls = Vec::new(alloc);
    for number in 0..count {
        let bytes = text(alloc, &claims, &key, number)?;
        calls.push(RxCall::Token {
            principal: Some(claims.iss.copy(alloc)?),
            named: None,
            bytes,
        })?;
    }
    Ok(calls)
}

// So many records of tokens, each after its open gate, and the closed gate that ends them.
fn records_of(alloc: Global, count: u64, token: &str) -> Result<Vec<u8>, Stopped> {
    let claims = claims(alloc, token)?;
    let key = key(alloc)?;
    let mut bytes = Vec::new(alloc);
    for number in 0..count {
        add_record(alloc, &mut bytes, &text(alloc, &claims, &key, number)?)?;
    }
    bytes.push(0)?;
    Ok(bytes)
}

fn add_record(alloc: Global, bytes: &mut Vec<u8>, text: &Bytes) -> Result<(), Stopped> {
    if text.as_slice().len() > TEXT_BYTES {
        return Err(Stopped::Record);
    }
    let record = encode_token(alloc, text.as_slice())?;
    bytes.push(GATE_OPEN)?;
    bytes.extend_from_slice(&(record.as_slice().len() as u32).to_be_bytes())?;
    bytes.extend_from_slice(record.as_slice())?;
    Ok(())
}

fn claims(alloc: Global, token: &str) -> Result<Claims, Stopped> {
    match claims_of(alloc, token.as_bytes()) {
        Ok(claims) => Ok(claims),
        Err(_) => Err(Stopped::Record),
    }
}

// The token that says the same under this number.
fn text(alloc: Global, claims: &Claims, key: &Key, number: u64) -> Result<Bytes, Stopped> {
    let mut claims = claims.copy(alloc)?;
    let jti = format!(in alloc; "6ba7b810-9dad-11d1-80b4-00c04fd430c8.acme-1.{number}")?;
    claims.jti = Text::from_string(jti);
    match write(alloc, &claims, key) {
        Ok(text) => Ok(text),
        Err(WriteFault::TooLong(_)) => Err(Stopped::Record),
        Err(WriteFault::Memory) => Err(Stopped::Memory),
    }
}

fn rules(alloc: Global) -> Result<RxRules, Memory> {
    let mut keys = Vec::new(alloc);
    keys.push(key(alloc)?)?;
    let mut issuers = Vec::new(alloc);
    issuers.push(Issuer {
        iss: Text::of(alloc, "https://idp.example")?,
        keys: Items::of(keys),
        public_keys: Items::of(Vec::new(alloc)),
    })?;
    Ok(RxRules {
        trust: Trust {
            audience: Text::of(alloc, "https://rp.example")?,
            issuers: Items::of(issuers),
        },
        principals: Items::of(Vec::new(alloc)),
        reader: Text::of(alloc, "")?,
        peer: None,
    })
}

fn key(alloc: Global) -> Result<Key, Memory> {
    Ok(Key {
        kid: None,
        bytes: Bytes::of(alloc, b"0123456789abcdef0123456789abcdef")?,
    })
}
