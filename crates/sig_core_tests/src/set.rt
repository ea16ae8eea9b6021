//! Tokens that are written, and a copy of whom a receiver trusts. What is judged and read is said by lines of the cases.

use crate::tokens::{TOKEN, key, trust};
use sig_json::{Bytes, Memory, Same};
use sig_set::{ClaimsFault, WriteFault, claims_of, write};
use std::alloc::Global;
use std::test::Fail;

// What is written of the claims of the signer's token, under a key of this name.
fn written(alloc: Global, name: &str) -> Result<Result<Bytes, WriteFault>, ClaimsFault> {
    let key = key(alloc, Some(name))?;
    let claims = claims_of(alloc, TOKEN.as_bytes())?;
    Ok(write(alloc, &claims, &key))
}

#[test]
fn a_token_is_that_of_the_signer(rt: HostRuntime) -> Result<(), Fail> {
    let token = written(rt.alloc(), "k1")??;
    assert!(rt; token.as_slice() == TOKEN.as_bytes());
    Ok(())
}

fn letters(alloc: Global, count: usize) -> Result<String, Memory> {
    let mut text = String::new(alloc);
    for _ in 0..count {
        text.push('k')?;
    }
    Ok(text)
}

// The length of the token whose key has a name of so many letters.
fn length(alloc: Global, count: usize) -> Result<Result<usize, WriteFault>, ClaimsFault> {
    let name = letters(alloc, count)?;
    match written(alloc, name.as_str())? {
        Ok(token) => Ok(Ok(token.as_slice().len())),
        Err(fault) => Ok(Err(fault)),
    }
}

// By Python's json, hmac and base64, a name of 5,817 letters makes a token of 8,192 bytes, and one more 8,194.
#[test]
fn a_token_over_the_limit_is_refused_with_its_length(rt: HostRuntime) -> Result<(), Fail> {
    assert!(rt; length(rt.alloc(), 5_817)? == Ok(8_192));
    assert!(rt; length(rt.alloc(), 5_818)? == Err(WriteFault::TooLong(8_194)));
    Ok(())
}

fn is_copied(alloc: Global) -> Result<bool, Memory> {
    let trust = trust(alloc)?;
    Ok(trust.copy(alloc)?.same(&trust))
}

#[test]
fn a_trust_is_copied(rt: HostRuntime) -> Result<(), Fail> {
    assert!(rt; is_copied(rt.alloc())?);
    Ok(())
}
