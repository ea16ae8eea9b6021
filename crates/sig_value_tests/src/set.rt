//! The length of a token that is written, up to the greatest one. What is judged and read is said by lines of the cases.

use crate::tokens::{FIRST, key};
use sig_json::Memory;
use sig_set::{WriteFault, claims_of, write};
use std::alloc::Global;
use std::test::Fail;

fn letters(alloc: Global, count: usize) -> Result<String, Memory> {
    let mut text = String::new(alloc);
    for _ in 0..count {
        text.push('k')?;
    }
    Ok(text)
}

// The length of the first token where its key has this name.
fn length(alloc: Global, name: &str) -> Result<usize, WriteFault> {
    let Ok(claims) = claims_of(alloc, FIRST.as_bytes()) else {
        return Err(WriteFault::Memory);
    };
    let key = key(alloc, name)?;
    let token = write(alloc, &claims, &key)?;
    Ok(token.as_slice().len())
}

// The same of a name of so many letters.
fn length_by(alloc: Global, count: usize) -> Result<usize, WriteFault> {
    let name = letters(alloc, count)?;
    length(alloc, name.as_str())
}

// By Python's json, hmac and base64, a name of 5,817 letters makes a token of 8,192 bytes, and one more 8,194.
#[test]
fn a_token_over_the_limit_is_refused_with_its_length(rt: HostRuntime) -> Result<(), Fail> {
    assert!(rt; length(rt.alloc(), "k1") == Ok(FIRST.len()));
    assert!(rt; length_by(rt.alloc(), 5_817) == Ok(8_192));
    assert!(rt; length_by(rt.alloc(), 5_818) == Err(WriteFault::TooLong(8_194)));
    Ok(())
}
