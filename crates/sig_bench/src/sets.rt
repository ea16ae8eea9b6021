use crate::Stopped;
use sig_delivery::write_sets;
use sig_event::Claims;
use sig_json::limits::TOKENS_PER_PAGE;
use sig_json::{Bytes, Items, Memory, Text};
use sig_jws::{Key, sign};
use sig_set::{claims_of, payload_text};
use sig_terms::Token;
use std::alloc::Global;

// The header of each token, with the key's name.
const HEADER: &[u8] = b"{\"alg\":\"HS256\",\"kid\":\"k1\",\"typ\":\"secevent+jwt\"}";

/// Writes a poll response with a page of tokens, which say what this one says under names of their own, so often.
pub fn write_pages(alloc: Global, count: u64, token: &str) -> Result<u64, Stopped> {
    let key = key(alloc)?;
    let tokens = page(alloc, token)?;
    for _ in 0..count {
        write_sets(alloc, &tokens, true, &key)?;
    }
    Ok(count)
}

/// Signs the payloads of such a page alone, so often: base64url and the MACs.
pub fn sign_pages(alloc: Global, count: u64, token: &str) -> Result<u64, Stopped> {
    let key = key(alloc)?;
    let tokens = page(alloc, token)?;
    let payloads = payloads(alloc, tokens.as_slice())?;
    for _ in 0..count {
        sign_all(alloc, payloads.as_slice(), &key)?;
    }
    Ok(count)
}

fn sign_all(alloc: Global, payloads: &[Bytes], key: &Key) -> Result<(), Memory> {
    for payload in payloads {
        sign(alloc, HEADER, payload.as_slice(), key.bytes.as_slice())?;
    }
    Ok(())
}

fn payloads(alloc: Global, tokens: &[Token]) -> Result<Vec<Bytes>, Memory> {
    let mut payloads = Vec::new(alloc);
    for token in tokens {
        payloads.push(payload_text(alloc, &token.claims)?)?;
    }
    Ok(payloads)
}

// A page of tokens that say the same, each under its own name.
fn page(alloc: Global, token: &str) -> Result<Items<Token>, Stopped> {
    let Ok(claims) = claims_of(alloc, token.as_bytes()) else {
        return Err(Stopped::Record);
    };
    Ok(tokens(alloc, &claims)?)
}

fn tokens(alloc: Global, claims: &Claims) -> Result<Items<Token>, Memory> {
    let mut tokens = Vec::new(alloc);
    for number in 0..TOKENS_PER_PAGE {
        tokens.push(token_of(alloc, claims, number as u64)?)?;
    }
    Ok(Items::of(tokens))
}

fn token_of(alloc: Global, claims: &Claims, number: u64) -> Result<Token, Memory> {
    let mut claims = claims.copy(alloc)?;
    let jti = format!(in alloc; "6ba7b810-9dad-11d1-80b4-00c04fd430c8.acme-1.{number}")?;
    claims.jti = Text::from_string(jti);
    Ok(Token {
        stream: Text::of(alloc, "acme-1")?,
        number,
        claims,
        endpoint: None,
        authorization: None,
    })
}

fn key(alloc: Global) -> Result<Key, Memory> {
    Ok(Key {
        kid: Some(Text::of(alloc, "k1")?),
        bytes: Bytes::of(alloc, b"0123456789abcdef0123456789abcdef")?,
    })
}
