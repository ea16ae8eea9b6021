//! Bodies with tokens that are written: of a poll's response, and of a push.

ghost use Rattle.std.specs.Prelude.{IfOk, IsSome};

use crate::tokens::{SECOND, TENTH, key};
use sig_delivery::{Endpoint, Token, push_request, write_sets};
use sig_json::{Bytes, Items, Memory, Text};
use sig_outside::Place;
use sig_set::{ClaimsFault, claims_of};
use std::alloc::Global;
use std::test::Fail;

fn endpoint(alloc: Global) -> Result<Endpoint, Memory> {
    Ok(Endpoint {
        secure: false,
        place: Place {
            host: Text::of(alloc, "rp.example")?,
            port: 80,
        },
        path: Text::of(alloc, "/events")?,
    })
}

// The token with the claims of this text, to be pushed.
fn token(alloc: Global, text: &str) -> Result<Token, ClaimsFault>
    ensures { IfOk result (λ token. IsSome token.endpoint) }
{
    let claims = claims_of(alloc, text.as_bytes())?;
    Ok(Token {
        stream: Text::of(alloc, "acme-1")?,
        number: 2,
        endpoint: Some(endpoint(alloc)?),
        authorization: Some(Text::of(alloc, "Basic cnA6eA==")?),
        claims,
    })
}

// Out of order of their identifiers, `...acme-1.10` being the lower one.
fn tokens(alloc: Global) -> Result<Items<Token>, ClaimsFault> {
    let mut tokens = Vec::new(alloc);
    tokens.push(token(alloc, SECOND)?)?;
    tokens.push(token(alloc, TENTH)?)?;
    Ok(Items::of(tokens))
}

fn written_sets(alloc: Global) -> Result<Bytes, ClaimsFault> {
    let key = key(alloc, "k1")?;
    let tokens = tokens(alloc)?;
    Ok(write_sets(alloc, &tokens, true, &key)?)
}

// The parts of the body, one after the other.
const WANTED: [&str; 5] = [
    r#"{"moreAvailable":true,"sets":{"6ba7b810-9dad-11d1-80b4-00c04fd430c8.acme-1.10":""#,
    TENTH,
    r#"","6ba7b810-9dad-11d1-80b4-00c04fd430c8.acme-1.2":""#,
    SECOND,
    r#""}}"#,
];

fn wanted_sets(alloc: Global) -> Result<Bytes, Memory> {
    let mut body = Bytes::new(alloc);
    for part in WANTED {
        body.add(part.as_bytes())?;
    }
    Ok(body)
}

#[test]
fn sets_are_written_in_order(rt: HostRuntime) -> Result<(), Fail> {
    assert!(rt; written_sets(rt.alloc())? == wanted_sets(rt.alloc())?);
    Ok(())
}

// Whether a push has the token as its body.
fn is_pushed(alloc: Global) -> Result<bool, ClaimsFault> {
    let key = key(alloc, "k1")?;
    let token = token(alloc, SECOND)?;
    let request = push_request(alloc, &token, &key)?;
    Ok(request.body.as_slice() == SECOND.as_bytes())
}

#[test]
fn a_push_has_the_token(rt: HostRuntime) -> Result<(), Fail> {
    assert!(rt; is_pushed(rt.alloc())?);
    Ok(())
}
