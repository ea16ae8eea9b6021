ghost use Rattle.std.specs.Prelude.{◌≡◌, IfOk};

use crate::Endpoint;
use sig_event::Claims;
use sig_json::{Copied, Memory, Same, Text, copy_optional};
use std::alloc::Global;

/// A token that a stream owes.
pub struct Token {
    /// The name of its stream.
    pub stream: Text,
    /// Its number among the tokens of its stream, from 1 to 2^62.
    pub number: u64,
    /// What it says.
    pub claims: Claims,
    /// Where it is sent, for a push stream.
    pub endpoint: Option<Endpoint>,
    /// The `authorization` field that it is sent with, where there is one.
    pub authorization: Option<Text>,
}

impl Drop for Token {
    fn drop(self) {
        let Token {
            stream,
            number: _,
            claims,
            endpoint,
            authorization,
        } = self;
        drop(stream);
        drop(claims);
        drop(endpoint);
        drop(authorization);
    }
}

/// A token that a publication made.
#[derive(Drop)]
pub struct Issued {
    /// The name of its stream.
    pub stream: Text,
    /// Its number among the tokens of its stream, from 1 to 2^62.
    pub number: u64,
}

impl Issued {
    /// An equal one.
    pub fn copy(&self, alloc: Global) -> Result<Issued, Memory>
        ensures { IfOk result (λ i. i ≡ self.now) }
    {
        Ok(Issued {
            stream: self.stream.copy(alloc)?,
            number: self.number,
        })
    }
}

impl Copied for Issued {
    fn copied(&self, alloc: Global) -> Result<Issued, Memory> {
        self.copy(alloc)
    }
}

impl Same for Issued {
    fn same(&self, other: &Issued) -> bool {
        self.stream.same(&other.stream) && self.number.same(&other.number)
    }
}

impl Token {
    /// An equal token.
    pub fn copy(&self, alloc: Global) -> Result<Token, Memory>
        ensures { IfOk result (λ t. t ≡ self.now) }
    {
        let stream = self.stream.copy(alloc)?;
        let endpoint = copy_optional(alloc, &self.endpoint)?;
        let authorization = copy_optional(alloc, &self.authorization)?;
        Ok(Token {
            stream,
            number: self.number,
            claims: self.claims.copy(alloc)?,
            endpoint,
            authorization,
        })
    }
}

impl Copied for Token {
    fn copied(&self, alloc: Global) -> Result<Token, Memory> {
        self.copy(alloc)
    }
}

impl Same for Token {
    fn same(&self, other: &Token) -> bool {
        self.stream.same(&other.stream)
            && self.number.same(&other.number)
            && self.claims.same(&other.claims)
            && self.endpoint.same(&other.endpoint)
            && self.authorization.same(&other.authorization)
    }
}
