//! The header of the last token, kept for the next: the tokens of a run mostly have the same.

ghost use Rattle.std.specs.Prelude.{◌≡◌, IfOk, IsTrue, None, OnOk, Ok, Some, is_some, option_and_then, true};
ghost use Rattle.serde_json.specs.View.{view};
ghost use Rattle.sig_json.specs.Answers.{Answers};
ghost use Rattle.sig_json.specs.Json.{json_of};
ghost use Rattle.sig_set.specs.Checks.{outcome, passed};
ghost use Rattle.sig_set.specs.Judgement.{header_checks};

use crate::Refusal;
use crate::header::header_from;
use sig_json::{Bytes, Value};
use std::alloc::Global;
use std::marker::Model;

/// The bytes of a token's header, and what they spell, which met its checks. Contracts see the bytes.
#[derive(Drop)]
struct Header {
    bytes: Bytes,
    value: Value,
}

impl Model for Header {
    ghost use Rattle.std.specs.Prelude.{ℕ, List};
    ghost use Rattle.sig_set.specs.Known.{IsKnown};

    ghost Value = { List ℕ };

    ghost view = { λ h. h.bytes };

    ghost invariant = { λ h. IsKnown h.bytes h.value };
}

impl Header {
    // The header that the bytes spell, where it is one of a token.
    fn of(alloc: Global, bytes: &[u8]) -> Result<Header, Refusal>
        ensures checks { Answers Refusal.Memory (outcome result) (passed (header_checks (json_of bytes.now))) }
        ensures bytes { IfOk result (λ h. h ≡ bytes.now) }
    {
        let value = header_from(alloc, bytes)?;
        let bytes = Bytes::of(alloc, bytes)?;
        Ok(Header { bytes, value })
    }

    // Whether these are its bytes; then they meet the checks of a header.
    fn is_of(&self, bytes: &[u8]) -> bool
        ensures same { IsTrue result → self.now ≡ bytes.now }
        ensures passed { IsTrue result → passed (header_checks (json_of bytes.now)) ≡ Ok tt }
    {
        self.bytes.as_slice() == bytes
    }

    // What its bytes spell.
    fn value(&self) -> &Value
        ensures { json_of self.now ≡ Some (view result.now) }
    {
        &self.value
    }
}

/// The last header that was one of a token, for a judgement of many tokens: an equal one is neither read nor checked anew.
/// What is judged doesn't rest on it. Contracts see its bytes, none where no token came yet.
#[derive(Drop)]
pub struct LastHeader {
    header: Option<Header>,
}

impl Model for LastHeader {
    ghost use Rattle.std.specs.Prelude.{ℕ, List, Option};

    ghost Value = { Option (List ℕ) };

    ghost view = { λ l. l.header };
}

impl LastHeader {
    /// None yet. It takes no memory.
    pub fn none() -> LastHeader
        ensures { result ≡ None }
    {
        LastHeader { header: None }
    }

    /// Makes it the header that these bytes spell: `InvalidRequest` at the first check of a header that fails, and then the
    /// last one stays.
    pub(crate) fn turn_to(&mut self, alloc: Global, bytes: &[u8]) -> Result<(), Refusal>
        ensures checks { Answers Refusal.Memory result (passed (header_checks (json_of bytes.now))) }
        ensures header { OnOk result (self.new ≡ Some bytes.now) }
    {
        if self.is_of(bytes) {
            return Ok(());
        }
        self.header = Some(Header::of(alloc, bytes)?);
        Ok(())
    }

    // Whether there is one, and these are its bytes; then they meet the checks of a header.
    fn is_of(&self, bytes: &[u8]) -> bool
        ensures same { IsTrue result → self.now ≡ Some bytes.now }
        ensures passed { IsTrue result → passed (header_checks (json_of bytes.now)) ≡ Ok tt }
    {
        match &self.header {
            None => false,
            Some(header) => header.is_of(bytes),
        }
    }

    /// What the last header's bytes spell.
    pub(crate) fn value(&self) -> &Value
        requires { is_some self.now ≡ true }
        ensures { option_and_then json_of self.now ≡ Some (view result.now) }
    {
        match &self.header {
            None => unreachable!(),
            Some(header) => header.value(),
        }
    }
}
