//! Poll responses as they are read.

ghost use Rattle.std.specs.Prelude.{◌≡◌, IfOk};
ghost use Rattle.serde_json.specs.View.{members_view, view};
ghost use Rattle.sig_json.specs.Answers.{Answers};
ghost use Rattle.sig_delivery.specs.Sets as spec;

use crate::BodyFault;
use crate::body::object_in;
use serde_json::Map;
use sig_json::{Bytes, Copied, Items, Memory, Same, Text, Value, copy_items};
use std::alloc::Global;

/// A token that a poll response hands out.
#[derive(Drop)]
pub struct Listed {
    /// The identifier under which it stands.
    pub jti: Text,
    /// Its text as it stands, which nobody has judged.
    pub text: Bytes,
}

/// What a poll response hands out (RFC 8936, section 2.5).
#[derive(Drop)]
pub struct Sets {
    /// The tokens, in byte order of their identifiers.
    pub tokens: Items<Listed>,
    /// Whether the transmitter has further ones.
    pub more: bool,
}

impl Listed {
    /// An equal one.
    pub fn copy(&self, alloc: Global) -> Result<Listed, Memory>
        ensures { IfOk result (λ l. l ≡ self.now) }
    {
        Ok(Listed {
            jti: self.jti.copy(alloc)?,
            text: self.text.copy(alloc)?,
        })
    }
}

impl Copied for Listed {
    fn copied(&self, alloc: Global) -> Result<Listed, Memory> {
        self.copy(alloc)
    }
}

impl Same for Listed {
    fn same(&self, other: &Listed) -> bool {
        self.jti.same(&other.jti) && self.text.same(&other.text)
    }
}

impl Sets {
    /// An equal one.
    pub fn copy(&self, alloc: Global) -> Result<Sets, Memory>
        ensures { IfOk result (λ s. s ≡ self.now) }
    {
        Ok(Sets {
            tokens: copy_items(alloc, &self.tokens)?,
            more: self.more,
        })
    }
}

impl Copied for Sets {
    fn copied(&self, alloc: Global) -> Result<Sets, Memory> {
        self.copy(alloc)
    }
}

impl Same for Sets {
    fn same(&self, other: &Sets) -> bool {
        self.tokens.same(&other.tokens) && self.more == other.more
    }
}

/// What the body of a poll response hands out (RFC 8936, section 2.5); unknown members are passed over.
///
/// `Bad` names the first member that is wrong, in the order `body`, `sets`, `moreAvailable`: the body is a JSON object,
/// `sets` an object whose members are texts, which has to be there, and `moreAvailable` a boolean, no where it is missing.
pub fn read_sets(alloc: Global, body: &[u8]) -> Result<Sets, BodyFault>
    ensures { Answers BodyFault.Memory result (spec.sets_of body.now) }
{
    match object_in(alloc, body)? {
        Some(value) => sets_in(alloc, &value),
        None => Err(BodyFault::Bad(Text::of(alloc, "body")?)),
    }
}

// What an object hands out, or its first member that is wrong.
#[tactic(auto, unfolding(crate::specs::Sets::sets_in))]
fn sets_in(alloc: Global, value: &Value) -> Result<Sets, BodyFault>
    ensures { Answers BodyFault.Memory result (spec.sets_in (view value.now)) }
{
    let Some(tokens) = listed_in(alloc, value)? else {
        return Err(BodyFault::Bad(Text::of(alloc, "sets")?));
    };
    let Some(more) = more_in(value) else {
        return Err(BodyFault::Bad(Text::of(alloc, "moreAvailable")?));
    };
    Ok(Sets { tokens, more })
}

fn listed_in(alloc: Global, value: &Value) -> Result<Option<Items<Listed>>, Memory>
    ensures { IfOk result (λ tokens. tokens ≡ spec.listed_in (view value.now)) }
{
    let Some(sets) = value.get("sets") else {
        return Ok(None);
    };
    match sets.as_object() {
        None => Ok(None),
        Some(sets) => all_listed(alloc, sets),
    }
}

// The members of an object, where each is a text.
#[tactic(auto, using(crate::proofs::Collected::behind_nothing, crate::proofs::Collected::behind_all, crate::proofs::Collected::one_behind))]
fn all_listed(alloc: Global, sets: &Map<String, Value>) -> Result<Option<Items<Listed>>, Memory>
    ensures { IfOk result (λ tokens. tokens ≡ spec.listed_of (members_view sets.now.entries)) }
{
    let mut tokens = Vec::new(alloc);
    for (jti, token) in sets.iter() {
        let Some(token) = token.as_str() else {
            return Ok(None);
        };
        let jti = Text::of(alloc, jti.as_str())?;
        let text = Bytes::of(alloc, token.as_bytes())?;
        tokens.push(Listed { jti, text })?;
    }
    Ok(Some(Items::of(tokens)))
}

fn more_in(value: &Value) -> Option<bool>
    ensures { result ≡ spec.more_in (view value.now) }
{
    match value.get("moreAvailable") {
        None => Some(false),
        Some(more) => more.as_bool(),
    }
}
