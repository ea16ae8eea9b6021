ghost use Rattle.std.specs.Prelude.{◌≡◌, IfOk};

use crate::shared_name::SharedName;
use sig_json::{Copied, Items, Memory, Same};
use sig_terms::Issued;
use std::alloc::Global;
use std::marker::Model;

/// A token that a publication made, as it is kept for good: its stream's name, which all tokens of the stream share, and its
/// number. Contracts see it as the token.
#[derive(Drop)]
pub struct KeptToken {
    name: SharedName,
    number: u64,
}

impl Model for KeptToken {
    ghost use Rattle.sig_terms.specs.declared.token.Issued.{Issued};

    ghost Value = { Issued };

    ghost view = { λ k. record { stream = k.name; number = k.number } };
}

impl KeptToken {
    /// The token of this number on the stream of this name.
    pub fn of(name: SharedName, number: u64) -> KeptToken
        ensures { result ≡ record { stream = name; number = number } }
    {
        KeptToken { name, number }
    }

    /// The token, with a text of its own.
    pub fn issued(&self, alloc: Global) -> Result<Issued, Memory>
        ensures { IfOk result (λ i. i ≡ self.now) }
    {
        Ok(Issued {
            stream: self.name.text().copy(alloc)?,
            number: self.number,
        })
    }
}

impl Copied for KeptToken {
    // The copy shares the name, so that it takes no text either.
    fn copied(&self, _alloc: Global) -> Result<KeptToken, Memory> {
        Ok(KeptToken {
            name: self.name.share()?,
            number: self.number,
        })
    }
}

impl Same for KeptToken {
    fn same(&self, other: &KeptToken) -> bool {
        self.name.same(&other.name) && self.number == other.number
    }
}

/// The tokens that are kept, each with a text of its own, in the same order.
pub fn tokens_issued(alloc: Global, kept: &Items<KeptToken>) -> Result<Items<Issued>, Memory>
    ensures { IfOk result (λ items. items ≡ kept.now) }
{
    let list = kept.as_slice();
    let mut tokens = Vec::new(alloc);
    for token in list {
        let issued = token.issued(alloc)?;
        tokens.push(issued)?;
    }
    Ok(Items::of(tokens))
}
