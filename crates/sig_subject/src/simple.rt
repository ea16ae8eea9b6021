ghost use Rattle.std.specs.Prelude.{◌≡◌, IfOk};

use crate::Plain;
use sig_json::{Copied, Items, Memory, Same, copy_items};
use std::alloc::Global;

/// A subject identifier that is no complex one.
#[derive(PartialEq, Eq, Hash)]
pub enum Simple {
    /// One identifier.
    Plain(Plain),
    /// `aliases`: one or more identifiers of one subject (RFC 9493, section 3.2.8), in order.
    Aliases { identifiers: Items<Plain> },
}

impl Simple {
    /// An equal identifier.
    pub fn copy(&self, alloc: Global) -> Result<Simple, Memory>
        ensures { IfOk result (λ c. c ≡ self.now) }
    {
        Ok(match self {
            Simple::Plain(plain) => Simple::Plain(plain.copy(alloc)?),
            Simple::Aliases { identifiers } => Simple::Aliases {
                identifiers: copy_items(alloc, identifiers)?,
            },
        })
    }
}

impl Copied for Simple {
    fn copied(&self, alloc: Global) -> Result<Simple, Memory> {
        self.copy(alloc)
    }
}

impl Same for Simple {
    fn same(&self, other: &Simple) -> bool {
        match (self, other) {
            (Simple::Plain(one), Simple::Plain(two)) => one.same(two),
            (Simple::Aliases { identifiers: ones }, Simple::Aliases { identifiers: twos }) => {
                ones.same(twos)
            }
            _ => false,
        }
    }
}

impl Drop for Simple {
    fn drop(self) {
        match self {
            Simple::Plain(plain) => drop(plain),
            Simple::Aliases { identifiers } => drop(identifiers),
        }
    }
}
