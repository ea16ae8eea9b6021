ghost use Rattle.std.specs.Prelude.{◌≡◌, IfOk};

use sig_json::{Copied, Memory, Same, Text};
use std::alloc::Global;

/// What a token is known by: its issuer and its identifier under that issuer (RFC 8417, section 2.2).
#[derive(PartialEq, Eq, Hash, Drop)]
pub struct Pair {
    /// The issuer.
    pub iss: Text,
    /// The identifier.
    pub jti: Text,
}

impl Pair {
    /// An equal pair. Out of memory is its only error.
    pub fn copy(&self, alloc: Global) -> Result<Pair, Memory>
        ensures { IfOk result (λ p. p ≡ self.now) }
    {
        Ok(Pair {
            iss: self.iss.copy(alloc)?,
            jti: self.jti.copy(alloc)?,
        })
    }
}

impl Copied for Pair {
    fn copied(&self, alloc: Global) -> Result<Pair, Memory> {
        self.copy(alloc)
    }
}

impl Same for Pair {
    fn same(&self, other: &Pair) -> bool {
        self == other
    }
}
