ghost use Rattle.std.specs.Prelude.{◌≡◌, IfOk};

use crate::Simple;
use sig_json::{Copied, Memory, Same, Text};
use std::alloc::Global;

/// A named part of a complex subject (OpenID Shared Signals Framework 1.0, section 4).
#[derive(PartialEq, Eq, Hash, Drop)]
pub struct Member {
    /// `user`, `device`, `session`, `application`, `tenant`, `org_unit`, `group`, or a name that is kept alike.
    pub name: Text,
    /// The part's identifier.
    pub simple: Simple,
}

impl Member {
    /// An equal part.
    pub fn copy(&self, alloc: Global) -> Result<Member, Memory>
        ensures { IfOk result (λ c. c ≡ self.now) }
    {
        let name = self.name.copy(alloc)?;
        let simple = self.simple.copy(alloc)?;
        Ok(Member { name, simple })
    }
}

impl Copied for Member {
    fn copied(&self, alloc: Global) -> Result<Member, Memory> {
        self.copy(alloc)
    }
}

impl Same for Member {
    fn same(&self, other: &Member) -> bool {
        self.name.same(&other.name) && self.simple.same(&other.simple)
    }
}
