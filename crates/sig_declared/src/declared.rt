//! A stream as its receiver declares it.

ghost use Rattle.std.specs.Prelude.{◌≡◌, IfOk};
ghost use Rattle.sig_declared.specs.Declarations.{description_of};

use sig_event::Status;
use sig_json::{Copied, Memory};
use sig_terms::Want;
use std::alloc::Global;

/// A stream as its receiver declares it (OpenID Shared Signals Framework 1.0, sections 8.1.1 and 8.1.2).
pub struct Declared {
    /// What is wanted of it.
    pub want: Want,
    /// The status that it is to have.
    pub status: Status,
}

impl Drop for Declared {
    fn drop(self) {
        let Declared { want, status: _ } = self;
        drop(want);
    }
}

impl Declared {
    /// Its receiver's own words for it, by which it is known; empty where there are none.
    pub fn description(&self) -> &str
        ensures { result.now ≡ description_of self.now }
    {
        match &self.want.description {
            Some(text) => text.as_str(),
            None => "",
        }
    }

    /// An equal one.
    pub fn copy(&self, alloc: Global) -> Result<Declared, Memory>
        ensures { IfOk result (λ d. d ≡ self.now) }
    {
        Ok(Declared {
            want: self.want.copy(alloc)?,
            status: self.status,
        })
    }
}

impl Copied for Declared {
    fn copied(&self, alloc: Global) -> Result<Declared, Memory> {
        self.copy(alloc)
    }
}
