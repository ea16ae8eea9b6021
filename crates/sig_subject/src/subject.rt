ghost use Rattle.std.specs.Prelude.{◌≡◌, IfOk};

use crate::{Member, Simple};
use sig_json::{Copied, Items, Memory, Same, copy_items};
use std::alloc::Global;

/// Whom an event is about (RFC 9493; OpenID Shared Signals Framework 1.0, section 4).
#[derive(PartialEq, Eq, Hash)]
pub enum Subject {
    /// One identifier, or aliases.
    Simple(Simple),
    /// `complex`: named parts in byte order of their names, each name once.
    Complex { members: Items<Member> },
}

impl Subject {
    /// An identical subject.
    pub fn copy(&self, alloc: Global) -> Result<Subject, Memory>
        ensures { IfOk result (λ c. c ≡ self.now) }
    {
        Ok(match self {
            Subject::Simple(simple) => Subject::Simple(simple.copy(alloc)?),
            Subject::Complex { members } => Subject::Complex {
                members: copy_items(alloc, members)?,
            },
        })
    }
}

impl Copied for Subject {
    fn copied(&self, alloc: Global) -> Result<Subject, Memory> {
        self.copy(alloc)
    }
}

impl Same for Subject {
    fn same(&self, other: &Subject) -> bool {
        match (self, other) {
            (Subject::Simple(one), Subject::Simple(two)) => one.same(two),
            (Subject::Complex { members: ones }, Subject::Complex { members: twos }) => {
                ones.same(twos)
            }
            _ => false,
        }
    }
}

impl Drop for Subject {
    fn drop(self) {
        match self {
            Subject::Simple(simple) => drop(simple),
            Subject::Complex { members } => drop(members),
        }
    }
}
