ghost use Rattle.std.specs.Prelude.{◌≡◌, IfOk};

use sig_json::{Memory, MemoryRefusal, Text};
use std::alloc::Global;

/// Why a JSON value is no subject. The first check that fails decides.
#[derive(Debug, Drop)]
pub enum SubjectFault {
    /// The value is no object, or its `format` is no text.
    Format,
    /// This member is missing, is no text that is filled and begins as its format asks, or has no place in the format.
    Member(Text),
    /// `identifiers` has no item, or a complex subject none of the seven parts.
    Empty,
    /// An item of `identifiers` is itself aliases or complex, or a part of a complex subject is complex.
    Nested,
    /// A fraction stands in a subject of an unknown format, which would be kept as text.
    Fraction,
    /// Out of memory.
    Memory,
}

impl SubjectFault {
    /// An equal fault.
    pub fn copy(&self, alloc: Global) -> Result<SubjectFault, Memory>
        ensures { IfOk result (λ f. f ≡ self.now) }
    {
        Ok(match self {
            SubjectFault::Format => SubjectFault::Format,
            SubjectFault::Member(name) => SubjectFault::Member(name.copy(alloc)?),
            SubjectFault::Empty => SubjectFault::Empty,
            SubjectFault::Nested => SubjectFault::Nested,
            SubjectFault::Fraction => SubjectFault::Fraction,
            SubjectFault::Memory => SubjectFault::Memory,
        })
    }
}

impl<R: MemoryRefusal> From<R> for SubjectFault {
    ghost use Rattle.sig_subject.specs.declared.subject_fault.SubjectFault.TheVariants.{Memory};

    ghost from_gives = { λ _ e. e ≡ Memory };

    fn from(_refusal: R) -> SubjectFault {
        SubjectFault::Memory
    }
}
