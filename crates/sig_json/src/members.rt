ghost use Rattle.std.specs.Prelude.{◌≡◌, IfOk, option_map};
ghost use Rattle.serde_json.specs.Data.{Data};
ghost use Rattle.serde_json.specs.View.{view};
ghost use Rattle.sig_json.specs.Answers.{Answers};
ghost use Rattle.sig_json.specs.Checks.{decided, first_failing};
ghost use Rattle.sig_json.specs.Json.{member_of};
ghost use Rattle.sig_json.specs.Members.{Kind, Kept, value_checks, member_checks, optional, required, value_of};
ghost use Rattle.sig_json.specs.Payloads.{data_of};

use crate::{Memory, MemoryRefusal, Text};
use serde_json::Value;
use std::alloc::Global;

/// Why the payload of an event is none of its type. Each fault but `Memory` carries the member's name.
#[derive(Debug, Drop)]
pub enum PayloadFault {
    /// A required member isn't there.
    Missing(Text),
    /// A member is of another JSON kind, or an object with no member where one is asked.
    Kind(Text),
    /// A text isn't one of the member's closed list.
    Value(Text),
    /// A fraction stands where a whole number is read, or inside a value that is kept.
    Fraction(Text),
    /// Out of memory.
    Memory,
}

impl PayloadFault {
    /// An equal fault.
    pub fn copy(&self, alloc: Global) -> Result<PayloadFault, Memory>
        ensures { IfOk result (λ f. f ≡ self.now) }
    {
        Ok(match self {
            PayloadFault::Missing(name) => PayloadFault::Missing(name.copy(alloc)?),
            PayloadFault::Kind(name) => PayloadFault::Kind(name.copy(alloc)?),
            PayloadFault::Value(name) => PayloadFault::Value(name.copy(alloc)?),
            PayloadFault::Fraction(name) => PayloadFault::Fraction(name.copy(alloc)?),
            PayloadFault::Memory => PayloadFault::Memory,
        })
    }
}

impl<R: MemoryRefusal> From<R> for PayloadFault {
    ghost use Rattle.sig_json.specs.declared.members.PayloadFault.TheVariants.{Memory};

    ghost from_gives = { λ _ e. e ≡ Memory };

    fn from(_refusal: R) -> PayloadFault {
        PayloadFault::Memory
    }
}

/// What a member of a payload may be, and what is kept of it.
pub trait MemberKind {
    type Kept;

    ghost kind: { Kind };

    ghost value: { Data → Self.Kept };

    ghost kept: { Self.Kept → Kept };

    /// What is kept of a member that is there: `Kind`, `Value` and `Fraction` come in this order.
    fn keep(alloc: Global, name: &str, member: &Value) -> Result<Self::Kept, PayloadFault>
        ensures { Answers PayloadFault.Memory result
            (decided (first_failing (value_checks name.now kind (view member.now))) (value (view member.now))) };

    /// The member that is written of what was kept.
    fn write(alloc: Global, content: &Self::Kept) -> Result<Value, Memory>
        ensures { IfOk result (λ v. view v ≡ data_of (kept content.now)) };
}

/// A member that has to be there; `Missing` where it isn't, and then the faults of its kind.
#[tactic(auto, unfolding(crate::specs::Members::member_checks, crate::specs::Members::value_of))]
pub fn required_member<K: MemberKind>(
    alloc: Global,
    payload: &Value,
    name: &str,
) -> Result<K::Kept, PayloadFault>
    ensures { Answers PayloadFault.Memory result
        (decided (first_failing (member_checks (view payload.now) (required name.now K.kind))) (K.value (value_of name.now (view payload.now)))) }
{
    match payload.get(name) {
        Some(member) => K::keep(alloc, name, member),
        None => Err(PayloadFault::Missing(Text::of(alloc, name)?)),
    }
}

/// A member that may be missing.
#[tactic(auto, unfolding(crate::specs::Members::member_checks))]
pub fn optional_member<K: MemberKind>(
    alloc: Global,
    payload: &Value,
    name: &str,
) -> Result<Option<K::Kept>, PayloadFault>
    ensures { Answers PayloadFault.Memory result
        (decided (first_failing (member_checks (view payload.now) (optional name.now K.kind))) (option_map K.value (member_of name.now (view payload.now)))) }
{
    match payload.get(name) {
        Some(member) => Ok(Some(K::keep(alloc, name, member)?)),
        None => Ok(None),
    }
}
