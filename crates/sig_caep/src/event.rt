ghost use Rattle.std.specs.Prelude.{◌≡◌, IfOk};
ghost use Rattle.serde_json.specs.View.{view};
ghost use Rattle.sig_json.specs.Answers.{Answers};
ghost use Rattle.sig_json.specs.Checks.{decided, first_failing};
ghost use Rattle.sig_caep.specs.Events.{caep_of, caep_checks, caep_payload, event_in};

use crate::{CaepKind, CaepType, Common};
use serde_json::{Map, Value};
use sig_json::{Copied, Memory, PayloadFault, Same, value_named};
use std::alloc::Global;

/// An event of CAEP (CAEP 1.0, sections 2 and 3).
pub struct CaepEvent {
    /// The members that every event may have.
    pub common: Common,
    /// The event by its type.
    pub kind: CaepKind,
}

impl Drop for CaepEvent {
    fn drop(self) {
        let CaepEvent { common, kind } = self;
        drop(common);
        drop(kind);
    }
}

/// The event of CAEP that a payload says, by the name of its type. None exactly where no type has the name.
///
/// The members of the type are checked in the order of its table's row, and then those that every event may have. The
/// first one that fails is named: `Missing` where it is required and not there, `Kind` where it is of another JSON
/// kind, `Value` where its text isn't listed, `Fraction` where a fraction stands in it. Other members are passed over.
pub fn from_json(
    alloc: Global,
    kind: &str,
    payload: &Value,
) -> Result<Option<CaepEvent>, PayloadFault>
    ensures { Answers PayloadFault.Memory result (caep_of kind.now (view payload.now)) }
{
    match value_named::<CaepType>(kind) {
        Some(event_type) => Ok(Some(CaepEvent::of_type(alloc, event_type, payload)?)),
        None => Ok(None),
    }
}

/// The payload of an event: its members by its type's row, and the common ones. A kept text that spells no JSON value is
/// written as null, and so is a time outside of -2^63 to 2^64 - 1.
pub fn to_json(alloc: Global, event: &CaepEvent) -> Result<Value, Memory>
    ensures { IfOk result (λ v. view v ≡ caep_payload event.now) }
{
    let mut payload = Map::new(alloc);
    event.kind.put(alloc, &mut payload)?;
    event.common.put(alloc, &mut payload)?;
    Ok(Value::Object(payload))
}

impl CaepEvent {
    /// The event of this type that a payload says; the faults are those of `from_json`.
    #[tactic(auto, using(sig_json::proofs::Decided::none_fails, sig_json::proofs::Decided::value_is, sig_json::proofs::Decided::one_fails, sig_json::proofs::Decided::rest_decides, sig_json::proofs::Decided::part_decides))]
    pub fn of_type(
        alloc: Global,
        event_type: CaepType,
        payload: &Value,
    ) -> Result<CaepEvent, PayloadFault>
        ensures { Answers PayloadFault.Memory result
            (decided (first_failing (caep_checks event_type (view payload.now))) (event_in event_type (view payload.now))) }
    {
        let kind = CaepKind::from_json(alloc, event_type, payload)?;
        let common = Common::from_json(alloc, payload)?;
        Ok(CaepEvent { common, kind })
    }

    /// An equal event.
    pub fn copy(&self, alloc: Global) -> Result<CaepEvent, Memory>
        ensures { IfOk result (λ c. c ≡ self.now) }
    {
        Ok(CaepEvent {
            common: self.common.copy(alloc)?,
            kind: self.kind.copy(alloc)?,
        })
    }
}

impl Copied for CaepEvent {
    fn copied(&self, alloc: Global) -> Result<CaepEvent, Memory> {
        self.copy(alloc)
    }
}

impl Same for CaepEvent {
    fn same(&self, other: &CaepEvent) -> bool {
        self.common.same(&other.common) && self.kind.same(&other.kind)
    }
}
