//! Facts, as records of fields.

ghost use Rattle.std.specs.Prelude.{◌≡◌, ◌++◌, OnOk};
ghost use Rattle.sig_fields.specs.Kinds as kinds;
ghost use Rattle.sig_fields.specs.Reading.{Takes, ruled};
ghost use Rattle.sig_entry.specs.Facts as facts;

use crate::fact_kind::FactKind;
use crate::news::{NewsField, SubjectField};
use crate::streams::{ConfField, DeliveryField, SettledField, StatusField};
use sig_fields::{Field, FlagField, ListOf, Maybe, NumberField, PartFault, Reading, TextField};
use sig_json::Memory;
use sig_json::limits::LAST_NUMBER;
use sig_terms::Fact;
use std::alloc::Global;

/// A fact: its kind in one byte, and its fields in order.
pub struct FactField;

impl Field for FactField {
    type Value = Fact;

    ghost spelled = { facts.spelling_of };

    ghost read = { facts.read_fact };

    fn put(alloc: Global, value: &Fact, out: &mut Vec<u8>) -> Result<(), Memory> {
        out.push(FactKind::of(value).byte())?;
        put_fields(alloc, value, out)
    }

    fn take(alloc: Global, bytes: &mut Reading<'_>) -> Result<Fact, PartFault> {
        match take_kind(bytes)? {
            FactKind::Created => take_created(alloc, bytes),
            FactKind::Configured => take_configured(alloc, bytes),
            FactKind::StatusSet => take_status_set(alloc, bytes),
            FactKind::Listed => take_listed(alloc, bytes),
            FactKind::Unlisted => take_unlisted(alloc, bytes),
            FactKind::Deleted => take_deleted(alloc, bytes),
            FactKind::Published => take_published(alloc, bytes),
            FactKind::Settled => take_settled(alloc, bytes),
            FactKind::Asked => take_asked(alloc, bytes),
        }
    }
}

fn put_fields(alloc: Global, fact: &Fact, out: &mut Vec<u8>) -> Result<(), Memory>
    ensures { OnOk result (out.new.items ≡ out.old.items ++ facts.fields_bytes fact.now) }
{
    match fact {
        Fact::Created { conf, time } => {
            ConfField::put(alloc, conf, out)?;
            NumberField::put(alloc, time, out)
        }
        Fact::Configured {
            stream,
            requested,
            delivery,
            description,
        } => {
            TextField::put(alloc, stream, out)?;
            Maybe::<ListOf<TextField>>::put(alloc, requested, out)?;
            DeliveryField::put(alloc, delivery, out)?;
            Maybe::<TextField>::put(alloc, description, out)
        }
        Fact::StatusSet {
            stream,
            status,
            reason,
            operator,
            time,
        } => {
            TextField::put(alloc, stream, out)?;
            StatusField::put(alloc, status, out)?;
            Maybe::<TextField>::put(alloc, reason, out)?;
            FlagField::put(alloc, operator, out)?;
            NumberField::put(alloc, time, out)
        }
        Fact::Listed { stream, subject } | Fact::Unlisted { stream, subject } => {
            TextField::put(alloc, stream, out)?;
            SubjectField::put(alloc, subject, out)
        }
        Fact::Deleted { stream } => TextField::put(alloc, stream, out),
        Fact::Published { id, news, time } => {
            TextField::put(alloc, id, out)?;
            NewsField::put(alloc, news, out)?;
            NumberField::put(alloc, time, out)
        }
        Fact::Settled { stream, items } => {
            TextField::put(alloc, stream, out)?;
            ListOf::<SettledField>::put(alloc, items, out)
        }
        Fact::Asked {
            stream,
            state,
            time,
        } => {
            TextField::put(alloc, stream, out)?;
            Maybe::<TextField>::put(alloc, state, out)?;
            NumberField::put(alloc, time, out)
        }
    }
}

fn take_kind(bytes: &mut Reading<'_>) -> Result<FactKind, PartFault>
    ensures { Takes (ruled facts.kind_in kinds.byte bytes.old) result bytes.new }
{
    let begun = bytes.rest();
    let byte = bytes.take_byte()?;
    bytes.accept(begun, FactKind::with_byte(byte))
}

fn take_created(alloc: Global, bytes: &mut Reading<'_>) -> Result<Fact, PartFault>
    ensures { Takes (facts.created bytes.old) result bytes.new }
{
    let conf = ConfField::take(alloc, bytes)?;
    let time = bytes.take_up_to(LAST_NUMBER)?;
    Ok(Fact::Created { conf, time })
}

fn take_configured(alloc: Global, bytes: &mut Reading<'_>) -> Result<Fact, PartFault>
    ensures { Takes (facts.configured bytes.old) result bytes.new }
{
    let stream = TextField::take(alloc, bytes)?;
    let requested = Maybe::<ListOf<TextField>>::take(alloc, bytes)?;
    let delivery = DeliveryField::take(alloc, bytes)?;
    let description = Maybe::<TextField>::take(alloc, bytes)?;
    Ok(Fact::Configured {
        stream,
        requested,
        delivery,
        description,
    })
}

fn take_status_set(alloc: Global, bytes: &mut Reading<'_>) -> Result<Fact, PartFault>
    ensures { Takes (facts.status_set bytes.old) result bytes.new }
{
    let stream = TextField::take(alloc, bytes)?;
    let status = StatusField::take(alloc, bytes)?;
    let reason = Maybe::<TextField>::take(alloc, bytes)?;
    let operator = FlagField::take(alloc, bytes)?;
    let time = bytes.take_up_to(LAST_NUMBER)?;
    Ok(Fact::StatusSet {
        stream,
        status,
        reason,
        operator,
        time,
    })
}

fn take_listed(alloc: Global, bytes: &mut Reading<'_>) -> Result<Fact, PartFault>
    ensures { Takes (facts.listed bytes.old) result bytes.new }
{
    let stream = TextField::take(alloc, bytes)?;
    let subject = SubjectField::take(alloc, bytes)?;
    Ok(Fact::Listed { stream, subject })
}

fn take_unlisted(alloc: Global, bytes: &mut Reading<'_>) -> Result<Fact, PartFault>
    ensures { Takes (facts.unlisted bytes.old) result bytes.new }
{
    let stream = TextField::take(alloc, bytes)?;
    let subject = SubjectField::take(alloc, bytes)?;
    Ok(Fact::Unlisted { stream, subject })
}

fn take_deleted(alloc: Global, bytes: &mut Reading<'_>) -> Result<Fact, PartFault>
    ensures { Takes (facts.deleted bytes.old) result bytes.new }
{
    let stream = TextField::take(alloc, bytes)?;
    Ok(Fact::Deleted { stream })
}

fn take_published(alloc: Global, bytes: &mut Reading<'_>) -> Result<Fact, PartFault>
    ensures { Takes (facts.published bytes.old) result bytes.new }
{
    let id = TextField::take(alloc, bytes)?;
    let news = NewsField::take(alloc, bytes)?;
    let time = bytes.take_up_to(LAST_NUMBER)?;
    Ok(Fact::Published { id, news, time })
}

fn take_settled(alloc: Global, bytes: &mut Reading<'_>) -> Result<Fact, PartFault>
    ensures { Takes (facts.settled bytes.old) result bytes.new }
{
    let stream = TextField::take(alloc, bytes)?;
    let items = ListOf::<SettledField>::take(alloc, bytes)?;
    Ok(Fact::Settled { stream, items })
}

fn take_asked(alloc: Global, bytes: &mut Reading<'_>) -> Result<Fact, PartFault>
    ensures { Takes (facts.asked bytes.old) result bytes.new }
{
    let stream = TextField::take(alloc, bytes)?;
    let state = Maybe::<TextField>::take(alloc, bytes)?;
    let time = bytes.take_up_to(LAST_NUMBER)?;
    Ok(Fact::Asked {
        stream,
        state,
        time,
    })
}
