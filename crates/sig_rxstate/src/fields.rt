//! Pairs and rows, as fields.

ghost use Rattle.sig_rxstate.specs.Parts as parts;

use crate::standing::{put_standing, take_value};
use sig_entry::SubjectField;
use sig_fields::{Field, FlagField, Maybe, PartFault, Reading, TextField};
use sig_inbox::Pair;
use sig_json::Memory;
use sig_sessions::Row;
use std::alloc::Global;

/// A pair: its issuer and its identifier.
pub(crate) struct PairField;

impl Field for PairField {
    type Value = Pair;

    ghost spelled = { parts.pair_bytes };

    ghost read = { parts.pair };

    fn put(alloc: Global, value: &Pair, out: &mut Vec<u8>) -> Result<(), Memory> {
        TextField::put(alloc, &value.iss, out)?;
        TextField::put(alloc, &value.jti, out)
    }

    fn take(alloc: Global, bytes: &mut Reading<'_>) -> Result<Pair, PartFault> {
        let iss = TextField::take(alloc, bytes)?;
        let jti = TextField::take(alloc, bytes)?;
        Ok(Pair { iss, jti })
    }
}

/// A row: its subject, what is known of it, and its level.
pub(crate) struct RowField;

impl Field for RowField {
    type Value = Row;

    ghost spelled = { parts.row_bytes };

    ghost read = { parts.row };

    fn put(alloc: Global, value: &Row, out: &mut Vec<u8>) -> Result<(), Memory> {
        SubjectField::put(alloc, &value.subject, out)?;
        put_standing(value, out)?;
        Maybe::<TextField>::put(alloc, &value.level, out)
    }

    fn take(alloc: Global, bytes: &mut Reading<'_>) -> Result<Row, PartFault> {
        let subject = SubjectField::take(alloc, bytes)?;
        let session = take_value(bytes)?;
        let account = take_value(bytes)?;
        let device = take_value(bytes)?;
        let reset = FlagField::take(alloc, bytes)?;
        let stale = FlagField::take(alloc, bytes)?;
        let opt = take_value(bytes)?;
        let level = Maybe::<TextField>::take(alloc, bytes)?;
        Ok(Row {
            subject,
            session,
            account,
            device,
            reset,
            stale,
            opt,
            level,
        })
    }
}
