//! What the receiver tells of the session table in JSON (defined here).

ghost use Rattle.std.specs.Prelude.{◌≡◌, IfOk};
ghost use Rattle.serde_json.specs.View.{members_view, view};
ghost use Rattle.sig_rxroutes.specs.Documents as spec;

use serde_json::{Map, json};
use sig_json::{
    AnyText, Listed, Memory, OneOf, Payload, Value, put_member, put_optional_member, put_value,
    without_fraction,
};
use sig_sessions::{Account, Device, Opt, Row, Session, Verdict};
use sig_subject::to_json;
use std::alloc::Global;

/// A verdict, with the members of `Verdict`. Out of memory is its only error.
pub fn verdict_value(alloc: Global, verdict: &Verdict) -> Result<Value, Memory>
    ensures { IfOk result (λ v. view v ≡ spec.verdict_data verdict.now) }
{
    Ok(json!(in alloc; {
        "account": verdict.account.as_str(),
        "allow": verdict.allow,
        "device": verdict.device.as_str(),
        "known": verdict.known,
        "reset": verdict.reset,
        "session": verdict.session.as_str()
    })?)
}

/// Rows, in order. Out of memory is its only error.
pub fn rows_value(alloc: Global, rows: &[Row]) -> Result<Value, Memory>
    ensures { IfOk result (λ v. view v ≡ spec.rows_data rows.now) }
{
    let mut values = Vec::new(alloc);
    for row in rows {
        values.push(row_value(alloc, row)?)?;
    }
    Ok(Value::Array(values))
}

// A row, with the members of `Row`; `level` only where one was told.
fn row_value(alloc: Global, row: &Row) -> Result<Value, Memory>
    ensures { IfOk result (λ v. view v ≡ spec.row_data row.now) }
{
    let subject = without_fraction(to_json(alloc, &row.subject)?);
    let mut members = known_members(alloc, row)?;
    put_value(alloc, &mut members, "subject", subject)?;
    put_optional_member::<AnyText>(alloc, &mut members, "level", &row.level)?;
    Ok(Value::Object(members))
}

// What is known of a row's subject, but its level.
fn known_members(alloc: Global, row: &Row) -> Result<Payload, Memory>
    ensures { IfOk result (λ ms. members_view ms.entries ≡ spec.known_members row.now) }
{
    let mut members = Map::new(alloc);
    put_member::<OneOf<Account>>(alloc, &mut members, "account", &row.account)?;
    put_member::<OneOf<Device>>(alloc, &mut members, "device", &row.device)?;
    put_member::<OneOf<Opt>>(alloc, &mut members, "opt", &row.opt)?;
    put_value(alloc, &mut members, "reset", Value::from(row.reset))?;
    put_member::<OneOf<Session>>(alloc, &mut members, "session", &row.session)?;
    put_value(alloc, &mut members, "stale", Value::from(row.stale))?;
    Ok(members)
}
