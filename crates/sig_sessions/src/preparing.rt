//! What claims make of the rows, made ready.

ghost use Rattle.std.specs.Prelude.{◌≡◌, IfOk, OnOk, length, map, option_copied};
ghost use Rattle.sig_sessions.specs.Candidates.{known_at, known_under, updates_at, updates_under};
ghost use Rattle.sig_sessions.specs.Changes.{ArePlaced, updated_by};
ghost use Rattle.sig_sessions.specs.Keys.{entries_from};
ghost use Rattle.sig_sessions.specs.Laws.{subjects_of};
ghost use Rattle.sig_sessions.specs.Table as table;
ghost use Rattle.sig_sessions.specs.Walks as walk;

use crate::Row;
use crate::effects::{last_told, states_after};
use crate::keys::covered_keys;
use crate::update::Update;
use sig_event::{Claims, Event};
use sig_json::{Memory, Text};
use sig_places::{Places, PlacesOf};
use sig_subject::{Subject, covers, identical};
use std::alloc::Global;

/// What is found of the claims' subject among the rows: what becomes of those that it covers, and whether one is its own.
#[derive(Drop)]
pub(crate) struct Found {
    /// What becomes of the rows that it covers; one row may stand twice.
    pub updates: Vec<Update>,
    /// Whether a row is its own.
    pub known: bool,
}

/// What is found of the claims' subject. The places are those of the rows.
pub(crate) fn found_of(
    alloc: Global,
    rows: &[Row],
    places: &Places,
    claims: &Claims,
) -> Result<Found, Memory>
    requires { places.now.entries ≡ entries_from 0 (subjects_of rows.now) }
    ensures placed { IfOk result (λ found. ArePlaced (length rows.now) found.updates.items) }
    ensures makes { IfOk result (λ found. updated_by found.updates.items rows.now ≡ map (walk.changed_by_all_where_covered claims.now.subject claims.now.events) rows.now) }
    ensures known { IfOk result (λ found. found.known ≡ table.has_row claims.now.subject rows.now) }
{
    let (first, second) = covered_keys(places, &claims.subject);
    let mut found = Found {
        updates: Vec::new(alloc),
        known: false,
    };
    add_found(alloc, &mut found, rows, places.of(first), claims)?;
    add_second(alloc, &mut found, rows, places, second, claims)?;
    Ok(found)
}

// Adds what is found in the rows under the second key, where there is one.
fn add_second(
    alloc: Global,
    found: &mut Found,
    rows: &[Row],
    places: &Places,
    key: Option<u64>,
    claims: &Claims,
) -> Result<(), Memory>
    ensures updates { OnOk result (found.new.updates.items ≡ updates_under claims.now.subject claims.now.events rows.now places.now.entries key found.old.updates.items) }
    ensures known { OnOk result (found.new.known ≡ known_under claims.now.subject rows.now places.now.entries key found.old.known) }
{
    match key {
        Some(key) => add_found(alloc, found, rows, places.of(key), claims),
        None => Ok(()),
    }
}

// Adds what is found in the rows at the places.
fn add_found(
    alloc: Global,
    found: &mut Found,
    rows: &[Row],
    places: PlacesOf<'_>,
    claims: &Claims,
) -> Result<(), Memory>
    ensures updates { OnOk result (found.new.updates.items ≡ updates_at claims.now.subject claims.now.events rows.now places.entry found.old.updates.items) }
    ensures known { OnOk result (found.new.known ≡ known_at claims.now.subject rows.now places.entry found.old.known) }
{
    for place in places {
        if let Some(row) = rows.get(place) {
            found.known = found.known || identical(&row.subject, &claims.subject);
            add_update(alloc, &mut found.updates, place, row, claims)?;
        }
    }
    Ok(())
}

// Adds what becomes of the row at a place, where the claims' subject covers it.
fn add_update(
    alloc: Global,
    updates: &mut Vec<Update>,
    place: usize,
    row: &Row,
    claims: &Claims,
) -> Result<(), Memory>
    ensures { OnOk result (updates.new.items ≡ walk.with_update claims.now.subject claims.now.events place row.now updates.old.items) }
{
    if covers(&claims.subject, &row.subject) {
        updates.push(update_of(alloc, place, row, claims.events.as_slice())?)?;
    }
    Ok(())
}

/// Whether a row is of the subject. The places are those of the rows. It takes no memory.
pub(crate) fn is_known(rows: &[Row], places: &Places, subject: &Subject) -> bool
    requires { places.now.entries ≡ entries_from 0 (subjects_of rows.now) }
    ensures { result ≡ table.has_row subject.now rows.now }
{
    let (first, second) = covered_keys(places, subject);
    let known = known_at(rows, places.of(first), subject, false);
    known_second(rows, places, second, subject, known)
}

// Whether one was the subject's own, or a row under the second key is, where there is one.
fn known_second(
    rows: &[Row],
    places: &Places,
    key: Option<u64>,
    subject: &Subject,
    known: bool,
) -> bool
    ensures { result ≡ known_under subject.now rows.now places.now.entries key known }
{
    match key {
        Some(key) => known_at(rows, places.of(key), subject, known),
        None => known,
    }
}

// Whether one was the subject's own, or a row at the places is.
fn known_at(rows: &[Row], places: PlacesOf<'_>, subject: &Subject, known: bool) -> bool
    ensures { result ≡ known_at subject.now rows.now places.entry known }
{
    let mut found = known;
    for place in places {
        if let Some(row) = rows.get(place) {
            found = found || identical(&row.subject, subject);
        }
    }
    found
}

/// The subject's new row as the claims leave it.
pub(crate) fn new_row(alloc: Global, claims: &Claims) -> Result<Row, Memory>
    ensures { IfOk result (λ row. row ≡ walk.changed_by_all_where_covered claims.now.subject claims.now.events (table.unseen claims.now.subject)) }
{
    let mut row = Row::unseen(claims.subject.copy(alloc)?);
    if !covers(&claims.subject, &row.subject) {
        return Ok(row);
    }
    let update = update_of(alloc, 0, &row, claims.events.as_slice())?;
    row.change(update);
    Ok(row)
}

// What the events make of the row at a place.
fn update_of(alloc: Global, place: usize, row: &Row, events: &[Event]) -> Result<Update, Memory>
    ensures { IfOk result (λ update. update ≡ walk.update_at place events.now row.now) }
{
    Ok(Update {
        place,
        state: states_after(events, row.state()),
        level: copy_level(alloc, last_told(events))?,
    })
}

fn copy_level(alloc: Global, level: Option<&Text>) -> Result<Option<Text>, Memory>
    ensures { IfOk result (λ copy. copy ≡ option_copied level.entry) }
{
    match level {
        Some(text) => Ok(Some(text.copy(alloc)?)),
        None => Ok(None),
    }
}
