//! A change of the table that was made ready.

ghost use Rattle.std.specs.Prelude.{◌≡◌, ◌++◌, ◌∷◌, ◌-◌, ◌<◌, [], length, vec_len, vec_capacity};
ghost use Rattle.sig_sessions.specs.Changes.{ArePlaced, HasRoom, applied, entries_added, room_for, updated_at, updated_by};

use crate::Row;
use crate::keys::put_keys;
use crate::update::Update;
use sig_places::Places;
use std::marker::Model;

/// A change of the table that is ready to be taken in without memory. `Table::commit` alone takes it.
#[derive(Drop)]
pub struct Change {
    updates: Vec<Update>,
    added: Option<Row>,
}

impl Model for Change {
    ghost use Rattle.sig_sessions.specs.Changes.{Changed};

    ghost Value = { Changed };

    ghost view = { λ c. record { updates = c.updates.items; added = c.added } };
}

impl Change {
    /// Rows that change by their places, and a row to be added.
    pub(crate) fn of(updates: Vec<Update>, added: Option<Row>) -> Change
        ensures { result ≡ record { updates = updates.items; added = added } }
    {
        Change { updates, added }
    }

    /// Makes the change. It takes no memory.
    pub(crate) fn take_in(self, rows: &mut Vec<Row>, places: &mut Places)
        requires placed { ArePlaced (length rows.old.items) self.updates }
        requires room { HasRoom (room_for (vec_capacity rows.old - vec_len rows.old) places.old.room) self.added }
        ensures rows { rows.new.items ≡ applied self rows.old.items }
        ensures places { places.new.entries ≡ places.old.entries ++ entries_added (length rows.old.items) self.added }
    {
        let Change { updates, added } = self;
        update_rows(rows, updates);
        if let Some(row) = added {
            put_keys(places, rows.len(), &row.subject);
            push_within(rows, row);
        }
    }
}

// Changes the rows one after another. The room for further rows stays.
fn update_rows(rows: &mut Vec<Row>, updates: Vec<Update>)
    requires { ArePlaced (length rows.old.items) updates.items }
    ensures rows { rows.new.items ≡ updated_by updates.items rows.old.items }
    ensures room { vec_capacity rows.new - vec_len rows.new ≡ vec_capacity rows.old - vec_len rows.old }
    ensures len { length rows.new.items ≡ length rows.old.items }
{
    for update in updates {
        update_row(rows.as_mut_slice(), update);
    }
}

fn update_row(rows: &mut [Row], update: Update)
    requires { update.place < length rows.old }
    ensures rows { rows.new ≡ updated_at update.place update rows.old }
    ensures len { length rows.new ≡ length rows.old }
{
    let place = update.place;
    rows[place].change(update);
}

// Adds an item last, for which there is room.
fn push_within<T: Drop>(list: &mut Vec<T>, item: T)
    requires { vec_len list.old < vec_capacity list.old }
    ensures { list.new.items ≡ list.old.items ++ item ∷ [] }
{
    // There is room, so no memory is asked for, and the push can't be refused.
    let _ = list.push(item);
}
