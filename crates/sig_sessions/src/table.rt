ghost use Rattle.std.specs.Prelude.{◌≡◌, ◌↔◌, [], IfOk, IsTrue, OnErr, drop, not, take, vec_len, vec_capacity};

use crate::effects::have_effect;
use crate::keys::key_count;
use crate::preparing::{found_of, is_known, new_row};
use crate::row::copy_rows;
use crate::{Change, Row, Verdict, verdict};
use sig_event::Claims;
use sig_json::{Items, Memory, same_slices};
use sig_places::Places;
use sig_subject::Subject;
use std::alloc::Global;
use std::marker::Model;

/// The session table: rows in order of first mention, no two of them of identical subjects.
pub struct Table {
    alloc: Global,
    rows: Vec<Row>,
    // Where the rows stand, under the keys of their subjects.
    places: Places,
}

impl Drop for Table {
    fn drop(self) {
        let Table {
            alloc: _,
            rows,
            places,
        } = self;
        drop(rows);
        drop(places);
    }
}

impl Model for Table {
    ghost use Rattle.std.specs.Prelude.{◌-◌, vec_len, vec_capacity};
    ghost use Rattle.sig_sessions.specs.Changes.{Held, room_for};
    ghost use Rattle.sig_sessions.specs.Indexed.{IsIndexed};

    ghost Value = { Held };

    ghost view = { λ t. record { rows = t.rows.items; room = room_for (vec_capacity t.rows - vec_len t.rows) t.places.room } };

    ghost invariant = { λ t. IsIndexed t.rows.items t.places.entries };
}

impl Table {
    ghost use Rattle.sig_sessions.specs.Changes.{IsReady, applied};
    ghost use Rattle.sig_sessions.specs.Table.{effect, has_row, with_new_row};
    ghost use Rattle.sig_sessions.specs.Verdicts.{verdict_of};

    /// No rows. It keeps the allocator and takes no memory.
    pub fn new(alloc: Global) -> Table
        ensures { result.rows ≡ [] }
    {
        Table {
            alloc,
            rows: Vec::new(alloc),
            places: Places::new(alloc),
        }
    }

    /// Makes ready what the claims make of the rows. The rows stay as they are; room for one more may be kept.
    /// Out of memory is its only error.
    pub fn prepare(&mut self, claims: &Claims) -> Result<Change, Memory>
        ensures same { self.new.rows ≡ self.old.rows }
        ensures ready { IfOk result (λ change. IsReady self.new change) }
        ensures makes { IfOk result (λ change. applied change self.old.rows ≡ effect claims.now self.old.rows) }
    {
        if !have_effect(claims.events.as_slice()) {
            return Ok(Change::of(Vec::new(self.alloc), None));
        }
        let found = found_of(self.alloc, self.rows.as_slice(), &self.places, claims)?;
        if found.known {
            return Ok(Change::of(found.updates, None));
        }
        let added = new_row(self.alloc, claims)?;
        self.rows.reserve(1)?;
        self.places.make_room(key_count(&claims.subject))?;
        Ok(Change::of(found.updates, Some(added)))
    }

    /// Takes in the change that the last `prepare` gave. It takes no memory.
    pub fn commit(&mut self, change: Change)
        requires { IsReady self.old change }
        ensures { self.new.rows ≡ applied change self.old.rows }
    {
        change.take_in(&mut self.rows, &mut self.places);
    }

    /// Adds a row last as it is, unless one of its subject is there, and says whether it is new. After out of memory the
    /// rows are as before.
    pub fn put_row(&mut self, row: Row) -> Result<bool, Memory>
        ensures new { IfOk result (λ is_new. is_new ≡ not (has_row row.subject self.old.rows)) }
        ensures kept { IfOk result (λ is_new. self.new.rows ≡ with_new_row row self.old.rows) }
        ensures err { OnErr result (self.new.rows ≡ self.old.rows) }
    {
        if is_known(self.rows.as_slice(), &self.places, &row.subject) {
            return Ok(false);
        }
        self.rows.reserve(1)?;
        self.places.make_room(key_count(&row.subject))?;
        self.commit(Change::of(Vec::new(self.alloc), Some(row)));
        Ok(true)
    }

    /// What the table says of a subject. It takes no memory.
    pub fn verdict(&self, subject: &Subject) -> Verdict
        ensures { result ≡ verdict_of self.now.rows subject.now }
    {
        verdict::verdict_of(self.rows.as_slice(), &self.places, subject)
    }

    /// The rows in order.
    pub fn as_slice(&self) -> &[Row]
        ensures { result.now ≡ self.now.rows }
    {
        self.rows.as_slice()
    }

    /// Copies of the rows from a place on, counted from 0, at most so many; a place past the end gives no rows.
    /// Out of memory is its only error.
    pub fn rows(&self, from: u64, most: u64) -> Result<Items<Row>, Memory>
        ensures { IfOk result (λ rows. rows ≡ take most (drop from self.now.rows)) }
    {
        let page = page_of(self.rows.as_slice(), from, most);
        Ok(Items::of(copy_rows(self.alloc, page)?))
    }

    /// Whether both have the same rows in the same order, whatever room each has for more.
    pub fn has_same_rows(&self, other: &Table) -> bool
        ensures { IsTrue result ↔ (self.now.rows ≡ other.now.rows) }
    {
        same_slices(self.rows.as_slice(), other.rows.as_slice())
    }

    /// A table with the same rows. Out of memory is its only error.
    pub fn copy(&self) -> Result<Table, Memory>
        ensures { IfOk result (λ t. t.rows ≡ self.now.rows) }
    {
        Ok(Table {
            alloc: self.alloc,
            rows: copy_rows(self.alloc, self.rows.as_slice())?,
            places: self.places.copy(self.alloc)?,
        })
    }
}

/// The rows are compared in their order, and not the room for more.
impl PartialEq for Table {
    ghost use Rattle.std.specs.Cmp.Lexicographic.{pointwise, lists_per};
    ghost use Rattle.std.specs.Cmp.{on_per, partial_equiv_from_equiv};
    ghost use Rattle.sig_sessions.specs.Equality.{row_eq, row_equiv};

    ghost eq = { λ a b. pointwise row_eq a.rows b.rows };

    ghost laws = { on_per (λ t. t.rows) (lists_per (partial_equiv_from_equiv row_equiv)) };

    fn eq(&self, other: &Table) -> bool {
        self.has_same_rows(other)
    }
}

impl Eq for Table {
    ghost use Rattle.std.specs.Cmp.Lexicographic.{lists_equiv};
    ghost use Rattle.std.specs.Cmp.{on_equiv};
    ghost use Rattle.sig_sessions.specs.Equality.{row_equiv};

    ghost laws = { on_equiv (λ t. t.rows) (lists_equiv row_equiv) };
}

// The rows from a place on, at most so many.
fn page_of(rows: &[Row], from: u64, most: u64) -> &[Row]
    ensures { result.now ≡ take most (drop from rows.now) }
{
    let start = rows.len().min(from as usize);
    let rest = &rows[start..];
    let end = rest.len().min(most as usize);
    &rest[..end]
}
