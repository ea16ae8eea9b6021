ghost use Rattle.std.specs.Prelude.{◌≡◌, ◌↔◌, ◌⊎◌, ◌+◌, ◌<◌, ◌≤◌, ℕ, List, length, true, false, Some, IsErrOf, IsTrue, IfOk, OnOk};
ghost use Rattle.sig_json.specs.declared.limits.TheConstants.{LAST_NUMBER};
ghost use Rattle.sig_outside.specs.Causes.{Raised};
ghost use Rattle.sig_outside.specs.Disk.{LeavesOnly, StopsAfter};
ghost use Rattle.sig_journal.specs.Added.{RestsWith};
ghost use Rattle.sig_journal.specs.Checkpoint.{HasSnapshot, IsBeforeOrCompacted, IsBroken, beside_store, compacted, file_written};
ghost use Rattle.sig_journal.specs.Gates.{closing_calls};
ghost use Rattle.sig_journal.specs.OnlyRead.{OnlyRead};
ghost use Rattle.sig_journal.specs.Runs.{RestsAfter};
ghost use Rattle.sig_journal.specs.Snapshot.{CallsDisk, too_great};
ghost use Rattle.sig_journal.specs.Store.{IsBeforeOrAfter, pick, with_record};

use crate::added::add_record;
use crate::checkpoint::{Heading, write_snapshot};
use crate::layout::HEADER_BYTES;
use crate::{CheckFault, Framed, Kind};
use sig_json::limits::LAST_NUMBER;
use sig_outside::Disk;
use std::alloc::Global;
use std::marker::Model;
use std::mem::swap;
use thiserror::Error;

/// A journal that is open.
///
/// Contracts see its files, the one in force and the other; which of them is in force; its kind; how many records stand
/// after the snapshot; the place after the last gate; whether a call failed; the generation of the file in force; whether
/// the header gate of the other one is open; and the store's name. Unless a call failed, both files are what a crash would
/// leave.
pub struct Journal<D: Disk> {
    pub(crate) written: D,
    pub(crate) other: D,
    pub(crate) in_b: bool,
    pub(crate) kind: Kind,
    pub(crate) records: u64,
    pub(crate) end: u64,
    pub(crate) broken: bool,
    pub(crate) generation: u64,
    pub(crate) other_open: bool,
    pub(crate) store_id: [u8; 16],
}

impl<D: Disk> Model for Journal<D> {
    ghost use Rattle.sig_journal.specs.Journal.{IsSound, Open};

    ghost Value = { Open D };

    ghost view = { λ j. record { written = j.written; other = j.other; in_b = j.in_b; kind = j.kind; records = j.records; end = j.end; broken = j.broken; generation = j.generation; other_open = j.other_open; store_id = j.store_id } };

    ghost invariant = { λ j. IsSound D.told D.seen D.may_leave D.faults (record { written = j.written; other = j.other; in_b = j.in_b; kind = j.kind; records = j.records; end = j.end; broken = j.broken; generation = j.generation; other_open = j.other_open; store_id = j.store_id }) };
}

/// Why a record was not added.
#[derive(Clone, Copy, Debug, PartialEq, Eq, Error)]
pub enum AppendFault {
    /// The disk failed, and counted it. The journal is broken: load the store again.
    #[error("the disk failed")]
    Store,
    /// The journal would end at this place, past 2^62. Nothing changed.
    #[error("the journal would end at {0}")]
    Full(u64),
}

impl<D: Disk> Journal<D> {
    ghost use Rattle.sig_journal.specs.Journal.{BothTold, IsAtRest, SameFiles, image_store, told_store};

    /// Adds a record, and answers the new end. At `Ok` no crash takes it away; at any moment before, a crash leaves what
    /// the store told before, or that with the record.
    pub fn append(&mut self, framed: &Framed) -> Result<u64, AppendFault>
        requires { self.old.broken ≡ false }

        ensures ok { IfOk result (λ end. (end ≡ self.new.end) × (end ≡ self.old.end + 5 + length framed.now) × (self.new.records ≡ self.old.records + 1) × (self.new.broken ≡ false)) }
        ensures durable { OnOk result (IsAtRest D.told D.seen D.may_leave self.new) }
        ensures tells { OnOk result (BothTold D.told self.old → told_store D.seen self.new ≡ with_record (told_store D.seen self.old) framed.now) }

        // A crash at any moment of the call leaves what the store told, with the record or without.
        ensures any_moment { BothTold D.told self.old → LeavesOnly D.moment D.left_since self.old.written self.new.written
            (λ image. IsBeforeOrAfter (told_store D.seen self.old) framed.now (image_store D.seen self.old image)) }

        // A disk that stands still rests with it or without it.
        ensures stopped { BothTold D.told self.old → self.old.end + 5 + length framed.now ≤ LAST_NUMBER
            → RestsWith (λ image. image_store D.seen self.old image ≡ told_store D.seen self.old) (λ image. image_store D.seen self.old image ≡ with_record (told_store D.seen self.old) framed.now)
            (D.stop self.old.written) (D.stop self.new.written) (D.short self.new.written) result }

        ensures other { (self.new.other ≡ self.old.other) × (self.new.in_b ≡ self.old.in_b) × (self.new.kind ≡ self.old.kind) × (D.told self.new.written ≡ D.told self.old.written) }
        ensures keeps { SameFiles self.old self.new }
        ensures store { IsErrOf result AppendFault.Store → Raised (D.faults self.old.written) (D.faults self.new.written) × (self.new.broken ≡ true) }
        ensures steady { OnOk result (D.faults self.new.written ≡ D.faults self.old.written) }
        ensures later { D.faults self.old.written ≤ D.faults self.new.written }
        ensures full { (n : ℕ) → IsErrOf result (AppendFault.Full n) ↔ ((n ≡ self.old.end + 5 + length framed.now) × (LAST_NUMBER < n)) }
        ensures same { (n : ℕ) → IsErrOf result (AppendFault.Full n) → self.new ≡ self.old }
    {
        let end = self.end + framed.bytes().len() as u64;
        if end > LAST_NUMBER {
            return Err(AppendFault::Full(end));
        }
        if add_record(&mut self.written, self.end, framed).is_err() {
            self.broken = true;
            return Err(AppendFault::Store);
        }
        self.records += 1;
        self.end = end;
        Ok(end)
    }

    /// Puts a snapshot in place of the records: it is written into the file that isn't in force, and that file is put in
    /// force. At `Ok` no crash takes it away; at any moment before, a crash leaves what the store told before, or that with
    /// the snapshot in place of its records. Seven calls of the device, or five where the header gate of that file isn't open.
    pub fn checkpoint(&mut self, alloc: Global, snapshot: &[u8]) -> Result<(), CheckFault>
        requires { self.old.broken ≡ false }

        ensures tells { OnOk result (BothTold D.told self.old → told_store D.seen self.new ≡ compacted (told_store D.seen self.old) snapshot.now) }
        ensures durable { OnOk result (IsAtRest D.told D.seen D.may_leave self.new) }
        ensures numbers { OnOk result (HasSnapshot self.old self.new (length snapshot.now)) }

        // The file that was in force isn't written.
        ensures untouched { OnOk result (self.new.other ≡ self.old.written) }
        ensures untouched_err { IsErrOf result CheckFault.Store → self.new.written ≡ self.old.written }

        // A crash at any moment of the call leaves what the store told, or that with the snapshot in place of its records.
        ensures any_moment { BothTold D.told self.old → LeavesOnly D.moment D.left_since self.old.other (file_written result self.new)
            (λ image. IsBeforeOrCompacted (told_store D.seen self.old) snapshot.now (beside_store D.seen self.old image)) }

        // A disk that stands still rests with the one or the other.
        ensures stopped { BothTold D.told self.old → CallsDisk result
            → RestsAfter (closing_calls self.old.other_open + 5) (λ image. beside_store D.seen self.old image ≡ told_store D.seen self.old)
            (λ image. beside_store D.seen self.old image ≡ compacted (told_store D.seen self.old) snapshot.now)
            (D.stop self.old.other) (D.stop (file_written result self.new)) (D.short (file_written result self.new)) result }

        ensures store { IsErrOf result CheckFault.Store → Raised (D.faults self.old.other) (D.faults self.new.other) × IsBroken self.old self.new }
        ensures big { (n : ℕ) → IsErrOf result (CheckFault.Big n) ↔ (too_great self.old.generation (length snapshot.now) ≡ Some n) }
        ensures same { (CallsDisk result → ⊥) → self.new ≡ self.old }
        ensures steady { OnOk result ((D.faults self.new.written ≡ D.faults self.old.other) × (D.faults self.new.other ≡ D.faults self.old.written)) }
        ensures disk { (D.told (file_written result self.new) ≡ D.told self.old.other) × (D.stops (file_written result self.new) ≡ D.stops self.old.other) }
    {
        let header = Heading {
            kind: self.kind,
            generation: self.generation,
            store_id: self.store_id,
        };
        match write_snapshot(
            alloc,
            &self.written,
            &mut self.other,
            self.other_open,
            header,
            snapshot,
        ) {
            Ok(()) => {
                swap(&mut self.written, &mut self.other);
                self.in_b = !self.in_b;
                self.records = 0;
                self.end = HEADER_BYTES as u64 + 1 + snapshot.len() as u64;
                self.generation += 1;
                self.other_open = true;
                Ok(())
            }
            Err(CheckFault::Store) => {
                self.broken = true;
                Err(CheckFault::Store)
            }
            Err(CheckFault::Big(number)) => Err(CheckFault::Big(number)),
            Err(CheckFault::Memory) => Err(CheckFault::Memory),
        }
    }

    /// Whether a call has answered `Store`. A disk has counted a fault then.
    pub fn is_broken(&self) -> bool
        ensures broken { result ≡ self.now.broken }
        ensures counted { IsTrue result → (0 < D.faults self.now.written) ⊎ (0 < D.faults self.now.other) }
    {
        self.broken
    }

    /// How many records stand after the snapshot in the file in force.
    pub fn records(&self) -> u64
        ensures { result ≡ self.now.records }
    {
        self.records
    }

    /// The place after the last gate.
    pub fn end(&self) -> u64
        ensures end { result ≡ self.now.end }
        ensures bound { result ≤ LAST_NUMBER }
    {
        self.end
    }

    /// Both files stand still after so many further calls of each, where they do that at all. Nothing else changes.
    pub fn stop_after(&mut self, calls: u64, fill: u8)
        ensures written { StopsAfter (D.stops self.old.written) calls fill (D.stop self.new.written) }
        ensures other { StopsAfter (D.stops self.old.other) calls fill (D.stop self.new.other) }
        ensures written_stays { OnlyRead D.told D.seen D.may_leave D.moment D.left_since D.faults self.old.written self.new.written }
        ensures other_stays { OnlyRead D.told D.seen D.may_leave D.moment D.left_since D.faults self.old.other self.new.other }
        ensures same { (self.new.in_b ≡ self.old.in_b) × (self.new.kind ≡ self.old.kind) × (self.new.records ≡ self.old.records) × (self.new.end ≡ self.old.end) × (self.new.broken ≡ self.old.broken) }
        ensures keeps { SameFiles self.old self.new }
    {
        self.written.stop_after(calls, fill);
        self.other.stop_after(calls, fill);
    }

    /// Both files, the first and the second.
    pub fn into_disks(self) -> (D, D)
        ensures { result ≡ (pick self.in_b self.written self.other, pick self.in_b self.other self.written) }
    {
        let Journal {
            written,
            other,
            in_b,
            kind: _,
            records: _,
            end: _,
            broken: _,
            generation: _,
            other_open: _,
            store_id: _,
        } = self;
        if in_b {
            (other, written)
        } else {
            (written, other)
        }
    }
}
