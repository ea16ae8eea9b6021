ghost use Rattle.std.specs.Prelude.{◌≡◌, ◌⊎◌, ◌<◌, false, IsTrue, None};
ghost use Rattle.sig_outside.specs.Disk.{StopsAfter};
ghost use Rattle.sig_journal.specs.OnlyRead.{OnlyRead};
ghost use Rattle.sig_journal.specs.Store.{pick};

use crate::{AppendFault, Framed, Journal};
use sig_outside::Disk;
use std::marker::Model;

/// A node's journal, and the number of the turn at which it broke. Contracts see both.
pub struct Store<D: Disk> {
    journal: Journal<D>,
    broken_at: Option<u64>,
}

impl<D: Disk> Model for Store<D> {
    ghost use Rattle.sig_journal.specs.Stored.{IsStored, Stored};

    ghost Value = { Stored D };

    ghost view = { λ s. record { journal = s.journal; broken_at = s.broken_at } };

    ghost invariant = { λ s. IsStored D.told D.seen D.may_leave (record { journal = s.journal; broken_at = s.broken_at }) };
}

impl<D: Disk> Store<D> {
    ghost use Rattle.sig_journal.specs.Journal.{IsAtRest, SameFiles};
    ghost use Rattle.sig_journal.specs.Appended.{AppendCauses, HasRecord, LeavesRecord, WritesOne};
    ghost use Rattle.sig_journal.specs.Stored.{IsStored, SameJournal};
    ghost use Rattle.std.specs.Prelude.{OnOk};

    /// The store of a journal that was loaded.
    pub fn open(journal: Journal<D>) -> Store<D>
        requires whole { journal.broken ≡ false }
        requires rests { IsAtRest D.told D.seen D.may_leave journal }
        ensures { result ≡ record { journal = journal; broken_at = None } }
    {
        Store {
            journal,
            broken_at: None,
        }
    }

    /// Adds a record in the turn of this number. At `Ok` no crash takes it away; at any moment before, a crash leaves what
    /// the store told before, or that with the record. After `Store` it is broken since this turn.
    pub fn append(&mut self, framed: &Framed, turn: u64) -> Result<(), AppendFault>
        requires { self.old.broken_at ≡ None }
        ensures ok { OnOk result (HasRecord D.told D.seen D.may_leave self.old self.new framed.now) }
        ensures leaves { LeavesRecord D.told D.seen D.moment D.left_since D.stop D.short self.old.journal self.new.journal framed.now result }
        ensures files { WritesOne D.told self.old.journal self.new.journal }
        ensures keeps { SameFiles self.old.journal self.new.journal }
        ensures causes { AppendCauses D.faults self.old self.new framed.now turn result }
    {
        match self.journal.append(framed) {
            Ok(_) => Ok(()),
            Err(AppendFault::Store) => {
                self.broken_at = Some(turn);
                Err(AppendFault::Store)
            }
            Err(AppendFault::Full(end)) => Err(AppendFault::Full(end)),
        }
    }

    /// How many records stand in the journal.
    pub fn records(&self) -> u64
        ensures { result ≡ self.now.journal.records }
    {
        self.journal.records()
    }

    /// The place after the last gate: so many bytes of the file in force have a meaning.
    pub fn end(&self) -> u64
        ensures { result ≡ self.now.journal.end }
    {
        self.journal.end()
    }

    /// The number of the turn at which the store broke, none while it isn't broken.
    pub fn broken_at(&self) -> Option<u64>
        ensures at { result ≡ self.now.broken_at }
        ensures stored { IsStored D.told D.seen D.may_leave self.now }
    {
        self.broken_at
    }

    /// Both files stand still after so many further calls of each, where they do that at all. Nothing else changes.
    pub fn stop_after(&mut self, calls: u64, fill: u8)
        ensures written { StopsAfter (D.stops self.old.journal.written) calls fill (D.stop self.new.journal.written) }
        ensures other { StopsAfter (D.stops self.old.journal.other) calls fill (D.stop self.new.journal.other) }
        ensures written_stays { OnlyRead D.told D.seen D.may_leave D.moment D.left_since D.faults self.old.journal.written self.new.journal.written }
        ensures other_stays { OnlyRead D.told D.seen D.may_leave D.moment D.left_since D.faults self.old.journal.other self.new.journal.other }
        ensures same { SameJournal self.old self.new }
        ensures keeps { SameFiles self.old.journal self.new.journal }
    {
        self.journal.stop_after(calls, fill);
    }

    /// Both files, the first and the second. Where the store is broken, one of them has counted a fault.
    pub fn into_disks(self) -> (D, D)
        ensures disks { result ≡ (pick self.journal.in_b self.journal.written self.journal.other, pick self.journal.in_b self.journal.other self.journal.written) }
        ensures counted { IsTrue self.journal.broken → (0 < D.faults self.journal.written) ⊎ (0 < D.faults self.journal.other) }
    {
        let Store {
            journal,
            broken_at: _,
        } = self;
        // What a journal counted rests on what holds of every journal.
        let _ = journal.is_broken();
        journal.into_disks()
    }
}
