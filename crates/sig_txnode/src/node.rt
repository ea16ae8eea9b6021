ghost use Rattle.std.specs.Prelude.{◌≡◌, ◌⊎◌, ◌+◌, ◌-◌, ◌<◌, ◌^◌, ◌++◌, length, min, IfErr, IfOk, IsErrOf, IsTrue, MatchResult, OnErr, OnOk, is_some, true};
ghost use Rattle.std.specs.Option.{option_to_list};
ghost use Rattle.sig_json.specs.Answers.{Answers};
ghost use Rattle.sig_calls.specs.Proper.{IsProperRules};
ghost use Rattle.sig_outside.specs.Causes.{Rose};
ghost use Rattle.sig_outside.specs.Disk.{StopsAfter};
ghost use Rattle.sig_journal.specs.declared.kind.Kind.TheVariants.{Tx};
ghost use Rattle.sig_journal.specs.declared.fault.LoadFault.TheVariants as load;
ghost use Rattle.sig_journal.specs.Journal.{BothTold, told_store};
ghost use Rattle.sig_journal.specs.Layout.{places_of};
ghost use Rattle.sig_journal.specs.Opened.{Opens};
ghost use Rattle.sig_journal.specs.OnlyRead.{OnlyRead};
ghost use Rattle.sig_journal.specs.Store.{file_number, pick, tells};
ghost use Rattle.sig_journal.specs.Taking as taking;
ghost use Rattle.sig_txnode.specs.Loaded.{Begins, state_by, told_of};
ghost use Rattle.sig_txnode.specs.Records.{sending};

use crate::Taken;
use crate::keeping::{Held, take_turn};
use crate::loading::state_in;
use sig_journal::{Kind, LoadFault, LoadRefused, Loaded, NodeFault, Store};
use sig_json::Memory;
use sig_json::limits::LAST_NUMBER;
use sig_outbox::Outbox;
use sig_outside::Disk;
use sig_past::Past;
use sig_terms::{Answer, Call, Rules};
use std::alloc::Global;
use std::marker::Model;
use std::snapshot::Snapshot;

/// A transmitter over the two files of a store. It keeps its allocator.
///
/// Contracts see its store, its rules and its state, and since it was loaded or its watch was opened: the state then, the
/// changes and the turns.
pub struct TxNode<D: Disk> {
    alloc: Global,
    rules: Rules,
    base: Snapshot<Outbox>,
    held: Held<D>,
}

impl<D: Disk> Model for TxNode<D> {
    ghost use Rattle.sig_txnode.specs.Node.{IsNode, NodeView};

    ghost Value = { NodeView D };

    ghost view = { λ n. record { store = n.held.store; rules = n.rules; state = n.held.outbox.sum; base = n.base.value.sum; entries = n.held.entries.items; turns = n.held.turns.items } };

    ghost invariant = { λ n. IsNode D.told D.seen D.may_leave (record { store = n.held.store; rules = n.rules; state = n.held.outbox.sum; base = n.base.value.sum; entries = n.held.entries.items; turns = n.held.turns.items }) };
}

impl<D: Disk> TxNode<D> {
    ghost use Rattle.sig_calls.specs.Proper.{IsProperCall};
    ghost use Rattle.sig_calls.specs.Table.{change_of};
    ghost use Rattle.sig_journal.specs.Standing.{StandsFor};
    ghost use Rattle.sig_journal.specs.Stored.{IsStored};
    ghost use Rattle.sig_outbox.specs.Totals.{owed_in_all};
    ghost use Rattle.sig_txnode.specs.Answering.{Answered, answer_at, time_used};
    ghost use Rattle.sig_txnode.specs.Loaded.{GivesState};
    ghost use Rattle.sig_txnode.specs.Node.{IsNode, begun};
    ghost use Rattle.sig_txnode.specs.Taken.{Kept, Lasts, Refused, StaysBeside};

    /// The node of a store: its state is what the store's facts come to.
    ///
    /// `Damaged` comes exactly where the store is damaged: where its bytes are no journal, or at the gate of the first record
    /// that is no fact, or one that doesn't fit. `Store` comes only where a disk has counted a fault.
    pub fn load(alloc: Global, a: D, b: D, rules: Rules) -> Result<TxNode<D>, LoadRefused<D>>
        requires { IsProperRules rules }

        // What is given is what the store stands for, and the fault that is told is the one that the store has.
        ensures told { IsTrue (D.told a) → IsTrue (D.told b) → GivesState (taking.loaded sending (tells Tx (D.seen a) (D.seen b))) (state_by result) }

        ensures begins { IfOk result (λ n. Begins D.told D.seen D.may_leave rules n) }

        // A crash at any moment leaves what it might have left before.
        ensures reads { MatchResult result
            (λ n. OnlyRead D.told D.seen D.may_leave D.moment D.left_since D.faults a (pick n.store.journal.in_b n.store.journal.written n.store.journal.other)
            × OnlyRead D.told D.seen D.may_leave D.moment D.left_since D.faults b (pick n.store.journal.in_b n.store.journal.other n.store.journal.written))
            (λ r. OnlyRead D.told D.seen D.may_leave D.moment D.left_since D.faults a r.a × OnlyRead D.told D.seen D.may_leave D.moment D.left_since D.faults b r.b) }

        ensures store { IfErr result (λ r. r.fault ≡ load.Store → Rose (D.faults a) (D.faults r.a) ⊎ Rose (D.faults b) (D.faults r.b)) }
        ensures steady { IfOk result (λ n. (D.faults (pick n.store.journal.in_b n.store.journal.written n.store.journal.other) ≡ D.faults a) × (D.faults (pick n.store.journal.in_b n.store.journal.other n.store.journal.written) ≡ D.faults b)) }
        ensures steady_err { IfErr result (λ r. (r.fault ≡ load.Store → ⊥) → (D.faults r.a ≡ D.faults a) × (D.faults r.b ≡ D.faults b)) }
    {
        match sig_journal::load(alloc, a, b, Kind::Tx) {
            Ok(loaded) => opened(alloc, loaded, rules),
            Err(refused) => Err(refused),
        }
    }

    /// Answers a call that a link asks at a time, which counts as 2^62 where it is above that, and keeps the turn.
    ///
    /// It answers by the table of calls. At `Ok` the call's change stands in the journal, and no crash takes it away; at any
    /// moment before, a crash leaves the state before or the state after. `Full` comes exactly where the journal's end, or the
    /// number of a stream or of a token, would be a number above 2^62, which it tells. `Store` comes only where the disk
    /// counted a fault, in this call or since the node was loaded, and to each call after that one. `Memory` changes nothing
    /// and keeps no turn.
    pub fn take(&mut self, link: u32, call: &Call, now: u64) -> Result<Answer, NodeFault>
        requires { IsProperCall call.now }
        ensures answered { Answered (answer_at self.old.rules self.old.state self.old.store.journal.end call.now (time_used now)) (change_of self.old.rules self.old.state call.now (time_used now)) self.old.store.broken_at self.old.state self.new.state result }
        ensures kept { Kept self.old self.new link call.now (time_used now) result }
        ensures lasts { Lasts D.told D.seen D.may_leave D.moment D.left_since D.stop D.short self.old.store self.new.store self.old.state (change_of self.old.rules self.old.state call.now (time_used now)) result }
        ensures refused { Refused D.faults self.old.store self.new.store (length self.old.turns + 1) result }
        ensures memory { IsErrOf result NodeFault.Memory → self.new ≡ self.old }
    {
        let Taken { result, turn: _ } = self.take_kept(link, call, now);
        result
    }

    /// Answers a call as `take` does, and gives the turn that was kept: none exactly where memory ran out. The node itself
    /// keeps no turn when the program runs.
    pub fn take_kept(&mut self, link: u32, call: &Call, now: u64) -> Taken
        requires { IsProperCall call.now }
        ensures answered { Answered (answer_at self.old.rules self.old.state self.old.store.journal.end call.now (time_used now)) (change_of self.old.rules self.old.state call.now (time_used now)) self.old.store.broken_at self.old.state self.new.state result.result }
        ensures kept { Kept self.old self.new link call.now (time_used now) result.result }
        ensures turn { self.new.turns ≡ self.old.turns ++ option_to_list result.turn }
        ensures lasts { Lasts D.told D.seen D.may_leave D.moment D.left_since D.stop D.short self.old.store self.new.store self.old.state (change_of self.old.rules self.old.state call.now (time_used now)) result.result }
        ensures refused { Refused D.faults self.old.store self.new.store (length self.old.turns + 1) result.result }
        ensures memory { IsErrOf result.result NodeFault.Memory → self.new ≡ self.old }
    {
        take_turn(
            self.alloc,
            &mut self.held,
            &self.rules,
            link,
            call,
            now.min(LAST_NUMBER),
        )
    }

    /// Opens a watch of a node that isn't broken: from now on its base is its state, and it has no turn and no entry. The
    /// base is what contracts see of the state, so it copies nothing; it takes no memory.
    pub fn open_watch(&mut self)
        requires { self.old.store.broken_at ≡ None }
        ensures opens { self.new ≡ begun self.old }
    {
        self.base = Snapshot::of(&self.held.outbox);
        self.held.entries = Past::new(self.alloc);
        self.held.turns = Past::new(self.alloc);
    }

    /// The rules by which calls are answered. They are proper ones.
    pub fn rules(&self) -> &Rules
        ensures { result.now ≡ self.now.rules }
    {
        &self.rules
    }

    /// How many turns were kept since the watch was opened, or the node was loaded. It takes no memory.
    pub fn turn_count(&self) -> usize
        ensures { result ≡ length self.now.turns }
    {
        self.held.turns.len()
    }

    /// How many records stand in the journal. It takes no memory.
    pub fn records(&self) -> u64
        ensures { result ≡ self.now.store.journal.records }
    {
        self.held.store.records()
    }

    /// How many bytes of the store's file in force have a meaning. It takes no memory.
    pub fn bytes(&self) -> u64
        ensures { result ≡ self.now.store.journal.end }
    {
        self.held.store.end()
    }

    /// How many streams stand. It takes no memory.
    pub fn streams(&self) -> usize
        ensures { result ≡ length self.now.state.parts.streams }
    {
        self.held.outbox.streams()
    }

    /// How many tokens all streams owe together, or 2^64 - 1 where they are more. It takes no memory.
    pub fn owed_in_all(&self) -> u64
        ensures { result ≡ min (owed_in_all self.now.state) (2 ^ 64 - 1) }
    {
        self.held.outbox.owed_in_all()
    }

    /// How many turns were kept when the disk's count of faults rose, the turn of that call included; none exactly while the
    /// node isn't broken. It takes no memory.
    pub fn broken_at(&self) -> Option<u64>
        ensures at { result ≡ self.now.store.broken_at }
        ensures broken { is_some result ≡ self.now.store.journal.broken }

        // What holds of every node.
        ensures kept { IsNode D.told D.seen D.may_leave self.now }
    {
        self.held.store.broken_at()
    }

    /// Both files stand still after so many further calls of each, where they do that at all. Nothing else changes. It takes
    /// no memory.
    pub fn stop_after(&mut self, calls: u64, fill: u8)
        ensures written { StopsAfter (D.stops self.old.store.journal.written) calls fill (D.stop self.new.store.journal.written) }
        ensures other { StopsAfter (D.stops self.old.store.journal.other) calls fill (D.stop self.new.store.journal.other) }
        ensures written_stays { OnlyRead D.told D.seen D.may_leave D.moment D.left_since D.faults self.old.store.journal.written self.new.store.journal.written }
        ensures other_stays { OnlyRead D.told D.seen D.may_leave D.moment D.left_since D.faults self.old.store.journal.other self.new.store.journal.other }
        ensures same { StaysBeside self.old self.new }
    {
        self.held.store.stop_after(calls, fill);
    }

    /// A copy of the state. Out of memory is its only error.
    pub fn copy(&self) -> Result<Outbox, Memory>
        ensures { IfOk result (λ o. o.sum ≡ self.now.state) }
    {
        self.held.outbox.copy()
    }

    /// Both files, the first and the second. They stand for the state as the node's store did, and where the node is broken,
    /// one of them has counted a fault. It takes no memory.
    pub fn into_disks(self) -> (D, D)
        ensures disks { result ≡ (pick self.store.journal.in_b self.store.journal.written self.store.journal.other, pick self.store.journal.in_b self.store.journal.other self.store.journal.written) }
        ensures stands { StandsFor sending D.told D.seen D.may_leave self.store self.state }
        ensures stored { IsStored D.told D.seen D.may_leave self.store }
        ensures counted { is_some self.store.broken_at ≡ true → (0 < D.faults self.store.journal.written) ⊎ (0 < D.faults self.store.journal.other) }
    {
        let TxNode {
            alloc: _,
            rules: _,
            base: _,
            held,
        } = self;
        let Held {
            store,
            outbox: _,
            entries: _,
            turns: _,
        } = held;
        // What a store leaves rests on what holds of every store.
        let _ = store.broken_at();
        store.into_disks()
    }
}

// The node of a store whose journal was loaded.
fn opened<D: Disk>(
    alloc: Global,
    loaded: Loaded<D>,
    rules: Rules,
) -> Result<TxNode<D>, LoadRefused<D>>
    requires rules { IsProperRules rules }
    requires opens { Opens D.told D.seen D.may_leave Tx loaded }
    requires places { loaded.places ≡ places_of (35 + length loaded.snapshot) loaded.records }
    requires file { loaded.file ≡ file_number loaded.journal.in_b }
    requires told { BothTold D.told loaded.journal → told_store D.seen loaded.journal ≡ Ok (told_of loaded) }
    ensures state { Answers LoadFault.Memory (state_by result) (taking.loaded sending (Ok (told_of loaded))) }
    ensures begins { IfOk result (λ n. Begins D.told D.seen D.may_leave rules n) }
    ensures files { MatchResult result (λ n. n.store.journal ≡ loaded.journal)
        (λ r. (r.a ≡ pick loaded.journal.in_b loaded.journal.written loaded.journal.other) × (r.b ≡ pick loaded.journal.in_b loaded.journal.other loaded.journal.written)) }
{
    match state_in(alloc, &loaded) {
        Ok(outbox) => {
            let Loaded {
                journal,
                file: _,
                store_id: _,
                snapshot: _,
                records: _,
                places: _,
            } = loaded;
            Ok(TxNode {
                alloc,
                rules,
                base: Snapshot::of(&outbox),
                held: Held {
                    store: Store::open(journal),
                    outbox,
                    entries: Past::new(alloc),
                    turns: Past::new(alloc),
                },
            })
        }
        Err(fault) => {
            let Loaded {
                journal,
                file: _,
                store_id: _,
                snapshot: _,
                records: _,
                places: _,
            } = loaded;
            let (a, b) = journal.into_disks();
            Err(LoadRefused { fault, a, b })
        }
    }
}
