ghost use Rattle.std.specs.Prelude.{◌≡◌, ◌⊎◌, ◌<◌, ◌++◌, [], IfErr, IfOk, IsTrue, MatchResult, None, is_some, length, true};
ghost use Rattle.std.specs.Option.{option_to_list};
ghost use Rattle.sig_outside.specs.Causes.{Rose};
ghost use Rattle.sig_outside.specs.Disk.{StopsAfter};
ghost use Rattle.sig_journal.specs.declared.fault.LoadFault.TheVariants as load_fault;
ghost use Rattle.sig_journal.specs.declared.kind.Kind.TheVariants.{Rx};
ghost use Rattle.sig_journal.specs.OnlyRead.{OnlyRead};
ghost use Rattle.sig_journal.specs.Store.{pick, tells};
ghost use Rattle.sig_journal.specs.Stored.{IsStored, SameJournal};
ghost use Rattle.sig_rxnode.specs.Holding.{IsHolding};
ghost use Rattle.sig_rxnode.specs.Parts.{holding_of};
ghost use Rattle.sig_rxnode.specs.Take.{KeepsTurn};

use crate::journalled::Journalled;
use crate::keeping::{keep_turn, make_room};
use crate::loading::load;
use crate::{RxAnswer, RxCall, RxFault, RxRules, RxState, RxTaken, RxTurn};
use sig_journal::{LoadFault, LoadRefused};
use sig_json::Memory;
use sig_outside::Disk;
use sig_past::Past;
use sig_set::PreparedTrust;
use std::alloc::Global;
use std::marker::Model;

/// A receiver's node. Contracts see what it holds, its settings, and since it was loaded or its watch was opened: the turns,
/// and how many texts stood in the journal before them.
pub struct RxNode<D: Disk> {
    kept: Journalled<D>,
    rules: RxRules,
    trust: PreparedTrust,
    turns: Past<RxTurn>,
    opened: usize,
}

impl<D: Disk> Model for RxNode<D> {
    ghost use Rattle.sig_rxnode.specs.Node.{IsNode, NodeView};
    ghost use Rattle.sig_rxnode.specs.Parts.{holding_of};

    ghost Value = { NodeView D };

    ghost view = { λ n. record { kept = holding_of n.kept; rules = n.rules; turns = n.turns.items; opened = n.opened } };

    ghost invariant = { λ n. IsNode D.told D.seen D.may_leave (record { kept = holding_of n.kept; rules = n.rules; turns = n.turns.items; opened = n.opened }) n.trust };
}

impl<D: Disk> RxNode<D> {
    ghost use Rattle.sig_journal.specs.Appended.{WritesOne};
    ghost use Rattle.sig_rxnode.specs.Journals.{Writes};
    ghost use Rattle.sig_rxnode.specs.Loading.{LoadsTold};
    ghost use Rattle.sig_rxnode.specs.Node.{IsHistory, base_of, begun, kept_by};
    ghost use Rattle.sig_rxnode.specs.States.{held};
    ghost use Rattle.sig_rxnode.specs.Take.{Answered, Refused, added_by};

    /// Loads a node from the two files of its store: what its records stand for, with these settings.
    ///
    /// Each file is synced and then read, and neither is written. `Damaged` comes exactly where the store is damaged, or at
    /// the gate of the first record that spells no token which says claims; `Store` only where a disk has counted a fault.
    pub fn load(alloc: Global, a: D, b: D, rules: RxRules) -> Result<RxNode<D>, LoadRefused<D>>
        ensures told { IsTrue (D.told a) → IsTrue (D.told b) → LoadsTold kept_by (tells Rx (D.seen a) (D.seen b)) result }
        ensures begins { IfOk result (λ n. (n.rules ≡ rules) × (n.turns ≡ []) × (n.kept.store.journal.kind ≡ Rx) × (n.kept.store.broken_at ≡ None)) }
        ensures holds { IfOk result (λ n. IsHolding D.told D.seen D.may_leave n.kept) }
        ensures reads { MatchResult result
            (λ n. OnlyRead D.told D.seen D.may_leave D.moment D.left_since D.faults a (pick n.kept.store.journal.in_b n.kept.store.journal.written n.kept.store.journal.other)
            × OnlyRead D.told D.seen D.may_leave D.moment D.left_since D.faults b (pick n.kept.store.journal.in_b n.kept.store.journal.other n.kept.store.journal.written))
            (λ r. OnlyRead D.told D.seen D.may_leave D.moment D.left_since D.faults a r.a × OnlyRead D.told D.seen D.may_leave D.moment D.left_since D.faults b r.b) }
        ensures store { IfErr result (λ r. r.fault ≡ load_fault.Store → Rose (D.faults a) (D.faults r.a) ⊎ Rose (D.faults b) (D.faults r.b)) }
        ensures opened { IfOk result (λ n. n.opened ≡ length n.kept.entries) }
        ensures steady { IfOk result (λ n. (D.faults (pick n.kept.store.journal.in_b n.kept.store.journal.written n.kept.store.journal.other) ≡ D.faults a) × (D.faults (pick n.kept.store.journal.in_b n.kept.store.journal.other n.kept.store.journal.written) ≡ D.faults b)) }
        ensures steady_err { IfErr result (λ r. (r.fault ≡ load_fault.Store → ⊥) → (D.faults r.a ≡ D.faults a) × (D.faults r.b ≡ D.faults b)) }
    {
        match load(alloc, a, b) {
            Ok(kept) => node_of(alloc, kept, rules),
            Err(refused) => Err(refused),
        }
    }

    /// Takes a call of a link: judges and prepares, takes all room, adds a token that is valid and new to the journal, takes
    /// it in, and keeps the turn.
    ///
    /// `Accepted` comes only where the token stands in the journal, so that no crash takes it away, and has had its effect.
    /// `Store` comes only where the disk failed in this call, or in an earlier one since the node was loaded; `Full` exactly
    /// where the journal would end past 2^62; `Memory` changes nothing, and keeps no turn.
    pub fn take(&mut self, link: u32, call: &RxCall) -> Result<RxAnswer, RxFault>
        ensures answered { Answered call.now self.old self.new result }
        ensures turn { KeepsTurn self.old.turns self.new.turns link call.now result }
        ensures writes { Writes D.told D.seen D.may_leave D.moment D.left_since D.stop D.short (added_by self.old call.now) self.old.kept self.new.kept result }
        ensures refused { Refused D.faults call.now self.old self.new result }
        ensures holds { IsHolding D.told D.seen D.may_leave self.old.kept × IsHolding D.told D.seen D.may_leave self.new.kept }
        ensures files { WritesOne D.told self.old.kept.store.journal self.new.kept.store.journal }

        // The turn adds to the history, and leaves where it began.
        ensures opened { self.new.opened ≡ self.old.opened }
        ensures base { base_of self.new ≡ base_of self.old }
    {
        let RxTaken { result, turn: _ } = self.take_kept(link, call);
        result
    }

    /// Takes a call as `take` does, and gives the turn that was kept: none exactly where memory ran out. The node itself keeps
    /// no turn when the program runs.
    pub fn take_kept(&mut self, link: u32, call: &RxCall) -> RxTaken
        ensures answered { Answered call.now self.old self.new result.result }
        ensures turns { KeepsTurn self.old.turns self.new.turns link call.now result.result }
        ensures turn { self.new.turns ≡ self.old.turns ++ option_to_list result.turn }
        ensures writes { Writes D.told D.seen D.may_leave D.moment D.left_since D.stop D.short (added_by self.old call.now) self.old.kept self.new.kept result.result }
        ensures refused { Refused D.faults call.now self.old self.new result.result }
        ensures holds { IsHolding D.told D.seen D.may_leave self.old.kept × IsHolding D.told D.seen D.may_leave self.new.kept }
        ensures files { WritesOne D.told self.old.kept.store.journal self.new.kept.store.journal }

        // The turn adds to the history, and leaves where it began.
        ensures opened { self.new.opened ≡ self.old.opened }
        ensures base { base_of self.new ≡ base_of self.old }
    {
        match make_room(self.kept.alloc, &mut self.turns, call) {
            Ok(copied) => {
                let turn = self.turns.next_number();
                let told = self.kept.answer(&self.trust, call, turn);
                keep_turn(&mut self.turns, link, copied, told)
            }
            Err(Memory) => RxTaken {
                result: Err(RxFault::Memory),
                turn: None,
            },
        }
    }

    /// Opens a watch of a node that isn't broken: from now on its base is what is kept now, and it has no turn. It takes no
    /// memory.
    pub fn open_watch(&mut self)
        requires { self.old.kept.store.broken_at ≡ None }
        ensures { self.new ≡ begun self.old }
    {
        self.opened = self.kept.entries.len();
        self.turns = Past::new(self.kept.alloc);
    }

    /// The settings by which calls are answered.
    pub fn rules(&self) -> &RxRules
        ensures { result.now ≡ self.now.rules }
    {
        &self.rules
    }

    /// How many turns were kept when the disk failed, the one in which it did included; none exactly where the node isn't
    /// broken. It takes no memory.
    pub fn broken_at(&self) -> Option<u64>
        ensures at { result ≡ self.now.kept.store.broken_at }
        ensures broken { is_some result ≡ self.now.kept.store.journal.broken }

        // What holds of every node.
        ensures holds { IsHolding D.told D.seen D.may_leave self.now.kept }
        ensures history { IsHistory self.now }
    {
        self.kept.store.broken_at()
    }

    /// Both files stand still after so many further calls of each, where they do that at all. Nothing else changes. It takes
    /// no memory.
    pub fn stop_after(&mut self, calls: u64, fill: u8)
        ensures written { StopsAfter (D.stops self.old.kept.store.journal.written) calls fill (D.stop self.new.kept.store.journal.written) }
        ensures other { StopsAfter (D.stops self.old.kept.store.journal.other) calls fill (D.stop self.new.kept.store.journal.other) }
        ensures written_stays { OnlyRead D.told D.seen D.may_leave D.moment D.left_since D.faults self.old.kept.store.journal.written self.new.kept.store.journal.written }
        ensures other_stays { OnlyRead D.told D.seen D.may_leave D.moment D.left_since D.faults self.old.kept.store.journal.other self.new.kept.store.journal.other }
        ensures journal { SameJournal self.old.kept.store self.new.kept.store }
        ensures same { (self.new.kept.state ≡ self.old.kept.state) × (self.new.kept.entries ≡ self.old.kept.entries) × (self.new.rules ≡ self.old.rules) × (self.new.turns ≡ self.old.turns) }
        ensures opened { self.new.opened ≡ self.old.opened }
    {
        self.kept.store.stop_after(calls, fill);
    }

    /// A copy of what is kept. Out of memory is its only error.
    pub fn copy(&self) -> Result<RxState, Memory>
        ensures { IfOk result (λ s. held s ≡ self.now.kept.state) }
    {
        Ok(RxState {
            seen: self.kept.receiver.seen().copy()?,
            table: self.kept.receiver.table().copy()?,
        })
    }

    /// How many turns were kept since the watch was opened, or the node was loaded. It takes no memory.
    pub fn turn_count(&self) -> usize
        ensures { result ≡ length self.now.turns }
    {
        self.turns.len()
    }

    /// How many tokens stand in the journal. It takes no memory.
    pub fn tokens(&self) -> usize
        ensures { result ≡ length self.now.kept.entries }
    {
        self.kept.entries.len()
    }

    /// How many bytes of the store's file in force have a meaning. It takes no memory.
    pub fn bytes(&self) -> u64
        ensures { result ≡ self.now.kept.store.journal.end }
    {
        self.kept.store.end()
    }

    /// Both files, the first and the second. They stand for what is kept as the node's store did, and where the node is broken,
    /// one of them has counted a fault. It takes no memory.
    pub fn into_disks(self) -> (D, D)
        ensures files { result ≡ (pick self.kept.store.journal.in_b self.kept.store.journal.written self.kept.store.journal.other, pick self.kept.store.journal.in_b self.kept.store.journal.other self.kept.store.journal.written) }
        ensures holds { IsHolding D.told D.seen D.may_leave self.kept }
        ensures stored { IsStored D.told D.seen D.may_leave self.kept.store }
        ensures counted { is_some self.kept.store.broken_at ≡ true → (0 < D.faults self.kept.store.journal.written) ⊎ (0 < D.faults self.kept.store.journal.other) }
    {
        let RxNode {
            kept,
            rules: _,
            trust: _,
            turns: _,
            opened: _,
        } = self;
        disks_of(kept)
    }
}

// The node of what was loaded, or out of memory.
fn node_of<D: Disk>(
    alloc: Global,
    kept: Journalled<D>,
    rules: RxRules,
) -> Result<RxNode<D>, LoadRefused<D>>
    requires holds { IsHolding D.told D.seen D.may_leave (holding_of kept) }
    requires fresh { (kept.store.broken_at ≡ None) × (kept.store.journal.kind ≡ Rx) }
    ensures made { IfOk result (λ n. n ≡ record { kept = holding_of kept; rules = rules; turns = []; opened = length kept.entries.items }) }
    ensures refused { IfErr result (λ r. (r.fault ≡ load_fault.Memory) × (r.a ≡ pick kept.store.journal.in_b kept.store.journal.written kept.store.journal.other) × (r.b ≡ pick kept.store.journal.in_b kept.store.journal.other kept.store.journal.written)) }
{
    let opened = kept.entries.len();
    match PreparedTrust::of(alloc, &rules.trust) {
        Ok(trust) => Ok(RxNode {
            kept,
            rules,
            trust,
            turns: Past::new(alloc),
            opened,
        }),
        Err(_) => {
            let (a, b) = disks_of(kept);
            Err(LoadRefused {
                fault: LoadFault::Memory,
                a,
                b,
            })
        }
    }
}

fn disks_of<D: Disk>(kept: Journalled<D>) -> (D, D)
    ensures files { result ≡ (pick kept.store.journal.in_b kept.store.journal.written kept.store.journal.other, pick kept.store.journal.in_b kept.store.journal.other kept.store.journal.written) }
    ensures stored { IsStored D.told D.seen D.may_leave kept.store }
    ensures counted { is_some kept.store.broken_at ≡ true → (0 < D.faults kept.store.journal.written) ⊎ (0 < D.faults kept.store.journal.other) }
{
    let Journalled {
        alloc: _,
        receiver: _,
        entries: _,
        store,
    } = kept;
    // What a store leaves rests on what holds of every store.
    let _ = store.broken_at();
    store.into_disks()
}
