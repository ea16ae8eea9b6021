//! How a turn is taken and kept.

ghost use Rattle.std.specs.Prelude.{◌≡◌, ◌+◌, ◌<◌, ◌++◌, length, IfOk, OnOk};
ghost use Rattle.std.specs.Option.{option_to_list};
ghost use Rattle.sig_calls.specs.Proper.{IsProperCall, IsProperRules};
ghost use Rattle.sig_calls.specs.Table.{change_of};
ghost use Rattle.sig_journal.specs.Standing.{StandsFor};
ghost use Rattle.sig_txnode.specs.Answering.{Answered, answer_at, when_ok};
ghost use Rattle.sig_txnode.specs.Records.{sending};
ghost use Rattle.sig_txnode.specs.Taken.{Lasts, Refused};
ghost use Rattle.sig_txnode.specs.Turns.{with_turn};

use crate::carrying::{Given, answer_call};
use crate::{Taken, Turn};
use sig_journal::{NodeFault, Store};
use sig_json::Memory;
use sig_outbox::Outbox;
use sig_outside::Disk;
use sig_past::Past;
use sig_terms::{Answer, Call, Fact, Rules};
use std::alloc::Global;

/// What a node holds that its calls change: its store, its state, and what is kept of its turns.
pub struct Held<D: Disk> {
    pub store: Store<D>,
    pub outbox: Outbox,
    /// The changes of the turns, in order. Nothing asks for them when the program runs.
    pub entries: Past<Fact>,
    /// The turns, in order. When the program runs, only their number is asked for.
    pub turns: Past<Turn>,
}

// Makes room for a turn and its change, and copies the call.
fn make_room(
    alloc: Global,
    turns: &mut Past<Turn>,
    entries: &mut Past<Fact>,
    call: &Call,
) -> Result<Call, Memory>
    ensures copied { IfOk result (λ asked. asked ≡ call.now) }
    ensures turns { turns.new.items ≡ turns.old.items }
    ensures entries { entries.new.items ≡ entries.old.items }
    ensures room { OnOk result ((length turns.new.items < turns.new.room) × (length entries.new.items < entries.new.room)) }
{
    turns.reserve()?;
    entries.reserve()?;
    call.copy(alloc)
}

// Keeps a change last, where there is one.
fn keep_entry(entries: &mut Past<Fact>, entry: Option<Fact>)
    requires { length entries.old.items < entries.old.room }
    ensures { entries.new.items ≡ entries.old.items ++ option_to_list entry }
{
    if let Some(fact) = entry {
        entries.put(&fact);
    }
}

// Keeps a turn last and gives it, unless it was refused memory.
fn put_turn(
    turns: &mut Past<Turn>,
    link: u32,
    call: Call,
    time: u64,
    told: Result<Answer, NodeFault>,
) -> Option<Turn>
    requires { length turns.old.items < turns.old.room }
    ensures turns { turns.new.items ≡ with_turn turns.old.items link call time told }
    ensures turn { turns.new.items ≡ turns.old.items ++ option_to_list result }
{
    match told {
        Err(NodeFault::Memory) => {
            drop(call);
            None
        }
        told => {
            let turn = Turn {
                link,
                call,
                now: time,
                result: told,
            };
            turns.put(&turn);
            Some(turn)
        }
    }
}

// Answers a call, for whose turn there is room, keeps the turn and its change, and gives the turn.
fn keep_turn<D: Disk>(
    alloc: Global,
    held: &mut Held<D>,
    rules: &Rules,
    link: u32,
    call: Call,
    time: u64,
) -> Taken
    requires rules { IsProperRules rules.now }
    requires call { IsProperCall call }
    requires stands { StandsFor sending D.told D.seen D.may_leave held.old.store held.old.outbox.sum }
    requires room { (length held.old.turns.items < held.old.turns.room) × (length held.old.entries.items < held.old.entries.room) }
    ensures answered { Answered (answer_at rules.now held.old.outbox.sum held.old.store.journal.end call time) (change_of rules.now held.old.outbox.sum call time) held.old.store.broken_at held.old.outbox.sum held.new.outbox.sum result.result }
    ensures turns { held.new.turns.items ≡ with_turn held.old.turns.items link call time result.result }
    ensures turn { held.new.turns.items ≡ held.old.turns.items ++ option_to_list result.turn }
    ensures entries { held.new.entries.items ≡ held.old.entries.items ++ option_to_list (when_ok result.result (change_of rules.now held.old.outbox.sum call time)) }
    ensures stands { StandsFor sending D.told D.seen D.may_leave held.new.store held.new.outbox.sum }
    ensures lasts { Lasts D.told D.seen D.may_leave D.moment D.left_since D.stop D.short held.old.store held.new.store held.old.outbox.sum (change_of rules.now held.old.outbox.sum call time) result.result }
    ensures refused { Refused D.faults held.old.store held.new.store (length held.old.turns.items + 1) result.result }
{
    let number = held.turns.next_number();
    match answer_call(
        alloc,
        &mut held.store,
        &mut held.outbox,
        rules,
        &call,
        time,
        number,
    ) {
        Ok(given) => {
            let Given {
                answer,
                kept,
                entry,
            } = given;
            keep_entry(&mut held.entries, entry);
            Taken {
                result: Ok(answer),
                turn: put_turn(&mut held.turns, link, call, time, Ok(kept)),
            }
        }
        Err(fault) => Taken {
            result: Err(fault),
            turn: put_turn(&mut held.turns, link, call, time, Err(fault)),
        },
    }
}

/// Answers a call by the table of calls, makes its change, keeps the turn and the change, and gives the answer and the turn.
pub fn take_turn<D: Disk>(
    alloc: Global,
    held: &mut Held<D>,
    rules: &Rules,
    link: u32,
    call: &Call,
    time: u64,
) -> Taken
    requires rules { IsProperRules rules.now }
    requires call { IsProperCall call.now }
    requires stands { StandsFor sending D.told D.seen D.may_leave held.old.store held.old.outbox.sum }
    ensures answered { Answered (answer_at rules.now held.old.outbox.sum held.old.store.journal.end call.now time) (change_of rules.now held.old.outbox.sum call.now time) held.old.store.broken_at held.old.outbox.sum held.new.outbox.sum result.result }
    ensures turns { held.new.turns.items ≡ with_turn held.old.turns.items link call.now time result.result }
    ensures turn { held.new.turns.items ≡ held.old.turns.items ++ option_to_list result.turn }
    ensures entries { held.new.entries.items ≡ held.old.entries.items ++ option_to_list (when_ok result.result (change_of rules.now held.old.outbox.sum call.now time)) }
    ensures stands { StandsFor sending D.told D.seen D.may_leave held.new.store held.new.outbox.sum }
    ensures lasts { Lasts D.told D.seen D.may_leave D.moment D.left_since D.stop D.short held.old.store held.new.store held.old.outbox.sum (change_of rules.now held.old.outbox.sum call.now time) result.result }
    ensures refused { Refused D.faults held.old.store held.new.store (length held.old.turns.items + 1) result.result }
{
    // What a refusal leaves rests on what holds of every store.
    let _ = held.store.broken_at();
    match make_room(alloc, &mut held.turns, &mut held.entries, call) {
        Ok(asked) => keep_turn(alloc, held, rules, link, asked, time),
        Err(Memory) => Taken {
            result: Err(NodeFault::Memory),
            turn: None,
        },
    }
}
