//! The streams that a tick goes by.

ghost use Rattle.std.specs.Prelude.{◌≡◌, ◌++◌, [], ◌∷◌, List, IfOk, OnOk};
ghost use Rattle.sig_tick.specs.Listing as spec;
ghost use Rattle.sig_tick.specs.Listing.{AreNamesInOrder, Asked};
ghost use Rattle.sig_tick.specs.Ticking.{Listed};
ghost use Rattle.sig_txnode.specs.declared.turn.Turn.{Turn};

use sig_journal::NodeFault;
use sig_json::{Memory, Text};
use sig_round::TurnLog;
use sig_terms::{Answer, Call, Client, Rules, StreamConf};
use sig_txnode::{Taker, Turn};
use std::alloc::Global;
use std::sync::Wait;

/// How the last of these turns ended: well where it was answered, and else with its fault.
pub fn last_ended(turns: &[Turn]) -> Result<(), NodeFault>
    ensures { (earlier : List Turn) (turn : Turn) → turns.now ≡ earlier ++ turn ∷ [] → result ≡ spec.ended turn.result }
{
    match turns.last() {
        Some(turn) => turn_ended(turn),
        None => Ok(()),
    }
}

fn turn_ended(turn: &Turn) -> Result<(), NodeFault>
    ensures { result ≡ spec.ended turn.entry.now.result }
{
    match &turn.result {
        Ok(_) => Ok(()),
        Err(fault) => Err(*fault),
    }
}

/// Asks for the streams of the clients of these rules, in order of name, each in a turn.
pub fn list<R: Wait, K: Taker>(
    alloc: Global,
    rt: &R,
    taker: &mut K,
    rules: &Rules,
    log: &mut TurnLog,
) -> Result<(), NodeFault>
    ensures listed { Listed rules.now (record { link = log.old.link; now = log.old.now }) log.old.turns.items log.new.turns.items (K.told taker.old) (K.told taker.new) result }
    ensures link { log.new.link ≡ log.old.link }
    ensures now { log.new.now ≡ log.old.now }
{
    match names_in_order(alloc, rules.clients.as_slice()) {
        Ok(names) => ask_all(alloc, rt, taker, names.as_slice(), log),
        Err(Memory) => Err(NodeFault::Memory),
    }
}

// The names of these clients, in order.
fn names_in_order(alloc: Global, clients: &[Client]) -> Result<Vec<Text>, Memory>
    ensures { IfOk result (λ names. AreNamesInOrder clients.now names.items) }
{
    let mut names = names_of(alloc, clients)?;
    names.sort_unstable();
    Ok(names)
}

// The names of these clients.
fn names_of(alloc: Global, clients: &[Client]) -> Result<Vec<Text>, Memory>
    ensures { IfOk result (λ names. names.items ≡ spec.names_of clients.now) }
{
    let mut names = Vec::new(alloc);
    for client in clients {
        names.push(client.name.copy(alloc)?)?;
    }
    Ok(names)
}

// Asks for the streams of each of these clients, in a turn of its own.
fn ask_all<R: Wait, K: Taker>(
    alloc: Global,
    rt: &R,
    taker: &mut K,
    names: &[Text],
    log: &mut TurnLog,
) -> Result<(), NodeFault>
    ensures asked { Asked (record { link = log.old.link; now = log.old.now }) names.now log.old.turns.items log.new.turns.items (K.told taker.old) (K.told taker.new) result }
    ensures link { log.new.link ≡ log.old.link }
    ensures now { log.new.now ≡ log.old.now }
{
    for name in names {
        ask_one(alloc, rt, taker, name, log)?;
    }
    Ok(())
}

// Asks for the streams of a client, in a turn.
fn ask_one<R: Wait, K: Taker>(
    alloc: Global,
    rt: &R,
    taker: &mut K,
    name: &Text,
    log: &mut TurnLog,
) -> Result<(), NodeFault>
    ensures asked { Asked (record { link = log.old.link; now = log.old.now }) (name.now ∷ []) log.old.turns.items log.new.turns.items (K.told taker.old) (K.told taker.new) result }
    ensures link { log.new.link ≡ log.old.link }
    ensures now { log.new.now ≡ log.old.now }
{
    match name.copy(alloc) {
        Ok(client) => match log.ask(rt, taker, Call::ReadAll { client }) {
            Ok(()) => last_ended(log.turns.as_slice()),
            Err(Memory) => Err(NodeFault::Memory),
        },
        Err(Memory) => Err(NodeFault::Memory),
    }
}

/// The names of the push streams that these turns list, in order.
pub fn pushes_listed(alloc: Global, turns: &[Turn]) -> Result<Vec<Text>, Memory>
    ensures { IfOk result (λ names. names.items ≡ spec.pushes_listed turns.now) }
{
    let mut names = Vec::new(alloc);
    for turn in turns {
        add_pushes(alloc, turn, &mut names)?;
    }
    Ok(names)
}

// Adds the names of the push streams that a turn lists.
fn add_pushes(alloc: Global, turn: &Turn, names: &mut Vec<Text>) -> Result<(), Memory>
    ensures { OnOk result (names.new.items ≡ names.old.items ++ spec.pushes_in turn.entry.now.result) }
{
    match &turn.result {
        Ok(Answer::Confs { confs }) => add_all(alloc, confs.as_slice(), names),
        _ => Ok(()),
    }
}

// Adds the names of the push streams among these.
fn add_all(alloc: Global, confs: &[StreamConf], names: &mut Vec<Text>) -> Result<(), Memory>
    ensures { OnOk result (names.new.items ≡ names.old.items ++ spec.pushes_of confs.now) }
{
    for conf in confs {
        if conf.delivery.is_push() {
            names.push(conf.stream.copy(alloc)?)?;
        }
    }
    Ok(())
}
