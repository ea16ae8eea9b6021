//! Which streams may owe tokens still after rounds of pushes.

ghost use Rattle.std.specs.Prelude.{◌≡◌, ◌++◌, IfOk, OnOk};
ghost use Rattle.sig_tick.specs.Owing as spec;

use crate::bringing::are_settled;
use sig_json::limits::TOKENS_PER_PAGE;
use sig_json::{Memory, Text};
use sig_terms::{Answer, Call};
use sig_txnode::Turn;
use std::alloc::Global;

/// The streams that may owe tokens still after these turns of rounds: each stream of a `Hand` turn, unless that handed fewer
/// tokens than a page and each of them was settled in the turns that follow it.
pub fn owing_after(alloc: Global, turns: &[Turn]) -> Result<Vec<Text>, Memory>
    ensures { IfOk result (λ names. names.items ≡ spec.owing_after turns.now) }
{
    let mut names = Vec::new(alloc);
    let mut left = turns;
    while let Some((turn, later)) = left.split_first() {
        add_owing(alloc, turn, later, &mut names)?;
        left = later;
    }
    Ok(names)
}

// Adds the streams of a turn that may owe tokens still after it and those that came later.
fn add_owing(
    alloc: Global,
    turn: &Turn,
    later: &[Turn],
    names: &mut Vec<Text>,
) -> Result<(), Memory>
    ensures { OnOk result (names.new.items ≡ names.old.items ++ spec.owing_in turn.entry.now.call turn.entry.now.result later.now) }
{
    match &turn.call {
        Call::Hand { streams } => {
            if is_done(turn, later) {
                return Ok(());
            }
            add_names(alloc, streams.as_slice(), names)
        }
        _ => Ok(()),
    }
}

// Adds these names.
fn add_names(alloc: Global, streams: &[Text], names: &mut Vec<Text>) -> Result<(), Memory>
    ensures { OnOk result (names.new.items ≡ names.old.items ++ streams.now) }
{
    for stream in streams {
        names.push(stream.copy(alloc)?)?;
    }
    Ok(())
}

// Whether a Hand turn handed fewer tokens than a page, and the turns that came after it settled each of them.
fn is_done(turn: &Turn, later: &[Turn]) -> bool
    ensures { result ≡ spec.is_done turn.entry.now.result later.now }
{
    match &turn.result {
        Ok(Answer::Handed { tokens }) => {
            let count = tokens.as_slice().len();
            count < TOKENS_PER_PAGE && are_settled(count, &later[..count.min(later.len())])
        }
        _ => false,
    }
}
