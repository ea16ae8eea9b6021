//! A tick, over what answers its turns.

ghost use Rattle.sig_tick.specs.Ticking.{Ticks};

use crate::listing::{list, pushes_listed};
use crate::trying::try_all;
use sig_courier::{Attempt, Schedule};
use sig_journal::NodeFault;
use sig_json::Items;
use sig_links::Side;
use sig_round::TurnLog;
use sig_terms::Rules;
use sig_txnode::Taker;
use std::alloc::Global;
use std::sync::Wait;

/// A tick over a taker: the time is read once, the streams of the clients are listed, and the push streams among them that are
/// due are tried. Answers the attempts; they are noted, also those before a fault.
pub fn tick_over<R: Wait, K: Taker, S: Side>(
    alloc: Global,
    rt: &R,
    taker: &mut K,
    schedule: &mut Schedule,
    rules: &Rules,
    side: &mut S,
) -> Result<Items<Attempt>, NodeFault>
    ensures { Ticks rules.now (S.view side.old) (S.view side.new) (K.told taker.old) (K.told taker.new) schedule.old schedule.new result }
{
    let mut log = TurnLog {
        link: 0,
        now: side.now(),
        turns: Vec::new(alloc),
    };
    list(alloc, rt, taker, rules, &mut log)?;
    let streams = pushes_listed(alloc, log.turns.as_slice())?;
    let attempts = try_all(
        alloc,
        rt,
        taker,
        rules,
        streams.as_slice(),
        schedule,
        side,
        &mut log,
    )?;
    Ok(Items::of(attempts))
}
