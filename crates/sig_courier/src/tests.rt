//! Waits, by the numbers that the rule names.

use crate::{Attempt, Schedule};
use sig_json::{Memory, Text};
use std::alloc::Global;
use std::test::Fail;

fn note(
    alloc: Global,
    schedule: &mut Schedule,
    stream: &Text,
    at: u64,
    good: bool,
) -> Result<(), Memory> {
    let attempt = Attempt {
        stream: stream.copy(alloc)?,
        at: at.min(1_000_000),
        tokens: 1,
        good,
    };
    schedule.note(&attempt)
}

// The times at which late attempts in a row are due, the first at 100.
const DUE: [u64; 9] = [130, 190, 310, 550, 1_030, 1_990, 3_910, 7_510, 11_110];

// Whether late attempts wait so, another stream doesn't, and a good attempt ends the wait.
fn waits(alloc: Global) -> Result<bool, Memory> {
    let mut schedule = Schedule::new(alloc);
    let late = Text::of(alloc, "acme-1")?;
    let other = Text::of(alloc, "acme-2")?;
    let mut so = schedule.due_at(&late) == 0;
    let mut at = 100;
    for due in DUE {
        note(alloc, &mut schedule, &late, at, false)?;
        at = schedule.due_at(&late);
        so = so && at == due && schedule.due_at(&other) == 0;
    }
    note(alloc, &mut schedule, &late, at, true)?;
    Ok(so && schedule.due_at(&late) == 0)
}

#[test]
fn each_late_attempt_doubles_the_wait_up_to_an_hour(rt: HostRuntime) -> Result<(), Fail> {
    assert!(rt; waits(rt.alloc())?);
    Ok(())
}
