//! The requests, one after another, until the streams are as they are declared.

ghost use Rattle.std.specs.Prelude.{◌≡◌, ◌≢◌, Some, None, IfOk, true};
ghost use Rattle.std.specs.Option.{option_copied};
ghost use Rattle.sig_command.specs.Moment.{output_state};
ghost use Rattle.sig_manager.specs.Exchange.{Managed, begun, next_of, step_of};
ghost use Rattle.sig_managing.specs.Asks.{lacks_gateway, place_of};
ghost use Rattle.sig_managing.specs.Drives.{CountsFaults, Drives};
ghost use Rattle.sig_managing.specs.Steps.{Asks, PutsLine, change_by, line_by};

use crate::asking::{ask, hear, note_status, place_of, shown};
use crate::counting::{change_of, counted_on, none};
use crate::lines::line_of;
use crate::{Change, Counts, DriveFault};
use sig_declared::{Declared, Provider};
use sig_json::{Bytes, Items, Memory};
use sig_links::Side;
use sig_manager::{Manager, Step};
use sig_outside::{Place, Sink, put_all};
use std::alloc::Global;

// What is told of a step once it is answered.
struct Telling {
    change: Option<Change>,
    line: Bytes,
}

impl Drop for Telling {
    fn drop(self) {
        let Telling { change: _, line } = self;
        drop(line);
    }
}

/// Brings a client's streams at a transmitter to those that are declared (OpenID Shared Signals Framework 1.0, sections 8.1.1 and
/// 8.1.2).
///
/// Each request that the manager asks is sent over a link of its own, which leads to the transmitter's place, or to its gateway
/// where it is `https`, with the transmitter's bearer. Once its response is taken, the line of what it changed is put. It ends
/// well exactly where nothing is left to ask.
///
/// `Dial` and `Link` each raise the side's count by one, and any other answer leaves it. `Peer` comes where the last response
/// can't be used, or where there is none; `Output` where the output stopped at the line of a change. After any fault what was
/// changed before it stays.
pub fn drive<S: Side, O: Sink>(
    alloc: Global,
    side: &mut S,
    provider: &Provider,
    declared: Items<Declared>,
    output: &mut O,
) -> Result<Counts, DriveFault>
    requires reached { lacks_gateway provider.now ≢ true }
    ensures drives { (last : Managed) × Drives provider.now (begun declared) last (S.view side.old).ahead (S.view side.new).ahead (S.view side.old).sent (S.view side.new).sent
        (output_state (O.written output.old) (O.faults output.old) (O.stalls output.old)) (output_state (O.written output.new) (O.faults output.new) (O.stalls output.new)) result }
    ensures counts { CountsFaults (S.view side.old).faults (S.view side.new).faults result }
    ensures times { (S.view side.new).times ≡ (S.view side.old).times }
{
    let Some(place) = place_of(provider) else {
        unreachable!()
    };
    let mut manager = Manager::new(declared);
    // The streams are listed first, which changes nothing.
    exchange(alloc, &mut manager, side, provider, place, output)?;
    let mut counts = none();
    while manager.step().is_some() {
        let change = exchange(alloc, &mut manager, side, provider, place, output)?;
        counts = counted_on(counts, change);
    }
    Ok(counts)
}

// Asks what is asked next, takes the response, and puts the line of what it changed. It answers what it changed.
fn exchange<S: Side, O: Sink>(
    alloc: Global,
    manager: &mut Manager,
    side: &mut S,
    provider: &Provider,
    place: &Place,
    output: &mut O,
) -> Result<Option<Change>, DriveFault>
    requires place { place_of provider.now ≡ Some place.now }
    requires asks { next_of manager.old ≢ None }
    ensures asks { Asks provider.now manager.old manager.new (S.view side.old).ahead (S.view side.new).ahead (S.view side.old).sent (S.view side.new).sent
        (output_state (O.written output.old) (O.faults output.old) (O.stalls output.old)) (output_state (O.written output.new) (O.faults output.new) (O.stalls output.new)) result }
    ensures change { IfOk result (λ change. change ≡ change_by (step_of manager.old)) }
    ensures counts { CountsFaults (S.view side.old).faults (S.view side.new).faults result }
    ensures times { (S.view side.new).times ≡ (S.view side.old).times }
{
    let Some(request) = manager.next(alloc)? else {
        unreachable!()
    };
    let request = shown(alloc, provider, request)?;
    let telling = telling_of(alloc, manager.step())?;
    let answer = ask(alloc, side, place, &provider.endpoint.place, &request);
    let heard = hear(alloc, manager, &answer);
    note_status(alloc, side, &answer, &heard);
    heard?;
    put_line(&telling.line, output)?;
    Ok(telling.change)
}

// What is told of a step once it is answered.
fn telling_of(alloc: Global, step: Option<&Step>) -> Result<Telling, Memory>
    ensures change { IfOk result (λ t. t.change ≡ change_by (option_copied step.entry)) }
    ensures line { IfOk result (λ t. t.line ≡ line_by (option_copied step.entry)) }
{
    match step {
        Some(step) => Ok(Telling {
            change: change_of(step),
            line: line_of(alloc, step)?,
        }),
        None => Ok(Telling {
            change: None,
            line: Bytes::new(alloc),
        }),
    }
}

// Puts a line.
fn put_line<O: Sink>(line: &Bytes, output: &mut O) -> Result<(), DriveFault>
    ensures { PutsLine result line.now (output_state (O.written output.old) (O.faults output.old) (O.stalls output.old)) (output_state (O.written output.new) (O.faults output.new) (O.stalls output.new)) }
{
    match put_all(output, line.as_slice()) {
        Ok(()) => Ok(()),
        Err(_) => Err(DriveFault::Output),
    }
}
