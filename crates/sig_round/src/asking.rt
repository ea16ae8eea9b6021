//! One turn, from its call to its answer.

ghost use Rattle.std.specs.Prelude.{◌≡◌, [], ◌∷◌, Err, IfOk, OnErr, OnOk};
ghost use Rattle.sig_calls.specs.Proper.{IsProperCall};
ghost use Rattle.sig_round.specs.Turns.{Grew, IsTurnOf};

use sig_journal::NodeFault;
use sig_json::Memory;
use sig_json::limits::LAST_NUMBER;
use sig_terms::Call;
use sig_txnode::{Taker, Turn};
use std::sync::Wait;

/// The turn of a call that a link asks at a time, which no log keeps yet. It may wait for others that ask the taker. At
/// `Memory` the taker has no turn more.
pub fn turn_of<R: Wait, K: Taker>(
    rt: &R,
    taker: &mut K,
    link: u32,
    now: u64,
    call: Call,
) -> Result<Turn, Memory>
    requires { IsProperCall call }
    ensures turn { IfOk result (λ turn. IsTurnOf (record { link = link; now = now }) call turn) }
    ensures told { IfOk result (λ turn. Grew (K.told taker.old) (K.told taker.new) (turn ∷ [])) }
    ensures memory { OnErr result (K.told taker.new ≡ K.told taker.old) }
{
    let answer = taker.turn(rt, link, &call, now);
    let now = now.min(LAST_NUMBER);
    match answer {
        Ok(given) => Ok(Turn {
            link,
            call,
            now,
            result: Ok(given),
        }),
        Err(fault) => refused(link, call, now, fault),
    }
}

// The turn of a call that was refused, unless it was for memory.
fn refused(link: u32, call: Call, now: u64, fault: NodeFault) -> Result<Turn, Memory>
    ensures turn { IfOk result (λ turn. turn ≡ record { link = link; call = call; now = now; result = Err fault }) }
    ensures kept { OnOk result (fault ≡ NodeFault.Memory → ⊥) }
    ensures memory { OnErr result (fault ≡ NodeFault.Memory) }
{
    match fault {
        NodeFault::Memory => {
            drop(call);
            Err(Memory)
        }
        NodeFault::Store | NodeFault::Full(_) => Ok(Turn {
            link,
            call,
            now,
            result: Err(fault),
        }),
    }
}
