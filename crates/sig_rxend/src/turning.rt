//! One turn, from its call to its answer.

ghost use Rattle.std.specs.Prelude.{◌≡◌, ◌∷◌, [], Err, IfOk, OnErr, OnOk};
ghost use Rattle.sig_rxend.specs.Turning.{Grew, IsTurnOf};

use sig_json::Memory;
use sig_rxnode::{RxCall, RxFault, RxTaker, RxTurn};
use std::sync::Wait;

// The turn of a call, unless it was refused memory.
pub fn turn_of<R: Wait, K: RxTaker>(
    rt: &R,
    taker: &mut K,
    link: u32,
    call: RxCall,
) -> Result<RxTurn, Memory>
    ensures turn { IfOk result (IsTurnOf link call) }
    ensures told { IfOk result (λ turn. Grew (K.told taker.old) (K.told taker.new) (turn ∷ [])) }
    ensures memory { OnErr result (K.told taker.new ≡ K.told taker.old) }
{
    match taker.turn(rt, link, &call) {
        Ok(given) => Ok(RxTurn {
            link,
            call,
            result: Ok(given),
        }),
        Err(fault) => refused(link, call, fault),
    }
}

// The turn of a call that was refused, unless it was for memory.
fn refused(link: u32, call: RxCall, fault: RxFault) -> Result<RxTurn, Memory>
    ensures turn { IfOk result (λ turn. turn ≡ record { link = link; call = call; result = Err fault }) }
    ensures kept { OnOk result (fault ≡ RxFault.Memory → ⊥) }
    ensures memory { OnErr result (fault ≡ RxFault.Memory) }
{
    match fault {
        RxFault::Memory => {
            drop(call);
            Err(Memory)
        }
        RxFault::Store | RxFault::Full(_) => Ok(RxTurn {
            link,
            call,
            result: Err(fault),
        }),
    }
}
