//! How a turn is kept.

ghost use Rattle.std.specs.Prelude.{◌≡◌, ◌<◌, ◌++◌, length, IfOk, OnOk};
ghost use Rattle.std.specs.Option.{option_to_list};
ghost use Rattle.sig_json.specs.Answers.{result_map};
ghost use Rattle.sig_rxnode.specs.Take.{KeepsTurn};

use crate::journalled::Told;
use crate::{RxAnswer, RxCall, RxFault, RxTaken, RxTurn};
use sig_json::Memory;
use sig_past::Past;
use std::alloc::Global;

/// Makes room for a turn, and copies its call.
pub fn make_room(alloc: Global, turns: &mut Past<RxTurn>, call: &RxCall) -> Result<RxCall, Memory>
    ensures copied { IfOk result (λ asked. asked ≡ call.now) }
    ensures turns { turns.new.items ≡ turns.old.items }
    ensures room { OnOk result (length turns.new.items < turns.new.room) }
{
    turns.reserve()?;
    call.copy(alloc)
}

/// Keeps a turn last, for which there is room, unless memory ran out; and gives its answer and the turn.
pub fn keep_turn(
    turns: &mut Past<RxTurn>,
    link: u32,
    call: RxCall,
    told: Result<Told, RxFault>,
) -> RxTaken
    requires room { length turns.old.items < turns.old.room }
    requires twice { IfOk told (λ t. t.copy ≡ t.answer) }
    ensures same { result.result ≡ result_map (λ t. t.answer) told }
    ensures turns { KeepsTurn turns.old.items turns.new.items link call result.result }
    ensures turn { turns.new.items ≡ turns.old.items ++ option_to_list result.turn }
{
    match told {
        Ok(Told { answer, copy }) => RxTaken {
            result: Ok(answer),
            turn: put_turn(turns, link, call, Ok(copy)),
        },
        Err(fault) => RxTaken {
            result: Err(fault),
            turn: put_turn(turns, link, call, Err(fault)),
        },
    }
}

// Keeps a turn last and gives it, unless it was refused memory.
fn put_turn(
    turns: &mut Past<RxTurn>,
    link: u32,
    call: RxCall,
    told: Result<RxAnswer, RxFault>,
) -> Option<RxTurn>
    requires { length turns.old.items < turns.old.room }
    ensures turns { KeepsTurn turns.old.items turns.new.items link call told }
    ensures turn { turns.new.items ≡ turns.old.items ++ option_to_list result }
{
    match told {
        Err(RxFault::Memory) => {
            drop(call);
            None
        }
        told => {
            let turn = RxTurn {
                link,
                call,
                result: told,
            };
            turns.put(&turn);
            Some(turn)
        }
    }
}
