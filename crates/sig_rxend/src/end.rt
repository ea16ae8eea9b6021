ghost use Rattle.std.specs.Prelude.{Option};
ghost use Rattle.sig_rxnode.specs.Told.{RxTold};
ghost use Rattle.sig_rxend.specs.Grown.{grew_none, grew_on};
ghost use Rattle.sig_rxend.specs.Receiver.{receiver};

use crate::Counting;
use crate::turning::turn_of;
use sig_http::{HttpRefusal, Request, Response};
use sig_json::Memory;
use sig_link::{End, faulted};
use sig_links::Side;
use sig_rxnode::{RxAnswer, RxCall, RxRules, RxTurn};
use sig_rxroutes::{call_of, figured_with, response_of};
use std::alloc::Global;
use std::marker::PhantomData;
use std::sync::Wait;

/// A receiver that asks such a taker, as the links that it serves see it.
pub struct RxEnd<K>(PhantomData<K>);

impl<K: Counting> End for RxEnd<K> {
    type Taker = K;

    type Rules = RxRules;

    type Call = RxCall;

    type Turn = RxTurn;

    ghost Told = { Option RxTold };

    ghost told = { K.RxTaker.told };

    ghost proper = { λ call. Unit {0} };

    ghost meaning = { receiver };

    fn call_of(alloc: Global, request: &Request, rules: &RxRules) -> Result<RxCall, HttpRefusal> {
        call_of(alloc, request, rules)
    }

    fn turn<R: Wait, S: Side>(
        rt: &R,
        taker: &mut K,
        _side: &mut S,
        link: u32,
        call: RxCall,
    ) -> Result<RxTurn, Memory> {
        turn_of(rt, taker, link, call)
    }

    fn response<R: Wait>(
        alloc: Global,
        rt: &R,
        taker: &mut K,
        _rules: &RxRules,
        turn: &RxTurn,
    ) -> Result<Response, Memory> {
        match &turn.result {
            Ok(RxAnswer::Figures { tokens, rows }) => {
                let counted = taker.counted(rt, alloc)?;
                figured_with(alloc, *tokens, *rows, counted.as_str())
            }
            Ok(answer) => response_of(alloc, answer),
            Err(fault) => faulted(alloc, *fault),
        }
    }

    fn count<R: Wait>(rt: &R, taker: &mut K, request: &Request, status: u16) {
        taker.count(rt, request, status);
    }

    fn follow<R: Wait, S: Side>(
        _alloc: Global,
        _rt: &R,
        _taker: &mut K,
        _rules: &RxRules,
        _side: &mut S,
        turn: RxTurn,
        turns: &mut Vec<RxTurn>,
    ) -> Result<(), Memory> {
        turns.push_reserved(turn);
        Ok(())
    }

    ghost grows = { record { none = grew_none; on = grew_on } };
}
