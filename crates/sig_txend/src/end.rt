ghost use Rattle.std.specs.Prelude.{Option};
ghost use Rattle.sig_calls.specs.Proper.{IsProperCall};
ghost use Rattle.sig_round.proofs.Grown.{grew_none, grew_on};
ghost use Rattle.sig_txnode.specs.Told.{TakerTold};
ghost use Rattle.sig_txend.specs.Transmitter.{transmitter};

use crate::Dispatching;
use crate::following::{streams_after, tell_news};
use sig_http::{HttpRefusal, Request, Response};
use sig_json::Memory;
use sig_link::{End, faulted};
use sig_links::Side;
use sig_round::{TurnLog, push_rounds, turn_of};
use sig_terms::{Answer, Call, Rules};
use sig_txnode::Turn;
use sig_txroutes::{call_of, figured_with, listed_with, response_of};
use std::alloc::Global;
use std::marker::PhantomData;
use std::mem::replace;
use std::sync::Wait;

/// A transmitter that asks such a taker, as the links that it serves see it.
pub struct TxEnd<K>(PhantomData<K>);

impl<K: Dispatching> End for TxEnd<K> {
    type Taker = K;

    type Rules = Rules;

    type Call = Call;

    type Turn = Turn;

    ghost Told = { Option TakerTold };

    ghost told = { K.Taker.told };

    ghost proper = { IsProperCall };

    ghost meaning = { transmitter K.Passing.passes };

    fn call_of(alloc: Global, request: &Request, rules: &Rules) -> Result<Call, HttpRefusal> {
        call_of(alloc, request, rules)
    }

    fn turn<R: Wait, S: Side>(
        rt: &R,
        taker: &mut K,
        side: &mut S,
        link: u32,
        call: Call,
    ) -> Result<Turn, Memory> {
        let now = side.now();
        turn_of(rt, taker, link, now, call)
    }

    fn response<R: Wait>(
        alloc: Global,
        rt: &R,
        taker: &mut K,
        rules: &Rules,
        turn: &Turn,
    ) -> Result<Response, Memory> {
        match &turn.result {
            Ok(
                Answer::Figures {
                    publications,
                    standings,
                },
            ) => {
                let counted = taker.counted(rt, alloc)?;
                let standings = standings.as_slice();
                figured_with(alloc, *publications, standings, counted.as_str())
            }
            Ok(Answer::Standings { next, standings }) => {
                let streams = taker.told_streams(rt, alloc, standings.as_slice())?;
                listed_with(alloc, *next, streams.as_slice())
            }
            Ok(answer) => response_of(alloc, answer, rules),
            Err(fault) => faulted(alloc, *fault),
        }
    }

    fn count<R: Wait>(rt: &R, taker: &mut K, request: &Request, status: u16) {
        taker.count(rt, request, status);
    }

    fn follow<R: Wait, S: Side>(
        alloc: Global,
        rt: &R,
        taker: &mut K,
        rules: &Rules,
        side: &mut S,
        turn: Turn,
        turns: &mut Vec<Turn>,
    ) -> Result<(), Memory> {
        let (link, now) = (turn.link, turn.now);
        tell_news(rt, taker, rules, &turn);
        let streams = streams_after(alloc, rules, &turn);
        turns.push_reserved(turn);
        match streams {
            Ok(Some(named)) => {
                let turns_so_far = replace(turns, Vec::new(alloc));
                let mut log = TurnLog {
                    link,
                    now,
                    turns: turns_so_far,
                };
                let end = push_rounds(alloc, rt, taker, rules, named.as_slice(), side, &mut log);
                *turns = log.turns;
                end
            }
            Ok(None) => Ok(()),
            Err(Memory) => Err(Memory),
        }
    }

    ghost grows = { record { none = grew_none; on = grew_on } };
}
