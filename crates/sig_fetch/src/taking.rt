//! The tokens of a page, taken by a node.

ghost use Rattle.std.specs.Prelude.{◌≡◌, ◌<◌, [], ◌∷◌, ◌++◌, IfOk, Some, vec_capacity, vec_len};
ghost use Rattle.std.specs.Option.{option_to_list};
ghost use Rattle.sig_fetch.specs.Fetching.{Taken};
ghost use Rattle.sig_fetch.specs.Rounds.{end_of};
ghost use Rattle.sig_fetch.specs.Turns.{Halts};

use crate::FetchFault;
use sig_delivery::Listed;
use sig_json::Memory;
use sig_outside::Disk;
use sig_rxnode::{Peer, RxAnswer, RxCall, RxFault, RxNode, RxTurn};
use std::alloc::Global;

/// Takes the tokens of a page in order, each under its name and for the peer's issuer, and puts their turns last.
pub fn take_all<D: Disk>(
    alloc: Global,
    node: &mut RxNode<D>,
    peer: &Peer,
    tokens: &[Listed],
    turns: &mut Vec<RxTurn>,
) -> Result<(), FetchFault>
    ensures taken { Taken peer.now tokens.now turns.old.items turns.new.items node.old node.new result }
    ensures halts { Halts D.told D.faults node.old node.new result }
{
    for token in tokens {
        take_one(alloc, node, peer, token, turns)?;
    }
    Ok(())
}

// Takes one token, and puts its turn last. There is room for the turn before it is taken.
fn take_one<D: Disk>(
    alloc: Global,
    node: &mut RxNode<D>,
    peer: &Peer,
    token: &Listed,
    turns: &mut Vec<RxTurn>,
) -> Result<(), FetchFault>
    ensures taken { Taken peer.now (token.now ∷ []) turns.old.items turns.new.items node.old node.new result }
    ensures halts { Halts D.told D.faults node.old node.new result }
{
    let call = token_call(alloc, peer, token)?;
    turns.reserve(1)?;
    let taken = node.take_kept(0, &call);
    put_turn(turns, taken.turn);
    ended_by(taken.result)
}

// Puts a turn last, where there is one.
fn put_turn(turns: &mut Vec<RxTurn>, turn: Option<RxTurn>)
    requires { vec_len turns.old < vec_capacity turns.old }
    ensures { turns.new.items ≡ turns.old.items ++ option_to_list turn }
{
    if let Some(turn) = turn {
        turns.push_reserved(turn);
    }
}

// The call that takes a token: under its name, for the issuer that the peer speaks for.
fn token_call(alloc: Global, peer: &Peer, token: &Listed) -> Result<RxCall, Memory>
    ensures { IfOk result (λ call. call ≡ RxCall.Token (Some peer.now.iss) (Some token.now.jti) token.now.text) }
{
    Ok(RxCall::Token {
        principal: Some(peer.iss.copy(alloc)?),
        named: Some(token.jti.copy(alloc)?),
        bytes: token.text.copy(alloc)?,
    })
}

// Whether a turn had an answer.
fn ended_by(answered: Result<RxAnswer, RxFault>) -> Result<(), FetchFault>
    ensures { result ≡ end_of answered }
{
    match answered {
        Ok(_) => Ok(()),
        Err(RxFault::Store) => Err(FetchFault::Store),
        Err(RxFault::Full(n)) => Err(FetchFault::Full(n)),
        Err(RxFault::Memory) => Err(FetchFault::Memory),
    }
}
