//! What is told of a push.

ghost use Rattle.std.specs.Prelude.{◌≡◌, ◌↔◌, None, true};
ghost use Rattle.sig_push.specs.Pushed.{Counts, Follows, Hears, Sends};
ghost use Rattle.sig_push.specs.Targets.{lacks_gateway};
ghost use Rattle.sig_round.specs.Noted as spec;

use crate::round::settled_one;
use sig_links::Side;
use sig_notes::{PushCause, push_late, reported, tell};
use sig_push::PushFault;
use sig_terms::{Answer, Outcome, Rules, Token};
use sig_txnode::Turn;
use std::alloc::Global;

/// Pushes a token as `sig_push` does, and tells where its receiver reports it as faulty.
pub fn push<S: Side>(
    alloc: Global,
    side: &mut S,
    rules: &Rules,
    token: &Token,
) -> Result<Outcome, PushFault>
    ensures no_endpoint { (result ≡ Err PushFault.NoEndpoint) ↔ (token.now.endpoint ≡ None) }
    ensures no_gateway { (result ≡ Err PushFault.NoGateway) ↔ (lacks_gateway rules.now token.now ≡ true) }
    ensures sends { Sends rules.now token.now (S.view side.old).sent (S.view side.new).sent result }
    ensures hears { Hears (S.view side.old).ahead (S.view side.new).ahead result }
    ensures times { (S.view side.new).times ≡ (S.view side.old).times }
    ensures counts { Counts (S.view side.old).faults (S.view side.new).faults result }
{
    let pushed = sig_push::push(alloc, side, rules, token);
    note_push(alloc, side, token, &pushed);
    pushed
}

// Tells each token that its receiver reports as faulty.
fn note_push<S: Side>(
    alloc: Global,
    side: &mut S,
    token: &Token,
    pushed: &Result<Outcome, PushFault>,
)
    ensures { S.view side.new ≡ S.view side.old }
{
    if let Ok(Outcome::Reported { code }) = pushed {
        let line = reported(alloc, token.stream.as_str(), token.number, code.as_str());
        tell(side, None, line);
    }
}

/// Tells how many of these tokens of a stream, which were handed last, are late, where some are, and why: the push at which it
/// ended had no answer, or the receiver settled nothing (RFC 8935, section 2.4). One line a stream a minute is told.
pub fn note_late<S: Side>(
    alloc: Global,
    side: &mut S,
    tokens: &[Token],
    turns: &[Turn],
    pushed: Result<(), PushFault>,
)
    ensures { S.view side.new ≡ S.view side.old }
{
    let Some(first) = tokens.first() else {
        return;
    };
    let many = tokens.len() as u64;
    let late = many.saturating_sub(settled_last(turns));
    if late > 0 {
        let stream = first.stream.as_str();
        let line = push_late(alloc, stream, late, many, cause_in(pushed));
        tell(side, Some(stream), line);
    }
}

// How many tokens were settled since some were handed last.
fn settled_last(turns: &[Turn]) -> u64 {
    let mut settled: u64 = 0;
    for turn in turns {
        if let Ok(Answer::Handed { .. }) = &turn.result {
            settled = 0;
        } else if settled_one(turn) {
            settled = settled.saturating_add(1);
        }
    }
    settled
}

// Why tokens are late that were pushed so.
fn cause_in(pushed: Result<(), PushFault>) -> PushCause
    ensures { result ≡ spec.cause_in pushed }
{
    match pushed {
        Ok(()) => PushCause::Kept,
        Err(fault) => cause_of(fault),
    }
}

// The cause that a line names.
fn cause_of(fault: PushFault) -> PushCause
    ensures { result ≡ spec.cause_of fault }
{
    match fault {
        PushFault::NoEndpoint => PushCause::NoEndpoint,
        PushFault::NoGateway => PushCause::NoGateway,
        PushFault::Dial => PushCause::Dial,
        PushFault::Link => PushCause::Link,
        PushFault::NoResponse => PushCause::NoResponse,
        PushFault::Memory => PushCause::Memory,
    }
}
