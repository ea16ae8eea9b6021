//! What is counted of turns.

ghost use Rattle.std.specs.Prelude.{◌≡◌, ◌≤◌, ◌+◌, ◌++◌, List, is_some, length};
ghost use Rattle.sig_rxnode.specs.declared.turn.RxTurn.{RxTurn};
ghost use Rattle.sig_fetch.specs.Asks as asks;
ghost use Rattle.sig_fetch.specs.Fetching as spec;
ghost use Rattle.sig_fetch.specs.Fetching.{AreCounted};

use crate::Fetched;
use sig_rxnode::{RxAnswer, RxFault, RxTurn};

/// What was counted before, with these further turns, in so many rounds. No more turns were taken in all than `taken`.
pub fn counted_on(before: Fetched, turns: &[RxTurn], rounds: u64, taken: usize) -> Fetched
    requires accepted { before.accepted + length turns.now ≤ taken }
    requires seen { before.seen + length turns.now ≤ taken }
    requires refused { before.refused + length turns.now ≤ taken }
    ensures rounds { result.rounds ≡ rounds }
    ensures turns { (earlier : List RxTurn) → AreCounted earlier before → AreCounted (earlier ++ turns.now) result }
{
    let more = counted(rounds, turns);
    Fetched {
        rounds,
        accepted: before.accepted + more.accepted,
        seen: before.seen + more.seen,
        refused: before.refused + more.refused,
    }
}

// How many of these turns had each answer, beside the number of rounds.
fn counted(rounds: u64, turns: &[RxTurn]) -> Fetched
    ensures rounds { result.rounds ≡ rounds }
    ensures turns { AreCounted turns.now result }
{
    Fetched {
        rounds,
        accepted: turns
            .iter()
            .filter(|turn| was_accepted(&turn.result))
            .count() as u64,
        seen: turns.iter().filter(|turn| was_seen(&turn.result)).count() as u64,
        refused: turns
            .iter()
            .filter(|turn| was_refused(&turn.result))
            .count() as u64,
    }
}

fn was_accepted(answered: &Result<RxAnswer, RxFault>) -> bool
    ensures { result ≡ spec.was_accepted answered.now }
{
    matches!(answered, Ok(RxAnswer::Accepted))
}

fn was_seen(answered: &Result<RxAnswer, RxFault>) -> bool
    ensures { result ≡ spec.was_seen answered.now }
{
    matches!(answered, Ok(RxAnswer::Seen))
}

fn was_refused(answered: &Result<RxAnswer, RxFault>) -> bool
    ensures { result ≡ is_some (asks.refusal_in answered.now) }
{
    matches!(answered, Ok(RxAnswer::Refused { .. }))
}
