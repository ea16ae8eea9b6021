//! How the operator reads which tokens were reported as faulty.

ghost use Rattle.std.specs.Prelude.{◌≡◌, ◌+◌, IfOk, IfSome, length, max, min};
ghost use Rattle.sig_json.specs.Answers.{Answers, result_map};
ghost use Rattle.sig_calls.specs.Overseeing as table;
ghost use Rattle.sig_calls.specs.Told.{outcome};
ghost use Rattle.sig_calls.specs.declared.limits.TheConstants.{REFUSED_PER_PAGE};
ghost use Rattle.sig_ledger.specs.Books.{sum_in};
ghost use Rattle.sig_ledger.specs.Room.{HasRoom};
ghost use Rattle.sig_ledger.specs.Steps.{reply_in};

use crate::turn::{Turn, finish};
use sig_calls::limits::REFUSED_PER_PAGE;
use sig_ledger::{Ledger, Refusals, Step};
use sig_terms::{Answer, PrepareFault};

// The place behind a page, among all that were ever reported.
fn place_behind(refusals: &Refusals, from: u64) -> u64
    ensures { result ≡ min (max from refusals.now.reported.before + REFUSED_PER_PAGE)
        (refusals.now.reported.before + length refusals.now.reported.kept) }
{
    let first = from.max(refusals.before());
    let behind = first.saturating_add(REFUSED_PER_PAGE as u64);
    behind.min(refusals.end())
}

/// How the operator reads a page of the tokens that were reported as faulty, from a place on among all that were ever reported,
/// counted from 0. A place before the first one that is kept gives the first ones; one past the end gives none.
pub fn refused(ledger: &mut Ledger, from: u64) -> Result<Step, PrepareFault>
    ensures keeps { ledger.new.books ≡ ledger.old.books }
    ensures answers { Answers PrepareFault.Memory (result_map reply_in result) (outcome (table.refusing (sum_in ledger.old.books) from)) }
    ensures room { IfOk result (λ step. IfSome step.change (HasRoom (sum_in ledger.new.books) ledger.new.room)) }
{
    let refusals = ledger.refused();
    let next = place_behind(refusals, from);
    let start = from.saturating_sub(refusals.before()) as usize;
    let tokens = refusals.page(ledger.alloc(), ledger.published(), start, REFUSED_PER_PAGE)?;
    finish(ledger, Turn::only(Answer::Refused { next, tokens }))
}
