//! How tokens are handed to a round of pushes (RFC 8935, section 2).

ghost use Rattle.std.specs.Prelude.{◌≡◌, ◌++◌, ◌≤◌, ◌||◌, IfOk, IfSome, OnOk, ℕ, List, [], bytes_eq, flat_map, length, not, take};
ghost use Rattle.indexmap.specs.IndexSet.{contains};
ghost use Rattle.sig_json.specs.Answers.{Answers, result_map};
ghost use Rattle.sig_json.specs.declared.limits.TheConstants.{TOKENS_PER_PAGE};
ghost use Rattle.sig_calls.specs.Handing as table;
ghost use Rattle.sig_calls.specs.Told.{outcome};
ghost use Rattle.sig_ledger.specs.Books.{sum_in};
ghost use Rattle.sig_ledger.specs.Room.{HasRoom};
ghost use Rattle.sig_ledger.specs.Steps.{reply_in};

use crate::offering::{first_offered, is_pushed};
use indexmap::IndexSet;
use sig_json::limits::TOKENS_PER_PAGE;
use sig_json::{Items, Memory, Text};
use sig_ledger::{Ledger, Step};
use sig_terms::{Answer, PrepareFault, Token};
use std::alloc::Global;

/// Whether a round of pushes of a stream may begin, which the operator asks for: the stream is there, and its tokens are
/// pushed.
pub fn deliver(ledger: &Ledger, stream: &Text) -> Result<Step, PrepareFault>
    ensures answers { Answers PrepareFault.Memory (result_map reply_in result)
        (outcome (table.delivering (sum_in ledger.now.books).parts stream.now)) }
    ensures room { IfOk result (λ step. IfSome step.change (HasRoom (sum_in ledger.now.books) ledger.now.room)) }
{
    match ledger.account(stream.as_str()) {
        None => Ok(Step::only(Answer::NotFound)),
        Some(account) => {
            if !is_pushed(account) {
                return Ok(Step::only(Answer::NotFound));
            }
            let stream = stream.copy(ledger.alloc())?;
            Ok(Step::only(Answer::Delivering { stream }))
        }
    }
}

// The first tokens that the stream of a name offers to pushes, at most so many.
fn pushed(ledger: &Ledger, name: &Text, size: usize) -> Result<Items<Token>, Memory>
    ensures { IfOk result (λ tokens. tokens ≡ take size (table.pushed_by (sum_in ledger.now.books) name.now)) }
{
    let alloc = ledger.alloc();
    match ledger.account(name.as_str()) {
        None => Ok(Items::of(Vec::new(alloc))),
        Some(account) => {
            if !is_pushed(account) {
                return Ok(Items::of(Vec::new(alloc)));
            }
            let page = first_offered(
                alloc,
                ledger.store_id(),
                ledger.published(),
                account,
                &[],
                size,
            )?;
            Ok(page.tokens)
        }
    }
}

// Adds the tokens that the stream of a name offers to pushes, up to a page in all.
fn push_offered(ledger: &Ledger, name: &Text, tokens: &mut Vec<Token>) -> Result<(), Memory>
    requires { length tokens.old.items ≤ TOKENS_PER_PAGE }
    ensures { OnOk result (tokens.new.items ≡ take TOKENS_PER_PAGE (tokens.old.items ++ table.pushed_by (sum_in ledger.now.books) name.now)) }
{
    let room = TOKENS_PER_PAGE - tokens.len();
    let mut more = pushed(ledger, name, room)?.into_vec();
    tokens.append(&mut more)?;
    Ok(())
}

// Whether a name comes first. It is seen from then on.
fn is_first(alloc: Global, seen: &mut IndexSet<Text>, name: &Text) -> Result<bool, Memory>
    ensures first { IfOk result (λ first. first ≡ not (contains bytes_eq seen.old name.now)) }
    ensures seen { OnOk result ((other : List ℕ) → contains bytes_eq seen.new other ≡ (bytes_eq other name.now || contains bytes_eq seen.old other)) }
{
    let name = name.copy(alloc)?;
    let first = seen.insert(name)?;
    Ok(first)
}

// The first tokens of the streams, in the order in which they are named.
fn handed(ledger: &Ledger, streams: &[Text]) -> Result<Items<Token>, Memory>
    ensures { IfOk result (λ tokens. tokens ≡ take TOKENS_PER_PAGE (flat_map (table.pushed_by (sum_in ledger.now.books)) (table.first_names [] streams.now))) }
{
    let alloc = ledger.alloc();
    let mut seen = IndexSet::new(alloc);
    let mut tokens = Vec::new(alloc);
    for name in streams {
        if tokens.len() == TOKENS_PER_PAGE {
            return Ok(Items::of(tokens));
        }
        if is_first(alloc, &mut seen, name)? {
            push_offered(ledger, name, &mut tokens)?;
        }
    }
    Ok(Items::of(tokens))
}

/// What a round of pushes is handed: the first tokens that the push streams of these names offer, each name once and at most a
/// page in all. No further one is made.
pub fn hand(ledger: &Ledger, streams: &[Text]) -> Result<Step, PrepareFault>
    ensures answers { Answers PrepareFault.Memory (result_map reply_in result)
        (outcome (table.handing (sum_in ledger.now.books) streams.now)) }
    ensures room { IfOk result (λ step. IfSome step.change (HasRoom (sum_in ledger.now.books) ledger.now.room)) }
{
    let tokens = handed(ledger, streams)?;
    Ok(Step::only(Answer::Handed { tokens }))
}
