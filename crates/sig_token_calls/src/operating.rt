//! How the operator sets the status of a stream (OpenID Shared Signals Framework 1.0, section 8.1.5).

ghost use Rattle.std.specs.Prelude.{◌≡◌, IfOk, IfSome, Some, true};
ghost use Rattle.sig_json.specs.Answers.{Answers, result_map};
ghost use Rattle.sig_calls.specs.Equality.{status_eq};
ghost use Rattle.sig_calls.specs.Statuses as table;
ghost use Rattle.sig_calls.specs.Told.{making, outcome};
ghost use Rattle.sig_ledger.specs.Books.{sum_in};
ghost use Rattle.sig_ledger.specs.Room.{HasRoom};
ghost use Rattle.sig_ledger.specs.Steps.{reply_in};
ghost use Rattle.sig_terms.specs.declared.answer.Answer.TheVariants as answer;
ghost use Rattle.sig_terms.specs.declared.fact.Fact.TheVariants as fact;

use crate::make;
use sig_event::Status;
use sig_json::{Memory, Text, copy_optional};
use sig_ledger::{Account, Ledger, Step};
use sig_terms::{Answer, Fact, PrepareFault};
use std::alloc::Global;

fn is_same(one: Status, two: Status) -> bool
    ensures { result ≡ status_eq one two }
{
    one == two
}

// The status as it stands, with the reason of the fact that set it.
fn state_of(alloc: Global, stream: &Text, account: &Account) -> Result<Answer, Memory>
    ensures { IfOk result (λ a. a ≡ table.state_of stream.now account.now.owing.stream) }
{
    Ok(Answer::State {
        stream: stream.copy(alloc)?,
        status: account.status(),
        reason: copy_optional(alloc, account.reason())?,
        token: None,
    })
}

// The status that is set, with the number of the token that tells it.
fn new_state(
    alloc: Global,
    stream: &Text,
    status: Status,
    reason: &Option<Text>,
    number: u64,
) -> Result<Answer, Memory>
    ensures { IfOk result (λ a. a ≡ answer.State stream.now status reason.now (Some number)) }
{
    Ok(Answer::State {
        stream: stream.copy(alloc)?,
        status,
        reason: copy_optional(alloc, reason)?,
        token: Some(number),
    })
}

// The operator's fact.
fn status_fact(
    alloc: Global,
    stream: &Text,
    status: Status,
    reason: &Option<Text>,
    now: u64,
) -> Result<Fact, Memory>
    ensures { IfOk result (λ f. f ≡ fact.StatusSet stream.now status reason.now true now) }
{
    let kept = copy_optional(alloc, reason)?;
    Ok(Fact::StatusSet {
        stream: stream.copy(alloc)?,
        status,
        reason: kept,
        operator: true,
        time: now,
    })
}

// The status is set, and the token of this number tells it.
fn set(
    ledger: &mut Ledger,
    stream: &Text,
    status: Status,
    reason: &Option<Text>,
    number: u64,
    now: u64,
) -> Result<Step, PrepareFault>
    ensures keeps { ledger.new.books ≡ ledger.old.books }
    ensures answers { Answers PrepareFault.Memory (result_map reply_in result)
        (outcome (making (sum_in ledger.old.books).parts (answer.State stream.now status reason.now (Some number))
        (fact.StatusSet stream.now status reason.now true now))) }
    ensures room { IfOk result (λ step. IfSome step.change (HasRoom (sum_in ledger.new.books) ledger.new.room)) }
{
    let alloc = ledger.alloc();
    let answer = new_state(alloc, stream, status, reason, number)?;
    let fact = status_fact(alloc, stream, status, reason, now)?;
    make(ledger, answer, fact)
}

/// How the operator sets the status of a stream (OpenID Shared Signals Framework 1.0, section 8.1.5): the stream's receiver is
/// told by a token. A status that stands already changes nothing, its reason neither.
///
/// `Number` comes exactly where that token would get a number above 2^62, and after every refusal.
pub fn operator_status(
    ledger: &mut Ledger,
    stream: &Text,
    status: Status,
    reason: &Option<Text>,
    now: u64,
) -> Result<Step, PrepareFault>
    ensures keeps { ledger.new.books ≡ ledger.old.books }
    ensures answers { Answers PrepareFault.Memory (result_map reply_in result)
        (outcome (table.operating (sum_in ledger.old.books).parts stream.now status reason.now now)) }
    ensures room { IfOk result (λ step. IfSome step.change (HasRoom (sum_in ledger.new.books) ledger.new.room)) }
{
    match ledger.account(stream.as_str()) {
        None => Ok(Step::only(Answer::NotFound)),
        Some(account) => {
            if is_same(account.status(), status) {
                let answer = state_of(ledger.alloc(), stream, account)?;
                return Ok(Step::only(answer));
            }
            let number = account.made() + 1;
            set(ledger, stream, status, reason, number, now)
        }
    }
}
