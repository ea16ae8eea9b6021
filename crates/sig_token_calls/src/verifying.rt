//! How a client asks for a verification (OpenID Shared Signals Framework 1.0, section 8.1.4.2).

ghost use Rattle.std.specs.Prelude.{◌≡◌, IfOk, IfSome};
ghost use Rattle.sig_json.specs.Answers.{Answers, result_map};
ghost use Rattle.sig_terms.specs.declared.answer.Answer.TheVariants as answer;
ghost use Rattle.sig_terms.specs.declared.fact.Fact.TheVariants as fact;
ghost use Rattle.sig_history.specs.Streams as streams;
ghost use Rattle.sig_calls.specs.Told.{making, outcome};
ghost use Rattle.sig_calls.specs.Verifying as table;
ghost use Rattle.sig_ledger.specs.Books.{sum_in};
ghost use Rattle.sig_ledger.specs.Room.{HasRoom};
ghost use Rattle.sig_ledger.specs.Steps.{reply_in};
ghost use Rattle.sig_token_calls.specs.Replies as replies;

use crate::make;
use sig_event::Status;
use sig_json::{Memory, Text, copy_optional};
use sig_ledger::{Account, Ledger, Step};
use sig_terms::{Answer, Fact, PrepareFault};
use std::alloc::Global;

// When the next verification may be asked for; a time that 64 bits can't hold is the greatest that they can.
fn next_time(asked: u64, interval: u64) -> u64
    ensures { result ≡ table.next_time asked interval }
{
    asked.saturating_add(interval)
}

fn is_disabled(account: &Account) -> bool
    ensures { result ≡ streams.is_disabled account.now.owing.stream.status }
{
    match account.status() {
        Status::Disabled => true,
        Status::Enabled | Status::Paused => false,
    }
}

// Why no verification is made of a stream now.
fn refusal(account: &Account, now: u64) -> Option<Answer>
    ensures { result ≡ replies.refusal now account.now.owing.stream }
{
    if is_disabled(account) {
        return Some(Answer::Disabled);
    }
    early_answer(account.asked(), account.conf().interval, now)
}

fn early_answer(asked: Option<u64>, interval: u64, now: u64) -> Option<Answer>
    ensures { result ≡ replies.early_answer now interval asked }
{
    match asked {
        None => None,
        Some(time) => {
            let until = next_time(time, interval);
            if now < until {
                return Some(Answer::Early { until });
            }
            None
        }
    }
}

fn asked_answer(alloc: Global, stream: &Text, number: u64) -> Result<Answer, Memory>
    ensures { IfOk result (λ a. a ≡ answer.Asked stream.now number) }
{
    Ok(Answer::Asked {
        stream: stream.copy(alloc)?,
        number,
    })
}

fn asked_fact(alloc: Global, stream: &Text, state: &Option<Text>, now: u64) -> Result<Fact, Memory>
    ensures { IfOk result (λ f. f ≡ fact.Asked stream.now state.now now) }
{
    Ok(Fact::Asked {
        stream: stream.copy(alloc)?,
        state: copy_optional(alloc, state)?,
        time: now,
    })
}

// The verification of this number is made.
fn ask(
    ledger: &mut Ledger,
    stream: &Text,
    number: u64,
    state: &Option<Text>,
    now: u64,
) -> Result<Step, PrepareFault>
    ensures keeps { ledger.new.books ≡ ledger.old.books }
    ensures answers { Answers PrepareFault.Memory (result_map reply_in result)
        (outcome (making (sum_in ledger.old.books).parts (answer.Asked stream.now number) (fact.Asked stream.now state.now now))) }
    ensures room { IfOk result (λ step. IfSome step.change (HasRoom (sum_in ledger.new.books) ledger.new.room)) }
{
    let alloc = ledger.alloc();
    let answer = asked_answer(alloc, stream, number)?;
    let fact = asked_fact(alloc, stream, state, now)?;
    make(ledger, answer, fact)
}

/// How a client asks for a verification (OpenID Shared Signals Framework 1.0, section 8.1.4.2): not of a stream that is
/// disabled, and not before the interval after the last one is over.
///
/// `Number` comes exactly where its token would get a number above 2^62, and after every refusal.
pub fn verify(
    ledger: &mut Ledger,
    client: &Text,
    stream: &Text,
    state: &Option<Text>,
    now: u64,
) -> Result<Step, PrepareFault>
    ensures keeps { ledger.new.books ≡ ledger.old.books }
    ensures answers { Answers PrepareFault.Memory (result_map reply_in result)
        (outcome (table.verifying (sum_in ledger.old.books).parts client.now stream.now state.now now)) }
    ensures room { IfOk result (λ step. IfSome step.change (HasRoom (sum_in ledger.new.books) ledger.new.room)) }
{
    match ledger.client_account(client, stream) {
        None => Ok(Step::only(Answer::NotFound)),
        Some(account) => {
            let number = account.made();
            match refusal(account, now) {
                Some(answer) => Ok(Step::only(answer)),
                None => ask(ledger, stream, number + 1, state, now),
            }
        }
    }
}
