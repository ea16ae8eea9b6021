//! How a client makes a stream.

ghost use Rattle.std.specs.Prelude.{◌≡◌, IfOk, IfSome, Some, unwrap_or};
ghost use Rattle.sig_json.specs.Answers.{Answers, result_map};
ghost use Rattle.sig_terms.specs.declared.answer.Answer.TheVariants as answer;
ghost use Rattle.sig_terms.specs.declared.fact.Fact.TheVariants as fact;
ghost use Rattle.sig_terms.specs.declared.want.Delivery.TheVariants as delivery;
ghost use Rattle.sig_calls.specs.Creating as table;
ghost use Rattle.sig_calls.specs.Told.{outcome};
ghost use Rattle.sig_ledger.specs.Books.{sum_in};
ghost use Rattle.sig_ledger.specs.Room.{HasRoom};
ghost use Rattle.sig_ledger.specs.Steps.{reply_in};

use crate::clients::client_named;
use crate::turn::{Turn, finish};
use sig_json::limits::{LAST_NUMBER, STREAMS_PER_CLIENT};
use sig_json::{Memory, Text, copy_items, copy_optional};
use sig_ledger::{Ledger, Step, stream_name};
use sig_terms::{
    Answer, Client, Delivery, Fact, PrepareFault, Rules, StreamConf, Want, copy_optional_items,
};
use std::alloc::Global;

// The delivery that is wanted, poll where none is.
fn delivery_of(alloc: Global, want: &Want) -> Result<Delivery, Memory>
    ensures { IfOk result (λ d. d ≡ unwrap_or want.now.delivery delivery.Poll) }
{
    match &want.delivery {
        None => Ok(Delivery::Poll),
        Some(delivery) => delivery.copy(alloc),
    }
}

// The configuration of a client's stream.
fn conf_of(
    alloc: Global,
    rules: &Rules,
    client: &Client,
    want: &Want,
    number: u64,
) -> Result<StreamConf, Memory>
    ensures { IfOk result (λ c. c ≡ table.conf_of rules.now client.now want.now number) }
{
    Ok(StreamConf {
        stream: stream_name(alloc, client.name.as_str(), number)?,
        iss: rules.issuer.copy(alloc)?,
        aud: copy_items(alloc, &client.aud)?,
        requested: copy_optional_items(alloc, &want.requested)?,
        delivery: delivery_of(alloc, want)?,
        interval: rules.interval,
        defaults: rules.defaults,
        description: copy_optional(alloc, &want.description)?,
    })
}

// What a client is told whose stream of this configuration is made.
fn made_turn(alloc: Global, conf: StreamConf, now: u64) -> Result<Turn, Memory>
    ensures { IfOk result (λ t. t ≡ record { answer = answer.Made conf; change = Some (fact.Created conf now) }) }
{
    let again = conf.copy(alloc)?;
    let fact = Fact::Created {
        conf: again,
        time: now,
    };
    Ok(Turn {
        answer: Answer::Made { conf },
        change: Some(fact),
    })
}

// How a client that is configured makes a stream.
fn create_for(
    ledger: &mut Ledger,
    rules: &Rules,
    client: &Client,
    want: &Want,
    now: u64,
) -> Result<Step, PrepareFault>
    ensures keeps { ledger.new.books ≡ ledger.old.books }
    ensures answers { Answers PrepareFault.Memory (result_map reply_in result)
        (outcome (table.created_for rules.now (sum_in ledger.old.books).parts want.now now (Some client.now))) }
    ensures room { IfOk result (λ step. IfSome step.change (HasRoom (sum_in ledger.new.books) ledger.new.room)) }
{
    if STREAMS_PER_CLIENT <= ledger.streams_of(&client.name) {
        return Ok(Step::only(Answer::TooMany));
    }
    let number = ledger.created_by(&client.name);
    if LAST_NUMBER <= number {
        return Err(PrepareFault::Number(LAST_NUMBER + 1));
    }
    let alloc = ledger.alloc();
    let conf = conf_of(alloc, rules, client, want, number + 1)?;
    let turn = made_turn(alloc, conf, now)?;
    finish(ledger, turn)
}

/// How a client makes a stream (Shared Signals Framework 1.0, section 8.1.1.1).
///
/// `Number` comes exactly where the stream would get a number above 2^62, and after every refusal.
pub fn create(
    ledger: &mut Ledger,
    rules: &Rules,
    client: &Text,
    want: &Want,
    now: u64,
) -> Result<Step, PrepareFault>
    ensures keeps { ledger.new.books ≡ ledger.old.books }
    ensures answers { Answers PrepareFault.Memory (result_map reply_in result)
        (outcome (table.creating rules.now (sum_in ledger.old.books).parts client.now want.now now)) }
    ensures room { IfOk result (λ step. IfSome step.change (HasRoom (sum_in ledger.new.books) ledger.new.room)) }
{
    match client_named(rules.clients.as_slice(), client) {
        None => Ok(Step::only(Answer::NotFound)),
        Some(owner) => create_for(ledger, rules, owner, want, now),
    }
}
