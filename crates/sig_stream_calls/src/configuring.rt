//! How a client changes, replaces and deletes streams (Shared Signals Framework 1.0, sections 8.1.1.3 to 8.1.1.5).

ghost use Rattle.std.specs.Prelude.{◌≡◌, IfOk, IfSome, option_map};
ghost use Rattle.sig_json.specs.Answers.{Answers, result_map};
ghost use Rattle.sig_history.specs.Streams.{Stream};
ghost use Rattle.sig_calls.specs.Configuring as table;
ghost use Rattle.sig_calls.specs.Found.{told_by};
ghost use Rattle.sig_calls.specs.Told.{only, outcome, with_change};
ghost use Rattle.sig_accounts.specs.Owings.{stream_in};
ghost use Rattle.sig_ledger.specs.Books.{sum_in};
ghost use Rattle.sig_ledger.specs.Room.{HasRoom};
ghost use Rattle.sig_ledger.specs.Steps.{reply_in};
ghost use Rattle.std.specs.Prelude.{None, Some, bytes_eq};
ghost use Rattle.std.specs.Cmp.Lexicographic.{pointwise};
ghost use Rattle.std.specs.Option.{option_eq};
ghost use Rattle.sig_terms.specs.declared.answer.Answer.TheVariants as answer;
ghost use Rattle.sig_terms.specs.declared.fact.Fact.TheVariants as fact;
ghost use Rattle.sig_calls.specs.Equality as equality;
ghost use Rattle.sig_stream_calls.specs.Wants as wants;

use crate::turn::{Turn, finish};
use sig_json::{Items, Memory, Same, Text, copy_items, copy_optional};
use sig_ledger::{Account, Ledger, Step};
use sig_terms::{Answer, Delivery, Fact, PrepareFault, StreamConf, Want, copy_optional_items};
use std::alloc::Global;

/// What becomes of the parts of a configuration that a want doesn't name.
#[derive(Clone, Copy, PartialEq, Eq)]
pub(crate) enum Unnamed {
    /// They stay.
    Stays,
    /// They take their default.
    TakesDefault,
}

// The part that is wanted, or else what becomes of the one that stands.
fn wanted_or<'a, T>(
    unnamed: Unnamed,
    wanted: &'a Option<T>,
    standing: &'a Option<T>,
) -> &'a Option<T>
    ensures { result.now ≡ wants.wanted_or unnamed wanted.now standing.now }
{
    match (unnamed, wanted) {
        (Unnamed::Stays, None) => standing,
        _ => wanted,
    }
}

// The delivery that is wanted, or else what becomes of the one that stands.
fn delivery_or(
    alloc: Global,
    unnamed: Unnamed,
    want: &Want,
    conf: &StreamConf,
) -> Result<Delivery, Memory>
    ensures { IfOk result (λ d. d ≡ (wants.anew unnamed want.now conf.now).delivery) }
{
    match (unnamed, &want.delivery) {
        (_, Some(delivery)) => delivery.copy(alloc),
        (Unnamed::Stays, None) => conf.delivery.copy(alloc),
        (Unnamed::TakesDefault, None) => Ok(Delivery::Poll),
    }
}

// The configuration with what is wanted.
fn anew(
    alloc: Global,
    unnamed: Unnamed,
    want: &Want,
    conf: &StreamConf,
) -> Result<StreamConf, Memory>
    ensures { IfOk result (λ c. c ≡ wants.anew unnamed want.now conf.now) }
{
    let requested = wanted_or(unnamed, &want.requested, &conf.requested);
    let description = wanted_or(unnamed, &want.description, &conf.description);
    Ok(StreamConf {
        stream: conf.stream.copy(alloc)?,
        iss: conf.iss.copy(alloc)?,
        aud: copy_items(alloc, &conf.aud)?,
        requested: copy_optional_items(alloc, requested)?,
        delivery: delivery_or(alloc, unnamed, want, conf)?,
        interval: conf.interval,
        defaults: conf.defaults,
        description: copy_optional(alloc, description)?,
    })
}

// Whether the same event types are asked for.
fn same_requested(one: &StreamConf, two: &StreamConf) -> bool
    ensures { result ≡ option_eq (pointwise bytes_eq) one.now.requested two.now.requested }
{
    one.requested.same(&two.requested)
}

// Whether tokens reach the receiver in the same way.
fn same_delivery(one: &StreamConf, two: &StreamConf) -> bool
    ensures { result ≡ equality.delivery_eq one.now.delivery two.now.delivery }
{
    one.delivery.same(&two.delivery)
}

// Whether the receiver's own words are the same.
fn same_description(one: &StreamConf, two: &StreamConf) -> bool
    ensures { result ≡ option_eq bytes_eq one.now.description two.now.description }
{
    one.description.same(&two.description)
}

// Whether two configurations have the same parts that a receiver may set.
fn same_settings(one: &StreamConf, two: &StreamConf) -> bool
    ensures { result ≡ equality.same_settings one.now two.now }
{
    same_requested(one, two) && same_delivery(one, two) && same_description(one, two)
}

// The fact that makes of one configuration another, where something differs.
fn configured_change(
    alloc: Global,
    stream: &Text,
    old: &StreamConf,
    new: &StreamConf,
) -> Result<Option<Fact>, Memory>
    ensures { IfOk result (λ change. change ≡ table.configured_change stream.now old.now new.now) }
{
    if same_settings(old, new) {
        return Ok(None);
    }
    Ok(Some(Fact::Configured {
        stream: stream.copy(alloc)?,
        requested: copy_optional_items(alloc, &new.requested)?,
        delivery: new.delivery.copy(alloc)?,
        description: copy_optional(alloc, &new.description)?,
    }))
}

// How a client configures the stream that is found.
fn configure(
    alloc: Global,
    account: Option<&Account>,
    stream: &Text,
    unnamed: Unnamed,
    want: &Want,
) -> Result<Turn, Memory>
    ensures { IfOk result (λ t. with_change t.answer t.change
        ≡ told_by (table.reconfigured stream.now (wants.anew unnamed want.now)) (option_map stream_in (option_map (λ a. a.now.owing) account.entry))) }
{
    match account {
        None => Ok(Turn::not_found()),
        Some(account) => {
            let conf = anew(alloc, unnamed, want, account.conf())?;
            let change = configured_change(alloc, stream, account.conf(), &conf)?;
            Ok(Turn {
                answer: Answer::Conf { conf },
                change,
            })
        }
    }
}

/// How the stream that is found is deleted.
pub(crate) fn delete_turn(
    alloc: Global,
    account: Option<&Account>,
    stream: &Text,
) -> Result<Turn, Memory>
    ensures { IfOk result (λ t. with_change t.answer t.change
        ≡ told_by (λ (s : Stream). with_change answer.Gone (Some (fact.Deleted stream.now))) (option_map stream_in (option_map (λ a. a.now.owing) account.entry))) }
{
    match account {
        None => Ok(Turn::not_found()),
        Some(_) => {
            let stream = stream.copy(alloc)?;
            Ok(Turn {
                answer: Answer::Gone,
                change: Some(Fact::Deleted { stream }),
            })
        }
    }
}

/// How a client changes a part of a configuration: what it doesn't name stays. The answer has the configuration afterwards.
pub fn patch(
    ledger: &mut Ledger,
    client: &Text,
    stream: &Text,
    want: &Want,
) -> Result<Step, PrepareFault>
    ensures keeps { ledger.new.books ≡ ledger.old.books }
    ensures answers { Answers PrepareFault.Memory (result_map reply_in result) (outcome (table.patching (sum_in ledger.old.books).parts client.now stream.now want.now)) }
    ensures room { IfOk result (λ step. IfSome step.change (HasRoom (sum_in ledger.new.books) ledger.new.room)) }
{
    let account = ledger.client_account(client, stream);
    let turn = configure(ledger.alloc(), account, stream, Unnamed::Stays, want)?;
    finish(ledger, turn)
}

/// How a client replaces a configuration: what it doesn't name takes its default. The answer has the configuration afterwards.
pub fn put(
    ledger: &mut Ledger,
    client: &Text,
    stream: &Text,
    want: &Want,
) -> Result<Step, PrepareFault>
    ensures keeps { ledger.new.books ≡ ledger.old.books }
    ensures answers { Answers PrepareFault.Memory (result_map reply_in result) (outcome (table.putting (sum_in ledger.old.books).parts client.now stream.now want.now)) }
    ensures room { IfOk result (λ step. IfSome step.change (HasRoom (sum_in ledger.new.books) ledger.new.room)) }
{
    let account = ledger.client_account(client, stream);
    let turn = configure(ledger.alloc(), account, stream, Unnamed::TakesDefault, want)?;
    finish(ledger, turn)
}

/// How a client deletes a stream.
pub fn delete(ledger: &mut Ledger, client: &Text, stream: &Text) -> Result<Step, PrepareFault>
    ensures keeps { ledger.new.books ≡ ledger.old.books }
    ensures answers { Answers PrepareFault.Memory (result_map reply_in result) (outcome (table.deleting (sum_in ledger.old.books).parts client.now stream.now)) }
    ensures room { IfOk result (λ step. IfSome step.change (HasRoom (sum_in ledger.new.books) ledger.new.room)) }
{
    let turn = delete_turn(
        ledger.alloc(),
        ledger.client_account(client, stream),
        stream,
    )?;
    finish(ledger, turn)
}
