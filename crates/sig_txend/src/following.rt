//! The push rounds that follow a turn.

ghost use Rattle.std.specs.Prelude.{◌≡◌, ◌∷◌, [], IfOk, IsSome, OnErr, filter, map, option_map};
ghost use Rattle.sig_terms.specs.declared.token.Issued.{Issued};
ghost use Rattle.sig_txend.specs.Following as spec;

use crate::Dispatching;
use sig_accounts::client_in;
use sig_json::{Items, Memory, Text};
use sig_terms::{Answer, Issued, Rules};
use sig_txnode::Turn;
use std::alloc::Global;
use std::sync::Wait;

// The streams that have push rounds after a turn, where some follow: those of clients that the rules have.
pub fn streams_after(
    alloc: Global,
    rules: &Rules,
    turn: &Turn,
) -> Result<Option<Items<Text>>, Memory>
    ensures streams { IfOk result (λ streams. streams ≡ spec.streams_in rules.now turn.entry.now.result) }
    ensures memory { OnErr result (IsSome (spec.streams_in rules.now turn.entry.now.result)) }
{
    match &turn.result {
        Ok(answer) => streams_named(alloc, rules, answer),
        Err(_) => Ok(None),
    }
}

/// Tells of a stream that may offer what it kept, since its status or its configuration was set by this turn; and of one of
/// which the operator asked for a round, where its client is one of the rules'.
pub fn tell_news<R: Wait, K: Dispatching>(rt: &R, taker: &mut K, rules: &Rules, turn: &Turn)
    ensures { K.Taker.told taker.new ≡ K.Taker.told taker.old }
{
    match &turn.result {
        Ok(Answer::State { stream, .. }) => taker.tell(rt, stream),
        Ok(Answer::Conf { conf }) => taker.tell(rt, &conf.stream),
        Ok(Answer::Delivering { stream }) if has_client(rules, stream.as_str()) => {
            taker.ask(rt, stream)
        }
        _ => {}
    }
}

// The streams of such clients that an answer names for push rounds, where some follow it.
fn streams_named(
    alloc: Global,
    rules: &Rules,
    answer: &Answer,
) -> Result<Option<Items<Text>>, Memory>
    ensures streams { IfOk result (λ streams. streams ≡ option_map (filter (spec.has_client rules.now)) (spec.streams_named answer.now)) }
    ensures memory { OnErr result (IsSome (option_map (filter (spec.has_client rules.now)) (spec.streams_named answer.now))) }
{
    match answer {
        Answer::Published { tokens, .. } => Ok(Some(names_of(alloc, rules, tokens.as_slice())?)),
        Answer::Asked { stream, .. } => Ok(Some(one_name(alloc, rules, stream)?)),
        Answer::State {
            stream,
            token: Some(_),
            ..
        } => Ok(Some(one_name(alloc, rules, stream)?)),
        Answer::Delivering { stream } => Ok(Some(one_name(alloc, rules, stream)?)),
        _ => Ok(None),
    }
}

// The names of the streams of such clients that these tokens were made for.
fn names_of(alloc: Global, rules: &Rules, tokens: &[Issued]) -> Result<Items<Text>, Memory>
    ensures { IfOk result (λ names. names ≡ filter (spec.has_client rules.now) (map (λ (t : Issued). t.stream) tokens.now)) }
{
    let mut names = Vec::new(alloc);
    for token in tokens {
        if has_client(rules, token.stream.as_str()) {
            names.push(token.stream.copy(alloc)?)?;
        }
    }
    Ok(Items::of(names))
}

// A list of one name, if it is of such a client.
fn one_name(alloc: Global, rules: &Rules, name: &Text) -> Result<Items<Text>, Memory>
    ensures { IfOk result (λ names. names ≡ filter (spec.has_client rules.now) (name.now ∷ [])) }
{
    let mut names = Vec::new(alloc);
    if has_client(rules, name.as_str()) {
        names.push(name.copy(alloc)?)?;
    }
    Ok(Items::of(names))
}

// Whether the client whose stream has this name is one of the rules'.
pub fn has_client(rules: &Rules, stream: &str) -> bool
    ensures { result ≡ spec.has_client rules.now stream.now }
{
    let client = client_in(stream);
    rules
        .clients
        .as_slice()
        .iter()
        .any(|known| known.name.as_str() == client)
}
