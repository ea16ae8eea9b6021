//! The lines that make calls at the transmitter by names.

ghost use Rattle.std.specs.Prelude.{◌≡◌, [], IfOk, Some, option_and_then};
ghost use Rattle.sig_script.specs.Cutting.{client_cut, names_cut, stream_cut};
ghost use Rattle.sig_script.specs.Script as spec;

use crate::ScriptAct;
use crate::bodies::{status_in, subject_in, want_in};
use crate::cutting::{client_in, is_word, names_in, stream_in};
use crate::numbers::number_in;
use sig_json::{Items, Memory, Text};
use sig_terms::{Call, PollAsk};
use std::alloc::Global;

/// `create <client> <json>`: a client makes a stream.
pub(crate) fn create_line(alloc: Global, rest: &str) -> Result<Option<ScriptAct>, Memory>
    ensures { IfOk result (λ found. found ≡ option_and_then spec.create_line (client_cut rest.now)) }
{
    let Some(words) = client_in(rest) else {
        return Ok(None);
    };
    let Some(want) = want_in(alloc, words.rest)? else {
        return Ok(None);
    };
    let client = Text::of(alloc, words.word)?;
    Ok(Some(ScriptAct::Call(Call::Create { client, want })))
}

/// `patch <client> <stream> <json>`: a client changes a part of a stream's configuration.
pub(crate) fn patch_line(alloc: Global, rest: &str) -> Result<Option<ScriptAct>, Memory>
    ensures { IfOk result (λ found. found ≡ option_and_then spec.patch_line (names_cut rest.now)) }
{
    let Some(names) = names_in(rest) else {
        return Ok(None);
    };
    let client = Text::of(alloc, names.client)?;
    let stream = Text::of(alloc, names.stream)?;
    let Some(want) = want_in(alloc, names.rest)? else {
        return Ok(None);
    };
    Ok(Some(ScriptAct::Call(Call::Patch {
        client,
        stream,
        want,
    })))
}

/// `put <client> <stream> <json>`: a client replaces a stream's configuration.
pub(crate) fn put_line(alloc: Global, rest: &str) -> Result<Option<ScriptAct>, Memory>
    ensures { IfOk result (λ found. found ≡ option_and_then spec.put_line (names_cut rest.now)) }
{
    let Some(names) = names_in(rest) else {
        return Ok(None);
    };
    let client = Text::of(alloc, names.client)?;
    let stream = Text::of(alloc, names.stream)?;
    let Some(want) = want_in(alloc, names.rest)? else {
        return Ok(None);
    };
    Ok(Some(ScriptAct::Call(Call::Put {
        client,
        stream,
        want,
    })))
}

/// `add <client> <stream> <json>`: a client adds a subject to a stream.
pub(crate) fn add_line(alloc: Global, rest: &str) -> Result<Option<ScriptAct>, Memory>
    ensures { IfOk result (λ found. found ≡ option_and_then spec.add_line (names_cut rest.now)) }
{
    let Some(names) = names_in(rest) else {
        return Ok(None);
    };
    let client = Text::of(alloc, names.client)?;
    let stream = Text::of(alloc, names.stream)?;
    let Some(subject) = subject_in(alloc, names.rest)? else {
        return Ok(None);
    };
    Ok(Some(ScriptAct::Call(Call::Add {
        client,
        stream,
        subject,
    })))
}

/// `remove <client> <stream> <json>`: a client removes a subject from a stream.
pub(crate) fn remove_line(alloc: Global, rest: &str) -> Result<Option<ScriptAct>, Memory>
    ensures { IfOk result (λ found. found ≡ option_and_then spec.remove_line (names_cut rest.now)) }
{
    let Some(names) = names_in(rest) else {
        return Ok(None);
    };
    let client = Text::of(alloc, names.client)?;
    let stream = Text::of(alloc, names.stream)?;
    let Some(subject) = subject_in(alloc, names.rest)? else {
        return Ok(None);
    };
    Ok(Some(ScriptAct::Call(Call::Remove {
        client,
        stream,
        subject,
    })))
}

/// `status <client> <stream> <status>`: a client sets a stream's status.
pub(crate) fn status_line(alloc: Global, rest: &str) -> Result<Option<ScriptAct>, Memory>
    ensures { IfOk result (λ found. found ≡ option_and_then spec.status_line (names_cut rest.now)) }
{
    let Some(names) = names_in(rest) else {
        return Ok(None);
    };
    let Some(status) = status_in(names.rest) else {
        return Ok(None);
    };
    let client = Text::of(alloc, names.client)?;
    let stream = Text::of(alloc, names.stream)?;
    Ok(Some(ScriptAct::Call(Call::SetStatus {
        client,
        stream,
        status,
        reason: None,
    })))
}

/// `poll <client> <stream> <max>`: a client asks for tokens, and tells nothing.
pub(crate) fn poll_line(alloc: Global, rest: &str) -> Result<Option<ScriptAct>, Memory>
    ensures { IfOk result (λ found. found ≡ option_and_then spec.poll_line (names_cut rest.now)) }
{
    let Some(names) = names_in(rest) else {
        return Ok(None);
    };
    let Some(most) = number_in(names.rest) else {
        return Ok(None);
    };
    let client = Text::of(alloc, names.client)?;
    let stream = Text::of(alloc, names.stream)?;
    Ok(Some(ScriptAct::Call(Call::Poll {
        client,
        stream,
        ask: ask_for(alloc, most),
    })))
}

// It asks for so many tokens at most, and tells nothing.
fn ask_for(alloc: Global, most: u64) -> PollAsk
    ensures { result ≡ record { max = Some most; acks = []; errors = [] } }
{
    PollAsk {
        max: Some(most),
        acks: Items::of(Vec::new(alloc)),
        errors: Items::of(Vec::new(alloc)),
    }
}

/// `delete <client> <stream>`: a client deletes a stream.
pub(crate) fn delete_line(alloc: Global, rest: &str) -> Result<Option<ScriptAct>, Memory>
    ensures { IfOk result (λ found. found ≡ option_and_then spec.delete_line (client_cut rest.now)) }
{
    let Some(words) = client_in(rest) else {
        return Ok(None);
    };
    if !is_word(words.rest) {
        return Ok(None);
    }
    let client = Text::of(alloc, words.word)?;
    let stream = Text::of(alloc, words.rest)?;
    Ok(Some(ScriptAct::Call(Call::Delete { client, stream })))
}

/// `verify <client> <stream>`: a client asks for a verification.
pub(crate) fn verify_line(alloc: Global, rest: &str) -> Result<Option<ScriptAct>, Memory>
    ensures { IfOk result (λ found. found ≡ option_and_then spec.verify_line (client_cut rest.now)) }
{
    let Some(words) = client_in(rest) else {
        return Ok(None);
    };
    if !is_word(words.rest) {
        return Ok(None);
    }
    let client = Text::of(alloc, words.word)?;
    let stream = Text::of(alloc, words.rest)?;
    Ok(Some(ScriptAct::Call(Call::Verify {
        client,
        stream,
        state: None,
    })))
}

/// `operator <stream> <status>`: the operator sets a stream's status.
pub(crate) fn operator_line(alloc: Global, rest: &str) -> Result<Option<ScriptAct>, Memory>
    ensures { IfOk result (λ found. found ≡ option_and_then spec.operator_line (stream_cut rest.now)) }
{
    let Some(words) = stream_in(rest) else {
        return Ok(None);
    };
    let Some(status) = status_in(words.rest) else {
        return Ok(None);
    };
    let stream = Text::of(alloc, words.word)?;
    Ok(Some(ScriptAct::Call(Call::OperatorStatus {
        stream,
        status,
        reason: None,
    })))
}

/// `hand <stream>`: a round of pushes is handed tokens of a stream.
pub(crate) fn hand_line(alloc: Global, rest: &str) -> Result<Option<ScriptAct>, Memory>
    ensures { IfOk result (λ found. found ≡ spec.hand_line rest.now) }
{
    if !is_word(rest) {
        return Ok(None);
    }
    let mut streams = Vec::new(alloc);
    streams.push(Text::of(alloc, rest)?)?;
    let streams = Items::of(streams);
    Ok(Some(ScriptAct::Call(Call::Hand { streams })))
}
