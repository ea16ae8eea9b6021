//! What the lines of a script print.

ghost use Rattle.std.specs.Prelude.{◌≡◌, ◌++◌, ◌+◌, ◌<◌, ◌≤◌, IfOk, OnOk, codes, decimal, length, string_bytes};
ghost use Rattle.sig_event.specs.Status.{status_text};
ghost use Rattle.sig_receiver.specs.Printed.{yes_or_no};
ghost use Rattle.sig_schedules.specs.Replay.{call_text, handed_text, heard_text, heard_word, issued_text, kept_word, messages_text, notice_text, numbered, sets_text, token_name, verdict_word};

use sig_event::Status;
use sig_json::{Bytes, Items, Listed, Memory, Text};
use sig_receiver::Heard;
use sig_terms::{Answer, Issued, Token};
use std::alloc::Global;

/// Adds what the transmitter's answer prints, after so many messages.
pub(crate) fn add_call(
    alloc: Global,
    text: &mut Bytes,
    number: u64,
    before: u64,
    answer: &Answer,
) -> Result<(), Memory>
    requires { before < 9223372036854775808 }
    ensures { OnOk result (text.new ≡ text.old ++ call_text number before answer.now) }
{
    match answer {
        Answer::Meta
        | Answer::Confs { .. }
        | Answer::Standings { .. }
        | Answer::Refused { .. }
        | Answer::Figures { .. }
        | Answer::Delivering { .. } => Ok(()),
        Answer::Made { conf } => add_two(alloc, text, number, "made ", conf.stream.as_str()),
        Answer::Conf { conf } => add_two(alloc, text, number, "conf ", conf.stream.as_str()),
        Answer::Gone => add_line(alloc, text, number, "gone"),
        Answer::State {
            stream,
            status,
            reason: _,
            token,
        } => add_state(alloc, text, number, stream, *status, *token),
        Answer::Added => add_line(alloc, text, number, "added"),
        Answer::Removed => add_line(alloc, text, number, "removed"),
        Answer::Asked {
            stream,
            number: made,
        } => add_named(alloc, text, number, "asked ", stream.as_str(), *made),
        Answer::Sets { tokens, more } => add_sets(alloc, text, number, before, tokens, *more),
        Answer::Published { tokens, .. } => add_published(alloc, text, number, tokens),
        Answer::Handed { tokens } => add_handed(alloc, text, number, before, tokens),
        Answer::Settled { count } => add_count(alloc, text, number, "settled ", *count),
        Answer::NotFound => add_line(alloc, text, number, "not-found"),
        Answer::TooMany => add_line(alloc, text, number, "too-many"),
        Answer::Conflict => add_line(alloc, text, number, "conflict"),
        Answer::Disabled => add_line(alloc, text, number, "disabled"),
        Answer::Early { until } => add_count(alloc, text, number, "early ", *until),
        Answer::Long { size } => add_count(alloc, text, number, "long ", *size),
    }
}

/// Adds what another time prints.
pub(crate) fn add_time(
    alloc: Global,
    text: &mut Bytes,
    number: u64,
    time: u64,
) -> Result<(), Memory>
    ensures { OnOk result (text.new ≡ text.old ++ numbered number (codes "time " ++ decimal time)) }
{
    add_count(alloc, text, number, "time ", time)
}

/// Adds whether a subject may go on.
pub(crate) fn add_verdict(
    alloc: Global,
    text: &mut Bytes,
    number: u64,
    allow: bool,
) -> Result<(), Memory>
    ensures { OnOk result (text.new ≡ text.old ++ numbered number (verdict_word allow)) }
{
    add_line(alloc, text, number, verdict_for(allow))
}

/// Adds that a node was loaded again.
pub(crate) fn add_loaded(alloc: Global, text: &mut Bytes, number: u64) -> Result<(), Memory>
    ensures { OnOk result (text.new ≡ text.old ++ numbered number (codes "loaded")) }
{
    add_line(alloc, text, number, "loaded")
}

/// Adds whether what an end was to keep stands in its store.
pub(crate) fn add_halted(
    alloc: Global,
    text: &mut Bytes,
    number: u64,
    kept: bool,
) -> Result<(), Memory>
    ensures { OnOk result (text.new ≡ text.old ++ numbered number (kept_word kept)) }
{
    add_line(alloc, text, number, word_kept(kept))
}

fn word_kept(kept: bool) -> &'static str
    ensures { result.now ≡ kept_word kept }
{
    if kept { "kept" } else { "lost" }
}

/// Adds what the receiver's answer prints, after so many answers.
pub(crate) fn add_heard(
    alloc: Global,
    text: &mut Bytes,
    number: u64,
    before: u64,
    heard: Heard,
) -> Result<(), Memory>
    requires { before < 9223372036854775808 }
    ensures { OnOk result (text.new ≡ text.old ++ heard_text number before heard) }
{
    let place = before + 1;
    let word = word_of(alloc, heard)?;
    let line = format!(in alloc; "{number} {word} a{place}\n")?;
    text.add(line.as_bytes())
}

fn word_of(alloc: Global, heard: Heard) -> Result<String, Memory>
    ensures { IfOk result (λ word. string_bytes word ≡ heard_word heard) }
{
    Ok(match heard {
        Heard::Accepted => String::from_str(alloc, "accepted")?,
        Heard::Seen => String::from_str(alloc, "seen")?,
        Heard::NotTaken { code, spot } => {
            let code = code.as_str();
            let spot = spot.as_str();
            format!(in alloc; "refused {code} {spot}")?
        }
    })
}

fn add_line(alloc: Global, text: &mut Bytes, number: u64, words: &str) -> Result<(), Memory>
    ensures { OnOk result (text.new ≡ text.old ++ numbered number words.now) }
{
    let line = format!(in alloc; "{number} {words}\n")?;
    text.add(line.as_bytes())
}

fn add_two(
    alloc: Global,
    text: &mut Bytes,
    number: u64,
    words: &str,
    more: &str,
) -> Result<(), Memory>
    ensures { OnOk result (text.new ≡ text.old ++ numbered number (words.now ++ more.now)) }
{
    let line = format!(in alloc; "{number} {words}{more}\n")?;
    text.add(line.as_bytes())
}

fn add_count(
    alloc: Global,
    text: &mut Bytes,
    number: u64,
    words: &str,
    count: u64,
) -> Result<(), Memory>
    ensures { OnOk result (text.new ≡ text.old ++ numbered number (words.now ++ decimal count)) }
{
    let line = format!(in alloc; "{number} {words}{count}\n")?;
    text.add(line.as_bytes())
}

fn add_published(
    alloc: Global,
    text: &mut Bytes,
    number: u64,
    tokens: &Items<Issued>,
) -> Result<(), Memory>
    ensures { OnOk result (text.new ≡ text.old ++ (numbered number (codes "published " ++ decimal (length tokens.now)) ++ issued_text number tokens.now)) }
{
    add_count(
        alloc,
        text,
        number,
        "published ",
        tokens.as_slice().len() as u64,
    )?;
    add_issued(alloc, text, number, tokens.as_slice())
}

fn add_issued(alloc: Global, text: &mut Bytes, number: u64, tokens: &[Issued]) -> Result<(), Memory>
    ensures { OnOk result (text.new ≡ text.old ++ issued_text number tokens.now) }
{
    for token in tokens {
        add_token(alloc, text, number, token)?;
    }
    Ok(())
}

fn add_token(alloc: Global, text: &mut Bytes, number: u64, token: &Issued) -> Result<(), Memory>
    ensures { OnOk result (text.new ≡ text.old ++ numbered number (codes "token " ++ token_name token.now.stream token.now.number)) }
{
    add_named(
        alloc,
        text,
        number,
        "token ",
        token.stream.as_str(),
        token.number,
    )
}

// Adds words and a token by its stream and number.
fn add_named(
    alloc: Global,
    text: &mut Bytes,
    number: u64,
    words: &str,
    stream: &str,
    made: u64,
) -> Result<(), Memory>
    ensures { OnOk result (text.new ≡ text.old ++ numbered number (words.now ++ token_name stream.now made)) }
{
    let line = format!(in alloc; "{number} {words}{stream}.{made}\n")?;
    text.add(line.as_bytes())
}

// Adds a stream's status, and the notice that was made of it.
fn add_state(
    alloc: Global,
    text: &mut Bytes,
    number: u64,
    stream: &Text,
    status: Status,
    token: Option<u64>,
) -> Result<(), Memory>
    ensures { OnOk result (text.new ≡ text.old ++ numbered number (codes "state " ++ stream.now ++ codes " " ++ status_text status ++ notice_text token)) }
{
    let line = state_line(alloc, number, stream.as_str(), status.as_str(), token)?;
    text.add(line.as_bytes())
}

fn state_line(
    alloc: Global,
    number: u64,
    stream: &str,
    status: &str,
    token: Option<u64>,
) -> Result<String, Memory>
    ensures { IfOk result (λ line. string_bytes line ≡ numbered number (codes "state " ++ stream.now ++ codes " " ++ status.now ++ notice_text token)) }
{
    Ok(match token {
        None => format!(in alloc; "{number} state {stream} {status}\n")?,
        Some(made) => format!(in alloc; "{number} state {stream} {status} token {made}\n")?,
    })
}

fn add_sets(
    alloc: Global,
    text: &mut Bytes,
    number: u64,
    before: u64,
    tokens: &Items<Token>,
    more: bool,
) -> Result<(), Memory>
    requires { before < 9223372036854775808 }
    ensures { OnOk result (text.new ≡ text.old ++ sets_text number (before + 1) tokens.now more) }
{
    let count = tokens.as_slice().len();
    let further = word_for(more);
    let line = format!(in alloc; "{number} sets {count} more {further}\n")?;
    text.add(line.as_bytes())?;
    add_messages(alloc, text, number, before + 1, tokens.as_slice())
}

fn add_handed(
    alloc: Global,
    text: &mut Bytes,
    number: u64,
    before: u64,
    tokens: &Items<Token>,
) -> Result<(), Memory>
    requires { before < 9223372036854775808 }
    ensures { OnOk result (text.new ≡ text.old ++ handed_text number (before + 1) tokens.now) }
{
    add_count(
        alloc,
        text,
        number,
        "handed ",
        tokens.as_slice().len() as u64,
    )?;
    add_messages(alloc, text, number, before + 1, tokens.as_slice())
}

fn verdict_for(allow: bool) -> &'static str
    ensures { result.now ≡ verdict_word allow }
{
    if allow { "allow" } else { "deny" }
}

fn word_for(more: bool) -> &'static str
    ensures { result.now ≡ yes_or_no more }
{
    if more { "yes" } else { "no" }
}

// Adds the lines of messages, counted from here on.
fn add_messages(
    alloc: Global,
    text: &mut Bytes,
    number: u64,
    first: u64,
    tokens: &[Token],
) -> Result<(), Memory>
    requires { first ≤ 9223372036854775808 }
    ensures { OnOk result (text.new ≡ text.old ++ messages_text number first tokens.now) }
{
    let mut place = first;
    for token in tokens {
        add_message(alloc, text, number, place, token)?;
        place += 1;
    }
    Ok(())
}

fn add_message(
    alloc: Global,
    text: &mut Bytes,
    number: u64,
    place: u64,
    token: &Token,
) -> Result<(), Memory>
    ensures { OnOk result (text.new ≡ text.old ++ numbered number (codes "m" ++ decimal place ++ codes " " ++ token_name token.now.stream token.now.number)) }
{
    let stream = token.stream.as_str();
    let made = token.number;
    let line = format!(in alloc; "{number} m{place} {stream}.{made}\n")?;
    text.add(line.as_bytes())
}
