//! What a tick prints: a line for each of its attempts.

ghost use Rattle.std.specs.Prelude.{◌≡◌, ◌++◌, IfOk, OnOk, string_bytes};
ghost use Rattle.sig_ticking.specs.Texts as spec;
ghost use Rattle.sig_ticking.specs.Texts.{attempt_line, attempts_text, outcome_word};

use sig_courier::Attempt;
use sig_json::{Bytes, Memory};
use std::alloc::Global;

/// The text of these attempts of the tick of a number.
pub fn text_of(alloc: Global, number: u64, attempts: &[Attempt]) -> Result<Bytes, Memory>
    ensures { IfOk result (λ text. text ≡ attempts_text number attempts.now) }
{
    let mut text = Bytes::new(alloc);
    for attempt in attempts {
        add_attempt(alloc, number, attempt, &mut text)?;
    }
    Ok(text)
}

// Adds the line of an attempt.
fn add_attempt(
    alloc: Global,
    number: u64,
    attempt: &Attempt,
    text: &mut Bytes,
) -> Result<(), Memory>
    ensures { OnOk result (text.new ≡ text.old ++ attempt_line number attempt.now) }
{
    let line = line_of(
        alloc,
        number,
        attempt.stream.as_str(),
        attempt.tokens,
        word_of(attempt.good),
    )?;
    text.add(line.as_bytes())
}

// The line of an attempt of this stream, with so many tokens and this outcome.
fn line_of(
    alloc: Global,
    number: u64,
    stream: &str,
    tokens: u64,
    outcome: &str,
) -> Result<String, Memory>
    ensures { IfOk result (λ line. string_bytes line ≡ spec.line_by number stream.now tokens outcome.now) }
{
    Ok(format!(in alloc; "{number} {stream} {tokens} {outcome}\n")?)
}

// Whether an attempt was good, as it is printed.
fn word_of(good: bool) -> &'static str
    ensures { result.now ≡ outcome_word good }
{
    if good { "good" } else { "late" }
}
