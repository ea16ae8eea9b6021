ghost use Rattle.std.specs.Prelude.{◌≡◌, IfOk};
ghost use Rattle.sig_receiver.specs.Printed.{answer_text, counts_text, known_text, level_text, printed_subject, row_text, yes_or_no};

use crate::Heard;
use sig_json::{Listed, Memory, Text, Value, canon, canon_or_null};
use sig_sessions::Row;
use sig_subject::{Subject, to_json};
use std::alloc::Global;

/// The line of the answer to the token at a line of the input, numbered from 1. Out of memory is its only error.
pub fn answer_line(alloc: Global, number: u64, heard: &Heard) -> Result<Text, Memory>
    ensures { IfOk result (λ text. text ≡ answer_text number heard.now) }
{
    let line = match heard {
        Heard::Accepted => format!(in alloc; "{number} accepted\n")?,
        Heard::Seen => format!(in alloc; "{number} seen\n")?,
        Heard::NotTaken { code, spot } => {
            let code = code.as_str();
            let spot = spot.as_str();
            format!(in alloc; "{number} refused {code} {spot}\n")?
        }
    };
    Ok(Text::from_string(line))
}

/// The line of the row at a place, counted from 1. A subject that holds a value with a fraction, which no token that was
/// read can have, is printed as null. Out of memory is its only error.
pub fn row_line(alloc: Global, place: u64, row: &Row) -> Result<Text, Memory>
    ensures { IfOk result (λ text. text ≡ row_text place row.now) }
{
    let subject = subject_text(alloc, &row.subject)?;
    let subject = subject.as_str();
    let known = known_line(alloc, row)?;
    let known = known.as_str();
    Ok(Text::from_string(format!(in alloc; "row {place} {subject}{known}")?))
}

// What is known of a row, to the end of its line.
fn known_line(alloc: Global, row: &Row) -> Result<Text, Memory>
    ensures { IfOk result (λ text. text ≡ known_text row.now) }
{
    let session = row.session.as_str();
    let account = row.account.as_str();
    let device = row.device.as_str();
    let reset = yes_or_no(row.reset);
    let stale = yes_or_no(row.stale);
    let opt = row.opt.as_str();
    let level = level_text(alloc, &row.level)?;
    let level = level.as_str();
    let states = format!(in alloc; " session={session} account={account} device={device}")?;
    let states = states.as_str();
    let line = format!(in alloc; "{states} reset={reset} stale={stale} opt={opt} level={level}\n")?;
    Ok(Text::from_string(line))
}

fn yes_or_no(yes: bool) -> &'static str
    ensures { result.now ≡ yes_or_no yes }
{
    if yes { "yes" } else { "no" }
}

// A level as a JSON string, and a hyphen where there is none.
fn level_text(alloc: Global, level: &Option<Text>) -> Result<Text, Memory>
    ensures { IfOk result (λ text. text ≡ level_text level.now) }
{
    match level {
        None => Text::of(alloc, "-"),
        Some(level) => canon(
            alloc,
            &Value::String(String::from_str(alloc, level.as_str())?),
        ),
    }
}

// The JSON text of a subject; no fraction stands in one that was read.
fn subject_text(alloc: Global, subject: &Subject) -> Result<Text, Memory>
    ensures { IfOk result (λ text. text ≡ printed_subject subject.now) }
{
    let value = to_json(alloc, subject)?;
    canon_or_null(alloc, &value)
}

/// The last line: how many rows there are, and how many distinct tokens were taken. Out of memory is its only error.
pub fn counts_line(alloc: Global, rows: usize, tokens: u64) -> Result<Text, Memory>
    ensures { IfOk result (λ text. text ≡ counts_text rows tokens) }
{
    let line = format!(in alloc; "rows {rows} tokens {tokens}\n")?;
    Ok(Text::from_string(line))
}
