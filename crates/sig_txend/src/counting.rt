//! What a transmitter counts, and tells with its figures.

ghost use Rattle.std.specs.Prelude.{◌≡◌, ◌++◌, OnOk, flat_map, string_bytes};
ghost use Rattle.sig_txend.specs.Counting as spec;

use indexmap::IndexMap;
use sig_counts::{Counts, put_line, put_value};
use sig_courier::Late;
use sig_http::Request;
use sig_json::{Memory, Text};
use sig_link::LinkLog;
use sig_notes::end_word;
use sig_terms::{Answer, Call, Outcome};
use sig_txnode::Turn;
use sig_txroutes::row_for;

// The codes that a receiver may report (RFC 8935, section 2.4).
const CODES: [&str; 6] = [
    "invalid_request",
    "invalid_key",
    "invalid_issuer",
    "invalid_audience",
    "authentication_failed",
    "access_denied",
];

/// Counts a request that was answered with this status: by the route that it is for, where there is one.
pub fn count_request(counts: &mut Counts, request: &Request, status: u16) {
    match row_for(request.method.as_str(), request.path.as_str()) {
        Some(row) => counts.request(row.method, row.path, status),
        None => counts.request("other", "other", status),
    }
}

/// Counts how a link ended, and which tokens its polls reported as faulty.
pub fn count_link(counts: &mut Counts, log: &LinkLog<Turn>) {
    counts.link_ended(end_word(log.end));
    for turn in log.turns.as_slice() {
        if let (Call::Poll { ask, .. }, Ok(Answer::Sets { .. })) = (&turn.call, &turn.result) {
            for error in ask.errors.as_slice() {
                counts.token_reported(known(error.code.as_str()));
            }
        }
    }
}

/// Counts what the pushes of these turns came to, by which tokens were handed and settled: of those that were handed one push
/// at most had no answer, after which its round or attempt ended.
pub fn count_pushes(counts: &mut Counts, turns: &[Turn]) {
    let mut left: u64 = 0;
    for turn in turns {
        if let Ok(Answer::Handed { tokens }) = &turn.result {
            left = tokens.as_slice().len() as u64;
        }
        if let Call::Settle { outcome, .. } = &turn.call {
            left = left.saturating_sub(1);
            count_outcome(counts, outcome);
        }
    }
    if left > 0 {
        counts.pushed("unanswered");
    }
}

fn count_outcome(counts: &mut Counts, outcome: &Outcome) {
    match outcome {
        Outcome::Accepted => counts.pushed("accepted"),
        Outcome::Reported { code } => {
            counts.pushed("reported");
            counts.token_reported(known(code.as_str()));
        }
        Outcome::Keep => counts.pushed("kept"),
    }
}

// A code that is registered, as it is; and one word for all others, so that no receiver adds to the metrics.
fn known(code: &str) -> &'static str {
    for registered in CODES {
        if registered == code {
            return registered;
        }
    }
    "other"
}

/// Puts what was counted last, how many records and bytes the journal has, and how late each
/// stream is. Out of memory is the only error.
pub fn put_counted(
    text: &mut String,
    counts: &Counts,
    records: u64,
    bytes: u64,
    lates: &IndexMap<Text, Late>,
) -> Result<(), Memory>
    ensures { OnOk result (string_bytes text.new ≡ string_bytes text.old
        ++ spec.counted_text (record {
          figures = counts.now;
          records = records;
          bytes = bytes;
          lates = lates.now.entries;
        })) }
{
    counts.put(text)?;
    put_records(text, records)?;
    put_bytes(text, bytes)?;
    put_late(text, lates)?;
    put_due(text, lates)
}

fn put_records(text: &mut String, records: u64) -> Result<(), Memory>
    ensures { OnOk result (string_bytes text.new ≡ string_bytes text.old ++ spec.records_part records) }
{
    put_value(text, records_front(), records)
}

fn put_bytes(text: &mut String, bytes: u64) -> Result<(), Memory>
    ensures { OnOk result (string_bytes text.new ≡ string_bytes text.old ++ spec.bytes_part bytes) }
{
    put_value(text, bytes_front(), bytes)
}

// How many attempts of each late stream were late in a row.
fn put_late(text: &mut String, lates: &IndexMap<Text, Late>) -> Result<(), Memory>
    ensures { OnOk result (string_bytes text.new ≡ string_bytes text.old ++ spec.late_part lates.now.entries) }
{
    text.push_str(late_head())?;
    put_late_lines(text, lates)
}

// When each late stream is tried again.
fn put_due(text: &mut String, lates: &IndexMap<Text, Late>) -> Result<(), Memory>
    ensures { OnOk result (string_bytes text.new ≡ string_bytes text.old ++ spec.due_part lates.now.entries) }
{
    text.push_str(due_head())?;
    put_due_lines(text, lates)
}

fn put_late_lines(text: &mut String, lates: &IndexMap<Text, Late>) -> Result<(), Memory>
    ensures { OnOk result (string_bytes text.new ≡ string_bytes text.old ++ flat_map spec.late_line lates.now.entries) }
{
    for (stream, late) in lates.iter() {
        if late.row > 0 {
            put_line(text, late_front(), stream.as_str(), late.row)?;
        }
    }
    Ok(())
}

fn put_due_lines(text: &mut String, lates: &IndexMap<Text, Late>) -> Result<(), Memory>
    ensures { OnOk result (string_bytes text.new ≡ string_bytes text.old ++ flat_map spec.due_line lates.now.entries) }
{
    for (stream, late) in lates.iter() {
        if late.row > 0 {
            put_line(text, due_front(), stream.as_str(), late.due)?;
        }
    }
    Ok(())
}

// What opens each metric, and each line of a stream. No other function reads these texts.

#[tactic(auto, unfolding(crate::specs::Counting::records_front))]
fn records_front() -> &'static str
    ensures { result.now ≡ spec.records_front }
{
    "# HELP signals_journal_records Records of the journal.\n# TYPE signals_journal_records gauge\nsignals_journal_records "
}

#[tactic(auto, unfolding(crate::specs::Counting::bytes_front))]
fn bytes_front() -> &'static str
    ensures { result.now ≡ spec.bytes_front }
{
    "# HELP signals_store_bytes Bytes of the store's file in force.\n# TYPE signals_store_bytes gauge\nsignals_store_bytes "
}

#[tactic(auto, unfolding(crate::specs::Counting::late_head))]
fn late_head() -> &'static str
    ensures { result.now ≡ spec.late_head }
{
    "# HELP signals_push_late_attempts Late attempts in a row to bring a stream its tokens.\n# TYPE signals_push_late_attempts gauge\n"
}

#[tactic(auto, unfolding(crate::specs::Counting::late_front))]
fn late_front() -> &'static str
    ensures { result.now ≡ spec.late_front }
{
    "signals_push_late_attempts{stream=\""
}

#[tactic(auto, unfolding(crate::specs::Counting::due_head))]
fn due_head() -> &'static str
    ensures { result.now ≡ spec.due_head }
{
    "# HELP signals_push_due_timestamp_seconds When a late stream is tried again, in seconds since 1970.\n# TYPE signals_push_due_timestamp_seconds gauge\n"
}

#[tactic(auto, unfolding(crate::specs::Counting::due_front))]
fn due_front() -> &'static str
    ensures { result.now ≡ spec.due_front }
{
    "signals_push_due_timestamp_seconds{stream=\""
}
