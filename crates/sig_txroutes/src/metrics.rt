//! What metrics tell of the state, in Prometheus' text format 0.0.4.

ghost use Rattle.std.specs.Prelude.{◌≡◌, ◌++◌, IfOk, OnOk, flat_map, string_bytes};
ghost use Rattle.sig_calls.specs.Equality.{status_eq};
ghost use Rattle.sig_txroutes.specs.Metrics as spec;

use sig_counts::{put_line, put_value};
use sig_event::Status;
use sig_json::{Listed, Memory, Text};
use sig_terms::Standing;
use std::alloc::Global;

/// The metrics of a state in which so many publications and these streams stand. Out of memory is the only error.
#[tactic(auto, unfolding(crate::specs::Metrics::metrics_text))]
pub fn metrics_text(
    alloc: Global,
    publications: u64,
    standings: &[Standing],
) -> Result<Text, Memory>
    ensures { IfOk result (λ t. t ≡ spec.metrics_text publications standings.now) }
{
    let mut text = String::new(alloc);
    put_streams(&mut text, standings)?;
    put_publications(&mut text, publications)?;
    put_owed(&mut text, standings)?;
    put_oldest(&mut text, standings)?;
    put_made(&mut text, standings)?;
    Ok(Text::from_string(text))
}

// How many streams stand with each status.
fn put_streams(text: &mut String, standings: &[Standing]) -> Result<(), Memory>
    ensures { OnOk result (string_bytes text.new ≡ string_bytes text.old ++ spec.streams_part standings.now) }
{
    text.push_str(streams_head())?;
    put_status(text, Status::Enabled, standings)?;
    put_status(text, Status::Paused, standings)?;
    put_status(text, Status::Disabled, standings)
}

fn put_status(text: &mut String, status: Status, standings: &[Standing]) -> Result<(), Memory>
    ensures { OnOk result (string_bytes text.new ≡ string_bytes text.old ++ spec.status_line status standings.now) }
{
    let count = count_of(status, standings) as u64;
    put_line(text, streams_front(), status.as_str(), count)
}

// How many of the streams have this status.
fn count_of(status: Status, standings: &[Standing]) -> usize
    ensures { result ≡ spec.count_of status standings.now }
{
    let mut count = 0;
    for standing in standings {
        if is_same(standing.status, status) {
            count += 1;
        }
    }
    count
}

fn is_same(one: Status, two: Status) -> bool
    ensures { result ≡ status_eq one two }
{
    one == two
}

// How many publications stand.
fn put_publications(text: &mut String, publications: u64) -> Result<(), Memory>
    ensures { OnOk result (string_bytes text.new ≡ string_bytes text.old ++ spec.publications_part publications) }
{
    put_value(text, publications_head(), publications)
}

// How many tokens each stream owes.
fn put_owed(text: &mut String, standings: &[Standing]) -> Result<(), Memory>
    ensures { OnOk result (string_bytes text.new ≡ string_bytes text.old ++ spec.owed_part standings.now) }
{
    text.push_str(owed_head())?;
    put_owed_lines(text, standings)
}

fn put_owed_lines(text: &mut String, standings: &[Standing]) -> Result<(), Memory>
    ensures { OnOk result (string_bytes text.new ≡ string_bytes text.old ++ flat_map spec.owed_line standings.now) }
{
    for standing in standings {
        put_owed_line(text, standing)?;
    }
    Ok(())
}

fn put_owed_line(text: &mut String, standing: &Standing) -> Result<(), Memory>
    ensures { OnOk result (string_bytes text.new ≡ string_bytes text.old ++ spec.owed_line standing.now) }
{
    put_line(text, owed_front(), standing.stream.as_str(), standing.owed)
}

// Since when each stream owes a token, where it owes one.
fn put_oldest(text: &mut String, standings: &[Standing]) -> Result<(), Memory>
    ensures { OnOk result (string_bytes text.new ≡ string_bytes text.old ++ spec.oldest_part standings.now) }
{
    text.push_str(oldest_head())?;
    put_oldest_lines(text, standings)
}

fn put_oldest_lines(text: &mut String, standings: &[Standing]) -> Result<(), Memory>
    ensures { OnOk result (string_bytes text.new ≡ string_bytes text.old ++ flat_map spec.oldest_line standings.now) }
{
    for standing in standings {
        put_oldest_line(text, standing)?;
    }
    Ok(())
}

fn put_oldest_line(text: &mut String, standing: &Standing) -> Result<(), Memory>
    ensures { OnOk result (string_bytes text.new ≡ string_bytes text.old ++ spec.oldest_line standing.now) }
{
    match standing.oldest {
        None => Ok(()),
        Some(time) => {
            let front = oldest_front();
            put_line(text, front, standing.stream.as_str(), time)
        }
    }
}

// How many tokens were made for each stream.
fn put_made(text: &mut String, standings: &[Standing]) -> Result<(), Memory>
    ensures { OnOk result (string_bytes text.new ≡ string_bytes text.old ++ spec.made_part standings.now) }
{
    text.push_str(made_head())?;
    put_made_lines(text, standings)
}

fn put_made_lines(text: &mut String, standings: &[Standing]) -> Result<(), Memory>
    ensures { OnOk result (string_bytes text.new ≡ string_bytes text.old ++ flat_map spec.made_line standings.now) }
{
    for standing in standings {
        put_made_line(text, standing)?;
    }
    Ok(())
}

fn put_made_line(text: &mut String, standing: &Standing) -> Result<(), Memory>
    ensures { OnOk result (string_bytes text.new ≡ string_bytes text.old ++ spec.made_line standing.now) }
{
    put_line(text, made_front(), standing.stream.as_str(), standing.made)
}

// What opens each metric, and each line of a value. No other function reads these texts.

#[tactic(auto, unfolding(crate::specs::Metrics::streams_head))]
fn streams_head() -> &'static str
    ensures { result.now ≡ spec.streams_head }
{
    "# HELP signals_streams Streams that stand, by status.\n# TYPE signals_streams gauge\n"
}

#[tactic(auto, unfolding(crate::specs::Metrics::publications_head))]
fn publications_head() -> &'static str
    ensures { result.now ≡ spec.publications_head }
{
    "# HELP signals_publications_total Publications that stand.\n# TYPE signals_publications_total counter\nsignals_publications_total "
}

#[tactic(auto, unfolding(crate::specs::Metrics::owed_head))]
fn owed_head() -> &'static str
    ensures { result.now ≡ spec.owed_head }
{
    "# HELP signals_owed_tokens Tokens that a stream owes.\n# TYPE signals_owed_tokens gauge\n"
}

#[tactic(auto, unfolding(crate::specs::Metrics::oldest_head))]
fn oldest_head() -> &'static str
    ensures { result.now ≡ spec.oldest_head }
{
    "# HELP signals_oldest_owed_timestamp_seconds When the first token that a stream owes was made, in seconds since 1970.\n# TYPE signals_oldest_owed_timestamp_seconds gauge\n"
}

#[tactic(auto, unfolding(crate::specs::Metrics::made_head))]
fn made_head() -> &'static str
    ensures { result.now ≡ spec.made_head }
{
    "# HELP signals_made_tokens_total Tokens that were made for a stream.\n# TYPE signals_made_tokens_total counter\n"
}

#[tactic(auto, unfolding(crate::specs::Metrics::streams_front))]
fn streams_front() -> &'static str
    ensures { result.now ≡ spec.streams_front }
{
    "signals_streams{status=\""
}

#[tactic(auto, unfolding(crate::specs::Metrics::owed_front))]
fn owed_front() -> &'static str
    ensures { result.now ≡ spec.owed_front }
{
    "signals_owed_tokens{stream=\""
}

#[tactic(auto, unfolding(crate::specs::Metrics::oldest_front))]
fn oldest_front() -> &'static str
    ensures { result.now ≡ spec.oldest_front }
{
    "signals_oldest_owed_timestamp_seconds{stream=\""
}

#[tactic(auto, unfolding(crate::specs::Metrics::made_front))]
fn made_front() -> &'static str
    ensures { result.now ≡ spec.made_front }
{
    "signals_made_tokens_total{stream=\""
}
