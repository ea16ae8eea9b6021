//! What metrics tell of the state, in Prometheus' text format 0.0.4.

ghost use Rattle.std.specs.Prelude.{◌≡◌, IfOk, string_bytes};
ghost use Rattle.sig_rxroutes.specs.Metrics as spec;

use sig_counts::{put_value, telling};
use sig_http::Response;
use sig_json::Memory;
use std::alloc::Global;

/// The response that tells the figures of a receiver, which took so many tokens and has so many rows of its session table, and
/// then what was counted, which is metrics in the same format. Out of memory is the only error.
pub fn figured_with(
    alloc: Global,
    tokens: u64,
    rows: u64,
    counted: &str,
) -> Result<Response, Memory>
    ensures { IfOk result (λ response. response ≡ spec.figured_with tokens rows counted.now) }
{
    let mut text = metrics_text(alloc, tokens, rows)?;
    text.push_str(counted)?;
    telling(alloc, text.as_str())
}

/// The response that tells the figures of a receiver alone. Out of memory is the only error.
pub fn figured(alloc: Global, tokens: u64, rows: u64) -> Result<Response, Memory>
    ensures { IfOk result (λ response. response ≡ spec.figured tokens rows) }
{
    let text = metrics_text(alloc, tokens, rows)?;
    telling(alloc, text.as_str())
}

// The metrics of a state in which so many tokens were taken and so many rows stand.
fn metrics_text(alloc: Global, tokens: u64, rows: u64) -> Result<String, Memory>
    ensures { IfOk result (λ text. string_bytes text ≡ spec.metrics_text tokens rows) }
{
    let mut text = String::new(alloc);
    put_value(&mut text, tokens_front(), tokens)?;
    put_value(&mut text, rows_front(), rows)?;
    Ok(text)
}

// What stands before each number. No other function reads these texts.

#[tactic(auto, unfolding(crate::specs::Metrics::tokens_front))]
fn tokens_front() -> &'static str
    ensures { result.now ≡ spec.tokens_front }
{
    "# HELP signals_tokens_total Tokens that were taken, each once.\n# TYPE signals_tokens_total counter\nsignals_tokens_total "
}

#[tactic(auto, unfolding(crate::specs::Metrics::rows_front))]
fn rows_front() -> &'static str
    ensures { result.now ≡ spec.rows_front }
{
    "# HELP signals_session_rows Rows of the session table.\n# TYPE signals_session_rows gauge\nsignals_session_rows "
}
