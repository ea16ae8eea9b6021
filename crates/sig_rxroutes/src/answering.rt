//! From an answer to its response.

ghost use Rattle.std.specs.Prelude.{◌≡◌, IfOk, false};
ghost use Rattle.serde_json.specs.View.{view};
ghost use Rattle.serde_json.specs.Written.{has_float};
ghost use Rattle.sig_rxroutes.specs.Answers as spec;
ghost use Rattle.sig_rxroutes.specs.Documents as documents;

use crate::document::{rows_value, verdict_value};
use crate::metrics::figured;
use sig_delivery::coded;
use sig_http::{Response, empty, json};
use sig_json::{Bytes, Memory, Value, canon};
use sig_rxnode::RxAnswer;
use sig_sessions::{Row, Verdict};
use std::alloc::Global;

/// The response to an answer, which has one status: 202 without a body for a token that is valid, whether it is new or
/// was taken before (RFC 8935, section 2.2), 400 with its code for one that is refused (section 2.3), and 200 for what is
/// told of the session table and the figures. It leaves the link open, and no cache may keep it. Out of memory is the only error.
pub fn response_of(alloc: Global, answer: &RxAnswer) -> Result<Response, Memory>
    ensures { IfOk result (λ response. response ≡ spec.reply answer.now) }
{
    match answer {
        RxAnswer::Accepted | RxAnswer::Seen => empty(alloc, 202),
        RxAnswer::Refused { code, spot } => coded(alloc, code, spot),
        RxAnswer::Verdict(verdict) => judged(alloc, verdict),
        RxAnswer::Rows(rows) => listed(alloc, rows.as_slice()),
        RxAnswer::Figures { tokens, rows } => figured(alloc, *tokens, *rows),
    }
}

// What the session table says of a subject.
fn judged(alloc: Global, verdict: &Verdict) -> Result<Response, Memory>
    ensures { IfOk result (λ response. response ≡ spec.telling (documents.verdict_data verdict.now)) }
{
    let value = verdict_value(alloc, verdict)?;
    telling(alloc, &value)
}

// A page of the session table.
#[tactic(auto, using(crate::proofs::WholeRows::rows_whole))]
fn listed(alloc: Global, rows: &[Row]) -> Result<Response, Memory>
    ensures { IfOk result (λ response. response ≡ spec.telling (documents.rows_data rows.now)) }
{
    let value = rows_value(alloc, rows)?;
    telling(alloc, &value)
}

// The response that tells a value in which no fraction stands.
fn telling(alloc: Global, value: &Value) -> Result<Response, Memory>
    requires { has_float (view value.now) ≡ false }
    ensures { IfOk result (λ response. response ≡ spec.telling (view value.now)) }
{
    let text = canon(alloc, value)?;
    let body = Bytes::of(alloc, text.as_str().as_bytes())?;
    json(alloc, 200, body)
}
