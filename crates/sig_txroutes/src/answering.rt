//! From an answer to its response.

ghost use Rattle.std.specs.Prelude.{◌≡◌, IfOk, false};
ghost use Rattle.serde_json.specs.View.{view};
ghost use Rattle.serde_json.specs.Written.{compact_text, has_float};
ghost use Rattle.sig_txroutes.specs.Answers as spec;
ghost use Rattle.sig_txroutes.specs.Documents as documents;
ghost use Rattle.sig_txroutes.specs.Metrics as metrics;

use crate::document::{confs_value, metadata, published_value, standings_value, status_value};
use crate::metrics::metrics_text;
use crate::refused::refused_value;
use crate::told_stream::{ToldStream, told_page};
use sig_counts::telling as telling_metrics;
use sig_delivery::{Token, write_sets};
use sig_event::Status;
use sig_http::{HttpRefusal, Response, empty, header, json, refusal_of};
use sig_json::{Bytes, Items, Memory, Text, Value, canon};
use sig_stream::conf_json;
use sig_terms::{Answer, Issued, RefusedToken, Rules, Standing, StreamConf};
use std::alloc::Global;

/// The response to an answer, which has one status: 200 for what was read, changed, published or added, 201 for a new
/// stream, 202 for a round of pushes that may begin, 204 where nothing is told, 404 where there is no such stream, 409
/// where it can't be so, 429 where it is too early, and 400 at `long` where a token would be too long. It leaves the link
/// open. A page of tokens is 200, signed by the key of the rules. Figures are 200, in Prometheus' text format. No cache may
/// keep it but what the transmitter offers. What a round of pushes is handed or settles is told to no request, and would be
/// 500. Out of memory is the only error.
pub fn response_of(alloc: Global, answer: &Answer, rules: &Rules) -> Result<Response, Memory>
    ensures { IfOk result (λ response. response ≡ spec.reply answer.now rules.now) }
{
    match answer {
        Answer::Meta => offered(alloc, rules),
        Answer::Made { conf } => configured(alloc, 201, conf, rules),
        Answer::Conf { conf } => configured(alloc, 200, conf, rules),
        Answer::Confs { confs } => all_configured(alloc, confs.as_slice(), rules),
        Answer::State {
            stream,
            status,
            reason,
            ..
        } => standing(alloc, stream, *status, reason),
        Answer::Published { store_id, tokens } => published(alloc, *store_id, tokens.as_slice()),
        Answer::Standings { next, standings } => listed(alloc, *next, standings.as_slice()),
        Answer::Refused { next, tokens } => reported(alloc, *next, tokens.as_slice()),
        Answer::Figures {
            publications,
            standings,
        } => figured(alloc, *publications, standings.as_slice()),
        Answer::Added => empty(alloc, 200),
        Answer::Delivering { .. } => empty(alloc, 202),
        Answer::Gone | Answer::Removed | Answer::Asked { .. } => empty(alloc, 204),
        Answer::NotFound => empty(alloc, 404),
        Answer::TooMany | Answer::Conflict | Answer::Disabled => empty(alloc, 409),
        Answer::Early { .. } => empty(alloc, 429),
        Answer::Long { .. } => refusal_of(alloc, &HttpRefusal::Bad(Text::of(alloc, "long")?)),
        Answer::Sets { tokens, more } => page(alloc, tokens, *more, rules),
        Answer::Handed { .. } | Answer::Settled { .. } => empty(alloc, 500),
    }
}

// What the transmitter offers, which a cache may keep.
#[tactic(auto, using(crate::proofs::WholeDocuments::metadata_whole))]
fn offered(alloc: Global, rules: &Rules) -> Result<Response, Memory>
    ensures { IfOk result (λ response. response ≡ spec.offering rules.now) }
{
    let value = metadata(alloc, rules)?;
    let body = text_of(alloc, &value)?;
    let mut headers = Vec::new(alloc);
    headers.push(header(alloc, "content-type", "application/json")?)?;
    Ok(Response {
        status: 200,
        headers: Items::of(headers),
        close: false,
        body,
    })
}

// The configuration of a stream.
#[tactic(auto, using(crate::proofs::WholeDocuments::conf_whole))]
fn configured(
    alloc: Global,
    status: u16,
    conf: &StreamConf,
    rules: &Rules,
) -> Result<Response, Memory>
    ensures { IfOk result (λ response. response ≡ spec.configured status conf.now rules.now) }
{
    let value = conf_json(alloc, conf, &rules.base)?;
    telling(alloc, status, &value)
}

// The configurations of all streams of a client.
#[tactic(auto, using(crate::proofs::WholeDocuments::confs_whole))]
fn all_configured(alloc: Global, confs: &[StreamConf], rules: &Rules) -> Result<Response, Memory>
    ensures { IfOk result (λ response. response ≡ spec.telling 200 (documents.confs_data confs.now rules.now.base)) }
{
    let value = confs_value(alloc, confs, &rules.base)?;
    telling(alloc, 200, &value)
}

// The status of a stream.
#[tactic(auto, using(crate::proofs::WholeDocuments::status_whole))]
fn standing(
    alloc: Global,
    stream: &Text,
    status: Status,
    reason: &Option<Text>,
) -> Result<Response, Memory>
    ensures { IfOk result (λ response. response ≡ spec.telling 200 (documents.status_data stream.now status reason.now)) }
{
    let value = status_value(alloc, stream, status, reason)?;
    telling(alloc, 200, &value)
}

// The tokens of a publication.
#[tactic(auto, using(crate::proofs::WholeDocuments::published_whole))]
fn published(alloc: Global, store_id: [u8; 16], tokens: &[Issued]) -> Result<Response, Memory>
    ensures { IfOk result (λ response. response ≡ spec.telling 200 (documents.published_data store_id tokens.now)) }
{
    let value = published_value(alloc, store_id, tokens)?;
    telling(alloc, 200, &value)
}

// How streams stand, and the place behind them.
#[tactic(auto, using(crate::proofs::WholeDocuments::standings_whole))]
fn listed(alloc: Global, next: u64, standings: &[Standing]) -> Result<Response, Memory>
    ensures { IfOk result (λ response. response ≡ spec.telling 200 (documents.standings_data next standings.now)) }
{
    let value = standings_value(alloc, next, standings)?;
    telling(alloc, 200, &value)
}

// Tokens that were reported as faulty, and the place behind them.
#[tactic(auto, using(crate::proofs::WholeDocuments::refused_whole))]
fn reported(alloc: Global, next: u64, tokens: &[RefusedToken]) -> Result<Response, Memory>
    ensures { IfOk result (λ response. response ≡ spec.telling 200 (documents.refused_data next tokens.now)) }
{
    let value = refused_value(alloc, next, tokens)?;
    telling(alloc, 200, &value)
}

/// The response that tells how streams stand, each with what came of the attempts to bring it its tokens, and the place behind
/// them. Out of memory is the only error.
pub fn listed_with(alloc: Global, next: u64, streams: &[ToldStream]) -> Result<Response, Memory>
    ensures { IfOk result (λ response. response ≡ spec.telling 200 (documents.told_page_data next streams.now)) }
{
    let value = told_page(alloc, next, streams)?;
    telling(alloc, 200, &value)
}

// The figures of the transmitter, in Prometheus' text format.
fn figured(alloc: Global, publications: u64, standings: &[Standing]) -> Result<Response, Memory>
    ensures { IfOk result (λ response. response ≡ metrics.figured publications standings.now) }
{
    let text = metrics_text(alloc, publications, standings)?;
    telling_metrics(alloc, text.as_str())
}

/// The response that tells the figures of the transmitter, in which so many publications and these streams stand, and then
/// what was counted, which is metrics in the same format. Out of memory is the only error.
pub fn figured_with(
    alloc: Global,
    publications: u64,
    standings: &[Standing],
    counted: &str,
) -> Result<Response, Memory>
    ensures { IfOk result (λ response. response ≡ metrics.figured_with publications standings.now counted.now) }
{
    let text = metrics_text(alloc, publications, standings)?;
    let mut all = String::from_str(alloc, text.as_str())?;
    all.push_str(counted)?;
    telling_metrics(alloc, all.as_str())
}

// The response that tells a value in which no fraction stands.
fn telling(alloc: Global, status: u16, value: &Value) -> Result<Response, Memory>
    requires { has_float (view value.now) ≡ false }
    ensures { IfOk result (λ response. response ≡ spec.telling status (view value.now)) }
{
    let body = text_of(alloc, value)?;
    json(alloc, status, body)
}

// The text of a value in which no fraction stands.
fn text_of(alloc: Global, value: &Value) -> Result<Bytes, Memory>
    requires { has_float (view value.now) ≡ false }
    ensures { IfOk result (λ text. text ≡ compact_text (view value.now)) }
{
    let text = canon(alloc, value)?;
    Bytes::of(alloc, text.as_str().as_bytes())
}

// A page of tokens, signed (RFC 8936, section 2.5).
fn page(alloc: Global, tokens: &Items<Token>, more: bool, rules: &Rules) -> Result<Response, Memory>
    ensures { IfOk result (λ response. response ≡ spec.page tokens.now more rules.now) }
{
    let body = write_sets(alloc, tokens, more, &rules.key)?;
    json(alloc, 200, body)
}
