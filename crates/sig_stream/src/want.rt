//! What a receiver wants of a stream (OpenID Shared Signals Framework 1.0, section 8.1.1).

ghost use Rattle.std.specs.Prelude.{◌≡◌, IfOk, codes, option_and_then};
ghost use Rattle.std.specs.List.{list_all, list_any};
ghost use Rattle.serde_json.specs.Find.{as_array};
ghost use Rattle.serde_json.specs.View.{items_view, view};
ghost use Rattle.sig_json.specs.Answers.{Answers};
ghost use Rattle.sig_json.specs.Json.{member_of};
ghost use Rattle.sig_stream.specs.Steps.{where_given};
ghost use Rattle.sig_stream.specs.Wants as spec;

use crate::limits::{AUTHORIZATION_BYTES, ENDPOINT_URL_BYTES};
use crate::{WantFault, endpoint_of};
use sig_json::{Items, Memory, Text, Value, text_of};
use sig_terms::{Delivery, Endpoint, Want};
use std::alloc::Global;

/// What a body wants of a stream; unknown members are passed over.
///
/// `Member` names the first member of another kind, in the order `body`, `delivery`, `authorization_header`,
/// `description`, `events_requested`: the body and `delivery` are objects, an `authorization_header` of delivery by push
/// is a text of at most 8,192 bytes, visible ASCII and spaces, `description` is a text, and `events_requested` a list of
/// texts, of which the empty one asks for nothing. Before the `authorization_header` come `Method`, exactly where the
/// delivery has a `method` that is neither URN, and `Endpoint`, exactly where delivery by push has no `endpoint_url` of at
/// most 2,048 bytes and without `#` that spells an endpoint, or an `https` one without a gateway. A delivery without
/// `method` is by poll, and one by poll has no more that is read.
#[tactic(auto, unfolding(crate::specs::Wants::want_of))]
pub fn want_of(alloc: Global, body: &Value, gateway: bool) -> Result<Want, WantFault>
    ensures { Answers WantFault.Memory result (spec.want_of gateway (view body.now)) }
{
    if !body.is_object() {
        return Err(WantFault::Member(Text::of(alloc, "body")?));
    }
    let delivery = delivery_in(alloc, body, gateway)?;
    let description = description_in(alloc, body)?;
    let requested = requested_in(alloc, body)?;
    Ok(Want {
        requested,
        delivery,
        description,
    })
}

fn delivery_in(alloc: Global, body: &Value, gateway: bool) -> Result<Option<Delivery>, WantFault>
    ensures { Answers WantFault.Memory result (where_given (spec.delivery_at gateway) (member_of (codes "delivery") (view body.now))) }
{
    match body.get("delivery") {
        Some(delivery) => Ok(Some(delivery_at(alloc, delivery, gateway)?)),
        None => Ok(None),
    }
}

fn delivery_at(alloc: Global, delivery: &Value, gateway: bool) -> Result<Delivery, WantFault>
    ensures { Answers WantFault.Memory result (spec.delivery_at gateway (view delivery.now)) }
{
    if !delivery.is_object() {
        return Err(WantFault::Member(Text::of(alloc, "delivery")?));
    }
    match delivery.get("method") {
        None => Ok(Delivery::Poll),
        Some(method) if is_text(method, "urn:ietf:rfc:8935") => push_of(alloc, delivery, gateway),
        Some(method) if is_text(method, "urn:ietf:rfc:8936") => Ok(Delivery::Poll),
        Some(_) => Err(WantFault::Method),
    }
}

fn is_text(value: &Value, text: &str) -> bool
    ensures { result ≡ spec.is_text text.now (view value.now) }
{
    match value.as_str() {
        Some(other) => text == other,
        None => false,
    }
}

fn push_of(alloc: Global, delivery: &Value, gateway: bool) -> Result<Delivery, WantFault>
    ensures { Answers WantFault.Memory result (spec.push_of gateway (view delivery.now)) }
{
    let Some(url) = text_of(delivery, "endpoint_url") else {
        return Err(WantFault::Endpoint);
    };
    let Some(endpoint) = reached(alloc, url, gateway)? else {
        return Err(WantFault::Endpoint);
    };
    let authorization = authorization_in(alloc, delivery)?;
    let url = Text::of(alloc, url)?;
    Ok(Delivery::Push {
        endpoint,
        url,
        authorization,
    })
}

// The endpoint that a URL spells, where it can be reached.
fn reached(alloc: Global, url: &str, gateway: bool) -> Result<Option<Endpoint>, Memory>
    ensures { IfOk result (λ e. e ≡ spec.reached gateway url.now) }
{
    match endpoint_in(alloc, url)? {
        Some(endpoint) if !endpoint.secure || gateway => Ok(Some(endpoint)),
        _ => Ok(None),
    }
}

// The endpoint that a URL spells, where a request may have it for its target.
fn endpoint_in(alloc: Global, url: &str) -> Result<Option<Endpoint>, Memory>
    ensures { IfOk result (λ e. e ≡ spec.endpoint_in url.now) }
{
    if is_endpoint_url(url.as_bytes()) {
        return endpoint_of(alloc, url);
    }
    Ok(None)
}

fn is_endpoint_url(url: &[u8]) -> bool
    ensures { result ≡ spec.is_endpoint_url url.now }
{
    url.len() <= ENDPOINT_URL_BYTES && !has_hash(url)
}

fn has_hash(url: &[u8]) -> bool
    ensures { result ≡ list_any spec.is_hash url.now }
{
    url.contains(&b'#')
}

fn authorization_in(alloc: Global, delivery: &Value) -> Result<Option<Text>, WantFault>
    ensures { Answers WantFault.Memory result
        (where_given (spec.field_at (codes "authorization_header")) (member_of (codes "authorization_header") (view delivery.now))) }
{
    match delivery.get("authorization_header") {
        Some(field) => Ok(Some(field_at(alloc, field, "authorization_header")?)),
        None => Ok(None),
    }
}

// The text of a field, which may be empty.
fn field_at(alloc: Global, value: &Value, name: &str) -> Result<Text, WantFault>
    ensures { Answers WantFault.Memory result (spec.field_at name.now (view value.now)) }
{
    match value.as_str() {
        Some(text) if is_field(text.as_bytes()) => Ok(Text::of(alloc, text)?),
        _ => Err(WantFault::Member(Text::of(alloc, name)?)),
    }
}

fn is_field(text: &[u8]) -> bool
    ensures { result ≡ spec.is_field text.now }
{
    text.len() <= AUTHORIZATION_BYTES && are_field_bytes(text)
}

fn are_field_bytes(text: &[u8]) -> bool
    ensures { result ≡ list_all spec.is_field_byte text.now }
{
    text.iter()
        .all(|byte| byte.is_ascii_graphic() || *byte == b' ')
}

fn description_in(alloc: Global, body: &Value) -> Result<Option<Text>, WantFault>
    ensures { Answers WantFault.Memory result (where_given (spec.text_at (codes "description")) (member_of (codes "description") (view body.now))) }
{
    match body.get("description") {
        Some(description) => Ok(Some(text_at(alloc, description, "description")?)),
        None => Ok(None),
    }
}

fn text_at(alloc: Global, value: &Value, name: &str) -> Result<Text, WantFault>
    ensures { Answers WantFault.Memory result (spec.text_at name.now (view value.now)) }
{
    match value.as_str() {
        Some(text) => Ok(Text::of(alloc, text)?),
        None => Err(WantFault::Member(Text::of(alloc, name)?)),
    }
}

fn requested_in(alloc: Global, body: &Value) -> Result<Option<Items<Text>>, WantFault>
    ensures { Answers WantFault.Memory result
        (where_given (spec.texts_at (codes "events_requested")) (member_of (codes "events_requested") (view body.now))) }
{
    match body.get("events_requested") {
        Some(requested) => Ok(Some(texts_at(alloc, requested, "events_requested")?)),
        None => Ok(None),
    }
}

fn texts_at(alloc: Global, value: &Value, name: &str) -> Result<Items<Text>, WantFault>
    ensures { Answers WantFault.Memory result (spec.texts_at name.now (view value.now)) }
{
    match texts_in(alloc, value)? {
        Some(texts) => Ok(texts),
        None => Err(WantFault::Member(Text::of(alloc, name)?)),
    }
}

fn texts_in(alloc: Global, value: &Value) -> Result<Option<Items<Text>>, Memory>
    ensures { IfOk result (λ texts. texts ≡ option_and_then spec.texts_of (as_array (view value.now))) }
{
    match value.as_array() {
        Some(items) => all_texts(alloc, items.as_slice()),
        None => Ok(None),
    }
}

// The texts of a list, where it has nothing else.
#[tactic(auto, using(crate::proofs::Collected::behind_nothing, crate::proofs::Collected::behind_all, crate::proofs::Collected::text_behind))]
fn all_texts(alloc: Global, items: &[Value]) -> Result<Option<Items<Text>>, Memory>
    ensures { IfOk result (λ texts. texts ≡ spec.texts_of (items_view items.now)) }
{
    let mut texts = Vec::new(alloc);
    for item in items {
        let Some(text) = item.as_str() else {
            return Ok(None);
        };
        texts.push(Text::of(alloc, text)?)?;
    }
    Ok(Some(Items::of(texts)))
}
