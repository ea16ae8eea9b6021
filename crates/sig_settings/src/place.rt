//! Where a server listens, and where its gateway is.

ghost use Rattle.std.specs.Prelude.{◌≡◌, ◌++◌, IfOk, codes, string_bytes, option_and_then};
ghost use Rattle.std.specs.List.{list_any};
ghost use Rattle.serde_json.specs.Find.{as_str};
ghost use Rattle.serde_json.specs.View.{view};
ghost use Rattle.sig_stream.specs.Endpoints.{is_colon, is_slash};
ghost use Rattle.sig_settings.specs.Places as spec;

use crate::{SettingKind, ValueFault, found, itself};
use sig_json::{Memory, Value};
use sig_outside::Place;
use sig_stream::endpoint_of;
use std::alloc::Global;

/// The place that a text spells as a host, `:` and a port (RFC 3986, section 3.2); none exactly where it spells none.
///
/// Host and port are those of an endpoint's URL: one or more ASCII letters, digits, `.` and `-`, and from 1 to 65,535 in
/// decimal without leading zeros.
pub fn place_of(alloc: Global, text: &str) -> Result<Option<Place>, Memory>
    ensures { IfOk result (λ place. place ≡ spec.place_of text.now) }
{
    if !names_port(text.as_bytes()) {
        return Ok(None);
    }
    let url = url_of(alloc, text)?;
    match endpoint_of(alloc, url.as_str())? {
        Some(endpoint) => Ok(Some(endpoint.place)),
        None => Ok(None),
    }
}

// Whether a port stands in an authority that no path follows.
fn names_port(text: &[u8]) -> bool
    ensures { result ≡ spec.names_port text.now }
{
    text.contains(&b':') && !text.contains(&b'/')
}

fn url_of(alloc: Global, authority: &str) -> Result<String, Memory>
    ensures { IfOk result (λ url. string_bytes url ≡ codes "http://" ++ authority.now) }
{
    let mut url = String::from_str(alloc, "http://")?;
    url.push_str(authority)?;
    Ok(url)
}

/// A text that spells a place.
pub struct PlaceText;

impl SettingKind for PlaceText {
    type Kept = Place;

    ghost said = { spec.place_at };

    fn keep(alloc: Global, value: &Value) -> Result<Place, ValueFault> {
        match value.as_str() {
            Some(text) => found(alloc, place_of(alloc, text)?),
            None => Err(itself(alloc)),
        }
    }
}
