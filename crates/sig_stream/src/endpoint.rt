//! The URL of an endpoint (RFC 3986, section 3).

ghost use Rattle.std.specs.Prelude.{◌≡◌, IfOk, option_map};
ghost use Rattle.std.specs.Char.{is_ascii_graphic};
ghost use Rattle.std.specs.List.{before_first, list_all};
ghost use Rattle.sig_stream.specs.Endpoints as spec;

use sig_json::{Memory, Text};
use sig_outside::Place;
use sig_terms::Endpoint;
use std::alloc::Global;

/// The endpoint that a URL spells (RFC 8935, section 2; RFC 3986, section 3). None exactly where it spells none.
///
/// It is `http://` or `https://`, a host of one or more ASCII letters, digits, `.` and `-`, where it is given a `:` and
/// the port in decimal from 1 to 65,535 without leading zeros, and where it is given a path that begins with `/` and has
/// visible ASCII alone. The port is 80 for `http` and 443 for `https` where none is given, and the path `/`.
#[tactic(auto, unfolding(crate::specs::Endpoints::endpoint_of))]
pub fn endpoint_of(alloc: Global, url: &str) -> Result<Option<Endpoint>, Memory>
    ensures { IfOk result (λ e. e ≡ spec.endpoint_of url.now) }
{
    if let Some(rest) = url.strip_prefix("https://") {
        return endpoint_behind(alloc, true, rest);
    }
    match url.strip_prefix("http://") {
        Some(rest) => endpoint_behind(alloc, false, rest),
        None => Ok(None),
    }
}

// The endpoint of what stands after the scheme.
fn endpoint_behind(alloc: Global, secure: bool, rest: &str) -> Result<Option<Endpoint>, Memory>
    ensures { IfOk result (λ e. e ≡ spec.endpoint_behind (secure, rest.now)) }
{
    let (authority, path) = cut_at_path(rest);
    endpoint_at(alloc, secure, authority, path)
}

fn endpoint_at(
    alloc: Global,
    secure: bool,
    authority: &str,
    path: &str,
) -> Result<Option<Endpoint>, Memory>
    ensures { IfOk result (λ e. e ≡ spec.endpoint_at secure authority.now path.now) }
{
    let host = host_in(authority);
    if !is_host(host.as_bytes()) || !is_graphic(path.as_bytes()) {
        return Ok(None);
    }
    let Some(port) = port_in(secure, authority) else {
        return Ok(None);
    };
    let host = Text::of(alloc, host)?;
    let path = Text::of(alloc, path_in(path))?;
    Ok(Some(Endpoint {
        secure,
        place: Place { host, port },
        path,
    }))
}

// The text before the first slash, and from it on.
fn cut_at_path(text: &str) -> (&str, &str)
    ensures before { result.0.now ≡ before_first spec.is_slash text.now }
    ensures from { result.1.now ≡ spec.from_slash text.now }
{
    match text.find('/') {
        Some(at) => text.split_at(at),
        None => (text, ""),
    }
}

fn host_in(authority: &str) -> &str
    ensures { result.now ≡ before_first spec.is_colon authority.now }
{
    match authority.split_once(':') {
        Some((host, _)) => host,
        None => authority,
    }
}

fn port_in(secure: bool, authority: &str) -> Option<u16>
    ensures { result ≡ spec.port_in secure authority.now }
{
    match authority.split_once(':') {
        Some((_, port)) => number_in(port),
        None => Some(if secure { 443 } else { 80 }),
    }
}

fn path_in(text: &str) -> &str
    ensures { result.now ≡ spec.path_in text.now }
{
    if text.is_empty() {
        return "/";
    }
    text
}

// A number from 1 to 65,535, in decimal without leading zeros.
fn number_in(text: &str) -> Option<u16>
    ensures { result ≡ spec.number_in text.now }
{
    match text.as_bytes() {
        [first, ..] if *first > b'0' => text.parse::<u16>().ok(),
        _ => None,
    }
}

fn is_host(text: &[u8]) -> bool
    ensures { result ≡ spec.is_host text.now }
{
    !text.is_empty() && are_host_bytes(text)
}

fn are_host_bytes(text: &[u8]) -> bool
    ensures { result ≡ list_all spec.is_host_byte text.now }
{
    text.iter().all(|byte| byte.is_ascii_alphanumeric() || *byte == b'.' || *byte == b'-')
}

fn is_graphic(text: &[u8]) -> bool
    ensures { result ≡ list_all is_ascii_graphic text.now }
{
    text.iter().all(|byte| byte.is_ascii_graphic())
}
