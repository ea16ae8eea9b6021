ghost use Rattle.std.specs.Prelude.{◌≡◌, IfOk, IsUtf8, option_map};
ghost use Rattle.std.specs.List.{after_first, before_first};
ghost use Rattle.sig_http.specs.Message.{is_question_mark};
ghost use Rattle.sig_http.specs.Targets as spec;

use crate::values::is_word;
use sig_json::{Memory, Text};
use std::alloc::Global;

/// Whether a target has a fragment, which no request has (RFC 9112, section 3.2).
pub fn has_fragment(target: &[u8]) -> bool
    ensures { result ≡ spec.has_fragment target.now }
{
    target.contains(&b'#')
}

/// The parts of a target before and after its first `?`, of which the second is empty where there is none.
pub fn split_target(target: &[u8]) -> (&str, &str)
    requires { IsUtf8 target.now }
    ensures path { result.0.now ≡ before_first is_question_mark target.now }
    ensures query { result.1.now ≡ after_first is_question_mark target.now }
{
    let Ok(target) = str::from_utf8(target) else {
        // It is UTF-8.
        unreachable!()
    };
    match target.split_once('?') {
        Some(parts) => parts,
        None => (target, ""),
    }
}

/// The path of a target that ends before its first `?`: in the absolute form it follows the authority, and one that isn't
/// there is `/` (RFC 9112, section 3.2.2).
pub fn path_of(alloc: Global, target: &str) -> Result<Text, Memory>
    ensures { IfOk result (λ path. path ≡ spec.path_in target.now) }
{
    match after_scheme(target) {
        Some(rest) => slashed(alloc, at_slash(rest).1),
        None => Text::of(alloc, target),
    }
}

// A slash and this text.
fn slashed(alloc: Global, text: &str) -> Result<Text, Memory>
    ensures { IfOk result (λ path. path ≡ spec.slashed text.now) }
{
    let path = format!(in alloc; "/{text}")?;
    Ok(Text::from_string(path))
}

// What stands after `http://` or `https://`, in any case of its letters.
fn after_scheme(target: &str) -> Option<&str>
    ensures { option_map (λ v. v.now) result ≡ spec.after_scheme target.now }
{
    let (scheme, rest) = at_colon(target);
    if is_web(scheme.as_bytes()) {
        after_slashes(rest)
    } else {
        None
    }
}

// Whether this is one of the two schemes.
fn is_web(scheme: &[u8]) -> bool
    ensures { result ≡ spec.is_web scheme.now }
{
    is_word(scheme, "http") || is_word(scheme, "https")
}

// What follows two slashes at the start.
fn after_slashes(text: &str) -> Option<&str>
    ensures { option_map (λ v. v.now) result ≡ spec.after_slashes text.now }
{
    match after_slash(text) {
        Some(rest) => after_slash(rest),
        None => None,
    }
}

// What follows a slash at the start.
fn after_slash(text: &str) -> Option<&str>
    ensures { option_map (λ v. v.now) result ≡ spec.after_slash text.now }
{
    text.strip_prefix('/')
}

// The parts before and after the first `:`, of which the second is empty where there is none.
fn at_colon(text: &str) -> (&str, &str)
    ensures before { result.0.now ≡ before_first spec.is_colon text.now }
    ensures after { result.1.now ≡ after_first spec.is_colon text.now }
{
    match text.split_once(':') {
        Some(parts) => parts,
        None => (text, ""),
    }
}

// The same at the first `/`.
fn at_slash(text: &str) -> (&str, &str)
    ensures before { result.0.now ≡ before_first spec.is_slash text.now }
    ensures after { result.1.now ≡ after_first spec.is_slash text.now }
{
    match text.split_once('/') {
        Some(parts) => parts,
        None => (text, ""),
    }
}
