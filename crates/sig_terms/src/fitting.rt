//! Which events and subjects a stream has (OpenID Shared Signals Framework 1.0, sections 7 and 8.1.1).

ghost use Rattle.std.specs.Prelude.{◌≡◌, bytes_eq};
ghost use Rattle.std.specs.List.{list_any};
ghost use Rattle.sig_subject.specs.Matching.{is_identical, is_matching};
ghost use Rattle.sig_terms.specs.Fitting as fitting;

use crate::{Defaults, StreamConf};
use sig_event::EventType;
use sig_json::{Items, Text};
use sig_subject::{Subject, identical, matches};

/// Whether a stream delivers events of a URI: it is that of a type that transmitters publish, and was asked for, or
/// nothing was. It takes no memory.
pub fn delivers(conf: &StreamConf, uri: &str) -> bool
    ensures { result ≡ fitting.delivers conf.now uri.now }
{
    is_published_uri(uri) && is_requested(uri, &conf.requested)
}

/// Whether a subject is one of a stream's, by its default subjects and its list: under none, where it matches a listed
/// subject; under all, where it is identical to none of them. It takes no memory.
pub fn fits(defaults: Defaults, listed: &Items<Subject>, subject: &Subject) -> bool
    ensures { result ≡ fitting.fits defaults listed.now subject.now }
{
    fits_listed(defaults, listed.as_slice(), subject)
}

/// The same, where the list is a slice.
pub fn fits_listed(defaults: Defaults, listed: &[Subject], subject: &Subject) -> bool
    ensures { result ≡ fitting.fits defaults listed.now subject.now }
{
    match defaults {
        Defaults::All => !lists_identical(listed, subject),
        Defaults::None => lists_matching(listed, subject),
    }
}

/// Whether it is the URI of a type that transmitters publish.
pub fn is_published_uri(uri: &str) -> bool
    ensures { result ≡ fitting.is_published_uri uri.now }
{
    EventType::of_uri(uri).is_some_and(|event_type| event_type.is_published())
}

/// Whether an event type was asked for; where none was named, all were.
pub fn is_requested(uri: &str, requested: &Option<Items<Text>>) -> bool
    ensures { result ≡ fitting.is_requested uri.now requested.now }
{
    match requested {
        None => true,
        Some(uris) => is_listed(uri, uris.as_slice()),
    }
}

fn is_listed(text: &str, texts: &[Text]) -> bool
    ensures { result ≡ list_any (bytes_eq text.now) texts.now }
{
    for other in texts {
        if text == other.as_str() {
            return true;
        }
    }
    false
}

fn lists_identical(listed: &[Subject], subject: &Subject) -> bool
    ensures { result ≡ list_any (is_identical subject.now) listed.now }
{
    for other in listed {
        if identical(subject, other) {
            return true;
        }
    }
    false
}

fn lists_matching(listed: &[Subject], subject: &Subject) -> bool
    ensures { result ≡ list_any (is_matching subject.now) listed.now }
{
    for other in listed {
        if matches(subject, other) {
            return true;
        }
    }
    false
}
