//! What the JSON says that stands to the end of a line.

ghost use Rattle.std.specs.Prelude.{◌≡◌, IfOk};
ghost use Rattle.serde_json.specs.View.{view};
ghost use Rattle.sig_script.specs.Bodies as spec;

use sig_event::Status;
use sig_json::{JsonFault, Memory, Value, read, value_named};
use sig_stream::{PublishFault, WantFault, publish_of, want_of};
use sig_subject::{Subject, SubjectFault, from_json};
use sig_terms::{Call, Want};
use std::alloc::Global;

/// What is wanted of a stream (Shared Signals Framework 1.0, section 8.1.1). None exactly where the text is no want.
pub(crate) fn want_in(alloc: Global, text: &str) -> Result<Option<Want>, Memory>
    ensures { IfOk result (λ want. want ≡ spec.want_in text.now) }
{
    match read(alloc, text.as_bytes()) {
        Ok(body) => want_by(alloc, &body),
        Err(JsonFault::NotJson) => Ok(None),
        Err(JsonFault::Memory) => Err(Memory),
    }
}

fn want_by(alloc: Global, body: &Value) -> Result<Option<Want>, Memory>
    ensures { IfOk result (λ want. want ≡ spec.want_by (view body.now)) }
{
    match want_of(alloc, body, false) {
        Ok(want) => Ok(Some(want)),
        Err(WantFault::Memory) => Err(Memory),
        Err(_) => Ok(None),
    }
}

/// A subject (RFC 9493, section 3). None exactly where the text is none.
pub(crate) fn subject_in(alloc: Global, text: &str) -> Result<Option<Subject>, Memory>
    ensures { IfOk result (λ subject. subject ≡ spec.subject_in text.now) }
{
    match read(alloc, text.as_bytes()) {
        Ok(body) => subject_by(alloc, &body),
        Err(JsonFault::NotJson) => Ok(None),
        Err(JsonFault::Memory) => Err(Memory),
    }
}

fn subject_by(alloc: Global, body: &Value) -> Result<Option<Subject>, Memory>
    ensures { IfOk result (λ subject. subject ≡ spec.subject_by (view body.now)) }
{
    match from_json(alloc, body) {
        Ok(subject) => Ok(Some(subject)),
        Err(SubjectFault::Memory) => Err(Memory),
        Err(_) => Ok(None),
    }
}

/// A publication. None exactly where the text is none.
pub(crate) fn publication_in(alloc: Global, text: &str) -> Result<Option<Call>, Memory>
    ensures { IfOk result (λ call. call ≡ spec.publication_in text.now) }
{
    match read(alloc, text.as_bytes()) {
        Ok(body) => publication_by(alloc, &body),
        Err(JsonFault::NotJson) => Ok(None),
        Err(JsonFault::Memory) => Err(Memory),
    }
}

fn publication_by(alloc: Global, body: &Value) -> Result<Option<Call>, Memory>
    ensures { IfOk result (λ call. call ≡ spec.publication_by (view body.now)) }
{
    match publish_of(alloc, body) {
        Ok(call) => Ok(Some(call)),
        Err(PublishFault::Memory) => Err(Memory),
        Err(_) => Ok(None),
    }
}

/// The status that a word is (Shared Signals Framework 1.0, section 8.1.2). None exactly where it is none.
pub(crate) fn status_in(word: &str) -> Option<Status>
    ensures { result ≡ spec.status_of word.now }
{
    value_named(word)
}
