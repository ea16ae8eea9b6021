ghost use Rattle.std.specs.Prelude.{◌≡◌, IfOk, bytes_eq, option_and_then};
ghost use Rattle.uuid.specs.Text.{hyphenated_text, lower, parsed};
ghost use Rattle.sig_accounts.specs.PublishIds as spec;

use crate::shared_name::SharedName;
use sig_json::{Copied, Memory, Same, Text};
use std::alloc::Global;
use std::hash::{DefaultHasher, Hasher};
use std::marker::Model;
use uuid::Uuid;

/// The id of a publication. One that is a UUID in lower case with hyphens (RFC 9562, section 4) is held as its 16 bytes, any
/// other as it is. Contracts see its text.
#[derive(Drop)]
pub struct PublishId {
    form: Form,
}

/// How an id is held.
#[derive(Drop)]
pub enum Form {
    /// The bytes of a UUID.
    Uuid {
        /// The bytes.
        bytes: [u8; 16],
    },
    /// The text itself.
    Other {
        /// The text.
        text: SharedName,
    },
}

impl Model for PublishId {
    ghost use Rattle.std.specs.Prelude.{ℕ, List};
    ghost use Rattle.sig_accounts.specs.PublishIds.{text_of};

    ghost Value = { List ℕ };

    ghost view = { λ p. text_of p.form };
}

impl PublishId {
    /// The id of this text.
    pub fn of(alloc: Global, text: &str) -> Result<PublishId, Memory>
        ensures { IfOk result (λ id. id ≡ text.now) }
    {
        Ok(PublishId {
            form: form_of(alloc, text)?,
        })
    }

    /// Its text.
    pub fn text(&self, alloc: Global) -> Result<Text, Memory>
        ensures { IfOk result (λ text. text ≡ self.now) }
    {
        match &self.form {
            Form::Uuid { bytes } => uuid_text(alloc, *bytes),
            Form::Other { text } => text.text().copy(alloc),
        }
    }

    /// Whether its text is this one. It takes no memory.
    pub fn is(&self, text: &str) -> bool
        ensures { result ≡ bytes_eq self.now text.now }
    {
        match &self.form {
            Form::Uuid { bytes } => is_text_of(*bytes, text),
            Form::Other { text: kept } => kept.text().as_str() == text,
        }
    }
}

impl Copied for PublishId {
    // The copy of a text shares it.
    fn copied(&self, _alloc: Global) -> Result<PublishId, Memory> {
        let form = match &self.form {
            Form::Uuid { bytes } => Form::Uuid { bytes: *bytes },
            Form::Other { text } => Form::Other {
                text: text.share()?,
            },
        };
        Ok(PublishId { form })
    }
}

impl Same for PublishId {
    fn same(&self, other: &PublishId) -> bool {
        match &self.form {
            Form::Uuid { bytes } => {
                let mut buffer = Uuid::encode_buffer();
                let text = Uuid::from_bytes(*bytes)
                    .hyphenated()
                    .encode_lower(&mut buffer);
                other.is(text)
            }
            Form::Other { text } => other.is(text.text().as_str()),
        }
    }
}

/// The number under which an id of this text is looked for. It takes no memory.
pub(crate) fn digest_of(text: &str) -> u64
    ensures { result ≡ spec.digest_of text.now }
{
    let mut hasher = DefaultHasher::new();
    hasher.write(text.as_bytes());
    hasher.finish()
}

// How an id of this text is held.
fn form_of(alloc: Global, text: &str) -> Result<Form, Memory>
    ensures { IfOk result (λ form. spec.text_of form ≡ text.now) }
{
    match uuid_of(text) {
        Some(bytes) => Ok(Form::Uuid { bytes }),
        None => {
            let text = Text::of(alloc, text)?;
            let text = SharedName::of(alloc, text)?;
            Ok(Form::Other { text })
        }
    }
}

// The bytes of the UUID that a text is in lower case with hyphens; none where it is another text.
fn uuid_of(text: &str) -> Option<[u8; 16]>
    ensures { result ≡ spec.uuid_of text.now }
{
    match Uuid::parse_str(text) {
        Ok(id) => written_as(text, id.into_bytes()),
        Err(_) => None,
    }
}

// These bytes, where the text is theirs.
fn written_as(text: &str, bytes: [u8; 16]) -> Option<[u8; 16]>
    ensures { result ≡ spec.written_as text.now bytes }
{
    if is_text_of(bytes, text) {
        Some(bytes)
    } else {
        None
    }
}

// The text of these bytes, in lower case with hyphens.
fn uuid_text(alloc: Global, bytes: [u8; 16]) -> Result<Text, Memory>
    ensures { IfOk result (λ text. text ≡ hyphenated_text lower bytes) }
{
    let mut buffer = Uuid::encode_buffer();
    let written: &str = Uuid::from_bytes(bytes)
        .hyphenated()
        .encode_lower(&mut buffer);
    Text::of(alloc, written)
}

// Whether a text is that of these bytes, in lower case with hyphens.
fn is_text_of(bytes: [u8; 16], text: &str) -> bool
    ensures { result ≡ bytes_eq (hyphenated_text lower bytes) text.now }
{
    let mut buffer = Uuid::encode_buffer();
    let written: &str = Uuid::from_bytes(bytes)
        .hyphenated()
        .encode_lower(&mut buffer);
    written == text
}
