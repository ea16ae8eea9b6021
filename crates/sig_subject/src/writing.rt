ghost use Rattle.std.specs.Prelude.{◌≡◌, ◌∷◌, [], IfOk, OnOk, codes, map};
ghost use Rattle.serde_json.specs.Data.{array, put, string};
ghost use Rattle.serde_json.specs.View.{items_of, members_view, view};
ghost use Rattle.sig_subject.specs.Written.{of_format, part_data, plain_data, put_all, simple_data, subject_data};

use crate::{Member, Plain, Simple, Subject};
use serde_json::{Map, Value};
use sig_json::{Memory, Text, put_value, value_spelled};
use std::alloc::Global;

/// The object of the subject (RFC 9493, section 3.2; OpenID Shared Signals Framework 1.0, section 4). A subject of an
/// unknown format is written as the value that its text spells.
pub fn to_json(alloc: Global, subject: &Subject) -> Result<Value, Memory>
    ensures { IfOk result (λ v. view v ≡ subject_data subject.now) }
{
    match subject {
        Subject::Simple(simple) => simple_value(alloc, simple),
        Subject::Complex { members } => complex_value(alloc, members.as_slice()),
    }
}

fn complex_value(alloc: Global, parts: &[Member]) -> Result<Value, Memory>
    ensures { IfOk result (λ v. view v ≡ of_format (codes "complex") (map part_data parts.now)) }
{
    let mut members = Map::new(alloc);
    put_text(alloc, &mut members, "format", "complex")?;
    put_parts(alloc, &mut members, parts)?;
    Ok(Value::Object(members))
}

fn put_parts(
    alloc: Global,
    members: &mut Map<String, Value>,
    parts: &[Member],
) -> Result<(), Memory>
    ensures { OnOk result (members_view members.new.entries ≡ put_all (members_view members.old.entries) (map part_data parts.now)) }
{
    for part in parts {
        let value = simple_value(alloc, &part.simple)?;
        put_value(alloc, members, part.name.as_str(), value)?;
    }
    Ok(())
}

fn simple_value(alloc: Global, simple: &Simple) -> Result<Value, Memory>
    ensures { IfOk result (λ v. view v ≡ simple_data simple.now) }
{
    match simple {
        Simple::Plain(plain) => plain_value(alloc, plain),
        Simple::Aliases { identifiers } => aliases_value(alloc, identifiers.as_slice()),
    }
}

fn aliases_value(alloc: Global, identifiers: &[Plain]) -> Result<Value, Memory>
    ensures { IfOk result (λ v. view v ≡ of_format (codes "aliases") ((codes "identifiers", array (items_of (map plain_data identifiers.now))) ∷ [])) }
{
    let list = plain_values(alloc, identifiers)?;
    let mut members = Map::new(alloc);
    put_text(alloc, &mut members, "format", "aliases")?;
    put_value(alloc, &mut members, "identifiers", list)?;
    Ok(Value::Object(members))
}

fn plain_values(alloc: Global, identifiers: &[Plain]) -> Result<Value, Memory>
    ensures { IfOk result (λ v. view v ≡ array (items_of (map plain_data identifiers.now))) }
{
    let mut values = Vec::new(alloc);
    for identifier in identifiers {
        let value = plain_value(alloc, identifier)?;
        values.push(value)?;
    }
    Ok(Value::Array(values))
}

fn plain_value(alloc: Global, plain: &Plain) -> Result<Value, Memory>
    ensures { IfOk result (λ v. view v ≡ plain_data plain.now) }
{
    match plain {
        Plain::Account { uri } => one_text(alloc, "account", "uri", uri),
        Plain::Email { email } => one_text(alloc, "email", "email", email),
        Plain::IssSub { iss, sub } => two_texts(alloc, "iss_sub", ("iss", iss), ("sub", sub)),
        Plain::Opaque { id } => one_text(alloc, "opaque", "id", id),
        Plain::Phone { phone_number } => {
            one_text(alloc, "phone_number", "phone_number", phone_number)
        }
        Plain::Did { url } => one_text(alloc, "did", "url", url),
        Plain::Uri { uri } => one_text(alloc, "uri", "uri", uri),
        Plain::JwtId { iss, jti } => two_texts(alloc, "jwt_id", ("iss", iss), ("jti", jti)),
        Plain::Saml {
            issuer,
            assertion_id,
        } => two_texts(
            alloc,
            "saml_assertion_id",
            ("issuer", issuer),
            ("assertion_id", assertion_id),
        ),
        Plain::Unknown { canon } => value_spelled(alloc, canon),
    }
}

fn one_text(alloc: Global, format: &str, name: &str, text: &Text) -> Result<Value, Memory>
    ensures { IfOk result (λ v. view v ≡ of_format format.now ((name.now, string text.now) ∷ [])) }
{
    let mut members = Map::new(alloc);
    put_text(alloc, &mut members, "format", format)?;
    put_text(alloc, &mut members, name, text.as_str())?;
    Ok(Value::Object(members))
}

fn two_texts(
    alloc: Global,
    format: &str,
    one: (&str, &Text),
    two: (&str, &Text),
) -> Result<Value, Memory>
    ensures { IfOk result (λ v. view v ≡ of_format format.now ((one.entry.0.now, string one.entry.1.now) ∷ (two.entry.0.now, string two.entry.1.now) ∷ [])) }
{
    let mut members = Map::new(alloc);
    put_text(alloc, &mut members, "format", format)?;
    put_text(alloc, &mut members, one.0, one.1.as_str())?;
    put_text(alloc, &mut members, two.0, two.1.as_str())?;
    Ok(Value::Object(members))
}

fn put_text(
    alloc: Global,
    members: &mut Map<String, Value>,
    name: &str,
    text: &str,
) -> Result<(), Memory>
    ensures { OnOk result (members_view members.new.entries ≡ put name.now (string text.now) (members_view members.old.entries)) }
{
    let value = Value::String(String::from_str(alloc, text)?);
    put_value(alloc, members, name, value)
}
