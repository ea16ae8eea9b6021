ghost use Rattle.std.specs.Prelude.{◌≡◌, ◌⊎◌, ◌∷◌, [], codes, map, not, option_map};
ghost use Rattle.serde_json.specs.Written.{compact_text, has_float};
ghost use Rattle.serde_json.specs.View.{view};
ghost use Rattle.sig_json.specs.Answers.{Answers};
ghost use Rattle.sig_json.specs.Checks.{check, first_failing, decided};
ghost use Rattle.sig_json.specs.Json.{text_member};
ghost use Rattle.sig_subject.specs.Formats.{field, format_in, formats};
ghost use Rattle.sig_subject.specs.Reading.{has_no_other, field_check, text_in, plain_checks, plain_by};

use crate::names::other_member;
use crate::{Format, Plain, PlainFormat, SubjectFault};
use serde_json::Value;
use sig_json::{Text, canon, has_fraction, text_of};
use std::alloc::Global;

/// The format that the value's `format` names. None exactly where the value is no object or its `format` is no text.
pub fn named_format(value: &Value) -> Option<Format>
    ensures { result ≡ option_map (λ n. format_in n formats) (text_member (codes "format") (view value.now)) }
{
    match text_of(value, "format") {
        Some(name) => Some(Format::named(name)),
        None => None,
    }
}

/// The fault at this member.
pub fn at_member(alloc: Global, name: &str) -> SubjectFault
    ensures { (result ≡ SubjectFault.Memory) ⊎ (result ≡ SubjectFault.Member name.now) }
{
    match Text::of(alloc, name) {
        Ok(name) => SubjectFault::Member(name),
        Err(_) => SubjectFault::Memory,
    }
}

// A required text: `Member` where it is missing, empty, or begins otherwise.
fn required(alloc: Global, value: &Value, name: &str, prefix: &str) -> Result<Text, SubjectFault>
    ensures { Answers SubjectFault.Memory result (decided (first_failing (field_check (view value.now) (field name.now prefix.now) ∷ [])) (text_in name.now (view value.now))) }
{
    match text_of(value, name) {
        Some(text) if !text.is_empty() && text.as_bytes().starts_with(prefix.as_bytes()) => {
            Ok(Text::of(alloc, text)?)
        }
        _ => Err(at_member(alloc, name)),
    }
}

/// `Member` with the first member, in byte order, that is neither `format` nor one of these.
pub fn only(alloc: Global, value: &Value, names: &[&str]) -> Result<(), SubjectFault>
    ensures { Answers SubjectFault.Memory result (decided (first_failing (has_no_other (map (λ n. n.now) names.now) (view value.now) ∷ [])) tt) }
{
    let Some(members) = value.as_object() else {
        return Ok(());
    };
    match other_member(members, names) {
        Some(other) => Err(at_member(alloc, other)),
        None => Ok(()),
    }
}

// The text of a format with one.
fn one_text(alloc: Global, value: &Value, name: &str, prefix: &str) -> Result<Text, SubjectFault>
    ensures { Answers SubjectFault.Memory result
        (decided (first_failing (field_check (view value.now) (field name.now prefix.now) ∷ has_no_other (name.now ∷ []) (view value.now) ∷ [])) (text_in name.now (view value.now))) }
{
    let text = required(alloc, value, name, prefix)?;
    only(alloc, value, &[name])?;
    Ok(text)
}

// The texts of a format with two.
fn two_texts(
    alloc: Global,
    value: &Value,
    one: &str,
    two: &str,
) -> Result<(Text, Text), SubjectFault>
    ensures { Answers SubjectFault.Memory result
        (decided
        (first_failing (field_check (view value.now) (field one.now []) ∷ field_check (view value.now) (field two.now []) ∷ has_no_other (one.now ∷ two.now ∷ []) (view value.now) ∷ []))
        (text_in one.now (view value.now), text_in two.now (view value.now))) }
{
    let first = required(alloc, value, one, "")?;
    let second = required(alloc, value, two, "")?;
    only(alloc, value, &[one, two])?;
    Ok((first, second))
}

// The whole value as canonical text: `Fraction` where a fraction stands in it.
fn whole(alloc: Global, value: &Value) -> Result<Text, SubjectFault>
    ensures { Answers SubjectFault.Memory result (decided (first_failing (check SubjectFault.Fraction (not (has_float (view value.now))) ∷ [])) (compact_text (view value.now))) }
{
    if has_fraction(value) {
        return Err(SubjectFault::Fraction);
    }
    Ok(canon(alloc, value)?)
}

/// An identifier of this format.
pub fn plain_from(alloc: Global, format: PlainFormat, value: &Value) -> Result<Plain, SubjectFault>
    ensures { Answers SubjectFault.Memory result (decided (first_failing (plain_checks format (view value.now))) (plain_by format (view value.now))) }
{
    match format {
        PlainFormat::Account => Ok(Plain::Account {
            uri: one_text(alloc, value, "uri", "acct:")?,
        }),
        PlainFormat::Email => Ok(Plain::Email {
            email: one_text(alloc, value, "email", "")?,
        }),
        PlainFormat::IssSub => {
            let (iss, sub) = two_texts(alloc, value, "iss", "sub")?;
            Ok(Plain::IssSub { iss, sub })
        }
        PlainFormat::Opaque => Ok(Plain::Opaque {
            id: one_text(alloc, value, "id", "")?,
        }),
        PlainFormat::Phone => Ok(Plain::Phone {
            phone_number: one_text(alloc, value, "phone_number", "")?,
        }),
        PlainFormat::Did => Ok(Plain::Did {
            url: one_text(alloc, value, "url", "did:")?,
        }),
        PlainFormat::Uri => Ok(Plain::Uri {
            uri: one_text(alloc, value, "uri", "")?,
        }),
        PlainFormat::JwtId => {
            let (iss, jti) = two_texts(alloc, value, "iss", "jti")?;
            Ok(Plain::JwtId { iss, jti })
        }
        PlainFormat::Saml => {
            let (issuer, assertion_id) = two_texts(alloc, value, "issuer", "assertion_id")?;
            Ok(Plain::Saml {
                issuer,
                assertion_id,
            })
        }
        PlainFormat::Unknown => Ok(Plain::Unknown {
            canon: whole(alloc, value)?,
        }),
    }
}
