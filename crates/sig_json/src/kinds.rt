ghost use Rattle.std.specs.Prelude.{◌≡◌, map};
ghost use Rattle.serde_json.specs.View.{view, items_view};
ghost use Rattle.serde_json.specs.Written.{compact_text};
ghost use Rattle.sig_json.specs.Answers.{Answers};
ghost use Rattle.sig_json.specs.Checks.{decided, first_failing};
ghost use Rattle.sig_json.specs.Listed.{listed_in};
ghost use Rattle.sig_json.specs.Members.{Kind, kept_checks, are_texts, has_members, and_test, is_of_kind, text_in, whole_in};
ghost use Rattle.sig_json.specs.Members as members;
ghost use Rattle.serde_json.specs.Find.{as_array, as_object};

use crate::payload::{value_spelled, whole_value};
use crate::{Listed, MemberKind, Memory, PayloadFault, Text, canon, has_fraction, value_named};
use serde_json::Value;
use std::alloc::Global;
use std::marker::PhantomData;

/// Any text, which is kept.
pub struct AnyText;

impl MemberKind for AnyText {
    type Kept = Text;

    ghost kind = { members.AnyText };

    ghost value = { text_in };

    ghost kept = { λ t. members.Words t };

    #[tactic(auto, unfolding(crate::specs::Members::text_in))]
    fn keep(alloc: Global, name: &str, member: &Value) -> Result<Text, PayloadFault> {
        match member.as_str() {
            Some(text) => Ok(Text::of(alloc, text)?),
            None => Err(PayloadFault::Kind(Text::of(alloc, name)?)),
        }
    }

    fn write(alloc: Global, content: &Text) -> Result<Value, Memory> {
        Ok(Value::String(String::from_str(alloc, content.as_str())?))
    }
}

/// A text of a closed list; the value that it stands for is kept.
pub struct OneOf<T> {
    listed: PhantomData<T>,
}

impl<T: Listed> MemberKind for OneOf<T> {
    type Kept = T;

    ghost kind = { members.OneOf (map T.text_of T.values) };

    ghost value = { listed_in T.text_of T.values T.otherwise };

    ghost kept = { λ x. members.Words (T.text_of x) };

    #[tactic(auto, using(crate::proofs::MemberLemmas::any_is_listed), unfolding(crate::specs::Listed::listed_in))]
    fn keep(alloc: Global, name: &str, member: &Value) -> Result<T, PayloadFault> {
        match member.as_str() {
            Some(text) => match value_named(text) {
                Some(value) => Ok(value),
                None => Err(PayloadFault::Value(Text::of(alloc, name)?)),
            },
            None => Err(PayloadFault::Kind(Text::of(alloc, name)?)),
        }
    }

    fn write(alloc: Global, content: &T) -> Result<Value, Memory> {
        Ok(Value::String(String::from_str(alloc, content.as_str())?))
    }
}

/// A whole number, which is kept.
pub struct Whole;

impl MemberKind for Whole {
    type Kept = i128;

    ghost kind = { members.Whole };

    ghost value = { whole_in };

    ghost kept = { λ z. members.Number z };

    #[tactic(auto, unfolding(crate::specs::Members::whole_in))]
    fn keep(alloc: Global, name: &str, member: &Value) -> Result<i128, PayloadFault> {
        match member.as_number() {
            Some(number) => match number.as_i128() {
                Some(whole) => Ok(whole),
                None => Err(PayloadFault::Fraction(Text::of(alloc, name)?)),
            },
            None => Err(PayloadFault::Kind(Text::of(alloc, name)?)),
        }
    }

    fn write(_alloc: Global, content: &i128) -> Result<Value, Memory> {
        Ok(whole_value(*content))
    }
}

/// A text or an object, kept as canonical text.
pub struct TextOrObject;

impl MemberKind for TextOrObject {
    type Kept = Text;

    ghost kind = { members.TextOrObject };

    ghost value = { λ d. compact_text d };

    ghost kept = { λ t. members.Canonical t };

    fn keep(alloc: Global, name: &str, member: &Value) -> Result<Text, PayloadFault> {
        keep_whole(
            alloc,
            name,
            member,
            member.is_string() || member.is_object(),
        )
    }

    fn write(alloc: Global, content: &Text) -> Result<Value, Memory> {
        value_spelled(alloc, content)
    }
}

/// An object with at least one member, kept as canonical text.
pub struct FilledObject;

impl MemberKind for FilledObject {
    type Kept = Text;

    ghost kind = { members.FilledObject };

    ghost value = { λ d. compact_text d };

    ghost kept = { λ t. members.Canonical t };

    fn keep(alloc: Global, name: &str, member: &Value) -> Result<Text, PayloadFault> {
        keep_whole(alloc, name, member, is_filled(member))
    }

    fn write(alloc: Global, content: &Text) -> Result<Value, Memory> {
        value_spelled(alloc, content)
    }
}

/// A text or a list of texts, kept as canonical text.
pub struct TextOrTexts;

impl MemberKind for TextOrTexts {
    type Kept = Text;

    ghost kind = { members.TextOrTexts };

    ghost value = { λ d. compact_text d };

    ghost kept = { λ t. members.Canonical t };

    fn keep(alloc: Global, name: &str, member: &Value) -> Result<Text, PayloadFault> {
        keep_whole(alloc, name, member, member.is_string() || are_texts(member))
    }

    fn write(alloc: Global, content: &Text) -> Result<Value, Memory> {
        value_spelled(alloc, content)
    }
}

// The canonical text of a member, where it is of its kind and no fraction stands in it.
fn keep_whole(
    alloc: Global,
    name: &str,
    member: &Value,
    is_of_kind: bool,
) -> Result<Text, PayloadFault>
    ensures { Answers PayloadFault.Memory result
        (decided (first_failing (kept_checks name.now is_of_kind (view member.now))) (compact_text (view member.now))) }
{
    if !is_of_kind {
        return Err(PayloadFault::Kind(Text::of(alloc, name)?));
    }
    if has_fraction(member) {
        return Err(PayloadFault::Fraction(Text::of(alloc, name)?));
    }
    Ok(canon(alloc, member)?)
}

#[tactic(auto, using(crate::proofs::MemberLemmas::has_members_unless))]
fn is_filled(value: &Value) -> bool
    ensures { result ≡ and_test has_members (as_object (view value.now)) }
{
    match value.as_object() {
        Some(object) => !object.is_empty(),
        None => false,
    }
}

fn are_texts(value: &Value) -> bool
    ensures { result ≡ and_test are_texts (as_array (view value.now)) }
{
    match value.as_array() {
        Some(items) => all_texts(items.as_slice()),
        None => false,
    }
}

fn all_texts(items: &[Value]) -> bool
    ensures { result ≡ are_texts (items_view items.now) }
{
    for item in items {
        if !item.is_string() {
            return false;
        }
    }
    true
}
