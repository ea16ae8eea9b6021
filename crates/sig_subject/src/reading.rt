ghost use Rattle.std.specs.Prelude.{◌≡◌, flat_map, map};
ghost use Rattle.serde_json.specs.View.{view, members_view};
ghost use Rattle.sig_json.specs.Answers.{Answers};
ghost use Rattle.sig_json.specs.Checks.{first_failing, decided};
ghost use Rattle.sig_subject.specs.Reading.{complex_checks, part_by, part_checks, parts_by, subject_of};
ghost use Rattle.sig_subject.specs.Subjects.{parts_of};

use crate::names::has_one_part;
use crate::plain_reading::{at_member, named_format};
use crate::simple_reading::simple_from;
use crate::{Format, Member, Subject, SubjectFault};
use serde_json::{Map, Value};
use sig_json::{Items, Text};
use std::alloc::Global;

// A part of a complex subject.
fn part_from(alloc: Global, name: &str, value: &Value) -> Result<Member, SubjectFault>
    ensures { Answers SubjectFault.Memory result (decided (first_failing (part_checks (name.now, view value.now))) (part_by (name.now, view value.now))) }
{
    if !value.is_object() {
        return Err(at_member(alloc, name));
    }
    let Some(format) = named_format(value) else {
        return Err(SubjectFault::Format);
    };
    let simple = simple_from(alloc, format, value)?;
    let name = Text::of(alloc, name)?;
    Ok(Member { name, simple })
}

// The parts of a complex subject: every member but `format`, in byte order.
fn parts_from(alloc: Global, members: &Map<String, Value>) -> Result<Items<Member>, SubjectFault>
    ensures { Answers SubjectFault.Memory result (decided (first_failing (flat_map part_checks (parts_of (members_view members.now.entries)))) (map part_by (parts_of (members_view members.now.entries)))) }
{
    let mut out = Vec::new(alloc);
    for (name, member) in members.iter() {
        if name.as_str() != "format" {
            let part = part_from(alloc, name.as_str(), member)?;
            out.push(part)?;
        }
    }
    Ok(Items::of(out))
}

// The members of a complex subject.
fn complex_from(alloc: Global, value: &Value) -> Result<Items<Member>, SubjectFault>
    ensures { Answers SubjectFault.Memory result (decided (first_failing (complex_checks (view value.now))) (parts_by (view value.now))) }
{
    let Some(members) = value.as_object() else {
        return Err(SubjectFault::Empty);
    };
    if !has_one_part(members) {
        return Err(SubjectFault::Empty);
    }
    parts_from(alloc, members)
}

/// The subject that the value is (RFC 9493, section 3.2; OpenID Shared Signals Framework 1.0, section 4).
///
/// Any refusal but `Memory` is that of the first check that fails, in this order.
/// 1. `Format`: the value is an object, and its `format` is a text.
/// 2. `Fraction`: no fraction stands in an unknown format.
/// 3. `Member`: each required member, in the standard's order, is there and is a text that isn't empty and has its
///    prefix; `identifiers` is a list.
/// 4. `Member`: no other member is there, of which the first in byte order is named. An unknown format and a complex
///    subject may have others.
/// 5. `Empty`: `identifiers` has an item, and a complex subject one of the seven parts.
/// 6. The items of `identifiers` in order, or the members of a complex subject in byte order, each pass: `Member`, it
///    is an object; `Format`, as above; `Nested`, the format of an item is neither `aliases` nor `complex`, and that of
///    a member isn't `complex`; and then the same checks.
pub fn from_json(alloc: Global, value: &Value) -> Result<Subject, SubjectFault>
    ensures { Answers SubjectFault.Memory result (subject_of (view value.now)) }
{
    match named_format(value) {
        None => Err(SubjectFault::Format),
        Some(Format::Complex) => Ok(Subject::Complex {
            members: complex_from(alloc, value)?,
        }),
        Some(format) => Ok(Subject::Simple(simple_from(alloc, format, value)?)),
    }
}
