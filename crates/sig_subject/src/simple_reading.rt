ghost use Rattle.std.specs.Prelude.{◌≡◌, flat_map, map};
ghost use Rattle.serde_json.specs.View.{view};
ghost use Rattle.sig_json.specs.Answers.{Answers};
ghost use Rattle.sig_json.specs.Checks.{first_failing, decided};
ghost use Rattle.sig_subject.specs.Reading.{aliases_checks, identifiers_by, item_by, item_checks, simple_by, simple_checks};

use crate::plain_reading::{at_member, named_format, only, plain_from};
use crate::{Format, Plain, Simple, SubjectFault};
use serde_json::Value;
use sig_json::{Items, list_of};
use std::alloc::Global;

// An item of `identifiers`.
fn item_from(alloc: Global, value: &Value) -> Result<Plain, SubjectFault>
    ensures { Answers SubjectFault.Memory result (decided (first_failing (item_checks (view value.now))) (item_by (view value.now))) }
{
    if !value.is_object() {
        return Err(at_member(alloc, "identifiers"));
    }
    match named_format(value) {
        None => Err(SubjectFault::Format),
        Some(Format::Plain(format)) => plain_from(alloc, format, value),
        Some(Format::Aliases) | Some(Format::Complex) => Err(SubjectFault::Nested),
    }
}

// The items of `identifiers`.
fn items_from(alloc: Global, list: &[Value]) -> Result<Items<Plain>, SubjectFault>
    ensures { Answers SubjectFault.Memory result (decided (first_failing (flat_map item_checks (map view list.now))) (map item_by (map view list.now))) }
{
    let mut out = Vec::new(alloc);
    for value in list {
        let plain = item_from(alloc, value)?;
        out.push(plain)?;
    }
    Ok(Items::of(out))
}

// The identifiers of aliases.
fn identifiers_from(alloc: Global, value: &Value) -> Result<Items<Plain>, SubjectFault>
    ensures { Answers SubjectFault.Memory result (decided (first_failing (aliases_checks (view value.now))) (identifiers_by (view value.now))) }
{
    let Some(list) = list_of(value, "identifiers") else {
        return Err(at_member(alloc, "identifiers"));
    };
    only(alloc, value, &["identifiers"])?;
    if list.is_empty() {
        return Err(SubjectFault::Empty);
    }
    items_from(alloc, list.as_slice())
}

/// A simple subject of this format.
pub fn simple_from(alloc: Global, format: Format, value: &Value) -> Result<Simple, SubjectFault>
    ensures { Answers SubjectFault.Memory result (decided (first_failing (simple_checks format (view value.now))) (simple_by format (view value.now))) }
{
    match format {
        Format::Plain(format) => Ok(Simple::Plain(plain_from(alloc, format, value)?)),
        Format::Aliases => Ok(Simple::Aliases {
            identifiers: identifiers_from(alloc, value)?,
        }),
        Format::Complex => Err(SubjectFault::Nested),
    }
}
