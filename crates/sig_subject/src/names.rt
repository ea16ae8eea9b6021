ghost use Rattle.std.specs.Prelude.{◌≡◌, map, option_map, bytes_eq};
ghost use Rattle.std.specs.List.{list_any};
ghost use Rattle.serde_json.specs.View.{view, members_view};
ghost use Rattle.sig_subject.specs.Formats.{part_names};
ghost use Rattle.sig_subject.specs.Subjects.{parts_of};
ghost use Rattle.sig_subject.specs.Reading.{other_in, has_part};

use serde_json::{Map, Value};

// Whether the name is one of these.
fn is_listed(name: &str, names: &[&str]) -> bool
    ensures { result ≡ list_any (bytes_eq name.now) (map (λ n. n.now) names.now) }
{
    names.contains(&name)
}

/// The first member, in byte order, that is neither `format` nor one of these.
pub fn other_member<'a>(members: &'a Map<String, Value>, names: &[&str]) -> Option<&'a str>
    ensures { option_map (λ n. n.now) result ≡ other_in (map (λ n. n.now) names.now) (members_view members.now.entries) }
{
    for (name, _) in members.iter() {
        let name = name.as_str();
        if name != "format" && !is_listed(name, names) {
            return Some(name);
        }
    }
    None
}

// Whether the name is one of the seven parts of which a complex subject has at least one.
fn is_part(name: &str) -> bool
    ensures { result ≡ list_any (bytes_eq name.now) part_names }
{
    match name {
        "user" | "device" | "session" | "application" | "tenant" | "org_unit" | "group" => true,
        _ => false,
    }
}

/// Whether one of the members is one of those parts.
pub fn has_one_part(members: &Map<String, Value>) -> bool
    ensures { result ≡ has_part (parts_of (members_view members.now.entries)) }
{
    for (part, _) in members.iter() {
        let part = part.as_str();
        if part != "format" && is_part(part) {
            return true;
        }
    }
    false
}
