ghost use Rattle.std.specs.Prelude.{◌≡◌, option_map};
ghost use Rattle.std.specs.List.{list_any};
ghost use Rattle.sig_subject.specs.Matching.{all_agree, agrees, is_covering, is_identical, is_matching, part_named, same_simple};

use crate::{Member, Simple, Subject};
use sig_json::Same;

/// Whether both are equal in kind and in every member: texts byte for byte, aliases and parts in order.
pub fn identical(a: &Subject, b: &Subject) -> bool
    ensures { result ≡ is_identical a.now b.now }
{
    a == b
}

/// Whether an event about one is about the other (OpenID Shared Signals Framework 1.0, section 4): two simple subjects
/// that are identical, or two complex ones where for each name one of them lacks the part or both are identical there;
/// never one of each.
pub fn matches(a: &Subject, b: &Subject) -> bool
    ensures { result ≡ is_matching a.now b.now }
{
    match (a, b) {
        (Subject::Simple(one), Subject::Simple(two)) => same_simple(one, two),
        (Subject::Complex { members: ones }, Subject::Complex { members: twos }) => {
            all_agree(ones.as_slice(), twos.as_slice(), true)
        }
        _ => false,
    }
}

/// Whether what is known of `general` holds of `special`: both are identical, or `special` is complex and has `general`
/// as a part, or both are complex and `special` has each part of `general`. A complex subject never covers a simple
/// one.
pub fn covers(general: &Subject, special: &Subject) -> bool
    ensures { result ≡ is_covering general.now special.now }
{
    match (general, special) {
        (Subject::Simple(one), Subject::Simple(two)) => same_simple(one, two),
        (Subject::Simple(one), Subject::Complex { members }) => is_part_of(one, members.as_slice()),
        (Subject::Complex { members: ones }, Subject::Complex { members: twos }) => {
            all_agree(ones.as_slice(), twos.as_slice(), false)
        }
        (Subject::Complex { members: _ }, Subject::Simple(_)) => false,
    }
}

fn same_simple(a: &Simple, b: &Simple) -> bool
    ensures { result ≡ same_simple a.now b.now }
{
    a.same(b)
}

// The part of this name.
fn part_named<'a>(name: &str, members: &'a [Member]) -> Option<&'a Simple>
    ensures { option_map (λ s. s.now) result ≡ part_named name.now members.now }
{
    let member = members.iter().find(|member| name == member.name.as_str())?;
    Some(&member.simple)
}

// Whether the part of the same name is identical; `missing` where there is none.
fn agrees(member: &Member, others: &[Member], missing: bool) -> bool
    ensures { result ≡ agrees missing member.now.simple (part_named member.now.name others.now) }
{
    match part_named(member.name.as_str(), others) {
        Some(other) => same_simple(&member.simple, other),
        None => missing,
    }
}

// Whether each member agrees with the others.
fn all_agree(members: &[Member], others: &[Member], missing: bool) -> bool
    ensures { result ≡ all_agree missing members.now others.now }
{
    members.iter().all(|member| agrees(member, others, missing))
}

// Whether one of the members is this identifier.
fn is_part_of(simple: &Simple, members: &[Member]) -> bool
    ensures { result ≡ list_any (λ m. same_simple simple.now m.simple) members.now }
{
    members
        .iter()
        .any(|member| same_simple(simple, &member.simple))
}
