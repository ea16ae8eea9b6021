//! The keys under which a row stands, by its subject.
//!
//! A row of a simple subject stands under that subject. One of a complex subject stands under each of its parts, under
//! its anchor, which is the part that fewest subjects are likely to share, and under one key of all complex ones. So the
//! rows that a subject covers stand under the key of any one of its parts, and the rows that cover a complex subject
//! under the keys of its parts as a subject of their own or as an anchor.

ghost use Rattle.std.specs.Prelude.{◌≡◌, ◌≤◌, ◌++◌, find, length, map, not, option_copied};
ghost use Rattle.sig_sessions.specs.Keys as spec;

use crate::fingerprint::{of_simple, with_byte};
use sig_places::Places;
use sig_subject::{Member, Simple, Subject};

/// The key of all complex subjects.
pub(crate) const COMPLEX: u64 = 1;

/// The key of complex subjects without a part.
pub(crate) const NO_PART: u64 = 2;

/// The key of a simple subject.
pub(crate) fn own_key(simple: &Simple) -> u64
    ensures { result ≡ spec.own_key simple.now }
{
    with_byte(of_simple(simple), 0)
}

/// The key of complex subjects that have this part.
pub(crate) fn part_key(simple: &Simple) -> u64
    ensures { result ≡ spec.part_key simple.now }
{
    with_byte(of_simple(simple), 1)
}

/// The key of complex subjects whose anchor this part is.
pub(crate) fn anchor_key(simple: &Simple) -> u64
    ensures { result ≡ spec.anchor_key simple.now }
{
    with_byte(of_simple(simple), 2)
}

// Whether many subjects are likely to share a part of this name.
fn is_shared(name: &str) -> bool
    ensures { result ≡ spec.is_shared name.now }
{
    name == "application" || name == "group" || name == "org_unit" || name == "tenant"
}

// The first part that isn't likely to be shared.
fn own_part(members: &[Member]) -> Option<&Member>
    ensures { option_copied result ≡ find (λ m. not (spec.is_shared m.name)) members.now }
{
    members
        .iter()
        .find(|member| !is_shared(member.name.as_str()))
}

// The first part that isn't likely to be shared, else the first.
fn anchor(members: &[Member]) -> Option<&Member>
    ensures { option_copied result ≡ spec.anchor members.now }
{
    match own_part(members) {
        Some(member) => Some(member),
        None => members.first(),
    }
}

// The key of a complex subject's anchor.
fn key_of_anchor(members: &[Member]) -> u64
    ensures { result ≡ spec.key_of_anchor (spec.anchor members.now) }
{
    match anchor(members) {
        Some(member) => anchor_key(&member.simple),
        None => NO_PART,
    }
}

/// How many keys a row of the subject has.
pub(crate) fn key_count(subject: &Subject) -> usize
    ensures { result ≡ length (spec.keys_of subject.now) }
{
    match subject {
        Subject::Simple(_) => 1,
        Subject::Complex { members } => members.as_slice().len() + 2,
    }
}

/// Puts a row of the subject under its keys, for which there is room. It takes no memory.
pub(crate) fn put_keys(places: &mut Places, place: usize, subject: &Subject)
    requires { length (spec.keys_of subject.now) ≤ places.old.room }
    ensures { places.new.entries ≡ places.old.entries ++ spec.entries_at place (spec.keys_of subject.now) }
{
    match subject {
        Subject::Simple(simple) => places.put(own_key(simple), place),
        Subject::Complex { members } => {
            places.put(COMPLEX, place);
            places.put(key_of_anchor(members.as_slice()), place);
            put_parts(places, place, members.as_slice());
        }
    }
}

fn put_parts(places: &mut Places, place: usize, members: &[Member])
    requires { length members.now ≤ places.old.room }
    ensures { places.new.entries ≡ places.old.entries ++ spec.entries_at place (map (λ m. spec.part_key m.simple) members.now) }
{
    for member in members {
        places.put(part_key(&member.simple), place);
    }
}

/// The keys under which the rows stand that a subject covers, and its own row: of a complex subject that of the part
/// with the fewest rows.
pub(crate) fn covered_keys(places: &Places, subject: &Subject) -> (u64, Option<u64>)
    ensures { spec.AreCoveredKeys subject.now result }
{
    match subject {
        Subject::Simple(simple) => (own_key(simple), Some(part_key(simple))),
        Subject::Complex { members } => (rarest_key(places, members.as_slice()), None),
    }
}

// The key of the part with the fewest rows.
fn rarest_key(places: &Places, members: &[Member]) -> u64
    ensures { spec.IsKeyOfAll members.now result }
{
    let Some((first, others)) = members.split_first() else {
        return COMPLEX;
    };
    let mut best = part_key(&first.simple);
    let mut fewest = places.count(best);
    for member in others {
        let key = part_key(&member.simple);
        let count = places.count(key);
        if count < fewest {
            best = key;
            fewest = count;
        }
    }
    best
}
