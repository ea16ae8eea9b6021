//! The seats of those that list each subject.

ghost use Rattle.std.specs.Prelude.{◌≡◌, ◌<◌, ◌||◌, ◌&&◌, ℕ, [], IfOk, IsTrue, OnOk, nat_eq, not};
ghost use Rattle.sig_subject.specs.declared.subject.Subject.{Subject};
ghost use Rattle.sig_subject.specs.Matching.{is_identical};
ghost use Rattle.sig_accounts.specs.Listening.{is_among, room_for, seats_for};

use crate::seats::Seats;
use indexmap::IndexMap;
use sig_json::Memory;
use sig_subject::Subject;
use std::alloc::Global;
use std::hash::{BuildHasherDefault, DefaultHasher};

/// Each subject with the seats of those that list it. Clients choose subjects, so it has the hash that `subjects` has.
pub type Lists = IndexMap<Subject, Seats, BuildHasherDefault<DefaultHasher>>;

/// The same seats under the same subjects.
pub fn copy_lists(alloc: Global, lists: &Lists) -> Result<Lists, Memory>
    ensures { IfOk result (λ copy. (s : Subject) → seats_for s copy.entries ≡ seats_for s lists.now.entries) }
{
    let mut copy = IndexMap::with_hasher(alloc, BuildHasherDefault::new());
    for index in 0..lists.len() {
        let (subject, seats) = lists.get_index(index).unwrap();
        let subject = subject.copy(alloc)?;
        let seats = seats.copy(alloc)?;
        let _ = copy.insert(subject, seats)?;
    }
    Ok(copy)
}

/// Room for one more seat of a subject.
pub fn reserve_seat(alloc: Global, lists: &mut Lists, subject: &Subject) -> Result<(), Memory>
    ensures same { (s : Subject) → seats_for s lists.new.entries ≡ seats_for s lists.old.entries }
    ensures ok { OnOk result (0 < room_for subject.now lists.new.entries) }
{
    match lists.get_index_of(subject) {
        Some(index) => lists[index].reserve(),
        None => {
            let seats = seats_with_room(alloc)?;
            let subject = subject.copy(alloc)?;
            let _ = lists.insert(subject, seats)?;
            Ok(())
        }
    }
}

// None, with room for one.
fn seats_with_room(alloc: Global) -> Result<Seats, Memory>
    ensures none { IfOk result (λ s. s.seats ≡ []) }
    ensures room { IfOk result (λ s. 0 < s.room) }
{
    let mut seats = Seats::new(alloc);
    seats.reserve()?;
    Ok(seats)
}

/// Puts a seat among those of a subject. It takes no memory.
pub fn add_seat(lists: &mut Lists, subject: &Subject, seat: usize)
    requires { 0 < room_for subject.now lists.old.entries }
    ensures { (s : Subject) (n : ℕ) → is_among s n lists.new.entries ≡ (is_among s n lists.old.entries || (is_identical subject.now s && nat_eq n seat)) }
{
    if let Some(index) = lists.get_index_of(subject) {
        lists[index].add(seat);
    }
}

/// Takes a seat off those of a subject.
pub fn remove_seat(lists: &mut Lists, subject: &Subject, seat: usize)
    ensures { (s : Subject) (n : ℕ) → is_among s n lists.new.entries ≡ (is_among s n lists.old.entries && not (is_identical subject.now s && nat_eq n seat)) }
{
    if let Some(index) = lists.get_index_of(subject) {
        lists[index].remove(seat);
        let_go(lists, subject);
    }
}

// Whether a subject has no seats, though there is a place for some.
fn is_idle(lists: &Lists, subject: &Subject) -> bool
    ensures { IsTrue result → seats_for subject.now lists.now.entries ≡ [] }
{
    match lists.get(subject) {
        None => false,
        Some(seats) => seats.as_slice().is_empty(),
    }
}

// Lets go of a subject that has no seats.
fn let_go(lists: &mut Lists, subject: &Subject)
    ensures { (s : Subject) → seats_for s lists.new.entries ≡ seats_for s lists.old.entries }
{
    if is_idle(lists, subject) {
        let _ = lists.swap_remove(subject);
    }
}
