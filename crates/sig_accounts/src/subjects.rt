//! The subjects on a stream's list, as they are held.

ghost use Rattle.std.specs.Prelude.{◌≡◌, ◌↔◌, ◌&&◌, ◌+◌, ◌<◌, ◌≤◌, ℕ, [], ◌∷◌, drop, length, nat_eq, not, take};
ghost use Rattle.std.specs.Prelude.{IfNone, IfOk, IfSome, IsTrue, None, OnOk, Some, option_map};
ghost use Rattle.std.specs.List.{cons_option, list_any, slice_get, slice_set};
ghost use Rattle.indexmap.specs.IndexMap.{index_map_len, keys, values};
ghost use Rattle.sig_subject.specs.declared.subject.Subject.{Subject};
ghost use Rattle.sig_subject.specs.Matching.{is_identical, is_matching};
ghost use Rattle.sig_history.specs.Streams.{list_added, list_removed};
ghost use Rattle.sig_accounts.specs.Listening.{is_among};
ghost use Rattle.sig_accounts.specs.Listing.{listed_in, AreLinked};

use crate::lists::{Lists, remove_seat};
use indexmap::IndexMap;
use sig_json::{Memory, Same};
use sig_subject::{Subject, matches};
use std::alloc::Global;
use std::hash::{BuildHasherDefault, DefaultHasher};
use std::marker::Model;

// Each subject with its place in the order. Clients choose subjects, and under the hash that a map takes by itself they could
// easily choose such as fall together.
type Places = IndexMap<Subject, usize, BuildHasherDefault<DefaultHasher>>;

// A list of up to so many places never lets go of them.
const PLACES_KEPT: usize = 64;

/// The subjects on a stream's list. To add one, to take one off and to ask for one is a look-up, however many are listed.
///
/// Contracts see them in the order in which they were added, and for how many further ones there is room.
pub struct Subjects {
    places: Places,
    // At each place where its subject stands among them; none where that was taken off.
    order: Vec<Option<usize>>,
}

impl Drop for Subjects {
    fn drop(self) {
        let Subjects { places, order } = self;
        drop(places);
        drop(order);
    }
}

impl Model for Subjects {
    ghost use Rattle.std.specs.Prelude.{◌-◌, min, vec_len, vec_capacity};
    ghost use Rattle.indexmap.specs.IndexMap.{keys, spare, values};
    ghost use Rattle.sig_accounts.specs.Listing.{Listing, listed_in, AreLinked};

    ghost Value = { Listing };

    ghost view = { λ s. record {
      listed = listed_in (keys s.places) s.order.items;
      room = min (spare s.places) (vec_capacity s.order - vec_len s.order);
    } };

    ghost invariant = { λ s. AreLinked (values s.places) s.order.items };
}

impl Subjects {
    /// None. It takes no memory.
    pub fn new(alloc: Global) -> Subjects
        ensures { result ≡ record { listed = []; room = 0 } }
    {
        Subjects {
            places: IndexMap::with_hasher(alloc, BuildHasherDefault::new()),
            order: Vec::new(alloc),
        }
    }

    /// Identical ones, in the same order.
    pub fn copy(&self, alloc: Global) -> Result<Subjects, Memory>
        ensures { IfOk result (λ s. s.listed ≡ self.now.listed) }
    {
        let places = copy_places(alloc, &self.places)?;
        let order = Vec::from_slice(alloc, self.order.as_slice())?;
        Ok(Subjects { places, order })
    }

    /// Whether a subject that is identical to this one is listed. It is one look-up.
    pub fn has(&self, subject: &Subject) -> bool
        ensures { result ≡ list_any (is_identical subject.now) self.now.listed }
    {
        self.places.contains_key(subject)
    }

    /// Whether this subject matches a listed one. It is one look-up where the subject is simple.
    pub fn has_matching(&self, subject: &Subject) -> bool
        ensures { result ≡ list_any (is_matching subject.now) self.now.listed }
    {
        match subject {
            // A simple subject matches those that are identical to it, and no other.
            Subject::Simple(_) => self.has(subject),
            Subject::Complex { .. } => matches_one(subject, &self.places),
        }
    }

    /// Whether both list the same in the same order.
    pub fn lists_same(&self, other: &Subjects) -> bool
        ensures { IsTrue result ↔ (self.now.listed ≡ other.now.listed) }
    {
        same_listed(
            &self.places,
            self.order.as_slice(),
            &other.places,
            other.order.as_slice(),
        )
    }

    /// Takes a seat off those of each subject that is listed.
    pub fn leave(&self, lists: &mut Lists, seat: usize)
        ensures { (s : Subject) (n : ℕ) → is_among s n lists.new.entries ≡ (is_among s n lists.old.entries && not (list_any (is_identical s) self.now.listed && nat_eq n seat)) }
    {
        leave_each(&self.places, lists, seat);
    }

    /// Room for one more.
    pub fn reserve(&mut self) -> Result<(), Memory>
        ensures same { self.new.listed ≡ self.old.listed }
        ensures ok { OnOk result (0 < self.new.room) }
    {
        self.order.reserve(1)?;
        match self.places.reserve(1) {
            Ok(()) => Ok(()),
            Err(_) => Err(Memory),
        }
    }

    /// Puts a subject at the end, unless an identical one is there. It takes no memory.
    pub fn add(&mut self, subject: Subject)
        requires { 0 < self.old.room }
        ensures { self.new.listed ≡ list_added subject self.old.listed }
    {
        if self.has(&subject) {
            return;
        }
        let place = self.order.len();
        let index = self.places.len();
        // There is room, so neither is refused.
        let _ = self.places.insert(subject, place).unwrap();
        let _ = self.order.push(Some(index));
    }

    /// Takes a subject off. It takes no memory.
    pub fn remove(&mut self, subject: &Subject)
        ensures { self.new.listed ≡ list_removed subject.now self.old.listed }
    {
        match self.places.get_index_of(subject) {
            None => {}
            Some(index) => {
                take_off(&mut self.places, self.order.as_mut_slice(), index);
                self.let_go();
            }
        }
    }

    // Closes up where more than half of the places are empty, and lets go of memory where three quarters of it are.
    fn let_go(&mut self)
        ensures { self.new.listed ≡ self.old.listed }
    {
        if self.order.len() / 2 > self.places.len() {
            let left = close_up(&mut self.places, self.order.as_mut_slice());
            self.order.truncate(left);
        }
        let places = self.order.capacity();
        if places > PLACES_KEPT && self.order.len() < places / 4 {
            // Where no smaller block is had, each keeps its own.
            self.order.shrink_to(places / 2);
            self.places.shrink_to(places / 2);
        }
    }
}

// Equal entries in the same order.
fn copy_places(alloc: Global, places: &Places) -> Result<Places, Memory>
    ensures { IfOk result (λ copy. copy.entries ≡ places.now.entries) }
{
    let mut copy = IndexMap::with_hasher(alloc, BuildHasherDefault::new());
    for index in 0..places.len() {
        let (subject, place) = places.get_index(index).unwrap();
        let subject = subject.copy(alloc)?;
        let _ = copy.insert(subject, *place)?;
    }
    Ok(copy)
}

// Takes a seat off those of each of these subjects.
fn leave_each(places: &Places, lists: &mut Lists, seat: usize)
    ensures { (s : Subject) (n : ℕ) → is_among s n lists.new.entries ≡ (is_among s n lists.old.entries && not (list_any (is_identical s) (keys places.now) && nat_eq n seat)) }
{
    for index in 0..places.len() {
        let (subject, _) = places.get_index(index).unwrap();
        remove_seat(lists, subject, seat);
    }
}

// Whether this subject matches one of them.
fn matches_one(subject: &Subject, places: &Places) -> bool
    ensures { result ≡ list_any (is_matching subject.now) (keys places.now) }
{
    places.keys().any(|other| matches(subject, other))
}

// The subject of a place.
fn subject_at<'a>(places: &'a Places, order: &[Option<usize>], place: usize) -> Option<&'a Subject>
    requires { place < length order.now }
    ensures { listed_in (keys places.now) (drop place order.now)
        ≡ cons_option (option_map (λ s. s.now) result) (listed_in (keys places.now) (drop (place + 1) order.now)) }
{
    let index = order[place]?;
    let (subject, _) = places.get_index(index)?;
    Some(subject)
}

// The first subject from a place on, with its own place.
fn first_from<'a>(
    places: &'a Places,
    order: &[Option<usize>],
    from: usize,
) -> Option<(usize, &'a Subject)>
    requires { from ≤ length order.now }
    ensures within { IfSome result (λ f. f.0 < length order.now) }
    ensures found { IfSome result (λ f. listed_in (keys places.now) (drop from order.now)
        ≡ f.1.now ∷ listed_in (keys places.now) (drop (f.0 + 1) order.now)) }
    ensures none { IfNone result (listed_in (keys places.now) (drop from order.now) ≡ []) }
{
    for place in from..order.len() {
        if let Some(subject) = subject_at(places, order, place) {
            return Some((place, subject));
        }
    }
    None
}

// Whether the same is listed in the same order.
fn same_listed(
    places: &Places,
    order: &[Option<usize>],
    other_places: &Places,
    other_order: &[Option<usize>],
) -> bool
    ensures { IsTrue result ↔ (listed_in (keys places.now) order.now ≡ listed_in (keys other_places.now) other_order.now) }
{
    let mut from = 0;
    for place in 0..order.len() {
        if let Some(subject) = subject_at(places, order, place) {
            match first_from(other_places, other_order, from) {
                Some((found, other)) if subject.same(other) => from = found + 1,
                _ => return false,
            }
        }
    }
    first_from(other_places, other_order, from).is_none()
}

// Takes the subject that stands at an index off. The last one takes its place among the others, and none another in the order.
fn take_off(places: &mut Places, order: &mut [Option<usize>], index: usize)
    requires linked { AreLinked (values places.old) order.old }
    requires within { index < index_map_len places.old }
    ensures linked { AreLinked (values places.new) order.new }
    ensures listed { (place : ℕ) → slice_get (values places.old) index ≡ Some place
        → listed_in (keys places.new) order.new ≡ listed_in (keys places.old) (slice_set order.old place None) }
{
    let Some((_, place)) = places.swap_remove_index(index) else {
        return;
    };
    order[place] = None;
    if index < places.len() {
        let moved = places[index];
        order[moved] = Some(index);
    }
}

// Moves what is listed down over empty places, in order, and says where it ends.
fn close_up(places: &mut Places, order: &mut [Option<usize>]) -> usize
    requires { AreLinked (values places.old) order.old }
    ensures within { result ≤ length order.new }
    ensures linked { AreLinked (values places.new) (take result order.new) }
    ensures listed { listed_in (keys places.new) (take result order.new) ≡ listed_in (keys places.old) order.old }
{
    let mut kept = 0;
    for read in 0..order.len() {
        if let Some(index) = order[read] {
            order[read] = None;
            order[kept] = Some(index);
            places[index] = kept;
            kept += 1;
        }
    }
    kept
}
