ghost use Rattle.std.specs.Prelude.{◌≡◌, ◌≤◌, ◌<◌, ◌+◌, ◌-◌, ◌∷◌, ◌++◌, ◌&&◌, ◌||◌, [], List, ℕ, IfSome, OnSome, Some, IfNone, OnErr, OnOk, IsTrue, bytes_eq, false, nat_le, not, true};
ghost use Rattle.sig_courier.specs.Schedule.{IsLogged, StaysKnown, StaysLogged, due, is_known};
ghost use Rattle.sig_courier.specs.declared.attempt.Attempt.{Attempt};
ghost use Rattle.sig_json.specs.declared.limits.TheConstants.{LAST_NUMBER};
ghost use Rattle.sig_dispatch.specs.declared.place.TheConstants.{ERRANDS_AT_ONCE};
ghost use Rattle.sig_dispatch.specs.Plan as spec;
ghost use Rattle.sig_dispatch.specs.Plan.{IsRemembered, KeepsOtherMarks, KeepsOtherTrials, KeepsOtherTriers, KeepsTrials, KeepsTriers, StayWaiting, StaysBut, StaysButFound, StaysButListing, StaysButQueue, StaysCounted, LosesNoOther, LosesNone, errands_of, is_again, is_marked, is_ready, is_tried, told, trier};

use crate::place::{ERRANDS_AT_ONCE, Mark, Place, Trier};
use indexmap::IndexMap;
use sig_courier::{Attempt, Schedule};
use sig_json::{Memory, Text};
use std::alloc::Global;
use std::collections::BTreeMap;

/// Which streams wait to be tried, and which are being tried. It keeps its allocator, and one entry a stream.
#[derive(Drop)]
pub struct Dispatch {
    alloc: Global,
    schedule: Schedule,
    marks: IndexMap<Text, Mark>,
    queue: BTreeMap<Place, Text>,
    turns: u64,
    errands: u64,
    wanted: bool,
    listing: bool,
}

impl Dispatch {
    /// Nothing is known, and a listing is wanted. It keeps the allocator and takes no memory.
    pub fn new(alloc: Global) -> Dispatch
        ensures told { told result ≡ [] }
        ensures free { (stream : List ℕ) → is_tried result stream ≡ false }
        ensures log { IsLogged result.schedule [] }
        ensures errands { result.errands ≡ 0 }
        ensures wanted { result.wanted ≡ true }
        ensures listing { result.listing ≡ false }
    {
        Dispatch {
            alloc,
            schedule: Schedule::new(alloc),
            marks: IndexMap::new(alloc),
            queue: BTreeMap::new(alloc),
            turns: 0,
            errands: 0,
            wanted: true,
            listing: false,
        }
    }

    /// Whether a listing of all streams is wanted, and none is under way.
    pub fn wants_listing(&self) -> bool
        ensures { result ≡ spec.wants_listing self.now }
    {
        self.wanted && !self.listing
    }

    /// The schedule of the attempts that were noted.
    pub fn schedule(&self) -> &Schedule
        ensures { result.now ≡ self.now.schedule }
    {
        &self.schedule
    }

    /// Whether a stream is due by the log of attempts at this time, in seconds since 1970. Else it is late, and waits.
    pub fn is_due(&self, stream: &Text, now: u64) -> bool
        ensures { (log : List Attempt) → IsLogged self.now.schedule log → result ≡ nat_le (due log stream.now) now }
    {
        self.schedule.due_at(stream) <= now
    }

    // What is kept of a stream.
    fn mark(&self, stream: &Text) -> Mark
        ensures { result ≡ spec.mark_in self.now.marks.entries stream.now }
    {
        match self.marks.get(stream) {
            Some(mark) => *mark,
            None => Mark::NEW,
        }
    }

    // Whether a stream waits.
    fn waits(&self, stream: &Text) -> bool
        ensures { result ≡ true → spec.waits self.now stream.now ≡ true }
    {
        match self.queue.get(&self.mark(stream).place) {
            Some(there) => there == stream,
            None => false,
        }
    }

    // Who tries a stream of which something is kept, and whether it is looked at again, are this from now on.
    fn set_trier(&mut self, stream: &Text, by: Trier, again: bool)
        requires { is_marked self.old stream.now ≡ true }
        ensures own { trier self.new stream.now ≡ by }
        ensures again { (spec.mark_in self.new.marks.entries stream.now).again ≡ again }
        ensures others { KeepsOtherMarks stream.now self.old self.new }
        ensures stays { StaysBut self.old self.new }
    {
        if let Some(mark) = self.marks.get_mut(stream) {
            mark.by = by;
            mark.again = again;
        }
    }

    // A stream was last put at this place, if anything is kept of it.
    fn set_place(&mut self, stream: &Text, place: Place)
        ensures trials { KeepsTrials self.old self.new }
        ensures stays { StaysBut self.old self.new }
    {
        if let Some(mark) = self.marks.get_mut(stream) {
            mark.place = place;
        }
    }

    // Makes room for what is kept of a stream, and for the notes of its attempts. Out of memory is its only error.
    fn make_room(&mut self, stream: &Text) -> Result<(), Memory>
        ensures known { OnOk result (is_known self.new.schedule stream.now ≡ true) }
        ensures marked { OnOk result (is_marked self.new stream.now ≡ true) }
        ensures trials { KeepsTrials self.old self.new }
        ensures log { StaysLogged self.old.schedule self.new.schedule }
        ensures room { StaysKnown self.old.schedule self.new.schedule }
        ensures queue { self.new.queue.entries ≡ self.old.queue.entries }
        ensures counted { StaysCounted self.old self.new }
    {
        self.schedule.make_room(stream)?;
        self.make_mark(stream)
    }

    // Makes room for what is kept of a stream.
    fn make_mark(&mut self, stream: &Text) -> Result<(), Memory>
        ensures marked { OnOk result (is_marked self.new stream.now ≡ true) }
        ensures trials { KeepsTrials self.old self.new }
        ensures stays { StaysBut self.old self.new }
    {
        if self.marks.contains_key(stream) {
            return Ok(());
        }
        let name = stream.copy(self.alloc)?;
        self.marks.insert(name, Mark::NEW)?;
        Ok(())
    }

    #[tactic(auto, using(crate::proofs::Queue::put_waits, crate::proofs::Queue::still_waits))]
    // Puts a stream at a place, where nothing stands. Where something does, it is lost, and that is out of memory too.
    fn put_at(&mut self, place: Place, stream: Text) -> Result<(), Memory>
        ensures put { OnOk result (spec.waits self.new stream ≡ true) }
        ensures still { OnOk result (StayWaiting self.old self.new) }
        ensures rest { StaysButQueue self.old self.new }
    {
        match self.queue.insert(place, stream)? {
            None => Ok(()),
            Some(lost) => {
                drop(lost);
                Err(Memory)
            }
        }
    }

    // Has a stream wait that isn't being tried. Out of memory is its only error.
    fn put(&mut self, stream: &Text) -> Result<(), Memory>
        ensures put { OnOk result (spec.waits self.new stream.now ≡ true) }
        ensures still { OnOk result (StayWaiting self.old self.new) }
        ensures trials { KeepsTrials self.old self.new }
        ensures log { StaysLogged self.old.schedule self.new.schedule }
        ensures room { StaysKnown self.old.schedule self.new.schedule }
        ensures counted { StaysCounted self.old self.new }
    {
        if self.waits(stream) {
            return Ok(());
        }
        self.make_room(stream)?;
        let name = stream.copy(self.alloc)?;
        let place = Place {
            due: self.schedule.due_at(stream),
            turn: self.turns,
        };
        self.turns = self.turns.wrapping_add(1);
        self.set_place(stream, place);
        self.put_at(place, name)
    }

    /// A stream may owe something: it waits from now on, or is looked at again once it is released. Where memory is refused,
    /// a listing is wanted, and that needs none.
    pub fn tell(&mut self, stream: &Text)
        ensures remembered { IsRemembered self.new stream.now }
        ensures keeps { LosesNone self.old self.new }
        ensures triers { KeepsTriers self.old self.new }
        ensures log { StaysLogged self.old.schedule self.new.schedule }
        ensures room { StaysKnown self.old.schedule self.new.schedule }
        ensures errands { self.new.errands ≡ self.old.errands }
        ensures listing { self.new.listing ≡ self.old.listing }
    {
        match self.mark(stream).by {
            Trier::Nobody => self.put_or_list(stream),
            by => self.set_trier(stream, by, true),
        }
    }

    // Has a stream wait that isn't being tried, or a listing be wanted.
    fn put_or_list(&mut self, stream: &Text)
        ensures remembered { IsRemembered self.new stream.now }
        ensures keeps { LosesNone self.old self.new }
        ensures triers { KeepsTriers self.old self.new }
        ensures log { StaysLogged self.old.schedule self.new.schedule }
        ensures room { StaysKnown self.old.schedule self.new.schedule }
        ensures errands { self.new.errands ≡ self.old.errands }
        ensures listing { self.new.listing ≡ self.old.listing }
    {
        if self.put(stream).is_err() {
            self.wanted = true;
        }
    }

    // Whether an errand may take the first that waits.
    fn is_ready(&self, now: u64) -> bool
        ensures { result ≡ spec.is_ready self.now now }
    {
        self.errands < ERRANDS_AT_ONCE && self.is_first_due(now)
    }

    // Whether the first that waits is due.
    fn is_first_due(&self, now: u64) -> bool
        ensures { result ≡ spec.is_first_due self.now.queue.entries now }
    {
        match self.queue.first_key_value() {
            Some((place, _)) => place.due <= now,
            None => false,
        }
    }

    /// Whether a claim or a listing would be given at this time, in seconds since 1970. It looks at the first that waits alone.
    pub fn claims_at(&self, now: u64) -> bool
        ensures { result ≡ (spec.wants_listing self.now || spec.is_ready self.now now) }
    {
        self.wants_listing() || self.is_ready(now)
    }

    /// Whether a listing of all streams is to begin: one was wanted and none is under way. From then on one is under way.
    pub fn begin_listing(&mut self) -> bool
        ensures wanted { result ≡ spec.wants_listing self.old }
        ensures begun { result ≡ true → (self.new.listing ≡ true) × (self.new.wanted ≡ false) }
        ensures none { result ≡ false → (self.new.listing ≡ self.old.listing) × (self.new.wanted ≡ self.old.wanted) }
        ensures same { StaysButListing self.old self.new }
    {
        let begins = self.wants_listing();
        if begins {
            self.wanted = false;
            self.listing = true;
        }
        begins
    }

    /// A listing ended, in which each stream was told of that may owe something: `whole`. Else one is wanted again.
    pub fn end_listing(&mut self, whole: bool)
        ensures over { self.new.listing ≡ false }
        ensures wanted { self.new.wanted ≡ (self.old.wanted || not whole) }
        ensures same { StaysButListing self.old self.new }
    {
        self.listing = false;
        self.wanted = self.wanted || !whole;
    }

    /// The next stream that an errand is to try: the first that waits, where it is due at this time, in seconds since 1970.
    /// From then on the errand tries it, and there is room for the note of its attempt. None where the first isn't due, or
    /// `ERRANDS_AT_ONCE` errands are trying one, or memory is refused.
    pub fn claim(&mut self, now: u64) -> Option<Text>
        ensures first { IfSome result (λ stream. told self.old ≡ stream ∷ told self.new) }
        ensures ready { OnSome result (is_ready self.old now ≡ true) }
        ensures free { IfSome result (λ stream. is_tried self.old stream ≡ false) }
        ensures due { IfSome result (λ stream. (log : List Attempt) → IsLogged self.old.schedule log → due log stream ≤ now) }
        ensures tried { IfSome result (λ stream. trier self.new stream ≡ Trier.Errand) }
        ensures known { IfSome result (λ stream. is_known self.new.schedule stream ≡ true) }
        ensures others { IfSome result (λ stream. KeepsOtherTriers stream self.old self.new) }
        ensures keeps { IfSome result (λ stream. LosesNoOther stream self.old self.new) }
        ensures errands { OnSome result (self.new.errands ≡ self.old.errands + 1) }
        ensures none_tried { IfNone result (KeepsTriers self.old self.new) }
        ensures none_lost { IfNone result (LosesNone self.old self.new) }
        ensures none_counted { IfNone result (self.new.errands ≡ self.old.errands) }
        ensures log { StaysLogged self.old.schedule self.new.schedule }
        ensures room { StaysKnown self.old.schedule self.new.schedule }
        ensures listing { self.new.listing ≡ self.old.listing }
    {
        if !self.is_ready(now) {
            return None;
        }
        let (_, stream) = self.queue.pop_first()?;
        if self.begin(&stream, now) {
            return Some(stream);
        }
        // Where it can't begin a listing finds it again.
        drop(stream);
        self.wanted = true;
        None
    }

    // An errand begins to try a stream, where nobody does and it is due.
    fn begin(&mut self, stream: &Text, now: u64) -> bool
        requires { self.old.errands < ERRANDS_AT_ONCE }
        ensures free { result ≡ true → is_tried self.old stream.now ≡ false }
        ensures due { result ≡ true → (log : List Attempt) → IsLogged self.old.schedule log → due log stream.now ≤ now }
        ensures tried { result ≡ true → trier self.new stream.now ≡ Trier.Errand }
        ensures known { result ≡ true → is_known self.new.schedule stream.now ≡ true }
        ensures others { result ≡ true → KeepsOtherTrials stream.now self.old self.new }
        ensures errands { result ≡ true → self.new.errands ≡ self.old.errands + 1 }
        ensures wanted { self.new.wanted ≡ self.old.wanted }
        ensures none_tried { result ≡ false → KeepsTrials self.old self.new }
        ensures none_counted { result ≡ false → self.new.errands ≡ self.old.errands }
        ensures queue { self.new.queue.entries ≡ self.old.queue.entries }
        ensures log { StaysLogged self.old.schedule self.new.schedule }
        ensures room { StaysKnown self.old.schedule self.new.schedule }
        ensures listing { self.new.listing ≡ self.old.listing }
    {
        let is_free = !self.is_tried(stream);
        let is_due = self.is_due(stream, now);
        if !is_free || !is_due || self.make_room(stream).is_err() {
            return false;
        }
        self.set_trier(stream, Trier::Errand, false);
        self.errands += 1;
        true
    }

    // Whether a stream is being tried.
    fn is_tried(&self, stream: &Text) -> bool
        ensures { result ≡ spec.is_tried self.now stream.now }
    {
        match self.mark(stream).by {
            Trier::Nobody => false,
            Trier::Errand | Trier::Round => true,
        }
    }

    /// Whether a round of pushes may try a stream: nobody does. From then on the round tries it, and there is room for the note
    /// of an attempt. Where somebody does, or memory is refused, it is told of, so that it is looked at again.
    pub fn begin_round(&mut self, stream: &Text) -> bool
        ensures free { result ≡ true → is_tried self.old stream.now ≡ false }
        ensures tried { result ≡ true → trier self.new stream.now ≡ Trier.Round }
        ensures known { result ≡ true → is_known self.new.schedule stream.now ≡ true }
        ensures others { KeepsOtherTriers stream.now self.old self.new }
        ensures keeps { LosesNoOther stream.now self.old self.new }
        ensures passed { result ≡ false → trier self.new stream.now ≡ trier self.old stream.now }
        ensures remembered { result ≡ false → IsRemembered self.new stream.now }
        ensures log { StaysLogged self.old.schedule self.new.schedule }
        ensures room { StaysKnown self.old.schedule self.new.schedule }
        ensures errands { self.new.errands ≡ self.old.errands }
        ensures listing { self.new.listing ≡ self.old.listing }
    {
        if self.is_tried(stream) || self.make_room(stream).is_err() {
            self.tell(stream);
            return false;
        }
        // What waited is looked at again once the round is over.
        let waited = self.leave(stream);
        self.set_trier(stream, Trier::Round, waited);
        true
    }

    // Has a stream wait no more, and tells whether it did.
    fn leave(&mut self, stream: &Text) -> bool
        ensures keeps { LosesNoOther stream.now self.old self.new }
        ensures rest { StaysButFound self.old self.new }
    {
        let place = self.mark(stream).place;
        self.waits(stream) && self.take_off(place, stream)
    }

    // Takes off what stands at a place, and tells whether it was this stream. Where it was another one a listing finds it again.
    #[tactic(auto, using(crate::proofs::Queue::others_wait))]
    fn take_off(&mut self, place: Place, stream: &Text) -> bool
        ensures keeps { LosesNoOther stream.now self.old self.new }
        ensures rest { StaysButFound self.old self.new }
    {
        let Some(there) = self.queue.remove(&place) else {
            return false;
        };
        if there == *stream {
            return true;
        }
        drop(there);
        self.wanted = true;
        false
    }

    /// Notes an attempt of a stream that is being tried: it is last in the log, if there is room for it, as there is since its
    /// trial began. Where it was late the stream is looked at again once it is released.
    pub fn note(&mut self, attempt: &Attempt)
        requires { attempt.now.at ≤ LAST_NUMBER }
        ensures noted { is_tried self.old attempt.now.stream ≡ true → is_known self.old.schedule attempt.now.stream ≡ true
            → (log : List Attempt) → IsLogged self.old.schedule log → IsLogged self.new.schedule (log ++ attempt.now ∷ []) }
        ensures nothing { is_tried self.old attempt.now.stream ≡ false → StaysLogged self.old.schedule self.new.schedule }
        ensures late { is_tried self.old attempt.now.stream ≡ true → attempt.now.good ≡ false → is_again self.new attempt.now.stream ≡ true }
        ensures keeps { LosesNone self.old self.new }
        ensures triers { KeepsTriers self.old self.new }
        ensures room { StaysKnown self.old.schedule self.new.schedule }
        ensures same { (self.new.queue.entries ≡ self.old.queue.entries) × StaysCounted self.old self.new }
    {
        if self.is_tried(&attempt.stream) {
            self.add(attempt);
            self.look_again(&attempt.stream, !attempt.good);
        }
    }

    // Notes an attempt, if there is room for it or memory for room.
    fn add(&mut self, attempt: &Attempt)
        requires { attempt.now.at ≤ LAST_NUMBER }
        ensures noted { is_known self.old.schedule attempt.now.stream ≡ true
            → (log : List Attempt) → IsLogged self.old.schedule log → IsLogged self.new.schedule (log ++ attempt.now ∷ []) }
        ensures room { StaysKnown self.old.schedule self.new.schedule }
        ensures same { (self.new.queue.entries ≡ self.old.queue.entries) × (self.new.marks.entries ≡ self.old.marks.entries) × StaysCounted self.old self.new }
    {
        if self.schedule.make_room(&attempt.stream).is_ok() {
            self.schedule.note_known(attempt);
        }
    }

    // A stream that is being tried is looked at again once it is released, where `again`.
    fn look_again(&mut self, stream: &Text, again: bool)
        ensures again { is_tried self.old stream.now ≡ true → again ≡ true → is_again self.new stream.now ≡ true }
        ensures keeps { LosesNone self.old self.new }
        ensures triers { KeepsTriers self.old self.new }
        ensures stays { StaysBut self.old self.new }
    {
        let by = self.mark(stream).by;
        if again && self.is_tried(stream) {
            self.set_trier(stream, by, true);
        }
    }

    /// A stream is tried no more. It is told of, where it was to be looked at again, or `more` says that it may owe more.
    pub fn release(&mut self, stream: &Text, more: bool)
        ensures free { is_tried self.new stream.now ≡ false }
        ensures others { KeepsOtherTriers stream.now self.old self.new }
        ensures remembered { (more || is_again self.old stream.now) ≡ true → IsRemembered self.new stream.now }
        ensures keeps { LosesNone self.old self.new }
        ensures log { StaysLogged self.old.schedule self.new.schedule }
        ensures room { StaysKnown self.old.schedule self.new.schedule }
        ensures errands { self.new.errands ≡ self.old.errands - errands_of (trier self.old stream.now) }
        ensures listing { self.new.listing ≡ self.old.listing }
    {
        let mark = self.mark(stream);
        if let Trier::Errand = mark.by {
            self.errands = self.errands.saturating_sub(1);
        }
        let again = mark.again && self.is_tried(stream);
        self.free(stream);
        if more || again {
            self.tell(stream);
        }
    }

    // Nobody tries a stream.
    fn free(&mut self, stream: &Text)
        ensures free { is_tried self.new stream.now ≡ false }
        ensures others { KeepsOtherMarks stream.now self.old self.new }
        ensures stays { StaysBut self.old self.new }
    {
        if self.is_tried(stream) {
            self.set_trier(stream, Trier::Nobody, false);
        }
    }
}
