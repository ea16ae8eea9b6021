//! The tokens that were reported as faulty, as they are held.

ghost use Rattle.std.specs.Prelude.{◌≡◌, ◌↔◌, ◌+◌, ◌≤◌, ◌<◌, [], ◌∷◌, IfOk, IsTrue, OnOk, drop, length, map, option_map, take};
ghost use Rattle.sig_accounts.specs.Reported.{id_in, none_reported, refusals_at, refused_at, with_reported};

use crate::kept_refusal::KeptRefusal;
use crate::publication::Publication;
use crate::publish_id::PublishId;
use sig_history::limits::REFUSED_KEPT;
use sig_json::limits::LAST_NUMBER;
use sig_json::{Items, Memory, Same};
use sig_terms::RefusedToken;
use std::alloc::Global;
use std::collections::VecDeque;
use std::marker::Model;

/// The last tokens that were reported as faulty, in order: the first one is left out where there is a new one and as many as
/// are kept.
///
/// Contracts see them, how many were left out before them, and for how many further ones there is room.
pub struct Refusals {
    before: u64,
    list: VecDeque<KeptRefusal>,
}

impl Drop for Refusals {
    fn drop(self) {
        let Refusals { before: _, list } = self;
        drop(list);
    }
}

impl Model for Refusals {
    ghost use Rattle.std.specs.Prelude.{◌-◌, ◌≤◌, length};
    ghost use Rattle.std.specs.VecDeque.{deque_capacity, deque_len};
    ghost use Rattle.sig_json.specs.declared.limits.TheConstants.{LAST_NUMBER};
    ghost use Rattle.sig_history.specs.declared.limits.TheConstants.{REFUSED_KEPT};
    ghost use Rattle.sig_accounts.specs.Reported.{ReportedRoom};

    ghost Value = { ReportedRoom };

    ghost view = { λ r. record {
      reported = record { before = r.before; kept = r.list.items };
      room = deque_capacity r.list - deque_len r.list;
    } };

    ghost invariant = { λ r. (r.before ≤ LAST_NUMBER) × (deque_len r.list ≤ REFUSED_KEPT) };
}

impl Refusals {
    /// None. It takes no memory.
    pub fn new(alloc: Global) -> Refusals
        ensures { result.reported ≡ none_reported }
    {
        Refusals {
            before: 0,
            list: VecDeque::new(alloc),
        }
    }

    /// Equal ones, with room of their own.
    pub fn copy(&self, alloc: Global) -> Result<Refusals, Memory>
        ensures { IfOk result (λ r. r.reported ≡ self.now.reported) }
    {
        Ok(Refusals {
            before: self.before,
            list: copy_queue(alloc, &self.list)?,
        })
    }

    /// How many were left out before the first one that is kept, counted up to 2^62.
    pub fn before(&self) -> u64
        ensures { result ≡ self.now.reported.before }
    {
        self.before
    }

    /// The place behind the last one, among all that were ever reported.
    pub fn end(&self) -> u64
        ensures { result ≡ self.now.reported.before + length self.now.reported.kept }
    {
        self.before + self.list.len() as u64
    }

    /// Room for so many more.
    pub fn reserve(&mut self, count: usize) -> Result<(), Memory>
        ensures same { self.new.reported ≡ self.old.reported }
        ensures room { OnOk result (count ≤ self.new.room) }
    {
        self.list.reserve(count)?;
        Ok(())
    }

    /// Puts one at the end. It takes no memory.
    pub fn push(&mut self, refusal: KeptRefusal)
        requires { 0 < self.old.room }
        ensures reported { self.new.reported ≡ with_reported self.old.reported (refusal ∷ []) }
        ensures room { self.old.room ≤ self.new.room + 1 }
    {
        if self.list.len() == REFUSED_KEPT {
            let _ = self.list.pop_front();
            self.before = LAST_NUMBER.min(self.before + 1);
        }
        // There is room, so the push keeps it.
        let _ = self.list.push_back(refusal);
    }

    /// Puts these at the end, in order. It takes no memory.
    pub fn take_in(&mut self, refusals: VecDeque<KeptRefusal>)
        requires { length refusals.items ≤ self.old.room }
        ensures { self.new.reported ≡ with_reported self.old.reported refusals.items }
    {
        let mut left = refusals;
        while let Some(refusal) = left.pop_front() {
            self.push(refusal);
        }
    }

    /// Whether both come to the same tokens, over what was published.
    pub fn same(&self, published: &[Publication], other: &Refusals) -> bool
        ensures { IsTrue result ↔ (refusals_at published.now self.now.reported ≡ refusals_at published.now other.now.reported) }
    {
        self.before == other.before && same_queues(published, &self.list, &other.list)
    }

    /// Those at the places from one on among those that are kept, at most so many.
    pub fn page(
        &self,
        alloc: Global,
        published: &[Publication],
        start: usize,
        most: usize,
    ) -> Result<Items<RefusedToken>, Memory>
        ensures { IfOk result (λ items. items ≡ map (refused_at published.now) (take most (drop start self.now.reported.kept))) }
    {
        let start = self.list.len().min(start);
        let count = most.min(self.list.len() - start);
        let mut tokens = Vec::new(alloc);
        for i in 0..count {
            let token = self.list[start + i].token(alloc, published)?;
            tokens.push(token)?;
        }
        Ok(Items::of(tokens))
    }
}

// Equal ones in the same order.
fn copy_queue(alloc: Global, list: &VecDeque<KeptRefusal>) -> Result<VecDeque<KeptRefusal>, Memory>
    ensures { IfOk result (λ q. q.items ≡ list.now.items) }
{
    let mut copies = VecDeque::new(alloc);
    for i in 0..list.len() {
        let copy = list[i].copy(alloc)?;
        copies.push_back(copy)?;
    }
    Ok(copies)
}

// Whether they come to the same tokens, in the same order.
fn same_queues(
    published: &[Publication],
    some: &VecDeque<KeptRefusal>,
    others: &VecDeque<KeptRefusal>,
) -> bool
    ensures { IsTrue result ↔ (map (refused_at published.now) some.now.items ≡ map (refused_at published.now) others.now.items) }
{
    if some.len() != others.len() {
        return false;
    }
    for i in 0..some.len() {
        if !same_refusal(published, &some[i], &others[i]) {
            return false;
        }
    }
    true
}

// Whether both come to the same token.
fn same_refusal(published: &[Publication], one: &KeptRefusal, other: &KeptRefusal) -> bool
    ensures { IsTrue result ↔ (refused_at published.now one.now ≡ refused_at published.now other.now) }
{
    one.stream.same(&other.stream)
        && one.number == other.number
        && same_id(published, one.place, other.place)
        && one.code.same(&other.code)
        && one.time == other.time
}

// Whether the publications at two places have one name, or both are none.
fn same_id(published: &[Publication], one: Option<usize>, other: Option<usize>) -> bool
    ensures { IsTrue result ↔ (id_in published.now one ≡ id_in published.now other) }
{
    match (id_of(published, one), id_of(published, other)) {
        (None, None) => true,
        (Some(id), Some(name)) => id.same(name),
        _ => false,
    }
}

// The name of the publication at a place, where there is one.
fn id_of(published: &[Publication], place: Option<usize>) -> Option<&PublishId>
    ensures { option_map (λ id. id.now) result ≡ id_in published.now place }
{
    match published.get(place?) {
        None => None,
        Some(publication) => Some(publication.id()),
    }
}
