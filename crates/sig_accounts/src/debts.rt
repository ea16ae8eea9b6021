//! What a stream owes, as it is held.

ghost use Rattle.std.specs.Prelude.{◌≡◌, ◌+◌, ◌<◌, ◌≤◌, ℕ, List, [], ◌∷◌, ◌++◌, IfOk, OnOk, drop, filter, length, nat_eq, take, true};
ghost use Rattle.std.specs.List.{AllWithin};
ghost use Rattle.indexmap.specs.IndexSet.{contains};
ghost use Rattle.sig_accounts.specs.Debts.{is_from, is_left, is_to, numbered};
ghost use Rattle.sig_accounts.specs.Debts.{Rises};
ghost use Rattle.sig_accounts.specs.declared.debt.Debt.{Debt};

use crate::copying::copy_list;
use crate::debt::Debt;
use indexmap::IndexSet;
use sig_json::Memory;
use std::alloc::Global;
use std::marker::Model;

// A list of up to so many places never lets go of them.
const PLACES_KEPT: usize = 64;

/// What a stream owes, in order of number: it is looked for by halves, and taken off at the front.
///
/// Contracts see the debts, and for how many further ones there is room.
pub struct Debts {
    // Those before `first` are settled.
    list: Vec<Debt>,
    first: usize,
}

impl Drop for Debts {
    fn drop(self) {
        let Debts { list, first: _ } = self;
        drop(list);
    }
}

impl Model for Debts {
    ghost use Rattle.std.specs.Prelude.{◌-◌, ◌≤◌, drop, vec_len, vec_capacity};
    ghost use Rattle.sig_accounts.specs.Debts.{Queue};

    ghost Value = { Queue };

    ghost view = { λ d. record { debts = drop d.first d.list.items; room = vec_capacity d.list - vec_len d.list } };

    ghost invariant = { λ d. d.first ≤ vec_len d.list };
}

impl Debts {
    /// None. It takes no memory.
    pub fn new(alloc: Global) -> Debts
        ensures { result ≡ record { debts = []; room = 0 } }
    {
        Debts {
            list: Vec::new(alloc),
            first: 0,
        }
    }

    /// Equal ones, in the same order.
    pub fn copy(&self, alloc: Global) -> Result<Debts, Memory>
        ensures { IfOk result (λ d. d.debts ≡ self.now.debts) }
    {
        Ok(Debts {
            list: copy_list(alloc, self.as_slice())?,
            first: 0,
        })
    }

    /// All, in order of number.
    pub fn as_slice(&self) -> &[Debt]
        ensures { result.now ≡ self.now.debts }
    {
        &self.list[self.first..]
    }

    /// Those of numbers from one to another. They are looked for by halves.
    pub fn numbered(&self, least: u64, most: u64) -> &[Debt]
        requires { Rises 0 self.now.debts }
        ensures { result.now ≡ numbered least most self.now.debts }
    {
        let debts = self.as_slice();
        let low = &debts[..count_to(debts, most)];
        &low[count_below(low, least)..]
    }

    /// Room for one more.
    pub fn reserve(&mut self) -> Result<(), Memory>
        ensures same { self.new.debts ≡ self.old.debts }
        ensures ok { OnOk result (0 < self.new.room) }
    {
        self.list.reserve(1)?;
        Ok(())
    }

    /// Puts one at the end. It takes no memory.
    pub fn push(&mut self, debt: Debt)
        requires { 0 < self.old.room }
        ensures { self.new.debts ≡ self.old.debts ++ debt ∷ [] }
    {
        // There is room, so the push keeps the debt.
        let _ = self.list.push(debt);
    }

    /// Takes all off.
    pub fn clear(&mut self)
        ensures debts { self.new.debts ≡ [] }
        ensures room { self.old.room ≤ self.new.room }
    {
        self.list.clear();
        self.first = 0;
    }

    /// Takes those of these numbers off. It moves what stands from the first of them on, or up to the last of them, whichever is
    /// less, and takes no memory.
    pub fn settle(&mut self, numbers: &IndexSet<u64>)
        requires { Rises 0 self.old.debts }
        ensures { self.new.debts ≡ filter (is_left (contains nat_eq numbers.now)) self.old.debts }
    {
        let debts = self.as_slice();
        let from = count_below(debts, smallest(numbers));
        let end = count_to(debts, largest(numbers));
        if end <= debts.len() - from {
            self.settle_front(numbers, end);
        } else {
            self.settle_back(numbers, from);
        }
        self.let_go();
    }

    // Takes those of these numbers off, of which each is among the first so many.
    fn settle_front(&mut self, numbers: &IndexSet<u64>, count: usize)
        requires within { count ≤ length self.old.debts }
        requires left { filter (is_left (contains nat_eq numbers.now)) (drop count self.old.debts) ≡ drop count self.old.debts }
        ensures { self.new.debts ≡ filter (is_left (contains nat_eq numbers.now)) self.old.debts }
    {
        let end = self.first + count;
        self.first = sift_up(self.list.as_mut_slice(), self.first, end, numbers);
    }

    // Takes those of these numbers off, of which none is among the first so many.
    fn settle_back(&mut self, numbers: &IndexSet<u64>, count: usize)
        requires within { count ≤ length self.old.debts }
        requires left { filter (is_left (contains nat_eq numbers.now)) (take count self.old.debts) ≡ take count self.old.debts }
        ensures { self.new.debts ≡ filter (is_left (contains nat_eq numbers.now)) self.old.debts }
    {
        let first = self.first;
        let left = sift_from(self.list.as_mut_slice(), first, count, numbers);
        self.list.truncate(first + left);
    }

    // Lets go of the settled ones, where they are more than half of the list, and of memory, where three quarters of it are empty.
    fn let_go(&mut self)
        ensures { self.new.debts ≡ self.old.debts }
    {
        if self.first > self.list.len() / 2 {
            self.cut_front();
        }
        let places = self.list.capacity();
        if places > PLACES_KEPT && self.list.len() < places / 4 {
            // Where no smaller block is had, the list keeps its own.
            self.list.shrink_to(places / 2);
        }
    }

    // Lets go of the settled ones.
    fn cut_front(&mut self)
        ensures { self.new.debts ≡ self.old.debts }
    {
        let first = self.first;
        let left = self.list.len() - first;
        self.list.as_mut_slice().rotate_left(first);
        self.list.truncate(left);
        self.first = 0;
    }
}

// A number that none of these is below.
fn smallest(numbers: &IndexSet<u64>) -> u64
    ensures { (n : ℕ) → contains nat_eq numbers.now n ≡ true → result ≤ n }
{
    let mut least = u64::MAX;
    for number in numbers.as_slice() {
        least = least.min(*number);
    }
    least
}

// A number that none of these is above.
fn largest(numbers: &IndexSet<u64>) -> u64
    ensures { (n : ℕ) → contains nat_eq numbers.now n ≡ true → n ≤ result }
{
    let mut most = 0;
    for number in numbers.as_slice() {
        most = most.max(*number);
    }
    most
}

// How many have at most this number.
fn count_to(debts: &[Debt], number: u64) -> usize
    requires { Rises 0 debts.now }
    ensures within { result ≤ length debts.now }
    ensures low { take result debts.now ≡ filter (is_to number) debts.now }
    ensures above { AllWithin (λ (d : Debt). number < d.number) debts.now result (length debts.now) }
{
    debts.partition_point(|debt| debt.number <= number)
}

// How many have a number below this one.
fn count_below(debts: &[Debt], number: u64) -> usize
    requires { Rises 0 debts.now }
    ensures within { result ≤ length debts.now }
    ensures below { AllWithin (λ (d : Debt). d.number < number) debts.now 0 result }
    ensures rest { drop result debts.now ≡ filter (is_from number) debts.now }
{
    debts.partition_point(|debt| debt.number < number)
}

// Moves those from one place to another that aren't settled up, in order, and says where they begin.
fn sift_up(debts: &mut [Debt], from: usize, end: usize, numbers: &IndexSet<u64>) -> usize
    requires order { from ≤ end }
    requires within { end ≤ length debts.old }
    requires left { filter (is_left (contains nat_eq numbers.now)) (drop end debts.old) ≡ drop end debts.old }
    ensures within { result ≤ length debts.new }
    ensures left { drop result debts.new ≡ filter (is_left (contains nat_eq numbers.now)) (drop from debts.old) }
{
    let mut kept = end;
    let mut read = end;
    while from < read {
        read -= 1;
        if !numbers.contains(&debts[read].number) {
            kept -= 1;
            debts.swap(read, kept);
        }
    }
    kept
}

// Moves those that aren't settled down, in order, and says where they end. The first so many are left where they are.
fn sift_down(debts: &mut [Debt], from: usize, numbers: &IndexSet<u64>) -> usize
    requires within { from ≤ length debts.old }
    requires left { filter (is_left (contains nat_eq numbers.now)) (take from debts.old) ≡ take from debts.old }
    ensures within { result ≤ length debts.new }
    ensures left { take result debts.new ≡ filter (is_left (contains nat_eq numbers.now)) debts.old }
{
    let mut kept = from;
    for read in from..debts.len() {
        if !numbers.contains(&debts[read].number) {
            debts.swap(kept, read);
            kept += 1;
        }
    }
    kept
}

// The same, of the part from a place on.
fn sift_from(debts: &mut [Debt], first: usize, from: usize, numbers: &IndexSet<u64>) -> usize
    requires within { first + from ≤ length debts.old }
    requires left { filter (is_left (contains nat_eq numbers.now)) (take from (drop first debts.old)) ≡ take from (drop first debts.old) }
    ensures within { first + result ≤ length debts.new }
    ensures left { take result (drop first debts.new) ≡ filter (is_left (contains nat_eq numbers.now)) (drop first debts.old) }
{
    sift_down(&mut debts[first..], from, numbers)
}
