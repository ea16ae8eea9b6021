ghost use Rattle.std.specs.Prelude.{◌≡◌, ◌↔◌, ◌<◌, ◌++◌, ◌∷◌, [], IfOk, IsTrue, OnErr, OnOk, false, if◌then◌else◌, length};

use crate::Pair;
use indexmap::IndexSet;
use sig_json::Memory;
use std::alloc::Global;
use std::marker::Model;

/// What a pair that is added met.
#[derive(Clone, Copy, PartialEq, Eq)]
pub enum Found {
    /// It was there, and nothing changed.
    There,
    /// It is new, and stands last.
    Added,
}

/// The pairs of the tokens that were taken, each once, in the order in which they came. Contracts see their list, and for
/// how many more there is room.
#[derive(Drop)]
pub struct Seen {
    alloc: Global,
    pairs: IndexSet<Pair>,
}

impl Model for Seen {
    ghost use Rattle.std.specs.Prelude.{◌≡◌, true};
    ghost use Rattle.indexmap.specs.IndexSet.{spare};
    ghost use Rattle.sig_inbox.specs.Pairs.{Held, are_distinct};

    ghost Value = { Held };

    ghost view = { λ s. record { pairs = s.pairs.keys; room = spare s.pairs } };

    ghost invariant = { λ s. are_distinct s.pairs.keys ≡ true };
}

#[tactic(auto, using(crate::proofs::Distinct::are_distinct_where_unique))]
impl Seen {
    ghost use Rattle.sig_inbox.specs.Pairs.{has_pair, with_pair};

    /// None yet. It keeps the allocator and takes no memory.
    pub fn new(alloc: Global) -> Seen
        ensures { result.pairs ≡ [] }
    {
        Seen {
            alloc,
            pairs: IndexSet::new(alloc),
        }
    }

    /// Whether the pair is there. It is one look-up, and takes no memory.
    pub fn has(&self, pair: &Pair) -> bool
        ensures { result ≡ has_pair pair.now self.now.pairs }
    {
        self.pairs.contains(pair)
    }

    /// Adds a pair last, unless it is there: `There` exactly where it is. One look-up decides. After out of memory the
    /// pairs are as before.
    pub fn add(&mut self, pair: Pair) -> Result<Found, Memory>
        ensures found { IfOk result (λ found. found ≡ (if has_pair pair self.old.pairs then Found.There else Found.Added)) }
        ensures kept { IfOk result (λ found. self.new.pairs ≡ with_pair pair self.old.pairs) }
        ensures err { OnErr result (self.new.pairs ≡ self.old.pairs) }
    {
        let (_, is_new) = self.pairs.insert_full(pair)?;
        Ok(if is_new { Found::Added } else { Found::There })
    }

    /// Makes room for one more pair. Out of memory is its only error.
    pub fn make_room(&mut self) -> Result<(), Memory>
        ensures same { self.new.pairs ≡ self.old.pairs }
        ensures room { OnOk result (0 < self.new.room) }
    {
        match self.pairs.reserve(1) {
            Ok(()) => Ok(()),
            Err(_) => Err(Memory),
        }
    }

    /// Adds a pair last, which isn't there and for which there is room. It takes no memory.
    pub fn put(&mut self, pair: Pair)
        requires new { has_pair pair self.old.pairs ≡ false }
        requires room { 0 < self.old.room }
        ensures { self.new.pairs ≡ self.old.pairs ++ pair ∷ [] }
    {
        // There is room, so no memory is asked for; whether the pair is new is known.
        let _ = self.pairs.insert(pair).unwrap();
    }

    /// How many there are.
    pub fn len(&self) -> u64
        ensures { result ≡ length self.now.pairs }
    {
        self.pairs.len() as u64
    }

    /// The pairs in order.
    pub fn as_slice(&self) -> &[Pair]
        ensures { result.now ≡ self.now.pairs }
    {
        self.pairs.as_slice()
    }

    /// Whether both have the same pairs in the same order, whatever room each has for more.
    pub fn has_same_pairs(&self, other: &Seen) -> bool
        ensures { IsTrue result ↔ (self.now.pairs ≡ other.now.pairs) }
    {
        self == other
    }

    /// The same pairs in the same order. Out of memory is its only error.
    pub fn copy(&self) -> Result<Seen, Memory>
        ensures { IfOk result (λ s. s.pairs ≡ self.now.pairs) }
    {
        let mut copy = Seen::new(self.alloc);
        for pair in self.pairs.as_slice() {
            copy.make_room()?;
            let pair = pair.copy(self.alloc)?;
            copy.put(pair);
        }
        Ok(copy)
    }
}

/// The pairs are compared in their order, and not the room for more.
impl PartialEq for Seen {
    ghost use Rattle.std.specs.Cmp.Lexicographic.{pointwise, lists_per, nat_list_eq_equiv};
    ghost use Rattle.std.specs.Cmp.{and_per, on_per, partial_equiv_from_equiv};
    ghost use Rattle.sig_inbox.specs.Pairs.{pair_eq};

    ghost eq = { λ a b. pointwise pair_eq a.pairs b.pairs };

    ghost laws = { on_per (λ s. s.pairs) (lists_per (and_per (on_per (λ p. p.iss) (partial_equiv_from_equiv nat_list_eq_equiv)) (on_per (λ p. p.jti) (partial_equiv_from_equiv nat_list_eq_equiv)))) };

    fn eq(&self, other: &Seen) -> bool {
        self.pairs.as_slice() == other.pairs.as_slice()
    }
}
