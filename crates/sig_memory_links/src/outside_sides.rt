//! The sides of an outside in memory.

ghost use Rattle.std.specs.Prelude.{◌≡◌, [], IfSome, IsNone};
ghost use Rattle.sig_memory_links.specs.Lent.{lent_one, taken_back};
ghost use Rattle.sig_memory_links.specs.Outside.{IsNextSide};

use crate::MemSide;
use crate::lent::put_at;
use sig_json::Items;
use std::marker::Model;

// Sides in order: those that came back, and then those that are ahead. A side that comes back takes the room that one left,
// so that handing one out takes no memory.
#[derive(Drop)]
pub(crate) struct HeldSides {
    sides: Vec<MemSide>,
    back: usize,
    out: usize,
}

impl Model for HeldSides {
    ghost use Rattle.std.specs.Prelude.{◌+◌, ◌≤◌, drop, length, take, vec_capacity};
    ghost use Rattle.sig_memory_links.specs.Memory.{MemorySide};
    ghost use Rattle.sig_memory_links.specs.Outside.{Handed};

    ghost Value = { Handed MemorySide };

    ghost view = { λ s. record { ahead = drop s.back s.sides.items; lent = record { back = take s.back s.sides.items; out = s.out } } };

    ghost invariant = { λ s. (s.back ≤ length s.sides.items) × (length s.sides.items + s.out ≤ vec_capacity s.sides) };
}

impl HeldSides {
    pub(crate) fn new(sides: Items<MemSide>) -> HeldSides
        ensures { result ≡ record { ahead = sides; lent = record { back = []; out = 0 } } }
    {
        HeldSides {
            sides: sides.into_vec(),
            back: 0,
            out: 0,
        }
    }

    // The next side, as one that is handed out.
    #[tactic(auto, using(crate::proofs::SideLemmas::back_stays, crate::proofs::SideLemmas::ahead_goes_on))]
    pub(crate) fn take(&mut self) -> Option<MemSide>
        ensures next { IfSome result (λ side. IsNextSide side self.old.ahead self.new.ahead) }
        ensures lent { IfSome result (λ side. self.new.lent ≡ lent_one self.old.lent) }
        ensures none { IsNone result → (self.old.ahead ≡ []) × (self.new ≡ self.old) }
    {
        if self.back >= self.sides.len() {
            return None;
        }
        let mut side = self.sides.remove(self.back);
        self.out += 1;
        side.begin();
        Some(side)
    }

    // Takes back a side. It isn't kept where none is out.
    #[tactic(auto, using(crate::proofs::SideLemmas::back_grows, crate::proofs::SideLemmas::ahead_stays))]
    pub(crate) fn take_back(&mut self, side: MemSide)
        ensures { self.new ≡ record { ahead = self.old.ahead; lent = taken_back side self.old.lent.back self.old.lent.out } }
    {
        if self.out == 0 {
            return;
        }
        self.out -= 1;
        put_at(&mut self.sides, self.back, side);
        self.back += 1;
    }

    // The sides that came back, in order.
    pub(crate) fn back(&self) -> &[MemSide]
        ensures { result.now ≡ self.now.lent.back }
    {
        self.sides.as_slice().split_at(self.back).0
    }
}
