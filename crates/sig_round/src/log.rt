use crate::asking::turn_of;
use sig_json::Memory;
use sig_terms::Call;
use sig_txnode::{Taker, Turn};
use std::sync::Wait;

/// The turns that a link made, and as whom it asks the next.
#[derive(Drop)]
pub struct TurnLog {
    /// The number of the link.
    pub link: u32,
    /// The time of its request, in seconds since 1970; one above 2^62 counts as that.
    pub now: u64,
    /// The turns, in order.
    pub turns: Vec<Turn>,
}

impl TurnLog {
    ghost use Rattle.std.specs.Prelude.{◌≡◌, [], ◌∷◌, ◌++◌, OnErr, OnOk};
    ghost use Rattle.sig_calls.specs.Proper.{IsProperCall};
    ghost use Rattle.sig_round.specs.Turns.{Adds, AddsTurnOf, HasRoom};

    /// Asks a call as one turn, and keeps the turn last.
    ///
    /// Room for the turn is taken before it is made. At `Memory` neither the log nor the taker has a turn more.
    pub fn ask<R: Wait, K: Taker>(
        &mut self,
        rt: &R,
        taker: &mut K,
        call: Call,
    ) -> Result<(), Memory>
        requires { IsProperCall call }
        ensures asked { OnOk result (AddsTurnOf (record { link = self.old.link; now = self.old.now }) call self.old.turns.items self.new.turns.items (K.told taker.old) (K.told taker.new)) }
        ensures memory { OnErr result (Adds [] self.old.turns.items self.new.turns.items (K.told taker.old) (K.told taker.new)) }
        ensures link { self.new.link ≡ self.old.link }
        ensures now { self.new.now ≡ self.old.now }
    {
        match self.make_room() {
            Ok(()) => self.ask_with_room(rt, taker, call),
            Err(Memory) => {
                drop(call);
                Err(Memory)
            }
        }
    }

    // Asks a call as one turn, and keeps the turn last, for which there is room.
    fn ask_with_room<R: Wait, K: Taker>(
        &mut self,
        rt: &R,
        taker: &mut K,
        call: Call,
    ) -> Result<(), Memory>
        requires call { IsProperCall call }
        requires room { HasRoom self.old }
        ensures asked { OnOk result (AddsTurnOf (record { link = self.old.link; now = self.old.now }) call self.old.turns.items self.new.turns.items (K.told taker.old) (K.told taker.new)) }
        ensures memory { OnErr result (Adds [] self.old.turns.items self.new.turns.items (K.told taker.old) (K.told taker.new)) }
        ensures link { self.new.link ≡ self.old.link }
        ensures now { self.new.now ≡ self.old.now }
    {
        match turn_of(rt, taker, self.link, self.now, call) {
            Ok(turn) => {
                self.keep(turn);
                Ok(())
            }
            Err(Memory) => Err(Memory),
        }
    }

    // Makes room for one turn.
    fn make_room(&mut self) -> Result<(), Memory>
        ensures room { OnOk result (HasRoom self.new) }
        ensures turns { self.new.turns.items ≡ self.old.turns.items }
        ensures link { self.new.link ≡ self.old.link }
        ensures now { self.new.now ≡ self.old.now }
    {
        Ok(self.turns.reserve(1)?)
    }

    // Keeps a turn last, for which there is room.
    fn keep(&mut self, turn: Turn)
        requires { HasRoom self.old }
        ensures turns { self.new.turns.items ≡ self.old.turns.items ++ turn ∷ [] }
        ensures link { self.new.link ≡ self.old.link }
        ensures now { self.new.now ≡ self.old.now }
    {
        self.turns.push_reserved(turn);
    }
}
