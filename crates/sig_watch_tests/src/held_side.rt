//! A side that tells its board what it does, and has its time from there.

ghost use Rattle.std.specs.Prelude.{◌≡◌};

use crate::board::Board;
use sig_links::Side;
use sig_outside::{Failed, Place};
use std::mem::replace;
use std::rt::Clock;

/// A side that dials as another one does.
#[derive(Drop)]
pub struct HeldSide<'a, C, S> {
    board: &'a Board<C>,
    side: S,
    // Whether it dialled, and what for isn't known to be over.
    is_trying: bool,
}

impl<'a, C: Clock, S: Side> HeldSide<'a, C, S> {
    /// A side that dials as this one does.
    pub fn new(board: &'a Board<C>, side: S) -> HeldSide<'a, C, S>
        ensures { result.side ≡ side }
    {
        HeldSide {
            board,
            side,
            is_trying: false,
        }
    }
}

impl<'a, C: Clock, S: Side> Side for HeldSide<'a, C, S> {
    type L = S::L;

    ghost use Rattle.std.specs.Prelude.{None};

    ghost view = { λ s. record { ahead = (S.view s.side).ahead; times = None; sent = (S.view s.side).sent; faults = (S.view s.side).faults } };

    ghost out = { λ s. S.out s.side };

    ghost plan = { S.plan };

    fn dial(&mut self, place: &Place) -> Result<S::L, Failed> {
        self.board.dial();
        self.is_trying = true;
        self.side.dial(place)
    }

    fn begin_round(&mut self) {
        self.side.begin_round();
    }

    fn note(&mut self, topic: Option<&str>, line: &str) {
        self.side.note(topic, line);
    }

    // Whoever asks for the time once more has done what it dialled for.
    fn now(&mut self) -> u64 {
        if replace(&mut self.is_trying, false) {
            self.board.end_trial();
        }
        self.board.now()
    }

    fn back(&mut self, link: S::L) {
        self.side.back(link);
    }
}
