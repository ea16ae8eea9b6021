//! A door that gives a few held links, after some accepts that give none.

ghost use Rattle.std.specs.Prelude.{◌≡◌, []};

use crate::board::Board;
use crate::held_link::{HeldLink, Plan};
use crate::held_side::HeldSide;
use sig_json::{Bytes, Items, Memory};
use sig_links::{Accepted, Door, FaultCount};
use sig_memory_links::{MemLink, MemSide};
use sig_outside::Failed;
use std::alloc::Global;
use std::rt::Clock;

// The response of a receiver that takes a token (RFC 8935, section 2.2).
const ACCEPTED: &[u8] = b"HTTP/1.1 202 Accepted\r\ncontent-length: 0\r\n\r\n";

/// An accept that gives no link.
#[derive(Clone, Copy)]
pub struct Pause {
    /// How many dials, with what they were for, are over before it ends.
    pub after: u64,
    /// How many seconds pass in it.
    pub seconds: u64,
}

/// A door that has these pauses, and then gives links by these plans, the last ones first, and keeps what was written to the
/// links. Their sides reach nobody, and its own ones nobody or a receiver that takes one token.
#[derive(Drop)]
pub struct HeldDoor<'a, C> {
    alloc: Global,
    board: &'a Board<C>,
    pauses: Vec<Pause>,
    /// What it has not given yet.
    pub plans: Vec<Plan>,
    // How many dials reach nobody before its own sides reach the receiver.
    lost: u64,
    written: Vec<Bytes>,
    faults: FaultCount,
}

impl<'a, C: Clock> HeldDoor<'a, C> {
    /// A door of these plans, whose own sides reach nobody.
    pub fn new(alloc: Global, board: &'a Board<C>, plans: Vec<Plan>) -> HeldDoor<'a, C> {
        HeldDoor::of_pauses(alloc, board, Vec::new(alloc), u64::MAX, plans)
    }

    /// A door of these pauses and plans, whose own sides reach the receiver after so many dials.
    pub fn of_pauses(
        alloc: Global,
        board: &'a Board<C>,
        pauses: Vec<Pause>,
        lost: u64,
        plans: Vec<Plan>,
    ) -> HeldDoor<'a, C> {
        HeldDoor {
            alloc,
            board,
            pauses,
            plans,
            lost,
            written: Vec::new(alloc),
            faults: FaultCount::new(),
        }
    }

    /// What was written to each, in the order in which they came back.
    pub fn into_written(self) -> Vec<Bytes> {
        let HeldDoor {
            alloc: _,
            board: _,
            pauses: _,
            plans: _,
            lost: _,
            written,
            faults: _,
        } = self;
        written
    }

    // The links that its own sides dial.
    fn links(&self) -> Result<Vec<MemLink>, Memory> {
        let mut links = Vec::new(self.alloc);
        if self.board.dials() >= self.lost {
            let bytes = Bytes::of(self.alloc, ACCEPTED)?;
            let none = Items::of(Vec::new(self.alloc));
            links.push(MemLink::new(self.alloc, bytes, none))?;
        }
        Ok(links)
    }
}

// A side that dials these links.
fn side_of<'a, C: Clock>(
    alloc: Global,
    board: &'a Board<C>,
    links: Vec<MemLink>,
) -> HeldSide<'a, C, MemSide>
    ensures { (result.side.lent.back ≡ []) × (result.side.faults ≡ 0) }
{
    let times = Items::of(Vec::new(alloc));
    let failing = Items::of(Vec::new(alloc));
    HeldSide::new(board, MemSide::new(alloc, Items::of(links), times, failing))
}

impl<'a, C: Clock + Sync> Door for HeldDoor<'a, C> {
    type L = HeldLink<'a, C>;

    type S = HeldSide<'a, C, MemSide>;

    ghost use Rattle.std.specs.Prelude.{None, [], false};

    ghost view = { λ d. record { coming = None; served = None; out = 0; place = None; faults = d.faults } };

    ghost plan = { λ l. record { bytes = []; fails = false } };

    fn accept(&mut self) -> Result<Accepted<HeldLink<'a, C>, HeldSide<'a, C, MemSide>>, Failed> {
        if let Some(pause) = self.pauses.pop() {
            if !self.board.waits_for_trials(pause.after) {
                return Err(self.faults.raise());
            }
            self.board.pass(pause.seconds);
            return Ok(Accepted::Waited { lacking: false });
        }
        match self.plans.pop() {
            Some(plan) => {
                let _ = self.board.waits_for_ends(plan.after);
                Ok(Accepted::Link {
                    link: HeldLink::new(self.alloc, self.board, plan),
                    side: side_of(self.alloc, self.board, Vec::new(self.alloc)),
                })
            }
            None => Ok(Accepted::Shut),
        }
    }

    fn back(&mut self, link: HeldLink<'a, C>, _side: HeldSide<'a, C, MemSide>) {
        let _ = self.written.push(link.into_written());
    }

    fn own_side(&mut self) -> HeldSide<'a, C, MemSide> {
        match self.links() {
            Ok(links) => side_of(self.alloc, self.board, links),
            Err(Memory) => side_of(self.alloc, self.board, Vec::new(self.alloc)),
        }
    }

    fn hurry(&mut self) {}
}
