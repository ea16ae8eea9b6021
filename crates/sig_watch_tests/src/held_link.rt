//! A link whose request comes in two parts, the second once other links have come so far.

ghost use Rattle.std.specs.Prelude.{◌≡◌};

use crate::board::Board;
use sig_json::Bytes;
use sig_links::{FaultCount, Link};
use sig_outside::{Failed, Sink, Source};
use std::alloc::Global;
use std::rt::Clock;

/// What a link waits for before the rest of its request comes.
#[derive(Clone, Copy)]
pub enum Hold {
    Nothing,
    /// So many links, itself among them, have given the first part of their request.
    Begun(u64),
    /// So many links were answered with a status of success, and have ended.
    Answered(u64),
}

/// What a link will give, and when.
#[derive(Drop)]
pub struct Plan {
    /// The first part of a request.
    pub head: &'static [u8],
    /// The rest of it.
    pub body: &'static [u8],
    /// What it waits for between both parts.
    pub hold: Hold,
    /// How many links have ended before it comes to the door.
    pub after: u64,
}

/// A link that others may wait for. It tells nothing of its bytes.
#[derive(Drop)]
pub struct HeldLink<'a, C> {
    board: &'a Board<C>,
    plan: Plan,
    given: usize,
    written: Bytes,
    reads: FaultCount,
    writes: FaultCount,
}

impl<'a, C: Clock> HeldLink<'a, C> {
    /// A link by this plan.
    pub fn new(alloc: Global, board: &'a Board<C>, plan: Plan) -> HeldLink<'a, C>
        ensures { (result.reads ≡ 0) × (result.writes ≡ 0) }
    {
        HeldLink {
            board,
            plan,
            given: 0,
            written: Bytes::new(alloc),
            reads: FaultCount::new(),
            writes: FaultCount::new(),
        }
    }

    /// What was written to it.
    pub fn into_written(self) -> Bytes {
        let HeldLink {
            board: _,
            plan: _,
            given: _,
            written,
            reads: _,
            writes: _,
        } = self;
        written
    }

    // Waits for what the rest of the request waits for, and says whether that came.
    fn waits(&self) -> bool {
        match self.plan.hold {
            Hold::Nothing => true,
            Hold::Begun(count) => self.board.waits_for_begun(count),
            Hold::Answered(count) => self.board.waits_for_answered(count),
        }
    }

    // What it gives next, or nothing where it waited in vain.
    fn next(&self) -> Option<&[u8]> {
        if self.given < self.plan.head.len() {
            return self.plan.head.get(self.given..);
        }
        if !self.waits() {
            return None;
        }
        self.plan.body.get(self.given - self.plan.head.len()..)
    }
}

impl<'a, C: Clock> Source for HeldLink<'a, C> {
    ghost use Rattle.std.specs.Prelude.{None, Some};

    ghost left = { λ l. None };

    ghost beside = { λ l. Some (record { bytes = None; faults = l.writes; place = None }) };

    ghost faults = { λ l. l.reads };

    fn take(&mut self, buf: &mut [u8]) -> Result<usize, Failed> {
        let Some(rest) = self.next() else {
            return Err(self.reads.raise());
        };
        let count = rest.len().min(buf.len());
        for i in 0..count {
            buf[i] = rest[i];
        }
        let had = self.given;
        self.given = had.saturating_add(count);
        let head = self.plan.head.len();
        if had < head && head <= self.given {
            self.board.begin();
        }
        Ok(count)
    }
}

impl<'a, C: Clock> Sink for HeldLink<'a, C> {
    ghost use Rattle.std.specs.Prelude.{None, Some};

    ghost written = { λ l. None };

    ghost beside = { λ l. Some (record { bytes = None; faults = l.reads; place = None }) };

    ghost faults = { λ l. l.writes };

    ghost stalls = { λ l. 0 };

    fn put(&mut self, bytes: &[u8]) -> Result<usize, Failed> {
        match self.written.add(bytes) {
            Ok(()) => Ok(bytes.len()),
            Err(_) => Err(self.writes.raise()),
        }
    }
}

impl<'a, C: Clock> Link for HeldLink<'a, C> {
    ghost use Rattle.std.specs.Prelude.{None, refl};

    ghost dialled = { λ l. None };

    // Others may wait for it.
    fn finish(&mut self) {
        if self.written.as_slice().starts_with(b"HTTP/1.1 20") {
            self.board.answer();
        }
        self.board.end();
    }

    ghost beside_reads = { λ l. refl };

    ghost beside_writes = { λ l. refl };

    ghost moves = { λ l. refl };
}
