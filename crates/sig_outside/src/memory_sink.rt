ghost use Rattle.std.specs.Prelude.{◌≡◌, ◌≤◌, ◌+◌, ◌-◌, ◌^◌, List, [], ℕ, length, min, max, Option, Some, None, IfOk, OnErr, OnOk, IsErr, nat_eq, true, false, if◌then◌else◌};
ghost use Rattle.std.specs.List.{list_any};
ghost use Rattle.std.specs.Io.KnownBytes.{WriteAppends};
ghost use Rattle.sig_outside.specs.Causes.{Beside, HasCause, Raised, Stalls};

use crate::planned::is_planned;
use crate::{Failed, Sink};
use sig_json::{Bytes, Items};
use std::alloc::Global;
use std::marker::Model;

/// A sink of bytes in memory. It tells what is written. A call that is refused memory fails; it is counted among those
/// that failed, and apart too.
#[derive(Drop)]
pub struct MemSink {
    bytes: Bytes,
    piece: usize,
    idle: Items<u64>,
    failing: Items<u64>,
    calls: u64,
    stalls: u64,
    faults: u64,
    refused: u64,
}

impl Model for MemSink {
    ghost use Rattle.std.specs.Prelude.{ℕ, ◌<◌};
    ghost use Rattle.sig_outside.specs.Memory.{Taken};

    ghost Value = { Taken };

    ghost view = { λ s. record { written = s.bytes; piece = s.piece; idle = s.idle; failing = s.failing; calls = s.calls; stalls = s.stalls; faults = s.faults; refused = s.refused } };

    ghost invariant = { λ s. 0 < s.piece };
}

impl MemSink {
    /// A sink that takes each piece whole, and the numbers, from 0, of the calls that are to fail. It grows with this
    /// allocator.
    pub fn new(alloc: Global, failing: Items<u64>) -> MemSink
        ensures { result ≡ record { written = []; piece = usize.MAX; idle = []; failing = failing; calls = 0; stalls = 0; faults = 0; refused = 0 } }
    {
        MemSink::in_pieces(alloc, usize::MAX, Items::of(Vec::new(alloc)), failing)
    }

    /// A sink that takes at most so many bytes a call, one at least, and none at all in the calls of these numbers.
    pub fn in_pieces(alloc: Global, piece: usize, idle: Items<u64>, failing: Items<u64>) -> MemSink
        ensures { result ≡ record { written = []; piece = max piece 1; idle = idle; failing = failing; calls = 0; stalls = 0; faults = 0; refused = 0 } }
    {
        MemSink {
            bytes: Bytes::new(alloc),
            piece: piece.max(1),
            idle,
            failing,
            calls: 0,
            stalls: 0,
            faults: 0,
            refused: 0,
        }
    }

    /// What is written.
    pub fn bytes(&self) -> &[u8]
        ensures { result.now ≡ self.now.written }
    {
        self.bytes.as_slice()
    }
}

impl Sink for MemSink {
    ghost written = { λ s. Some s.written };

    ghost beside = { λ s. None };

    ghost faults = { λ s. s.faults };

    ghost stalls = { λ s. s.stalls };

    fn put(&mut self, bytes: &[u8]) -> Result<usize, Failed>
        ensures bound { IfOk result (λ n. n ≤ length bytes.now) }
        ensures bytes { WriteAppends (Some self.old.written) (Some self.new.written) result bytes.now }
        ensures stalls { IfOk result (λ n. Stalls self.old.stalls self.new.stalls n bytes.now) }
        ensures flows { OnErr result (self.new.stalls ≡ self.old.stalls) }
        ensures cause { HasCause self.old.faults self.new.faults result }

        // It fails exactly where that is planned, and where it is refused memory, which is counted apart.
        ensures planned { list_any (nat_eq self.old.calls) self.old.failing ≡ true → IsErr result × (self.new.refused ≡ self.old.refused) }
        ensures unplanned { list_any (nat_eq self.old.calls) self.old.failing ≡ false → OnErr result (Raised self.old.refused self.new.refused) }
        ensures taken { OnOk result (self.new.refused ≡ self.old.refused) }
        ensures takes { IfOk result (λ n. n ≡ (if list_any (nat_eq self.old.calls) self.old.idle then 0 else min self.old.piece (length bytes.now))) }
        ensures counts { self.new.calls ≡ min (self.old.calls + 1) (2 ^ 64 - 1) }
        ensures stays { (self.new.piece ≡ self.old.piece) × (self.new.idle ≡ self.old.idle) × (self.new.failing ≡ self.old.failing) }
    {
        let fails = is_planned(&self.failing, self.calls);
        let idles = is_planned(&self.idle, self.calls);
        self.calls = self.calls.saturating_add(1);
        if fails {
            self.faults = self.faults.saturating_add(1);
            return Err(Failed);
        }
        let room = if idles { 0 } else { self.piece };
        let taken = bytes.split_at(bytes.len().min(room)).0;
        if self.bytes.add(taken).is_err() {
            self.refused = self.refused.saturating_add(1);
            self.faults = self.faults.saturating_add(1);
            return Err(Failed);
        }
        if taken.is_empty() && !bytes.is_empty() {
            self.stalls = self.stalls.saturating_add(1);
        }
        Ok(taken.len())
    }
}
