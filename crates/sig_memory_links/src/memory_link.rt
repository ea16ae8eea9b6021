ghost use Rattle.std.specs.Prelude.{◌≡◌, ◌↔◌, ◌≤◌, [], Some, length, option_map, IfOk, IsErr, IsTrue, OnErr};
ghost use Rattle.std.specs.Io.{ReadsAtMost};
ghost use Rattle.std.specs.Io.KnownBytes.{ReadConsumes, WriteAppends};
ghost use Rattle.sig_outside.specs.Causes.{HasCause, Stalls};
ghost use Rattle.sig_memory_links.specs.Lent.{called, fails_next};
ghost use Rattle.sig_memory_links.specs.Memory.{begun, pair_of};

use crate::planned::PlannedFaults;
use sig_json::{Bytes, Items};
use sig_links::{FaultCount, Link};
use sig_outside::{Failed, MemSource, Place, Sink, Source};
use std::alloc::Global;
use std::marker::Model;

/// A link in memory. It tells what is left to read and what was written.
///
/// A write that is refused memory fails.
#[derive(Drop)]
pub struct MemLink {
    source: MemSource,
    written: Bytes,
    place: Option<Place>,
    plan: PlannedFaults,
    reads: FaultCount,
    writes: FaultCount,
}

impl Model for MemLink {
    ghost use Rattle.std.specs.Prelude.{◌≡◌, [], option_map};
    ghost use Rattle.sig_memory_links.specs.Memory.{MemoryLink, pair_of};

    ghost Value = { MemoryLink };

    ghost view = { λ l. record { left = l.source.left; written = l.written; dialled = option_map pair_of l.place; plan = l.plan; reads = l.reads; writes = l.writes } };

    // Its source never fails by itself.
    ghost invariant = { λ l. l.source.failing ≡ [] };
}

impl MemLink {
    /// The bytes that it gives, and the numbers, from 0, of the calls that are to fail; reads and writes are numbered
    /// together. It grows with this allocator.
    pub fn new(alloc: Global, bytes: Bytes, failing: Items<u64>) -> MemLink
        ensures { result ≡ record { left = bytes; written = []; dialled = None; plan = record { numbers = failing; calls = 0 }; reads = 0; writes = 0 } }
    {
        MemLink {
            source: MemSource::new(bytes, Items::of(Vec::new(alloc))),
            written: Bytes::new(alloc),
            place: None,
            plan: PlannedFaults::new(failing),
            reads: FaultCount::new(),
            writes: FaultCount::new(),
        }
    }

    /// What is left to read.
    pub fn rest(&self) -> &[u8]
        ensures { result.now ≡ self.now.left }
    {
        self.source.rest()
    }

    /// What was written.
    pub fn written(&self) -> &[u8]
        ensures { result.now ≡ self.now.written }
    {
        self.written.as_slice()
    }

    /// How many reads failed.
    pub fn read_faults(&self) -> u64
        ensures { result ≡ self.now.reads }
    {
        self.reads.count()
    }

    /// How many writes failed.
    pub fn write_faults(&self) -> u64
        ensures { result ≡ self.now.writes }
    {
        self.writes.count()
    }

    // Makes it one that is handed out: dialled there, or accepted.
    pub(crate) fn begin(&mut self, place: Option<Place>)
        ensures { self.new ≡ begun (option_map pair_of place) self.old }
    {
        self.written.clear();
        self.place = place;
        self.reads = FaultCount::new();
        self.writes = FaultCount::new();
    }
}

impl Source for MemLink {
    ghost use Rattle.std.specs.Prelude.{Some};

    ghost left = { λ l. Some l.left };

    ghost beside = { λ l. Some (record { bytes = Some l.written; faults = l.writes; place = l.dialled }) };

    ghost faults = { λ l. l.reads };

    fn take(&mut self, buf: &mut [u8]) -> Result<usize, Failed>
        ensures bound { ReadsAtMost result buf.new }
        ensures bytes { ReadConsumes (Some self.old.left) (Some self.new.left) result buf.new }
        ensures stays { (self.new.written ≡ self.old.written) × (self.new.writes ≡ self.old.writes) × (self.new.dialled ≡ self.old.dialled) }
        ensures cause { HasCause self.old.reads self.new.reads result }

        // It fails exactly where that is planned.
        ensures fails { IsErr result ↔ IsTrue (fails_next self.old.plan) }
        ensures called { self.new.plan ≡ called self.old.plan }
    {
        if self.plan.fails_next() {
            return Err(self.reads.raise());
        }
        match self.source.take(buf) {
            Ok(count) => Ok(count),
            Err(_) => Err(self.reads.raise()),
        }
    }
}

impl Sink for MemLink {
    ghost use Rattle.std.specs.Prelude.{Some};

    ghost written = { λ l. Some l.written };

    ghost beside = { λ l. Some (record { bytes = Some l.left; faults = l.reads; place = l.dialled }) };

    ghost faults = { λ l. l.writes };

    ghost stalls = { λ l. 0 };

    fn put(&mut self, bytes: &[u8]) -> Result<usize, Failed>
        ensures takes { IfOk result (λ n. n ≡ length bytes.now) }
        ensures bytes { WriteAppends (Some self.old.written) (Some self.new.written) result bytes.now }
        ensures stalls { IfOk result (λ n. Stalls 0 0 n bytes.now) }
        ensures stays { (self.new.left ≡ self.old.left) × (self.new.reads ≡ self.old.reads) × (self.new.dialled ≡ self.old.dialled) }
        ensures cause { HasCause self.old.writes self.new.writes result }

        // It fails where that is planned, and else only where it is refused memory.
        ensures planned { IsTrue (fails_next self.old.plan) → IsErr result }
        ensures called { self.new.plan ≡ called self.old.plan }
    {
        if self.plan.fails_next() {
            return Err(self.writes.raise());
        }
        match self.written.add(bytes) {
            Ok(()) => Ok(bytes.len()),
            Err(_) => Err(self.writes.raise()),
        }
    }
}

impl Link for MemLink {
    ghost use Rattle.std.specs.Prelude.{refl};

    ghost dialled = { λ l. l.dialled };

    // It keeps all that it has.
    fn finish(&mut self)
        ensures { self.new ≡ self.old }
    {}

    ghost beside_reads = { λ l. refl };

    ghost beside_writes = { λ l. refl };

    ghost moves = { λ l. refl };
}
