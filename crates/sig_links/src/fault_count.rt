ghost use Rattle.std.specs.Prelude.{◌≡◌};
ghost use Rattle.sig_outside.specs.Causes.{Raised};
ghost use Rattle.sig_links.specs.Told.{Gathers};

use sig_outside::Failed;
use std::marker::Model;

/// How many calls of something failed. It stands at 2^64 - 1.
#[derive(Drop)]
pub struct FaultCount {
    count: u64,
}

impl Model for FaultCount {
    ghost use Rattle.std.specs.Prelude.{ℕ};

    ghost Value = { ℕ };

    ghost view = { λ f. f.count };
}

impl FaultCount {
    /// The count of something that has met no fault.
    pub fn new() -> FaultCount
        ensures { result ≡ 0 }
    {
        FaultCount { count: 0 }
    }

    /// The number.
    pub fn count(&self) -> u64
        ensures { result ≡ self.now }
    {
        self.count
    }

    /// Counts a call that failed, and gives its answer.
    pub fn raise(&mut self) -> Failed
        ensures { Raised self.old self.new }
    {
        self.count = self.count.saturating_add(1);
        Failed
    }

    /// Adds the faults of something that is given back.
    pub fn gather(&mut self, met: u64)
        ensures { Gathers self.old self.new met }
    {
        self.count = self.count.saturating_add(met);
    }
}
