ghost use Rattle.std.specs.Prelude.{◌≡◌};
ghost use Rattle.sig_memory_links.specs.Lent.{called, fails_next};

use sig_json::Items;
use std::marker::Model;

/// The calls that are to fail, by their numbers from 0, and how many were made.
#[derive(Drop)]
pub(crate) struct PlannedFaults {
    numbers: Items<u64>,
    calls: u64,
}

impl Model for PlannedFaults {
    ghost use Rattle.sig_memory_links.specs.Lent.{Planned};

    ghost Value = { Planned };

    ghost view = { λ p. record { numbers = p.numbers; calls = p.calls } };
}

impl PlannedFaults {
    pub(crate) fn new(numbers: Items<u64>) -> PlannedFaults
        ensures { result ≡ record { numbers = numbers; calls = 0 } }
    {
        PlannedFaults { numbers, calls: 0 }
    }

    // Whether the next call is to fail. It is counted.
    pub(crate) fn fails_next(&mut self) -> bool
        ensures fails { result ≡ fails_next self.old }
        ensures called { self.new ≡ called self.old }
    {
        let fails = self.numbers.as_slice().contains(&self.calls);
        self.calls = self.calls.saturating_add(1);
        fails
    }
}
