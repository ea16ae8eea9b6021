ghost use Rattle.std.specs.Prelude.{◌≡◌, Some};
ghost use Rattle.std.specs.Io.{ReadsAtMost};
ghost use Rattle.std.specs.Io.KnownBytes.{ReadConsumes};
ghost use Rattle.sig_outside.specs.Causes.{HasCause};

use crate::NamedSource;
use sig_links::FaultCount;
use sig_outside::{Failed, Source};

/// Settings that are out. They keep their name, and count the reads that failed since they were handed out.
#[derive(Drop)]
pub struct LentSource {
    named: NamedSource,
    faults: FaultCount,
}

impl LentSource {
    // Settings as they are handed out.
    pub(crate) fn new(named: NamedSource) -> LentSource
        ensures { result ≡ record { named = named; faults = 0 } }
    {
        LentSource {
            named,
            faults: FaultCount::new(),
        }
    }

    // The settings with their name, as they are given back.
    pub(crate) fn into_named(self) -> NamedSource
        ensures { result ≡ self.named }
    {
        self.named
    }

    /// How many reads failed since they were handed out.
    pub fn faults(&self) -> u64
        ensures { result ≡ self.now.faults }
    {
        self.faults.count()
    }
}

impl Source for LentSource {
    ghost use Rattle.std.specs.Prelude.{None, Some};

    ghost left = { λ s. Some s.named.source.left };

    ghost beside = { λ s. None };

    ghost faults = { λ s. s.faults };

    fn take(&mut self, buf: &mut [u8]) -> Result<usize, Failed>
        ensures bound { ReadsAtMost result buf.new }
        ensures bytes { ReadConsumes (Some self.old.named.source.left) (Some self.new.named.source.left) result buf.new }
        ensures name { self.new.named.name ≡ self.old.named.name }
        ensures cause { HasCause self.old.faults self.new.faults result }
    {
        match self.named.source.take(buf) {
            Ok(count) => Ok(count),
            Err(_) => Err(self.faults.raise()),
        }
    }
}
