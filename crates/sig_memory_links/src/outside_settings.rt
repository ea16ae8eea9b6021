//! The settings of an outside in memory.

ghost use Rattle.std.specs.Prelude.{◌≡◌, ◌++◌, ◌∷◌, [], ◌-◌, zero, suc, IfSome, IsNone, IsSome, option_map};
ghost use Rattle.sig_memory_links.specs.Outside.{settings_back, source_of, without_source};

use crate::named::take_named;
use crate::{LentSource, NamedSource};
use sig_json::Items;
use std::marker::Model;

// Settings by their names. What comes back stands last, and there is room for it.
#[derive(Drop)]
pub(crate) struct HeldSettings {
    there: Vec<NamedSource>,
    out: usize,
}

impl Model for HeldSettings {
    ghost use Rattle.std.specs.Prelude.{◌+◌, ◌≤◌, vec_capacity, length};
    ghost use Rattle.sig_memory_links.specs.Outside.{MemorySettings};

    ghost Value = { MemorySettings };

    ghost view = { λ s. record { there = s.there.items; out = s.out } };

    ghost invariant = { λ s. length s.there.items + s.out ≤ vec_capacity s.there };
}

impl HeldSettings {
    pub(crate) fn new(settings: Items<NamedSource>) -> HeldSettings
        ensures { result ≡ record { there = settings; out = 0 } }
    {
        HeldSettings {
            there: settings.into_vec(),
            out: 0,
        }
    }

    // The first settings with this name.
    pub(crate) fn take(&mut self, name: &str) -> Option<LentSource>
        ensures given { option_map (λ source. source.named) result ≡ source_of name.now self.old }
        ensures whole { IfSome result (λ source. source.faults ≡ 0) }
        ensures out { IsSome result → self.new ≡ without_source name.now self.old }
        ensures none { IsNone result → self.new ≡ self.old }
    {
        let given = take_named(&mut self.there, name)?;
        self.out += 1;
        Some(LentSource::new(given))
    }

    // Takes back settings. None are kept where none are out.
    pub(crate) fn take_back(&mut self, source: LentSource)
        ensures { self.new ≡ settings_back source.named self.old.there self.old.out }
    {
        if self.out == 0 {
            return;
        }
        self.out -= 1;
        let _ = self.there.push(source.into_named());
    }
}
