ghost use Rattle.std.specs.Prelude.{◌≡◌, ◌++◌, OnErr, OnOk, flat_map, string_bytes};
ghost use Rattle.sig_counts.specs.Tallies as spec;

use crate::put_line;
use indexmap::IndexMap;
use sig_json::{Memory, Text};
use std::alloc::Global;
use std::marker::Model;

/// How often each of some labels came, in the order in which they first came.
///
/// Contracts see the labels with their counts.
#[derive(Drop)]
pub struct Tally {
    counts: IndexMap<Text, u64>,
}

impl Model for Tally {
    ghost use Rattle.sig_counts.specs.Tallies.{Counted};

    ghost Value = { Counted };

    ghost view = { λ t. t.counts.entries };
}

impl Tally {
    ghost use Rattle.std.specs.Prelude.{[]};

    /// Nothing came. It keeps the allocator and takes no memory.
    pub fn new(alloc: Global) -> Tally
        ensures { result ≡ [] }
    {
        Tally {
            counts: IndexMap::new(alloc),
        }
    }

    /// How often a label came.
    pub fn count_of(&self, label: &Text) -> u64
        ensures { result ≡ spec.count_of self.now label.now }
    {
        match self.counts.get(label) {
            Some(count) => *count,
            None => 0,
        }
    }

    /// A label came once more. A count stays at 2^64 - 1. Out of memory is the only error, and then nothing changed.
    pub fn add(&mut self, label: Text) -> Result<(), Memory>
        ensures added { OnOk result (self.new ≡ spec.counted self.old label) }
        ensures memory { OnErr result (self.new ≡ self.old) }
    {
        let count = self.count_of(&label).saturating_add(1);
        self.counts.insert(label, count)?;
        Ok(())
    }

    /// Puts the line of each label last, each with what opens its label's text. Out of memory is the only error.
    pub fn put(&self, text: &mut String, front: &str) -> Result<(), Memory>
        ensures { OnOk result (string_bytes text.new ≡ string_bytes text.old ++ flat_map (spec.line_of front.now) self.now) }
    {
        for (label, count) in self.counts.iter() {
            put_line(text, front, label.as_str(), *count)?;
        }
        Ok(())
    }
}
