//! The topics of lines that were told.

ghost use Rattle.std.specs.Prelude.{◌≡◌, ◌≤◌, ◌+◌, ◌-◌, ◌^◌, IfNone, IfSome, false, min, true, vec_len};
ghost use Rattle.sig_system.specs.Notes as spec;
ghost use Rattle.sig_system.specs.declared.topics.TheConstants.{NOTE_TOPICS};

use std::alloc::Global;

/// How many seconds after a line about a topic the next one is told.
pub const NOTE_SECONDS: u64 = 60;

/// How many topics are known at a time. Where a further one comes, the one that is known longest is forgotten.
pub const NOTE_TOPICS: usize = 64;

// A topic: when a line about it was told, and how many were left out since.
#[derive(Drop)]
struct Topic {
    name: String,
    last: u64,
    left_out: u64,
}

/// The topics that are known.
#[derive(Drop)]
pub struct Topics {
    known: Vec<Topic>,
    ghost few: { vec_len known ≤ NOTE_TOPICS },
}

impl Topics {
    /// No topics.
    pub fn new(alloc: Global) -> Topics {
        Topics {
            known: Vec::new(alloc),
        }
    }

    /// Whether a line about this topic is told now, and how many were left out since the last one. One that there is no memory
    /// for is told.
    pub fn told(&mut self, alloc: Global, name: &str, now: u64) -> Option<u64> {
        for topic in self.known.iter_mut() {
            if topic.name.as_str() == name {
                return topic.told(now);
            }
        }
        if let Ok(name) = String::from_str(alloc, name) {
            self.add(Topic {
                name,
                last: now,
                left_out: 0,
            });
        }
        Some(0)
    }

    // Puts a topic last.
    fn add(&mut self, topic: Topic) {
        if self.known.len() >= NOTE_TOPICS {
            self.known.remove(0);
        }
        let _ = self.known.push(topic);
    }
}

impl Topic {
    // Whether a line about it is told now, and how many were left out since the last one.
    fn told(&mut self, now: u64) -> Option<u64>
        ensures told { IfSome result (λ count. (spec.is_due self.old.last now ≡ true) × (count ≡ self.old.left_out)) }
        ensures again { IfSome result (λ count. (self.new.last ≡ now) × (self.new.left_out ≡ 0)) }
        ensures left_out { IfNone result (spec.is_due self.old.last now ≡ false) }
        ensures one_more { IfNone result ((self.new.last ≡ self.old.last) × (self.new.left_out ≡ min (self.old.left_out + 1) (2 ^ 64 - 1))) }
    {
        if !is_due(self.last, now) {
            self.left_out = self.left_out.saturating_add(1);
            return None;
        }
        let count = self.left_out;
        self.last = now;
        self.left_out = 0;
        Some(count)
    }
}

// Whether a line about a topic is told now, of which the last was told then.
fn is_due(last: u64, now: u64) -> bool
    ensures { result ≡ spec.is_due last now }
{
    now < last || now - last >= NOTE_SECONDS
}
