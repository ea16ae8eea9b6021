//! Lines on standard error.

use crate::calendar::{Moment, moment_at};
use crate::showing::shown;
use crate::tcp_side::seconds;
use crate::topics::Topics;
use std::alloc::Global;
use std::rt::Clock;
use std::str::from_utf8;
use std::sync::{Arc, Mutex};

/// What tells lines on standard error, each with the time. All ends of it share the topics that were told, where there was
/// memory for them. No contract speaks of it, since each thread may tell a line at any time.
#[derive(Drop)]
pub struct Notes {
    topics: Option<Arc<Mutex<Topics>, Global>>,
}

impl Notes {
    /// Without topics. Where there is no memory for them, each line is told.
    pub fn new(alloc: Global) -> Notes {
        Notes {
            topics: Arc::new(alloc, Mutex::new(Topics::new(alloc))).ok(),
        }
    }

    /// Another end of it.
    pub fn shared(&self) -> Notes {
        match &self.topics {
            Some(topics) => Notes {
                topics: Arc::try_clone(topics).ok(),
            },
            None => Notes { topics: None },
        }
    }

    /// Tells a line, unless one about this topic was told within a minute. One for which there is no memory is left out.
    pub fn tell<R: Clock + Eprint>(&self, alloc: Global, rt: &R, topic: Option<&str>, line: &str) {
        let now = seconds(rt).unwrap_or(0);
        let Some(left_out) = self.left_out(alloc, topic, now) else {
            return;
        };
        if let Ok(bytes) = shown(alloc, line) {
            if let Ok(text) = from_utf8(bytes.as_slice()) {
                print(rt, now, text, left_out);
            }
        }
    }

    // How many lines about this topic were left out before one that is told now. Where another thread has the topics, it is
    // told.
    fn left_out(&self, alloc: Global, topic: Option<&str>, now: u64) -> Option<u64> {
        let (Some(topics), Some(name)) = (&self.topics, topic) else {
            return Some(0);
        };
        match topics.try_lock() {
            Some(mut guard) => guard.told(alloc, name, now),
            None => Some(0),
        }
    }
}

// Prints a line, in one write.
fn print<R: Eprint>(rt: &R, now: u64, text: &str, left_out: u64) {
    let Some(moment) = moment_at(now) else {
        return;
    };
    let Moment {
        year,
        month,
        day,
        hour,
        minute,
        second,
    } = moment;
    let _ = if left_out == 0 {
        eprintln!(rt; "{year}-{month:02}-{day:02}T{hour:02}:{minute:02}:{second:02}Z {text}")
    } else {
        eprintln!(rt;
            "{year}-{month:02}-{day:02}T{hour:02}:{minute:02}:{second:02}Z {text} (and {left_out} more)"
        )
    };
}
