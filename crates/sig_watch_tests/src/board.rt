//! What the links and sides of a door wait for and tell one another, with a time of their own.

use std::rt::Clock;
use std::sync::atomic::{AtomicU64, Ordering};
use std::thread::sleep;
use std::time::Duration;

/// The time of a board at first, in seconds since 1970.
pub const START: u64 = 1_700_000_000;

// How often one that waits looks, a millisecond after the last time, before it gives up.
const LOOKS: u64 = 10_000;

/// How far the links and sides of a door have come. Its clock measures how long one waits, and is no other's time.
#[derive(Drop)]
pub struct Board<C> {
    clock: C,
    begun: AtomicU64,
    answered: AtomicU64,
    ended: AtomicU64,
    dials: AtomicU64,
    tried: AtomicU64,
    // Seconds since `START`.
    passed: AtomicU64,
    vain: AtomicU64,
}

impl<C: Clock> Board<C> {
    /// None has come, and nothing was dialled.
    pub fn new(clock: C) -> Board<C> {
        Board {
            clock,
            begun: AtomicU64::new(0),
            answered: AtomicU64::new(0),
            ended: AtomicU64::new(0),
            dials: AtomicU64::new(0),
            tried: AtomicU64::new(0),
            passed: AtomicU64::new(0),
            vain: AtomicU64::new(0),
        }
    }

    /// A link gave the first part of its request.
    pub fn begin(&self) {
        add(&self.begun, 1);
    }

    /// A link was answered with a status of success.
    pub fn answer(&self) {
        add(&self.answered, 1);
    }

    /// A link has ended.
    pub fn end(&self) {
        add(&self.ended, 1);
    }

    /// A side dials.
    pub fn dial(&self) {
        add(&self.dials, 1);
    }

    /// What a side dialled for is over.
    pub fn end_trial(&self) {
        add(&self.tried, 1);
    }

    /// So many seconds pass.
    pub fn pass(&self, seconds: u64) {
        add(&self.passed, seconds);
    }

    /// The time, in seconds since 1970.
    pub fn now(&self) -> u64 {
        START.saturating_add(self.passed.load(Ordering::SeqCst))
    }

    /// How often a side dialled.
    pub fn dials(&self) -> u64 {
        self.dials.load(Ordering::SeqCst)
    }

    /// Waits until so many links have given the first part of their request, and says whether they have.
    pub fn waits_for_begun(&self, count: u64) -> bool {
        self.reaches(&self.begun, count)
    }

    /// Waits until so many links were answered with a status of success, and says whether they were.
    pub fn waits_for_answered(&self, count: u64) -> bool {
        self.reaches(&self.answered, count)
    }

    /// Waits until so many links have ended, and says whether they have.
    pub fn waits_for_ends(&self, count: u64) -> bool {
        self.reaches(&self.ended, count)
    }

    /// Waits until so many dials, with what they were for, are over, and says whether they are.
    pub fn waits_for_trials(&self, count: u64) -> bool {
        self.reaches(&self.tried, count)
    }

    // Waits until a number is this or more, and says whether it is. Once one gave up, nobody waits any more, so that what was
    // waited for in vain takes some seconds in all.
    fn reaches(&self, number: &AtomicU64, least: u64) -> bool {
        for _ in 0..LOOKS {
            if number.load(Ordering::SeqCst) >= least {
                return true;
            }
            if self.vain.load(Ordering::SeqCst) > 0 {
                return false;
            }
            sleep(&self.clock, Duration::from_millis(1));
        }
        add(&self.vain, 1);
        false
    }
}

fn add(number: &AtomicU64, more: u64) {
    number.fetch_add(more, Ordering::SeqCst);
}
