ghost use Rattle.std.specs.Prelude.{◌≡◌, ◌+◌, false, true, min};
ghost use Rattle.sig_system.specs.Deadlines as spec;

/// How many milliseconds after it was accepted a link ends, whatever its peer does.
pub const LINK_MILLISECONDS: u64 = 60_000;

/// How many milliseconds after its first byte the rest of a request has to be there.
pub const REQUEST_MILLISECONDS: u64 = 15_000;

/// How many milliseconds after a response, or after the link was made, the next request has to begin.
pub const IDLE_MILLISECONDS: u64 = 15_000;

/// How many milliseconds a link has to end that its door asks to.
pub const HURRY_MILLISECONDS: u64 = 250;

/// How many milliseconds after its dial a link ends that was dialled.
pub const EXCHANGE_MILLISECONDS: u64 = 15_000;

/// How many milliseconds after it began a round of pushes over one stream dials no more, and its last link ends.
pub const ROUND_MILLISECONDS: u64 = 15_000;

/// How many milliseconds a read of a link waits for bytes before it fails.
pub const READ_MILLISECONDS: u64 = 30_000;

/// How many milliseconds a write to a link waits for room before it fails.
pub const WRITE_MILLISECONDS: u64 = 30_000;

// Until when a link may wait for its peer, in milliseconds since it was made. What is due is the first byte of the next
// request, and once that came the rest of it.
#[derive(Clone, Copy, Drop)]
pub struct Deadline {
    pub end: u64,
    pub due: u64,
    pub begun: bool,
}

impl Deadline {
    // Of a link that was just made, and ends after so many milliseconds.
    pub fn after(milliseconds: u64) -> Deadline
        ensures { result ≡ spec.after milliseconds }
    {
        Deadline {
            end: milliseconds,
            due: IDLE_MILLISECONDS,
            begun: false,
        }
    }

    // Until when a read may wait that began then.
    pub fn reads_until(&self, began: u64) -> u64
        ensures { result ≡ spec.reads_until began self.now }
    {
        until(READ_MILLISECONDS, began, self.end.min(self.due))
    }

    // Until when a write may wait that began then.
    pub fn writes_until(&self, began: u64) -> u64
        ensures { result ≡ spec.writes_until began self.now }
    {
        until(WRITE_MILLISECONDS, began, self.end)
    }

    // The link is asked to end soon.
    pub fn hurry(&mut self, now: u64)
        ensures { self.new ≡ spec.hurried now self.old }
    {
        self.end = until(HURRY_MILLISECONDS, now, self.end);
    }

    // Bytes were read: the first of a request, or further ones of it.
    pub fn came(&mut self, now: u64)
        ensures { self.new ≡ spec.came now self.old }
    {
        if !self.begun {
            self.begun = true;
            self.due = now.saturating_add(REQUEST_MILLISECONDS);
        }
    }

    // Bytes were written: a response, after which the next request is waited for.
    pub fn answered(&mut self, now: u64)
        ensures { self.new ≡ spec.answered now self.old }
    {
        self.begun = false;
        self.due = now.saturating_add(IDLE_MILLISECONDS);
    }
}

// So many milliseconds from then, or an earlier moment.
fn until(limit: u64, began: u64, moment: u64) -> u64
    ensures { result ≡ spec.until limit began moment }
{
    began.saturating_add(limit).min(moment)
}

// How long may be waited under this limit until then.
pub fn within(limit: u64, until: u64, now: u64) -> Option<u64>
    ensures { result ≡ spec.waits limit until now }
{
    if until <= now {
        return None;
    }
    Some(limit.min(until - now))
}

// How many milliseconds a link may take that is dialled now: where it is of a round, that has lasted so long.
pub fn exchange_after(lasted: Option<u64>) -> Option<u64>
    ensures { result ≡ spec.exchange_after lasted }
{
    match lasted {
        Some(lasted) => within(EXCHANGE_MILLISECONDS, ROUND_MILLISECONDS, lasted),
        None => Some(EXCHANGE_MILLISECONDS),
    }
}
