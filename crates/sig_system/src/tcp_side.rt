ghost use Rattle.std.specs.Prelude.{◌≡◌, None, Some, IfOk, IfSome};
ghost use Rattle.sig_outside.specs.Causes.{HasCause};
ghost use Rattle.sig_system.specs.Adapters.{pair_of, untold, unused};

use crate::bell::Bell;
use crate::deadline::{exchange_after, within};
use crate::timing::milliseconds;
use crate::{Notes, TcpLink};
use sig_links::{FaultCount, Side};
use sig_outside::{Failed, Place};
use std::alloc::Global;
use std::marker::Model;
use std::net::{Net, TcpStream, ToSocketAddrs};
use std::rt::Clock;
use std::time::{Duration, Instant, SystemTime, UNIX_EPOCH};

/// How many seconds a dial waits for an answer from the addresses of a host, all together.
pub const DIAL_SECONDS: u64 = 5;

/// How many addresses of a host a dial tries at most.
pub const DIAL_ADDRESSES: usize = 4;

/// What dials over TCP, and tells the system's time. It tells nothing of what its links will give, and counts its faults.
/// `R` is a handle on the network and the clock, as a reference to the runtime.
#[derive(Drop)]
pub struct TcpSide<R> {
    rt: R,
    alloc: Global,
    time: u64,
    // When the round began whose links it dials, if it is asked for rounds.
    round: Option<Instant>,
    notes: Notes,
    // What asks the links that it dials to end soon, if its door does.
    bell: Option<Bell>,
    faults: FaultCount,
}

impl<R> Model for TcpSide<R> {
    ghost use Rattle.std.specs.Prelude.{ℕ};

    ghost Value = { ℕ };

    ghost view = { λ s. s.faults };
}

impl<R> TcpSide<R> {
    /// A side that has met no fault, and tells lines by these notes. Once this bell is rung its links end soon, also those that
    /// it dials later.
    pub fn new(alloc: Global, rt: R, notes: Notes, bell: Option<Bell>) -> TcpSide<R>
        ensures { result ≡ 0 }
    {
        TcpSide {
            rt,
            alloc,
            time: 0,
            round: None,
            notes,
            bell,
            faults: FaultCount::new(),
        }
    }

    /// How many dials failed, with the faults of the links that were given back.
    pub fn faults(&self) -> u64
        ensures { result ≡ self.now }
    {
        self.faults.count()
    }
}

impl<R: Net<Stream = TcpStream> + Clock + Eprint + Copy> Side for TcpSide<R> {
    type L = TcpLink<R>;

    ghost view = { λ s. record { ahead = None; times = None; sent = None; faults = s } };

    ghost out = { λ s. 0 };

    ghost plan = { λ l. untold };

    fn dial(&mut self, place: &Place) -> Result<TcpLink<R>, Failed>
        ensures link { IfOk result (λ link. link ≡ unused (Some (pair_of place.now))) }
        ensures cause { HasCause self.old self.new result }
    {
        match connect(self.alloc, self.rt, place, &self.round, &self.bell) {
            Some(link) => Ok(link),
            None => Err(self.faults.raise()),
        }
    }

    // Where the clock can't be read, the round before goes on.
    fn begin_round(&mut self) {
        if let Ok(now) = Instant::now(&self.rt) {
            self.round = Some(now);
        }
    }

    fn note(&mut self, topic: Option<&str>, line: &str) {
        self.notes.tell(self.alloc, &self.rt, topic, line);
    }

    // Where the clock can't be read, it is the last time again, 0 at first.
    fn now(&mut self) -> u64 {
        if let Some(time) = seconds(&self.rt) {
            self.time = time;
        }
        self.time
    }

    fn back(&mut self, link: TcpLink<R>) {
        self.faults.gather(link.read_faults());
        self.faults.gather(link.write_faults());
    }
}

// A link to the first address of this place that answers in time, which ends with the round that began then.
fn connect<R: Net<Stream = TcpStream> + Clock + Copy>(
    alloc: Global,
    rt: R,
    place: &Place,
    round: &Option<Instant>,
    bell: &Option<Bell>,
) -> Option<TcpLink<R>>
    ensures { IfSome result (λ link. link ≡ unused (Some (pair_of place.now))) }
{
    let kept = place.copy(alloc).ok()?;
    let addresses = (place.host.as_str(), place.port).to_socket_addrs(&rt).ok()?;
    let since = Instant::now(&rt).ok()?;
    for address in addresses.take(DIAL_ADDRESSES) {
        let left = left_of(&rt, round)?;
        let lasted = milliseconds(since.elapsed(&rt).ok()?);
        let wait = Duration::from_millis(within(left, DIAL_SECONDS * 1_000, lasted)?);
        if let Ok(stream) = TcpStream::connect_timeout(&rt, &address, wait) {
            let left = left_of(&rt, round)?;
            let heard = bell.as_ref().and_then(|bell| bell.again());
            return TcpLink::over(stream, Some(kept), rt, left, heard).ok();
        }
    }
    None
}

// The time in seconds since the start of 1970, where the clock can be read.
pub fn seconds<R: Clock>(rt: &R) -> Option<u64> {
    let now = SystemTime::now(rt).ok()?;
    Some(now.duration_since(UNIX_EPOCH).ok()?.as_secs())
}

// How many milliseconds a link may take that is dialled now, by when its round began, if it is of one.
fn left_of<R: Clock>(rt: &R, round: &Option<Instant>) -> Option<u64> {
    match round {
        Some(since) => exchange_after(Some(milliseconds(since.elapsed(rt).ok()?))),
        None => exchange_after(None),
    }
}
