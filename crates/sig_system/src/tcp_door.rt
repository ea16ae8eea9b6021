ghost use Rattle.std.specs.Prelude.{◌≡◌, None, Some, IfErr, IfOk, IfSome};
ghost use Rattle.sig_outside.specs.Causes.{HasCause};
ghost use Rattle.sig_links.specs.Told.{IfLink, IfShut};
ghost use Rattle.sig_system.specs.Adapters.{IsOfDoor, pair_of, untold, unused};

use crate::bell::Bell;
use crate::deadline::LINK_MILLISECONDS;
use crate::{Notes, OutsideFault, TcpLink, TcpSide};
use mio::unix::SourceFd;
use mio::{Events, Interest, Poll, Token};
use sig_links::{Accepted, Door, FaultCount};
use sig_outside::{Failed, Place};
use std::alloc::Global;
use std::io;
use std::io::{Error, ErrorKind};
use std::marker::Model;
use std::net::{Net, TcpListener, TcpStream};
use std::os::fd::AsRawFd;
use std::rt::Clock;
use std::time::Duration;

/// How many milliseconds an accept waits for a link.
pub const ACCEPT_MILLISECONDS: u64 = 1_000;

/// How many milliseconds an accept waits where the system lacks something for a while.
pub const LACK_MILLISECONDS: u64 = 100;

/// How many accepts in a row may find that the system lacks something, before the next one fails: those of a minute.
pub const LACKING_ACCEPTS: u32 = 600;

// ENOMEM, ENFILE, EMFILE, EPROTO, ENETDOWN, ENOBUFS on Linux.
const ACCEPT_ERRORS: [i32; 6] = [12, 23, 24, 71, 100, 105];

/// What listens over TCP. It tells nothing of the links that come, and never answers that none will; it counts the accepts
/// that failed. An accept waits `ACCEPT_MILLISECONDS` at most. `R` is a handle on the network and the clock, as a reference
/// to the runtime.
#[derive(Drop)]
pub struct TcpDoor<R> {
    listener: TcpListener,
    poll: Poll,
    events: Events<Global>,
    place: Place,
    rt: R,
    alloc: Global,
    bell: Bell,
    // How many accepts in a row found that the system lacks something.
    lacking: u32,
    notes: Notes,
    faults: FaultCount,
}

impl<R> Model for TcpDoor<R> {
    ghost use Rattle.std.specs.Prelude.{Some};
    ghost use Rattle.sig_system.specs.Adapters.{DoorCounts, pair_of};

    ghost Value = { DoorCounts };

    ghost view = { λ d. record { place = Some (pair_of d.place); faults = d.faults } };
}

impl<R: Net<Listener = TcpListener, Stream = TcpStream> + Copy> TcpDoor<R> {
    /// A door at this place, whose sides tell lines by these notes: it listens at the first address of the host where the system lets it. The fault is `PlaceInUse`
    /// where another process listens there, `Memory` or `Door`.
    pub fn open(
        alloc: Global,
        rt: R,
        place: &Place,
        notes: Notes,
    ) -> Result<TcpDoor<R>, OutsideFault>
        ensures door { IfOk result (λ door. door ≡ record { place = Some (pair_of place.now); faults = 0 }) }
        ensures why { IfErr result IsOfDoor }
    {
        let (Ok(kept), Ok(events)) = (place.copy(alloc), Events::with_capacity(alloc, 1)) else {
            return Err(OutsideFault::Memory);
        };
        let Ok(bell) = Bell::new(alloc) else {
            return Err(OutsideFault::Memory);
        };
        match listening(rt, place) {
            Ok((listener, poll)) => Ok(TcpDoor {
                listener,
                poll,
                events,
                place: kept,
                rt,
                alloc,
                bell,
                lacking: 0,
                notes,
                faults: FaultCount::new(),
            }),
            Err(error) if error.kind() == ErrorKind::AddrInUse => Err(OutsideFault::PlaceInUse),
            Err(_) => Err(OutsideFault::Door),
        }
    }
}

// What listens at this place without blocking, and what waits until a link comes there.
fn listening<R: Net<Listener = TcpListener, Stream = TcpStream> + Copy>(
    rt: R,
    place: &Place,
) -> io::Result<(TcpListener, Poll)> {
    let listener = TcpListener::bind(&rt, (place.host.as_str(), place.port))?;
    listener.set_nonblocking(true)?;
    let poll = Poll::new(&rt)?;
    let descriptor = listener.as_raw_fd();
    poll.registry()
        .register(&mut SourceFd(&descriptor), Token(0), Interest::READABLE)?;
    Ok((listener, poll))
}

impl<R> TcpDoor<R> {
    /// How many accepts failed.
    pub fn faults(&self) -> u64
        ensures { result ≡ self.now.faults }
    {
        self.faults.count()
    }
}

impl<R: Clock + Copy> TcpDoor<R> {
    // The next link, where one comes while an accept waits.
    fn next_link(&mut self) -> Result<Option<TcpLink<R>>, Failed>
        ensures link { IfOk result (λ found. IfSome found (λ link. link ≡ unused None)) }
        ensures same { self.new ≡ self.old }
    {
        if let Some(link) = self.waiting_link()? {
            return Ok(Some(link));
        }
        let wait = Duration::from_millis(ACCEPT_MILLISECONDS);
        if self.poll.poll(&mut self.events, Some(wait)).is_err() {
            return Err(Failed);
        }
        self.waiting_link()
    }

    // A link that waits to be accepted, if one does.
    fn waiting_link(&mut self) -> Result<Option<TcpLink<R>>, Failed>
        ensures link { IfOk result (λ found. IfSome found (λ link. link ≡ unused None)) }
        ensures same { self.new ≡ self.old }
    {
        match accept_link(&self.listener, self.rt, &self.bell) {
            Ok(link) => {
                self.lacking = 0;
                Ok(Some(link))
            }
            Err(error) => {
                self.without_link(&error)?;
                Ok(None)
            }
        }
    }

    // None waits; or the system lacks something, for a while or for longer.
    fn without_link(&mut self, error: &Error) -> Result<(), Failed>
        ensures { self.new ≡ self.old }
    {
        if error.kind() == ErrorKind::WouldBlock {
            self.lacking = 0;
            return Ok(());
        }
        if self.lacking >= LACKING_ACCEPTS || !is_for_a_while(error) {
            return Err(Failed);
        }
        self.lacking += 1;
        self.rt.sleep(Duration::from_millis(LACK_MILLISECONDS));
        Ok(())
    }
}

impl<R: Net<Listener = TcpListener, Stream = TcpStream> + Clock + Eprint + Copy + Send> Door
    for TcpDoor<R> {
    type L = TcpLink<R>;

    type S = TcpSide<R>;

    ghost view = { λ d. record { coming = None; served = None; out = 0; place = d.place; faults = d.faults } };

    ghost plan = { λ l. untold };

    // It never answers that no link will come.
    fn accept(&mut self) -> Result<Accepted<TcpLink<R>, TcpSide<R>>, Failed>
        ensures whole { IfOk result (λ answer. IfLink answer (λ link side. (link ≡ unused None) × (side ≡ 0))) }
        ensures open { IfOk result (λ answer. IfShut answer ⊥) }
        ensures place { self.new.place ≡ self.old.place }
        ensures cause { HasCause self.old.faults self.new.faults result }
    {
        match self.next_link() {
            Ok(Some(link)) => Ok(Accepted::Link {
                link,
                side: TcpSide::new(self.alloc, self.rt, self.notes.shared(), self.bell.shared()),
            }),
            Ok(None) => Ok(Accepted::Waited {
                lacking: self.lacking > 0,
            }),
            Err(_) => Err(self.faults.raise()),
        }
    }

    fn back(&mut self, _link: TcpLink<R>, _side: TcpSide<R>) {}

    fn own_side(&mut self) -> TcpSide<R> {
        TcpSide::new(self.alloc, self.rt, self.notes.shared(), self.bell.shared())
    }

    fn hurry(&mut self) {
        self.bell.ring();
    }
}

// A link that waits to be accepted. One whose peer went away before is passed over.
fn accept_link<R: Clock + Copy>(
    listener: &TcpListener,
    rt: R,
    bell: &Bell,
) -> io::Result<TcpLink<R>>
    ensures { IfOk result (λ link. link ≡ unused None) }
{
    for _ in 0..u64::MAX {
        match listener.accept() {
            Ok((stream, _)) => {
                if let Ok(link) = TcpLink::over(
                    stream,
                    None,
                    rt,
                    LINK_MILLISECONDS,
                    bell.shared(),
                ) {
                    return Ok(link);
                }
            }
            Err(error) if is_of_peer(error.kind()) => {}
            Err(error) => return Err(error),
        }
    }
    Err(Error::from(ErrorKind::WouldBlock))
}

// Whether such an error is the peer's or of this call alone, and says nothing of the listener.
fn is_of_peer(kind: ErrorKind) -> bool {
    matches!(
        kind,
        ErrorKind::Interrupted
            | ErrorKind::ConnectionAborted
            | ErrorKind::HostUnreachable
            | ErrorKind::NetworkUnreachable
    )
}

// Whether the system lacks something for a while: descriptors, memory, or the network (accept(2), "Errors").
fn is_for_a_while(error: &Error) -> bool {
    match error.raw_os_error() {
        Some(number) => ACCEPT_ERRORS.contains(&number),
        None => false,
    }
}
