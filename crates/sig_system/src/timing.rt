//! Reads and writes of a stream within the time that its link has left.

ghost use Rattle.std.specs.Prelude.{◌≡◌, None, IfOk};
ghost use Rattle.std.specs.Io.{ReadsAtMost, WritesAtMost};

use crate::bell::Bell;
use crate::deadline::Deadline;
use sig_outside::Failed;
use std::io;
use std::io::{Error, ErrorKind, Read, Write};
use std::net::TcpStream;
use std::rt::Clock;
use std::time::{Duration, Instant};

/// How many milliseconds a read or a write waits at most before it looks at the time again, and whether its link is to end
/// soon.
pub const LOOK_MILLISECONDS: u64 = 250;

// The time of a link: since when it stands, until when it may wait for its peer, and what asks it to end soon. `R` is a handle
// on the clock.
#[derive(Drop)]
pub struct Timing<R> {
    rt: R,
    since: Instant,
    deadline: Deadline,
    bell: Option<Bell>,
    // Whether the bell was heard.
    pub is_hurried: bool,
}

impl<R: Clock + Copy> Timing<R> {
    // Of a link that is made now, and ends after so many milliseconds.
    pub fn of(rt: R, milliseconds: u64, bell: Option<Bell>) -> io::Result<Timing<R>> {
        let since = Instant::now(&rt)?;
        Ok(Timing {
            rt,
            since,
            deadline: Deadline::after(milliseconds),
            bell,
            is_hurried: false,
        })
    }

    // The milliseconds since the link was made. A link that is to end soon learns it here.
    fn look(&mut self) -> Result<u64, Failed> {
        let Ok(elapsed) = self.since.elapsed(&self.rt) else {
            return Err(Failed);
        };
        let now = milliseconds(elapsed);
        if let Some(bell) = &self.bell {
            if bell.is_rung() {
                self.deadline.hurry(now);
                self.bell = None;
                self.is_hurried = true;
            }
        }
        Ok(now)
    }
}

// Has reads and writes of a stream look at the time.
pub fn set_looks(stream: &TcpStream) -> io::Result<()> {
    let wait = Some(Duration::from_millis(LOOK_MILLISECONDS));
    stream.set_read_timeout(wait)?;
    stream.set_write_timeout(wait)
}

// One read within the time that is left.
pub fn read_in_time<R: Clock + Copy>(
    stream: &mut TcpStream,
    timing: &mut Timing<R>,
    buf: &mut [u8],
) -> Result<usize, Failed>
    ensures { ReadsAtMost result buf.new }
{
    let began = timing.look()?;
    let mut now = began;
    for _ in 0..u64::MAX {
        if now >= timing.deadline.reads_until(began) {
            return Err(Failed);
        }
        match stream.read(buf) {
            Ok(count) => {
                if count > 0 {
                    let now = timing.look()?;
                    timing.deadline.came(now);
                }
                return Ok(count);
            }
            Err(error) if goes_on(&error) => now = timing.look()?,
            Err(_) => return Err(Failed),
        }
    }
    Err(Failed)
}

// One write within the time that is left.
pub fn write_in_time<R: Clock + Copy>(
    stream: &mut TcpStream,
    timing: &mut Timing<R>,
    bytes: &[u8],
) -> Result<usize, Failed>
    ensures { WritesAtMost result bytes.now }
{
    let began = timing.look()?;
    let mut now = began;
    for _ in 0..u64::MAX {
        if now >= timing.deadline.writes_until(began) {
            return Err(Failed);
        }
        match stream.write(bytes) {
            Ok(count) => {
                let now = timing.look()?;
                timing.deadline.answered(now);
                return Ok(count);
            }
            Err(error) if goes_on(&error) => now = timing.look()?,
            Err(_) => return Err(Failed),
        }
    }
    Err(Failed)
}

// A time in milliseconds; it stands at its type's end.
pub fn milliseconds(time: Duration) -> u64 {
    u64::try_from(time.as_millis()).unwrap_or(u64::MAX)
}

// Whether a call ended by its wait alone, or by a signal.
fn goes_on(error: &Error) -> bool {
    matches!(
        error.kind(),
        ErrorKind::WouldBlock | ErrorKind::TimedOut | ErrorKind::Interrupted
    )
}
