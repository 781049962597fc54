//! An operator's connection, and by when what is under way on it has to be done.

ghost use Rattle.std.specs.Prelude.{◌≡◌, ◌+◌, ◌-◌, ◌/◌, ◌^◌, ◌<◌, ◌≤◌, min, IfNone, IfSome};
ghost use Rattle.std.specs.Time.{instant_nanos};

use std::io;
use std::io::{ErrorKind, Read, Write};
use std::net::TcpStream;
use std::rt::Clock;
use std::time::{Duration, Instant};

/// A TCP connection. What a limit of the system bounds is one read or one write, so each gets what is left of the time.
#[derive(Drop)]
pub(crate) struct TcpConnection<R: Clock + Drop> {
    rt: R,
    stream: TcpStream,
    /// None where it may take any time.
    until: Option<Instant>,
    /// The limit that the system has for a read and for a write, in milliseconds; 0 for none.
    armed: u64,
}

/// What is left of the time up to a moment, in milliseconds, with the one that runs; None where nothing is.
fn millis_left(until: Instant, now: Instant) -> Option<u64>
    ensures none { IfNone result (instant_nanos until ≤ instant_nanos now) }
    ensures some { IfSome result (λ millis. (instant_nanos now < instant_nanos until) × (millis ≡ min ((instant_nanos until - instant_nanos now) / 1_000_000 + 1) (2 ^ 64 - 1))) }
{
    let left = until.duration_since(now);
    if left.is_zero() {
        return None;
    }
    let whole = u64::try_from(left.as_millis()).unwrap_or(u64::MAX);
    Some(whole.saturating_add(1))
}

impl<R: Clock + Drop> TcpConnection<R> {
    /// A connection on which all has to be done by this moment.
    pub(crate) fn new(rt: R, stream: TcpStream, until: Option<Instant>) -> TcpConnection<R> {
        TcpConnection {
            rt,
            stream,
            until,
            armed: 0,
        }
    }

    /// The limit for a read or a write that begins now, in milliseconds; 0 for none. An error is that nothing is left of the
    /// time, or that the clock can't be read.
    fn limit(&self) -> io::Result<u64> {
        let Some(until) = self.until else {
            return Ok(0);
        };
        match millis_left(until, Instant::now(&self.rt)?) {
            Some(millis) => Ok(millis),
            None => Err(io::Error::from(ErrorKind::TimedOut)),
        }
    }

    /// Gives the next read or write what is left of the time. An error is that nothing is left, or that the clock can't be
    /// read or the system sets no limit.
    fn arm(&mut self) -> io::Result<()> {
        let millis = self.limit()?;
        if millis == self.armed {
            return Ok(());
        }
        let most = if millis == 0 {
            None
        } else {
            Some(Duration::from_millis(millis))
        };
        self.stream.set_read_timeout(most)?;
        self.stream.set_write_timeout(most)?;
        self.armed = millis;
        Ok(())
    }
}

impl<R: Clock + Drop> Read for TcpConnection<R> {
    fn read(&mut self, buf: &mut [u8]) -> io::Result<usize> {
        self.arm()?;
        self.stream.read(buf)
    }
}

impl<R: Clock + Drop> Write for TcpConnection<R> {
    fn write(&mut self, buf: &[u8]) -> io::Result<usize> {
        self.arm()?;
        self.stream.write(buf)
    }

    fn flush(&mut self) -> io::Result<()> {
        Ok(())
    }
}
