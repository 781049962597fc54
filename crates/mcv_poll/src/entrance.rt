//! How clients come in.

ghost use Rattle.std.specs.Prelude.{◌≡◌, ◌⊎◌, ◌++◌, ◌∷◌, [], None, OnOk, true};

use crate::door::{Door, Visitor};
use crate::due::is_due;
use crate::tokens::LISTENER;
use mcv_loop::Ready;
use mio::net::{TcpListener, TcpStream};
use mio::{Interest, Poll, Token};
use std::alloc::AllocError;
use std::io::ErrorKind;
use std::rt::Clock;
use std::time::{Duration, Instant};
use std::{io, net};

/// The most clients that are accepted in a row.
const MOST_ACCEPTED: usize = 256;

/// The most that an entrance puts behind what is ready at once: clients, and that no more come, and that an end was asked for.
pub(crate) const MOST_SAID: usize = MOST_ACCEPTED + 2;

/// How long it is, in milliseconds, from when a client couldn't be accepted to the next try.
const RESPITE: u64 = 10;

/// What a try to accept a client that failed says of the next one.
#[derive(Clone, Copy, PartialEq, Eq)]
enum Refusal {
    /// Nobody waits.
    NobodyWaits,
    /// The client has gone.
    Gone,
    /// No client can be accepted now.
    Deaf,
    /// None ever will.
    NoListener,
}

fn refusal_of(kind: ErrorKind) -> Refusal {
    match kind {
        ErrorKind::WouldBlock => Refusal::NobodyWaits,
        ErrorKind::Interrupted | ErrorKind::ConnectionAborted => Refusal::Gone,
        ErrorKind::InvalidInput | ErrorKind::Unsupported => Refusal::NoListener,
        _ => Refusal::Deaf,
    }
}

/// A listener and the door behind it.
#[derive(Drop)]
pub(crate) struct Entrance<D: Door> {
    /// None once no more clients come: who comes then is refused by the system.
    listener: Option<TcpListener>,
    door: D,
    /// Clients may wait that weren't accepted.
    accepts: bool,
    /// So many were accepted in a row that more are likely.
    is_more: bool,
    /// When the last try to accept a client failed, where it did.
    deaf_since: Option<Option<Instant>>,
    /// By when all has to be done, where an end was asked for, as was said.
    drains: Option<Option<Instant>>,
}

impl<D: Door> Entrance<D> {
    /// The clients of this listener, which a poll reports. An error is the system's.
    pub(crate) fn new(poll: &Poll, listener: net::TcpListener, door: D) -> io::Result<Entrance<D>> {
        listener.set_nonblocking(true)?;
        let mut listener = TcpListener::from_std(listener);
        poll.registry()
            .register(&mut listener, Token(LISTENER), Interest::READABLE)?;
        Ok(Entrance {
            listener: Some(listener),
            door,
            accepts: false,
            is_more: false,
            deaf_since: None,
            drains: None,
        })
    }

    /// The most that may be waited before clients are accepted again; None where there is no such limit.
    pub(crate) fn most_wait(&self) -> Option<Duration>
        ensures closed { self.now.listener ≡ None → result ≡ None }
    {
        if self.listener.is_none() {
            None
        } else if self.is_more {
            Some(Duration::from_millis(0))
        } else if self.deaf_since.is_some() {
            Some(Duration::from_millis(RESPITE))
        } else {
            None
        }
    }

    /// A client waits.
    pub(crate) fn note_waiting(&mut self)
        ensures { self.new.accepts ≡ true }
    {
        self.accepts = true;
    }

    /// Puts behind `ready` who comes in, and, once each, that no more do and that an end was asked for.
    pub(crate) fn look<R: Clock>(
        &mut self,
        rt: &R,
        ready: &mut Vec<Ready<Visitor<D::Seat>>>,
    ) -> Result<(), AllocError> {
        self.look_for_end(ready)?;
        self.is_more = false;
        if self.accepts && self.may_accept(rt) {
            self.accept(rt, ready)?;
        }
        self.close_where_over(ready)
    }

    /// Says that an end was asked for, where that wasn't said with the moment of now.
    fn look_for_end(&mut self, ready: &mut Vec<Ready<Visitor<D::Seat>>>) -> Result<(), AllocError>
        ensures shut { (self.new.drains ≡ self.old.drains) ⊎ (self.new.listener ≡ None) }
    {
        let Some(until) = self.door.end() else {
            return Ok(());
        };
        if self.drains == Some(until) {
            return Ok(());
        }
        self.listener = None;
        ready.push(Ready::Drains { until })?;
        self.drains = Some(until);
        Ok(())
    }

    /// Says that no more clients come, once they don't.
    fn close_where_over(
        &mut self,
        ready: &mut Vec<Ready<Visitor<D::Seat>>>,
    ) -> Result<(), AllocError> {
        if self.listener.is_some() && self.door.is_closed() {
            self.close(ready)?;
        }
        Ok(())
    }

    fn close(&mut self, ready: &mut Vec<Ready<Visitor<D::Seat>>>) -> Result<(), AllocError>
        ensures closed { self.new.listener ≡ None }
        ensures said { OnOk result (ready.new.items ≡ ready.old.items ++ Ready.Closed ∷ []) }
    {
        self.listener = None;
        ready.push(Ready::Closed)?;
        Ok(())
    }

    /// Whether a client may be accepted, which isn't tried again at once where it failed.
    fn may_accept<R: Clock>(&self, rt: &R) -> bool {
        match self.deaf_since {
            Some(since) => is_due(since, Instant::now(rt).ok(), Duration::from_millis(RESPITE)),
            None => true,
        }
    }

    /// Notes whether clients can be accepted, and tells the door where that is another answer than before.
    fn note_hearing<R: Clock>(&mut self, rt: &R, is_deaf: bool) {
        if self.deaf_since.is_some() != is_deaf {
            self.door.note_hearing(is_deaf);
        }
        self.deaf_since = if is_deaf {
            Some(Instant::now(rt).ok())
        } else {
            None
        };
    }

    /// Accepts the clients that wait, up to a limit and until no more come.
    fn accept<R: Clock>(
        &mut self,
        rt: &R,
        ready: &mut Vec<Ready<Visitor<D::Seat>>>,
    ) -> Result<(), AllocError> {
        for _client in 0..MOST_ACCEPTED {
            if self.door.is_closed() {
                return Ok(());
            }
            let Some(listener) = &self.listener else {
                return Ok(());
            };
            match listener.accept() {
                Ok((stream, _address)) => {
                    self.note_hearing(rt, false);
                    self.admit(stream, ready)?;
                }
                Err(error) => {
                    let refusal = refusal_of(error.kind());
                    if refusal != Refusal::Gone {
                        return self.stop(rt, refusal, ready);
                    }
                }
            }
        }
        self.is_more = true;
        Ok(())
    }

    /// No client was accepted, and none is for now.
    fn stop<R: Clock>(
        &mut self,
        rt: &R,
        refusal: Refusal,
        ready: &mut Vec<Ready<Visitor<D::Seat>>>,
    ) -> Result<(), AllocError> {
        match refusal {
            Refusal::NobodyWaits => {
                self.note_hearing(rt, false);
                self.accepts = false;
            }
            Refusal::Deaf => self.note_hearing(rt, true),
            Refusal::NoListener => self.close(ready)?,
            Refusal::Gone => {}
        }
        Ok(())
    }

    /// Lets a client in, if it is served.
    fn admit(
        &mut self,
        stream: TcpStream,
        ready: &mut Vec<Ready<Visitor<D::Seat>>>,
    ) -> Result<(), AllocError> {
        // Without it small writes may wait, but the connection serves all the same.
        let _ = stream.set_nodelay(true);
        if let Some(seat) = self.door.admits(&stream) {
            ready.push(Ready::Client(Visitor { stream, seat }))?;
        }
        Ok(())
    }
}
