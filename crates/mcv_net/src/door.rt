//! Who comes in as a client, and when no more do.

ghost use Rattle.std.specs.Prelude.{◌≡◌, ◌+◌, ◌==◌, IfOk, IfNone, IfSome};
ghost use Rattle.mcv_net.specs.Lines.{too_many_line};
ghost use Rattle.mcv_net.specs.Seats.{sessions_of};

use crate::notice::{Notice, Notices, StandardError};
use crate::seats::{Seat, Seats};
use crate::service::Service;
use mcv_poll::{Door, TcpStream};
use mcv_words::{Sessions, Settings};
use std::alloc::{AllocError, Global};
use std::io::{Eprint, Write};
use std::rt::Clock;
use std::sync::Wait;
use std::time::Instant;

/// The door of a proxy: it has seats for so many clients at once, lets so many in, and is closed once an operator asks for an end.
#[derive(Drop)]
pub(crate) struct NetDoor<R: Drop> {
    seats: Seats,
    /// How many clients are still to be served; where that has no limit, more than come.
    sessions: u64,
    /// Where an operator may ask for an end.
    service: Service,
    error: StandardError<R>,
}

/// What a client is answered for which there is no seat.
fn too_many_line() -> &'static [u8]
    ensures { result.now ≡ too_many_line }
{
    b"SERVER_ERROR too many clients\r\n"
}

/// How many clients are to be served.
fn sessions_of(sessions: Option<Sessions>) -> u64
    ensures { result ≡ sessions_of sessions }
{
    match sessions {
        Some(sessions) => sessions.count,
        None => u64::MAX,
    }
}

impl<R: Clock + Eprint + Wait + Copy + Drop> NetDoor<R> {
    /// Nobody has come in yet.
    pub(crate) fn new(
        alloc: Global,
        settings: &Settings,
        service: Service,
        error: StandardError<R>,
    ) -> Result<NetDoor<R>, AllocError>
        ensures { IfOk result (λ door. door.sessions ≡ sessions_of settings.now.sessions) }
    {
        Ok(NetDoor {
            seats: Seats::new(alloc, settings.max_clients)?,
            sessions: sessions_of(settings.sessions),
            service,
            error,
        })
    }

    /// Tells a client that there are too many.
    fn refuse(&mut self, stream: &TcpStream)
        ensures { self.new.sessions ≡ self.old.sessions }
    {
        self.service.note_refused();
        if let Some(refused) = self.seats.refuse() {
            self.error.note(Notice::Crowded(refused));
        }
        // It is closed all the same where it takes no answer.
        let mut writer = stream;
        let _ = writer.write(too_many_line());
    }
}

impl<R: Clock + Eprint + Wait + Copy + Drop> Door for NetDoor<R> {
    type Seat = Seat;

    fn admits(&mut self, stream: &TcpStream) -> Option<Seat>
        ensures some { IfSome result (λ _. self.old.sessions ≡ self.new.sessions + 1) }
        ensures none { IfNone result (self.new.sessions ≡ self.old.sessions) }
    {
        let left = self.sessions.checked_sub(1)?;
        match self.seats.take(&self.service) {
            Some(seat) => {
                self.sessions = left;
                Some(seat)
            }
            None => {
                self.refuse(stream);
                None
            }
        }
    }

    fn note_hearing(&mut self, is_deaf: bool)
        ensures { self.new.sessions ≡ self.old.sessions }
    {
        let notice = if is_deaf {
            Notice::Deaf
        } else {
            Notice::Hearing
        };
        self.error.note(notice);
    }

    fn is_closed(&self) -> bool
        ensures { result ≡ (self.now.sessions == 0) }
    {
        self.sessions == 0
    }

    fn end(&mut self) -> Option<Option<Instant>>
        ensures { self.new.sessions ≡ self.old.sessions }
    {
        if self.service.is_ending() {
            Some(self.service.end())
        } else {
            None
        }
    }
}
