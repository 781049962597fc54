//! Who comes in as a client.

ghost use Rattle.std.specs.Prelude.{◌≡◌};

use mcv_connection::Connection;
use mio::net::TcpStream;
use std::io;
use std::io::{Read, Write};
use std::time::Instant;

/// Decides who comes in as a client, and when no more do.
pub trait Door: Drop {
    /// What a client's connection holds, and drops with itself.
    type Seat: Drop;

    /// Whether the client of this connection is served. None where it isn't: it was told why as far as it takes that at once, and the
    /// connection is dropped.
    fn admits(&mut self, stream: &TcpStream) -> Option<Self::Seat>;

    /// From now on no client can be accepted, mostly because too many files are open; or one can be again.
    fn note_hearing(&mut self, is_deaf: bool);

    /// Whether no more clients come. Once they don't they never do.
    fn is_closed(&self) -> bool;

    /// Whether an end was asked for, and by when: at this moment, where it is known, nothing is sent to servers any more.
    fn end(&mut self) -> Option<Option<Instant>>;
}

/// A client's connection, with its seat. Its reads and writes fail as `WouldBlock` where they would have to wait.
#[derive(Drop)]
pub struct Visitor<S: Drop> {
    pub(crate) stream: TcpStream,
    pub(crate) seat: S,
}

impl<S: Drop> Visitor<S> {
    /// What it holds.
    pub fn seat(&self) -> &S
        ensures { result.now ≡ self.now.seat }
    {
        &self.seat
    }
}

impl<S: Drop> Connection for Visitor<S> {
    fn read(&mut self, room: &mut [u8]) -> io::Result<usize> {
        self.stream.read(room)
    }

    fn write(&mut self, bytes: &[u8]) -> io::Result<usize> {
        self.stream.write(bytes)
    }
}
