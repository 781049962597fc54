//! What comes of a read and of a write.

ghost use Rattle.std.specs.Prelude.{◌<◌, length};
ghost use Rattle.std.specs.Io.KnownBytes.{Keeps};
ghost use Rattle.mcv_connection.specs.Transfer.{Gives, Takes};

use crate::connection::Connection;
use std::io::ErrorKind;

/// What came of a read.
#[derive(Clone, Copy, Debug, PartialEq, Eq)]
pub enum Received {
    /// So many bytes, in the front of the room; 0 where the read was interrupted.
    Bytes(usize),
    /// None now: the read would have to wait.
    NotNow,
    /// None any more: the other side sends no more.
    End,
    /// None: the connection is broken.
    Broken,
}

/// What came of a write.
#[derive(Clone, Copy, Debug, PartialEq, Eq)]
pub enum Sent {
    /// So many bytes, from the first on, are written; 0 where the write was interrupted.
    Bytes(usize),
    /// None now: the write would have to wait.
    NotNow,
    /// None: the connection is broken, or takes no more bytes.
    Broken,
}

/// Reads what is there, with one read.
pub fn receive<C: Connection>(connection: &mut C, room: &mut [u8]) -> Received
    requires { 0 < length room.old }
    ensures gives { Gives result room.new (C.unread connection.old) (C.unread connection.new) }
    ensures writes_nothing { Keeps (C.written connection.old) (C.written connection.new) }
{
    match connection.read(room) {
        Ok(0) => Received::End,
        Ok(count) => Received::Bytes(count),
        Err(error) => match error.kind() {
            ErrorKind::Interrupted => Received::Bytes(0),
            ErrorKind::WouldBlock => Received::NotNow,
            _ => Received::Broken,
        },
    }
}

/// Writes what is taken of some bytes, with one write.
pub fn send<C: Connection>(connection: &mut C, bytes: &[u8]) -> Sent
    ensures takes { Takes result bytes.now (C.written connection.old) (C.written connection.new) }
    ensures reads_nothing { Keeps (C.unread connection.old) (C.unread connection.new) }
{
    match connection.write(bytes) {
        Ok(0) => Sent::Broken,
        Ok(count) => Sent::Bytes(count),
        Err(error) => match error.kind() {
            ErrorKind::Interrupted => Sent::Bytes(0),
            ErrorKind::WouldBlock => Sent::NotNow,
            _ => Sent::Broken,
        },
    }
}
