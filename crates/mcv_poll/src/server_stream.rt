//! Connections to servers.

use mcv_connection::Connection;
use mio::net::TcpStream;
use std::io;
use std::io::{Read, Write};

/// A connection to a server. It may still be being made: then its reads and writes fail as `WouldBlock`, as where they would have to
/// wait.
#[derive(Drop)]
pub struct ServerStream {
    stream: TcpStream,
}

impl ServerStream {
    pub(crate) fn new(stream: TcpStream) -> ServerStream {
        ServerStream { stream }
    }
}

impl Connection for ServerStream {
    fn read(&mut self, room: &mut [u8]) -> io::Result<usize> {
        self.stream.read(room)
    }

    fn write(&mut self, bytes: &[u8]) -> io::Result<usize> {
        self.stream.write(bytes)
    }
}
