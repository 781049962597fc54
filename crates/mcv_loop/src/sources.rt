//! What a loop talks to.

use mcv_base::{Moment, ServerId};
use mcv_connection::Connection;
use mcv_hub::Pass;
use mcv_turn::{HeldLeg, Performed, StoredLeg};
use std::time::{Duration, Instant};
use thiserror::Error;

/// A connection of a loop.
#[derive(Clone, Copy, Debug, PartialEq, Eq)]
pub enum Source {
    /// To the client of this number. A number may be that of an earlier client which has gone.
    Client(usize),
    /// To a server, for legs of the hub of this number.
    Server { hub: usize, server: ServerId },
}

/// What is ready. Where it isn't, that shows when it is read or written.
#[derive(Drop)]
pub enum Ready<C: Drop> {
    /// A new client, by its connection.
    Client(C),
    /// Bytes can be read, or the connection has ended.
    Read(Source),
    /// Bytes can be written.
    Write(Source),
    /// The other side sends no more: what is left is to be read to its end.
    End(Source),
    /// The spool has answered to a record, for the hub of this number, and its file has so many slots.
    Stored {
        hub: usize,
        stored: StoredLeg,
        slots: usize,
    },
    /// No more clients come. The loop ends once those that are there have gone, and no leg is queued.
    Closed,
    /// An end was asked for: no more clients come, and nothing more is read of those that are there. Behind this moment, where it is
    /// known, nothing is sent to servers any more.
    Drains {
        until: Option<Instant>,
    },
}

/// Why a loop can't go on.
#[derive(Clone, Copy, Debug, PartialEq, Eq, Error)]
pub enum SourceFault {
    #[error("the system can't be waited for")]
    Failed,
    #[error("out of memory")]
    Memory,
}

/// What a loop talks to. None of these calls waits, but for `wait`; who calls shows a pass, so that it has no hub's lock. A connection
/// ends when it is dropped.
pub trait Sources: Drop {
    /// A client's connection. A read or a write that would have to wait fails as `WouldBlock`.
    type Client: Connection;

    /// A connection to a server, in the same way.
    type Server: Connection;

    /// Waits until something is ready, for so long at most, and puts it behind `ready`.
    fn wait(
        &mut self,
        pass: &Pass,
        most: Option<Duration>,
        ready: &mut Vec<Ready<Self::Client>>,
    ) -> Result<(), SourceFault>;

    /// From now on what is ready of this connection is said of the client of this number, also what was ready before. Whether it will
    /// be.
    fn attend(&mut self, pass: &Pass, client: &mut Self::Client, number: usize) -> bool;

    /// Begins a connection to a server. What is written to it is taken once it is there. None where it can't be begun.
    fn connect(&mut self, pass: &Pass, hub: usize, server: ServerId) -> Option<Self::Server>;

    /// The record of a held leg is to be written, for the hub of this number. Whether it will be: the answer comes as `Stored`.
    fn store(&mut self, pass: &Pass, hub: usize, held: HeldLeg) -> bool;

    /// This record is done.
    fn finish(&mut self, pass: &Pass, performed: Performed);

    /// Seconds since 1970.
    fn moment(&mut self) -> Moment;

    /// A clock that doesn't go back; None where it can't be read.
    fn instant(&mut self) -> Option<Instant>;
}
