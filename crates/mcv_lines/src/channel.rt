//! An open connection to a server: the legs in flight, and what is to be written.

ghost use Rattle.std.specs.Prelude.{◌≡◌, ◌++◌, [], List, OnErr, OnOk, false, true};
ghost use Rattle.std.specs.Io.KnownBytes.{Keeps};
ghost use Rattle.mcv_lines.specs.Channel.{Reads, ReadsOf, SendsOver, WritesOf, begun_after};
ghost use Rattle.mcv_reply.specs.Replies.{Closed, is_open};
ghost use Rattle.mcv_upstream.specs.Upstream.{unused};

use crate::took::{Heard, Written, Wrote, read_piece, write_front};
use mcv_base::{LegId, LegRequest};
use mcv_connection::{Connection, Received};
use mcv_pipeline::Landed;
use mcv_reply::ReplyFault;
use mcv_upstream::Upstream;
use std::alloc::Global;
use std::marker::Model;

/// An open connection to a server, over which legs are sent. Clauses see the legs in flight, what is to be written, and what the
/// connection holds and has left. What was written to it since it was opened, and what then wasn't, are the texts of the legs
/// that were sent over it, in their order; and the bytes that it gave are replies to them, in their order.
#[derive(Drop)]
pub(crate) struct Channel<C: Connection> {
    upstream: Upstream,
    connection: C,
    /// A leg has landed over it.
    is_kept: bool,
    /// Something may have come of the oldest leg's reply.
    has_begun: bool,
    /// How many of the last bytes of the texts that were sent weren't written; also once it is closed.
    unwritten: usize,
}

impl<C: Connection> Model for Channel<C> {
    ghost use Rattle.mcv_lines.specs.Channel.{ChannelValue};
    ghost use Rattle.mcv_lines.specs.Life.{Life};

    ghost Value = { ChannelValue };

    ghost view = { λ c. record { carrier = c.upstream; ends = record { given = C.written c.connection; left = C.unread c.connection }; is_kept = c.is_kept; has_begun = c.has_begun; unwritten = c.unwritten } };

    ghost invariant = { λ c. Life (record { carrier = c.upstream; ends = record { given = C.written c.connection; left = C.unread c.connection }; is_kept = c.is_kept; has_begun = c.has_begun; unwritten = c.unwritten }) };
}

/// Reads a piece, and has the legs whose replies are whole with it land.
fn hear<C: Connection>(
    upstream: &mut Upstream,
    connection: &mut C,
    room: &mut [u8],
    landed: &mut Vec<Landed>,
) -> Heard
    ensures reads { (more : List Landed) × (landed.new.items ≡ landed.old.items ++ more) × Reads upstream.old (C.unread connection.old) room.new result more upstream.new (C.unread connection.new) }
    ensures writes_nothing { Keeps (C.written connection.old) (C.written connection.new) }
{
    match read_piece(connection, room) {
        Received::Bytes(count) => match upstream.feed(&room[..count], landed) {
            Ok(()) => Heard::Bytes(count),
            Err(_) => Heard::Faulty,
        },
        Received::NotNow => Heard::NotNow,
        Received::End | Received::Broken => Heard::Over,
    }
}

/// Whether something may have come of the oldest leg's reply behind a read, where it was so before and so many legs are in flight.
fn begun_after(heard: Heard, before: bool, flying: usize) -> bool
    ensures { result ≡ begun_after heard before flying }
{
    match heard {
        Heard::Bytes(_) => flying > 0,
        _ => before,
    }
}

/// How many bytes are unwritten behind the sending of a leg, where so many were before, and so many are to be written: all of
/// these, and where it wasn't sent as many as before.
fn unwritten_after(outcome: &Result<(), ReplyFault>, before: usize, waiting: usize) -> usize
    ensures ok { OnOk outcome.now (result ≡ waiting) }
    ensures err { OnErr outcome.now (result ≡ before) }
{
    match outcome {
        Ok(()) => waiting,
        Err(_) => before,
    }
}

impl<C: Connection> Channel<C> {
    /// A connection over which nothing was sent yet.
    pub(crate) fn new(alloc: Global, connection: C) -> Channel<C>
        ensures { result ≡ record { carrier = unused; ends = record { given = C.written connection; left = C.unread connection }; is_kept = false; has_begun = false; unwritten = 0 } }
    {
        Channel {
            upstream: Upstream::new(alloc),
            connection,
            is_kept: false,
            has_begun: false,
            unwritten: 0,
        }
    }

    /// The leg of this number is sent: its text is to be written behind the others. A fault changes nothing.
    pub(crate) fn send(&mut self, leg: LegId, request: &LegRequest) -> Result<(), ReplyFault>
        ensures { SendsOver self.old leg request.now result self.new }
    {
        let outcome = self.upstream.send(leg, request);
        let waiting = self.upstream.output().len();
        self.unwritten = unwritten_after(&outcome, self.unwritten, waiting);
        outcome
    }

    /// Writes what is to be written, with one write.
    pub(crate) fn write(&mut self) -> Wrote
        ensures { WritesOf self.old result self.new }
    {
        let output = self.upstream.output();
        let Written { outcome, count } = write_front(&mut self.connection, output);
        self.upstream.wrote(count);
        self.unwritten -= count;
        outcome
    }

    /// Reads a piece: the legs whose replies are whole with it are put behind `landed`, the oldest first.
    pub(crate) fn read(&mut self, room: &mut [u8], landed: &mut Vec<Landed>) -> Heard
        requires { is_open self.old.carrier.legs.connection ≡ true }
        ensures { (more : List Landed) × (landed.new.items ≡ landed.old.items ++ more) × ReadsOf self.old room.new result more self.new }
    {
        let before = landed.len();
        let heard = hear(&mut self.upstream, &mut self.connection, room, landed);
        self.is_kept = self.is_kept || landed.len() > before;
        self.has_begun = begun_after(heard, self.has_begun, self.upstream.in_flight());
        heard
    }

    /// The connection is lost, and the legs in flight with it. Nothing is to be written.
    pub(crate) fn close(&mut self)
        ensures { self.new ≡ record self.old { carrier = record { legs = record self.old.carrier.legs { connection = Closed }; output = [] } } }
    {
        self.upstream.close();
    }

    /// Whether legs can be sent.
    pub(crate) fn is_open(&self) -> bool
        ensures { result ≡ is_open self.now.carrier.legs.connection }
    {
        self.upstream.is_open()
    }

    /// Whether a leg has landed over it.
    pub(crate) fn is_kept(&self) -> bool
        ensures { result ≡ self.now.is_kept }
    {
        self.is_kept
    }

    /// Whether something may have come of the oldest leg's reply.
    pub(crate) fn has_begun(&self) -> bool
        ensures { result ≡ self.now.has_begun }
    {
        self.has_begun
    }

    /// How many of the last bytes of the texts that were sent weren't written.
    pub(crate) fn unwritten(&self) -> usize
        ensures { result ≡ self.now.unwritten }
    {
        self.unwritten
    }
}
