//! A connection over which a marked server is asked whether it answers.

ghost use Rattle.std.specs.Prelude.{◌≡◌, [], IfOk, codes};
ghost use Rattle.std.specs.Io.KnownBytes.{Keeps};
ghost use Rattle.mcv_lines.specs.Probe.{ReadsAnswer, ReadsProbe, WritesProbe};
ghost use Rattle.mcv_reply.specs.Reader.{Fed};

use crate::took::{Heard, Written, Wrote, read_piece, write_front};
use mcv_connection::{Connection, Received};
use mcv_outgoing::Outgoing;
use mcv_reply::ProbeReader;
use std::alloc::{AllocError, Global};
use std::marker::Model;

/// A connection over which `version` is asked. Clauses see the reader of its answer, what is to be written, and what the connection
/// holds and has left: what was written since it was opened, and what then is to be written, is `version` CR LF, and the reader was fed
/// the bytes that it gave.
#[derive(Drop)]
pub(crate) struct Probe<C: Connection> {
    connection: C,
    reader: ProbeReader,
    output: Outgoing,
}

impl<C: Connection> Model for Probe<C> {
    ghost use Rattle.mcv_lines.specs.Probe.{IsProbe, ProbeValue};

    ghost Value = { ProbeValue };

    ghost view = { λ p. record { reader = p.reader; output = p.output; ends = record { given = C.written p.connection; left = C.unread p.connection } } };

    ghost invariant = { λ p. IsProbe (record { reader = p.reader; output = p.output; ends = record { given = C.written p.connection; left = C.unread p.connection } }) };
}

/// What asks.
fn question(alloc: Global) -> Result<Outgoing, AllocError>
    ensures { IfOk result (λ output. output ≡ codes "version\r\n") }
{
    let mut output = Outgoing::new(alloc);
    output.push(b"version\r\n")?;
    Ok(output)
}

/// Reads a piece of the answer.
fn read_answer<C: Connection>(
    reader: &mut ProbeReader,
    connection: &mut C,
    room: &mut [u8],
) -> Heard
    ensures reads { ReadsAnswer reader.old (C.unread connection.old) room.new result reader.new (C.unread connection.new) }
    ensures writes_nothing { Keeps (C.written connection.old) (C.written connection.new) }
{
    match read_piece(connection, room) {
        Received::Bytes(count) => match reader.feed(&room[..count]) {
            Ok(None) => Heard::Bytes(count),
            Ok(Some(_)) => Heard::Answers,
            Err(_) => Heard::Faulty,
        },
        Received::NotNow => Heard::NotNow,
        Received::End | Received::Broken => Heard::Over,
    }
}

impl<C: Connection> Probe<C> {
    /// `version` is to be written. An error is that memory ran out: the connection is dropped.
    pub(crate) fn new(alloc: Global, connection: C) -> Result<Probe<C>, AllocError>
        ensures { IfOk result (λ p. p ≡ record { reader = Fed []; output = codes "version\r\n"; ends = record { given = C.written connection; left = C.unread connection } }) }
    {
        let output = question(alloc)?;
        Ok(Probe {
            connection,
            reader: ProbeReader::new(alloc),
            output,
        })
    }

    /// Writes what is to be written, with one write.
    pub(crate) fn write(&mut self) -> Wrote
        ensures { WritesProbe self.old result self.new }
    {
        let output = self.output.bytes();
        let Written { outcome, count } = write_front(&mut self.connection, output);
        self.output.wrote(count);
        outcome
    }

    /// Reads a piece of the answer. What comes before the question is written is none.
    pub(crate) fn read(&mut self, room: &mut [u8]) -> Heard
        ensures { ReadsProbe self.old room.new result self.new }
    {
        let heard = read_answer(&mut self.reader, &mut self.connection, room);
        if heard == Heard::Answers && !self.output.bytes().is_empty() {
            return Heard::Faulty;
        }
        heard
    }

    /// The connection, on which whatever was to be written for the probe need not be any more.
    pub(crate) fn into_connection(self) -> C
        ensures { (C.written result ≡ self.ends.given) × (C.unread result ≡ self.ends.left) }
    {
        let Probe { connection, .. } = self;
        connection
    }
}
