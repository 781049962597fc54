//! What came of one read or one write of a line.

ghost use Rattle.std.specs.Prelude.{◌≡◌, ◌≤◌, ℕ, List, length, take};
ghost use Rattle.std.specs.Io.KnownBytes.{Appends, Keeps};
ghost use Rattle.mcv_lines.specs.Took.{IsCountOf};
ghost use Rattle.mcv_connection.specs.Transfer.{Gives};

use mcv_connection::{Connection, Received, Sent, receive, send};

/// What came of a write.
#[derive(Clone, Copy, Debug, PartialEq, Eq)]
pub enum Wrote {
    /// All that was to be written is.
    All,
    /// A part of it is: the connection takes no more now.
    Part,
    /// Nothing of it is: the connection takes nothing now.
    NotNow,
    /// Nothing of it is: the connection is over.
    Over,
}

/// What came of a read.
#[derive(Clone, Copy, Debug, PartialEq, Eq)]
pub enum Heard {
    /// So many bytes, of which replies may have landed; 0 where the read was interrupted.
    Bytes(usize),
    /// Nothing: there are no bytes now.
    NotNow,
    /// Nothing: the connection is over.
    Over,
    /// The connection is to be lost as broken: what came is no reply, or memory ran out.
    Faulty,
    /// The server's answer to a probe: from now on legs can be sent.
    Answers,
}

/// What came of a write, and how many bytes were written.
#[derive(Clone, Copy)]
pub(crate) struct Written {
    pub(crate) outcome: Wrote,
    pub(crate) count: usize,
}

/// So many of these bytes were written, and what that is.
fn outcome(count: usize, length: usize) -> Written
    requires { count ≤ length }
    ensures count { result.count ≡ count }
    ensures outcome { IsCountOf result.outcome count length }
{
    let outcome = if count == length {
        Wrote::All
    } else if count == 0 {
        Wrote::NotNow
    } else {
        Wrote::Part
    };
    Written { outcome, count }
}

/// Writes a front of these bytes, with one write where there are any.
pub(crate) fn write_front<C: Connection>(connection: &mut C, output: &[u8]) -> Written
    ensures count { IsCountOf result.outcome result.count (length output.now) }
    ensures written { Appends (C.written connection.old) (C.written connection.new) (take result.count output.now) }
    ensures reads_nothing { Keeps (C.unread connection.old) (C.unread connection.new) }
{
    if output.is_empty() {
        return outcome(0, 0);
    }
    match send(connection, output) {
        Sent::Bytes(count) => outcome(count, output.len()),
        Sent::NotNow => Written {
            outcome: Wrote::NotNow,
            count: 0,
        },
        Sent::Broken => Written {
            outcome: Wrote::Over,
            count: 0,
        },
    }
}

/// Reads a piece into this room. Where there is no room, there are no bytes now.
pub(crate) fn read_piece<C: Connection>(connection: &mut C, room: &mut [u8]) -> Received
    ensures gives { Gives result room.new (C.unread connection.old) (C.unread connection.new) }
    ensures writes_nothing { Keeps (C.written connection.old) (C.written connection.new) }
{
    if room.is_empty() {
        return Received::NotNow;
    }
    receive(connection, room)
}
