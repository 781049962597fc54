//! A session over a reader and a writer.

ghost use Rattle.std.specs.Prelude.{◌≡◌, ◌<◌, ◌≤◌, [], ℕ, List, take, length, None, IfOk, IfErr, OnOk, OnErr, MatchOption};
ghost use Rattle.std.specs.Io.KnownBytes.{Appends, Consumes, IsAtEnd};
ghost use Rattle.mcv_session.specs.ServedSession.{IsServed, IsStopped, Stops};
ghost use Rattle.mcv_session.specs.Machine.{IsIdle};
ghost use Rattle.mcv_session.specs.Session.{Breaks, Serves};

use crate::desk::Desk;
use crate::drive::drive;
use crate::laws::nothing_read;
use crate::machine::Machine;
use crate::phase::Phase;
use crate::session::{Flow, SessionFault};
use mcv_text::any_pieces;
use std::alloc::{AllocError, Global};
use std::io::{ErrorKind, Read, Write};
use thiserror::Error;

/// The most reads of one session: more than come.
const TURNS: u64 = u64::MAX;

/// The most bytes of one read.
const PIECE: usize = 16384;

/// Why a session stopped before its end.
#[derive(Clone, Copy, Debug, PartialEq, Eq, Error)]
pub enum ServeFault {
    /// The reader failed, or the session came to the most reads.
    #[error("the client can't be read")]
    Read,
    #[error("the client can't be written to")]
    Write,
    #[error("out of memory")]
    Memory,
}

/// Room for the bytes of one read.
fn piece_room(alloc: Global) -> Result<Vec<u8>, AllocError>
    ensures { IfOk result (λ room. length room.items ≡ 16384) }
{
    let mut room = Vec::new(alloc);
    room.resize(PIECE, 0)?;
    Ok(room)
}

/// Reads the next bytes: their number, or None at the end of the input. An interrupted read gives none of them.
fn next_piece<R: Read>(reader: &mut R, room: &mut [u8]) -> Result<Option<usize>, ServeFault>
    requires { 0 < length room.old }
    ensures ok { IfOk result (λ count. MatchOption count (Consumes (R.remaining reader.old) (R.remaining reader.new) [] × IsAtEnd (R.remaining reader.new))
        (λ n. (n ≤ length room.new) × Consumes (R.remaining reader.old) (R.remaining reader.new) (take n room.new))) }
    ensures err { IfErr result (λ fault. (fault ≡ ServeFault.Read) × Consumes (R.remaining reader.old) (R.remaining reader.new) []) }
{
    match reader.read(room) {
        Ok(0) => Ok(None),
        Ok(count) => Ok(Some(count)),
        Err(error) => {
            if error.kind() == ErrorKind::Interrupted {
                return Ok(Some(0));
            }
            Err(ServeFault::Read)
        }
    }
}

/// Answers a piece.
fn answer_piece<D: Desk>(
    session: &mut Machine,
    desk: &mut D,
    piece: &[u8],
) -> Result<Flow, SessionFault>
    requires { IsIdle session.old }
    ensures ok { IfOk result (λ flow. Serves D.asks desk.old desk.new session.old.reader piece.now session.new.output flow session.new.reader) }
    ensures live { IfOk result (λ flow. flow ≡ Flow.GoesOn → (session.new.phase ≡ Phase.Open) × (session.new.request ≡ None) × (session.new.waiting ≡ [])) }
    ensures err { OnErr result (Breaks D.asks desk.old desk.new session.old.reader piece.now session.new.output) }
{
    session.feed(piece)?;
    drive(session, desk)?;
    match session.phase() {
        Phase::Open => Ok(Flow::GoesOn),
        Phase::Ended => Ok(Flow::Ends),
        Phase::Failed => Err(SessionFault::Memory),
    }
}

/// Answers a piece, and writes the answers with one write.
fn serve_piece<W: Write, D: Desk>(
    session: &mut Machine,
    writer: &mut W,
    desk: &mut D,
    piece: &[u8],
) -> Result<Flow, ServeFault>
    requires { IsIdle session.old }
    ensures ok { IfOk result (λ flow. (text : List ℕ) × Serves D.asks desk.old desk.new session.old.reader piece.now text flow session.new.reader × Appends (W.contents writer.old) (W.contents writer.new) text) }
    ensures live { IfOk result (λ flow. flow ≡ Flow.GoesOn → IsIdle session.new) }
    ensures err { IfErr result (λ fault. Stops D.asks fault desk.old desk.new session.old.reader piece.now (W.contents writer.old) (W.contents writer.new)) }
{
    let outcome = answer_piece(session, desk, piece);
    if writer.write_all(session.output()).is_err() {
        return Err(ServeFault::Write);
    }
    session.wrote_all();
    match outcome {
        Ok(flow) => Ok(flow),
        Err(_) => Err(ServeFault::Memory),
    }
}

/// Serves a client: reads its bytes, asks the desk its requests in order, and writes the answers to all that one read
/// gave with one write before the next read. The session ends at the end of its input, at quit, at refusal 2 or 3, at
/// a fault, or, as a fault of the reader, after 2^64 - 1 reads.
pub fn serve_session<R: Read, W: Write, D: Desk>(
    alloc: Global,
    reader: &mut R,
    writer: &mut W,
    desk: &mut D,
) -> Result<(), ServeFault>
    ensures ok { OnOk result (IsServed D.asks desk.old desk.new (R.remaining reader.old) (R.remaining reader.new) (W.contents writer.old) (W.contents writer.new)) }
    ensures err { IfErr result (λ fault. IsStopped D.asks fault desk.old desk.new (R.remaining reader.old) (R.remaining reader.new) (W.contents writer.old) (W.contents writer.new)) }
{
    any_pieces();
    nothing_read::<D>();
    let Ok(mut bytes) = piece_room(alloc) else {
        return Err(ServeFault::Memory);
    };
    let room = bytes.as_mut_slice();
    let mut session = Machine::new(alloc);
    for _turn in 0..TURNS {
        let Some(count) = next_piece(reader, room)? else {
            return Ok(());
        };
        match serve_piece(&mut session, writer, desk, &room[..count])? {
            Flow::GoesOn => {}
            Flow::Ends => return Ok(()),
        }
    }
    Err(ServeFault::Read)
}
