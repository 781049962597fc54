//! The reader of one reply to a leg.

ghost use Rattle.std.specs.Prelude.{◌≡◌, ◌≤◌, ◌++◌, ℕ, List, [], length, true};
ghost use Rattle.std.specs.Arc.{arc_value};
ghost use Rattle.mcv_reply.specs.Candidate.{is_clean};
ghost use Rattle.mcv_reply.specs.Reader.{Answers, Fed, Feeds, Reading};
ghost use Rattle.mcv_reply.specs.Progress.{IsAt, ReadsPiece, reader_state_at};

use crate::fault::ReplyFault;
use crate::progress::{Progress, Stage, Step, take_step};
use mcv_base::{Op, Reply, Rest};
use std::alloc::Global;
use std::marker::Model;
use std::sync::Arc;

/// A whole piece.
fn read(
    alloc: Global,
    op: Op,
    key: &[u8],
    progress: &mut Progress,
    piece: &[u8],
) -> Result<Option<Reply>, ReplyFault>
    requires clean { is_clean key.now ≡ true }
    requires short { length key.now ≤ 250 }
    requires at { IsAt op key.now progress.old }
    requires fed { (bytes : List ℕ) × (reader_state_at progress.old.stage progress.old ≡ Fed bytes) }
    ensures { (bytes : List ℕ) → reader_state_at progress.old.stage progress.old ≡ Fed bytes → ReadsPiece op key.now (bytes ++ piece.now) result progress.new }
{
    let mut left = piece;
    while !left.is_empty() {
        let Step { used, reply } = take_step(alloc, op, key, progress, left)?;
        left = &left[used..];
        if let Some(reply) = reply {
            return if left.is_empty() {
                Ok(Some(reply))
            } else {
                Err(ReplyFault::NotAReply)
            };
        }
    }
    Ok(None)
}

/// A whole piece, and the reader's state then.
fn take_piece(
    alloc: Global,
    op: Op,
    key: &[u8],
    progress: &mut Progress,
    piece: &[u8],
) -> Result<Option<Reply>, ReplyFault>
    requires clean { is_clean key.now ≡ true }
    requires short { length key.now ≤ 250 }
    requires at { IsAt op key.now progress.old }
    requires fed { (bytes : List ℕ) × (reader_state_at progress.old.stage progress.old ≡ Fed bytes) }
    ensures at { IsAt op key.now progress.new }
    ensures answers { (bytes : List ℕ) → reader_state_at progress.old.stage progress.old ≡ Fed bytes → Answers op key.now (bytes ++ piece.now) result (reader_state_at progress.new.stage progress.new) }
{
    let reply = match read(alloc, op, key, progress, piece) {
        Ok(reply) => reply,
        Err(fault) => {
            progress.stage = Stage::Closed;
            return Err(fault);
        }
    };
    match reply {
        None => Ok(None),
        Some(reply) => {
            progress.stage = Stage::Answered;
            Ok(Some(reply))
        }
    }
}

/// Reads the reply to one leg from pieces. Clauses see the leg's operation and rest, and the bytes
/// fed, or that it has answered, or that it is closed.
#[derive(Drop)]
pub struct ReplyReader {
    alloc: Global,
    op: Op,
    rest: Arc<Rest>,
    progress: Progress,
}

impl Model for ReplyReader {
    ghost use Rattle.std.specs.Arc.{arc_value};
    ghost use Rattle.mcv_reply.specs.Reader.{Reading};
    ghost use Rattle.mcv_reply.specs.Progress.{IsAt, reader_state_at};

    ghost Value = { Reading };

    ghost view = { λ r. record { op = r.op; key = arc_value r.rest; state = reader_state_at r.progress.stage r.progress } };

    ghost invariant = { λ r. IsAt r.op (arc_value r.rest) r.progress };
}

impl ReplyReader {
    /// A reader to which nothing has been fed, for a leg of this operation and rest. It takes no
    /// memory.
    pub fn new(alloc: Global, op: Op, rest: Arc<Rest>) -> ReplyReader
        ensures { result ≡ record { op = op; key = arc_value rest; state = Fed [] } }
    {
        ReplyReader {
            alloc,
            op,
            rest,
            progress: Progress::new(alloc),
        }
    }

    /// What all bytes fed so far are: a reply, the front of one (None), or no such front. A fault
    /// closes the reader; behind a reply the next piece is NotAReply, an empty one too.
    pub fn feed(&mut self, piece: &[u8]) -> Result<Option<Reply>, ReplyFault>
        ensures { Feeds self.old piece.now result self.new }
    {
        match self.progress.stage {
            Stage::Answered => {
                self.progress.stage = Stage::Closed;
                Err(ReplyFault::NotAReply)
            }
            Stage::Closed => Err(ReplyFault::Closed),
            Stage::Start | Stage::Line | Stage::Value | Stage::Return | Stage::Last => {
                take_piece(
                    self.alloc,
                    self.op,
                    self.rest.as_bytes(),
                    &mut self.progress,
                    piece,
                )
            }
        }
    }
}
