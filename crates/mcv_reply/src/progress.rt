//! A reply that has come in part: what each step makes of a piece.
//!
//! It keeps what the line so far has said, so that no byte is looked at again when the next piece
//! comes; a value is taken by its length (specs/Progress.antt says what is kept so).

ghost use Rattle.std.specs.Prelude.{◌≡◌, ◌↔◌, ◌<◌, ◌≤◌, ◌+◌, ℕ, List, [], IfOk, IsTrue, MatchOption, length, true, Some, None};
ghost use Rattle.mcv_base.specs.Reply.{reply_value};
ghost use Rattle.mcv_reply.specs.Line.{IsLine};
ghost use Rattle.mcv_reply.specs.Candidate.{IsKept, is_clean};
ghost use Rattle.mcv_reply.specs.PlainLine.{EndsValue, StartsLine};
ghost use Rattle.mcv_reply.specs.Reply.{said_alone};
ghost use Rattle.mcv_reply.specs.Reader.{Fed};
ghost use Rattle.mcv_reply.specs.Flight.{HasCome, is_over};
ghost use Rattle.mcv_reply.specs.Progress.{FirstEnds, HitMade, IsAt, IsAtStage, LastEnds, Steps, bytes_at, reader_state_at};

use crate::candidate::Head;
use crate::fault::ReplyFault;
use crate::line::{Candidates, Meaning, candidates, go_on, said, without_return};
use crate::plain::{behind, plain_line};
use crate::word::{Row, Word};
use mcv_base::{Op, Reply};
use memchr::memchr;
use std::alloc::Global;
use std::mem;
use std::sync::Arc;

/// What servers write behind a value.
const VALUE_END: &[u8] = b"\r\nEND\r\n";

/// What of a reply is being read.
#[derive(Clone, Copy, PartialEq, Eq)]
pub enum Stage {
    /// The first line, of which nothing has come.
    Start,
    /// The first line, of which some has come.
    Line,
    /// The value.
    Value,
    /// The LF behind the value's CR.
    Return,
    /// The line behind the value.
    Last,
    /// Nothing: the reply has been given.
    Answered,
    /// Nothing: a fault has been given.
    Closed,
}

impl Stage {
    /// Whether nothing is read any more.
    pub fn is_over(self) -> bool
        ensures { result ≡ is_over self }
    {
        match self {
            Stage::Start | Stage::Line | Stage::Value | Stage::Return | Stage::Last => false,
            Stage::Answered | Stage::Closed => true,
        }
    }
}

/// A reply that has come in part.
#[derive(Drop)]
pub struct Progress {
    pub stage: Stage,
    /// The line that is being read.
    pub text: Vec<u8>,
    pub candidates: Candidates,
    /// The line of a value that has come, and what it says.
    pub first: Vec<u8>,
    pub head: Head,
    pub body: Vec<u8>,
}

impl Progress {
    /// A reply of which nothing has come. It takes no memory.
    pub fn new(alloc: Global) -> Progress
        ensures { result.stage ≡ Stage.Start }
    {
        Progress {
            stage: Stage::Start,
            text: Vec::new(alloc),
            candidates: Candidates::new(),
            first: Vec::new(alloc),
            head: Head {
                flags: 0,
                size: 0,
                cas: 0,
                count: 0,
            },
            body: Vec::new(alloc),
        }
    }

    /// Whether some of the reply has come.
    pub fn has_begun(&self) -> bool
        ensures { IsTrue result ↔ HasCome self.now.stage self.now }
    {
        match self.stage {
            Stage::Line => !self.text.is_empty(),
            Stage::Value | Stage::Return | Stage::Last => true,
            Stage::Start | Stage::Answered | Stage::Closed => false,
        }
    }
}

/// What one step made of a piece: the bytes used, and the reply where it has come whole.
#[derive(Drop)]
pub struct Step {
    pub used: usize,
    pub reply: Option<Reply>,
}

/// The reply that is this line alone.
fn alone(first: Word, head: Head, line: Vec<u8>) -> Option<Reply>
    ensures { MatchOption result (said_alone first head line.items ≡ None) (λ r. said_alone first head line.items ≡ Some (reply_value r)) }
{
    match first {
        Word::End => Some(Reply::Miss),
        Word::Stored => Some(Reply::Stored),
        Word::NotStored => Some(Reply::NotStored),
        Word::Exists => Some(Reply::Exists),
        Word::NotFound => Some(Reply::NotFound),
        Word::Deleted => Some(Reply::Deleted),
        Word::Touched => Some(Reply::Touched),
        Word::Count => Some(Reply::Number(head.count)),
        Word::Error | Word::ClientError | Word::ServerError => Some(Reply::Fault(without_return(
            line,
        ))),
        Word::Value | Word::Version => None,
    }
}

/// The reply that has a value.
fn hit(alloc: Global, cas: bool, head: Head, body: Vec<u8>) -> Result<Reply, ReplyFault>
    requires { head.flags ≤ 4294967295 }
    ensures { HitMade cas head body.items result }
{
    let cas = if cas { Some(head.cas) } else { None };
    match Arc::new(alloc, body) {
        Ok(body) => Ok(Reply::Hit {
            flags: head.flags as u32,
            cas,
            body,
        }),
        Err(_) => Err(ReplyFault::Memory),
    }
}

/// The first line has come whole.
fn first_ended(
    alloc: Global,
    op: Op,
    key: &[u8],
    progress: &mut Progress,
) -> Result<Option<Reply>, ReplyFault>
    requires clean { is_clean key.now ≡ true }
    requires kept { IsKept (Row.Reply op) key.now progress.old.text.items progress.old.candidates.items }
    ensures { FirstEnds op key.now progress.old.text.items result progress.new }
{
    match said(Row::Reply(op), &progress.candidates) {
        None => Err(ReplyFault::NotAReply),
        Some(said) => {
            let line = mem::replace(&mut progress.text, Vec::new(alloc));
            line_said(alloc, op, key, progress, line, said)
        }
    }
}

/// The first line has come whole, and says this.
fn line_said(
    alloc: Global,
    op: Op,
    key: &[u8],
    progress: &mut Progress,
    line: Vec<u8>,
    said: Meaning,
) -> Result<Option<Reply>, ReplyFault>
    requires { IsLine (Row.Reply op) key.now said.first said.head line.items }
    ensures { FirstEnds op key.now line.items result progress.new }
{
    if let Word::Value = said.first {
        return value_begins(alloc, op, key, progress, line, said.head);
    }
    match alone(said.first, said.head, line) {
        Some(reply) => Ok(Some(reply)),
        None => Err(ReplyFault::NotAReply),
    }
}

/// The line of a value has come whole.
fn value_begins(
    alloc: Global,
    op: Op,
    key: &[u8],
    progress: &mut Progress,
    line: Vec<u8>,
    head: Head,
) -> Result<Option<Reply>, ReplyFault>
    requires { IsLine (Row.Reply op) key.now Word.Value head line.items }
    ensures { FirstEnds op key.now line.items result progress.new }
{
    let Ok(body) = Vec::with_capacity(alloc, head.size as usize) else {
        return Err(ReplyFault::Memory);
    };
    progress.first = line;
    progress.head = head;
    progress.body = body;
    progress.stage = Stage::Value;
    Ok(None)
}

/// A piece that comes while the first line is read.
fn in_line(
    alloc: Global,
    op: Op,
    key: &[u8],
    progress: &mut Progress,
    piece: &[u8],
) -> Result<Step, ReplyFault>
    requires clean { is_clean key.now ≡ true }
    requires some { 0 < length piece.now }
    requires stage { progress.old.stage ≡ Stage.Line }
    requires at { IsAtStage op key.now progress.old Stage.Line }
    ensures { Steps op key.now (bytes_at Stage.Line progress.old) piece.now result progress.new }
{
    let row = Row::Reply(op);
    match memchr(b'\n', piece) {
        None => {
            go_on(
                row,
                key,
                &mut progress.text,
                &mut progress.candidates,
                piece,
            )?;
            Ok(Step {
                used: piece.len(),
                reply: None,
            })
        }
        Some(end) => {
            go_on(
                row,
                key,
                &mut progress.text,
                &mut progress.candidates,
                &piece[..end],
            )?;
            let reply = first_ended(alloc, op, key, progress)?;
            Ok(Step {
                used: end + 1,
                reply,
            })
        }
    }
}

/// A piece that comes while the value is read.
fn in_value(op: Op, key: &[u8], progress: &mut Progress, piece: &[u8]) -> Result<Step, ReplyFault>
    requires clean { is_clean key.now ≡ true }
    requires some { 0 < length piece.now }
    requires stage { progress.old.stage ≡ Stage.Value }
    requires at { IsAtStage op key.now progress.old Stage.Value }
    ensures { Steps op key.now (bytes_at Stage.Value progress.old) piece.now result progress.new }
{
    let missing = progress.head.size as usize - progress.body.len();
    if missing == 0 {
        if piece[0] != b'\r' {
            return Err(ReplyFault::NotAReply);
        }
        progress.stage = Stage::Return;
        return Ok(Step {
            used: 1,
            reply: None,
        });
    }
    let used = missing.min(piece.len());
    match progress.body.extend_from_slice(&piece[..used]) {
        Ok(()) => Ok(Step { used, reply: None }),
        Err(_) => Err(ReplyFault::Memory),
    }
}

/// A piece that comes behind the CR of the value.
fn at_return(op: Op, key: &[u8], progress: &mut Progress, piece: &[u8]) -> Result<Step, ReplyFault>
    requires clean { is_clean key.now ≡ true }
    requires short { length key.now ≤ 250 }
    requires some { 0 < length piece.now }
    requires at { IsAtStage op key.now progress.old Stage.Return }
    ensures { Steps op key.now (bytes_at Stage.Return progress.old) piece.now result progress.new }
{
    if piece[0] != b'\n' {
        return Err(ReplyFault::NotAReply);
    }
    progress.text.clear();
    progress.candidates = candidates(Row::AfterValue, key);
    progress.stage = Stage::Last;
    Ok(Step {
        used: 1,
        reply: None,
    })
}

/// The line behind the value has come whole.
fn last_ended(
    alloc: Global,
    op: Op,
    key: &[u8],
    progress: &mut Progress,
) -> Result<Reply, ReplyFault>
    requires clean { is_clean key.now ≡ true }
    requires at { IsAtStage op key.now progress.old Stage.Last }
    ensures { LastEnds op key.now (bytes_at Stage.Last progress.old) result }
{
    match said(Row::AfterValue, &progress.candidates) {
        None => Err(ReplyFault::NotAReply),
        Some(_said) => {
            let body = mem::replace(&mut progress.body, Vec::new(alloc));
            hit(alloc, Row::Reply(op).has_cas(), progress.head, body)
        }
    }
}

/// A piece that comes while the line behind the value is read.
fn in_last(
    alloc: Global,
    op: Op,
    key: &[u8],
    progress: &mut Progress,
    piece: &[u8],
) -> Result<Step, ReplyFault>
    requires clean { is_clean key.now ≡ true }
    requires some { 0 < length piece.now }
    requires stage { progress.old.stage ≡ Stage.Last }
    requires at { IsAtStage op key.now progress.old Stage.Last }
    ensures { Steps op key.now (bytes_at Stage.Last progress.old) piece.now result progress.new }
{
    let row = Row::AfterValue;
    match memchr(b'\n', piece) {
        None => {
            go_on(
                row,
                key,
                &mut progress.text,
                &mut progress.candidates,
                piece,
            )?;
            Ok(Step {
                used: piece.len(),
                reply: None,
            })
        }
        Some(end) => {
            go_on(
                row,
                key,
                &mut progress.text,
                &mut progress.candidates,
                &piece[..end],
            )?;
            let reply = last_ended(alloc, op, key, progress)?;
            Ok(Step {
                used: end + 1,
                reply: Some(reply),
            })
        }
    }
}

/// A piece that begins with the first line, which says this.
fn line_whole(
    alloc: Global,
    op: Op,
    key: &[u8],
    progress: &mut Progress,
    piece: &[u8],
    end: usize,
    said: Meaning,
) -> Result<Step, ReplyFault>
    requires { StartsLine op key.now piece.now end said }
    ensures { Steps op key.now [] piece.now result progress.new }
{
    let Ok(line) = Vec::from_slice(alloc, &piece[..end]) else {
        return Err(ReplyFault::Memory);
    };
    let reply = line_said(alloc, op, key, progress, line, said)?;
    Ok(Step {
        used: end + 1,
        reply,
    })
}

/// The first line, which isn't written as servers write it, is to be read.
fn begin_line(op: Op, key: &[u8], progress: &mut Progress)
    requires clean { is_clean key.now ≡ true }
    requires short { length key.now ≤ 250 }
    ensures stage { progress.new.stage ≡ Stage.Line }
    ensures none { progress.new.text.items ≡ [] }
    ensures at { IsAtStage op key.now progress.new Stage.Line }
{
    progress.text.clear();
    progress.candidates = candidates(Row::Reply(op), key);
    progress.stage = Stage::Line;
}

/// The first piece of a reply, the first line at a stroke where the piece begins with it, as servers write it.
fn at_start(
    alloc: Global,
    op: Op,
    key: &[u8],
    progress: &mut Progress,
    piece: &[u8],
) -> Result<Step, ReplyFault>
    requires clean { is_clean key.now ≡ true }
    requires short { length key.now ≤ 250 }
    requires some { 0 < length piece.now }
    ensures { Steps op key.now [] piece.now result progress.new }
{
    match plain_line(op, key, piece) {
        Some((end, said)) => line_whole(alloc, op, key, progress, piece, end, said),
        None => {
            begin_line(op, key, progress);
            in_line(alloc, op, key, progress, piece)
        }
    }
}

/// Whether the piece begins with what the value lacks, and the end as servers write it.
fn ends_value(missing: usize, piece: &[u8]) -> bool
    ensures { IsTrue result → EndsValue missing piece.now }
{
    if missing >= piece.len() {
        return false;
    }
    behind(&piece[missing..], VALUE_END).is_some()
}

/// A piece that begins with all that a reply with a value lacks.
fn value_whole(
    alloc: Global,
    op: Op,
    key: &[u8],
    progress: &mut Progress,
    piece: &[u8],
    missing: usize,
) -> Result<Step, ReplyFault>
    requires at { IsAtStage op key.now progress.old Stage.Value }
    requires missing { length progress.old.body.items + missing ≡ progress.old.head.size }
    requires ends { EndsValue missing piece.now }
    ensures { Steps op key.now (bytes_at Stage.Value progress.old) piece.now result progress.new }
{
    let mut body = mem::replace(&mut progress.body, Vec::new(alloc));
    let Ok(()) = body.extend_from_slice(&piece[..missing]) else {
        return Err(ReplyFault::Memory);
    };
    let reply = hit(alloc, Row::Reply(op).has_cas(), progress.head, body)?;
    Ok(Step {
        used: missing + VALUE_END.len(),
        reply: Some(reply),
    })
}

/// A piece that comes while the value is read, at a stroke where the reply ends in it, as servers write it.
fn value_piece(
    alloc: Global,
    op: Op,
    key: &[u8],
    progress: &mut Progress,
    piece: &[u8],
) -> Result<Step, ReplyFault>
    requires clean { is_clean key.now ≡ true }
    requires some { 0 < length piece.now }
    requires stage { progress.old.stage ≡ Stage.Value }
    requires at { IsAtStage op key.now progress.old Stage.Value }
    ensures { Steps op key.now (bytes_at Stage.Value progress.old) piece.now result progress.new }
{
    let missing = progress.head.size as usize - progress.body.len();
    if ends_value(missing, piece) {
        value_whole(alloc, op, key, progress, piece, missing)
    } else {
        in_value(op, key, progress, piece)
    }
}

/// A piece at any stage of a reply that has come in part.
pub fn take_step(
    alloc: Global,
    op: Op,
    key: &[u8],
    progress: &mut Progress,
    piece: &[u8],
) -> Result<Step, ReplyFault>
    requires clean { is_clean key.now ≡ true }
    requires short { length key.now ≤ 250 }
    requires some { 0 < length piece.now }
    requires at { IsAt op key.now progress.old }
    requires fed { (bytes : List ℕ) × (reader_state_at progress.old.stage progress.old ≡ Fed bytes) }
    ensures used { IfOk result (λ s. (0 < s.used) × (s.used ≤ length piece.now)) }
    ensures steps { (bytes : List ℕ) → reader_state_at progress.old.stage progress.old ≡ Fed bytes → Steps op key.now bytes piece.now result progress.new }
{
    match progress.stage {
        Stage::Start => at_start(alloc, op, key, progress, piece),
        Stage::Line => in_line(alloc, op, key, progress, piece),
        Stage::Value => value_piece(alloc, op, key, progress, piece),
        Stage::Return => at_return(op, key, progress, piece),
        Stage::Last => in_last(alloc, op, key, progress, piece),
        Stage::Answered | Stage::Closed => Err(ReplyFault::Closed),
    }
}
