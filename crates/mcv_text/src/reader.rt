//! The reader of a stream: it takes pieces as they come and gives the items that end in them.
//!
//! The line's buffer holds the bytes before a LF alone, so that each byte is searched for a LF
//! once; a value grows in the buffer that becomes its body.

ghost use Rattle.std.specs.Prelude.{◌≡◌, ◌<◌, ◌≤◌, ◌≢◌, ◌+◌, ◌↔◌, ◌∷◌, [], ℕ, List, length, take, drop, map, IfOk, OnErr};
ghost use Rattle.std.specs.Result.{IsErrOf};
ghost use Rattle.std.specs.List.{All};
ghost use Rattle.mcv_text.specs.Reader.{EndsAt, EndsValue, IsKept, Steps, awaits_of};
ghost use Rattle.mcv_text.specs.Request.{asking, header_value, item_value, request_value, with_body};
ghost use Rattle.mcv_text.specs.Stream.{Awaits, Failed, Held, IsLine, Reads, Skips, followed};

use crate::item::{Item, Refusal, TextFault};
use crate::line::{Header, Meaning, meaning_of};
use mcv_base::{Ask, Request};
use memchr::memchr;
use std::alloc::{AllocError, Global};
use std::marker::Model;
use std::mem;
use std::sync::Arc;

/// The most bytes of a line before its LF.
const LINE_LIMIT: usize = 65536;

/// A value of `size` bytes, of which and of its CR LF `body` has come.
#[derive(Drop)]
pub struct Value {
    header: Header,
    size: usize,
    body: Vec<u8>,
}

/// What comes next in the stream.
#[derive(Drop)]
pub enum State {
    Line,
    Value(Value),
    /// So many bytes to pass over.
    Skip(usize),
    Failed,
}

/// What one step made of a piece: the state after it, an item where one has ended, and the bytes used.
#[derive(Drop)]
pub struct Step {
    state: State,
    item: Option<Item>,
    used: usize,
}

/// The line has come whole.
fn after_line(alloc: Global, line: &mut Vec<u8>, used: usize) -> Result<Step, AllocError>
    requires { IsLine line.old.items }
    ensures used { IfOk result (λ s. s.used ≡ used) }
    ensures kept { IfOk result (λ s. IsKept line.new.items s.state) }
    ensures steps { IfOk result (λ s. (more : List ℕ) → Steps (Held line.old.items) (10 ∷ more) s.item (awaits_of line.new.items s.state) more) }
{
    match meaning_of(alloc, line.as_slice())? {
        Meaning::Stores(header, size) => {
            let body = Vec::with_capacity(alloc, size + 2)?;
            let state = State::Value(Value { header, size, body });
            Ok(Step {
                state,
                item: None,
                used,
            })
        }
        Meaning::Whole(request) => {
            line.clear();
            Ok(Step {
                state: State::Line,
                item: Some(Item::Asked(request)),
                used,
            })
        }
        Meaning::Unknown => {
            line.clear();
            Ok(Step {
                state: State::Line,
                item: Some(Item::Refused(Refusal::UnknownCommand)),
                used,
            })
        }
        Meaning::Bad => Ok(Step {
            state: State::Failed,
            item: Some(Item::Refused(Refusal::BadLine)),
            used,
        }),
        Meaning::TooLarge(size) => {
            line.clear();
            Ok(Step {
                state: State::Skip(size + 2),
                item: Some(Item::Refused(Refusal::ValueTooLarge)),
                used,
            })
        }
    }
}

/// A piece without a line's end.
fn line_goes_on(line: &mut Vec<u8>, piece: &[u8]) -> Result<Step, AllocError>
    requires line { IsLine line.old.items }
    requires no_end { All (λ b. b ≢ 10) piece.now }
    ensures used { IfOk result (λ s. s.used ≡ length piece.now) }
    ensures kept { IfOk result (λ s. IsKept line.new.items s.state) }
    ensures steps { IfOk result (λ s. Steps (Held line.old.items) piece.now s.item (awaits_of line.new.items s.state) []) }
{
    let used = piece.len();
    if used > LINE_LIMIT - line.len() {
        return Ok(Step {
            state: State::Failed,
            item: Some(Item::Refused(Refusal::BadLine)),
            used,
        });
    }
    line.extend_from_slice(piece)?;
    Ok(Step {
        state: State::Line,
        item: None,
        used,
    })
}

/// A piece in which the line ends.
fn line_ends(
    alloc: Global,
    line: &mut Vec<u8>,
    piece: &[u8],
    end: usize,
) -> Result<Step, AllocError>
    requires line { IsLine line.old.items }
    requires ends { EndsAt piece.now end }
    ensures used { IfOk result (λ s. (0 < s.used) × (s.used ≤ length piece.now)) }
    ensures kept { IfOk result (λ s. IsKept line.new.items s.state) }
    ensures steps { IfOk result (λ s. Steps (Held line.old.items) piece.now s.item (awaits_of line.new.items s.state) (drop s.used piece.now)) }
{
    if end > LINE_LIMIT - line.len() {
        return Ok(Step {
            state: State::Failed,
            item: Some(Item::Refused(Refusal::BadLine)),
            used: piece.len(),
        });
    }
    line.extend_from_slice(&piece[..end])?;
    after_line(alloc, line, end + 1)
}

/// A piece that comes while a line is read.
fn line_step(alloc: Global, line: &mut Vec<u8>, piece: &[u8]) -> Result<Step, AllocError>
    requires line { IsLine line.old.items }
    requires some { 0 < length piece.now }
    ensures used { IfOk result (λ s. (0 < s.used) × (s.used ≤ length piece.now)) }
    ensures kept { IfOk result (λ s. IsKept line.new.items s.state) }
    ensures steps { IfOk result (λ s. Steps (Held line.old.items) piece.now s.item (awaits_of line.new.items s.state) (drop s.used piece.now)) }
{
    match memchr(b'\n', piece) {
        None => line_goes_on(line, piece),
        Some(end) => line_ends(alloc, line, piece, end),
    }
}

#[derive(Clone, Copy)]
pub enum ValueEnd {
    Part,
    Wrong,
    Whole,
}

/// How far the value and its CR LF have come.
fn value_end(bytes: &[u8], size: usize) -> ValueEnd
    requires fits { length bytes.now ≤ size + 2 }
    requires small { size ≤ 1048576 }
    ensures { EndsValue result size bytes.now }
{
    if bytes.len() <= size {
        return ValueEnd::Part;
    }
    if bytes[size] != b'\r' {
        return ValueEnd::Wrong;
    }
    if bytes.len() == size + 1 {
        return ValueEnd::Part;
    }
    if bytes[size + 1] != b'\n' {
        return ValueEnd::Wrong;
    }
    ValueEnd::Whole
}

/// The request of a storing line and its value, without the CR LF behind it.
fn stored(alloc: Global, value: Value) -> Result<Request, AllocError>
    ensures { IfOk result (λ r. request_value r ≡ asking (with_body (header_value value.header) (take value.size value.body.items))) }
{
    let Value {
        header,
        size,
        mut body,
    } = value;
    body.truncate(size);
    let body = Arc::new(alloc, body)?;
    let Header {
        op,
        keys,
        flags,
        exptime,
        cas,
        noreply,
    } = header;
    Ok(Request::Ask(Ask {
        op,
        keys,
        flags,
        exptime,
        body,
        cas,
        delta: 0,
        noreply,
    }))
}

/// A piece that comes while a value is read.
fn value_step(
    alloc: Global,
    line: &mut Vec<u8>,
    mut value: Value,
    piece: &[u8],
) -> Result<Step, AllocError>
    requires kept { IsKept line.old.items (State.Value value) }
    requires some { 0 < length piece.now }
    ensures used { IfOk result (λ s. (0 < s.used) × (s.used ≤ length piece.now)) }
    ensures kept { IfOk result (λ s. IsKept line.new.items s.state) }
    ensures steps { IfOk result (λ s. Steps (awaits_of line.old.items (State.Value value)) piece.now s.item (awaits_of line.new.items s.state) (drop s.used piece.now)) }
{
    let used = (value.size + 2 - value.body.len()).min(piece.len());
    value.body.extend_from_slice(&piece[..used])?;
    match value_end(value.body.as_slice(), value.size) {
        ValueEnd::Part => Ok(Step {
            state: State::Value(value),
            item: None,
            used,
        }),
        ValueEnd::Wrong => Ok(Step {
            state: State::Failed,
            item: Some(Item::Refused(Refusal::BadDataChunk)),
            used: piece.len(),
        }),
        ValueEnd::Whole => {
            let request = stored(alloc, value)?;
            line.clear();
            Ok(Step {
                state: State::Line,
                item: Some(Item::Asked(request)),
                used,
            })
        }
    }
}

/// A piece that comes while bytes are passed over.
fn skip_step(count: usize, piece: &[u8]) -> Step
    requires some { 0 < length piece.now }
    requires count { 0 < count }
    ensures used { (0 < result.used) × (result.used ≤ length piece.now) }
    ensures kept { IsKept [] result.state }
    ensures steps { Steps (Skips count) piece.now result.item (awaits_of [] result.state) (drop result.used piece.now) }
{
    if piece.len() < count {
        return Step {
            state: State::Skip(count - piece.len()),
            item: None,
            used: piece.len(),
        };
    }
    Step {
        state: State::Line,
        item: None,
        used: count,
    }
}

fn take_step(
    alloc: Global,
    line: &mut Vec<u8>,
    state: State,
    piece: &[u8],
) -> Result<Step, AllocError>
    requires kept { IsKept line.old.items state }
    requires some { 0 < length piece.now }
    ensures used { IfOk result (λ s. (0 < s.used) × (s.used ≤ length piece.now)) }
    ensures kept { IfOk result (λ s. IsKept line.new.items s.state) }
    ensures steps { IfOk result (λ s. Steps (awaits_of line.old.items state) piece.now s.item (awaits_of line.new.items s.state) (drop s.used piece.now)) }
{
    match state {
        State::Line => line_step(alloc, line, piece),
        State::Value(value) => value_step(alloc, line, value, piece),
        State::Skip(count) => Ok(skip_step(count, piece)),
        State::Failed => Ok(Step {
            state: State::Failed,
            item: None,
            used: piece.len(),
        }),
    }
}

/// Reads a piece whole. Where memory runs out, the state is Failed.
fn read(
    alloc: Global,
    line: &mut Vec<u8>,
    state: &mut State,
    piece: &[u8],
) -> Result<Vec<Item>, AllocError>
    requires { IsKept line.old.items state.old }
    ensures kept { IsKept line.new.items state.new }
    ensures items { IfOk result (λ v. Reads (followed (awaits_of line.old.items state.old) piece.now) (map item_value v.items) (awaits_of line.new.items state.new)) }
    ensures err { OnErr result (state.new ≡ State.Failed) }
{
    let mut items = Vec::new(alloc);
    let mut rest = piece;
    while !rest.is_empty() {
        let current = mem::replace(state, State::Failed);
        let Step {
            state: next,
            item,
            used,
        } = take_step(alloc, line, current, rest)?;
        if let Some(item) = item {
            items.push(item)?;
        }
        *state = next;
        rest = &rest[used..];
    }
    Ok(items)
}

/// Reads requests from a stream that comes in pieces. Clauses see what it awaits.
#[derive(Drop)]
pub struct RequestReader {
    alloc: Global,
    line: Vec<u8>,
    state: State,
}

impl Model for RequestReader {
    ghost use Rattle.mcv_text.specs.Reader.{IsKept, awaits_of};
    ghost use Rattle.mcv_text.specs.Stream.{Awaits};

    ghost Value = { Awaits };

    ghost view = { λ r. awaits_of r.line.items r.state };

    ghost invariant = { λ r. IsKept r.line.items r.state };
}

impl RequestReader {
    /// A reader that no byte has come to.
    pub fn new(alloc: Global) -> RequestReader
        ensures { result ≡ Held [] }
    {
        let line = Vec::new(alloc);
        let state = State::Line;
        RequestReader { alloc, line, state }
    }

    /// The items that end in the next piece. Behind BadLine and BadDataChunk, and after a fault, the reader has
    /// failed; where memory runs out the items of the piece are lost.
    pub fn feed(&mut self, piece: &[u8]) -> Result<Vec<Item>, TextFault>
        ensures items { IfOk result (λ v. Reads (followed self.old piece.now) (map item_value v.items) self.new) }
        ensures failed { IsErrOf result TextFault.Failed ↔ (self.old ≡ Failed) }
        ensures err { OnErr result (self.new ≡ Failed) }
    {
        if let State::Failed = self.state {
            return Err(TextFault::Failed);
        }
        match read(self.alloc, &mut self.line, &mut self.state, piece) {
            Ok(items) => Ok(items),
            Err(_) => Err(TextFault::Memory),
        }
    }
}
