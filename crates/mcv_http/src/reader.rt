//! The bytes of a request, in pieces.

ghost use Rattle.std.specs.Prelude.{◌≡◌, ◌≤◌, ◌++◌, ℕ, List, [], OnErr, OnOk, IfOk, Some, length, take};
ghost use Rattle.httparse.specs.Grammar.{RequestHead};
ghost use Rattle.httparse.specs.Spans.{IsRequestAt, IsRequestOf, IsWithin};
ghost use Rattle.httparse.specs.declared.spans.HeaderSpan.{HeaderSpan};
ghost use Rattle.mcv_http.specs.Request.{answer};
ghost use Rattle.mcv_http.specs.Reading.{IsAnswered, IsKnown, byte_limit, refusal_by};

use crate::request::{Refusal, Request, answer};
use httparse::spans::{EMPTY_HEADER_SPAN, RequestSpans, parse_request};
use httparse::{Error, Status};
use std::alloc::{AllocError, Global};
use std::marker::Model;

/// The most bytes that are kept of a request: a head has to end within them.
pub const REQUEST_LIMIT: usize = 8192;

/// The most fields of a head.
const FIELD_LIMIT: usize = 64;

/// What the head asks for that was found in the bytes.
fn answer_of(bytes: &[u8], head: RequestSpans) -> Result<Request, Refusal>
    requires method { IsWithin (length bytes.now) head.method }
    requires path { IsWithin (length bytes.now) head.path }
    ensures known { (headers : List HeaderSpan) → IsRequestOf bytes.now headers head → IsKnown bytes.now (Some result) }
    ensures answered { (headers : List HeaderSpan) (h : RequestHead) → IsRequestAt bytes.now headers head h → Some result ≡ Some (answer h.method h.target) }
{
    let method = head.method.of(bytes);
    let target = head.path.of(bytes);
    answer(method, target)
}

/// Why bytes are refused that httparse doesn't read.
fn refusal_by(error: Error) -> Refusal
    ensures { result ≡ refusal_by error }
{
    match error {
        Error::TooManyHeaders => Refusal::TooLong,
        _ => Refusal::BadRequest,
    }
}

/// What a request asks for or why it is refused, once that is known from these bytes.
pub fn read_request(bytes: &[u8]) -> Option<Result<Request, Refusal>>
    ensures known { IsKnown bytes.now result }
    ensures answered { IsAnswered bytes.now result }
{
    let mut headers = [EMPTY_HEADER_SPAN; FIELD_LIMIT];
    match parse_request(bytes, &mut headers) {
        Ok(Status::Complete(head)) => Some(answer_of(bytes, head)),
        Ok(Status::Partial) => {
            if bytes.len() < REQUEST_LIMIT {
                None
            } else {
                Some(Err(Refusal::TooLong))
            }
        }
        Err(error) => Some(Err(refusal_by(error))),
    }
}

/// What has come of one request: at most its first 8192 bytes. Clauses see these.
#[derive(Drop)]
pub struct RequestReader {
    bytes: Vec<u8>,
}

impl Model for RequestReader {
    ghost use Rattle.std.specs.Prelude.{List, ℕ, ◌≤◌, length};

    ghost Value = { List ℕ };

    ghost view = { λ r. r.bytes.items };

    ghost invariant = { λ r. length r.bytes.items ≤ 8192 };
}

impl RequestReader {
    /// One to which nothing has come.
    pub fn new(alloc: Global) -> RequestReader
        ensures { result ≡ [] }
    {
        RequestReader {
            bytes: Vec::new(alloc),
        }
    }

    /// Takes the next piece, as far as it can matter, and says what is known then. Where memory runs out, nothing is taken.
    #[tactic(auto, using(crate::proofs::Pieces::take_joined))]
    pub fn feed(&mut self, piece: &[u8]) -> Result<Option<Result<Request, Refusal>>, AllocError>
        ensures taken { OnOk result (self.new ≡ take byte_limit (self.old ++ piece.now)) }
        ensures refused { OnErr result (self.new ≡ self.old) }
        ensures known { IfOk result (IsKnown self.new) }
        ensures answered { IfOk result (IsAnswered self.new) }
    {
        let room = REQUEST_LIMIT - self.bytes.len();
        let taken = piece.len().min(room);
        self.bytes.extend_from_slice(&piece[..taken])?;
        Ok(read_request(self.bytes.as_slice()))
    }
}

/// Pieces that come one after another have come as one.
pub fn pieces_are_one_text()
    ensures { (before piece more : List ℕ) → take byte_limit (take byte_limit (before ++ piece) ++ more) ≡ take byte_limit (before ++ (piece ++ more)) }
{}
