//! A line of a server that has come in part.

ghost use Rattle.std.specs.Prelude.{◌≡◌, ◌≢◌, ◌≤◌, ◌++◌, ℕ, List, [], All, length, true};
ghost use Rattle.std.specs.Str.Lines.{strip_carriage_return};
ghost use Rattle.mcv_reply.specs.Word.{has_cas};
ghost use Rattle.mcv_reply.specs.Candidate.{GoesOn, IsKept, IsValid, Says, is_clean};

use crate::candidate::{Candidate, Head};
use crate::fault::ReplyFault;
use crate::word::{Row, Word};
use arrayvec::ArrayVec;

/// The first words that the line may have, each with how far the line has come for it.
pub type Candidates = ArrayVec<Candidate, 7>;

/// The candidates of a line of which nothing has come.
pub fn candidates(row: Row, key: &[u8]) -> Candidates
    requires clean { is_clean key.now ≡ true }
    requires short { length key.now ≤ 250 }
    ensures { IsKept row key.now [] result.items }
{
    let mut candidates = ArrayVec::new();
    for first in row.words() {
        candidates.push(Candidate::new(row.has_cas(), key, *first));
    }
    candidates
}

/// The candidates that go on with these bytes.
pub fn narrowed(row: Row, key: &[u8], candidates: &Candidates, bytes: &[u8]) -> Candidates
    requires clean { is_clean key.now ≡ true }
    requires valid { All (IsValid (has_cas row)) candidates.now.items }
    requires no_end { All (λ b. b ≢ 10) bytes.now }
    ensures { (text : List ℕ) → IsKept row key.now text candidates.now.items → IsKept row key.now (text ++ bytes.now) result.items }
{
    let cas = row.has_cas();
    let mut left = ArrayVec::new();
    for candidate in candidates.as_slice() {
        if let Some(next) = candidate.read(cas, key, bytes) {
            left.push(next);
        }
    }
    left
}

/// Bytes of a line without its LF.
pub fn go_on(
    row: Row,
    key: &[u8],
    text: &mut Vec<u8>,
    candidates: &mut Candidates,
    bytes: &[u8],
) -> Result<(), ReplyFault>
    requires clean { is_clean key.now ≡ true }
    requires kept { IsKept row key.now text.old.items candidates.old.items }
    requires no_end { All (λ b. b ≢ 10) bytes.now }
    ensures { GoesOn row key.now text.old.items bytes.now result text.new.items candidates.new.items }
{
    *candidates = narrowed(row, key, candidates, bytes);
    if candidates.is_empty() {
        return Err(ReplyFault::NotAReply);
    }
    match text.extend_from_slice(bytes) {
        Ok(()) => Ok(()),
        Err(_) => Err(ReplyFault::Memory),
    }
}

/// What a line says.
#[derive(Clone, Copy, PartialEq, Eq)]
pub struct Meaning {
    pub first: Word,
    /// The numbers, where it is the line of a value.
    pub head: Head,
}

/// What the line says, if it may end here.
pub fn said(row: Row, candidates: &Candidates) -> Option<Meaning>
    requires { All (IsValid (has_cas row)) candidates.now.items }
    ensures { (key text : List ℕ) → is_clean key ≡ true → IsKept row key text candidates.now.items → Says row key text result }
{
    let cas = row.has_cas();
    for candidate in candidates.as_slice() {
        if let Some(head) = candidate.end(cas) {
            return Some(Meaning {
                first: candidate.first,
                head,
            });
        }
    }
    None
}

/// The line without the CR of its end.
pub fn without_return(line: Vec<u8>) -> Vec<u8>
    ensures { result.items ≡ strip_carriage_return line.items }
{
    let mut line = line;
    if !line.is_empty() && line[line.len() - 1] == b'\r' {
        line.truncate(line.len() - 1);
    }
    line
}
