//! The first line of a reply as servers write it: single spaces, and a CR at its end. Such a line
//! is read at a stroke; one that is written in another way goes through its candidates.

ghost use Rattle.std.specs.Prelude.{◌≡◌, ◌≢◌, ◌≤◌, ◌∷◌, ◌++◌, [], All, IfSome, IsTrue, codes, length};
ghost use Rattle.mcv_reply.specs.Line.{IsDigits, IsLine, Writes, cas_forms, decimal_from, flags_forms, word};
ghost use Rattle.mcv_reply.specs.PlainLine.{IsBareWord, SpacedNumber, StartsLine};
ghost use Rattle.mcv_reply.specs.Word.{tail_of, word_text};

use crate::candidate::{Head, LINE_LIMIT, digit, with_digit};
use crate::line::Meaning;
use crate::word::{Row, Tail, Word};
use mcv_base::Op;
use memchr::memchr;

/// The end of a line before its LF.
const RETURN: &[u8] = b"\r";

/// What comes behind this text at the front of the bytes.
pub fn behind<'a>(bytes: &'a [u8], text: &[u8]) -> Option<&'a [u8]>
    ensures { IfSome result (λ left. bytes.now ≡ text.now ++ left.now) }
{
    bytes.strip_prefix(text)
}

/// The number that these digits write, if it is within the limit.
fn digits_value(digits: &[u8], limit: u64) -> Option<u64>
    ensures { IfSome result (λ n. IsDigits digits.now × (decimal_from 0 digits.now ≡ n) × (n ≤ limit)) }
{
    let mut value = 0;
    for byte in digits {
        let digit = digit(*byte)?;
        value = with_digit(value, digit, limit)?;
    }
    Some(value)
}

/// The number behind one space at the front of the bytes, up to the first end byte, and what comes from there on.
fn spaced_number(bytes: &[u8], end: u8, limit: u64) -> Option<(u64, &[u8])>
    ensures { IfSome result (λ r. SpacedNumber limit r.0 bytes.now r.1.now) }
{
    let digits = behind(bytes, b" ")?;
    let count = memchr(end, digits)?;
    if count == 0 {
        return None;
    }
    let value = digits_value(&digits[..count], limit)?;
    Some((value, &digits[count..]))
}

/// The unique number at the end of a value's line, where it has one; else 0.
#[tactic(auto, using(crate::proofs::PlainLines::no_number, crate::proofs::PlainLines::last_number))]
fn last_number(cas: bool, bytes: &[u8]) -> Option<u64>
    ensures { IfSome result (λ n. Writes (cas_forms cas n) 1 bytes.now) }
{
    if cas {
        let (number, left) = spaced_number(bytes, b'\r', 18_446_744_073_709_551_615)?;
        if left == RETURN { Some(number) } else { None }
    } else if bytes == RETURN {
        Some(0)
    } else {
        None
    }
}

/// The numbers behind the key of a value's line.
#[tactic(auto, using(crate::proofs::PlainLines::numbers_read))]
fn numbers(cas: bool, bytes: &[u8]) -> Option<Head>
    ensures { IfSome result (λ head. Writes (flags_forms cas head) 1 bytes.now) }
{
    let (flags, sized) = spaced_number(bytes, b' ', 4_294_967_295)?;
    let end = if cas { b' ' } else { b'\r' };
    let (size, left) = spaced_number(sized, end, 1_048_576)?;
    let number = last_number(cas, left)?;
    Some(Head {
        flags,
        size,
        cas: number,
        count: 0,
    })
}

/// The numbers of a value's line.
fn value_numbers(cas: bool, key: &[u8], line: &[u8]) -> Option<Head>
    ensures { IfSome result (λ head. Writes (word (codes "VALUE") ∷ (word key.now ∷ flags_forms cas head)) 0 line.now) }
{
    let named = behind(line, b"VALUE ")?;
    let left = behind(named, key)?;
    numbers(cas, left)
}

/// Whether the line is this word with nothing behind it but a CR.
fn is_bare(first: Word, line: &[u8]) -> bool
    ensures { IsTrue result → (tail_of first ≡ Tail.Nothing) × (line.now ≡ word_text first ++ 13 ∷ []) }
{
    match (first.tail(), behind(line, first.text())) {
        (Tail::Nothing, Some(left)) => left == RETURN,
        _ => false,
    }
}

/// The first word, where the line has nothing else.
fn bare_word(op: Op, line: &[u8]) -> Option<Word>
    ensures { IfSome result (λ first. IsBareWord op first line.now) }
{
    for first in Row::Reply(op).words() {
        if is_bare(*first, line) {
            return Some(*first);
        }
    }
    None
}

/// What the line of a value says.
#[tactic(auto, using(crate::proofs::PlainLines::value_line))]
fn value_said(op: Op, key: &[u8], line: &[u8]) -> Option<Meaning>
    requires no_end { All (λ b. b ≢ 10) line.now }
    requires short { length line.now ≤ 2048 }
    ensures { IfSome result (λ said. IsLine (Row.Reply op) key.now said.first said.head line.now) }
{
    if op.is_reading() {
        let head = value_numbers(Row::Reply(op).has_cas(), key, line)?;
        Some(Meaning {
            first: Word::Value,
            head,
        })
    } else {
        None
    }
}

/// What the line of one word says.
#[tactic(auto, using(crate::proofs::PlainLines::bare_line))]
fn word_said(op: Op, key: &[u8], line: &[u8]) -> Option<Meaning>
    requires no_end { All (λ b. b ≢ 10) line.now }
    requires short { length line.now ≤ 2048 }
    ensures { IfSome result (λ said. IsLine (Row.Reply op) key.now said.first said.head line.now) }
{
    let first = bare_word(op, line)?;
    Some(Meaning {
        first,
        head: Head {
            flags: 0,
            size: 0,
            cas: 0,
            count: 0,
        },
    })
}

/// What the first line of a reply says, where it is written as servers write it. None says nothing of the line.
fn plainly_said(op: Op, key: &[u8], line: &[u8]) -> Option<Meaning>
    requires { All (λ b. b ≢ 10) line.now }
    ensures { IfSome result (λ said. IsLine (Row.Reply op) key.now said.first said.head line.now) }
{
    if line.len() > LINE_LIMIT {
        return None;
    }
    match value_said(op, key, line) {
        Some(said) => Some(said),
        None => word_said(op, key, line),
    }
}

/// The place of the LF and what the line says, where the piece begins with a first line as servers write it.
pub fn plain_line(op: Op, key: &[u8], piece: &[u8]) -> Option<(usize, Meaning)>
    ensures { IfSome result (λ r. StartsLine op key.now piece.now r.0 r.1) }
{
    let end = memchr(b'\n', piece)?;
    let said = plainly_said(op, key, &piece[..end])?;
    Some((end, said))
}
