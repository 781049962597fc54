//! What is at the front of a text: a run of plain bytes, a text between quotes or a comment.

ghost use Rattle.std.specs.Prelude.{◌≡◌, ◌<◌, ◌≤◌, ◌∷◌, ℕ, List, length, take, drop, slice_index, MatchOption};
ghost use Rattle.mcv_comments.specs.Comments.{Begins, HasNoEnd, HasNoQuote, IsInside, OpensBlock, StripsTo, block, line};
ghost use Rattle.mcv_comments.specs.Front.{ShownAs};

use memchr::{memchr, memchr2, memmem};

/// What is kept of the front of a text, and what comes behind it.
#[derive(Clone, Copy)]
pub struct Front<'a> {
    pub kept: &'a [u8],
    pub rest: &'a [u8],
}

/// What a text begins with.
#[derive(Clone, Copy, PartialEq, Eq)]
pub enum Kind {
    Quote,
    Block,
    Line,
    Plain,
}

fn kind_of(text: &[u8]) -> Kind
    ensures { ShownAs text.now result }
{
    match text {
        [b'"', ..] => Kind::Quote,
        [b'/', b'*', ..] => Kind::Block,
        [b'/', b'/', ..] => Kind::Line,
        _ => Kind::Plain,
    }
}

/// The place of the quote that ends a text between quotes; `body` is all that comes behind its first quote.
fn text_end(body: &[u8]) -> Option<usize>
    ensures { MatchOption result (HasNoQuote body.now) (λ end. (end < length body.now) × (slice_index body.now end ≡ 34) × IsInside (take end body.now)) }
{
    let mut place = 0;
    while place < body.len() {
        match body[place] {
            b'"' => return Some(place),
            b'\\' => place += 2,
            _ => place += 1,
        }
    }
    None
}

/// The length of a text with its quotes.
fn text_len(text: &[u8]) -> usize
    requires { ShownAs text.now Kind.Quote }
    ensures some { 0 < result }
    ensures within { result ≤ length text.now }
    ensures kept { StripsTo text.now (drop result text.now) (take result text.now) }
{
    match text_end(&text[1..]) {
        Some(end) => end + 2,
        None => text.len(),
    }
}

/// The length of a run of plain bytes, up to the next quote or slash.
fn run_len(text: &[u8]) -> usize
    requires some { 0 < length text.now }
    requires begins { ShownAs text.now Kind.Plain }
    ensures some { 0 < result }
    ensures within { result ≤ length text.now }
    ensures kept { StripsTo text.now (drop result text.now) (take result text.now) }
{
    match memchr2(b'"', b'/', &text[1..]) {
        Some(end) => end + 1,
        None => text.len(),
    }
}

/// What comes behind a comment's `*/`; `body` is all that comes behind its `/*`.
fn behind_block(body: &[u8]) -> Option<&[u8]>
    ensures { MatchOption result (HasNoEnd body.now) (λ rest. ((comment : List ℕ) × Begins (47 ∷ 42 ∷ body.now) (block comment) rest.now) × (length rest.now ≤ length body.now)) }
{
    let end = memmem::find(body, b"*/")?;
    Some(&body[end + 2..])
}

/// What comes behind a comment up to the end of its line; `body` is all that comes behind its `//`.
fn behind_line(body: &[u8]) -> &[u8]
    ensures comment { (comment : List ℕ) × Begins (47 ∷ 47 ∷ body.now) (line comment) result.now }
    ensures within { length result.now ≤ length body.now }
{
    match memchr(b'\n', body) {
        Some(end) => &body[end..],
        None => &body[body.len()..],
    }
}

/// The front of a text; None where it is a comment that doesn't end.
pub fn front_of(text: &[u8]) -> Option<Front<'_>>
    requires { 0 < length text.now }
    ensures { MatchOption result (OpensBlock text.now) (λ front. StripsTo text.now front.rest.now front.kept.now × (length front.rest.now < length text.now)) }
{
    match kind_of(text) {
        Kind::Quote => {
            let (kept, rest) = text.split_at(text_len(text));
            Some(Front { kept, rest })
        }
        Kind::Block => {
            let rest = behind_block(&text[2..])?;
            Some(Front { kept: b" ", rest })
        }
        Kind::Line => {
            let rest = behind_line(&text[2..]);
            Some(Front { kept: b"", rest })
        }
        Kind::Plain => {
            let (kept, rest) = text.split_at(run_len(text));
            Some(Front { kept, rest })
        }
    }
}
