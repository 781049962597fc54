//! Where the values of a text stand.

ghost use Rattle.std.specs.Prelude.{IfOk, IfSome, length};
ghost use Rattle.mcv_spans.specs.Place.{view};
ghost use Rattle.mcv_spans.specs.Stands.{StandsIn};

use crate::blanks::behind_blanks;
use crate::quoted::{quoted_len, unquoted};
use crate::standing::stands_in;
use crate::value::{Located, Member, Span};
use std::alloc::{AllocError, Global};
use std::collections::BTreeMap;

/// The most levels of values.
const DEPTH_LIMIT: usize = 128;

/// The value of a text, each part where it stands; None where that is no JSON for as far as it was looked at.
pub fn locate(alloc: Global, text: &[u8]) -> Result<Option<Located>, AllocError>
    ensures { IfOk result (λ found. IfSome found (λ value. StandsIn text.now 0 (length text.now) (view value))) }
{
    let Some((value, _)) = read_value(alloc, text.len(), behind_blanks(text), DEPTH_LIMIT)? else {
        return Ok(None);
    };
    confirmed(alloc, text, value)
}

/// The value, where it stands in the text.
fn confirmed(alloc: Global, text: &[u8], value: Located) -> Result<Option<Located>, AllocError>
    ensures { IfOk result (λ found. IfSome found (λ value. StandsIn text.now 0 (length text.now) (view value))) }
{
    let whole = Span {
        start: 0,
        end: text.len(),
    };
    if stands_in(alloc, text, whole, &value)? {
        Ok(Some(value))
    } else {
        Ok(None)
    }
}

/// The bytes from the front of one rest of a text of `total` bytes to the front of another.
fn span_of(total: usize, from: &[u8], to: &[u8]) -> Span {
    Span {
        start: total.saturating_sub(from.len()),
        end: total.saturating_sub(to.len()),
    }
}

/// The value that a rest of a text of `total` bytes begins with, and what comes behind it.
#[cycle(reading)]
fn read_value<'t>(
    alloc: Global,
    total: usize,
    text: &'t [u8],
    depth: usize,
) -> Result<Option<(Located, &'t [u8])>, AllocError> {
    if depth == 0 {
        return Ok(None);
    }
    match text {
        [b'{', behind @ ..] => read_object(alloc, total, text, behind, depth - 1),
        [b'[', behind @ ..] => read_array(alloc, total, text, behind, depth - 1),
        [b'"', ..] => read_text(alloc, total, text),
        [] => Ok(None),
        _ => {
            let behind = behind_word(text);
            Ok(Some((Located::Other(span_of(total, text, behind)), behind)))
        }
    }
}

/// What comes behind a number, true, false or null.
fn behind_word(text: &[u8]) -> &[u8] {
    for (place, byte) in text.iter().enumerate() {
        if matches!(
            *byte,
            b',' | b']' | b'}' | b':' | b'/' | b' ' | b'\t' | b'\n' | b'\r'
        ) {
            return &text[place..];
        }
    }
    &text[text.len()..]
}

/// The text between quotes that a rest begins with.
fn read_text<'t>(
    alloc: Global,
    total: usize,
    text: &'t [u8],
) -> Result<Option<(Located, &'t [u8])>, AllocError> {
    let Some((quoted, behind)) = cut_quoted(text) else {
        return Ok(None);
    };
    let Some(body) = unquoted(alloc, quoted)? else {
        return Ok(None);
    };
    Ok(Some((Located::Text(span_of(total, text, behind), body), behind)))
}

/// The text between quotes that a rest begins with, its quotes among it, and what comes behind.
fn cut_quoted(text: &[u8]) -> Option<(&[u8], &[u8])> {
    let end = quoted_len(text)?;
    if end > text.len() {
        return None;
    }
    Some(text.split_at(end))
}

/// The object whose `{` comes before `inside`.
#[cycle(reading)]
fn read_object<'t>(
    alloc: Global,
    total: usize,
    text: &'t [u8],
    inside: &'t [u8],
    depth: usize,
) -> Result<Option<(Located, &'t [u8])>, AllocError> {
    let mut members = BTreeMap::new(alloc);
    let mut rest = behind_blanks(inside);
    for _ in 0..=inside.len() {
        if let [b'}', behind @ ..] = rest {
            let span = span_of(total, text, behind);
            return Ok(Some((Located::Object(span, listed(alloc, members)?), behind)));
        }
        let Some((member, behind)) = read_member(alloc, total, rest, depth)? else {
            return Ok(None);
        };
        let Member { name, value } = member;
        members.insert(name, value)?;
        rest = behind_separator(behind);
    }
    Ok(None)
}

/// The members in the byte order of their names.
fn listed(alloc: Global, table: BTreeMap<String, Located>) -> Result<Vec<Member>, AllocError> {
    let mut members = Vec::with_capacity(alloc, table.len())?;
    for (name, value) in table {
        members.push(Member { name, value })?;
    }
    Ok(members)
}

/// What comes behind the blanks, a comma if there is one, and further blanks.
fn behind_separator(text: &[u8]) -> &[u8] {
    match behind_blanks(text) {
        [b',', behind @ ..] => behind_blanks(behind),
        behind => behind,
    }
}

/// The member that a rest begins with.
#[cycle(reading)]
fn read_member<'t>(
    alloc: Global,
    total: usize,
    text: &'t [u8],
    depth: usize,
) -> Result<Option<(Member, &'t [u8])>, AllocError> {
    let Some((quoted, behind)) = cut_quoted(text) else {
        return Ok(None);
    };
    let [b':', behind @ ..] = behind_blanks(behind) else {
        return Ok(None);
    };
    let Some(name) = unquoted(alloc, quoted)? else {
        return Ok(None);
    };
    let Some((value, behind)) = read_value(alloc, total, behind_blanks(behind), depth)? else {
        return Ok(None);
    };
    Ok(Some((Member { name, value }, behind)))
}

/// The array whose `[` comes before `inside`.
#[cycle(reading)]
fn read_array<'t>(
    alloc: Global,
    total: usize,
    text: &'t [u8],
    inside: &'t [u8],
    depth: usize,
) -> Result<Option<(Located, &'t [u8])>, AllocError> {
    let mut items = Vec::new(alloc);
    let mut rest = behind_blanks(inside);
    for _ in 0..=inside.len() {
        if let [b']', behind @ ..] = rest {
            return Ok(Some((Located::Array(span_of(total, text, behind), items), behind)));
        }
        let Some((item, behind)) = read_value(alloc, total, rest, depth)? else {
            return Ok(None);
        };
        items.push(item)?;
        rest = behind_separator(behind);
    }
    Ok(None)
}
