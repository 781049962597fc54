//! Whether a located value stands in its text.

ghost use Rattle.std.specs.Prelude.{◌≡◌, IfOk, IfSome, IsTrue, Some};
ghost use Rattle.serde_json.specs.Data.{string};
ghost use Rattle.serde_json.specs.Read.{read};
ghost use Rattle.mcv_spans.specs.Place.{items_view, members_view, view};
ghost use Rattle.mcv_spans.specs.Stands.{IsBetween, IsWithin, IsWord, ItemsStand, MembersStand, StandsIn, bytes_at};

use crate::value::{Located, Member, Span};
use serde_json::Value;
use std::alloc::{AllocError, Global};

/// Whether a value stands in its text, between two places.
#[cycle(standing)]
pub(crate) fn stands_in(
    alloc: Global,
    text: &[u8],
    around: Span,
    value: &Located,
) -> Result<bool, AllocError>
    ensures { IfOk result (λ stands. IsTrue stands → StandsIn text.now around.start around.end (view value.now)) }
{
    let span = value.span();
    if !is_within(around, span) {
        return Ok(false);
    }
    let Some(bytes) = bytes_at(text, span) else {
        return Ok(false);
    };
    match value {
        Located::Object(_, members) => object_stands(alloc, text, span, bytes, members.as_slice()),
        Located::Array(_, items) => list_stands(alloc, text, span, bytes, items.as_slice()),
        Located::Text(_, body) => reads_as(alloc, bytes, body.as_str()),
        Located::Other(_) => is_word(alloc, bytes),
    }
}

/// Whether an object stands in a span that has these bytes.
#[cycle(standing)]
fn object_stands(
    alloc: Global,
    text: &[u8],
    span: Span,
    bytes: &[u8],
    members: &[Member],
) -> Result<bool, AllocError>
    ensures { IfOk result (λ stands. IsTrue stands → IsBetween 123 125 bytes.now × MembersStand text.now span.start span.end (members_view members.now)) }
{
    if !is_between(bytes, b'{', b'}') {
        return Ok(false);
    }
    members_stand(alloc, text, span, members)
}

/// Whether a list stands in a span that has these bytes.
#[cycle(standing)]
fn list_stands(
    alloc: Global,
    text: &[u8],
    span: Span,
    bytes: &[u8],
    items: &[Located],
) -> Result<bool, AllocError>
    ensures { IfOk result (λ stands. IsTrue stands → IsBetween 91 93 bytes.now × ItemsStand text.now span.start span.end (items_view items.now)) }
{
    if !is_between(bytes, b'[', b']') {
        return Ok(false);
    }
    items_stand(alloc, text, span, items)
}

/// Whether the values of all members stand in a span.
#[cycle(standing)]
fn members_stand(
    alloc: Global,
    text: &[u8],
    around: Span,
    members: &[Member],
) -> Result<bool, AllocError>
    ensures { IfOk result (λ stands. IsTrue stands → MembersStand text.now around.start around.end (members_view members.now)) }
{
    for member in members {
        if !stands_in(alloc, text, around, &member.value)? {
            return Ok(false);
        }
    }
    Ok(true)
}

/// Whether all items stand in a span, one behind the other.
#[cycle(standing)]
fn items_stand(
    alloc: Global,
    text: &[u8],
    around: Span,
    items: &[Located],
) -> Result<bool, AllocError>
    ensures { IfOk result (λ stands. IsTrue stands → ItemsStand text.now around.start around.end (items_view items.now)) }
{
    let mut left = around;
    for item in items {
        let stands = stands_in(alloc, text, left, item)?;
        if !stands {
            return Ok(false);
        }
        left = Span {
            start: item.span().end,
            end: around.end,
        };
    }
    Ok(true)
}

fn is_within(around: Span, span: Span) -> bool
    ensures { IsTrue result → IsWithin around.start around.end span }
{
    around.start <= span.start && span.start < span.end && span.end <= around.end
}

/// The bytes of a span; None where it isn't in the text.
fn bytes_at(text: &[u8], span: Span) -> Option<&[u8]>
    ensures { IfSome result (λ bytes. bytes.now ≡ bytes_at text.now span) }
{
    if span.start > span.end || span.end > text.len() {
        return None;
    }
    Some(&text[span.start..span.end])
}

fn is_between(bytes: &[u8], first: u8, last: u8) -> bool
    ensures { IsTrue result → IsBetween first last bytes.now }
{
    bytes.len() > 1 && bytes[0] == first && bytes[bytes.len() - 1] == last
}

/// Whether the bytes are JSON that reads as a text.
fn reads_as(alloc: Global, bytes: &[u8], body: &str) -> Result<bool, AllocError>
    ensures { IfOk result (λ reads. IsTrue reads → read bytes.now ≡ Some (string body.now)) }
{
    if is_written_of(alloc, bytes, body)? {
        return Ok(true);
    }
    match Value::from_slice(alloc, bytes) {
        Ok(Value::String(text)) => Ok(text.as_str() == body),
        Ok(_) => Ok(false),
        Err(fault) => {
            if fault.is_memory() {
                return Err(AllocError);
            }
            Ok(false)
        }
    }
}

/// Whether the bytes are what is written of a text, which reads as it. (Most texts are, and it costs less than to read them.)
fn is_written_of(alloc: Global, bytes: &[u8], body: &str) -> Result<bool, AllocError>
    ensures { IfOk result (λ is. IsTrue is → read bytes.now ≡ Some (string body.now)) }
{
    let text = Value::String(String::from_str(alloc, body)?);
    let written = text.to_vec(alloc)?;
    Ok(written.as_slice() == bytes)
}

/// Whether the bytes are JSON that reads as a number, a boolean or null.
fn is_word(alloc: Global, bytes: &[u8]) -> Result<bool, AllocError>
    ensures { IfOk result (λ is. IsTrue is → IsWord (read bytes.now)) }
{
    match Value::from_slice(alloc, bytes) {
        Ok(Value::Null | Value::Bool(_) | Value::Number(_)) => Ok(true),
        Ok(_) => Ok(false),
        Err(fault) => {
            if fault.is_memory() {
                return Err(AllocError);
            }
            Ok(false)
        }
    }
}
