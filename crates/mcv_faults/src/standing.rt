//! The value at fault in the text of a configuration.

ghost use Rattle.std.specs.Prelude.{◌≡◌, true, None, IfOk, IfSome, option_map, string_bytes};
ghost use Rattle.serde_json.specs.Data.{Data};
ghost use Rattle.serde_json.specs.Find.{as_str};
ghost use Rattle.serde_json.specs.View.{view};
ghost use Rattle.mcv_places.specs.Document.{IsDocument};
ghost use Rattle.mcv_faults.specs.TextPlace.{IsPlaceAt, IsSaidAt, StandsAt, StandsIn, at_fault, text_at_fault};

use crate::place::{TextPlace, place_at};
use crate::pointer::{escaped_byte, fault_pointer, is_escape};
use mcv_places::read_document;
use mcv_spans::{Located, Span, locate};
use serde_json::Value;
use std::alloc::{AllocError, Global};
use std::str::from_utf8;

/// What is known of the value at fault.
#[derive(Drop)]
pub struct Standing {
    /// Where it stands in the text, where that is known.
    pub place: Option<TextPlace>,
    /// Its text, where it is one.
    pub text: Option<String>,
}

/// What is known of the value at a fault's path in the text of a configuration: nothing, where the text is no JSON or has
/// no such value.
pub fn standing_of(alloc: Global, text: &[u8], path: &[u8]) -> Result<Standing, AllocError>
    ensures said { IfOk result (λ s. IsSaidAt text.now path.now (option_map string_bytes s.text)) }
    ensures place { IfOk result (λ s. IsPlaceAt text.now path.now (option_map (λ p. (p.line, p.column)) s.place)) }
{
    match read_document(alloc, text)? {
        Some(document) => standing_in(alloc, text, path, &document),
        None => Ok(unknown()),
    }
}

/// What is known where there is no value.
fn unknown() -> Standing
    ensures { result ≡ record { place = None; text = None } }
{
    Standing {
        place: None,
        text: None,
    }
}

/// The same in the value of the text.
fn standing_in(
    alloc: Global,
    text: &[u8],
    path: &[u8],
    document: &Value,
) -> Result<Standing, AllocError>
    ensures said { IfOk result (λ s. option_map string_bytes s.text ≡ text_at_fault path.now (view document.now)) }
    ensures place { IfOk result (λ s. IfSome s.place (λ p. StandsIn text.now (at_fault path.now (view document.now)) (p.line, p.column))) }
{
    match found_at(alloc, document, path)? {
        Some(value) => standing_at(alloc, text, path, value),
        None => Ok(unknown()),
    }
}

/// The value at a path of the document.
fn found_at<'a>(
    alloc: Global,
    document: &'a Value,
    path: &[u8],
) -> Result<Option<&'a Value>, AllocError>
    ensures { IfOk result (λ found. option_map (λ v. view v.now) found ≡ at_fault path.now (view document.now)) }
{
    let bytes = fault_pointer(alloc, path)?;
    let pointer = String::from_utf8_lossy(alloc, bytes.as_slice())?;
    Ok(document.pointer(pointer.as_str()))
}

/// The same of the value at the path.
fn standing_at(
    alloc: Global,
    text: &[u8],
    path: &[u8],
    value: &Value,
) -> Result<Standing, AllocError>
    ensures said { IfOk result (λ s. option_map string_bytes s.text ≡ as_str (view value.now)) }
    ensures place { IfOk result (λ s. IfSome s.place (λ p. StandsAt text.now (p.line, p.column) (view value.now))) }
{
    let place = place_of(alloc, text, path, value)?;
    let said = copied(alloc, value.as_str())?;
    Ok(Standing { place, text: said })
}

fn copied(alloc: Global, text: Option<&str>) -> Result<Option<String>, AllocError>
    ensures { IfOk result (λ copy. option_map string_bytes copy ≡ option_map (λ t. t.now) text.entry) }
{
    match text {
        Some(text) => Ok(Some(String::from_str(alloc, text)?)),
        None => Ok(None),
    }
}

// ---- where it stands

/// Where the value at a path stands; None where that isn't known.
fn place_of(
    alloc: Global,
    text: &[u8],
    path: &[u8],
    value: &Value,
) -> Result<Option<TextPlace>, AllocError>
    ensures { IfOk result (λ place. IfSome place (λ p. StandsAt text.now (p.line, p.column) (view value.now))) }
{
    match span_at(alloc, text, path)? {
        Some(span) => checked_place(alloc, text, span, value),
        None => Ok(None),
    }
}

/// Where a span begins, if the value stands there.
fn checked_place(
    alloc: Global,
    text: &[u8],
    span: Span,
    value: &Value,
) -> Result<Option<TextPlace>, AllocError>
    ensures { IfOk result (λ place. IfSome place (λ p. StandsAt text.now (p.line, p.column) (view value.now))) }
{
    let Span { start, end } = span;
    if start > end || end > text.len() {
        return Ok(None);
    }
    let is_there = reads_as(alloc, &text[start..end], value)?;
    if is_there {
        return Ok(Some(place_at(text, start)));
    }
    Ok(None)
}

/// Whether bytes are JSON, and where the value is a text, that text.
fn reads_as(alloc: Global, bytes: &[u8], value: &Value) -> Result<bool, AllocError>
    ensures { IfOk result (λ is. is ≡ true → (e : Data) × IsDocument bytes.now e × (as_str e ≡ as_str (view value.now))) }
{
    match read_document(alloc, bytes)? {
        Some(there) => Ok(is_same_text(there.as_str(), value.as_str())),
        None => Ok(false),
    }
}

fn is_same_text(one: Option<&str>, other: Option<&str>) -> bool
    ensures { result ≡ true → option_map (λ t. t.now) one.entry ≡ option_map (λ t. t.now) other.entry }
{
    match one {
        Some(one) => match other {
            Some(other) => one == other,
            None => false,
        },
        None => other.is_none(),
    }
}

/// Where the value at a path may stand in the text: who asks reads what stands there.
fn span_at(alloc: Global, text: &[u8], path: &[u8]) -> Result<Option<Span>, AllocError> {
    let Some(root) = locate(alloc, text)? else {
        return Ok(None);
    };
    let Some(value) = value_at(alloc, &root, path)? else {
        return Ok(None);
    };
    Ok(Some(value.span()))
}

/// The value at a path.
fn value_at<'a>(
    alloc: Global,
    root: &'a Located,
    path: &[u8],
) -> Result<Option<&'a Located>, AllocError> {
    if path == b".".as_slice() {
        return Ok(Some(root));
    }
    let mut here = root;
    for step in path.split(|byte| *byte == b'/').skip(1) {
        let name = unescaped(alloc, step)?;
        let Some(next) = step_to(here, name.as_slice()) else {
            return Ok(None);
        };
        here = next;
    }
    Ok(Some(here))
}

/// The member or the value of a list that a step names.
fn step_to<'a>(value: &'a Located, step: &[u8]) -> Option<&'a Located> {
    let text = from_utf8(step).ok()?;
    if let Some(items) = value.items() {
        let number = text.parse::<usize>().ok()?;
        return items.get(number);
    }
    value.get(text)
}

/// A step without its escapes.
fn unescaped(alloc: Global, step: &[u8]) -> Result<Vec<u8>, AllocError> {
    let mut name = Vec::with_capacity(alloc, step.len())?;
    let mut rest = step;
    while let [byte, behind @ ..] = rest {
        if is_escape(*byte, behind) {
            name.push(escaped_byte(behind[0], behind[1]))?;
            rest = &behind[2..];
        } else {
            name.push(*byte)?;
            rest = behind;
        }
    }
    Ok(name)
}
