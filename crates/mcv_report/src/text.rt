//! Texts in reports, and the text of a report.

ghost use Rattle.std.specs.Prelude.{◌≡◌, ◌++◌, ◌≤◌, ℕ, List, Some, IfOk, codes};
ghost use Rattle.serde_json.specs.Data.{depth};
ghost use Rattle.serde_json.specs.Read.{max_depth, read};
ghost use Rattle.serde_json.specs.View.{view};
ghost use Rattle.mcv_base.specs.Position.{position_text};
ghost use Rattle.mcv_cert.specs.Escape.{escaped};
ghost use Rattle.mcv_report.specs.Json.{number_or_null, text_from};

use mcv_base::Position;
use mcv_cert::push_escaped;
use serde_json::Value;
use std::alloc::{AllocError, Global};

/// Bytes as a text.
pub(crate) fn text_of(alloc: Global, bytes: &[u8]) -> Result<Value, AllocError>
    ensures { IfOk result (λ v. view v ≡ text_from bytes.now) }
{
    Ok(Value::String(String::from_utf8_lossy(alloc, bytes)?))
}

/// A word, escaped.
pub(crate) fn escaped_text(alloc: Global, word: &[u8]) -> Result<Value, AllocError>
    ensures { IfOk result (λ v. view v ≡ text_from (escaped word.now)) }
{
    let mut text = Vec::new(alloc);
    push_escaped(&mut text, word)?;
    text_of(alloc, text.as_slice())
}

/// A position.
pub(crate) fn position_text(alloc: Global, position: &Position) -> Result<Value, AllocError>
    ensures { IfOk result (λ v. view v ≡ text_from (position_text position.now)) }
{
    let mut text = Vec::new(alloc);
    position.push_text(&mut text)?;
    text_of(alloc, text.as_slice())
}

/// A number, or null.
pub(crate) fn number_or_null(number: Option<usize>) -> Value
    ensures { view result ≡ number_or_null number }
{
    match number {
        Some(number) => Value::from(number),
        None => Value::Null,
    }
}

/// The text of a report, which ends with a line feed: JSON that reads as the report, where it nests no deeper than is read.
pub(crate) fn report_text(alloc: Global, report: &Value) -> Result<Vec<u8>, AllocError>
    ensures { IfOk result (λ text. (json : List ℕ) × (text.items ≡ json ++ codes "\n")
        × (depth (view report.now) ≤ max_depth → read json ≡ Some (view report.now))) }
{
    let mut text = report.to_vec(alloc)?;
    text.extend_from_slice(b"\n")?;
    Ok(text)
}
