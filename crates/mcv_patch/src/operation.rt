//! The operations of a patch, and its text.

ghost use Rattle.std.specs.Prelude.{◌≡◌, [], ◌∷◌, IfOk, None, Some, option_map};
ghost use Rattle.serde_json.specs.View.{view};
ghost use Rattle.mcv_patch.specs.Operations.{change_of};
ghost use Rattle.mcv_patch.specs.Text.{IsLineOf, IsPatchText, change_data};

use crate::pointer::operation_pointer;
use serde_json::{Value, json, push};
use std::alloc::{AllocError, Global};

/// A step of a path: to the member of a key, or to the item of a number.
#[derive(Clone, Copy)]
pub enum Step<'a> {
    Key(&'a str),
    Index(usize),
}

/// The value at the path is replaced by this one; or, with a key, it is added under this key to the object at the path.
#[derive(Drop)]
pub struct Operation<'a> {
    pub path: Vec<Step<'a>>,
    pub added: Option<&'a str>,
    pub value: &'a Value,
}

/// The text of the patch of one operation, or of none: a line.
pub fn patch_text(alloc: Global, operation: Option<&Operation<'_>>) -> Result<Vec<u8>, AllocError>
    ensures none { operation.entry ≡ None → IfOk result (λ text. IsPatchText [] text.items) }
    ensures one { (o : Operation) → option_map (λ x. x.now) operation.entry ≡ Some o → IfOk result (λ text. IsPatchText (change_of o ∷ []) text.items) }
{
    let mut operations = Vec::new(alloc);
    if let Some(operation) = operation {
        push(&mut operations, operation_value(alloc, operation)?)?;
    }
    line_of(alloc, &Value::Array(operations))
}

/// A value as a line.
fn line_of(alloc: Global, value: &Value) -> Result<Vec<u8>, AllocError>
    ensures { IfOk result (λ text. IsLineOf (view value.now) text.items) }
{
    let mut text = value.to_vec(alloc)?;
    text.push(b'\n')?;
    Ok(text)
}

/// An operation as a value.
fn operation_value(alloc: Global, operation: &Operation<'_>) -> Result<Value, AllocError>
    ensures { IfOk result (λ value. view value ≡ change_data (change_of operation.now)) }
{
    let name = if operation.added.is_some() {
        "add"
    } else {
        "replace"
    };
    let path = operation_pointer(alloc, operation)?;
    json!(in alloc; {"op": name, "path": path.as_str(), "value": operation.value})
}
