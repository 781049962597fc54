//! The JSON value of a configuration.

ghost use Rattle.std.specs.Prelude.{IfOk, MatchOption};
ghost use Rattle.serde_json.specs.View.{view};
ghost use Rattle.mcv_places.specs.Document.{HasNoDocument, IsDocument, IsNoJson, IsValueOf};

use mcv_comments::{CommentFault, strip_comments};
use serde_json::Value;
use std::alloc::{AllocError, Global};

/// The value of a configuration's text, which may have comments; None where it is no JSON.
pub fn read_document(alloc: Global, text: &[u8]) -> Result<Option<Value>, AllocError>
    ensures { IfOk result (λ found. MatchOption found (HasNoDocument text.now) (λ value. IsDocument text.now (view value))) }
{
    match strip_comments(alloc, text) {
        Ok(json) => read_json(alloc, json.as_slice()),
        Err(CommentFault::Open) => Ok(None),
        Err(CommentFault::Memory) => Err(AllocError),
    }
}

/// The value of a text without comments; None where it is no JSON.
fn read_json(alloc: Global, json: &[u8]) -> Result<Option<Value>, AllocError>
    ensures { IfOk result (λ found. MatchOption found (IsNoJson json.now) (λ value. IsValueOf json.now (view value))) }
{
    match Value::from_slice(alloc, json) {
        Ok(value) => Ok(Some(value)),
        Err(fault) => {
            if fault.is_memory() {
                return Err(AllocError);
            }
            Ok(None)
        }
    }
}
