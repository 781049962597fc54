//! The value of a configuration's text.

ghost use Rattle.std.specs.Prelude.{◌≤◌, IfOk};
ghost use Rattle.serde_json.specs.Data.{depth};
ghost use Rattle.serde_json.specs.Read.{max_depth};
ghost use Rattle.serde_json.specs.View.{view};
ghost use Rattle.mcv_places.specs.Document.{IsDocument};
ghost use Rattle.mcv_mend_patch.specs.Patching.{HasDocument};

use mcv_places::read_document;
use serde_json::Value;
use std::alloc::{AllocError, Global};

/// The JSON value of a text that has one.
pub(crate) fn document_of(alloc: Global, text: &[u8]) -> Result<Value, AllocError>
    requires { HasDocument text.now }
    ensures document { IfOk result (λ value. IsDocument text.now (view value)) }
    ensures shallow { IfOk result (λ value. depth (view value) ≤ max_depth) }
{
    let Some(value) = read_document(alloc, text)? else {
        unreachable!()
    };
    Ok(value)
}
