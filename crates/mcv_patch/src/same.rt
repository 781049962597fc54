//! Whether two values are the same.

ghost use Rattle.std.specs.Prelude.{◌≡◌, ◌≤◌, IfOk, IsTrue};
ghost use Rattle.serde_json.specs.Data.{depth};
ghost use Rattle.serde_json.specs.Read.{max_depth};
ghost use Rattle.serde_json.specs.View.{view};

use serde_json::Value;
use std::alloc::{AllocError, Global};

/// Whether two values have one text; values that nest no deeper than is read are the same then.
pub(crate) fn have_one_text(alloc: Global, one: &Value, other: &Value) -> Result<bool, AllocError>
    ensures { IfOk result (λ same. IsTrue same → depth (view one.now) ≤ max_depth → depth (view other.now) ≤ max_depth → view one.now ≡ view other.now) }
{
    let text = one.to_vec(alloc)?;
    let other = other.to_vec(alloc)?;
    Ok(text.as_slice() == other.as_slice())
}
