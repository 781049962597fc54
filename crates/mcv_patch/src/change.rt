//! The one change that makes a value of another.

ghost use Rattle.std.specs.Prelude.{◌≡◌, ◌≤◌, IfOk, Some};
ghost use Rattle.serde_json.specs.Data.{depth};
ghost use Rattle.serde_json.specs.Read.{max_depth};
ghost use Rattle.serde_json.specs.View.{view};
ghost use Rattle.mcv_patch.specs.Operations.{change_of};
ghost use Rattle.mcv_patch.specs.Patch.{patched};

use crate::child::{Child, Pair, child_of};
use crate::operation::Operation;
use serde_json::Value;
use std::alloc::{AllocError, Global};

/// The most steps of a path.
const STEP_LIMIT: usize = 127;

/// The change that makes the new value of the old one, at the lowest place that has all that differs.
pub fn difference<'a>(
    alloc: Global,
    old: &'a Value,
    new: &'a Value,
) -> Result<Operation<'a>, AllocError>
    requires shallow { depth (view old.now) ≤ max_depth }
    requires also { depth (view new.now) ≤ max_depth }
    ensures { IfOk result (λ operation. patched (change_of operation) (view old.now) ≡ Some (view new.now)) }
{
    let mut path = Vec::new(alloc);
    let mut here = Pair { old, new };
    for _ in 0..STEP_LIMIT {
        match child_of(alloc, here)? {
            Child::Behind(step, pair) => {
                path.push(step)?;
                here = pair;
            }
            Child::Added(key, value) => {
                return Ok(Operation {
                    path,
                    added: Some(key),
                    value,
                });
            }
            Child::Many => break,
        }
    }
    Ok(Operation {
        path,
        added: None,
        value: here.new,
    })
}
