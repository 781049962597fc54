//! The text without its comments, from front to back.

ghost use Rattle.std.specs.Prelude.{◌≡◌, List, ℕ, IfErr, IfOk, IsErrOf};
ghost use Rattle.mcv_comments.specs.Comments.{IsOpen, Strips};

use crate::fault::CommentFault;
use crate::front::front_of;
use std::alloc::Global;

/// The text without its comments: a `/* .. */` becomes one space, and a `//` up to the next LF, which stays, or up to
/// the end becomes nothing. What is between double quotes is kept as it is, where a backslash escapes the next
/// byte, and so is a text that never ends. Open where a `/*` has no `*/` behind it; its own star doesn't end it.
pub fn strip_comments(alloc: Global, text: &[u8]) -> Result<Vec<u8>, CommentFault>
    ensures stripped { IfOk result (λ out. Strips text.now out.items) }
    ensures open { IsErrOf result CommentFault.Open → IsOpen text.now }
    ensures only { (out : List ℕ) → Strips text.now out → IfErr result (λ e. e ≡ CommentFault.Memory) }
{
    let mut kept = Vec::with_capacity(alloc, text.len())?;
    let mut rest = text;
    while !rest.is_empty() {
        let Some(front) = front_of(rest) else {
            return Err(CommentFault::Open);
        };
        kept.extend_from_slice(front.kept)?;
        rest = front.rest;
    }
    Ok(kept)
}
