//! Why the comments weren't taken out.

ghost use Rattle.std.specs.Prelude.{◌≡◌};
ghost use Rattle.mcv_comments.specs.declared.fault.CommentFault.TheVariants.{Memory};

use std::alloc::AllocError;
use thiserror::Error;

/// A comment that doesn't end, or a growth that was refused.
#[derive(Clone, Copy, Debug, PartialEq, Eq, Error)]
pub enum CommentFault {
    #[error("a comment has no end")]
    Open,
    #[error("out of memory")]
    Memory,
}

impl From<AllocError> for CommentFault {
    ghost from_gives = { λ _ e. e ≡ Memory };

    fn from(_e: AllocError) -> CommentFault {
        CommentFault::Memory
    }
}
