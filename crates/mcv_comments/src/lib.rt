//! The comments of a configuration, taken out of its text before it is read as JSON.
//!
//! The definitions are in specs/: `Comments` says into which pieces a text falls, plain bytes,
//! texts between quotes and comments, and what is kept of each.
#![tactic(auto)]

mod fault;
mod front;
mod laws;
mod strip;

pub use fault::CommentFault;
pub use laws::{one_reading, one_stripping, open_or_stripped, stripped_or_open};
pub use strip::strip_comments;
