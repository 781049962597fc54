//! The pairs that a certificate has for the readable leaves of a block, or the first index of a leaf that has no reason.
//!
//! `push_block` adds a pair for each leaf that has a reason for all its indexes, and one for each index of the others.
//! Which leaves and indexes have a reason: specs/Gaps.antt. Which of several reasons a pair gives: specs/Reasons.antt.
#![tactic(auto)]

mod block;
mod laws;
mod leaf;

pub use block::{BlockGap, push_block};
pub use laws::{answered_has_reasons, one_list_of_pairs};
