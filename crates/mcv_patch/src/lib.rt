//! A JSON patch (RFC 6902) that makes one JSON value of another.
//!
//! `difference` finds the one change that is needed, at the lowest place that has all that differs, and `patch_text` writes
//! it. `patched` (specs/Patch.antt) says what a change makes of a value.
#![tactic(auto)]

mod change;
mod child;
mod operation;
mod pointer;
mod same;

pub use change::difference;
pub use operation::{Operation, Step, patch_text};
