//! Routes beside those that they were mended from.
//!
//! `is_mended` compares the plans of both, for a member of each class, in each era and for each operation: deletes send the
//! legs that the class needs at once beside their own, and all else is as it was (specs/Mend.antt).
#![tactic(auto)]

mod mended;
mod start;

pub use mended::is_mended;
