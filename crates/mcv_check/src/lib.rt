//! Judges a certificate against the routes of a configuration, by nothing of what made it.
//!
//! `check` goes from block to block: it finds what the route has for the class and the era, judges the pairs that
//! are there, and drops the block again. Routes whose certificate is justified are covered, for every key, in every
//! era, under every choice and at all outcomes that can come; `Accepted` is such routes.
#![tactic(auto)]

mod accepted;
mod block;
mod fault;
mod judging;

pub use accepted::{Accepted, check};
pub use fault::CheckFault;
