//! Which legs the deletes of each class of keys need beside their own.
//!
//! `class_needs` takes what the deletes of a class leave to be answered for in all eras, and gives legs with which nothing
//! is, and without any one of which something is (specs/Needs.antt).
#![tactic(auto)]

mod needs;
mod wanted;

pub use needs::{Need, class_needs};
