//! The routes of a configuration: their trees, their leaves with the tables of servers and symbols, and their eras.
//!
//! What each handle sends and replies is defined over these trees (`specs/Launched.antt`, `specs/Replies.antt`).
#![tactic(auto)]

mod build;
mod children;
mod eras;
mod launch;
mod moments;
mod routes;
mod tree;

pub use children::child_of;
pub use eras::{
    NearEras, era_count, eras_are_near, eras_are_opened_by_breaks, near, near_eras, opened,
};
pub use launch::{Answered, Launch};
pub use mcv_names::Many;
pub use routes::Routes;
pub use tree::{Leaf, OperationPolicy, PrefixPolicy, Route, Shadow};
