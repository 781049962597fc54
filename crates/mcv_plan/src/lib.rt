//! A call's evaluation: which of its legs are launched, and its reply, after each outcome.
//!
//! A plan of `mcv_rules` says what a route does with one operation, rest and era. Under a choice it becomes a course,
//! whose legs are numbered in the order of their positions: these are the call's entries. `EvalState` takes the
//! outcomes of launched legs one by one, without memory, and says after each which legs it launches and whether the
//! reply is there.
#![tactic(auto)]

mod answer;
mod at_once;
mod building;
mod counting;
mod course;
mod evaluation;
mod hearing;
mod launched;
mod opening;
mod state;

pub use answer::{Answer, Source};
pub use counting::most_legs;
pub use state::EvalState;
