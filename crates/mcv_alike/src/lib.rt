//! What two routes have in common that differ in the positions of their legs and in the numbers of servers and symbols.
//!
//! `is_same_plan` says that a plan does what another does, `is_widened` that a delete's plan sends more legs at once
//! besides (specs/Plans.antt). Routes with such plans send and reply the same, or send these legs too
//! (specs/Alike.antt, `plans_tell_of_routes`).
#![tactic(auto)]

mod laws;
mod needed;
mod numbering;
mod same;

pub use laws::plans_tell_of_routes;
pub use needed::NeededLeg;
pub use numbering::{Numbering, numbered};
pub use same::{is_same_plan, is_widened};
