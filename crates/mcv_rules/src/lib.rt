//! What a call has sent, and what it replies.
//!
//! `Eval` lays out what a call's route does for one operation, rest, era and choice, and reports at any
//! list of outcomes which legs are sent and which reply came. The laws of routes hold of the definitions
//! alone; each is the contract of a function that does nothing.
#![tactic(auto)]

mod answers;
mod arrival;
mod asked;
mod eval;
mod known;
mod laws;
mod layout;
mod legs;
mod outcomes;
mod plan;
mod status;

pub use arrival::After;
pub use asked::{Asked, Way};
pub use eval::Eval;
pub use laws::{
    answers_are_true, answers_come_with_children, handles_send_by_their_rows,
    later_outcomes_only_add, legs_are_of_pools, legs_come_in_order, plans_are_exact,
    plans_are_sound, policies_are_selected, reachable_is_closed, searches_reply_where_they_stop,
    the_last_reply_is_one,
};
pub use layout::{laid_out, policy_number, prefix_number};
pub use outcomes::Outcomes;
pub use plan::{Plan, PlannedLeg};
pub use status::{Source, Status, default_reply};
