//! Hubs side by side, at most eight. A key has one of them, by the hash of its rest, so all calls for a key are of one history,
//! and its servers get their legs in that history's order.
//!
//! Each hub has books of its own, whose ledgers are named by its number: a session has a seat at each hub (`Seats`), and a call
//! that is begun at one hub can't be counted in the share of another.
#![tactic(auto)]

mod choice;
mod close;
mod hubs;
mod names;
mod one;
mod seats;

pub use crate::choice::{HubChoice, MOST_HUBS};
pub use crate::hubs::{HubCall, Hubs};
pub use crate::names::{At, Blanks, HubNames, Names};
pub use crate::seats::{HubPasses, Seats};
