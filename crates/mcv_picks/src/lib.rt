//! Finds the legs that a certificate names for a readable leaf, by tables: its first twin, the first leg with its
//! server at an index, and the legs of one symbol that have the server at all indexes. What is found: specs/Picks.antt.
#![tactic(auto)]

mod classes;
mod laws;
mod least;
mod picks;
mod slots;
mod tables;

pub use laws::{no_other_reason_holds, picked_reasons_hold};
pub use picks::Picks;
