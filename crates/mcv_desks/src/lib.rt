//! The desks of a loop at all hubs: each key is asked at its hub.
//!
//! `LoopDesks` has one `LoopDesk` for each hub. A request whose keys have one hub is asked there whole; of another each key is asked
//! alone at its hub, so that a hub keeps of it what it was asked itself, and its replies are joined in the order of the keys.
#![tactic(auto)]

mod desks;
mod hub_desks;
mod mixed;
mod one_hub;
mod one_key;

pub use crate::desks::LoopDesks;
