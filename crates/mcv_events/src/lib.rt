//! The rows that a core keeps of a world, the events on them, and the laws by which each event is its move.
#![tactic(auto)]

mod laws;

pub use laws::{
    cores_keep_deletes, events_are_moves, legs_are_entries, legs_are_reserved,
    queued_legs_are_counted, status_is_reply,
};
