//! The calls and legs of a proxy, the moves that change them, and that deletes are kept: definitions and their laws.
//! A reader of the headline opens four files of `specs`: World, Moves, Live and Kept.
#![tactic(auto)]

mod laws;

pub use laws::{
    covered_worlds_are_kept, deletes_are_kept, forgets_safely, hashes_make_choices,
    moves_keep_worlds, nothing_launched_is_lost, readable_servers_are_launched,
    what_is_there_stays,
};
