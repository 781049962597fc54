//! What the checker compares: for a route, a class of rests and an era, the positions from which an operation can
//! be answered and those to which every delete that has a reply has been sent.
//!
//! The definitions (`specs/Sets.antt`) speak of all outcomes that can come and of one choice. The laws say
//! that the choice makes no difference, and that the structure of the route gives the sets; so `Case` lays
//! out the plan of the route once and reads each set off it in one walk, and the answers of legs that show it.
#![tactic(auto)]

mod case;
mod laws;
mod sets;
mod shown;

pub use case::Case;
pub use laws::{
    covered_is_justified, sets_are_exact, sets_ignore_the_choice, symbols_are_independent,
};
pub use shown::LegAnswer;
