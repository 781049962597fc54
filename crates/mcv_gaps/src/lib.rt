//! Where what can be read isn't answered for by what deletes have sent, and the least legs with which it is.
//!
//! What deletes of a class leave to be answered for is `Wanted`; `least_legs` finds legs with which no leaf is missed, and
//! without any one of which one is (specs/Gaps.antt).
#![tactic(auto)]

mod gaps;
mod least;
mod missing;

pub use gaps::Wanted;
pub use least::least_legs;
