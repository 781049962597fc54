//! Judges a certificate: each of its pairs against what the routes have at the pair's place.
//!
//! What the routes have comes as blocks, one for each route, class and pair of near eras: the readable leaves, the
//! acknowledged ones, and whether a delete can be acknowledged. `judge_block` takes the pairs of one block, so
//! blocks can be made and dropped one at a time; `judge_end` says what pairs that are left mean. Judging takes no
//! memory: a leaf is found by binary search. Which fault is at which place is `fault_at` (specs/Faults.antt).
#![tactic(auto)]

mod block;
mod fault;
mod judging;
mod laws;
mod looking;
mod reasons;

pub use block::{Block, Leg, Spot};
pub use fault::PairFault;
pub use judging::{judge, judge_block, judge_end};
pub use laws::answered_is_faultless;
