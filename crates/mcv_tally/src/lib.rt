//! What is counted while a proxy runs.
//!
//! A `Tally` has numbers that only grow, which all threads add to. No clause says what a number is, since other threads add
//! to it at any moment.
#![tactic(auto)]

mod count;
mod tally;
mod words;

pub use count::{Count, Level};
pub use tally::{ClientTally, HubTally, ServerTally, SpoolTally, Tally};
pub use words::{WordTally, cause_word, reply_word};
