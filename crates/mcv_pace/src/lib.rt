//! How many lines an operator is shown in a second.
//!
//! A `Pace` counts the lines of one second. The first ten are said; those behind are counted, and told of as a number once a
//! later second has come, so that no line is lost without a trace and none of a thousand costs a write.
#![tactic(auto)]

mod pace;

pub use pace::{LINE_LIMIT, Pace};
