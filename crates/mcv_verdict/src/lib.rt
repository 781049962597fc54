//! A configuration in, the verdict on it out: whether each delete that is acknowledged was sent to every server that
//! can be read.
//!
//! `run_check` is the path from the bytes read to the bytes written, `judge_input` that to routes that are covered, and
//! `judge` that from routes to what is found of them. Which verdict there is on routes, and its text, is in
//! `specs/Verdict.antt`; which fault is in what was read, in `specs/Fault.antt`.
#![tactic(auto)]

mod run;
mod text;
mod verdict;

pub use run::{judge, judge_input, run_check};
pub use text::covered_line;
pub use verdict::{Judged, Judgement, Verdict};
