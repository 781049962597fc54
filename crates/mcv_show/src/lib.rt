//! A configuration in, the verdict on it out, in the form that options ask for: explained, or as JSON.
//!
//! `run_check_as` writes the verdict as the options ask (specs/Explained.antt, Reported.antt, AsAsked.antt).
#![tactic(auto)]

mod explained;
mod fault;
mod input;
mod output;
mod reported;
mod run;

pub use run::run_check_as;
