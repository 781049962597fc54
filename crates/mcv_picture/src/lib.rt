//! A configuration in, the picture of its routes out, with what the verdict on them marks.
//!
//! `run_draw` judges the routes, and writes what mcv_draw draws of them (specs/Drawing.antt).
#![tactic(auto)]

mod drawing;
mod marks;
mod notes;
mod run;

pub use run::run_draw;
