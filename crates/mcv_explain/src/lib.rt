//! A verdict as sentences that an operator can act on.
//!
//! `push_explanation` says what a finding says (specs/Explanation.antt): for which keys, which servers answer its delete
//! and its get, in which handles of the configuration, and which server is left with the old value. `push_compared` says
//! what a certificate compared. A `Scene` is a finding with the configuration that it is of: where its legs go.
#![tactic(auto)]

mod compared;
mod eras;
mod explanation;
mod pieces;
mod scene;
mod sentences;
mod words;

pub use compared::push_compared;
pub use explanation::push_explanation;
pub use scene::Scene;
pub use words::outcome_word;
