//! A certificate of covered routes, or the first finding that shows how a delete is lost.
//!
//! `make` asks `mcv_certify` for the certificate; where that reports a gap, `find` builds the finding of it: a key, the
//! indexes and the outcomes. Which finding it builds: specs/ShownFinding.antt. That it is the first: specs/FirstFinding.antt.
#![tactic(auto)]

mod fault;
mod finder;
mod free;
mod making;
mod scene;

pub use fault::MakeFault;
pub use finder::find;
pub use making::make;
