//! Findings: what shows that a delete can be lost, for anyone to replay by hand.
//!
//! A `Finding` names a key, the indexes that its hash picks, and what each server answered: to a get, gets, incr or
//! decr that is answered from a leaf, and to a delete that was acknowledged and never sent to the leaf's server. When
//! it shows what it says is a definition over the rules of handles (`specs/Breaks.antt`); `confirm` decides whether it
//! does, and `finding_text` writes it.
#![tactic(auto)]

mod class_word;
mod finding;
mod known;
mod laws;
mod replay;
mod seen;
mod text;
mod walk;

pub use finding::{Finding, LegOutcome};
pub use laws::findings_are_losses;
pub use replay::confirm;
pub use text::finding_text;
