//! A JSON text with comments, by where its values stand.
//!
//! `locate` gives the text's value as a tree, each value with its span (`StandsIn`, specs/Stands.antt): it is looked at again
//! before it is handed out. Of equal keys the last counts, as for who reads the text as JSON. A text that is no JSON may be
//! located all the same: who cares has read it before.
//!
//! Not in its contract, and tested by who uses it: that it isn't None for a text that is JSON, that no member or item is left
//! out, and the names of members.
#![tactic(auto)]

mod blanks;
mod locating;
mod quoted;
mod standing;
mod value;

pub use locating::locate;
pub use quoted::push_quoted;
pub use value::{Located, Member, Span};
