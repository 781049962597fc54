//! Classes of rests: all rests that the selectors of a route can't distinguish are one class.
//!
//! There are finitely many, one for each policy prefix of the route and one for the rest of the rests,
//! and what holds of a member holds of its whole class: two rests of one class have the same legs and
//! the same replies in every era (`alike_are_treated_alike`).
#![tactic(auto)]

mod class;
mod laws;
mod listing;
mod table;
mod words;

pub use class::Class;
pub use laws::{alike_are_treated_alike, classes_are_by_members};
pub use listing::{class_of, classes};
pub use table::ClassTable;
