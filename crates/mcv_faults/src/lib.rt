//! A fault of a configuration for people and pipelines: its name, its JSON pointer, and where it stands in the text.
//!
//! Where a value stands is read off the text with its comments (mcv_spans).
#![tactic(auto)]

mod detail;
mod line;
mod name;
mod place;
mod pointer;
mod standing;

pub use detail::fault_detail;
pub use line::fault_line;
pub use name::fault_name;
pub use place::TextPlace;
pub use pointer::fault_pointer;
pub use standing::{Standing, standing_of};
