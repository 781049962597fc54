//! A verdict as one JSON value.
//!
//! What it is of a finding, a certificate and a fault is in specs/, a file each; `docs/report.schema.json` is its schema.
#![tactic(auto)]

mod certificate;
mod fault;
mod finding;
mod object;
mod text;

pub use certificate::covered_text;
pub use fault::{pair_refused_text, refused_text, text_refused_text, window_refused_text};
pub use finding::lost_text;
