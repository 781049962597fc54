//! The smallest change to the delete policies of a configuration that covers it.
//!
//! `run_mend` is the path from the bytes read to the bytes written (specs/Mending.antt). `draft` writes a text in which
//! deletes have the legs that they need (`class_needs`, mcv_needs). The draft isn't trusted: it is read again, judged like
//! any other configuration (`is_covered`), and compared with what was read (`is_mended`, mcv_mended).
#![tactic(auto)]

mod by_class;
mod covered;
mod drafting;
mod fault;
mod handles;
mod kept;
mod reading;
mod run;
mod splice;
mod widening;

pub use covered::is_covered;
pub use fault::{MendFault, Mending};
pub use reading::{Reading, read_named};
pub use run::{Output, mend_text, run_mend};
