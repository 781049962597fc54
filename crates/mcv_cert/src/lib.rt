//! Certificates that each delete reaches the servers that are read, and their text, both ways.
//!
//! A `Certificate` is a list of pairs that rise; `Certificate::text` writes it, `read_certificate` reads it.
//! The definitions are in specs/: `Pair` says which pairs there are and in which order, `Text` how they are
//! spelled, `Reading` what a text says or where it is at fault.
#![tactic(auto)]

mod certificate;
mod escape;
mod fault;
mod laws;
mod pair;
mod parse;
mod place;
mod read;
mod write;

pub use certificate::Certificate;
pub use escape::push_escaped;
pub use fault::{CertFault, CertTextFault};
pub use laws::{one_answer, text_is_read};
pub use pair::{Pair, Reason};
pub use place::Place;
pub use read::read_certificate;
