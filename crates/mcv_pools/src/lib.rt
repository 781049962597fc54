//! Servers and symbols with their numbers, and the choices that a hash makes.
//!
//! A table numbers its entries in the order in which they first came (`Servers`, `Symbols`).
//! A hash gives each symbol the index of one of its servers (`KeyHash`, `Choice`).
#![tactic(auto)]

mod choice;
mod hash;
mod servers;
mod symbol;
mod symbols;

pub use choice::{Choice, choose};
pub use hash::{Fnv, KeyHash, TableHash};
pub use servers::{Servers, ServersFault};
pub use symbol::{HashFunc, Symbol};
pub use symbols::Symbols;
