//! An event loop: clients and servers over whatever is ready.
//!
//! `Sources` is what a loop talks to: it waits until something is ready, and makes connections that don't wait. `Loop` hands on between
//! its clients and its connections to servers: what was read is asked and told, each hub that it has something for is locked once, and
//! what is to be written is written with one write for each connection. It ends in order: once its clients have their answers and no
//! leg is queued. A test runs it over memory.
#![tactic(auto)]

mod lines;
mod main_loop;
mod servers;
mod sources;
mod turns;

pub use crate::main_loop::{Limits, Loop, LoopEnd};
pub use crate::sources::{Ready, Source, SourceFault, Sources};
