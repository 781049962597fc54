//! What the commands read and write, a configuration from a reader and a text to a writer, and why they end early.
//!
//! `RunFault` is why a command ends before its work is done: its number, its text and the exit status are in
//! `specs/Fault.antt`. `read_configuration` reads all that a reader has left, up to the limit of a configuration, and
//! gives the routes that it names, or the fault in it. `write_text` writes a text whole.
#![tactic(auto)]

mod configuration;
mod device;
mod fault;

pub use configuration::{read_configuration, read_routes};
pub use device::{read_at_most, write_text};
pub use fault::RunFault;
