//! Bytes that wait to be written to a connection.
//!
//! `Outgoing` is appended to, and told how many of its bytes were written. It gives back the room of written bytes.
#![tactic(auto)]

mod outgoing;

pub use outgoing::Outgoing;
