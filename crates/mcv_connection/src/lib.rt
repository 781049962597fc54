//! A connection whose reads and writes don't wait.
//!
//! `Connection` says what std's `Read` and `Write` leave open where one type has both: a read changes nothing of what was written,
//! and a write nothing of what is left to be read. `receive` and `send` tell apart what may come of a read and of a write, and
//! `has_passed` how long the other side has taken.
#![tactic(auto)]

mod connection;
mod elapsed;
mod transfer;

pub use connection::Connection;
pub use elapsed::{between, has_passed};
pub use transfer::{Received, Sent, receive, send};
