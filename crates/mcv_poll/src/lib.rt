//! What a loop talks to, over sockets that don't wait: `mcv_loop`'s `Sources` over `mio`.
//!
//! One thread has the poll with the listener; the loop owns the connections of its clients and servers. What may wait has a thread of
//! its own and a lock that is held for a moment: the spool's file (`Mailbox`, `serve_spool`) and the look-up of servers' names
//! (`Names`, `serve_names`).
#![tactic(auto)]

mod addresses;
mod door;
mod due;
mod entrance;
mod letters;
mod lookups;
mod mailbox;
mod names;
mod poll_sources;
mod server_stream;
mod servers;
mod spooler;
mod tokens;

pub use crate::door::{Door, Visitor};
pub use crate::mailbox::Mailbox;
pub use crate::names::{Names, serve_names};
pub use crate::poll_sources::{PollSources, Sockets};
pub use crate::server_stream::ServerStream;
pub use crate::spooler::serve_spool;
pub use mio::Poll;
pub use mio::net::TcpStream;
