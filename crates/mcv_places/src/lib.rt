//! Where the handles and the servers of routes stand in the JSON value of a configuration: JSON pointers (RFC 6901) from
//! the positions of legs.
//!
//! `specs/Site.antt` says what is child number k of a handle, case by case as a configuration may spell it;
//! `specs/Pools.antt` where a leg's server is.
#![tactic(auto)]

mod child;
mod document;
mod name;
mod place;
mod pointer;
mod pool;
mod site;
mod text;

pub use document::read_document;
pub use place::{handle_at, server_at};
