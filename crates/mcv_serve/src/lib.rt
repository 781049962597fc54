//! A proxy, from the opening of its spool to the closing of its hubs.
//!
//! `Launch` is what a proxy is started with: a disk, what its loop talks to, who keeps the spool, and what else is done in threads
//! beside the loop. `serve` opens the spool, and over it up to eight hubs side by side, one for each key; it runs the loop over them,
//! and says what they counted.
#![tactic(auto)]

mod fault;
mod launch;
mod opening;
mod proxy;
mod store;
mod threads;

pub use crate::fault::ProxyFault;
pub use crate::launch::{Found, Job, Keeper, Launch, Tools};
pub use crate::proxy::serve;
