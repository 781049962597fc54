//! The proxy on sockets: its servers and its clients over TCP, its spool in a file.
//!
//! `serve` runs one by the options of a command line. `NetLaunch` is what `mcv_serve` starts it with: the loop's sockets are
//! `mcv_poll`'s, `NetDoor` decides who comes in, `SystemWatch` counts what happens and tells an operator of it.
#![tactic(auto)]

mod admin;
mod connection;
mod door;
mod fault;
mod jobs;
mod launch;
mod limits;
mod lines;
mod notice;
mod run;
mod seats;
mod service;
mod shortages;
mod system_watch;

pub use fault::NetFault;
pub use notice::{Notice, Notices, StandardError, Watched};
pub use run::{Listeners, SpoolFiles, listen, run_proxy, serve};
pub use service::Service;
pub use shortages::Shortages;
pub use system_watch::{Counters, SystemWatch};
