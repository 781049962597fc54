//! An operator's listener, one connection at a time: what a request asks is asked of a `Panel`, and the response is written.
//!
//! `serve_request` reads one request from a connection and answers it. Who reads and writes, and by when it has to be done,
//! is the caller's; so is what the panel says.
#![tactic(auto)]

mod answer;
mod panel;
mod serve;

pub use panel::{Health, Panel};
pub use serve::{AdminFault, serve_request};
