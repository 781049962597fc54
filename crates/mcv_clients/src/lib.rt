//! The clients of a loop, and the desks that they ask.
//!
//! A `Clients` holds each client's connection and session, and the desks at all hubs. `serve_all` reads, asks and writes, and
//! `answer_all` gives answers to those that asked. At each moment a client was told, in order, the answers of the hubs to the first of
//! the requests that it sent (`Clients::client_is_answered_in_order`).
#![tactic(auto)]

mod asking;
mod client;
mod clients;
mod limits;
mod table;

pub use clients::Clients;
