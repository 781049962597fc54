//! Requests, legs and replies as bytes.

mod flights;
mod items;
mod replies;
mod threads;

pub use threads::moved;
