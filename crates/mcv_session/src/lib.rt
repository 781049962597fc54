//! A client's session, from its bytes to what is written for them.
//!
//! `Machine` waits for nobody: it is fed with the client's bytes, gives out one request after the other, is given the
//! answer to each, and holds the text that is to be written. What is written is, at each moment, the answers, in order,
//! to the items that were read, however reading, answering and writing follow one another (`laws`). `serve_session`
//! drives it with a reader, a writer and a desk that answers at once. A `Desk` answers requests; what it promises of an
//! answer is its own relation `asks`, which the theorem of a session chains from the first request to the last. The
//! definitions are in specs/: `Exchange` says what is written for one item, `Session` what a session did with a
//! stream, `Machine` what one has lived through.
#![tactic(auto)]

mod desk;
mod drive;
mod item;
mod laws;
mod machine;
mod outgoing;
mod phase;
mod serve;
mod session;
mod turn;

pub use desk::{Desk, DeskFault};
pub use laws::{
    any_cut, life_begins, life_is_whole, life_of_answering, life_of_failing, life_of_feeding,
    life_of_writing, life_promises, nothing_read,
};
pub use machine::Machine;
pub use phase::Phase;
pub use serve::{ServeFault, serve_session};
pub use session::{Flow, SessionFault};
