//! The one state that a proxy's threads share, under one lock: the core, the history of what happened to it, and the
//! books of calls begun and replies taken.
//!
//! A thread has a `Pass`, and gets the lock with it; while its `Guard` lives the pass is borrowed. Each event on the guard
//! is that event of the core and writes the entry of its move, so whatever is seen under the lock is what a legal history
//! leads to, and deletes are kept in it (`Guard::deletes_are_kept`). A type, `HubLedger`, stands for the hub, so that what
//! was seen of it at different times is known to be of one hub (`Guard::is_opened`).
//!
//! A history grows until its chapter ends. Where the next one is due, calls wait at the gate (`Hub::enter`) until nothing is
//! left of this one.
#![tactic(auto)]

mod entry;
mod gate;
mod guard;
mod history;
mod hub;
mod ledger;
mod pass;
mod receipts;
mod reply;
mod seat;
mod state;
mod weight;

pub use crate::entry::Entry;
pub use crate::gate::Gate;
pub use crate::guard::Guard;
pub use crate::history::Past;
pub use crate::hub::{Bell, Capacity, Hub};
pub use crate::ledger::HubLedger;
pub use crate::pass::{Pass, Passes};
pub use crate::receipts::{Receipt, ReceiptFault, Report};
pub use crate::reply::LegReply;
pub use crate::seat::{Seat, TakenReply};
