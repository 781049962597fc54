//! What a loop does at one hub: it asks requests there, and gets their answers turn by turn.
//!
//! A `LoopDesk` is asked, and answers later. What came to the loop since its last turn, replies and losses of legs, outcomes of the
//! spool, the time, goes to the hub in one `turn`, under its lock; what the turn gives is done when the lock is let go: legs are to be
//! sent, a record is to be written, requests are answered. A turn waits for nobody, and touches no socket, disk or clock.
#![tactic(auto)]

mod answer;
mod arrival;
mod begin;
mod came;
mod desk;
mod flight;
mod hub_routes;
mod kept;
mod keys;
mod landing;
mod notes;
mod question;
mod questions;
mod refusals;
mod sending;
mod servers;
mod shown;
mod spooling;
mod take;
mod values;

pub use crate::answer::{Answer, Asker, fault_for};
pub use crate::arrival::{Arrival, NoReply};
pub use crate::came::{Came, Gives, Marked, Performed, StoredLeg};
pub use crate::desk::LoopDesk;
pub use crate::flight::{Flight, HeldLeg};
pub use crate::keys::key_count;
pub use crate::refusals::Refused;
pub use crate::values::{are_within, value_bytes};
