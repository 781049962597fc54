//! What the legs of a call ask their servers.
//!
//! A leg has the client's request, but for the add that a WarmUpRoute sends: it stores what `warm` replied.
#![tactic(auto)]

mod hit;
mod request;
mod warm_up;

pub use hit::{Call, Heard, warm_reply};
pub use request::{client_request, leg_request};
pub use warm_up::{WarmUp, warm_up_of};
