//! The connections of a loop to servers.
//!
//! A `Line` is the way to one server for the legs of one hub: it has a connection or none, writes the legs' texts to it, gives each leg
//! the reply that the server's bytes spell for it, and says what becomes of the legs in flight when the connection is lost. Nothing
//! waits: a connection that would have to says so. The definitions are in specs/: `Channel` says what one write and one read do,
//! `Life` what a connection has carried since it was opened, `Lost` and `Repeat` what becomes of its legs.
#![tactic(auto)]

mod channel;
mod line;
mod loss;
mod open;
mod probe;
mod sent;
mod took;

pub use crate::line::Line;
pub use crate::loss::{Loss, may_ask_again};
pub use crate::took::{Heard, Wrote};
