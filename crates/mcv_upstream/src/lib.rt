//! One connection to a server that waits for nobody.
//!
//! An `Upstream` is told which legs are sent, and holds the bytes that are to be written for them, in the order of sending. It is
//! fed with what the server says, and gives each leg its own reply; once the connection is closed it gives the legs that have none.
//! Whoever holds the socket writes its output and feeds it what was read, in any pieces.
#![tactic(auto)]

mod laws;
mod upstream;

pub use laws::written_legs_land_or_are_lost;
pub use upstream::Upstream;
