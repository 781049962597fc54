//! The legs in flight over one connection to a server, by number.
//!
//! A `Pipeline` is told which leg is sent, in the order in which the texts are written, and fed with what the server says. It
//! gives each leg its own reply, and once the connection is closed the legs that have none, oldest first: a loop reports the
//! former as answered, the latter as lost.
#![tactic(auto)]

mod landed;
mod laws;
mod pipeline;

pub use landed::Landed;
pub use laws::legs_land_or_are_lost;
pub use pipeline::Pipeline;
