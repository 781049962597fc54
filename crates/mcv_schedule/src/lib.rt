//! What an event loop does when, and what it keeps for each hub between two turns there.
//!
//! `patience` is for how long it may wait, `Ending` how it ends in order and `Leftover` when it is over, `SpoolState` when the spool is
//! asked, `VainWaits` how often requests wait for the next chapter. `Post` is what a hub is told in its next turn, `Way` which
//! connection a leg goes over. Nothing here waits, reads a clock, or knows a socket.
#![tactic(auto)]

mod deadlines;
mod ending;
mod leftover;
mod moments;
mod post;
mod spool_state;
mod vain_waits;
mod way;

pub use crate::deadlines::{TICK, late_at, patience, pause};
pub use crate::ending::Ending;
pub use crate::leftover::{Leftover, with_hub};
pub use crate::moments::{earlier, has_come};
pub use crate::post::Post;
pub use crate::spool_state::SpoolState;
pub use crate::vain_waits::VainWaits;
pub use crate::way::Way;
