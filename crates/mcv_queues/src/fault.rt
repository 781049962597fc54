//! Why a server is handed no leg.

use thiserror::Error;

/// Why a server is handed no leg. `Busy` is looked for first.
#[derive(Clone, Copy, Debug, PartialEq, Eq, Error)]
pub enum QueueFault {
    #[error("as many legs as may be are in flight to the server")]
    Busy,
    #[error("no leg waits for the server")]
    NothingWaiting,
}
