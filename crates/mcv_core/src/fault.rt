//! Why the core refuses an event.

ghost use Rattle.std.specs.Prelude.{◌≡◌};
ghost use Rattle.mcv_core.specs.Fault.{fault_number};

use thiserror::Error;

/// Why the core refuses an event. A refused event changes nothing that contracts see.
#[derive(Clone, Copy, Debug, PartialEq, Eq, Error)]
pub enum CoreFault {
    #[error("no route has the key's prefix")]
    UnknownPrefix = 1,
    #[error("no such key")]
    BadKey = 2,
    #[error("too many legs are queued or reserved")]
    LegsFull = 3,
    #[error("the chapter's history is full")]
    ChapterFull = 4,
    #[error("no leg waits for the server")]
    NothingWaiting = 5,
    #[error("no leg of this number can take the event")]
    NoSuchLeg = 6,
    #[error("as many legs as may be are in flight, or a call runs")]
    Busy = 7,
    #[error("the clock goes back")]
    ClockBack = 8,
    #[error("out of memory")]
    Memory = 9,
    #[error("no such call runs")]
    NoSuchCall = 10,
}

impl CoreFault {
    /// The number of the fault, from 1.
    pub fn number(self) -> u8
        ensures { result ≡ fault_number self }
    {
        self as u8
    }
}
