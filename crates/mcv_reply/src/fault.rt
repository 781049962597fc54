//! Why a piece is no part of a reply.

ghost use Rattle.std.specs.Prelude.{◌≡◌};
ghost use Rattle.mcv_reply.specs.Reader.{fault_number};

use thiserror::Error;

/// Why a piece is no part of a reply.
#[derive(Clone, Copy, Debug, PartialEq, Eq, Error)]
pub enum ReplyFault {
    /// No reply to the leg, or no answer to the probe, goes on from the bytes fed; or a piece, an empty one
    /// too, came behind a whole one.
    #[error("no reply to this request")]
    NotAReply = 1,
    /// The reader has given a fault before.
    #[error("the reader is closed")]
    Closed = 2,
    #[error("out of memory")]
    Memory = 3,
}

impl ReplyFault {
    /// The number of the fault, from 1.
    pub fn number(self) -> u8
        ensures { result ≡ fault_number self }
    {
        self as u8
    }
}
