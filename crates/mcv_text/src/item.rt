//! What a reader makes of a stream: requests, refusals, and the faults of the reader itself.

ghost use Rattle.std.specs.Prelude.{◌≡◌};
ghost use Rattle.mcv_text.specs.Refusals.{fault_number, refusal_line, refusal_number, refusal_text};

use mcv_base::Request;
use thiserror::Error;

/// One item of a stream.
#[derive(Drop)]
pub enum Item {
    /// A request, whole.
    Asked(Request),
    /// Bytes that are no request.
    Refused(Refusal),
}

/// Why bytes are no request (memcached's `protocol.txt`, error strings).
#[derive(Clone, Copy, Debug, PartialEq, Eq)]
pub enum Refusal {
    /// An empty line, or one whose first word names no request. The reader goes on.
    UnknownCommand = 1,
    /// A line that names a request and doesn't read as one, or of more than 65,536 bytes. The reader fails.
    BadLine = 2,
    /// The two bytes behind a value aren't CR LF. The reader fails.
    BadDataChunk = 3,
    /// A value of more than 1,048,576 bytes. The reader passes over it and goes on.
    ValueTooLarge = 4,
}

impl Refusal {
    /// The number of the refusal, from 1.
    pub fn number(self) -> u8
        ensures { result ≡ refusal_number self }
    {
        self as u8
    }

    /// The line that answers it, without its end.
    pub fn line(self) -> &'static str
        ensures { result.now ≡ refusal_line self }
    {
        match self {
            Refusal::UnknownCommand => "ERROR",
            Refusal::BadLine => "CLIENT_ERROR bad command line",
            Refusal::BadDataChunk => "CLIENT_ERROR bad data chunk",
            Refusal::ValueTooLarge => "SERVER_ERROR value too large",
        }
    }

    /// The text that answers it: its line and CR LF.
    pub fn text(self) -> &'static str
        ensures { result.now ≡ refusal_text self }
    {
        match self {
            Refusal::UnknownCommand => "ERROR\r\n",
            Refusal::BadLine => "CLIENT_ERROR bad command line\r\n",
            Refusal::BadDataChunk => "CLIENT_ERROR bad data chunk\r\n",
            Refusal::ValueTooLarge => "SERVER_ERROR value too large\r\n",
        }
    }
}

/// Why a piece wasn't read.
#[derive(Clone, Copy, Debug, PartialEq, Eq, Error)]
pub enum TextFault {
    #[error("the reader has failed before")]
    Failed,
    #[error("out of memory")]
    Memory,
}

impl TextFault {
    /// The number of the fault, from 1.
    pub fn number(self) -> u8
        ensures { result ≡ fault_number self }
    {
        match self {
            TextFault::Failed => 1,
            TextFault::Memory => 2,
        }
    }
}
