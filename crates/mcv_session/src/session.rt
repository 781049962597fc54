//! How a session goes on, and why it can't.

use thiserror::Error;

/// Whether a session goes on.
#[derive(Clone, Copy, PartialEq, Eq)]
pub enum Flow {
    /// It waits for more bytes.
    GoesOn,
    /// It has ended: at quit, or at refusal 2 or 3. Nothing behind these is read.
    Ends,
}

/// Why a session took nothing.
#[derive(Clone, Copy, Debug, PartialEq, Eq, Error)]
pub enum SessionFault {
    /// It has ended, or failed; or no request was out to be answered.
    #[error("the session has ended before")]
    Ended,
    #[error("out of memory")]
    Memory,
}
