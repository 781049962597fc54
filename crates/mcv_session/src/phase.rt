//! Whether a session goes on.

/// Whether a session takes bytes and asks.
#[derive(Clone, Copy, Debug, PartialEq, Eq)]
pub enum Phase {
    /// It takes bytes.
    Open,
    /// It came to quit, or to refusal 2 or 3. Nothing behind these is read.
    Ended,
    /// Memory ran out.
    Failed,
}
