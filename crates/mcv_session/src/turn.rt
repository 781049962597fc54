//! What a session did with one item.

use mcv_base::Request;
use std::sync::Arc;

/// What a session did with the first item that waits.
#[derive(Drop)]
pub(crate) enum Turn {
    /// None waits.
    Idle,
    /// It answered it by itself.
    Passed,
    /// It answered it by itself, and has ended.
    Ended,
    /// It is a request for others.
    Asks(Arc<Request>),
}
