//! A door that a test opens and closes.

use mcv_poll::{Door, TcpStream};
use std::sync::Arc;
use std::sync::atomic::{AtomicBool, Ordering};
use std::time::Instant;

/// Lets so many clients in, until an end is asked for.
#[derive(Drop)]
pub(crate) struct Gate {
    pub(crate) left: u64,
    pub(crate) drains: Arc<AtomicBool>,
}

impl Door for Gate {
    type Seat = u64;

    fn admits(&mut self, _stream: &TcpStream) -> Option<u64> {
        self.left = self.left.checked_sub(1)?;
        Some(self.left)
    }

    fn note_hearing(&mut self, _is_deaf: bool) {}

    fn is_closed(&self) -> bool {
        self.left == 0
    }

    fn end(&mut self) -> Option<Option<Instant>> {
        if self.drains.load(Ordering::SeqCst) {
            Some(None)
        } else {
            None
        }
    }
}
