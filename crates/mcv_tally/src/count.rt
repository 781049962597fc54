//! Numbers that threads change.

use std::sync::atomic::{AtomicU64, Ordering};

/// How often something has happened, as threads add to it. It begins again at 0 behind 2^64 - 1, to which no run comes.
#[derive(Drop)]
pub struct Count {
    number: AtomicU64,
}

impl Count {
    /// Never yet.
    pub fn new() -> Count {
        Count {
            number: AtomicU64::new(0),
        }
    }

    /// Once more.
    pub fn more(&self) {
        self.add(1);
    }

    /// So many times more.
    pub fn add(&self, times: u64) {
        let _before = self.number.fetch_add(times, Ordering::SeqCst);
    }

    /// How often up to now.
    pub fn now(&self) -> u64 {
        self.number.load(Ordering::SeqCst)
    }
}

/// A number that threads set.
#[derive(Drop)]
pub struct Level {
    number: AtomicU64,
}

impl Level {
    /// 0 up to now.
    pub fn new() -> Level {
        Level {
            number: AtomicU64::new(0),
        }
    }

    /// It is this from now on.
    pub fn set(&self, number: u64) {
        self.number.store(number, Ordering::SeqCst);
    }

    /// It is this from now on, unless it is more.
    pub fn raise(&self, number: u64) {
        let _before = self.number.fetch_max(number, Ordering::SeqCst);
    }

    /// What it is now.
    pub fn now(&self) -> u64 {
        self.number.load(Ordering::SeqCst)
    }
}
