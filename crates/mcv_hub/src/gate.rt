//! The gate through which calls come into a chapter.

ghost use Rattle.std.specs.Prelude.{◌≡◌};
ghost use Rattle.mcv_hub.specs.Gate.{is_closed};

use crate::history::Past;

/// How a call that wants to begin finds the chapter.
#[derive(Drop)]
pub enum Gate {
    /// No other chapter is due: it begins.
    Open,
    /// The next chapter was due, and has begun. What is left of the old one is dropped once the lock is let go.
    Turned(Past),
    /// The next chapter is due, and calls run, or legs are queued or sent again. It waits for their end.
    Closed,
}

impl Gate {
    /// Whether a call has to wait.
    pub fn is_closed(&self) -> bool
        ensures { result ≡ is_closed self.now }
    {
        matches!(self, Gate::Closed)
    }
}
