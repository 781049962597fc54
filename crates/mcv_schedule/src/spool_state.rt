//! How the spool stands to the records of a hub.

ghost use Rattle.std.specs.Prelude.{◌≡◌};
ghost use Rattle.mcv_schedule.specs.SpoolState.{IsAnswered, IsSecondBehind, asked_again, has_refused, may_ask, refuses};

use crate::deadlines::TICK;
use std::time::{Duration, Instant};

/// How the spool stands to the records of a hub.
#[derive(Clone, Copy)]
pub enum SpoolState {
    /// It has taken the last one, or was asked for none.
    Taking,
    /// It has refused the last one, and isn't asked before this moment, where that is known.
    Refusing(Option<Instant>),
    /// It has refused the last one, and is asked once more, since no client is left.
    LastTry,
}

/// A second from now.
fn second_behind(now: Option<Instant>) -> Option<Instant>
    ensures { IsSecondBehind now result }
{
    match now {
        Some(now) => now.checked_add(Duration::from_millis(TICK)),
        None => None,
    }
}

impl SpoolState {
    /// It has answered to a record.
    pub fn answered(is_refused: bool, now: Option<Instant>) -> SpoolState
        ensures { IsAnswered is_refused now result }
    {
        if is_refused {
            SpoolState::Refusing(second_behind(now))
        } else {
            SpoolState::Taking
        }
    }

    /// Whether it may be asked.
    pub fn may_ask(self, now: Option<Instant>) -> bool
        ensures { result ≡ may_ask self now }
    {
        match (self, now) {
            (SpoolState::Refusing(Some(until)), Some(now)) => until.duration_since(now).is_zero(),
            _ => true,
        }
    }

    /// Whether it has refused the last record.
    pub fn refuses(self) -> bool
        ensures { result ≡ refuses self }
    {
        match self {
            SpoolState::Taking => false,
            SpoolState::Refusing(_) | SpoolState::LastTry => true,
        }
    }

    /// Whether it has refused the last record, and isn't asked once more at once.
    pub fn has_refused(self) -> bool
        ensures { result ≡ has_refused self }
    {
        match self {
            SpoolState::Taking | SpoolState::LastTry => false,
            SpoolState::Refusing(_) => true,
        }
    }

    /// It is asked once more, whatever it refused.
    pub fn asked_again(self) -> SpoolState
        ensures { result ≡ asked_again self }
    {
        match self {
            SpoolState::Taking => SpoolState::Taking,
            SpoolState::Refusing(_) | SpoolState::LastTry => SpoolState::LastTry,
        }
    }
}
