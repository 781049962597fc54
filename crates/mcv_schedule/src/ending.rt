//! How a loop ends in order.

ghost use Rattle.std.specs.Prelude.{◌≡◌};
ghost use Rattle.mcv_schedule.specs.Ending.{closed, drained, is_asked, is_draining, is_past, is_past_by, is_without_clients, next_moment};

use crate::moments::{earlier, has_come};
use mcv_connection::has_passed;
use std::time::{Duration, Instant};

/// What a loop knows of its end.
#[derive(Clone, Copy)]
pub enum Ending {
    /// None was asked for.
    Serving,
    /// No more clients come. Those that are there are served until they go.
    Closed,
    /// No more clients come, and each that is there goes once it has the answer to what it has asked. Behind this moment, where it is
    /// known, nothing is sent to servers.
    Draining(Option<Instant>),
}

impl Ending {
    /// No more clients come.
    pub fn closed(self) -> Ending
        ensures { result ≡ closed self }
    {
        match self {
            Ending::Serving | Ending::Closed => Ending::Closed,
            Ending::Draining(until) => Ending::Draining(until),
        }
    }

    /// A drain was asked for, up to this moment. Of two that were asked for the earlier one holds.
    pub fn drained(self, until: Option<Instant>) -> Ending
        ensures { result ≡ drained self until }
    {
        match self {
            Ending::Serving | Ending::Closed => Ending::Draining(until),
            Ending::Draining(before) => Ending::Draining(earlier(before, until)),
        }
    }

    /// Whether no more clients come.
    pub fn is_asked(self) -> bool
        ensures { result ≡ is_asked self }
    {
        match self {
            Ending::Serving => false,
            Ending::Closed | Ending::Draining(_) => true,
        }
    }

    /// Whether a drain was asked for.
    pub fn is_draining(self) -> bool
        ensures { result ≡ is_draining self }
    {
        match self {
            Ending::Serving | Ending::Closed => false,
            Ending::Draining(_) => true,
        }
    }

    /// Whether the moment of a drain has come, behind which nothing is sent to servers.
    pub fn is_past(self, now: Option<Instant>) -> bool
        ensures { result ≡ is_past self now }
    {
        match self {
            Ending::Serving | Ending::Closed => false,
            Ending::Draining(until) => has_come(until, now),
        }
    }

    /// The moment of a drain, where it is still to come.
    pub fn next_moment(self, now: Option<Instant>) -> Option<Instant>
        ensures { result ≡ next_moment self now }
    {
        match self {
            Ending::Serving | Ending::Closed => None,
            Ending::Draining(until) => { if has_come(until, now) { None } else { until } }
        }
    }

    /// Whether so much time has passed since the moment of a drain.
    pub fn has_passed(self, now: Option<Instant>, limit: Duration) -> bool
        ensures { result ≡ is_past_by self now limit }
    {
        match self {
            Ending::Serving | Ending::Closed => false,
            Ending::Draining(until) => has_passed(until, now, Some(limit)),
        }
    }

    /// Whether no more clients come and none is left, where so many are there.
    pub fn is_without_clients(self, clients: usize) -> bool
        ensures { result ≡ is_without_clients self clients }
    {
        self.is_asked() && clients == 0
    }
}
