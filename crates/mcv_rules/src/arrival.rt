//! When a route first had an answer, and which.

ghost use Rattle.std.specs.Prelude.{◌≡◌, option_map};
ghost use Rattle.mcv_rules.specs.Arrivals.{arrived_at_once, goes_on, goes_on_after, later, next_arrived, weight};

use crate::status::Source;
use mcv_base::{FixedReply, Outcome};

/// An answer of a route.
#[derive(Clone, Copy, PartialEq, Eq)]
pub struct Answer {
    pub outcome: Outcome,
    pub source: Source,
}

/// A route's answer, if it has one.
#[derive(Clone, Copy, PartialEq, Eq)]
pub struct Arrival {
    pub answer: Option<Answer>,
    /// How many outcomes had come when the route first had an answer; all of them while it has none.
    pub came: usize,
}

/// After which replies a search goes on.
#[derive(Clone, Copy, PartialEq, Eq)]
pub enum After {
    Error,
    /// All that aren't hits, errors too.
    Miss,
}

impl After {
    /// Whether the search goes on after this outcome.
    pub fn goes_on(self, outcome: Outcome) -> bool
        ensures { result ≡ goes_on self outcome }
    {
        match self {
            After::Error => matches!(outcome, Outcome::Error),
            After::Miss => matches!(outcome, Outcome::Soft | Outcome::Error),
        }
    }

    /// Whether it goes on after this reply, once it is there.
    pub fn goes_on_after(self, reply: Option<Outcome>) -> bool
        ensures { result ≡ goes_on_after self reply }
    {
        match reply {
            None => false,
            Some(outcome) => self.goes_on(outcome),
        }
    }
}

impl Arrival {
    /// An answer that waits for nothing.
    pub fn at_once(reply: FixedReply) -> Self
        ensures { result ≡ arrived_at_once reply }
    {
        let answer = Answer {
            outcome: reply.outcome(),
            source: Source::Fixed(reply),
        };
        Arrival {
            answer: Some(answer),
            came: 0,
        }
    }

    /// What the answer amounts to, if it is there.
    pub fn outcome(self) -> Option<Outcome>
        ensures { result ≡ option_map (λ a. a.outcome) self.answer }
    {
        match self.answer {
            None => None,
            Some(answer) => Some(answer.outcome),
        }
    }

    /// The worse of the two, and of two that are as bad the one that came later. One that is missing is worst of all.
    pub fn later(self, next: Arrival) -> Self
        ensures { result ≡ later self next }
    {
        let bad = self.weight();
        let worse = next.weight();
        if bad < worse || bad == worse && self.came <= next.came {
            next
        } else {
            self
        }
    }

    /// The first answer, or where the search goes on the second, once both are there.
    pub fn or_next(self, after: After, next: Arrival) -> Self
        ensures { result ≡ next_arrived after self next }
    {
        if after.goes_on_after(self.outcome()) {
            Arrival {
                answer: next.answer,
                came: self.came.max(next.came),
            }
        } else {
            self
        }
    }

    fn weight(self) -> u8
        ensures { result ≡ weight self.answer }
    {
        match self.answer {
            None => 3,
            Some(answer) => match answer.outcome {
                Outcome::Good => 0,
                Outcome::Soft => 1,
                Outcome::Error => 2,
            },
        }
    }
}
