//! What a part of a plan replies.

ghost use Rattle.std.specs.Prelude.{◌≡◌};
ghost use Rattle.mcv_plan.specs.ReachedAnswers.{fixed_answer, goes_on_after, is_hit, over};

use mcv_base::{FixedReply, Outcome};
use mcv_rules::After;

/// Whose reply it is.
#[derive(Clone, Copy, PartialEq, Eq)]
pub enum Source {
    /// That of the leg with this number.
    Entry(usize),
    /// No leg's: this one.
    Fixed(FixedReply),
}

/// What a part of the plan replies.
#[derive(Clone, Copy, PartialEq, Eq)]
pub struct Answer {
    pub outcome: Outcome,
    pub source: Source,
}

impl Answer {
    /// A reply that no leg gave.
    pub fn fixed(reply: FixedReply) -> Self
        ensures { result ≡ fixed_answer reply }
    {
        Answer {
            outcome: reply.outcome(),
            source: Source::Fixed(reply),
        }
    }

    /// The worse of the worst so far and a later one, and of two that are as bad the later.
    pub fn over(self, worst: Option<Answer>) -> Self
        ensures { result ≡ over worst self }
    {
        match worst {
            Some(worst) if self.outcome.badness() < worst.outcome.badness() => worst,
            _ => self,
        }
    }
}

/// Whether a search goes on after this answer, once it is there.
pub fn goes_on_after(after: After, reply: Option<Answer>) -> bool
    ensures { result ≡ goes_on_after after reply }
{
    match reply {
        None => false,
        Some(answer) => after.goes_on(answer.outcome),
    }
}

/// Whether the answer is there and a hit.
pub fn is_hit(reply: Option<Answer>) -> bool
    ensures { result ≡ is_hit reply }
{
    match reply {
        None => false,
        Some(answer) => matches!(answer.outcome, Outcome::Good),
    }
}
