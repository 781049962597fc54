//! Whether a call has its reply, and which reply that is.

ghost use Rattle.std.specs.Prelude.{◌≡◌};
ghost use Rattle.mcv_rules.specs.Status.{default_reply, status_outcome};

use mcv_base::{FixedReply, Op, Outcome};
use mcv_route::Answered;

/// Whose reply it is.
#[derive(Clone, Copy, Debug, PartialEq, Eq)]
pub enum Source {
    /// That of the leg with this place in the call's list of outcomes.
    Outcome(usize),
    /// No leg's: this one.
    Fixed(FixedReply),
}

/// Whether a call has its reply.
#[derive(Clone, Copy, Debug, PartialEq, Eq)]
pub enum Status {
    Waits,
    Replied(Source),
}

impl Status {
    /// What the reply amounts to, by the list of outcomes at which it was asked for. None while the call waits.
    pub fn outcome(self, outcomes: &[Answered]) -> Option<Outcome>
        ensures { result ≡ status_outcome outcomes.now self }
    {
        match self {
            Status::Waits => None,
            Status::Replied(Source::Fixed(reply)) => Some(reply.outcome()),
            Status::Replied(Source::Outcome(place)) => match outcomes.get(place) {
                Some(answered) => Some(answered.reply.outcome()),
                None => None,
            },
        }
    }
}

/// What is replied where nothing is asked of a server: a miss, or that nothing was found or stored.
pub fn default_reply(op: Op) -> FixedReply
    ensures { result ≡ default_reply op }
{
    match op {
        Op::Get | Op::Gets => FixedReply::Miss,
        Op::Delete | Op::Touch | Op::Incr | Op::Decr => FixedReply::NotFound,
        Op::Set | Op::Add | Op::Replace | Op::Append | Op::Prepend | Op::Cas =>
            FixedReply::NotStored,
    }
}
