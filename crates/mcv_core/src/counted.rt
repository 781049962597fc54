//! The reply of a leg, as it counts.

ghost use Rattle.std.specs.Prelude.{◌≡◌};
ghost use Rattle.mcv_base.specs.Reply.{fixed_value, part_value};
ghost use Rattle.mcv_world.specs.Moves.{counted_as, is_error_reply};

use mcv_base::{FixedReply, Op, Outcome, Part, Parts};

/// A reply twice over: for what the call records, and for who takes it.
#[derive(Drop)]
pub struct Counted {
    pub outcome: Part,
    pub taken: Part,
}

impl Counted {
    /// A reply that takes no memory.
    fn fixed(reply: FixedReply) -> Counted
        ensures outcome { part_value result.outcome ≡ fixed_value reply }
        ensures taken { part_value result.taken ≡ fixed_value reply }
    {
        Counted {
            outcome: Part::Fixed(reply),
            taken: Part::Fixed(reply),
        }
    }

    /// The loss of a leg.
    pub fn lost() -> Counted
        ensures outcome { part_value result.outcome ≡ fixed_value FixedReply.Lost }
        ensures taken { part_value result.taken ≡ fixed_value FixedReply.Lost }
    {
        Counted::fixed(FixedReply::Lost)
    }

    /// NOT_FOUND, for a leg that the spool stored.
    pub fn not_found() -> Counted
        ensures outcome { part_value result.outcome ≡ fixed_value FixedReply.NotFound }
        ensures taken { part_value result.taken ≡ fixed_value FixedReply.NotFound }
    {
        Counted::fixed(FixedReply::NotFound)
    }

    /// A reply to a leg of the operation: one that no server may give counts as the loss of the leg.
    pub fn of(op: Op, parts: Parts) -> Counted
        ensures outcome { part_value result.outcome ≡ counted_as op parts }
        ensures taken { part_value result.taken ≡ counted_as op parts }
    {
        if !parts.may_answer(op) {
            return Counted::lost();
        }
        let (outcome, taken, _history) = parts.into_parts();
        Counted { outcome, taken }
    }

    /// Whether it is an error.
    pub fn is_error(&self) -> bool
        ensures { result ≡ is_error_reply (part_value self.now.outcome) }
    {
        matches!(self.outcome.outcome(), Outcome::Error)
    }
}
