//! Outcomes below a handle, in the order of their positions.

ghost use Rattle.std.specs.Prelude.{◌≡◌, ◌<◌, ◌≤◌, ◌+◌, ◌^◌, true, drop, length, take};
ghost use Rattle.mcv_witness.specs.Finding.{outcomes_of};
ghost use Rattle.mcv_witness.specs.Walk.{behind, below, finish, front, is_below, known_of, own_reply, past, past_own};

use crate::finding::LegOutcome;
use crate::seen::{Seen, SeenReply};
use mcv_base::{Outcome, Position};

/// Outcomes at a handle and below it, and how many steps lead to the handle from the root. Without outcomes the
/// number of steps doesn't matter.
#[derive(Clone, Copy)]
pub struct Known<'a> {
    pub legs: &'a [LegOutcome],
    pub depth: usize,
}

impl<'a> Known<'a> {
    /// Those at the front that are below child `number`, as its own, and those behind them.
    #[tactic(auto, using(crate::proofs::Fronts::depth_counted))]
    pub fn split(self, number: usize) -> (Known<'a>, Known<'a>)
        ensures below { known_of result.0 ≡ below (known_of self.entry) number }
        ensures past { known_of result.1 ≡ past (known_of self.entry) number }
    {
        let count = lead(self.legs, self.depth, number);
        let own = &self.legs[..count];
        let others = &self.legs[count..];
        let depth = if count == 0 { 0 } else { self.depth + 1 };
        let past = Known {
            legs: others,
            depth: self.depth,
        };
        (Known { legs: own, depth }, past)
    }

    /// The outcome at the handle itself, if it comes first, and those behind it.
    pub fn own(self, leaf: &Position) -> (Option<SeenReply>, Known<'a>)
        ensures reply { result.0 ≡ own_reply leaf.now (known_of self.entry) }
        ensures past { known_of result.1 ≡ past_own (known_of self.entry) }
    {
        let Some((first, others)) = self.legs.split_first() else {
            return (None, self);
        };
        if first.position.steps().len() != self.depth {
            return (None, self);
        }
        let is_hit = matches!(first.outcome, Outcome::Good) && first.position.is(leaf);
        let reply = SeenReply {
            outcome: first.outcome,
            is_hit,
        };
        let past = Known {
            legs: others,
            depth: self.depth,
        };
        (Some(reply), past)
    }

    /// What was seen, if no outcome is left over.
    pub fn finish(self, seen: Seen) -> Option<Seen>
        ensures { result ≡ finish seen (known_of self.entry).legs }
    {
        if self.legs.is_empty() {
            Some(seen)
        } else {
            None
        }
    }
}

/// Whether the leg is at child `number` of a handle so deep, or below it.
fn is_below(leg: &LegOutcome, depth: usize, number: usize) -> bool
    ensures value { result ≡ is_below depth number leg.now.position }
    ensures room { result ≡ true → depth + 1 < 2 ^ 64 }
{
    let steps = leg.position.steps();
    if depth >= steps.len() {
        return false;
    }
    steps[depth] == number
}

/// How many outcomes at the front are below child `number`.
fn lead(legs: &[LegOutcome], depth: usize, number: usize) -> usize
    ensures within { result ≤ length legs.now }
    ensures front { outcomes_of (take result legs.now) ≡ front depth number (outcomes_of legs.now) }
    ensures behind { outcomes_of (drop result legs.now) ≡ behind depth number (outcomes_of legs.now) }
    ensures room { 0 < result → depth + 1 < 2 ^ 64 }
{
    for (place, leg) in legs.iter().enumerate() {
        if !is_below(leg, depth, number) {
            return place;
        }
    }
    legs.len()
}
