//! The outcomes of a call by their positions, so that none is searched for.

ghost use Rattle.std.specs.Prelude.{◌≡◌, ◌≤◌, ◌<◌, IfOk, List, OnOk, ℕ};
ghost use Rattle.mcv_rules.specs.Arrivals.{count_after, found_after, found_in, known_at, own_arrived};

use crate::arrival::{Answer, Arrival};
use crate::status::Source;
use mcv_base::Position;
use mcv_route::Answered;
use std::alloc::{AllocError, Global};
use std::collections::HashMap;

/// A table of outcomes: what came of the leg at each position that has an outcome.
#[derive(Drop)]
pub struct Known<'a> {
    pub arrivals: HashMap<&'a [usize], Arrival>,
    /// How many positions have outcomes.
    pub count: usize,
}

impl<'a> Known<'a> {
    /// The table of these outcomes. The first one at a position is its outcome.
    pub fn of(alloc: Global, outcomes: &'a [Answered]) -> Result<Known<'a>, AllocError>
        ensures { IfOk result (λ known. known_at known ≡ own_arrived outcomes.now) }
    {
        let mut known = Known {
            arrivals: HashMap::with_capacity(alloc, outcomes.len())?,
            count: 0,
        };
        for (place, answered) in outcomes.iter().enumerate() {
            known.hear(place, answered)?;
        }
        Ok(known)
    }

    /// Takes in the entry with this place in the list.
    fn hear(&mut self, place: usize, answered: &'a Answered) -> Result<(), AllocError>
        requires { (self.old.count ≤ place) × (place < usize.MAX) }
        ensures found { OnOk result ((p : List ℕ) → found_in self.new p ≡ found_after self.old place answered.now p) }
        ensures count { OnOk result (self.new.count ≡ count_after self.old answered.now) }
    {
        let position = answered.position.steps();
        if self.arrivals.contains_key(position) {
            return Ok(());
        }
        let answer = Answer {
            outcome: answered.reply.outcome(),
            source: Source::Outcome(place),
        };
        let came = self.count + 1;
        self.arrivals.insert(
            position,
            Arrival {
                answer: Some(answer),
                came,
            },
        )?;
        self.count = came;
        Ok(())
    }

    /// The answer of the leg at a position.
    pub fn own(&self, position: &Position) -> Arrival
        ensures { result ≡ known_at self.now position.now }
    {
        match self.arrivals.get(position.steps()) {
            Some(arrival) => *arrival,
            None => Arrival {
                answer: None,
                came: self.count,
            },
        }
    }
}
