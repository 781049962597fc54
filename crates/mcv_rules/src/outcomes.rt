//! What came of a call's legs, as a list and by position.

ghost use Rattle.std.specs.Prelude.{◌≡◌, IfOk};
ghost use Rattle.mcv_rules.specs.Arrivals.{known_at, own_arrived};

use crate::known::Known;
use mcv_route::Answered;
use std::alloc::{AllocError, Global};

/// The outcomes of a call's legs in the order in which they came, and a table of them, so that none is searched for.
#[derive(Drop)]
pub struct Outcomes<'a> {
    pub answered: &'a [Answered],
    known: Known<'a>,
    ghost agrees: { ∥ known_at known ≡ own_arrived answered.now ∥₁ },
}

impl<'a> Outcomes<'a> {
    /// The outcomes of a list. The first one at a position is its outcome.
    pub fn of(alloc: Global, answered: &'a [Answered]) -> Result<Outcomes<'a>, AllocError>
        ensures { IfOk result (λ outcomes. outcomes.answered.now ≡ answered.now) }
    {
        let known = Known::of(alloc, answered)?;
        Ok(Outcomes { answered, known })
    }

    /// The table.
    pub(crate) fn known(&self) -> &Known<'a>
        ensures { known_at result.now ≡ own_arrived self.now.answered.now }
    {
        &self.known
    }
}
