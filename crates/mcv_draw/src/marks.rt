//! What a verdict marks in a picture.

ghost use Rattle.std.specs.Prelude.{◌≡◌};
ghost use Rattle.mcv_draw.specs.Marks.{is_leaf, marked, marks_by, marks_of};

use crate::legs::Legs;
use mcv_base::Position;

/// What is marked at a position.
#[derive(Clone, Copy)]
pub(crate) struct Marked {
    /// A delete goes through it.
    pub(crate) deletes: bool,
    /// A get can be answered from it.
    pub(crate) is_readable: bool,
    /// It is on the way of a finding's get or delete.
    pub(crate) is_shown: bool,
    /// Its server is the one that is lost.
    pub(crate) is_lost: bool,
}

/// What a verdict marks in the tree of a route: legs by their positions.
#[derive(Drop)]
pub struct Marks {
    pub(crate) deletes: Legs,
    pub(crate) readable: Legs,
    pub(crate) shown: Legs,
    pub(crate) lost: Option<Position>,
}

impl Marks {
    /// These legs: to which deletes go, from which gets can be answered, which are shown thick and never folded away (those
    /// that have outcomes in a finding), and the leaf whose server is lost. Each list may have them in any order.
    pub fn new(
        deletes: Vec<Position>,
        readable: Vec<Position>,
        shown: Vec<Position>,
        lost: Option<Position>,
    ) -> Marks
        ensures { marks_of result ≡ marks_by deletes.items readable.items shown.items lost }
    {
        Marks {
            deletes: Legs::new(deletes),
            readable: Legs::new(readable),
            shown: Legs::new(shown),
            lost,
        }
    }

    /// What is marked at a position.
    pub(crate) fn at(&self, position: &Position) -> Marked
        ensures { result ≡ marked (marks_of self.now) position.now }
    {
        let steps = position.steps();
        let deletes = self.deletes.lead_to(steps);
        let is_readable = self.readable.has(steps);
        let is_shown = self.shown.lead_to(steps);
        let is_lost = self.loses(steps);
        Marked {
            deletes,
            is_readable,
            is_shown,
            is_lost,
        }
    }

    /// Whether a position is on the way of a finding's get or delete.
    pub(crate) fn shows(&self, position: &Position) -> bool
        ensures { result ≡ (marks_of self.now).shown position.now }
    {
        self.shown.lead_to(position.steps())
    }

    /// Whether it is the leaf whose server is lost.
    fn loses(&self, steps: &[usize]) -> bool
        ensures { result ≡ is_leaf self.now.lost steps.now }
    {
        match &self.lost {
            Some(leaf) => leaf.steps() == steps,
            None => false,
        }
    }
}
