//! Legs by their positions.

ghost use Rattle.std.specs.Prelude.{◌≡◌, false, true, bytes_eq, nat_eq, option_map, slice_get};
ghost use Rattle.std.specs.List.{starts_with};
ghost use Rattle.std.specs.List.Sorted.{IsPartitionPoint, IsPermutation, IsSorted};
ghost use Rattle.std.specs.Option.{option_map_or};
ghost use Rattle.std.specs.Ordering.{is_lt};
ghost use Rattle.mcv_cert.specs.Place.{list_cmp};

use mcv_base::Position;
use std::cmp::Ordering;

/// Legs by their positions, in the order of their steps.
#[derive(Drop)]
pub(crate) struct Legs {
    pub(crate) positions: Vec<Position>,
    pub(crate) ghost sorted: { IsSorted list_cmp positions.items },
}

impl Legs {
    ghost use Rattle.mcv_draw.specs.Marks.{is_one_of, leads_to};

    /// These legs.
    pub(crate) fn new(legs: Vec<Position>) -> Legs
        ensures { IsPermutation legs.items result.positions.items }
    {
        let mut positions = legs;
        positions.sort_unstable_by(|one, other| by_steps(one, other));
        Legs { positions }
    }

    /// How many of the legs come before a position.
    fn count_before(&self, steps: &[usize]) -> usize
        ensures { IsPartitionPoint (λ leg. is_lt (list_cmp leg steps.now) ≡ true) (λ leg. is_lt (list_cmp leg steps.now) ≡ false) self.now.positions.items result }
    {
        self.positions
            .as_slice()
            .partition_point(|leg| comes_before(leg, steps))
    }

    /// The leg of a number.
    fn at(&self, number: usize) -> Option<&Position>
        ensures { option_map (λ leg. leg.now) result ≡ slice_get self.now.positions.items number }
    {
        self.positions.as_slice().get(number)
    }

    /// The first of the legs that doesn't come before a position.
    fn next(&self, steps: &[usize]) -> Option<&Position>
        ensures leads { leads_to self.now.positions.items steps.now ≡ option_map_or (λ leg. starts_with nat_eq leg steps.now) (option_map (λ leg. leg.now) result) false }
        ensures is { is_one_of self.now.positions.items steps.now ≡ option_map_or (λ leg. bytes_eq leg steps.now) (option_map (λ leg. leg.now) result) false }
    {
        let number = self.count_before(steps);
        self.at(number)
    }

    /// Whether one of the legs is at a position or below it.
    pub(crate) fn lead_to(&self, steps: &[usize]) -> bool
        ensures { result ≡ leads_to self.now.positions.items steps.now }
    {
        match self.next(steps) {
            Some(leg) => leg.steps().starts_with(steps),
            None => false,
        }
    }

    /// Whether one of the legs is at a position.
    pub(crate) fn has(&self, steps: &[usize]) -> bool
        ensures { result ≡ is_one_of self.now.positions.items steps.now }
    {
        match self.next(steps) {
            Some(leg) => leg.steps() == steps,
            None => false,
        }
    }
}

fn by_steps(one: &Position, other: &Position) -> Ordering
    ensures { result ≡ list_cmp one.now other.now }
{
    one.steps().cmp(other.steps())
}

fn comes_before(leg: &Position, steps: &[usize]) -> bool
    ensures { result ≡ is_lt (list_cmp leg.now steps.now) }
{
    leg.steps().cmp(steps).is_lt()
}
