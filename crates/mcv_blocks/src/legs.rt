//! Legs of plans as blocks have them.

ghost use Rattle.std.specs.Prelude.{◌≡◌, ◌+◌, ◌<◌, ◌≤◌, ◌∷◌, [], drop, IfOk, IfSome, MatchOption, length};
ghost use Rattle.mcv_judge.specs.PairsInMemory.{leg_of, legs_of};
ghost use Rattle.mcv_blocks.specs.MergedLegs.{leaf_of, leaves_of, merge};

use mcv_judge::Leg;
use mcv_rules::PlannedLeg;
use std::alloc::{AllocError, Global};
use std::cmp::Ordering;

/// The leg, borrowed.
fn borrowed<'a>(leg: &'a PlannedLeg) -> Leg<'a>
    ensures { leg_of result ≡ leaf_of leg.now }
{
    Leg {
        position: &leg.position,
        symbol: leg.symbol,
        servers: leg.servers.as_slice(),
    }
}

/// The legs, borrowed, in their order.
pub fn all_borrowed<'a>(alloc: Global, legs: &[&'a PlannedLeg]) -> Result<Vec<Leg<'a>>, AllocError>
    ensures { IfOk result (λ all. legs_of all.items ≡ leaves_of legs.now) }
{
    let mut all = Vec::with_capacity(alloc, legs.len())?;
    for leg in legs {
        all.push(borrowed(*leg))?;
    }
    Ok(all)
}

/// The next leg of two lists, and how many of each it is.
#[derive(Clone, Copy)]
struct Next<'a> {
    leg: &'a PlannedLeg,
    first: usize,
    second: usize,
}

/// The leg with the least position; where both lists have one there, it is that of both.
fn next_of<'a>(first: &[&'a PlannedLeg], second: &[&'a PlannedLeg]) -> Option<Next<'a>>
    ensures legs { MatchOption result (merge (leaves_of first.now) (leaves_of second.now) ≡ [])
        (λ n. merge (leaves_of first.now) (leaves_of second.now) ≡ leaf_of n.leg.now ∷ merge (drop n.first (leaves_of first.now)) (drop n.second (leaves_of second.now))) }
    ensures some { IfSome result (λ n. 0 < n.first + n.second) }
    ensures first { IfSome result (λ n. n.first ≤ length first.now) }
    ensures second { IfSome result (λ n. n.second ≤ length second.now) }
{
    let Some((one, _)) = first.split_first() else {
        let (other, _) = second.split_first()?;
        return Some(Next {
            leg: *other,
            first: 0,
            second: 1,
        });
    };
    let Some((other, _)) = second.split_first() else {
        return Some(Next {
            leg: *one,
            first: 1,
            second: 0,
        });
    };
    match one.position.steps().cmp(other.position.steps()) {
        Ordering::Less => Some(Next {
            leg: *one,
            first: 1,
            second: 0,
        }),
        Ordering::Equal => Some(Next {
            leg: *one,
            first: 1,
            second: 1,
        }),
        Ordering::Greater => Some(Next {
            leg: *other,
            first: 0,
            second: 1,
        }),
    }
}

/// The legs of two lists that rise by position in one that rises; each position once.
pub fn merged<'a>(
    alloc: Global,
    first: &[&'a PlannedLeg],
    second: &[&'a PlannedLeg],
) -> Result<Vec<&'a PlannedLeg>, AllocError>
    ensures { IfOk result (λ all. leaves_of all.items ≡ merge (leaves_of first.now) (leaves_of second.now)) }
{
    let mut all = Vec::new(alloc);
    let (mut left, mut right) = (0, 0);
    while let Some(next) = next_of(&first[left..], &second[right..]) {
        all.push(next.leg)?;
        left += next.first;
        right += next.second;
    }
    Ok(all)
}
