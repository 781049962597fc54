//! The pairs of one readable leaf.

ghost use Rattle.std.specs.Prelude.{◌≡◌, All, None, IfNone, IfOk, IfSome};
ghost use Rattle.mcv_cert.specs.Pair.{pair_of, reason_of};
ghost use Rattle.mcv_judge.specs.Answers.{AnswersLeaf};
ghost use Rattle.mcv_judge.specs.Faults.{AreLegsRising};
ghost use Rattle.mcv_judge.specs.PairsInMemory.{block_of, leg_of, legs_of, pairs_of};
ghost use Rattle.mcv_picks.specs.Reasons.{whole_reason};
ghost use Rattle.mcv_pairs.specs.AddedPairs.{Adds, pair_with};
ghost use Rattle.mcv_pairs.specs.Gaps.{IsFirstGapOf, IsSized};
ghost use Rattle.mcv_pairs.specs.Reasons.{IsPickedFor};

use mcv_cert::{Pair, Place, Reason};
use mcv_judge::{Block, Leg};
use mcv_picks::Picks;
use std::alloc::{AllocError, Global};

/// The pair that gives the leaf this reason.
fn pair_with(alloc: Global, block: &Block, leaf: &Leg, reason: Reason) -> Result<Pair, AllocError>
    ensures { IfOk result (λ p. pair_of p ≡ pair_with (block_of block.now) (leg_of leaf.now) (reason_of reason)) }
{
    let place = Place {
        route: block.spot.route,
        class: Vec::from_slice(alloc, block.spot.class)?,
        era: block.spot.era,
        get_era: block.spot.get_era,
        leaf: leaf.position.copy(alloc)?,
    };
    Ok(Pair::new(place, reason))
}

/// Adds a pair for each index of a leaf that has no reason for all of them, or gives the first index without a reason.
fn push_indexes<'a>(
    alloc: Global,
    pairs: &mut Vec<Pair>,
    block: &Block<'a>,
    picks: &Picks<'a>,
    leaf: &Leg<'a>,
) -> Result<Option<usize>, AllocError>
    requires picks { picks.now ≡ legs_of block.now.acknowledged.now }
    requires rising { AreLegsRising picks.now }
    requires sized { IsSized picks.now }
    requires whole { whole_reason block.now.can_be_acknowledged picks.now (leg_of leaf.now) ≡ None }
    ensures answered { IfOk result (λ gap. IfNone gap (Adds (AnswersLeaf (block_of block.now) (leg_of leaf.now)) (pairs_of pairs.old.items) (pairs_of pairs.new.items))) }
    ensures picked { IfOk result (λ gap. IfNone gap (Adds (All (IsPickedFor (block_of block.now) (leg_of leaf.now))) (pairs_of pairs.old.items) (pairs_of pairs.new.items))) }
    ensures gap { IfOk result (λ gap. IfSome gap (λ at. IsFirstGapOf (block_of block.now) (leg_of leaf.now) at)) }
{
    for (index, server) in leaf.servers.iter().enumerate() {
        let Some(reason) = picks.reason_at(alloc, leaf, index, *server)? else {
            return Ok(Some(index));
        };
        pairs.push(pair_with(alloc, block, leaf, reason)?)?;
    }
    Ok(None)
}

/// Adds the pairs of a leaf, or gives the first index without a reason.
pub fn push_leaf<'a>(
    alloc: Global,
    pairs: &mut Vec<Pair>,
    block: &Block<'a>,
    picks: &Picks<'a>,
    leaf: &Leg<'a>,
) -> Result<Option<usize>, AllocError>
    requires picks { picks.now ≡ legs_of block.now.acknowledged.now }
    requires rising { AreLegsRising picks.now }
    requires sized { IsSized picks.now }
    ensures answered { IfOk result (λ gap. IfNone gap (Adds (AnswersLeaf (block_of block.now) (leg_of leaf.now)) (pairs_of pairs.old.items) (pairs_of pairs.new.items))) }
    ensures picked { IfOk result (λ gap. IfNone gap (Adds (All (IsPickedFor (block_of block.now) (leg_of leaf.now))) (pairs_of pairs.old.items) (pairs_of pairs.new.items))) }
    ensures gap { IfOk result (λ gap. IfSome gap (λ at. IsFirstGapOf (block_of block.now) (leg_of leaf.now) at)) }
{
    let whole = picks.whole_reason(alloc, block.can_be_acknowledged, leaf)?;
    let Some(reason) = whole else {
        return push_indexes(alloc, pairs, block, picks, leaf);
    };
    pairs.push(pair_with(alloc, block, leaf, reason)?)?;
    Ok(None)
}
