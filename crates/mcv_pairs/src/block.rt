//! The pairs of one block.

ghost use Rattle.std.specs.Prelude.{All, IfNone, IfOk, IfSome};
ghost use Rattle.mcv_judge.specs.Answers.{AnswersBlock};
ghost use Rattle.mcv_judge.specs.Faults.{AreLegsRising};
ghost use Rattle.mcv_judge.specs.PairsInMemory.{block_of, legs_of, pairs_of};
ghost use Rattle.mcv_pairs.specs.AddedPairs.{Adds};
ghost use Rattle.mcv_pairs.specs.Gaps.{IsFirstGapIn, IsSized};
ghost use Rattle.mcv_pairs.specs.Reasons.{IsPickedIn};

use crate::leaf::push_leaf;
use mcv_cert::Pair;
use mcv_judge::Block;
use mcv_picks::Picks;
use std::alloc::{AllocError, Global};

/// An index of a readable leaf for which no reason answers.
#[derive(Clone, Copy)]
pub struct BlockGap {
    /// The number of the leaf among the block's readable ones, from 0.
    pub leaf: usize,
    /// The index of the leaf's symbol, from 0.
    pub at: usize,
}

/// Adds the pairs of a block in their order, each with the first reason that holds in the order never, twin, same, all
/// and the first legs for it, or gives the first leaf and index without a reason. What is in
/// `pairs` then, and where memory runs out, isn't said.
pub fn push_block(
    alloc: Global,
    pairs: &mut Vec<Pair>,
    block: &Block,
) -> Result<Option<BlockGap>, AllocError>
    requires rising { AreLegsRising (legs_of block.now.acknowledged.now) }
    requires sized { IsSized (legs_of block.now.acknowledged.now) }
    ensures answered { IfOk result (λ gap. IfNone gap (Adds (AnswersBlock (block_of block.now)) (pairs_of pairs.old.items) (pairs_of pairs.new.items))) }
    ensures picked { IfOk result (λ gap. IfNone gap (Adds (All (IsPickedIn (block_of block.now))) (pairs_of pairs.old.items) (pairs_of pairs.new.items))) }
    ensures gap { IfOk result (λ gap. IfSome gap (λ g. IsFirstGapIn (block_of block.now) g.leaf g.at)) }
{
    let picks = Picks::new(alloc, block.acknowledged)?;
    let leaves = block.readable;
    for (number, leaf) in leaves.iter().enumerate() {
        if let Some(at) = push_leaf(alloc, pairs, block, &picks, leaf)? {
            return Ok(Some(BlockGap { leaf: number, at }));
        }
    }
    Ok(None)
}
