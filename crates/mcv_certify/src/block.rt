//! The pairs of one block, or its first gap.

ghost use Rattle.std.specs.Prelude.{All, IfErr, OnOk};
ghost use Rattle.mcv_judge.specs.Answers.{AnswersBlock};
ghost use Rattle.mcv_judge.specs.Faults.{AreLegsRising};
ghost use Rattle.mcv_judge.specs.PairsInMemory.{block_of, legs_of, pairs_of, spot_of};
ghost use Rattle.mcv_pairs.specs.AddedPairs.{Adds};
ghost use Rattle.mcv_pairs.specs.Gaps.{IsSized};
ghost use Rattle.mcv_pairs.specs.Reasons.{IsPickedIn};
ghost use Rattle.mcv_certify.specs.Gap.{IfLost};
ghost use Rattle.mcv_certify.specs.BlockSteps.{AddsWith, AreLegsSized, ReportsGapOf, ReportsGapWith};

use crate::gap::{CertifyFault, gap_of};
use mcv_blocks::Sets;
use mcv_cert::Pair;
use mcv_judge::{Block, Spot};
use mcv_pairs::push_block;
use std::alloc::Global;

/// Adds the pairs of the block, or reports its first gap.
fn push_or_report(alloc: Global, block: &Block, pairs: &mut Vec<Pair>) -> Result<(), CertifyFault>
    requires rising { AreLegsRising (legs_of block.now.acknowledged.now) }
    requires sized { IsSized (legs_of block.now.acknowledged.now) }
    ensures added { OnOk result (Adds (AnswersBlock (block_of block.now)) (pairs_of pairs.old.items) (pairs_of pairs.new.items)) }
    ensures picked { OnOk result (Adds (All (IsPickedIn (block_of block.now))) (pairs_of pairs.old.items) (pairs_of pairs.new.items)) }
    ensures lost { IfErr result (λ f. IfLost f (ReportsGapOf (block_of block.now))) }
{
    let Some(gap) = push_block(alloc, pairs, block)? else {
        return Ok(());
    };
    Err(CertifyFault::Lost(gap_of(alloc, block, gap)?))
}

/// Adds the pairs of the block at the spot, with the deletes of the one sets and the gets of the others, or reports its
/// first gap.
pub fn push_sets(
    alloc: Global,
    deletes: &Sets,
    gets: &Sets,
    spot: &Spot,
    pairs: &mut Vec<Pair>,
) -> Result<(), CertifyFault>
    requires { AreLegsSized deletes.now }
    ensures added { OnOk result (AddsWith deletes.now gets.now (spot_of spot.now) (pairs_of pairs.old.items) (pairs_of pairs.new.items)) }
    ensures lost { IfErr result (λ f. IfLost f (ReportsGapWith deletes.now gets.now (spot_of spot.now))) }
{
    let readable = gets.readable(alloc)?;
    let acknowledged = deletes.acknowledged(alloc)?;
    let block = Block {
        spot: *spot,
        readable: readable.as_slice(),
        acknowledged: acknowledged.as_slice(),
        can_be_acknowledged: deletes.can_be_acknowledged(),
    };
    push_or_report(alloc, &block, pairs)
}
