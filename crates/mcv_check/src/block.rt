//! The pairs of a certificate against one block, the one that sets of two eras make.

ghost use Rattle.std.specs.Prelude.{IfErr, IfOk};
ghost use Rattle.mcv_cert.specs.Pair.{AreRising};
ghost use Rattle.mcv_check.specs.Judgements.{IsInOrderWith, LeavesWith, StopsWith};
ghost use Rattle.mcv_judge.specs.PairsInMemory.{pairs_of, spot_of};

use crate::fault::CheckFault;
use mcv_blocks::Sets;
use mcv_cert::Pair;
use mcv_judge::{Block, Spot, judge_block};
use std::alloc::Global;

/// Judges the pairs against the block at the spot, with the deletes of the one sets and the gets of the others; gives those
/// that are left behind it.
pub fn judge_sets<'p>(
    alloc: Global,
    deletes: &Sets,
    gets: &Sets,
    spot: &Spot,
    pairs: &'p [Pair],
) -> Result<&'p [Pair], CheckFault>
    requires order { IsInOrderWith deletes.now gets.now (spot_of spot.now) }
    requires pairs { AreRising (pairs_of pairs.now) }
    ensures rising { IfOk result (λ rest. AreRising (pairs_of rest.now)) }
    ensures left { IfOk result (λ rest. LeavesWith deletes.now gets.now (spot_of spot.now) (pairs_of pairs.now) (pairs_of rest.now)) }
    ensures fault { IfErr result (StopsWith deletes.now gets.now (spot_of spot.now) (pairs_of pairs.now)) }
{
    let readable = gets.readable(alloc)?;
    let acknowledged = deletes.acknowledged(alloc)?;
    let block = Block {
        spot: *spot,
        readable: readable.as_slice(),
        acknowledged: acknowledged.as_slice(),
        can_be_acknowledged: deletes.can_be_acknowledged(),
    };
    Ok(judge_block(&block, pairs)?)
}
