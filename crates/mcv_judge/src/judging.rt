//! The pairs of a certificate beside the readable leaves of blocks.

ghost use Rattle.std.specs.Prelude.{◌≡◌, ◌∷◌, List, [], map, IfOk, IfErr, MatchResult};
ghost use Rattle.mcv_judge.specs.Faults.{AreInOrder, AreLegsRising, HaveSameFaults, IsFaultless, IsFirstFault, IsInOrder, place_required, require, required_by};
ghost use Rattle.mcv_judge.specs.PairsInMemory.{block_of, leg_of, legs_of, pairs_of};
ghost use Rattle.mcv_cert.specs.Pair.{AreRising, index_of, index_cmp, pair_of};
ghost use Rattle.mcv_judge.specs.Reason.{BlockValue};
ghost use Rattle.mcv_judge.specs.Walk.{entries, entries_left, walk, walked};

use crate::block::{Block, Leg};
use crate::fault::PairFault;
use crate::reasons::{is_whole, judge_reason, unless};
use mcv_cert::Pair;
use std::cmp::Ordering;

/// How a pair compares with an index of a leaf.
#[tactic(auto, unfolding(mcv_cert::specs::Pair::place_cmp))]
fn compare(pair: &Pair, block: &Block, leaf: &Leg, index: usize) -> Ordering
    ensures { let r = pair_of pair.now in result ≡ index_cmp r.place (index_of r.reason) (place_required (require (block_of block.now) (leg_of leaf.now))) index }
{
    pair.place
        .route
        .cmp(&block.spot.route)
        .then(pair.place.class.as_slice().cmp(block.spot.class))
        .then(pair.place.era.cmp(&block.spot.era))
        .then(pair.place.get_era.cmp(&block.spot.get_era))
        .then(pair.place.leaf.steps().cmp(leaf.position.steps()))
        .then(pair.reason.index().cmp(&index))
}

/// The pairs behind those of a readable leaf: one for all its indexes, or one for each.
#[tactic(auto, using(crate::proofs::Servers::servers_counted))]
fn walk_leaf<'a>(block: &Block, leaf: &Leg, pairs: &'a [Pair]) -> Result<&'a [Pair], PairFault>
    requires { AreLegsRising (legs_of block.now.acknowledged.now) }
    ensures { walked result ≡ walk (pairs_of pairs.now) (entries_left 0 (require (block_of block.now) (leg_of leaf.now))) }
{
    let mut pairs = pairs;
    for index in 0..leaf.servers.len() {
        let Some((pair, rest)) = pairs.split_first() else {
            return Err(PairFault::Missing);
        };
        match compare(pair, block, leaf, index) {
            Ordering::Less => return Err(PairFault::Stray),
            Ordering::Greater => return Err(PairFault::Missing),
            Ordering::Equal => {}
        }
        judge_reason(block, leaf, &pair.reason)?;
        pairs = rest;
        if is_whole(&pair.reason) {
            return Ok(pairs);
        }
    }
    Ok(pairs)
}

/// The pairs behind those of the block.
fn walk_block<'a>(block: &Block, pairs: &'a [Pair]) -> Result<&'a [Pair], PairFault>
    requires { IsInOrder (block_of block.now) }
    ensures { walked result ≡ walk (pairs_of pairs.now) (entries (required_by (block_of block.now))) }
{
    let mut pairs = pairs;
    let leaves = block.readable;
    for leaf in leaves {
        pairs = walk_leaf(block, leaf, pairs)?;
    }
    Ok(pairs)
}

/// Judges the block, from the first of the pairs on, and gives the pairs that are left for the blocks behind it.
///
/// Where it gives them, the faults of the certificate are those of what is left. A fault is the first of the
/// certificate, whatever blocks come behind.
pub fn judge_block<'a>(block: &Block, pairs: &'a [Pair]) -> Result<&'a [Pair], PairFault>
    requires block { IsInOrder (block_of block.now) }
    requires pairs { AreRising (pairs_of pairs.now) }
    ensures rising { IfOk result (λ rest. AreRising (pairs_of rest.now)) }
    ensures left { (later : List BlockValue) → AreInOrder (block_of block.now ∷ later) → IfOk result (λ rest. HaveSameFaults (pairs_of pairs.now) (block_of block.now ∷ later) (pairs_of rest.now) later) }
    ensures first { (later : List BlockValue) → AreInOrder (block_of block.now ∷ later) → IfErr result (λ f. IsFirstFault (pairs_of pairs.now) (block_of block.now ∷ later) f) }
{
    walk_block(block, pairs)
}

/// Judges the pairs that are left behind all blocks: there may be none.
pub fn judge_end(pairs: &[Pair]) -> Result<(), PairFault>
    requires { AreRising (pairs_of pairs.now) }
    ensures { MatchResult result (λ _. IsFaultless (pairs_of pairs.now) []) (λ f. IsFirstFault (pairs_of pairs.now) [] f) }
{
    unless(pairs.is_empty(), PairFault::Stray)
}

/// Judges a certificate against all blocks of a configuration: Ok where no fault is anywhere, else the first.
pub fn judge(blocks: &[Block], pairs: &[Pair]) -> Result<(), PairFault>
    requires blocks { AreInOrder (map block_of blocks.now) }
    requires pairs { AreRising (pairs_of pairs.now) }
    ensures { MatchResult result (λ _. IsFaultless (pairs_of pairs.now) (map block_of blocks.now)) (λ f. IsFirstFault (pairs_of pairs.now) (map block_of blocks.now) f) }
{
    let mut rest = pairs;
    for block in blocks {
        rest = judge_block(block, rest)?;
    }
    judge_end(rest)
}
