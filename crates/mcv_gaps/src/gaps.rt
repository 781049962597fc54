//! Where what can be read isn't answered for.

ghost use Rattle.std.specs.Prelude.{◌≡◌, ◌<◌, ◌↔◌, ◌++◌, ℕ, IfOk, IsTrue, List, length};
ghost use Rattle.mcv_judge.specs.PairsInMemory.{leg_of, legs_of};
ghost use Rattle.mcv_picks.specs.Reasons.{AreSized};
ghost use Rattle.mcv_gaps.specs.Gaps.{AreAllSizedBy, AreSizedBy, HasGap, HaveGap, IsAnsweredBy, IsMissed, IsOneMissed, IsSizedLeaf, wanted_of, wanteds_of};

use mcv_judge::Leg;
use mcv_picks::Picks;
use std::alloc::{AllocError, Global};

/// What deletes of a class leave to be answered for.
#[derive(Drop)]
pub struct Wanted<'s> {
    /// The legs from which a read can be answered; none where no delete is acknowledged.
    pub readable: Vec<Leg<'s>>,
    /// The legs that every acknowledged delete has sent.
    pub acknowledged: Vec<Leg<'s>>,
}

/// Whether some symbol answers for the leaf at an index.
fn is_answered<'a>(
    alloc: Global,
    picks: &Picks<'a>,
    leaf: &Leg<'a>,
    index: usize,
) -> Result<bool, AllocError>
    requires { index < length leaf.now.servers.now }
    ensures { IfOk result (λ is. (sizes : List ℕ) → IsSizedLeaf sizes picks.now (leg_of leaf.now) → IsTrue is ↔ IsAnsweredBy sizes picks.now (leg_of leaf.now) index) }
{
    let server = leaf.servers[index];
    if picks.same(leaf.symbol, server, index).is_some() {
        return Ok(true);
    }
    let found = picks.all(alloc, server)?;
    Ok(found.is_some())
}

/// Whether no symbol answers for the leaf at one of its indexes.
fn is_missed_at_an_index<'a>(
    alloc: Global,
    picks: &Picks<'a>,
    leaf: &Leg<'a>,
) -> Result<bool, AllocError>
    ensures { IfOk result (λ is. (sizes : List ℕ) → IsSizedLeaf sizes picks.now (leg_of leaf.now) → IsTrue is ↔ IsMissed sizes picks.now (leg_of leaf.now)) }
{
    for index in 0..leaf.servers.len() {
        let answered = is_answered(alloc, picks, leaf, index)?;
        if !answered {
            return Ok(true);
        }
    }
    Ok(false)
}

/// Whether the leaf is missed by the legs in these tables.
pub fn is_missed<'a>(alloc: Global, picks: &Picks<'a>, leaf: &Leg<'a>) -> Result<bool, AllocError>
    ensures { IfOk result (λ is. (sizes : List ℕ) → IsSizedLeaf sizes picks.now (leg_of leaf.now) → IsTrue is ↔ IsMissed sizes picks.now (leg_of leaf.now)) }
{
    if picks.twin(leaf).is_some() {
        return Ok(false);
    }
    is_missed_at_an_index(alloc, picks, leaf)
}

/// The legs of both.
pub fn joined<'s>(
    alloc: Global,
    legs: &[Leg<'s>],
    others: &[Leg<'s>],
) -> Result<Vec<Leg<'s>>, AllocError>
    ensures { IfOk result (λ all. legs_of all.items ≡ legs_of legs.now ++ legs_of others.now) }
{
    let mut all = Vec::with_capacity(alloc, legs.len())?;
    all.extend_from_slice(legs)?;
    all.extend_from_slice(others)?;
    Ok(all)
}

/// Whether one of the leaves is missed by the legs.
fn is_one_missed<'s>(
    alloc: Global,
    legs: &[Leg<'s>],
    leaves: &[Leg<'s>],
) -> Result<bool, AllocError>
    ensures { IfOk result (λ is. (sizes : List ℕ) → AreSizedBy sizes (record { readable = legs_of leaves.now; acknowledged = legs_of legs.now })
        → IsTrue is ↔ IsOneMissed sizes (legs_of legs.now) (legs_of leaves.now)) }
{
    let picks = Picks::new(alloc, legs)?;
    for leaf in leaves {
        let missed = is_missed(alloc, &picks, leaf)?;
        if missed {
            return Ok(true);
        }
    }
    Ok(false)
}

/// Whether some leaf that can be read is missed where these legs are sent too.
pub fn has_gap<'s>(
    alloc: Global,
    wanted: &Wanted<'s>,
    added: &[Leg<'s>],
) -> Result<bool, AllocError>
    ensures { IfOk result (λ is. (sizes : List ℕ) → AreSizedBy sizes (wanted_of wanted.now) → AreSized sizes (legs_of added.now)
        → IsTrue is ↔ HasGap sizes (wanted_of wanted.now) (legs_of added.now)) }
{
    let legs = joined(alloc, wanted.acknowledged.as_slice(), added)?;
    is_one_missed(alloc, legs.as_slice(), wanted.readable.as_slice())
}

/// The same of one of these.
pub fn have_gap<'s>(
    alloc: Global,
    wanted: &[Wanted<'s>],
    added: &[Leg<'s>],
) -> Result<bool, AllocError>
    ensures { IfOk result (λ is. (sizes : List ℕ) → AreAllSizedBy sizes (wanteds_of wanted.now) → AreSized sizes (legs_of added.now)
        → IsTrue is ↔ HaveGap sizes (wanteds_of wanted.now) (legs_of added.now)) }
{
    for one in wanted {
        let gap = has_gap(alloc, one, added)?;
        if gap {
            return Ok(true);
        }
    }
    Ok(false)
}
