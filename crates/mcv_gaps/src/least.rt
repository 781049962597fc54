//! The least legs with which no leaf is missed.

ghost use Rattle.std.specs.Prelude.{◌≡◌, ◌<◌, ◌+◌, ◌++◌, ◌↔◌, ℕ, All, IfOk, IsTrue, List, OnOk, Some, false, if◌then◌else◌, length, map, drop, true};
ghost use Rattle.std.specs.BTreeMap.{get};
ghost use Rattle.std.specs.BTreeSet.{contains};
ghost use Rattle.std.specs.List.{Contains, list_any};
ghost use Rattle.std.specs.Ordering.{nat_cmp};
ghost use Rattle.std.specs.Prelude.{nat_eq};
ghost use Rattle.mcv_judge.specs.PairsInMemory.{leg_of, legs_of};
ghost use Rattle.mcv_gaps.specs.Gaps.{AreAllSizedBy, AreLeastFor, HaveGap, wanteds_of};
ghost use Rattle.mcv_gaps.specs.Least.{AreEnough, AreKept, AreOwners, IsMissingOf, IsSole, legs_missing, owner_of};

use crate::gaps::{Wanted, have_gap};
use crate::missing::{Missing, missing_in};
use mcv_base::ServerId;
use mcv_judge::Leg;
use std::alloc::{AllocError, Global};
use std::collections::BTreeMap;

/// The number kept for a server that the leg of this number has too.
fn owner_with(kept: Option<Option<usize>>, number: usize) -> Option<usize>
    ensures { result ≡ owner_of number kept }
{
    match kept {
        None => Some(number),
        Some(None) => None,
        Some(Some(other)) => { if other == number { Some(number) } else { None } }
    }
}

/// Puts the leg of this number in for a server.
fn own_server(
    owners: &mut BTreeMap<u32, Option<usize>>,
    number: usize,
    server: ServerId,
) -> Result<(), AllocError>
    ensures { OnOk result ((x : ℕ) → get nat_cmp owners.new x ≡ (if nat_eq x server.0 then Some (owner_of number (get nat_cmp owners.old x)) else get nat_cmp owners.old x)) }
{
    let kept = owners.get(&server.0).copied();
    owners.insert(server.0, owner_with(kept, number))?;
    Ok(())
}

/// Puts the leg of this number in for each of its servers.
fn own_servers(
    owners: &mut BTreeMap<u32, Option<usize>>,
    number: usize,
    leg: &Leg,
) -> Result<(), AllocError>
    ensures { OnOk result ((x : ℕ) → get nat_cmp owners.new x ≡ (if list_any (nat_eq x) (leg_of leg.now).servers then Some (owner_of number (get nat_cmp owners.old x)) else get nat_cmp owners.old x)) }
{
    for server in leg.servers {
        own_server(owners, number, *server)?;
    }
    Ok(())
}

/// By server the number of the one leg that has it, or none where several do.
fn owners_of(alloc: Global, missing: &[Missing]) -> Result<BTreeMap<u32, Option<usize>>, AllocError>
    ensures { IfOk result (λ owners. AreOwners owners (legs_missing missing.now)) }
{
    let mut owners = BTreeMap::new(alloc);
    for (number, one) in missing.iter().enumerate() {
        own_servers(&mut owners, number, &one.leg)?;
    }
    Ok(owners)
}

/// Whether it is this number that is kept.
fn is_own(kept: Option<Option<usize>>, number: usize) -> bool
    ensures { IsTrue result → kept ≡ Some (Some number) }
{
    match kept {
        Some(Some(owner)) => owner == number,
        _ => false,
    }
}

/// Whether the leg of this number alone has one of its servers to which nothing else is sent.
fn is_sole(owners: &BTreeMap<u32, Option<usize>>, number: usize, one: &Missing) -> bool
    ensures { IsTrue result → IsSole owners.now number one.now.unsent.items }
{
    for server in &one.unsent {
        let id = *server;
        if is_own(owners.get(&id).copied(), number) {
            return true;
        }
    }
    false
}

/// The legs that are kept, and those that aren't looked at yet.
fn others<'s>(
    alloc: Global,
    kept: &[Leg<'s>],
    rest: &[Missing<'s>],
) -> Result<Vec<Leg<'s>>, AllocError>
    ensures { IfOk result (λ legs. legs_of legs.items ≡ legs_of kept.now ++ legs_missing rest.now) }
{
    let mut legs = Vec::from_slice(alloc, kept)?;
    for one in rest {
        legs.push(one.leg)?;
    }
    Ok(legs)
}

/// Whether there is a gap with the legs that are kept and those behind the leg of this number.
fn is_needed<'s>(
    alloc: Global,
    wanted: &[Wanted<'s>],
    missing: &[Missing<'s>],
    owners: &BTreeMap<u32, Option<usize>>,
    kept: &[Leg<'s>],
    number: usize,
) -> Result<bool, AllocError>
    requires within { number < length missing.now }
    requires missing { All (IsMissingOf (wanteds_of wanted.now)) missing.now }
    requires owners { AreOwners owners.now (legs_missing missing.now) }
    requires kept { AreKept (legs_missing missing.now) number (legs_of kept.now) }
    ensures { IfOk result (λ is. (sizes : List ℕ) → AreAllSizedBy sizes (wanteds_of wanted.now)
        → IsTrue is ↔ HaveGap sizes (wanteds_of wanted.now) (legs_of kept.now ++ legs_missing (drop (number + 1) missing.now))) }
{
    if is_sole(owners, number, &missing[number]) {
        return Ok(true);
    }
    let (_, rest) = missing.split_at(number + 1);
    let others = others(alloc, kept, rest)?;
    have_gap(alloc, wanted, others.as_slice())
}

/// Of legs that are enough, one after another, those without which there is a gap.
fn needed_of<'s>(
    alloc: Global,
    wanted: &[Wanted<'s>],
    missing: &[Missing<'s>],
) -> Result<Vec<Leg<'s>>, AllocError>
    requires { All (IsMissingOf (wanteds_of wanted.now)) missing.now }
    ensures { IfOk result (λ legs. (sizes : List ℕ) → AreAllSizedBy sizes (wanteds_of wanted.now) → AreEnough sizes (wanteds_of wanted.now) (legs_missing missing.now)
        → AreLeastFor sizes (wanteds_of wanted.now) (legs_of legs.items)) }
{
    let owners = owners_of(alloc, missing)?;
    let mut kept = Vec::new(alloc);
    for (number, one) in missing.iter().enumerate() {
        let needed = is_needed(alloc, wanted, missing, &owners, kept.as_slice(), number)?;
        if needed {
            kept.push(one.leg)?;
        }
    }
    Ok(kept)
}

/// Legs with which there is no gap, and without any one of which there is one: of those that are missed, those with most
/// servers are left out first.
pub fn least_legs<'s>(alloc: Global, wanted: &[Wanted<'s>]) -> Result<Vec<Leg<'s>>, AllocError>
    ensures { IfOk result (λ legs. (sizes : List ℕ) → AreAllSizedBy sizes (wanteds_of wanted.now) → AreLeastFor sizes (wanteds_of wanted.now) (legs_of legs.items)) }
{
    let mut missing = missing_in(alloc, wanted)?;
    missing.sort_by_key(|one| usize::MAX - one.leg.servers.len())?;
    needed_of(alloc, wanted, missing.as_slice())
}
