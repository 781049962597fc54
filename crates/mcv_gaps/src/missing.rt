//! The leaves that are missed by what deletes have sent.

ghost use Rattle.std.specs.Prelude.{◌≡◌, ℕ, All, IfOk, List, OnOk, false, true};
ghost use Rattle.std.specs.BTreeSet.{contains};
ghost use Rattle.std.specs.List.{Contains};
ghost use Rattle.std.specs.Ordering.{nat_cmp};
ghost use Rattle.mcv_judge.specs.PairsInMemory.{leg_of, legs_of};
ghost use Rattle.mcv_judge.specs.Reason.{LegValue};
ghost use Rattle.mcv_gaps.specs.Gaps.{AreAllSizedBy, AreSizedBy, IsMissed, WantedValue, wanted_of, wanteds_of};
ghost use Rattle.mcv_gaps.specs.Least.{AreEnough, AreEnoughFor, HasTwin, HaveServers, IsMissingOf, IsUnsent, TellsTwins, legs_missing};

use crate::gaps::{Wanted, is_missed};
use mcv_base::ServerId;
use mcv_judge::Leg;
use mcv_picks::Picks;
use std::alloc::{AllocError, Global};
use std::collections::BTreeSet;

/// A leaf that is missed, and those of its servers that no acknowledged leg beside it has at all.
#[derive(Drop)]
pub struct Missing<'s> {
    pub leg: Leg<'s>,
    pub unsent: Vec<u32>,
}

/// Puts the leg's servers into the set.
fn insert_servers(servers: &mut BTreeSet<u32>, leg: &Leg) -> Result<(), AllocError>
    ensures kept { OnOk result ((x : ℕ) → contains nat_cmp servers.old x ≡ true → contains nat_cmp servers.new x ≡ true) }
    ensures own { OnOk result ((x : ℕ) → Contains (leg_of leg.now).servers x → contains nat_cmp servers.new x ≡ true) }
{
    for server in leg.servers {
        servers.insert(server.0)?;
    }
    Ok(())
}

/// The servers that legs have.
fn servers_of(alloc: Global, legs: &[Leg]) -> Result<BTreeSet<u32>, AllocError>
    ensures { IfOk result (λ servers. HaveServers servers (legs_of legs.now)) }
{
    let mut servers = BTreeSet::new(alloc);
    for leg in legs {
        insert_servers(&mut servers, leg)?;
    }
    Ok(servers)
}

/// The leg's servers that aren't in the set.
fn unsent(alloc: Global, leg: &Leg, sent: &BTreeSet<u32>) -> Result<Vec<u32>, AllocError>
    ensures { IfOk result (λ servers. (x : ℕ) → Contains servers.items x → Contains (leg_of leg.now).servers x × (contains nat_cmp sent.now x ≡ false)) }
{
    let mut unsent = Vec::new(alloc);
    for server in leg.servers {
        if !sent.contains(&server.0) {
            unsent.push(server.0)?;
        }
    }
    Ok(unsent)
}

/// Leaves that are missed, one for each symbol and servers, and the symbols and servers that are there.
#[derive(Drop)]
struct Found<'s> {
    missing: Vec<Missing<'s>>,
    seen: BTreeSet<(usize, &'s [ServerId])>,
}

/// Puts the leaf in, where none of its symbol and servers is there.
fn insert_missing<'s>(
    alloc: Global,
    leaf: &Leg<'s>,
    sent: &BTreeSet<u32>,
    found: &mut Found<'s>,
) -> Result<(), AllocError>
    ensures only { OnOk result ((w : WantedValue) (ws : List WantedValue) → Contains ws w → Contains w.readable (leg_of leaf.now) → HaveServers sent.now w.acknowledged
        → All (IsMissingOf ws) found.old.missing.items → All (IsMissingOf ws) found.new.missing.items) }
    ensures tells { OnOk result (TellsTwins found.old.seen (legs_missing found.old.missing.items) → TellsTwins found.new.seen (legs_missing found.new.missing.items)) }
    ensures kept { OnOk result ((d : LegValue) → HasTwin (legs_missing found.old.missing.items) d → HasTwin (legs_missing found.new.missing.items) d) }
    ensures twin { OnOk result (TellsTwins found.old.seen (legs_missing found.old.missing.items) → HasTwin (legs_missing found.new.missing.items) (leg_of leaf.now)) }
{
    let key = (leaf.symbol, leaf.servers);
    if found.seen.contains(&key) {
        return Ok(());
    }
    let unsent = unsent(alloc, leaf, sent)?;
    found.missing.push(Missing { leg: *leaf, unsent })?;
    found.seen.insert(key)?;
    Ok(())
}

/// The leaves that are missed.
fn missed_of<'s>(alloc: Global, wanted: &Wanted<'s>) -> Result<Vec<Leg<'s>>, AllocError>
    ensures only { IfOk result (λ missed. (d : LegValue) → Contains (legs_of missed.items) d → Contains (wanted_of wanted.now).readable d) }
    ensures all { IfOk result (λ missed. (sizes : List ℕ) → AreSizedBy sizes (wanted_of wanted.now)
        → (d : LegValue) → Contains (wanted_of wanted.now).readable d → IsMissed sizes (wanted_of wanted.now).acknowledged d → Contains (legs_of missed.items) d) }
{
    let picks = Picks::new(alloc, wanted.acknowledged.as_slice())?;
    let mut legs = Vec::new(alloc);
    for index in 0..wanted.readable.len() {
        let own = wanted.readable[index];
        let leaf = &wanted.readable[index];
        let missed = is_missed(alloc, &picks, leaf)?;
        if missed {
            legs.push(own)?;
        }
    }
    Ok(legs)
}

/// Puts in the leaves of these that are missed.
fn insert_all<'s>(
    alloc: Global,
    wanted: &Wanted<'s>,
    found: &mut Found<'s>,
) -> Result<(), AllocError>
    requires { TellsTwins found.old.seen (legs_missing found.old.missing.items) }
    ensures only { OnOk result ((ws : List WantedValue) → Contains ws (wanted_of wanted.now) → All (IsMissingOf ws) found.old.missing.items → All (IsMissingOf ws) found.new.missing.items) }
    ensures tells { OnOk result (TellsTwins found.new.seen (legs_missing found.new.missing.items)) }
    ensures kept { OnOk result ((d : LegValue) → HasTwin (legs_missing found.old.missing.items) d → HasTwin (legs_missing found.new.missing.items) d) }
    ensures all { OnOk result ((sizes : List ℕ) → AreSizedBy sizes (wanted_of wanted.now) → AreEnoughFor sizes (wanted_of wanted.now) (legs_missing found.new.missing.items)) }
{
    let sent = servers_of(alloc, wanted.acknowledged.as_slice())?;
    let missed = missed_of(alloc, wanted)?;
    for leaf in &missed {
        insert_missing(alloc, leaf, &sent, found)?;
    }
    Ok(())
}

/// The leaves that are missed, one for each symbol and servers.
pub fn missing_in<'s>(alloc: Global, wanted: &[Wanted<'s>]) -> Result<Vec<Missing<'s>>, AllocError>
    ensures only { IfOk result (λ missing. All (IsMissingOf (wanteds_of wanted.now)) missing.items) }
    ensures all { IfOk result (λ missing. (sizes : List ℕ) → AreAllSizedBy sizes (wanteds_of wanted.now) → AreEnough sizes (wanteds_of wanted.now) (legs_missing missing.items)) }
{
    let mut found = Found {
        missing: Vec::new(alloc),
        seen: BTreeSet::new(alloc),
    };
    for one in wanted {
        insert_all(alloc, one, &mut found)?;
    }
    Ok(found.missing)
}
