//! Legs by slot: a symbol, an index of it and a server.

ghost use Rattle.std.specs.BTreeMap.{get};
ghost use Rattle.std.specs.Option.{option_map, option_or};
ghost use Rattle.std.specs.Prelude.{◌≡◌, IfOk, OnOk, Some, None, if◌then◌else◌, map};
ghost use Rattle.mcv_judge.specs.PairsInMemory.{leg_of};
ghost use Rattle.mcv_picks.specs.Picks.{borrowed};
ghost use Rattle.mcv_picks.specs.Tables.{IsBySlot, Slot, is_at, slot_cmp};

use mcv_judge::Leg;
use std::alloc::{AllocError, Global};
use std::collections::BTreeMap;

/// Puts the leg at each slot of its servers that has none.
fn insert_servers<'a>(
    table: &mut BTreeMap<(usize, usize, u32), &'a Leg<'a>>,
    leg: &'a Leg<'a>,
) -> Result<(), AllocError>
    ensures { OnOk result ((q : Slot) → option_map borrowed (get slot_cmp table.new q) ≡ option_or (option_map borrowed (get slot_cmp table.old q)) (if is_at q (leg_of leg.now) then Some (leg_of leg.now) else None)) }
{
    for (index, server) in leg.servers.iter().enumerate() {
        let slot = (leg.symbol, index, server.0);
        if !table.contains_key(&slot) {
            table.insert(slot, leg)?;
        }
    }
    Ok(())
}

/// By slot the first of the legs that has the server there.
pub fn slots<'a>(
    alloc: Global,
    legs: &[&'a Leg<'a>],
) -> Result<BTreeMap<(usize, usize, u32), &'a Leg<'a>>, AllocError>
    ensures { IfOk result (λ t. IsBySlot t (map borrowed legs.now)) }
{
    let mut table = BTreeMap::new(alloc);
    for leg in legs {
        insert_servers(&mut table, *leg)?;
    }
    Ok(table)
}
