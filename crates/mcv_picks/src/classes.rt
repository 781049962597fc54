//! Legs by class: those of one class have the same symbol and the same servers.

ghost use Rattle.std.specs.Prelude.{IfOk, map};
ghost use Rattle.mcv_judge.specs.PairsInMemory.{legs_of};
ghost use Rattle.mcv_picks.specs.Picks.{borrowed};
ghost use Rattle.mcv_picks.specs.Tables.{FindTheSame, IsByTwinKey};

use mcv_base::ServerId;
use mcv_judge::Leg;
use std::alloc::{AllocError, Global};
use std::collections::BTreeMap;

/// By class its first leg; and these legs, in their order.
pub fn classes<'a>(
    alloc: Global,
    legs: &'a [Leg<'a>],
) -> Result<
    (
        BTreeMap<(usize, &'a [ServerId]), &'a Leg<'a>>,
        Vec<&'a Leg<'a>>,
    ),
    AllocError,
>
    ensures table { IfOk result (λ r. IsByTwinKey r.0 (legs_of legs.now)) }
    ensures firsts { IfOk result (λ r. FindTheSame (map borrowed r.1.items) (legs_of legs.now)) }
{
    let mut table = BTreeMap::new(alloc);
    let mut firsts = Vec::new(alloc);
    for leg in legs {
        if !table.contains_key(&(leg.symbol, leg.servers)) {
            table.insert((leg.symbol, leg.servers), leg)?;
            firsts.push(leg)?;
        }
    }
    Ok((table, firsts))
}
