//! For each server the symbol with the least number that has it at all indexes.

ghost use Rattle.std.specs.BTreeMap.{get};
ghost use Rattle.std.specs.Ordering.{nat_cmp};
ghost use Rattle.std.specs.Prelude.{◌≡◌, ℕ, IfOk, OnOk, Some, if◌then◌else◌, map};
ghost use Rattle.mcv_judge.specs.PairsInMemory.{leg_of};
ghost use Rattle.mcv_picks.specs.Picks.{borrowed};
ghost use Rattle.mcv_picks.specs.Tables.{FindTheSame, IsByServer, is_filled_by, is_lesser, least};

use crate::tables::Tables;
use mcv_judge::Leg;
use std::alloc::{AllocError, Global};
use std::collections::BTreeMap;

/// Whether the symbol's number is less than the one that is kept, or none is.
fn is_less(kept: Option<usize>, symbol: usize) -> bool
    ensures { result ≡ is_lesser kept symbol }
{
    match kept {
        Some(least) => symbol < least,
        None => true,
    }
}

/// Keeps the leg's symbol for its server at index 0, where the symbol has it at all indexes and no lesser one is kept.
fn keep(table: &mut BTreeMap<u32, usize>, tables: &Tables, leg: &Leg) -> Result<(), AllocError>
    ensures { OnOk result ((x : ℕ) → get nat_cmp table.new x ≡ (if is_filled_by tables.now x (leg_of leg.now) then Some (least (get nat_cmp table.old x) leg.now.symbol) else get nat_cmp table.old x)) }
{
    let Some(server) = leg.servers.first() else {
        return Ok(());
    };
    if is_less(table.get(&server.0).copied(), leg.symbol) && tables.fills(leg.symbol, *server) {
        table.insert(server.0, leg.symbol)?;
    }
    Ok(())
}

/// By server the symbol with the least number that has it at all indexes, found among the first legs of all classes.
pub fn least_symbols(
    alloc: Global,
    tables: &Tables,
    firsts: &[&Leg],
) -> Result<BTreeMap<u32, usize>, AllocError>
    requires { FindTheSame (map borrowed firsts.now) tables.now }
    ensures { IfOk result (λ t. IsByServer t tables.now) }
{
    let mut table = BTreeMap::new(alloc);
    for leg in firsts {
        keep(&mut table, tables, leg)?;
    }
    Ok(table)
}
