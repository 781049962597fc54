//! How far the reader of routes has come.

ghost use Rattle.std.specs.Prelude.{◌≡◌};
ghost use Rattle.serde_json.specs.View.{view};
ghost use Rattle.mcv_names.specs.Fault.{Gives};
ghost use Rattle.mcv_names.specs.Path.{path_of};
ghost use Rattle.mcv_config.specs.Routes.{pool_field, pool_object};
ghost use Rattle.mcv_config.specs.View.{so_far_of};

use crate::pools::{NamedPools, pool_named, read_pool};
use mcv_names::{FaultKind, ReadFault, Trail, fault_at};
use mcv_pools::Servers;
use serde_json::Value;
use std::alloc::Global;

/// The room that is left for handles, and the pools and servers so far.
#[derive(Drop)]
pub struct Progress {
    /// How many handles the configuration may still have.
    pub room: usize,
    pub pools: NamedPools,
    pub servers: Servers,
}

/// The pool of a PoolRoute, by its name or as an object.
#[tactic(auto, using(mcv_names::proofs::Faults::faults), unfolding(crate::specs::Routes::pool_field))]
pub(crate) fn read_pool_field(
    alloc: Global,
    so_far: &mut Progress,
    trail: &Trail<'_>,
    value: &Value,
) -> Result<usize, ReadFault>
    ensures { Gives (λ i. (i, so_far_of so_far.new)) result (pool_field (so_far_of so_far.old) (path_of trail.now) (view value.now)) }
{
    let Some(pool) = value.get("pool") else {
        return Err(fault_at(alloc, FaultKind::WrongKind, trail));
    };
    let here = Trail::Key(trail, "pool");
    match pool.as_str() {
        Some(name) => Ok(pool_named(alloc, &so_far.pools, &here, name)?),
        None => add_pool(alloc, so_far, &here, pool),
    }
}

/// The number of the pool that a value in a route names. It goes behind the pools that are there.
#[tactic(auto, using(mcv_names::proofs::Faults::faults), unfolding(crate::specs::Routes::pool_object))]
fn add_pool(
    alloc: Global,
    so_far: &mut Progress,
    trail: &Trail<'_>,
    value: &Value,
) -> Result<usize, ReadFault>
    ensures { Gives (λ i. (i, so_far_of so_far.new)) result (pool_object (so_far_of so_far.old) (path_of trail.now) (view value.now)) }
{
    let pool = read_pool(alloc, &mut so_far.servers, trail, "", value)?;
    let number = so_far.pools.pools.len();
    so_far.pools.pools.push(pool)?;
    Ok(number)
}
