//! The numbers of a configuration: seconds, and the ranges of shadows.

ghost use Rattle.std.specs.Prelude.{◌≡◌, option_map};
ghost use Rattle.serde_json.specs.View.{view};
ghost use Rattle.mcv_names.specs.Fault.{Gives};
ghost use Rattle.mcv_config.specs.Numbers.{index_read, seconds_or, seconds_read};
ghost use Rattle.mcv_names.specs.Path.{path_of};
ghost use Rattle.mcv_config.specs.Routes.{start_read};
ghost use Rattle.mcv_config.specs.Shadows.{range_of, range_read, range_value};

use mcv_names::{FaultKind, ReadFault, Trail, fault_at};
use serde_json::Value;
use std::alloc::Global;

/// The greatest number of seconds.
const SECONDS_LIMIT: u64 = 4_294_967_295;

/// A number of seconds.
#[tactic(auto, using(mcv_names::proofs::Faults::faults), unfolding(crate::specs::Numbers::seconds_read))]
fn read_seconds(alloc: Global, trail: &Trail<'_>, value: &Value) -> Result<u32, ReadFault>
    ensures { Gives (λ n. n) result (seconds_read (path_of trail.now) (view value.now)) }
{
    let Some(number) = value.as_u64() else {
        return Err(fault_at(alloc, FaultKind::WrongKind, trail));
    };
    if number > SECONDS_LIMIT {
        return Err(fault_at(alloc, FaultKind::Limit, trail));
    }
    Ok(number as u32)
}

/// A number of seconds, the given one where there is no such key.
#[tactic(auto, using(mcv_names::proofs::Faults::faults))]
pub(crate) fn read_seconds_or(
    alloc: Global,
    missing: u32,
    trail: &Trail<'_>,
    value: Option<&Value>,
) -> Result<u32, ReadFault>
    ensures { Gives (λ n. n) result (seconds_or missing (path_of trail.now) (option_map (λ v. view v.now) value.entry)) }
{
    match value {
        Some(value) => read_seconds(alloc, trail, value),
        None => Ok(missing),
    }
}

/// The start of a migration, which has to be there.
#[tactic(auto, using(mcv_names::proofs::Faults::faults), unfolding(crate::specs::Routes::start_read))]
pub(crate) fn read_start(alloc: Global, trail: &Trail<'_>, value: &Value) -> Result<u32, ReadFault>
    ensures { Gives (λ n. n) result (start_read (path_of trail.now) (view value.now)) }
{
    let Some(start) = value.get("start_time") else {
        return Err(fault_at(alloc, FaultKind::WrongKind, trail));
    };
    read_seconds(alloc, &Trail::Key(trail, "start_time"), start)
}

/// The range of a shadow: its first and its last index.
#[tactic(auto, using(mcv_names::proofs::Faults::faults), unfolding(crate::specs::Shadows::range_read))]
pub(crate) fn read_range(
    alloc: Global,
    trail: &Trail<'_>,
    value: &Value,
) -> Result<(u64, u64), ReadFault>
    ensures { Gives range_of result (range_read (path_of trail.now) (view value.now)) }
{
    let Some(range) = value.get("index_range") else {
        return Err(fault_at(alloc, FaultKind::WrongKind, trail));
    };
    read_ends(alloc, &Trail::Key(trail, "index_range"), range)
}

/// The two numbers of a list, the second no less than the first.
#[tactic(auto, using(mcv_names::proofs::Faults::faults), unfolding(crate::specs::Shadows::range_value))]
fn read_ends(alloc: Global, trail: &Trail<'_>, value: &Value) -> Result<(u64, u64), ReadFault>
    ensures { Gives range_of result (range_value (path_of trail.now) (view value.now)) }
{
    let Some(first) = value.get(0_usize) else {
        return Err(fault_at(alloc, FaultKind::WrongKind, trail));
    };
    let Some(last) = value.get(1_usize) else {
        return Err(fault_at(alloc, FaultKind::WrongKind, trail));
    };
    if let Some(_) = value.get(2_usize) {
        return Err(fault_at(alloc, FaultKind::WrongKind, trail));
    }
    let first = read_index(alloc, &Trail::Item(trail, 0), first)?;
    let last = read_index(alloc, &Trail::Item(trail, 1), last)?;
    if last < first {
        return Err(fault_at(alloc, FaultKind::WrongKind, trail));
    }
    Ok((first, last))
}

#[tactic(auto, using(mcv_names::proofs::Faults::faults), unfolding(crate::specs::Numbers::index_read))]
fn read_index(alloc: Global, trail: &Trail<'_>, value: &Value) -> Result<u64, ReadFault>
    ensures { Gives (λ n. n) result (index_read (path_of trail.now) (view value.now)) }
{
    match value.as_u64() {
        Some(number) => Ok(number),
        None => Err(fault_at(alloc, FaultKind::WrongKind, trail)),
    }
}
