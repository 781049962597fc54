//! The routes of a configuration, each with the routing prefixes that select it.

ghost use Rattle.std.specs.Prelude.{◌≡◌, ◌∷◌, [], IfOk, map};
ghost use Rattle.serde_json.specs.View.{view};
ghost use Rattle.mcv_names.specs.Fault.{Gives};
ghost use Rattle.mcv_names.specs.Lists.{each};
ghost use Rattle.mcv_names.specs.Path.{path_of};
ghost use Rattle.mcv_config.specs.Entries.{entries_read, entry_fields, entry_read, only_entry, routing_read};
ghost use Rattle.mcv_config.specs.ConfigValue.{entry_value, named_of};
ghost use Rattle.mcv_config.specs.View.{so_far_of};

use crate::aliases::read_aliases;
use crate::config::{Entry, NamedRoute};
use crate::name_table::NameTable;
use crate::progress::Progress;
use crate::routes::{read_field, read_route};
use mcv_base::Prefix;
use mcv_names::{FaultKind, Object, ReadFault, Trail, check_keys, fault_at, some_items};
use serde_json::Value;
use std::alloc::{AllocError, Global};

/// The most levels of handles.
const DEPTH_LIMIT: usize = 32;

/// The routes of the root: the one under `route`, or those under `routes`.
#[tactic(auto, using(mcv_names::proofs::Faults::faults), unfolding(crate::specs::Entries::routing_read))]
pub(crate) fn read_routing(
    alloc: Global,
    so_far: &mut Progress,
    trail: &Trail<'_>,
    value: &Value,
) -> Result<Vec<Entry>, ReadFault>
    ensures { Gives (λ v. (map entry_value v.items, so_far_of so_far.new)) result (routing_read (so_far_of so_far.old) (path_of trail.now) (view value.now)) }
{
    if let Some(entries) = value.get("routes") {
        if let Some(_) = value.get("route") {
            return Err(fault_at(alloc, FaultKind::WrongKind, trail));
        }
        return read_entries(alloc, so_far, &Trail::Key(trail, "routes"), entries);
    }
    let Some(route) = value.get("route") else {
        return Err(fault_at(alloc, FaultKind::WrongKind, trail));
    };
    let here = Trail::Key(trail, "route");
    let route = read_route(alloc, DEPTH_LIMIT, so_far, &here, route)?;
    Ok(only_entry(alloc, route)?)
}

/// One route, which key words without a routing prefix take.
fn only_entry(alloc: Global, route: NamedRoute) -> Result<Vec<Entry>, AllocError>
    ensures { IfOk result (λ v. map entry_value v.items ≡ only_entry (named_of route)) }
{
    let mut aliases = Vec::new(alloc);
    aliases.push(Prefix::unnamed())?;
    let mut entries = Vec::new(alloc);
    entries.push(Entry { aliases, route })?;
    Ok(entries)
}

/// The routes of a list that is not empty, no alias twice in all of them.
#[tactic(auto, using(mcv_names::proofs::Faults::faults), unfolding(crate::specs::Entries::entries_read))]
fn read_entries(
    alloc: Global,
    so_far: &mut Progress,
    trail: &Trail<'_>,
    value: &Value,
) -> Result<Vec<Entry>, ReadFault>
    ensures { Gives (λ v. (map entry_value v.items, so_far_of so_far.new)) result (entries_read (so_far_of so_far.old) (path_of trail.now) (view value.now)) }
{
    let Some(list) = value.as_array() else {
        return Err(fault_at(alloc, FaultKind::WrongKind, trail));
    };
    let items = some_items(alloc, trail, list)?;
    let mut seen = NameTable::new(alloc);
    read_each_entry(alloc, &mut seen, so_far, trail, items)
}

#[tactic(auto, using(mcv_names::proofs::Faults::faults), unfolding(mcv_names::specs::Lists::each))]
fn read_each_entry(
    alloc: Global,
    seen: &mut NameTable,
    so_far: &mut Progress,
    trail: &Trail<'_>,
    list: &[Value],
) -> Result<Vec<Entry>, ReadFault>
    ensures { Gives (λ v. (map entry_value v.items, (seen.new, so_far_of so_far.new))) result (each entry_read (seen.old, so_far_of so_far.old) (path_of trail.now) 0 (map view list.now)) }
{
    let mut entries = Vec::new(alloc);
    for (index, item) in list.iter().enumerate() {
        let here = Trail::Item(trail, index);
        entries.push(read_entry(alloc, seen, so_far, &here, item)?)?;
    }
    Ok(entries)
}

#[tactic(auto, using(mcv_names::proofs::Faults::faults), unfolding(crate::specs::Entries::entry_read))]
fn read_entry(
    alloc: Global,
    seen: &mut NameTable,
    so_far: &mut Progress,
    trail: &Trail<'_>,
    value: &Value,
) -> Result<Entry, ReadFault>
    ensures { Gives (λ e. (entry_value e, (seen.new, so_far_of so_far.new))) result (entry_read (seen.old, so_far_of so_far.old) (path_of trail.now) (view value.now)) }
{
    let Some(members) = value.as_object() else {
        return Err(fault_at(alloc, FaultKind::WrongKind, trail));
    };
    check_keys(alloc, trail, Object::Entry, members)?;
    read_fields(alloc, seen, so_far, trail, value)
}

/// The aliases, and then the route.
#[tactic(auto, using(mcv_names::proofs::Faults::faults), unfolding(crate::specs::Entries::entry_fields))]
fn read_fields(
    alloc: Global,
    seen: &mut NameTable,
    so_far: &mut Progress,
    trail: &Trail<'_>,
    value: &Value,
) -> Result<Entry, ReadFault>
    ensures { Gives (λ e. (entry_value e, (seen.new, so_far_of so_far.new))) result (entry_fields (seen.old, so_far_of so_far.old) (path_of trail.now) (view value.now)) }
{
    let aliases = read_aliases(alloc, seen, trail, value)?;
    let route = read_field(alloc, DEPTH_LIMIT, so_far, trail, "route", value)?;
    Ok(Entry { aliases, route })
}
