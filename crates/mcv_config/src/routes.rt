//! The handles that a JSON value names.

ghost use Rattle.std.specs.Prelude.{map, option_map};
ghost use Rattle.serde_json.specs.View.{view, members_view};
ghost use Rattle.mcv_names.specs.Fault.{Gives};
ghost use Rattle.mcv_names.specs.Lists.{each, each_member};
ghost use Rattle.mcv_names.specs.Path.{path_of};
ghost use Rattle.mcv_config.specs.ConfigValue.{named_of, prefix_of, shadow_of};
ghost use Rattle.mcv_config.specs.Routes.{children_field, fields, migrate_fields, object_route, pool_fields, route, warm_up_fields};
ghost use Rattle.mcv_config.specs.Selectors.{default_read, policies_read, policy_read, selector_fields};
ghost use Rattle.mcv_config.specs.Shadows.{shadow_read};
ghost use Rattle.mcv_config.specs.View.{so_far_of};
ghost use Rattle.mcv_config.specs.Walk.{route_under, two_under};

use crate::config::{NamedPrefix, NamedRoute, NamedShadow};
use crate::hash::read_hash;
use crate::numbers::{read_range, read_start};
use crate::progress::{Progress, read_pool_field};
use crate::selecting::selecting;
use crate::texts::{only, read_text, text_children};
use crate::timed::{read_exptime, read_interval};
use mcv_names::{
    FaultKind, Handle, Object, ReadFault, Selector, Trail, check_keys, check_names, default_key,
    fault_at, items_or_none, policies_key, read_type, some_items,
};
use serde_json::{Map, Value};
use std::alloc::Global;

/// The handle that a value names, with this many levels left for it and those below it.
#[tactic(auto, using(mcv_names::proofs::Faults::faults, crate::proofs::Levels::levels))]
#[cycle(route)]
pub(crate) fn read_route(
    alloc: Global,
    depth: usize,
    so_far: &mut Progress,
    trail: &Trail<'_>,
    value: &Value,
) -> Result<NamedRoute, ReadFault>
    ensures { Gives (λ r. (named_of r, so_far_of so_far.new)) result (route depth (so_far_of so_far.old) (path_of trail.now) (view value.now)) }
{
    if depth == 0 || so_far.room == 0 {
        return Err(fault_at(alloc, FaultKind::Limit, trail));
    }
    so_far.room -= 1;
    if let Some(text) = value.as_str() {
        return read_text(alloc, depth - 1, so_far, trail, text);
    }
    if let Some(members) = value.as_object() {
        return read_object(alloc, depth - 1, so_far, trail, value, members);
    }
    Err(fault_at(alloc, FaultKind::WrongKind, trail))
}

/// The handle that an object names, with this many levels left for those below it.
#[tactic(auto, using(mcv_names::proofs::Faults::faults), unfolding(crate::specs::Routes::object_route))]
#[cycle(route)]
fn read_object(
    alloc: Global,
    depth: usize,
    so_far: &mut Progress,
    trail: &Trail<'_>,
    value: &Value,
    members: &Map<String, Value>,
) -> Result<NamedRoute, ReadFault>
    ensures { Gives (λ r. (named_of r, so_far_of so_far.new)) result (object_route depth (route depth) (so_far_of so_far.old) (path_of trail.now) (view value.now) (members_view members.now.entries)) }
{
    let handle = read_type(alloc, trail, value)?;
    check_keys(alloc, trail, Object::Handle(handle), members)?;
    read_handle(alloc, depth, so_far, trail, handle, value)
}

/// What the object names as this handle, its type and its keys apart.
#[tactic(auto, using(mcv_names::proofs::Faults::faults), unfolding(crate::specs::Routes::fields))]
#[cycle(route)]
fn read_handle(
    alloc: Global,
    depth: usize,
    so_far: &mut Progress,
    trail: &Trail<'_>,
    handle: Handle,
    value: &Value,
) -> Result<NamedRoute, ReadFault>
    ensures { Gives (λ r. (named_of r, so_far_of so_far.new)) result (fields depth (route depth) (so_far_of so_far.old) (path_of trail.now) (view value.now) handle) }
{
    match handle {
        Handle::Pool => read_pool_route(alloc, depth, so_far, trail, value),
        Handle::Null => Ok(NamedRoute::Null),
        Handle::Error => Ok(NamedRoute::Error),
        Handle::Many(kind) => {
            let children = read_children(alloc, depth, so_far, trail, value)?;
            Ok(NamedRoute::Many(kind, children))
        }
        Handle::WarmUp => read_warm_up(alloc, depth, so_far, trail, value),
        Handle::Migrate => read_migration(alloc, depth, so_far, trail, value),
        Handle::Selector(selector) => read_selector(alloc, depth, so_far, trail, selector, value),
    }
}

/// The cold and the warm route, with the exptime of the add.
#[tactic(auto, using(mcv_names::proofs::Faults::faults), unfolding(crate::specs::Routes::warm_up_fields))]
#[cycle(route)]
fn read_warm_up(
    alloc: Global,
    depth: usize,
    so_far: &mut Progress,
    trail: &Trail<'_>,
    value: &Value,
) -> Result<NamedRoute, ReadFault>
    ensures { Gives (λ r. (named_of r, so_far_of so_far.new)) result (warm_up_fields (route depth) (so_far_of so_far.old) (path_of trail.now) (view value.now)) }
{
    let (cold, warm) = read_two(alloc, depth, so_far, trail, "cold", "warm", value)?;
    let exptime = read_exptime(alloc, trail, value)?;
    Ok(NamedRoute::WarmUp {
        cold,
        warm,
        exptime,
    })
}

/// The two routes of a migration, with its start and its interval.
#[tactic(auto, using(mcv_names::proofs::Faults::faults), unfolding(crate::specs::Routes::migrate_fields))]
#[cycle(route)]
fn read_migration(
    alloc: Global,
    depth: usize,
    so_far: &mut Progress,
    trail: &Trail<'_>,
    value: &Value,
) -> Result<NamedRoute, ReadFault>
    ensures { Gives (λ r. (named_of r, so_far_of so_far.new)) result (migrate_fields (route depth) (so_far_of so_far.old) (path_of trail.now) (view value.now)) }
{
    let (from, to) = read_two(alloc, depth, so_far, trail, "from", "to", value)?;
    let start = read_start(alloc, trail, value)?;
    let interval = read_interval(alloc, trail, value)?;
    Ok(NamedRoute::Migrate {
        from,
        to,
        start,
        interval,
    })
}

/// The route under a key that has to be there.
#[tactic(auto, using(mcv_names::proofs::Faults::faults), unfolding(crate::specs::Walk::route_under))]
#[cycle(route)]
pub(crate) fn read_field(
    alloc: Global,
    depth: usize,
    so_far: &mut Progress,
    trail: &Trail<'_>,
    key: &str,
    value: &Value,
) -> Result<NamedRoute, ReadFault>
    ensures { Gives (λ r. (named_of r, so_far_of so_far.new)) result (route_under (route depth) (so_far_of so_far.old) (path_of trail.now) key.now (view value.now)) }
{
    let Some(route) = value.get(key) else {
        return Err(fault_at(alloc, FaultKind::WrongKind, trail));
    };
    let here = Trail::Key(&*trail, key);
    read_route(alloc, depth, so_far, &here, route)
}

/// The routes under two keys that have to be there, each in a box.
#[tactic(auto, using(mcv_names::proofs::Faults::faults), unfolding(crate::specs::Walk::two_under))]
#[cycle(route)]
fn read_two(
    alloc: Global,
    depth: usize,
    so_far: &mut Progress,
    trail: &Trail<'_>,
    first: &str,
    second: &str,
    value: &Value,
) -> Result<(Box<NamedRoute>, Box<NamedRoute>), ReadFault>
    ensures { Gives (λ t. ((named_of t.0.value, named_of t.1.value), so_far_of so_far.new)) result (two_under (route depth) (so_far_of so_far.old) (path_of trail.now) first.now second.now (view value.now)) }
{
    let one = read_field(alloc, depth, so_far, trail, first, value)?;
    let one = Box::new(alloc, one)?;
    let other = read_field(alloc, depth, so_far, trail, second, value)?;
    let other = Box::new(alloc, other)?;
    Ok((one, other))
}

// ---- pools

/// A pool with its hash and its shadows.
#[tactic(auto, using(mcv_names::proofs::Faults::faults), unfolding(crate::specs::Routes::pool_fields))]
#[cycle(route)]
fn read_pool_route(
    alloc: Global,
    depth: usize,
    so_far: &mut Progress,
    trail: &Trail<'_>,
    value: &Value,
) -> Result<NamedRoute, ReadFault>
    ensures { Gives (λ r. (named_of r, so_far_of so_far.new)) result (pool_fields (route depth) (so_far_of so_far.old) (path_of trail.now) (view value.now)) }
{
    let pool = read_pool_field(alloc, so_far, trail, value)?;
    let in_hash = Trail::Key(&*trail, "hash");
    let (func, salt) = read_hash(alloc, &in_hash, value.get("hash"))?;
    let in_shadows = Trail::Key(&*trail, "shadows");
    let list = items_or_none(alloc, &in_shadows, value.get("shadows"))?;
    let shadows = read_shadows(alloc, depth, so_far, &in_shadows, list)?;
    Ok(NamedRoute::Pool {
        pool,
        func,
        salt,
        shadows,
    })
}

/// The shadows of a list, each with what those before it left.
#[tactic(auto, using(mcv_names::proofs::Faults::faults), unfolding(mcv_names::specs::Lists::each))]
#[cycle(route)]
fn read_shadows(
    alloc: Global,
    depth: usize,
    so_far: &mut Progress,
    trail: &Trail<'_>,
    list: &[Value],
) -> Result<Vec<NamedShadow>, ReadFault>
    ensures { Gives (λ v. (map shadow_of v.items, so_far_of so_far.new)) result (each (shadow_read (route depth)) (so_far_of so_far.old) (path_of trail.now) 0 (map view list.now)) }
{
    let mut shadows = Vec::new(alloc);
    for (index, item) in list.iter().enumerate() {
        let here = Trail::Item(&*trail, index);
        shadows.push(read_shadow(alloc, depth, so_far, &here, item)?)?;
    }
    Ok(shadows)
}

#[tactic(auto, using(mcv_names::proofs::Faults::faults), unfolding(crate::specs::Shadows::shadow_read, crate::specs::Shadows::shadow_fields))]
#[cycle(route)]
fn read_shadow(
    alloc: Global,
    depth: usize,
    so_far: &mut Progress,
    trail: &Trail<'_>,
    value: &Value,
) -> Result<NamedShadow, ReadFault>
    ensures { Gives (λ s. (shadow_of s, so_far_of so_far.new)) result (shadow_read (route depth) (so_far_of so_far.old) (path_of trail.now) (view value.now)) }
{
    let Some(members) = value.as_object() else {
        return Err(fault_at(alloc, FaultKind::WrongKind, trail));
    };
    check_keys(alloc, trail, Object::Shadow, members)?;
    let (first, last) = read_range(alloc, trail, value)?;
    let target = read_field(alloc, depth, so_far, trail, "target", value)?;
    Ok(NamedShadow {
        first,
        last,
        target,
    })
}

// ---- children

#[tactic(auto, using(mcv_names::proofs::Faults::faults), unfolding(crate::specs::Routes::children_field))]
#[cycle(route)]
fn read_children(
    alloc: Global,
    depth: usize,
    so_far: &mut Progress,
    trail: &Trail<'_>,
    value: &Value,
) -> Result<Vec<NamedRoute>, ReadFault>
    ensures { Gives (λ v. (map named_of v.items, so_far_of so_far.new)) result (children_field depth (route depth) (so_far_of so_far.old) (path_of trail.now) (view value.now)) }
{
    let Some(children) = value.get("children") else {
        return Err(fault_at(alloc, FaultKind::WrongKind, trail));
    };
    let here = Trail::Key(&*trail, "children");
    if let Some(text) = children.as_str() {
        return text_children(alloc, depth, so_far, &here, text);
    }
    if let Some(list) = children.as_array() {
        let items = some_items(alloc, &here, list)?;
        return read_each(alloc, depth, so_far, &here, items);
    }
    let child = read_route(alloc, depth, so_far, &here, children)?;
    only(alloc, child)
}

/// The routes of a list, each with what those before it left.
#[tactic(auto, using(mcv_names::proofs::Faults::faults), unfolding(mcv_names::specs::Lists::each))]
#[cycle(route)]
fn read_each(
    alloc: Global,
    depth: usize,
    so_far: &mut Progress,
    trail: &Trail<'_>,
    list: &[Value],
) -> Result<Vec<NamedRoute>, ReadFault>
    ensures { Gives (λ v. (map named_of v.items, so_far_of so_far.new)) result (each (route depth) (so_far_of so_far.old) (path_of trail.now) 0 (map view list.now)) }
{
    let mut children = Vec::new(alloc);
    for (index, item) in list.iter().enumerate() {
        let here = Trail::Item(&*trail, index);
        children.push(read_route(alloc, depth, so_far, &here, item)?)?;
    }
    Ok(children)
}

// ---- selectors

/// The policies in byte order, and then the route for all else.
#[tactic(auto, using(mcv_names::proofs::Faults::faults), unfolding(crate::specs::Selectors::selector_fields))]
#[cycle(route)]
fn read_selector(
    alloc: Global,
    depth: usize,
    so_far: &mut Progress,
    trail: &Trail<'_>,
    selector: Selector,
    value: &Value,
) -> Result<NamedRoute, ReadFault>
    ensures { Gives (λ r. (named_of r, so_far_of so_far.new)) result (selector_fields selector (route depth) (so_far_of so_far.old) (path_of trail.now) (view value.now)) }
{
    let key = policies_key(selector);
    let in_policies = Trail::Key(&*trail, key);
    let listed = value.get(key);
    let policies = read_policies(alloc, depth, so_far, &in_policies, selector, listed)?;
    let key = default_key(selector);
    let in_default = Trail::Key(&*trail, key);
    let default = read_default(alloc, depth, so_far, &in_default, value.get(key))?;
    Ok(selecting(alloc, selector, policies, default)?)
}

/// The policies under a key, each under its name; none where there is no such key.
#[tactic(auto, using(mcv_names::proofs::Faults::faults))]
#[cycle(route)]
fn read_policies(
    alloc: Global,
    depth: usize,
    so_far: &mut Progress,
    trail: &Trail<'_>,
    selector: Selector,
    value: Option<&Value>,
) -> Result<Vec<NamedPrefix>, ReadFault>
    ensures { Gives (λ v. (map prefix_of v.items, so_far_of so_far.new)) result (policies_read selector (route depth) (so_far_of so_far.old) (path_of trail.now) (option_map (λ v. view v.now) value.entry)) }
{
    let Some(policies) = value else {
        return Ok(Vec::new(alloc));
    };
    let Some(members) = policies.as_object() else {
        return Err(fault_at(alloc, FaultKind::WrongKind, trail));
    };
    check_names(alloc, trail, selector, members)?;
    read_each_policy(alloc, depth, so_far, trail, members)
}

/// The policies of an object, each with what those before it left.
#[tactic(auto, using(mcv_names::proofs::Faults::faults), unfolding(mcv_names::specs::Lists::each_member, crate::specs::Selectors::policy_read))]
#[cycle(route)]
fn read_each_policy(
    alloc: Global,
    depth: usize,
    so_far: &mut Progress,
    trail: &Trail<'_>,
    members: &Map<String, Value>,
) -> Result<Vec<NamedPrefix>, ReadFault>
    ensures { Gives (λ v. (map prefix_of v.items, so_far_of so_far.new)) result (each_member (policy_read (route depth)) (so_far_of so_far.old) (path_of trail.now) (members_view members.now.entries)) }
{
    let mut policies = Vec::new(alloc);
    for (name, value) in members.iter() {
        let here = Trail::Key(&*trail, name.as_str());
        policies.push(read_policy(alloc, depth, so_far, &here, name.as_str(), value)?)?;
    }
    Ok(policies)
}

#[tactic(auto, using(mcv_names::proofs::Faults::faults), unfolding(crate::specs::Selectors::policy_read))]
#[cycle(route)]
fn read_policy(
    alloc: Global,
    depth: usize,
    so_far: &mut Progress,
    trail: &Trail<'_>,
    name: &str,
    value: &Value,
) -> Result<NamedPrefix, ReadFault>
    ensures { Gives (λ p. (prefix_of p, so_far_of so_far.new)) result (policy_read (route depth) (so_far_of so_far.old) (path_of trail.now) name.now (view value.now)) }
{
    let prefix = Vec::from_slice(alloc, name.as_bytes())?;
    let route = read_route(alloc, depth, so_far, trail, value)?;
    Ok(NamedPrefix { prefix, route })
}

/// The route for all else; none where there is no such key.
#[tactic(auto, using(mcv_names::proofs::Faults::faults))]
#[cycle(route)]
fn read_default(
    alloc: Global,
    depth: usize,
    so_far: &mut Progress,
    trail: &Trail<'_>,
    value: Option<&Value>,
) -> Result<Option<Box<NamedRoute>>, ReadFault>
    ensures { Gives (λ o. (option_map (λ b. named_of b.value) o, so_far_of so_far.new)) result (default_read (route depth) (so_far_of so_far.old) (path_of trail.now) (option_map (λ v. view v.now) value.entry)) }
{
    let Some(default) = value else {
        return Ok(None);
    };
    let route = read_route(alloc, depth, so_far, trail, default)?;
    Ok(Some(Box::new(alloc, route)?))
}
