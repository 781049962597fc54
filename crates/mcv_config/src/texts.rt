//! The handles that a text names.

ghost use Rattle.std.specs.Prelude.{◌≡◌, ◌<◌, length, map, option_map};
ghost use Rattle.mcv_names.specs.Fault.{Gives};
ghost use Rattle.mcv_names.specs.Path.{path_of};
ghost use Rattle.mcv_config.specs.ConfigValue.{named_of};
ghost use Rattle.mcv_config.specs.Routes.{IsOnly, cut, plain_pool, route, servers, text_children, text_route};
ghost use Rattle.mcv_config.specs.View.{so_far_of};

use crate::config::NamedRoute;
use crate::pools::pool_named;
use crate::progress::Progress;
use mcv_names::{FaultKind, Handle, ReadFault, Trail, fault_at, handle_named, is_elsewhere};
use mcv_pools::HashFunc;
use std::alloc::Global;

/// The handle that a text names, with this many levels left for those below it.
#[tactic(auto, using(mcv_names::proofs::Faults::faults), unfolding(crate::specs::Routes::text_route))]
#[cycle(text)]
pub(crate) fn read_text(
    alloc: Global,
    depth: usize,
    so_far: &mut Progress,
    trail: &Trail<'_>,
    text: &str,
) -> Result<NamedRoute, ReadFault>
    ensures { Gives (λ r. (named_of r, so_far_of so_far.new)) result (text_route depth (route depth) (so_far_of so_far.old) (path_of trail.now) text.now) }
{
    if is_elsewhere(text) {
        return Err(fault_at(alloc, FaultKind::LeftOut, trail));
    }
    let Some((name, rest)) = cut(text) else {
        return match handle_named(text) {
            Ok(Handle::Null) => Ok(NamedRoute::Null),
            Ok(Handle::Error) => Ok(NamedRoute::Error),
            Ok(_) => Err(fault_at(alloc, FaultKind::WrongKind, trail)),
            Err(kind) => Err(fault_at(alloc, kind, trail)),
        };
    };
    match handle_named(name) {
        Ok(Handle::Pool) => {
            let pool = pool_named(alloc, &so_far.pools, trail, rest)?;
            Ok(plain_pool(alloc, pool))
        }
        Ok(Handle::Error) => Ok(NamedRoute::Error),
        Ok(Handle::Many(kind)) => {
            let children = text_children(alloc, depth, so_far, trail, rest)?;
            Ok(NamedRoute::Many(kind, children))
        }
        Ok(_) => Err(fault_at(alloc, FaultKind::WrongKind, trail)),
        Err(kind) => Err(fault_at(alloc, kind, trail)),
    }
}

/// A pool under no other hash, without shadows.
fn plain_pool(alloc: Global, pool: usize) -> NamedRoute
    ensures { named_of result ≡ plain_pool pool }
{
    NamedRoute::Pool {
        pool,
        func: HashFunc::Ch3,
        salt: Vec::new(alloc),
        shadows: Vec::new(alloc),
    }
}

/// The children that a text names: a pool's servers, or one route.
#[tactic(auto, using(mcv_names::proofs::Faults::faults, crate::proofs::Levels::levels), unfolding(crate::specs::Routes::text_children))]
#[cycle(text)]
pub(crate) fn text_children(
    alloc: Global,
    depth: usize,
    so_far: &mut Progress,
    trail: &Trail<'_>,
    text: &str,
) -> Result<Vec<NamedRoute>, ReadFault>
    ensures { Gives (λ v. (map named_of v.items, so_far_of so_far.new)) result (text_children depth (route depth) (so_far_of so_far.old) (path_of trail.now) text.now) }
{
    if let Some(name) = text.strip_prefix("Pool|") {
        let pool = pool_named(alloc, &so_far.pools, trail, name)?;
        return servers_of(alloc, depth, so_far, trail, pool);
    }
    if depth == 0 || so_far.room == 0 {
        return Err(fault_at(alloc, FaultKind::Limit, trail));
    }
    so_far.room -= 1;
    let child = read_text(alloc, depth - 1, so_far, trail, text)?;
    only(alloc, child)
}

/// What comes before the first bar, and what follows it.
#[tactic(auto, unfolding(crate::specs::Routes::cut))]
fn cut(text: &str) -> Option<(&str, &str)>
    ensures { option_map (λ x. (x.0.now, x.1.now)) result ≡ cut text.now }
{
    text.split_once('|')
}

/// The servers of a pool, each as a pool of its own.
#[tactic(auto, using(mcv_names::proofs::Faults::faults), unfolding(crate::specs::Routes::servers))]
fn servers_of(
    alloc: Global,
    depth: usize,
    so_far: &mut Progress,
    trail: &Trail<'_>,
    pool: usize,
) -> Result<Vec<NamedRoute>, ReadFault>
    ensures { Gives (λ v. (map named_of v.items, so_far_of so_far.new)) result (servers depth (so_far_of so_far.old) (path_of trail.now) pool) }
{
    let count = so_far.pools.size(pool);
    if depth == 0 || so_far.room < count {
        return Err(fault_at(alloc, FaultKind::Limit, trail));
    }
    let mut children = Vec::new(alloc);
    for index in 0..count {
        children.push(NamedRoute::Server { pool, index })?;
    }
    so_far.room -= count;
    Ok(children)
}

/// One child.
pub(crate) fn only(alloc: Global, child: NamedRoute) -> Result<Vec<NamedRoute>, ReadFault>
    ensures { IsOnly child result }
{
    let mut children = Vec::new(alloc);
    children.push(child)?;
    Ok(children)
}
