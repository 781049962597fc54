//! From what a configuration names to routes: each pool's list of servers is shared by its leaves, and each
//! leaf's symbol gets its number as the walk meets it.

ghost use Rattle.std.specs.Prelude.{◌≡◌, ◌<◌, [], ◌∷◌, length, map, IfOk};
ghost use Rattle.std.specs.List.{All};
ghost use Rattle.mcv_config.specs.ConfigValue.{IsSoundRoute, named_of, policy_of, pool_servers, prefix_of, shadow_of};
ghost use Rattle.mcv_pools.specs.declared.symbol.HashFunc.TheVariants.{Ch3};
ghost use Rattle.mcv_pools.specs.Symbol.{same_symbol};
ghost use Rattle.mcv_pools.specs.Table.{with_entry};
ghost use Rattle.mcv_route.specs.NamedRoutes.{pool_at, pool_named, server_at, symbol_of};
ghost use Rattle.mcv_route.specs.View.{last_view, operation_view, pool_view, prefix_view, shadow_view, view};
ghost use Rattle.mcv_route.specs.Walk.{IsBuilt, last_named, list_view};

use crate::tree::{Leaf, OperationPolicy, PrefixPolicy, Route, Shadow};
use mcv_base::ServerId;
use mcv_config::{NamedPolicy, NamedPrefix, NamedRoute, NamedShadow, Pool};
use mcv_pools::{HashFunc, Symbol, Symbols};
use std::alloc::{AllocError, Global};
use std::sync::Arc;

/// One list for each pool, which its leaves share.
pub fn shared_lists(alloc: Global, pools: Vec<Pool>) -> Result<Vec<Arc<Vec<ServerId>>>, AllocError>
    ensures { IfOk result (λ lists. map list_view lists.items ≡ map pool_servers pools.items) }
{
    let mut lists = Vec::with_capacity(alloc, pools.len())?;
    for pool in pools {
        lists.push(Arc::new(alloc, pool.servers)?)?;
    }
    Ok(lists)
}

/// The leaf of these servers under a hash function and its salt. Its symbol goes into the table.
fn leaf_of(
    func: HashFunc,
    salt: Vec<u8>,
    servers: Arc<Vec<ServerId>>,
    symbols: &mut Symbols,
) -> Result<Leaf, AllocError>
    requires { 0 < length (list_view servers) }
    ensures leaf { IfOk result (λ l. pool_view l ≡ pool_named symbols.new func salt.items (list_view servers)) }
    ensures table { IfOk result (λ _. symbols.new ≡ with_entry same_symbol symbols.old (symbol_of func salt.items (list_view servers))) }
{
    let Some(symbol) = Symbol::new(func, salt, servers.len()) else {
        unreachable!()
    };
    let symbol = symbols.insert(symbol)?;
    Ok(Leaf { symbol, servers })
}

/// The leaf of the pool of a number.
fn pool_leaf(
    alloc: Global,
    number: usize,
    func: HashFunc,
    salt: &[u8],
    lists: &[Arc<Vec<ServerId>>],
    symbols: &mut Symbols,
) -> Result<Leaf, AllocError>
    requires filled { All (λ servers. 0 < length servers) (map list_view lists.now) }
    requires inside { number < length lists.now }
    ensures leaf { IfOk result (λ l. pool_view l ≡ pool_named symbols.new func salt.now (pool_at (map list_view lists.now) number)) }
    ensures table { IfOk result (λ _. symbols.new ≡ with_entry same_symbol symbols.old (symbol_of func salt.now (pool_at (map list_view lists.now) number))) }
{
    let servers = Arc::try_clone(&lists[number])?;
    let salt = Vec::from_slice(alloc, salt)?;
    leaf_of(func, salt, servers, symbols)
}

/// The leaf of one server of a pool, by its index there.
fn server_leaf(
    alloc: Global,
    number: usize,
    index: usize,
    lists: &[Arc<Vec<ServerId>>],
    symbols: &mut Symbols,
) -> Result<Leaf, AllocError>
    requires inside { number < length lists.now }
    requires listed { index < length (pool_at (map list_view lists.now) number) }
    ensures leaf { IfOk result (λ l. pool_view l ≡ pool_named symbols.new Ch3 [] (server_at (map list_view lists.now) number index)) }
    ensures table { IfOk result (λ _. symbols.new ≡ with_entry same_symbol symbols.old (symbol_of Ch3 [] (server_at (map list_view lists.now) number index))) }
{
    let list = &lists[number];
    let mut servers = Vec::with_capacity(alloc, 1)?;
    servers.push(list[index])?;
    let servers = Arc::new(alloc, servers)?;
    let salt = Vec::new(alloc);
    leaf_of(HashFunc::Ch3, salt, servers, symbols)
}

/// The route that a handle names, over the pools' lists.
#[cycle(build)]
pub fn build_route(
    alloc: Global,
    route: &NamedRoute,
    lists: &[Arc<Vec<ServerId>>],
    symbols: &mut Symbols,
) -> Result<Route, AllocError>
    requires filled { All (λ servers. 0 < length servers) (map list_view lists.now) }
    requires sound { IsSoundRoute (map list_view lists.now) (named_of route.now) }
    ensures { IfOk result (λ r. IsBuilt (map list_view lists.now) symbols.old (named_of route.now ∷ []) symbols.new (view r ∷ [])) }
{
    match route {
        NamedRoute::Pool {
            pool,
            func,
            salt,
            shadows,
        } => {
            let leaf = pool_leaf(alloc, *pool, *func, salt, lists, symbols)?;
            let shadows = build_shadows(alloc, shadows, lists, symbols)?;
            Ok(Route::Pool { leaf, shadows })
        }
        NamedRoute::Server { pool, index } => {
            let leaf = server_leaf(alloc, *pool, *index, lists, symbols)?;
            let shadows = Vec::new(alloc);
            Ok(Route::Pool { leaf, shadows })
        }
        NamedRoute::Null => Ok(Route::Null),
        NamedRoute::Error => Ok(Route::Error),
        NamedRoute::Many(kind, children) => {
            let children = build_children(alloc, children, lists, symbols)?;
            Ok(Route::Many(*kind, children))
        }
        NamedRoute::WarmUp {
            cold,
            warm,
            exptime,
        } => {
            let cold = build_boxed(alloc, cold, lists, symbols)?;
            let warm = build_boxed(alloc, warm, lists, symbols)?;
            let exptime = *exptime;
            Ok(Route::WarmUp {
                cold,
                warm,
                exptime,
            })
        }
        NamedRoute::Migrate {
            from,
            to,
            start,
            interval,
        } => {
            let from = build_boxed(alloc, from, lists, symbols)?;
            let to = build_boxed(alloc, to, lists, symbols)?;
            let (start, interval) = (*start, *interval);
            Ok(Route::Migrate {
                from,
                to,
                start,
                interval,
            })
        }
        NamedRoute::PrefixSelector { policies, wildcard } => {
            let policies = build_prefixes(alloc, policies, lists, symbols)?;
            let wildcard = build_last(alloc, wildcard, lists, symbols)?;
            Ok(Route::PrefixSelector { policies, wildcard })
        }
        NamedRoute::OperationSelector {
            policies,
            default_policy,
        } => {
            let policies = build_policies(alloc, policies, lists, symbols)?;
            let default_policy = build_last(alloc, default_policy, lists, symbols)?;
            Ok(Route::OperationSelector {
                policies,
                default_policy,
            })
        }
    }
}

/// The route that a handle in a box names, in a box of its own.
#[cycle(build)]
fn build_boxed(
    alloc: Global,
    route: &Box<NamedRoute>,
    lists: &[Arc<Vec<ServerId>>],
    symbols: &mut Symbols,
) -> Result<Box<Route>, AllocError>
    requires filled { All (λ servers. 0 < length servers) (map list_view lists.now) }
    requires sound { IsSoundRoute (map list_view lists.now) (named_of route.now.value) }
    ensures { IfOk result (λ r. IsBuilt (map list_view lists.now) symbols.old (named_of route.now.value ∷ []) symbols.new (view r.value ∷ [])) }
{
    let route = build_route(alloc, route, lists, symbols)?;
    Ok(Box::new(alloc, route)?)
}

/// The routes that the children of a handle name.
#[cycle(build)]
fn build_children(
    alloc: Global,
    children: &[NamedRoute],
    lists: &[Arc<Vec<ServerId>>],
    symbols: &mut Symbols,
) -> Result<Vec<Route>, AllocError>
    requires filled { All (λ servers. 0 < length servers) (map list_view lists.now) }
    requires sound { All (IsSoundRoute (map list_view lists.now)) (map named_of children.now) }
    ensures { IfOk result (λ rs. IsBuilt (map list_view lists.now) symbols.old (map named_of children.now) symbols.new (map view rs.items)) }
{
    let mut routes = Vec::with_capacity(alloc, children.len())?;
    for child in children {
        routes.push(build_route(alloc, child, lists, symbols)?)?;
    }
    Ok(routes)
}

/// The shadows of a PoolRoute.
#[cycle(build)]
fn build_shadows(
    alloc: Global,
    shadows: &[NamedShadow],
    lists: &[Arc<Vec<ServerId>>],
    symbols: &mut Symbols,
) -> Result<Vec<Shadow>, AllocError>
    requires filled { All (λ servers. 0 < length servers) (map list_view lists.now) }
    requires sound { All (λ s. IsSoundRoute (map list_view lists.now) s.1) (map shadow_of shadows.now) }
    ensures ranges { IfOk result (λ ss. map (λ s. s.0) (map shadow_view ss.items) ≡ map (λ s. s.0) (map shadow_of shadows.now)) }
    ensures targets { IfOk result (λ ss. IsBuilt (map list_view lists.now) symbols.old (map (λ s. s.1) (map shadow_of shadows.now))
        symbols.new (map (λ s. s.1) (map shadow_view ss.items))) }
{
    let mut built = Vec::with_capacity(alloc, shadows.len())?;
    for shadow in shadows {
        let target = build_route(alloc, &shadow.target, lists, symbols)?;
        built.push(Shadow {
            first: shadow.first,
            last: shadow.last,
            target,
        })?;
    }
    Ok(built)
}

/// The policies of a PrefixSelectorRoute.
#[cycle(build)]
fn build_prefixes(
    alloc: Global,
    policies: &[NamedPrefix],
    lists: &[Arc<Vec<ServerId>>],
    symbols: &mut Symbols,
) -> Result<Vec<PrefixPolicy>, AllocError>
    requires filled { All (λ servers. 0 < length servers) (map list_view lists.now) }
    requires sound { All (λ p. IsSoundRoute (map list_view lists.now) p.1) (map prefix_of policies.now) }
    ensures prefixes { IfOk result (λ ps. map (λ p. p.0) (map prefix_view ps.items) ≡ map (λ p. p.0) (map prefix_of policies.now)) }
    ensures routes { IfOk result (λ ps. IsBuilt (map list_view lists.now) symbols.old (map (λ p. p.1) (map prefix_of policies.now))
        symbols.new (map (λ p. p.1) (map prefix_view ps.items))) }
{
    let mut built = Vec::with_capacity(alloc, policies.len())?;
    for policy in policies {
        let route = build_route(alloc, &policy.route, lists, symbols)?;
        let prefix = Vec::from_slice(alloc, policy.prefix.as_slice())?;
        built.push(PrefixPolicy { prefix, route })?;
    }
    Ok(built)
}

/// The policies of an OperationSelectorRoute.
#[cycle(build)]
fn build_policies(
    alloc: Global,
    policies: &[NamedPolicy],
    lists: &[Arc<Vec<ServerId>>],
    symbols: &mut Symbols,
) -> Result<Vec<OperationPolicy>, AllocError>
    requires filled { All (λ servers. 0 < length servers) (map list_view lists.now) }
    requires sound { All (λ p. IsSoundRoute (map list_view lists.now) p.1) (map policy_of policies.now) }
    ensures operations { IfOk result (λ ps. map (λ p. p.0) (map operation_view ps.items) ≡ map (λ p. p.0) (map policy_of policies.now)) }
    ensures routes { IfOk result (λ ps. IsBuilt (map list_view lists.now) symbols.old (map (λ p. p.1) (map policy_of policies.now))
        symbols.new (map (λ p. p.1) (map operation_view ps.items))) }
{
    let mut built = Vec::with_capacity(alloc, policies.len())?;
    for policy in policies {
        let route = build_route(alloc, &policy.route, lists, symbols)?;
        built.push(OperationPolicy {
            op: policy.op,
            route,
        })?;
    }
    Ok(built)
}

/// The route after all policies, where one is named.
#[cycle(build)]
fn build_last(
    alloc: Global,
    last: &Option<Box<NamedRoute>>,
    lists: &[Arc<Vec<ServerId>>],
    symbols: &mut Symbols,
) -> Result<Option<Box<Route>>, AllocError>
    requires filled { All (λ servers. 0 < length servers) (map list_view lists.now) }
    requires sound { All (IsSoundRoute (map list_view lists.now)) (last_named last.now) }
    ensures { IfOk result (λ r. IsBuilt (map list_view lists.now) symbols.old (last_named last.now) symbols.new (last_view r)) }
{
    match last {
        None => Ok(None),
        Some(route) => {
            let route = build_route(alloc, route, lists, symbols)?;
            Ok(Some(Box::new(alloc, route)?))
        }
    }
}
