//! What stands in the box of a handle.

ghost use Rattle.std.specs.Prelude.{◌≡◌, ◌++◌, IfOk, OnOk, map, take};
ghost use Rattle.std.specs.List.{flat_map};
ghost use Rattle.mcv_draw.specs.Label.{children_words, exptime_words, handle_name, keyed_words, label, many_name, migration_words, more_words, own_words, pool_words, server_words};
ghost use Rattle.mcv_route.specs.View.{pool_view, view};

use crate::children::child_count;
use mcv_base::{ServerId, push_number};
use mcv_pools::Servers;
use mcv_route::{Leaf, Many, Route};
use std::alloc::{AllocError, Global};

/// The most servers of a pool that are written.
const SERVERS_WRITTEN: usize = 4;

/// The most children of a handle that are drawn, but for those that a finding shows.
pub(crate) const CHILDREN_DRAWN: usize = 60;

/// What stands in the box of a handle.
pub(crate) fn label_of(
    alloc: Global,
    route: &Route,
    servers: &Servers,
) -> Result<Vec<u8>, AllocError>
    ensures { IfOk result (λ text. text.items ≡ label servers.now (view route.now)) }
{
    let mut text = Vec::from_slice(alloc, name_of(route))?;
    push_own(&mut text, route, servers)?;
    push_children(&mut text, child_count(route))?;
    Ok(text)
}

/// The name of a handle, as configurations have it.
#[tactic(auto, using(crate::proofs::Labels::named_pool, crate::proofs::Labels::named_null, crate::proofs::Labels::named_error, crate::proofs::Labels::named_many, crate::proofs::Labels::named_warm_up, crate::proofs::Labels::named_migrate, crate::proofs::Labels::named_prefix_selector, crate::proofs::Labels::named_operation_selector))]
fn name_of(route: &Route) -> &'static [u8]
    ensures { result.now ≡ handle_name (view route.now) }
{
    match route {
        Route::Pool { .. } => b"PoolRoute",
        Route::Null => b"NullRoute",
        Route::Error => b"ErrorRoute",
        Route::Many(kind, _) => many_name(*kind),
        Route::WarmUp { .. } => b"WarmUpRoute",
        Route::Migrate { .. } => b"MigrateRoute",
        Route::PrefixSelector { .. } => b"PrefixSelectorRoute",
        Route::OperationSelector { .. } => b"OperationSelectorRoute",
    }
}

fn many_name(kind: Many) -> &'static [u8]
    ensures { result.now ≡ many_name kind }
{
    match kind {
        Many::AllSync => b"AllSyncRoute",
        Many::AllInitial => b"AllInitialRoute",
        Many::AllAsync => b"AllAsyncRoute",
        Many::Failover => b"FailoverRoute",
        Many::MissFailover => b"MissFailoverRoute",
    }
}

/// Adds what a handle has beside its children: the servers of a PoolRoute, and times.
#[tactic(auto, using(crate::proofs::Labels::owned_pool, crate::proofs::Labels::owned_null, crate::proofs::Labels::owned_error, crate::proofs::Labels::owned_many, crate::proofs::Labels::owned_warm_up, crate::proofs::Labels::owned_migrate, crate::proofs::Labels::owned_prefix_selector, crate::proofs::Labels::owned_operation_selector))]
fn push_own(text: &mut Vec<u8>, route: &Route, servers: &Servers) -> Result<(), AllocError>
    ensures { OnOk result (text.new.items ≡ text.old.items ++ own_words servers.now (view route.now)) }
{
    match route {
        Route::Pool { leaf, shadows: _ } => push_pool(text, leaf, servers),
        Route::Null => Ok(()),
        Route::Error => Ok(()),
        Route::Many(_, _) => Ok(()),
        Route::WarmUp {
            cold: _,
            warm: _,
            exptime,
        } => push_exptime(text, *exptime),
        Route::Migrate {
            from: _,
            to: _,
            start,
            interval,
        } => push_migration(text, *start, *interval),
        Route::PrefixSelector { .. } => Ok(()),
        Route::OperationSelector { .. } => Ok(()),
    }
}

fn push_exptime(text: &mut Vec<u8>, exptime: u32) -> Result<(), AllocError>
    ensures { OnOk result (text.new.items ≡ text.old.items ++ exptime_words exptime) }
{
    push_keyed(text, b" exptime ", exptime)
}

fn push_migration(text: &mut Vec<u8>, start: u32, interval: u32) -> Result<(), AllocError>
    ensures { OnOk result (text.new.items ≡ text.old.items ++ migration_words start interval) }
{
    push_keyed(text, b" start_time ", start)?;
    push_keyed(text, b" interval ", interval)
}

/// Adds a key, and its number.
fn push_keyed(text: &mut Vec<u8>, key: &[u8], number: u32) -> Result<(), AllocError>
    ensures { OnOk result (text.new.items ≡ text.old.items ++ keyed_words key.now number) }
{
    text.extend_from_slice(key)?;
    push_number(text, number as usize)
}

// ---- servers

/// Adds the first servers of a leaf, and how many more there are.
fn push_pool(text: &mut Vec<u8>, leaf: &Leaf, servers: &Servers) -> Result<(), AllocError>
    ensures { OnOk result (text.new.items ≡ text.old.items ++ pool_words servers.now (pool_view leaf.now).servers) }
{
    let ids = leaf.servers.as_slice();
    push_first(text, ids, servers)?;
    push_more(text, ids.len())
}

/// Adds the first four servers.
#[tactic(auto, using(crate::proofs::Labels::first_four))]
fn push_first(text: &mut Vec<u8>, ids: &[ServerId], servers: &Servers) -> Result<(), AllocError>
    ensures { OnOk result (text.new.items ≡ text.old.items ++ flat_map (server_words servers.now) (take 4 (map (λ s. s.0) ids.now))) }
{
    let written = ids.len().min(SERVERS_WRITTEN);
    push_servers(text, &ids[..written], servers)
}

fn push_servers(text: &mut Vec<u8>, ids: &[ServerId], servers: &Servers) -> Result<(), AllocError>
    ensures { OnOk result (text.new.items ≡ text.old.items ++ flat_map (server_words servers.now) (map (λ s. s.0) ids.now)) }
{
    for id in ids {
        push_server(text, *id, servers)?;
    }
    Ok(())
}

fn push_server(text: &mut Vec<u8>, id: ServerId, servers: &Servers) -> Result<(), AllocError>
    ensures { OnOk result (text.new.items ≡ text.old.items ++ server_words servers.now id.0) }
{
    text.extend_from_slice(b" ")?;
    match servers.text(id) {
        Some(server) => text.extend_from_slice(server.as_bytes()),
        None => Ok(()),
    }
}

/// Adds how many servers there are behind the fourth.
fn push_more(text: &mut Vec<u8>, count: usize) -> Result<(), AllocError>
    ensures { OnOk result (text.new.items ≡ text.old.items ++ more_words count) }
{
    if count > SERVERS_WRITTEN {
        text.extend_from_slice(b" and ")?;
        push_number(text, count - SERVERS_WRITTEN)?;
        return text.extend_from_slice(b" more");
    }
    Ok(())
}

// ---- children

/// Adds how many children there are, where not all of them are drawn.
fn push_children(text: &mut Vec<u8>, count: usize) -> Result<(), AllocError>
    ensures { OnOk result (text.new.items ≡ text.old.items ++ children_words count) }
{
    if count > CHILDREN_DRAWN {
        text.extend_from_slice(b", first 60 of ")?;
        push_number(text, count)?;
        return text.extend_from_slice(b" children");
    }
    Ok(())
}
