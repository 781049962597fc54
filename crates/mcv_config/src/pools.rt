//! The pools that a JSON value names, and their servers.

ghost use Rattle.std.specs.Prelude.{◌≡◌, ◌<◌, List, ℕ, [], length, map, option_map, IfOk, OnOk, bytes_eq, slice_index_or};
ghost use Rattle.serde_json.specs.Find.{as_str};
ghost use Rattle.serde_json.specs.View.{view, items_view, members_view};
ghost use Rattle.mcv_pools.specs.Table.{number_in, numbered, with_entry};
ghost use Rattle.mcv_names.specs.Fault.{Gives};
ghost use Rattle.mcv_names.specs.Lists.{each, each_member, items_list, member_names};
ghost use Rattle.mcv_names.specs.Path.{path_of};
ghost use Rattle.mcv_config.specs.ConfigValue.{pool_servers};
ghost use Rattle.mcv_config.specs.Pools.{listed_servers, name_read, no_pool, pool_named, pool_read, pools_read, server_read, servers_read};
ghost use Rattle.mcv_config.specs.View.{pools_of};

use crate::config::Pool;
use crate::name_table::NameTable;
use mcv_base::{ServerId, is_server};
use mcv_names::{FaultKind, Object, ReadFault, Trail, check_keys, fault_at, is_elsewhere};
use mcv_pools::{Servers, ServersFault};
use serde_json::{Map, Value};
use std::alloc::{AllocError, Global};

/// The most servers of one pool.
const SERVER_LIMIT: usize = 4_096;

/// The pools with their names; a pool's number is its place.
#[derive(Drop)]
pub struct NamedPools {
    pub names: NameTable,
    pub pools: Vec<Pool>,
}

impl NamedPools {
    /// The number of servers of a pool, 0 where there is no such pool.
    pub fn size(&self, pool: usize) -> usize
        ensures { result ≡ length (slice_index_or (pools_of self.now).servers pool []) }
    {
        match self.pools.get(pool) {
            Some(pool) => pool.servers.len(),
            None => 0,
        }
    }
}

/// The pools under the key `pools`; none where there is no such key.
#[tactic(auto, using(mcv_names::proofs::Faults::faults))]
pub(crate) fn read_pools(
    alloc: Global,
    servers: &mut Servers,
    trail: &Trail<'_>,
    value: Option<&Value>,
) -> Result<NamedPools, ReadFault>
    requires { servers.old ≡ [] }
    ensures { Gives (λ p. (pools_of p, servers.new)) result (pools_read (path_of trail.now) (option_map (λ v. view v.now) value.entry)) }
{
    let Some(pools) = value else {
        return Ok(NamedPools {
            names: NameTable::new(alloc),
            pools: Vec::new(alloc),
        });
    };
    let Some(members) = pools.as_object() else {
        return Err(fault_at(alloc, FaultKind::WrongKind, trail));
    };
    let pools = read_each_pool(alloc, servers, trail, members)?;
    let names = read_names(alloc, members)?;
    Ok(NamedPools { names, pools })
}

#[tactic(auto, using(mcv_names::proofs::Faults::faults), unfolding(mcv_names::specs::Lists::each_member))]
fn read_each_pool(
    alloc: Global,
    servers: &mut Servers,
    trail: &Trail<'_>,
    members: &Map<String, Value>,
) -> Result<Vec<Pool>, ReadFault>
    ensures { Gives (λ v. (map pool_servers v.items, servers.new)) result (each_member pool_read servers.old (path_of trail.now) (members_view members.now.entries)) }
{
    let mut pools = Vec::new(alloc);
    for (name, value) in members.iter() {
        let here = Trail::Key(trail, name.as_str());
        pools.push(read_pool(alloc, servers, &here, name.as_str(), value)?)?;
    }
    Ok(pools)
}

/// The names of an object's members.
fn read_names(alloc: Global, members: &Map<String, Value>) -> Result<NameTable, AllocError>
    ensures { IfOk result (λ names. names ≡ numbered bytes_eq (member_names (members_view members.now.entries))) }
{
    let mut names = NameTable::new(alloc);
    for (name, _) in members.iter() {
        names.insert(name.as_str())?;
    }
    Ok(names)
}

#[tactic(auto, using(mcv_names::proofs::Faults::faults), unfolding(crate::specs::Pools::pool_read))]
pub(crate) fn read_pool(
    alloc: Global,
    servers: &mut Servers,
    trail: &Trail<'_>,
    name: &str,
    value: &Value,
) -> Result<Pool, ReadFault>
    ensures { Gives (λ p. (pool_servers p, servers.new)) result (pool_read servers.old (path_of trail.now) name.now (view value.now)) }
{
    let Some(members) = value.as_object() else {
        return Err(fault_at(alloc, no_pool(value), trail));
    };
    check_keys(alloc, trail, Object::Pool, members)?;
    let in_name = Trail::Key(trail, "name");
    check_name(alloc, &in_name, value.get("name"))?;
    let servers = read_servers(alloc, servers, trail, value)?;
    Ok(Pool { servers })
}

/// What is wrong with a value that is no object where a pool is wanted.
fn no_pool(value: &Value) -> FaultKind
    ensures { result ≡ no_pool (as_str (view value.now)) }
{
    let Some(text) = value.as_str() else {
        return FaultKind::WrongKind;
    };
    if is_elsewhere(text) {
        FaultKind::LeftOut
    } else {
        FaultKind::WrongKind
    }
}

/// A pool's name, where there is one, is a text. It isn't used.
#[tactic(auto, using(mcv_names::proofs::Faults::faults))]
fn check_name(alloc: Global, trail: &Trail<'_>, value: Option<&Value>) -> Result<(), ReadFault>
    ensures { Gives (λ _. tt) result (name_read (path_of trail.now) (option_map (λ v. view v.now) value.entry)) }
{
    let Some(name) = value else {
        return Ok(());
    };
    match name.as_str() {
        Some(_) => Ok(()),
        None => Err(fault_at(alloc, FaultKind::WrongKind, trail)),
    }
}

#[tactic(auto, using(mcv_names::proofs::Faults::faults), unfolding(crate::specs::Pools::servers_read))]
fn read_servers(
    alloc: Global,
    servers: &mut Servers,
    trail: &Trail<'_>,
    value: &Value,
) -> Result<Vec<ServerId>, ReadFault>
    ensures { Gives (λ v. (map (λ s. s.0) v.items, servers.new)) result (servers_read servers.old (path_of trail.now) (view value.now)) }
{
    let Some(listed) = value.get("servers") else {
        return Err(fault_at(alloc, FaultKind::WrongKind, trail));
    };
    let here = Trail::Key(trail, "servers");
    match listed.as_array() {
        Some(list) => read_server_list(alloc, servers, &here, list),
        None => Err(fault_at(alloc, FaultKind::WrongKind, &here)),
    }
}

#[tactic(auto, using(mcv_names::proofs::Faults::faults, crate::proofs::Lists::server_lists))]
fn read_server_list(
    alloc: Global,
    servers: &mut Servers,
    trail: &Trail<'_>,
    list: &Vec<Value>,
) -> Result<Vec<ServerId>, ReadFault>
    ensures { Gives (λ v. (map (λ s. s.0) v.items, servers.new)) result (listed_servers servers.old (path_of trail.now) (items_list (items_view list.now.items))) }
{
    if list.is_empty() {
        return Err(fault_at(alloc, FaultKind::Empty, trail));
    }
    if list.len() > SERVER_LIMIT {
        return Err(fault_at(alloc, FaultKind::Limit, trail));
    }
    read_each_server(alloc, servers, trail, list)
}

#[tactic(auto, using(mcv_names::proofs::Faults::faults), unfolding(mcv_names::specs::Lists::each))]
fn read_each_server(
    alloc: Global,
    servers: &mut Servers,
    trail: &Trail<'_>,
    list: &[Value],
) -> Result<Vec<ServerId>, ReadFault>
    ensures { Gives (λ v. (map (λ s. s.0) v.items, servers.new)) result (each (server_read (path_of trail.now)) servers.old (path_of trail.now) 0 (map view list.now)) }
{
    let mut ids = Vec::new(alloc);
    for (index, item) in list.iter().enumerate() {
        let here = Trail::Item(trail, index);
        ids.push(read_server(alloc, servers, trail, &here, item)?)?;
    }
    Ok(ids)
}

/// The number of a server of the list to which the first trail leads.
#[tactic(auto, using(mcv_names::proofs::Faults::faults), unfolding(crate::specs::Pools::server_read))]
fn read_server(
    alloc: Global,
    servers: &mut Servers,
    list: &Trail<'_>,
    trail: &Trail<'_>,
    value: &Value,
) -> Result<ServerId, ReadFault>
    ensures { Gives (λ id. (id.0, servers.new)) result (server_read (path_of list.now) servers.old (path_of trail.now) (view value.now)) }
{
    let Some(text) = value.as_str() else {
        return Err(fault_at(alloc, FaultKind::WrongKind, trail));
    };
    if !is_server(text.as_bytes()) {
        return Err(fault_at(alloc, FaultKind::BadServer, trail));
    }
    match servers.insert(text) {
        Ok(id) => Ok(id),
        Err(ServersFault::Full) => Err(fault_at(alloc, FaultKind::Limit, list)),
        Err(ServersFault::Memory) => Err(ReadFault::Memory),
    }
}

/// The number of the pool with this name.
#[tactic(auto, using(mcv_names::proofs::Faults::faults), unfolding(crate::specs::Pools::pool_named))]
pub(crate) fn pool_named(
    alloc: Global,
    pools: &NamedPools,
    trail: &Trail<'_>,
    name: &str,
) -> Result<usize, ReadFault>
    ensures { Gives (λ i. i) result (pool_named (pools_of pools.now) (path_of trail.now) name.now) }
{
    if is_elsewhere(name) {
        return Err(fault_at(alloc, FaultKind::LeftOut, trail));
    }
    match pools.names.find(name) {
        Some(number) => Ok(number),
        None => Err(fault_at(alloc, FaultKind::UnknownPool, trail)),
    }
}
