//! The configuration that a text names.

ghost use Rattle.std.specs.Prelude.{◌≡◌, IfOk, IfErr};
ghost use Rattle.serde_json.specs.View.{view};
ghost use Rattle.mcv_names.specs.declared.fault.ReadFault.TheVariants.{Memory};
ghost use Rattle.mcv_names.specs.Fault.{Gives, Refuses};
ghost use Rattle.mcv_names.specs.Path.{path_of};
ghost use Rattle.mcv_config.specs.Config.{Faulty, FaultyAsJson, Names, NamesAsJson, config_read, root};
ghost use Rattle.mcv_config.specs.Limits.{IsWithinLimits};
ghost use Rattle.mcv_config.specs.ConfigValue.{IsSound, ConfigValue, config_value};

use crate::config::{Config, ConfigParts};
use crate::entries::read_routing;
use crate::pools::{NamedPools, read_pools};
use crate::progress::Progress;
use mcv_comments::{CommentFault, strip_comments};
use mcv_names::{FaultKind, Object, ReadFault, Trail, check_keys, fault_at};
use mcv_pools::Servers;
use serde_json::Value;
use std::alloc::Global;

/// The most bytes of a configuration, its comments among them.
pub const SIZE_LIMIT: usize = 16_777_216;

/// The most handles of all routes together.
const NODE_LIMIT: usize = 4_096;

/// The configuration that a text names, which may have comments. A text has at most 16,777,216 bytes with them.
pub fn read_config(alloc: Global, text: &[u8]) -> Result<Config, ReadFault>
    // What is read is what the text names.
    ensures named { IfOk result (λ config. Names text.now config) }
    // Where the text names a configuration, it is read, unless memory runs out.
    ensures only { (config : ConfigValue) → Names text.now config → IfErr result (λ e. e ≡ Memory) }
    // A fault is one of the text.
    ensures faulty { IfErr result (λ e. Refuses e (Faulty text.now)) }
    // Every number in it names something, and nothing is empty.
    ensures sound { IfOk result IsSound }
    // It is no larger than the limits.
    ensures limits { IfOk result IsWithinLimits }
{
    if text.len() > SIZE_LIMIT {
        return Err(fault_at(alloc, FaultKind::Limit, &Trail::Root));
    }
    match strip_comments(alloc, text) {
        Ok(json) => read_json(alloc, json.as_slice()),
        Err(CommentFault::Open) => Err(fault_at(alloc, FaultKind::NotJson, &Trail::Root)),
        Err(CommentFault::Memory) => Err(ReadFault::Memory),
    }
}

/// The configuration that a text without comments names.
fn read_json(alloc: Global, json: &[u8]) -> Result<Config, ReadFault>
    ensures named { IfOk result (λ config. NamesAsJson json.now config) }
    ensures only { (config : ConfigValue) → NamesAsJson json.now config → IfErr result (λ e. e ≡ Memory) }
    ensures faulty { IfErr result (λ e. Refuses e (FaultyAsJson json.now)) }
    ensures sound { IfOk result IsSound }
    ensures limits { IfOk result IsWithinLimits }
{
    match Value::from_slice(alloc, json) {
        Ok(value) => {
            let parts = read_root(alloc, &Trail::Root, &value)?;
            Ok(Config { parts })
        }
        Err(e) => {
            if e.is_memory() {
                return Err(ReadFault::Memory);
            }
            Err(fault_at(alloc, FaultKind::NotJson, &Trail::Root))
        }
    }
}

#[tactic(auto, using(mcv_names::proofs::Faults::faults), unfolding(crate::specs::Config::root))]
fn read_root(alloc: Global, trail: &Trail<'_>, value: &Value) -> Result<ConfigParts, ReadFault>
    ensures { Gives config_value result (root (path_of trail.now) (view value.now)) }
{
    let Some(members) = value.as_object() else {
        return Err(fault_at(alloc, FaultKind::WrongKind, trail));
    };
    check_keys(alloc, trail, Object::Root, members)?;
    read_config_parts(alloc, trail, value)
}

/// The pools, and then the routes.
#[tactic(auto, using(mcv_names::proofs::Faults::faults), unfolding(crate::specs::Config::config_read))]
fn read_config_parts(
    alloc: Global,
    trail: &Trail<'_>,
    value: &Value,
) -> Result<ConfigParts, ReadFault>
    ensures { Gives config_value result (config_read (path_of trail.now) (view value.now)) }
{
    let in_pools = Trail::Key(trail, "pools");
    let mut servers = Servers::new(alloc);
    let pools = read_pools(alloc, &mut servers, &in_pools, value.get("pools"))?;
    let mut so_far = Progress {
        room: NODE_LIMIT,
        pools,
        servers,
    };
    let entries = read_routing(alloc, &mut so_far, trail, value)?;
    let Progress {
        room: _,
        pools,
        servers,
    } = so_far;
    let NamedPools { names: _, pools } = pools;
    Ok(ConfigParts {
        servers,
        pools,
        entries,
    })
}
