//! The names of handles, keys and operations.

ghost use Rattle.std.specs.Prelude.{◌≡◌};
ghost use Rattle.serde_json.specs.View.{members_view, view};
ghost use Rattle.mcv_names.specs.Fault.{Gives};
ghost use Rattle.mcv_names.specs.Handles.{default_key, handle_named, is_elsewhere, is_listed, key_fault, keys, keys_read, left_out_handles, left_out_here, left_out_keys, name_fault, op_named, other_operations, policies_key, type_read};
ghost use Rattle.mcv_names.specs.Path.{path_of};

use crate::fault::{FaultKind, ReadFault};
use crate::handle::{Handle, Many, Object, Selector};
use crate::trail::{Trail, fault_at};
use mcv_base::Op;
use serde_json::{Map, Value};
use std::alloc::Global;

/// The most bytes of a policy's prefix.
const PREFIX_LIMIT: usize = 200;

/// The handle with this name, or why there is none.
#[tactic(auto, unfolding(crate::specs::Handles::handle_named))]
pub fn handle_named(name: &str) -> Result<Handle, FaultKind>
    ensures { result ≡ handle_named name.now }
{
    match name {
        "PoolRoute" => Ok(Handle::Pool),
        "NullRoute" => Ok(Handle::Null),
        "ErrorRoute" => Ok(Handle::Error),
        "AllSyncRoute" => Ok(Handle::Many(Many::AllSync)),
        "AllInitialRoute" => Ok(Handle::Many(Many::AllInitial)),
        "AllAsyncRoute" => Ok(Handle::Many(Many::AllAsync)),
        "FailoverRoute" => Ok(Handle::Many(Many::Failover)),
        "MissFailoverRoute" => Ok(Handle::Many(Many::MissFailover)),
        "WarmUpRoute" => Ok(Handle::WarmUp),
        "MigrateRoute" => Ok(Handle::Migrate),
        "PrefixSelectorRoute" => Ok(Handle::Selector(Selector::Prefix)),
        "OperationSelectorRoute" => Ok(Handle::Selector(Selector::Operation)),
        _ => {
            if is_left_out(name) {
                Err(FaultKind::LeftOut)
            } else {
                Err(FaultKind::UnknownHandle)
            }
        }
    }
}

/// The handle that the `type` of an object names.
#[tactic(auto, using(crate::proofs::Faults::faults), unfolding(crate::specs::Handles::type_read))]
pub fn read_type(alloc: Global, trail: &Trail<'_>, value: &Value) -> Result<Handle, ReadFault>
    ensures { Gives (λ handle. handle) result (type_read (path_of trail.now) (view value.now)) }
{
    let Some(name) = value.get("type") else {
        return Err(fault_at(alloc, FaultKind::WrongKind, trail));
    };
    let here = Trail::Key(trail, "type");
    let Some(text) = name.as_str() else {
        return Err(fault_at(alloc, FaultKind::WrongKind, &here));
    };
    match handle_named(text) {
        Ok(handle) => Ok(handle),
        Err(kind) => Err(fault_at(alloc, kind, &here)),
    }
}

fn is_left_out(name: &str) -> bool
    ensures { result ≡ is_listed name.now left_out_handles }
{
    matches!(
        name,
        "RandomRoute"
            | "LatestRoute"
            | "AllFastestRoute"
            | "AllMajorityRoute"
            | "FailoverWithExptimeRoute"
            | "HostIdRoute"
            | "ModifyKeyRoute"
            | "ModifyExptimeRoute"
            | "RateLimitRoute"
            | "OutstandingLimitRoute"
            | "LoggingRoute"
            | "DevNullRoute"
            | "HashRoute"
    )
}

fn is_left_out_key(key: &str) -> bool
    ensures { result ≡ is_listed key.now left_out_keys }
{
    matches!(
        key,
        "macros"
            | "named_handles"
            | "key_fraction_range"
            | "weights"
            | "rates"
            | "failover_errors"
            | "keep_routing_prefix"
    )
}

fn is_key(object: Object, key: &str) -> bool
    ensures { result ≡ is_listed key.now (keys object) }
{
    match object {
        Object::Root => matches!(key, "pools" | "route" | "routes"),
        Object::Entry => matches!(key, "aliases" | "route"),
        Object::Pool => matches!(key, "servers" | "name"),
        Object::Hash => matches!(key, "hash_func" | "salt"),
        Object::Shadow => matches!(key, "target" | "index_range"),
        Object::Handle(Handle::Pool) => matches!(key, "type" | "pool" | "hash" | "shadows"),
        Object::Handle(Handle::Null) => key == "type",
        Object::Handle(Handle::Error) => key == "type",
        Object::Handle(Handle::Many(_)) => matches!(key, "type" | "children"),
        Object::Handle(Handle::WarmUp) => matches!(key, "type" | "cold" | "warm" | "exptime"),
        Object::Handle(Handle::Migrate) => {
            matches!(key, "type" | "from" | "to" | "start_time" | "interval")
        }
        Object::Handle(Handle::Selector(Selector::Prefix)) => {
            matches!(key, "type" | "policies" | "wildcard")
        }
        Object::Handle(Handle::Selector(Selector::Operation)) => {
            matches!(key, "type" | "operation_policies" | "default_policy")
        }
    }
}

/// The key of a selector's policies.
pub fn policies_key(selector: Selector) -> &'static str
    ensures { result.now ≡ policies_key selector }
{
    match selector {
        Selector::Prefix => "policies",
        Selector::Operation => "operation_policies",
    }
}

/// The key of the route for all that no policy of a selector takes.
pub fn default_key(selector: Selector) -> &'static str
    ensures { result.now ≡ default_key selector }
{
    match selector {
        Selector::Prefix => "wildcard",
        Selector::Operation => "default_policy",
    }
}

fn is_left_out_here(object: Object, key: &str) -> bool
    ensures { result ≡ is_listed key.now (left_out_here object) }
{
    match object {
        Object::Root | Object::Entry | Object::Pool | Object::Hash | Object::Shadow => false,
        Object::Handle(_) => key == "name",
    }
}

#[tactic(auto, unfolding(crate::specs::Handles::key_fault))]
fn key_fault(object: Object, key: &str) -> Option<FaultKind>
    ensures { result ≡ key_fault object key.now }
{
    if is_left_out_key(key) {
        return Some(FaultKind::LeftOut);
    }
    if is_key(object, key) {
        return None;
    }
    if is_left_out_here(object, key) {
        return Some(FaultKind::LeftOut);
    }
    Some(FaultKind::UnknownKey)
}

/// Each key is one that the object has.
#[tactic(auto, using(crate::proofs::Faults::faults), unfolding(crate::specs::Handles::keys_read))]
pub fn check_keys(
    alloc: Global,
    trail: &Trail<'_>,
    object: Object,
    members: &Map<String, Value>,
) -> Result<(), ReadFault>
    ensures { Gives (λ _. tt) result (keys_read (key_fault object) (path_of trail.now) (members_view members.now.entries)) }
{
    for (key, _) in members.iter() {
        if let Some(kind) = key_fault(object, key.as_str()) {
            return Err(fault_at(alloc, kind, &Trail::Key(trail, key.as_str())));
        }
    }
    Ok(())
}

/// The operation with this name, if a request has it.
pub fn op_named(name: &[u8]) -> Option<Op>
    ensures { result ≡ op_named name.now }
{
    Op::named(name)
}

fn is_other_operation(name: &str) -> bool
    ensures { result ≡ is_listed name.now other_operations }
{
    matches!(name, "lease-get" | "lease-set" | "metaget")
}

#[tactic(auto, unfolding(crate::specs::Handles::name_fault))]
fn name_fault(selector: Selector, name: &str) -> Option<FaultKind>
    ensures { result ≡ name_fault selector name.now }
{
    match selector {
        Selector::Prefix => {
            if name.len() > PREFIX_LIMIT {
                Some(FaultKind::Limit)
            } else {
                None
            }
        }
        Selector::Operation => match op_named(name.as_bytes()) {
            Some(_) => None,
            None => {
                if is_other_operation(name) {
                    None
                } else {
                    Some(FaultKind::UnknownKey)
                }
            }
        },
    }
}

/// Each name is one that a policy of the selector may have.
#[tactic(auto, using(crate::proofs::Faults::faults), unfolding(crate::specs::Handles::keys_read))]
pub fn check_names(
    alloc: Global,
    trail: &Trail<'_>,
    selector: Selector,
    members: &Map<String, Value>,
) -> Result<(), ReadFault>
    ensures { Gives (λ _. tt) result (keys_read (name_fault selector) (path_of trail.now) (members_view members.now.entries)) }
{
    for (name, _) in members.iter() {
        if let Some(kind) = name_fault(selector, name.as_str()) {
            return Err(fault_at(alloc, kind, &Trail::Key(trail, name.as_str())));
        }
    }
    Ok(())
}

/// Whether a text is an import or a macro.
#[tactic(auto, unfolding(crate::specs::Handles::is_elsewhere))]
pub fn is_elsewhere(text: &str) -> bool
    ensures { result ≡ is_elsewhere text.now }
{
    matches!(text.as_bytes().first(), Some(b'@' | b'%'))
}
