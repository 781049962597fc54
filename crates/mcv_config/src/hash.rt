//! The hash of a PoolRoute: a function by its name, and a salt.

ghost use Rattle.std.specs.Prelude.{◌≡◌, option_map};
ghost use Rattle.serde_json.specs.View.{view};
ghost use Rattle.mcv_names.specs.Fault.{Gives};
ghost use Rattle.mcv_config.specs.Hash.{func_field, func_named, func_read, hash_fields, hash_read, salt_field};
ghost use Rattle.mcv_names.specs.Path.{path_of};

use mcv_names::{FaultKind, Object, ReadFault, Trail, check_keys, fault_at};
use mcv_pools::HashFunc;
use serde_json::Value;
use std::alloc::Global;

/// The most bytes of a salt.
const SALT_LIMIT: usize = 200;

/// The function and the salt under the key `hash`; Ch3 without a salt where there is no such key.
#[tactic(auto, using(mcv_names::proofs::Faults::faults))]
pub(crate) fn read_hash(
    alloc: Global,
    trail: &Trail<'_>,
    value: Option<&Value>,
) -> Result<(HashFunc, Vec<u8>), ReadFault>
    ensures { Gives (λ hash. (hash.0, hash.1.items)) result (hash_read (path_of trail.now) (option_map (λ v. view v.now) value.entry)) }
{
    let Some(hash) = value else {
        return Ok((HashFunc::Ch3, Vec::new(alloc)));
    };
    if let Some(name) = hash.as_str() {
        return Ok((read_func(alloc, trail, name)?, Vec::new(alloc)));
    }
    if let Some(members) = hash.as_object() {
        check_keys(alloc, trail, Object::Hash, members)?;
        return read_fields(alloc, trail, hash);
    }
    Err(fault_at(alloc, FaultKind::WrongKind, trail))
}

#[tactic(auto, using(mcv_names::proofs::Faults::faults), unfolding(crate::specs::Hash::hash_fields))]
fn read_fields(
    alloc: Global,
    trail: &Trail<'_>,
    value: &Value,
) -> Result<(HashFunc, Vec<u8>), ReadFault>
    ensures { Gives (λ hash. (hash.0, hash.1.items)) result (hash_fields (path_of trail.now) (view value.now)) }
{
    let in_func = Trail::Key(trail, "hash_func");
    let func = read_func_field(alloc, &in_func, value.get("hash_func"))?;
    let in_salt = Trail::Key(trail, "salt");
    let salt = read_salt(alloc, &in_salt, value.get("salt"))?;
    Ok((func, salt))
}

#[tactic(auto, using(mcv_names::proofs::Faults::faults))]
fn read_func_field(
    alloc: Global,
    trail: &Trail<'_>,
    value: Option<&Value>,
) -> Result<HashFunc, ReadFault>
    ensures { Gives (λ func. func) result (func_field (path_of trail.now) (option_map (λ v. view v.now) value.entry)) }
{
    let Some(func) = value else {
        return Ok(HashFunc::Ch3);
    };
    match func.as_str() {
        Some(name) => read_func(alloc, trail, name),
        None => Err(fault_at(alloc, FaultKind::WrongKind, trail)),
    }
}

#[tactic(auto, using(mcv_names::proofs::Faults::faults), unfolding(crate::specs::Hash::func_read))]
fn read_func(alloc: Global, trail: &Trail<'_>, name: &str) -> Result<HashFunc, ReadFault>
    ensures { Gives (λ func. func) result (func_read (path_of trail.now) name.now) }
{
    match func_named(name) {
        Some(func) => Ok(func),
        None => Err(fault_at(alloc, FaultKind::LeftOut, trail)),
    }
}

#[tactic(auto, unfolding(crate::specs::Hash::func_named))]
fn func_named(name: &str) -> Option<HashFunc>
    ensures { result ≡ func_named name.now }
{
    match name {
        "Ch3" => Some(HashFunc::Ch3),
        "Crc32" => Some(HashFunc::Crc32),
        _ => None,
    }
}

#[tactic(auto, using(mcv_names::proofs::Faults::faults))]
fn read_salt(alloc: Global, trail: &Trail<'_>, value: Option<&Value>) -> Result<Vec<u8>, ReadFault>
    ensures { Gives (λ salt. salt.items) result (salt_field (path_of trail.now) (option_map (λ v. view v.now) value.entry)) }
{
    let Some(salt) = value else {
        return Ok(Vec::new(alloc));
    };
    let Some(text) = salt.as_str() else {
        return Err(fault_at(alloc, FaultKind::WrongKind, trail));
    };
    if text.len() > SALT_LIMIT {
        return Err(fault_at(alloc, FaultKind::Limit, trail));
    }
    Ok(Vec::from_slice(alloc, text.as_bytes())?)
}
