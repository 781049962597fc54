//! The routing prefixes that select a route.
//!
//! `is_alias` is the test that the reader makes; `alias_law` says in other words which texts pass it.

ghost use Rattle.std.specs.Prelude.{◌≡◌, ◌↔◌, ◌≤◌, ℕ, List, IsTrue, length, map};
ghost use Rattle.serde_json.specs.View.{view};
ghost use Rattle.mcv_names.specs.Fault.{Gives};
ghost use Rattle.mcv_names.specs.Lists.{each};
ghost use Rattle.mcv_names.specs.Path.{path_of};
ghost use Rattle.mcv_config.specs.Aliases.{IsAlias, alias_fault, alias_read, aliases_field, is_alias, is_no_rest};

use crate::name_table::NameTable;
use mcv_base::{KeyFault, Prefix, split_key};
use mcv_names::{FaultKind, ReadFault, Trail, fault_at, some_items};
use serde_json::Value;
use std::alloc::Global;

/// The most bytes of an alias.
const ALIAS_LIMIT: usize = 40;

/// The texts that pass are the routing prefixes of key bytes.
pub fn alias_law()
    ensures { (text : List ℕ) → IsTrue (is_alias text) ↔ IsAlias text }
{}

/// Whether a word is no key because nothing follows its routing prefix.
fn is_no_rest(fault: KeyFault) -> bool
    ensures { result ≡ is_no_rest fault }
{
    matches!(fault, KeyFault::NoRest)
}

/// Whether a text is a routing prefix, and so no key word by itself.
fn is_alias(text: &[u8]) -> bool
    requires { length text.now ≤ 40 }
    ensures { result ≡ is_alias text.now }
{
    match split_key(text) {
        Ok((_, rest)) => rest.as_bytes().is_empty(),
        Err(fault) => is_no_rest(fault),
    }
}

/// The fault of an alias behind those that come before it in the file, if it has one.
#[tactic(auto, unfolding(crate::specs::Aliases::alias_fault))]
fn alias_fault(seen: &NameTable, text: &str) -> Option<FaultKind>
    ensures { result ≡ alias_fault seen.now text.now }
{
    let bytes = text.as_bytes();
    if bytes.len() > ALIAS_LIMIT {
        return Some(FaultKind::Limit);
    }
    if !is_alias(bytes) {
        return Some(FaultKind::WrongKind);
    }
    if bytes.contains(&b'*') {
        return Some(FaultKind::LeftOut);
    }
    match seen.find(text) {
        Some(_) => Some(FaultKind::AliasTwice),
        None => None,
    }
}

/// An alias, which goes behind those seen.
#[tactic(auto, using(mcv_names::proofs::Faults::faults, crate::proofs::SoundAliases::aliases), unfolding(crate::specs::Aliases::alias_read))]
fn read_alias(
    alloc: Global,
    seen: &mut NameTable,
    trail: &Trail<'_>,
    value: &Value,
) -> Result<Prefix, ReadFault>
    ensures { Gives (λ alias. (alias, seen.new)) result (alias_read seen.old (path_of trail.now) (view value.now)) }
{
    let Some(text) = value.as_str() else {
        return Err(fault_at(alloc, FaultKind::WrongKind, trail));
    };
    if let Some(kind) = alias_fault(seen, text) {
        return Err(fault_at(alloc, kind, trail));
    }
    seen.insert(text)?;
    Ok(Prefix::of(text.as_bytes()))
}

#[tactic(auto, using(mcv_names::proofs::Faults::faults), unfolding(mcv_names::specs::Lists::each))]
fn read_each_alias(
    alloc: Global,
    seen: &mut NameTable,
    trail: &Trail<'_>,
    list: &[Value],
) -> Result<Vec<Prefix>, ReadFault>
    ensures { Gives (λ v. (v.items, seen.new)) result (each alias_read seen.old (path_of trail.now) 0 (map view list.now)) }
{
    let mut aliases = Vec::new(alloc);
    for (index, item) in list.iter().enumerate() {
        let here = Trail::Item(trail, index);
        aliases.push(read_alias(alloc, seen, &here, item)?)?;
    }
    Ok(aliases)
}

/// The aliases of a route, which have to be there.
#[tactic(auto, using(mcv_names::proofs::Faults::faults), unfolding(crate::specs::Aliases::aliases_field))]
pub(crate) fn read_aliases(
    alloc: Global,
    seen: &mut NameTable,
    trail: &Trail<'_>,
    value: &Value,
) -> Result<Vec<Prefix>, ReadFault>
    ensures { Gives (λ v. (v.items, seen.new)) result (aliases_field seen.old (path_of trail.now) (view value.now)) }
{
    let Some(aliases) = value.get("aliases") else {
        return Err(fault_at(alloc, FaultKind::WrongKind, trail));
    };
    let here = Trail::Key(trail, "aliases");
    let Some(list) = aliases.as_array() else {
        return Err(fault_at(alloc, FaultKind::WrongKind, &here));
    };
    let items = some_items(alloc, &here, list)?;
    read_each_alias(alloc, seen, &here, items)
}
