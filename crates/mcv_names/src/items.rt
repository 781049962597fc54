//! The items of a list in a JSON value.

ghost use Rattle.std.specs.Prelude.{map, option_map};
ghost use Rattle.serde_json.specs.View.{view, items_view};
ghost use Rattle.mcv_names.specs.Fault.{Gives};
ghost use Rattle.mcv_names.specs.Lists.{items_list, items_or_none, some_items};
ghost use Rattle.mcv_names.specs.Path.{path_of};

use crate::fault::{FaultKind, ReadFault};
use crate::trail::{Trail, fault_at};
use serde_json::Value;
use std::alloc::Global;

/// The items under a key; none where there is no such key.
#[tactic(auto, using(crate::proofs::Faults::faults, crate::proofs::Arrays::items))]
pub fn items_or_none<'a>(
    alloc: Global,
    trail: &Trail<'_>,
    value: Option<&'a Value>,
) -> Result<&'a [Value], ReadFault>
    ensures { Gives (λ items. map view items.now) result (items_or_none (path_of trail.now) (option_map (λ v. view v.now) value.entry)) }
{
    let Some(items) = value else {
        return Ok(&[]);
    };
    match items.as_array() {
        Some(list) => Ok(list.as_slice()),
        None => Err(fault_at(alloc, FaultKind::WrongKind, trail)),
    }
}

/// The items of a list that is not empty.
#[tactic(auto, using(crate::proofs::Faults::faults, crate::proofs::Arrays::lists))]
pub fn some_items<'a>(
    alloc: Global,
    trail: &Trail<'_>,
    list: &'a Vec<Value>,
) -> Result<&'a [Value], ReadFault>
    ensures { Gives (λ items. map view items.now) result (some_items (path_of trail.now) (items_list (items_view list.now.items))) }
{
    if list.is_empty() {
        return Err(fault_at(alloc, FaultKind::Empty, trail));
    }
    Ok(list.as_slice())
}
