//! The children of a handle that is an object.

ghost use Rattle.std.specs.Prelude.{◌≡◌, IfOk, codes, option_and_then, option_map};
ghost use Rattle.serde_json.specs.View.{members_view, view};
ghost use Rattle.mcv_places.specs.Site.{child_under, handle_of, listed, member_at, policy_at, policy_or_default, shadow_target, site_under, under};
ghost use Rattle.mcv_places.specs.View.{found_site};

use crate::name::Named;
use crate::pointer::{item_under, push_key, under};
use crate::text::named_child;
use mcv_names::{Handle, Selector, default_key, handle_named, policies_key};
use serde_json::{Map, Value};
use std::alloc::AllocError;

/// Child `number` of a handle that is an object, to which the pointer goes.
pub(crate) fn child_under<'a>(
    pointer: &mut Vec<u8>,
    handle: Handle,
    value: &'a Value,
    number: usize,
) -> Result<Option<Named<'a>>, AllocError>
    ensures { IfOk result (λ found. found_site pointer.new.items found ≡ child_under handle number (pointer.old.items, view value.now)) }
{
    match handle {
        Handle::Pool => shadow_target(pointer, value, number),
        Handle::Null => Ok(None),
        Handle::Error => Ok(None),
        Handle::Many(_) => one_of_children(pointer, value, number),
        Handle::WarmUp => site_under(pointer, value, if number == 1 { "warm" } else { "cold" }),
        Handle::Migrate => site_under(pointer, value, if number == 0 { "from" } else { "to" }),
        Handle::Selector(selector) => policy_or_default(pointer, selector, value, number),
    }
}

/// The value under a key, as what names a handle.
pub(crate) fn site_under<'a>(
    pointer: &mut Vec<u8>,
    value: &'a Value,
    key: &str,
) -> Result<Option<Named<'a>>, AllocError>
    ensures { IfOk result (λ found. found_site pointer.new.items found ≡ site_under key.now (pointer.old.items, view value.now)) }
{
    match under(pointer, value, key)? {
        Some(found) => Ok(Some(Named::Value(found))),
        None => Ok(None),
    }
}

/// The target of a shadow.
fn shadow_target<'a>(
    pointer: &mut Vec<u8>,
    value: &'a Value,
    number: usize,
) -> Result<Option<Named<'a>>, AllocError>
    ensures { IfOk result (λ found. found_site pointer.new.items found ≡ shadow_target number (pointer.old.items, view value.now)) }
{
    let Some(shadows) = under(pointer, value, "shadows")? else {
        return Ok(None);
    };
    let Some(shadow) = item_under(pointer, shadows, number)? else {
        return Ok(None);
    };
    site_under(pointer, shadow, "target")
}

/// One of the children that the value under `children` names.
fn one_of_children<'a>(
    pointer: &mut Vec<u8>,
    value: &'a Value,
    number: usize,
) -> Result<Option<Named<'a>>, AllocError>
    ensures { IfOk result (λ found. found_site pointer.new.items found
        ≡ option_and_then (listed number) (under (codes "children") (pointer.old.items, view value.now))) }
{
    match under(pointer, value, "children")? {
        Some(children) => listed(pointer, children, number),
        None => Ok(None),
    }
}

/// One of a list, of what a text names, or one route itself.
fn listed<'a>(
    pointer: &mut Vec<u8>,
    value: &'a Value,
    number: usize,
) -> Result<Option<Named<'a>>, AllocError>
    ensures { IfOk result (λ found. found_site pointer.new.items found ≡ listed number (pointer.old.items, view value.now)) }
{
    match value {
        Value::Array(_) => match item_under(pointer, value, number)? {
            Some(item) => Ok(Some(Named::Value(item))),
            None => Ok(None),
        },
        Value::String(text) => Ok(Some(named_child(text.as_str(), number))),
        _ => Ok(Some(Named::Value(value))),
    }
}

// ---- selectors

/// A policy's route, or the route for all else.
fn policy_or_default<'a>(
    pointer: &mut Vec<u8>,
    selector: Selector,
    value: &'a Value,
    number: usize,
) -> Result<Option<Named<'a>>, AllocError>
    ensures { IfOk result (λ found. found_site pointer.new.items found
        ≡ policy_or_default selector (pointer.old.items, view value.now) (policy_at selector number (view value.now))) }
{
    let Some((name, route)) = policy_at(selector, value, number) else {
        return site_under(pointer, value, default_key(selector));
    };
    push_key(pointer, policies_key(selector))?;
    push_key(pointer, name)?;
    Ok(Some(Named::Value(route)))
}

/// A policy by its number: its name and its route.
fn policy_at(selector: Selector, value: &Value, number: usize) -> Option<(&str, &Value)>
    ensures { option_map (λ x. (x.0.now, view x.1.now)) result ≡ policy_at selector number (view value.now) }
{
    let policies = value.get(policies_key(selector))?;
    member_at(policies.as_object()?, number)
}

/// A member by its number, in the byte order of the keys.
fn member_at(members: &Map<String, Value>, number: usize) -> Option<(&str, &Value)>
    ensures { option_map (λ x. (x.0.now, view x.1.now)) result ≡ member_at number (members_view members.now.entries) }
{
    let mut left = number;
    for (name, value) in members.iter() {
        if left == 0 {
            return Some((name.as_str(), value));
        }
        left -= 1;
    }
    None
}

/// The handle that an object names by its `type`.
#[tactic(auto, unfolding(mcv_names::specs::Handles::handle_named))]
pub(crate) fn handle_of(value: &Value) -> Option<Handle>
    ensures { result ≡ handle_of (view value.now) }
{
    let name = value.get("type")?;
    handle_named(name.as_str()?).ok()
}
