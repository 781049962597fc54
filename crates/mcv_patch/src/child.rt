//! The one child in which a value differs from another.

ghost use Rattle.std.specs.Prelude.{◌≡◌, ◌≤◌, IfOk, IsTrue, Some};
ghost use Rattle.serde_json.specs.Data.{Data, Items, Members, array, depth, object, put};
ghost use Rattle.serde_json.specs.Read.{max_depth};
ghost use Rattle.serde_json.specs.Find.{at, get};
ghost use Rattle.serde_json.specs.View.{items_view, view};
ghost use Rattle.mcv_patch.specs.Patch.{with_item};
ghost use Rattle.mcv_patch.specs.Child.{AreShallow, IsChild};

use crate::operation::Step;
use crate::same::have_one_text;
use serde_json::{Map, Value, put};
use std::alloc::{AllocError, Global};
use std::mem;

/// A value, and what it has become.
#[derive(Clone, Copy)]
pub(crate) struct Pair<'a> {
    pub old: &'a Value,
    pub new: &'a Value,
}

/// Where a value differs from what it has become.
#[derive(Clone, Copy)]
pub(crate) enum Child<'a> {
    /// In what stands behind this step, and nowhere else.
    Behind(Step<'a>, Pair<'a>),
    /// In a member that it hasn't, and nowhere else.
    Added(&'a str, &'a Value),
    /// In more than one place, or it isn't known.
    Many,
}

/// Where a value differs.
pub(crate) fn child_of<'a>(alloc: Global, pair: Pair<'a>) -> Result<Child<'a>, AllocError>
    requires { AreShallow pair }
    ensures { IfOk result (IsChild pair.entry) }
{
    if let Some(members) = pair.new.as_object() {
        return member_of(alloc, pair, members);
    }
    if let Some(items) = pair.new.as_array() {
        return item_of(alloc, pair, items);
    }
    Ok(Child::Many)
}

/// The same of an object that has become these members.
fn member_of<'a>(
    alloc: Global,
    pair: Pair<'a>,
    members: &'a Map<String, Value>,
) -> Result<Child<'a>, AllocError>
    requires { AreShallow pair }
    ensures { IfOk result (IsChild pair.entry) }
{
    if !pair.old.is_object() {
        return Ok(Child::Many);
    }
    let Some(key) = other_key(alloc, pair.old, members)? else {
        return Ok(Child::Many);
    };
    let Some(value) = pair.new.get(key) else {
        return Ok(Child::Many);
    };
    if !is_put(alloc, pair.old, pair.new, key, value)? {
        return Ok(Child::Many);
    }
    match pair.old.get(key) {
        Some(old) => Ok(Child::Behind(Step::Key(key), Pair { old, new: value })),
        None => Ok(Child::Added(key, value)),
    }
}

/// Whether an object has become the new value by this value at a key.
fn is_put(
    alloc: Global,
    old: &Value,
    new: &Value,
    key: &str,
    value: &Value,
) -> Result<bool, AllocError>
    requires shallow { depth (view old.now) ≤ max_depth }
    requires also { depth (view new.now) ≤ max_depth }
    requires value { get key.now (view new.now) ≡ Some (view value.now) }
    ensures { IfOk result (λ is. IsTrue is → (ms : Members) → view old.now ≡ object ms → view new.now ≡ object (put key.now (view value.now) ms)) }
{
    let changed = with_member(alloc, old, key, value)?;
    have_one_text(alloc, &changed, new)
}

/// The first key whose member isn't the same in the old value.
fn other_key<'a>(
    alloc: Global,
    old: &Value,
    members: &'a Map<String, Value>,
) -> Result<Option<&'a str>, AllocError> {
    for (key, value) in members.iter() {
        let Some(before) = old.get(key.as_str()) else {
            return Ok(Some(key.as_str()));
        };
        if !have_one_text(alloc, before, value)? {
            return Ok(Some(key.as_str()));
        }
    }
    Ok(None)
}

/// A copy of an object, with this value at a key.
fn with_member(alloc: Global, old: &Value, key: &str, value: &Value) -> Result<Value, AllocError>
    ensures { (ms : Members) → view old.now ≡ object ms → IfOk result (λ changed. view changed ≡ object (put key.now (view value.now) ms)) }
{
    match old.clone()? {
        Value::Object(members) => {
            let mut members = members;
            put(&mut members, alloc, key, value.clone()?)?;
            Ok(Value::Object(members))
        }
        other => Ok(other),
    }
}

/// The same of a list that has become these items.
fn item_of<'a>(
    alloc: Global,
    pair: Pair<'a>,
    items: &'a Vec<Value>,
) -> Result<Child<'a>, AllocError>
    requires { AreShallow pair }
    ensures { IfOk result (IsChild pair.entry) }
{
    let Some(number) = other_number(alloc, pair.old, items)? else {
        return Ok(Child::Many);
    };
    let Some(old) = pair.old.get(number) else {
        return Ok(Child::Many);
    };
    let Some(new) = pair.new.get(number) else {
        return Ok(Child::Many);
    };
    if !is_set(alloc, pair.old, pair.new, number, new)? {
        return Ok(Child::Many);
    }
    Ok(Child::Behind(Step::Index(number), Pair { old, new }))
}

/// Whether a list has become the new value by this value at a number.
fn is_set(
    alloc: Global,
    old: &Value,
    new: &Value,
    number: usize,
    value: &Value,
) -> Result<bool, AllocError>
    requires shallow { depth (view old.now) ≤ max_depth }
    requires also { depth (view new.now) ≤ max_depth }
    requires value { at number (view new.now) ≡ Some (view value.now) }
    ensures { IfOk result (λ is. IsTrue is → (ds : Items) → view old.now ≡ array ds → view new.now ≡ array (with_item number (view value.now) ds)) }
{
    let changed = with_item(old, number, value)?;
    have_one_text(alloc, &changed, new)
}

/// The number of the first item that isn't the same in the old value.
fn other_number(
    alloc: Global,
    old: &Value,
    items: &Vec<Value>,
) -> Result<Option<usize>, AllocError> {
    for (number, value) in items.iter().enumerate() {
        let Some(before) = old.get(number) else {
            return Ok(None);
        };
        if !have_one_text(alloc, before, value)? {
            return Ok(Some(number));
        }
    }
    Ok(None)
}

/// A copy of a list, with this value at a number.
fn with_item(old: &Value, number: usize, value: &Value) -> Result<Value, AllocError>
    ensures { (ds : Items) → view old.now ≡ array ds → IfOk result (λ changed. view changed ≡ array (with_item number (view value.now) ds)) }
{
    match old.clone()? {
        Value::Array(items) => {
            let mut items = items;
            let value = value.clone()?;
            put_item(&mut items, number, value);
            Ok(Value::Array(items))
        }
        other => Ok(other),
    }
}

/// Puts a value at a number, where the list has an item.
fn put_item(items: &mut Vec<Value>, number: usize, value: Value)
    ensures { items_view items.new.items ≡ with_item number (view value) (items_view items.old.items) }
{
    if items.len() <= number {
        drop(value);
        return;
    }
    drop(mem::replace(&mut items[number], value));
}
