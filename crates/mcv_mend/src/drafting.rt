//! The text of a configuration whose deletes send what they need. Nothing rests on what is drafted.

use crate::by_class::{branches, is_any_needed};
use crate::fault::MendFault;
use crate::handles::{Place, Source, operation_child};
use crate::splice::{Edit, push_edited};
use crate::widening::{LEVEL_LIMIT, push_widened};
use mcv_names::{Handle, Selector};
use mcv_needs::Need;
use mcv_spans::{Located, Span, locate};
use std::alloc::Global;

/// The text of a configuration with what each class needs.
pub fn draft(alloc: Global, text: &[u8], needs: &[Need]) -> Result<Vec<u8>, MendFault> {
    let root = locate(alloc, text)?.ok_or(MendFault::GaveUp)?;
    let source = Source { text, root: &root };
    let mut edits = Vec::new(alloc);
    let mut rest = needs;
    for _ in 0..needs.len() {
        let Some(first) = rest.first() else {
            break;
        };
        let number = first.class.route;
        let (own, others) = own_needs(rest, number);
        push_route(alloc, source, number, own, &mut edits)?;
        rest = others;
    }
    let mut out = Vec::with_capacity(alloc, text.len())?;
    let whole = Span {
        start: 0,
        end: text.len(),
    };
    push_edited(&mut out, text, whole, edits)?;
    Ok(out)
}

/// The needs at the front that are of one route, and those behind them.
fn own_needs(needs: &[Need], route: usize) -> (&[Need], &[Need]) {
    for (number, need) in needs.iter().enumerate() {
        if need.class.route != route {
            return needs.split_at(number);
        }
    }
    needs.split_at(needs.len())
}

/// Adds the changes of a route.
fn push_route<'t>(
    alloc: Global,
    source: Source<'t>,
    number: usize,
    needs: &[Need],
    edits: &mut Vec<Edit>,
) -> Result<(), MendFault> {
    let route = source.route(number).ok_or(MendFault::GaveUp)?;
    let mut classes = Vec::with_capacity(alloc, needs.len())?;
    for need in needs {
        classes.push(need)?;
    }
    push_changes(alloc, source, route, classes.as_slice(), LEVEL_LIMIT, edits)
}

/// Adds the changes below a value that names a route.
fn push_changes<'t>(
    alloc: Global,
    source: Source<'t>,
    route: &'t Located,
    classes: &[&Need],
    level: usize,
    edits: &mut Vec<Edit>,
) -> Result<(), MendFault> {
    if !is_any_needed(classes) {
        return Ok(());
    }
    if level == 0 {
        return Err(MendFault::GaveUp);
    }
    if route.text().is_some() {
        return push_selector(alloc, source, route, classes, edits);
    }
    match Place::Value(route).kind() {
        Some(Handle::Selector(Selector::Prefix)) => {
            for branch in branches(alloc, route, classes)? {
                let own = branch.classes.as_slice();
                push_changes(alloc, source, branch.route, own, level - 1, edits)?;
            }
            Ok(())
        }
        Some(Handle::Selector(Selector::Operation)) => match shared_child(route, LEVEL_LIMIT) {
            Some(child) => push_changes(alloc, source, child, classes, level - 1, edits),
            None => push_policy(alloc, source, route, classes, edits),
        },
        _ => push_selector(alloc, source, route, classes, edits),
    }
}

/// The child that get, gets and delete take, where it leads to a selector by prefix.
fn shared_child(selector: &Located, level: usize) -> Option<&Located> {
    let child = operation_child(selector, "delete")?;
    if operation_child(selector, "get")?.span() != child.span()
        || operation_child(selector, "gets")?.span() != child.span()
    {
        return None;
    }
    match Place::Value(child).kind()? {
        Handle::Selector(Selector::Prefix) => Some(child),
        Handle::Selector(Selector::Operation) if level > 0 => {
            shared_child(child, level - 1)?;
            Some(child)
        }
        _ => None,
    }
}

/// Adds the change of a selector by operation: its policy for deletes is widened, or one is put before its others.
fn push_policy<'t>(
    alloc: Global,
    source: Source<'t>,
    selector: &'t Located,
    classes: &[&Need],
    edits: &mut Vec<Edit>,
) -> Result<(), MendFault> {
    let mut text = Vec::new(alloc);
    let policies = selector.get("operation_policies");
    if let Some(delete) = policies.and_then(|policies| policies.get("delete")) {
        let place = Place::Value(delete);
        push_widened(alloc, source, place, classes, LEVEL_LIMIT, &mut text)?;
        edits.push(Edit {
            span: delete.span(),
            text,
        })?;
        return Ok(());
    }
    let default = selector.get("default_policy").ok_or(MendFault::GaveUp)?;
    let peeled = Place::Value(default).peeled();
    text.extend_from_slice(b"\"delete\": ")?;
    push_widened(alloc, source, peeled, classes, LEVEL_LIMIT, &mut text)?;
    match policies {
        Some(policies) => push_first(policies, text, edits),
        None => push_behind_type(alloc, selector, text, edits),
    }
}

/// An edit that puts a text at a place.
fn insertion(place: usize, text: Vec<u8>) -> Edit {
    Edit {
        span: Span {
            start: place,
            end: place,
        },
        text,
    }
}

/// Puts a member before the others of an object.
fn push_first(object: &Located, member: Vec<u8>, edits: &mut Vec<Edit>) -> Result<(), MendFault> {
    let mut text = member;
    let members = object.members().ok_or(MendFault::GaveUp)?;
    if !members.is_empty() {
        text.extend_from_slice(b", ")?;
    }
    edits.push(insertion(object.span().start.saturating_add(1), text))?;
    Ok(())
}

/// Puts the policies behind the type of a selector by operation.
fn push_behind_type(
    alloc: Global,
    selector: &Located,
    member: Vec<u8>,
    edits: &mut Vec<Edit>,
) -> Result<(), MendFault> {
    let name = selector.get("type").ok_or(MendFault::GaveUp)?;
    let mut text = Vec::new(alloc);
    text.extend_from_slice(b", \"operation_policies\": {")?;
    text.extend_from_slice(member.as_slice())?;
    text.extend_from_slice(b"}")?;
    edits.push(insertion(name.span().end, text))?;
    Ok(())
}

/// Puts a selector by operation round a route, with a policy for deletes.
fn push_selector<'t>(
    alloc: Global,
    source: Source<'t>,
    route: &'t Located,
    classes: &[&Need],
    edits: &mut Vec<Edit>,
) -> Result<(), MendFault> {
    let mut text = Vec::new(alloc);
    let place = Place::Value(route);
    text.extend_from_slice(
        b"{\"type\": \"OperationSelectorRoute\", \"operation_policies\": {\"delete\": ",
    )?;
    push_widened(
        alloc,
        source,
        place.peeled(),
        classes,
        LEVEL_LIMIT,
        &mut text,
    )?;
    text.extend_from_slice(b"}, \"default_policy\": ")?;
    source.push_value(&mut text, route)?;
    text.extend_from_slice(b"}")?;
    edits.push(Edit {
        span: route.span(),
        text,
    })?;
    Ok(())
}
