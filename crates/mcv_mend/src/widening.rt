//! The text of a route with legs beside it.

use crate::by_class::{are_same_needs, branches, is_any_needed, split_by_word};
use crate::fault::MendFault;
use crate::handles::{Place, Source};
use crate::splice::{Edit, push_edited};
use mcv_names::{Handle, Many, Selector};
use mcv_needs::Need;
use mcv_spans::{Located, Span, push_quoted};
use std::alloc::Global;

/// The most levels of selectors.
pub const LEVEL_LIMIT: usize = 64;

/// Adds the text of a route that sends beside its own what each of the classes needs that come to it.
#[cycle(widening)]
pub fn push_widened<'t>(
    alloc: Global,
    source: Source<'t>,
    place: Place<'t>,
    classes: &[&Need],
    level: usize,
    out: &mut Vec<u8>,
) -> Result<(), MendFault> {
    if level == 0 {
        return Err(MendFault::GaveUp);
    }
    if !is_any_needed(classes) {
        return source.push_place(out, place);
    }
    if let Place::Value(value) = place {
        if place.kind() == Some(Handle::Selector(Selector::Prefix)) {
            return push_widened_below(alloc, source, value, classes, level - 1, out);
        }
    }
    match classes.first() {
        Some(first) if are_same_needs(classes) => push_with_legs(source, place, *first, out),
        _ => push_by_class(alloc, source, place, classes, out),
    }
}

/// The same of a selector by prefix: each of its routes for its classes.
#[cycle(widening)]
fn push_widened_below<'t>(
    alloc: Global,
    source: Source<'t>,
    selector: &'t Located,
    classes: &[&Need],
    level: usize,
    out: &mut Vec<u8>,
) -> Result<(), MendFault> {
    let mut edits = Vec::new(alloc);
    for branch in branches(alloc, selector, classes)? {
        if is_any_needed(branch.classes.as_slice()) {
            let mut text = Vec::new(alloc);
            let place = Place::Value(branch.route);
            push_widened(
                alloc,
                source,
                place,
                branch.classes.as_slice(),
                level,
                &mut text,
            )?;
            edits.push(Edit {
                span: branch.route.span(),
                text,
            })?;
        }
    }
    push_edited(out, source.text, selector.span(), edits)
}

/// A selector over the classes' words, each route with what its class needs.
fn push_by_class<'t>(
    alloc: Global,
    source: Source<'t>,
    place: Place<'t>,
    classes: &[&Need],
    out: &mut Vec<u8>,
) -> Result<(), MendFault> {
    let split = split_by_word(alloc, classes)?;
    out.extend_from_slice(b"{\"type\": \"PrefixSelectorRoute\", \"policies\": {")?;
    for (number, need) in split.own.iter().enumerate() {
        if number > 0 {
            out.extend_from_slice(b", ")?;
        }
        push_quoted(out, need.class.class.word())?;
        out.extend_from_slice(b": ")?;
        push_with_legs(source, place, *need, out)?;
    }
    out.extend_from_slice(b"}, \"wildcard\": ")?;
    match split.others {
        Some(need) => push_with_legs(source, place, need, out)?,
        None => source.push_place(out, place)?,
    }
    out.extend_from_slice(b"}")?;
    Ok(())
}

/// The last child of a handle with a list of children that are all sent to at once.
fn last_of_all(place: Place<'_>) -> Option<&Located> {
    match place.kind()? {
        Handle::Many(Many::AllSync | Many::AllInitial | Many::AllAsync) => {}
        _ => return None,
    }
    let Place::Value(value) = place else {
        return None;
    };
    value.get("children")?.items()?.last()
}

/// Adds a comma and the text of each leg.
fn push_legs<'t>(source: Source<'t>, need: &Need, out: &mut Vec<u8>) -> Result<(), MendFault> {
    for leg in &need.legs {
        let place = source
            .handle(need.class.route, leg.position.steps())
            .ok_or(MendFault::GaveUp)?;
        out.extend_from_slice(b", ")?;
        source.push_leaf(out, place)?;
    }
    Ok(())
}

/// Adds the text of a route with what a class needs: as further children, or else beside it below a new AllSyncRoute.
fn push_with_legs<'t>(
    source: Source<'t>,
    place: Place<'t>,
    need: &Need,
    out: &mut Vec<u8>,
) -> Result<(), MendFault> {
    if need.legs.is_empty() {
        return source.push_place(out, place);
    }
    if let Place::Value(value) = place {
        if let Some(last) = last_of_all(place) {
            return push_at_end(source, value, last.span().end, need, out);
        }
    }
    push_beside(source, place, need, out)
}

/// Adds the text of a route, and of the legs as further children of it: its list of children ends behind this place.
fn push_at_end<'t>(
    source: Source<'t>,
    route: &'t Located,
    end: usize,
    need: &Need,
    out: &mut Vec<u8>,
) -> Result<(), MendFault> {
    let mut text = Vec::new(*out.allocator());
    push_legs(source, need, &mut text)?;
    let span = Span { start: end, end };
    let mut edits = Vec::new(*out.allocator());
    edits.push(Edit { span, text })?;
    push_edited(out, source.text, route.span(), edits)
}

/// Adds the text of a new AllSyncRoute over a route and the legs.
fn push_beside<'t>(
    source: Source<'t>,
    place: Place<'t>,
    need: &Need,
    out: &mut Vec<u8>,
) -> Result<(), MendFault> {
    out.extend_from_slice(b"{\"type\": \"AllSyncRoute\", \"children\": [")?;
    source.push_place(out, place)?;
    push_legs(source, need, out)?;
    out.extend_from_slice(b"]}")?;
    Ok(())
}
