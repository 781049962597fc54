//! What is at a position of a route.

ghost use Rattle.std.specs.Prelude.{◌≡◌, [], IfOk};
ghost use Rattle.serde_json.specs.Find.{as_str};
ghost use Rattle.serde_json.specs.View.{view};
ghost use Rattle.mcv_places.specs.Site.{child_of, route_site, site_at, value_child};
ghost use Rattle.mcv_places.specs.View.{found_site, name_of};

use crate::child::{child_under, handle_of, site_under};
use crate::name::Named;
use crate::pointer::{item_under, under};
use crate::text::text_child;
use serde_json::Value;
use std::alloc::AllocError;

/// What is at a position of a route, to which the pointer, empty at first, goes.
pub(crate) fn site_at<'a>(
    pointer: &mut Vec<u8>,
    document: &'a Value,
    route: usize,
    position: &[usize],
) -> Result<Option<Named<'a>>, AllocError>
    requires { pointer.old.items ≡ [] }
    ensures { IfOk result (λ found. found_site pointer.new.items found ≡ site_at (view document.now) route position.now) }
{
    let mut found = route_site(pointer, document, route)?;
    for number in position {
        let Some(named) = found else {
            return Ok(None);
        };
        found = child_of(pointer, named, *number)?;
    }
    Ok(found)
}

/// The route of a number: the one under `route`, or one of `routes`.
fn route_site<'a>(
    pointer: &mut Vec<u8>,
    document: &'a Value,
    number: usize,
) -> Result<Option<Named<'a>>, AllocError>
    requires { pointer.old.items ≡ [] }
    ensures { IfOk result (λ found. found_site pointer.new.items found ≡ route_site number (view document.now)) }
{
    if let Some(route) = under(pointer, document, "route")? {
        return Ok(Some(Named::Value(route)));
    }
    let Some(routes) = under(pointer, document, "routes")? else {
        return Ok(None);
    };
    let Some(entry) = item_under(pointer, routes, number)? else {
        return Ok(None);
    };
    site_under(pointer, entry, "route")
}

/// A child of what is named, to which the pointer goes.
fn child_of<'a>(
    pointer: &mut Vec<u8>,
    named: Named<'a>,
    number: usize,
) -> Result<Option<Named<'a>>, AllocError>
    ensures { IfOk result (λ found. found_site pointer.new.items found ≡ child_of number pointer.old.items (name_of named.entry)) }
{
    match named {
        Named::Value(value) => value_child(pointer, value, number),
        Named::Text(text) => Ok(text_child(text, number)),
        Named::Server(_, _) => Ok(None),
    }
}

/// A child of a handle that is a value: a text, or an object.
fn value_child<'a>(
    pointer: &mut Vec<u8>,
    value: &'a Value,
    number: usize,
) -> Result<Option<Named<'a>>, AllocError>
    ensures { IfOk result (λ found. found_site pointer.new.items found
        ≡ value_child number (pointer.old.items, view value.now) (as_str (view value.now))) }
{
    if let Some(text) = value.as_str() {
        return Ok(text_child(text, number));
    }
    match handle_of(value) {
        Some(handle) => child_under(pointer, handle, value, number),
        None => Ok(None),
    }
}
