//! The pool of a PoolRoute.

ghost use Rattle.std.specs.Prelude.{◌≡◌, [], IfOk, codes, option_map};
ghost use Rattle.serde_json.specs.Find.{as_str};
ghost use Rattle.serde_json.specs.View.{view};
ghost use Rattle.mcv_places.specs.Pools.{named_pool, object_pool, pool_pointer, server_number, text_pool};
ghost use Rattle.mcv_places.specs.View.{name_of};

use crate::name::Named;
use crate::pointer::push_key;
use crate::text::behind_bar;
use serde_json::Value;
use std::alloc::{AllocError, Global};

/// The pool of the PoolRoute that is named so, where the pointer leads to what names it.
pub(crate) fn pool_pointer(
    alloc: Global,
    pointer: Vec<u8>,
    named: Named<'_>,
) -> Result<Option<Vec<u8>>, AllocError>
    ensures { IfOk result (λ pool. option_map (λ p. p.items) pool ≡ pool_pointer pointer.items (name_of named.entry)) }
{
    match named {
        Named::Value(value) => match value.as_str() {
            Some(text) => text_pool(alloc, text),
            None => object_pool(alloc, pointer, value),
        },
        Named::Text(text) => text_pool(alloc, text),
        Named::Server(pool, _) => Ok(Some(named_pool(alloc, pool)?)),
    }
}

/// The pool of a name.
fn named_pool(alloc: Global, name: &str) -> Result<Vec<u8>, AllocError>
    ensures { IfOk result (λ pool. pool.items ≡ named_pool name.now) }
{
    let mut pool = Vec::from_slice(alloc, b"/pools")?;
    push_key(&mut pool, name)?;
    Ok(pool)
}

/// The pool of a text `PoolRoute|A`.
fn text_pool(alloc: Global, text: &str) -> Result<Option<Vec<u8>>, AllocError>
    ensures { IfOk result (λ pool. option_map (λ p. p.items) pool ≡ text_pool text.now) }
{
    match behind_bar(text) {
        Some(name) => Ok(Some(named_pool(alloc, name)?)),
        None => Ok(None),
    }
}

/// The pool of an object, by its name, or in the object itself.
fn object_pool(
    alloc: Global,
    pointer: Vec<u8>,
    value: &Value,
) -> Result<Option<Vec<u8>>, AllocError>
    ensures { IfOk result (λ pool. option_map (λ p. p.items) pool ≡ object_pool pointer.items (view value.now)) }
{
    let Some(pool) = value.get("pool") else {
        return Ok(None);
    };
    if let Some(name) = pool.as_str() {
        return Ok(Some(named_pool(alloc, name)?));
    }
    let mut pool = pointer;
    push_key(&mut pool, "pool")?;
    Ok(Some(pool))
}

/// The number of the server in the list of its pool, of the one at an index of the PoolRoute.
pub(crate) fn server_number(named: Named<'_>, index: usize) -> usize
    ensures { result ≡ server_number (name_of named.entry) index }
{
    match named {
        Named::Server(_, number) => number,
        _ => index,
    }
}
