//! The pointers of legs.

ghost use Rattle.std.specs.Prelude.{◌≡◌, IfOk, option_map};
ghost use Rattle.serde_json.specs.View.{view};
ghost use Rattle.mcv_places.specs.Pools.{handle_at, server_at};

use crate::pointer::{push_item, push_key};
use crate::pool::{pool_pointer, server_number};
use crate::site::site_at;
use mcv_base::Position;
use serde_json::Value;
use std::alloc::{AllocError, Global};

/// The pointer of the handle at a position of a route: of the value that names it, or in whose text it is named. None
/// where the configuration has no such handle.
pub fn handle_at(
    alloc: Global,
    document: &Value,
    route: usize,
    position: &Position,
) -> Result<Option<Vec<u8>>, AllocError>
    ensures { IfOk result (λ pointer. option_map (λ p. p.items) pointer ≡ handle_at (view document.now) route position.now) }
{
    let mut pointer = Vec::new(alloc);
    match site_at(&mut pointer, document, route, position.steps())? {
        Some(_) => Ok(Some(pointer)),
        None => Ok(None),
    }
}

/// The pointer of the server at an index of the PoolRoute at a position of a route. None where the configuration has no
/// such PoolRoute.
pub fn server_at(
    alloc: Global,
    document: &Value,
    route: usize,
    position: &Position,
    index: usize,
) -> Result<Option<Vec<u8>>, AllocError>
    ensures { IfOk result (λ pointer. option_map (λ p. p.items) pointer ≡ server_at (view document.now) route position.now index) }
{
    let mut pointer = Vec::new(alloc);
    let Some(named) = site_at(&mut pointer, document, route, position.steps())? else {
        return Ok(None);
    };
    let Some(mut pool) = pool_pointer(alloc, pointer, named)? else {
        return Ok(None);
    };
    push_key(&mut pool, "servers")?;
    push_item(&mut pool, server_number(named, index))?;
    Ok(Some(pool))
}
