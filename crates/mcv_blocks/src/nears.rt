//! The eras near each one.

ghost use Rattle.std.specs.Prelude.{IfOk};
ghost use Rattle.mcv_blocks.specs.Spots.{AreNears};

use mcv_route::{NearEras, Routes, era_count, near_eras};
use std::alloc::{AllocError, Global};

/// Of each era of the routes, in their order, the eras that are near it within the routes' window. Takes time in proportion
/// to all of them together.
pub fn nears_of(alloc: Global, routes: &Routes) -> Result<Vec<NearEras>, AllocError>
    ensures { IfOk result (λ xs. AreNears routes.now xs.items) }
{
    let count = era_count(routes);
    let window = routes.window();
    let mut nears = Vec::with_capacity(alloc, count)?;
    for era in 0..count {
        nears.push(near_eras(routes, era, window))?;
    }
    Ok(nears)
}
