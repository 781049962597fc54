//! The finding of a gap.

ghost use Rattle.std.specs.Prelude.{◌≡◌, ◌++◌, ◌<◌, Some, IfOk};
ghost use Rattle.mcv_cert.specs.Pair.{place_of};
ghost use Rattle.mcv_classes.specs.Class.{IsMember};
ghost use Rattle.mcv_classes.specs.Words.{class_words};
ghost use Rattle.mcv_certify.specs.Gap.{IsGap};
ghost use Rattle.mcv_route.specs.View.{view};
ghost use Rattle.mcv_witness.specs.Breaks.{BreaksCoverage};
ghost use Rattle.mcv_witness.specs.Finding.{finding_of};
ghost use Rattle.mcv_make.specs.Place.{HasMember, IsAtGap};
ghost use Rattle.mcv_make.specs.ShownFinding.{IsShown, IsShownWith};

use crate::scene::{Reading, Scene};
use mcv_base::{Prefix, Rest};
use mcv_certify::Gap;
use mcv_classes::ClassTable;
use mcv_route::{Route, Routes, opened};
use mcv_witness::Finding;
use std::alloc::{AllocError, Global};

/// The member of the class of this word, which has one.
fn member_of(alloc: Global, route: &Route, word: &[u8]) -> Result<Rest, AllocError>
    requires { HasMember (class_words (view route.now)) word.now }
    ensures { IfOk result (λ m. IsMember (class_words (view route.now)) word.now (Some m)) }
{
    let table = ClassTable::new(alloc, route)?;
    let Some(member) = table.member_of(word) else {
        unreachable!()
    };
    Ok(member)
}

/// The prefix followed by the rest.
fn key_of(alloc: Global, prefix: &Prefix, rest: &Rest) -> Result<Vec<u8>, AllocError>
    ensures { IfOk result (λ key. key.items ≡ prefix.now ++ rest.now) }
{
    let mut key = Vec::new(alloc);
    key.extend_from_slice(prefix.as_bytes())?;
    key.extend_from_slice(rest.as_bytes())?;
    Ok(key)
}

/// The finding that is shown of a gap with a key behind the prefix.
fn find_behind(
    alloc: Global,
    routes: &Routes,
    prefix: &Prefix,
    gap: &Gap,
) -> Result<Finding, AllocError>
    requires gap { IsGap routes.now (place_of gap.now.place) gap.now.at gap.now.server.0 }
    ensures at_gap { IfOk result (λ f. IsAtGap gap.now (finding_of f)) }
    ensures shown { IfOk result (λ f. IsShownWith routes.now prefix.now (finding_of f)) }
{
    let Some(route) = routes.route(gap.place.route) else {
        unreachable!()
    };
    let Some(leaf) = routes.leaf_at(gap.place.route, &gap.place.leaf) else {
        unreachable!()
    };
    let symbols = routes.symbols().as_slice();
    let rest = member_of(alloc, route, gap.place.class.as_slice())?;
    let _ = rest.as_bytes();
    let scene = Scene {
        route,
        rest: &rest,
        since: opened(routes, gap.place.era),
        read: opened(routes, gap.place.get_era),
    };
    let Reading { op, legs: gets } = scene.reading(alloc, &gap.place.leaf)?;
    Ok(Finding {
        place: gap.place.copy(alloc)?,
        at: gap.at,
        server: gap.server,
        key: key_of(alloc, prefix, &rest)?,
        choice: scene.choice(alloc, symbols, gap.server, leaf.symbol, gap.at)?,
        op,
        gets,
        deletes: scene.deletes(alloc)?,
        window: routes.window(),
    })
}

/// The finding that shows a gap: the member of its class behind the first routing prefix of its route.
///
/// The leaf hits under the first of get, gets, incr and decr that can read it. Takes time and memory in proportion to the route,
/// its classes, the symbols and the servers of its legs; of a handle's n children that come before the leaf, up to
/// n times n steps.
pub fn find(alloc: Global, routes: &Routes, gap: &Gap) -> Result<Finding, AllocError>
    requires gap { IsGap routes.now (place_of gap.now.place) gap.now.at gap.now.server.0 }
    ensures breaks { IfOk result (λ f. BreaksCoverage routes.now (finding_of f)) }
    ensures at_gap { IfOk result (λ f. IsAtGap gap.now (finding_of f)) }
    ensures shown { IfOk result (λ f. IsShown routes.now (finding_of f)) }
{
    // Both say of the routes what the proof wants: they are sound and within the limits, and each symbol has an index.
    let _servers = routes.servers();
    let _symbols = routes.symbols();
    let Some(prefix) = routes.first_alias(gap.place.route) else {
        unreachable!()
    };
    find_behind(alloc, routes, prefix, gap)
}
