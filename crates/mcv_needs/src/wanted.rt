//! What the deletes of a class leave to be answered for, era by era.

ghost use Rattle.std.specs.Prelude.{◌≡◌, ◌≤◌, ◌<◌, ◌↔◌, IfOk, length};
ghost use Rattle.std.specs.List.{Contains};
ghost use Rattle.mcv_blocks.specs.Places.{IsRouteClass};
ghost use Rattle.mcv_blocks.specs.SetsInEras.{AreSetsFrom};
ghost use Rattle.mcv_blocks.specs.declared.classes.RouteClass.{RouteClass as ClassOfRoute};
ghost use Rattle.mcv_gaps.specs.Gaps.{wanted_of, wanteds_of};
ghost use Rattle.mcv_judge.specs.PairsInMemory.{legs_of};
ghost use Rattle.mcv_judge.specs.Reason.{LegValue};
ghost use Rattle.mcv_needs.specs.Wanted.{AreNearsOf, AreSetsByEra, AreWantedByEra, AreWantedOf, AreWithin, HaveEachEra, IsReadNear, IsWantedIn};
ghost use Rattle.mcv_route.specs.Eras.{AreNearEras};
ghost use Rattle.mcv_route.specs.Routes.{RoutesValue};
ghost use Rattle.mcv_route.specs.View.{view};

use mcv_base::Rest;
use mcv_blocks::{Sets, nears_of};
use mcv_gaps::Wanted;
use mcv_judge::Leg;
use mcv_route::{NearEras, Route, Routes, era_count, opened};
use std::alloc::{AllocError, Global};

/// What a route has at a rest, in each era.
pub fn sets_in_eras<'a>(
    alloc: Global,
    routes: &Routes,
    route: &'a Route,
    rest: &'a Rest,
) -> Result<Vec<Sets<'a>>, AllocError>
    ensures all { IfOk result (λ sets. HaveEachEra routes.now sets.items) }
    ensures each { IfOk result (λ sets. AreSetsByEra routes.now (view route.now) rest.now sets.items) }
{
    let count = era_count(routes);
    let mut all = Vec::with_capacity(alloc, count)?;
    for era in 0..count {
        let sets = Sets::new(alloc, route, rest, opened(routes, era))?;
        all.push(sets)?;
    }
    Ok(all)
}

/// The legs from which a read in one of these eras can be answered.
fn readable_near<'s>(
    alloc: Global,
    sets: &'s [Sets<'s>],
    near: NearEras,
) -> Result<Vec<Leg<'s>>, AllocError>
    requires ordered { near.first ≤ near.end }
    requires within { near.end ≤ length sets.now }
    ensures { IfOk result (λ legs. (leaf : LegValue) → Contains (legs_of legs.items) leaf ↔ IsReadNear sets.now near.first near.end leaf) }
{
    let mut all = Vec::new(alloc);
    for era in near.first..near.end {
        let legs = sets[era].readable(alloc)?;
        all.extend_from_slice(legs.as_slice())?;
    }
    Ok(all)
}

/// What the deletes of an era leave to be answered for in the eras that are near it.
fn wanted_in<'s>(
    alloc: Global,
    sets: &'s [Sets<'s>],
    era: usize,
    near: NearEras,
) -> Result<Wanted<'s>, AllocError>
    requires own { era < length sets.now }
    requires ordered { near.first ≤ near.end }
    requires within { near.end ≤ length sets.now }
    ensures { IfOk result (λ wanted. (r : RoutesValue) (c : ClassOfRoute) → IsRouteClass r c → AreSetsFrom r c 0 sets.now → AreNearEras r r.window era near.first near.end
        → IsWantedIn r c era (wanted_of wanted)) }
{
    let own = &sets[era];
    let acknowledged = own.acknowledged(alloc)?;
    if !own.can_be_acknowledged() {
        return Ok(Wanted {
            readable: Vec::new(alloc),
            acknowledged,
        });
    }
    let readable = readable_near(alloc, sets, near)?;
    Ok(Wanted {
        readable,
        acknowledged,
    })
}

/// What the deletes of each era leave to be answered for in these, the first of which is era 0.
fn wanted_in_each<'s>(
    alloc: Global,
    sets: &'s [Sets<'s>],
    nears: &[NearEras],
) -> Result<Vec<Wanted<'s>>, AllocError>
    requires { AreWithin sets.now nears.now }
    ensures many { IfOk result (λ all. length all.items ≡ length nears.now) }
    ensures each { IfOk result (λ all. (r : RoutesValue) (c : ClassOfRoute) → IsRouteClass r c → AreSetsFrom r c 0 sets.now → AreNearsOf r nears.now → AreWantedByEra r c (wanteds_of all.items)) }
{
    let mut all = Vec::with_capacity(alloc, nears.len())?;
    for era in 0..nears.len() {
        let wanted = wanted_in(alloc, sets, era, nears[era])?;
        all.push(wanted)?;
    }
    Ok(all)
}

/// What the deletes of all eras leave to be answered for.
pub fn wanted_by_era<'s>(
    alloc: Global,
    routes: &Routes,
    sets: &'s [Sets<'s>],
) -> Result<Vec<Wanted<'s>>, AllocError>
    requires { HaveEachEra routes.now sets.now }
    ensures { IfOk result (λ all. (c : ClassOfRoute) → IsRouteClass routes.now c → AreSetsFrom routes.now c 0 sets.now → AreWantedOf routes.now c (wanteds_of all.items)) }
{
    let nears = nears_of(alloc, routes)?;
    let all = wanted_in_each(alloc, sets, nears.as_slice())?;
    Ok(all)
}
