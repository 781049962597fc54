//! Which legs the deletes of each class need beside their own.

ghost use Rattle.std.specs.Prelude.{◌≡◌, All, IfOk, map};
ghost use Rattle.mcv_alike.specs.Numbers.{legs_value};
ghost use Rattle.mcv_blocks.specs.Places.{AreRouteClasses, IsRouteClass};
ghost use Rattle.mcv_judge.specs.PairsInMemory.{legs_of};
ghost use Rattle.mcv_needs.specs.InMemory.{class_of_need, needs_value};
ghost use Rattle.mcv_needs.specs.Needs.{AreLeast, IsLeastNeed};

use crate::wanted::{sets_in_eras, wanted_by_era};
use mcv_alike::NeededLeg;
use mcv_blocks::{RouteClass, route_classes};
use mcv_gaps::least_legs;
use mcv_judge::Leg;
use mcv_route::Routes;
use std::alloc::{AllocError, Global};

/// The legs that the deletes of a class need beside their own.
#[derive(Drop)]
pub struct Need {
    pub class: RouteClass,
    pub legs: Vec<NeededLeg>,
}

/// What each class of the routes needs, by route and then by word (bytes).
pub fn class_needs(alloc: Global, routes: &Routes) -> Result<Vec<Need>, AllocError>
    ensures classes { IfOk result (λ needs. AreRouteClasses routes.now (map class_of_need needs.items)) }
    ensures least { IfOk result (λ needs. All (IsLeastNeed routes.now) (needs_value needs.items)) }
{
    let mut needs = Vec::new(alloc);
    for class in route_classes(alloc, routes)? {
        let legs = needed_legs(alloc, routes, &class)?;
        needs.push(Need { class, legs })?;
    }
    Ok(needs)
}

/// The least legs of a class.
fn needed_legs(
    alloc: Global,
    routes: &Routes,
    class: &RouteClass,
) -> Result<Vec<NeededLeg>, AllocError>
    ensures { IfOk result (λ legs. IsRouteClass routes.now class.now → AreLeast routes.now class.now.route class.now.class.word (legs_value legs.items)) }
{
    let Some(route) = routes.route(class.route) else {
        return Ok(Vec::new(alloc));
    };
    let Some(member) = class.class.member() else {
        return Ok(Vec::new(alloc));
    };
    let _symbols = routes.symbols();
    let sets = sets_in_eras(alloc, routes, route, &member)?;
    let wanted = wanted_by_era(alloc, routes, sets.as_slice())?;
    let legs = least_legs(alloc, wanted.as_slice())?;
    owned(alloc, legs.as_slice())
}

/// The legs, in memory of their own.
fn owned(alloc: Global, legs: &[Leg]) -> Result<Vec<NeededLeg>, AllocError>
    ensures { IfOk result (λ all. legs_value all.items ≡ legs_of legs.now) }
{
    let mut all = Vec::with_capacity(alloc, legs.len())?;
    for leg in legs {
        let symbol = leg.symbol;
        let position = leg.position.copy(alloc)?;
        let servers = Vec::from_slice(alloc, leg.servers)?;
        all.push(NeededLeg {
            position,
            symbol,
            servers,
        })?;
    }
    Ok(all)
}
