//! The classes of all routes.

ghost use Rattle.std.specs.Prelude.{◌≡◌, ◌++◌, IfOk, OnOk, List, map};
ghost use Rattle.mcv_classes.specs.Class.{ClassValue, IsClassList};
ghost use Rattle.mcv_classes.specs.Words.{class_words};
ghost use Rattle.mcv_route.specs.View.{view};
ghost use Rattle.mcv_blocks.specs.Places.{AreRouteClasses, of_route};

use mcv_classes::{Class, ClassTable};
use mcv_route::{Route, Routes};
use std::alloc::{AllocError, Global};

/// A class of a route, by the route's number.
#[derive(Drop)]
pub struct RouteClass {
    pub route: usize,
    pub class: Class,
}

/// All classes of all routes that have a member, by route and then by word (bytes).
pub fn route_classes(alloc: Global, routes: &Routes) -> Result<Vec<RouteClass>, AllocError>
    ensures { IfOk result (λ cs. AreRouteClasses routes.now cs.items) }
{
    // Routes are few: their numbers don't run over.
    let _servers = routes.servers();
    let mut classes = Vec::new(alloc);
    let mut number = 0;
    while let Some(route) = routes.route(number) {
        push_route(alloc, number, route, &mut classes)?;
        number += 1;
    }
    Ok(classes)
}

/// Adds the classes of a route that have a member.
fn push_route(
    alloc: Global,
    number: usize,
    route: &Route,
    classes: &mut Vec<RouteClass>,
) -> Result<(), AllocError>
    ensures { OnOk result ((own : List ClassValue) × IsClassList (class_words (view route.now)) own × (classes.new.items ≡ classes.old.items ++ map (of_route number) own)) }
{
    let table = ClassTable::new(alloc, route)?;
    for class in table.classes(alloc)? {
        classes.push(RouteClass {
            route: number,
            class,
        })?;
    }
    Ok(())
}
