//! The sets of a class in the eras near that of a delete. They are laid out once for each era, and dropped once no delete is
//! near any more.

ghost use Rattle.std.specs.Prelude.{◌≡◌, ◌<◌, ◌≤◌, ◌+◌, [], Some, IfOk, OnOk, length};
ghost use Rattle.mcv_route.specs.Eras.{AreNearEras};
ghost use Rattle.mcv_route.specs.Routes.{RoutesValue};
ghost use Rattle.mcv_blocks.specs.Places.{IsRouteClass};
ghost use Rattle.mcv_blocks.specs.SetsInEras.{AreSetsFrom, AreSetsNear, AreSetsOf};
ghost use Rattle.mcv_blocks.specs.declared.classes.RouteClass.{RouteClass as ClassOfRoute};

use crate::classes::RouteClass;
use crate::sets::Sets;
use mcv_base::Rest;
use mcv_route::{NearEras, Routes, opened};
use std::alloc::{AllocError, Global};
use std::collections::VecDeque;

/// The deletes of a class of a route in an era, and the eras near it.
#[derive(Clone, Copy)]
pub struct DeleteEra<'a> {
    pub class: &'a RouteClass,
    pub era: usize,
    pub near: NearEras,
}

/// The sets of a class in consecutive eras.
#[derive(Drop)]
pub struct SlidingSets<'a> {
    /// The number of the era that the first ones are of.
    pub first: usize,
    pub sets: VecDeque<Sets<'a>>,
}

impl<'a> SlidingSets<'a> {
    /// None yet.
    pub fn new(alloc: Global) -> SlidingSets<'a>
        ensures { result.sets.items ≡ [] }
    {
        SlidingSets {
            first: 0,
            sets: VecDeque::new(alloc),
        }
    }

    /// The sets of this era.
    pub fn at(&self, era: usize) -> &Sets<'a>
        requires low { self.now.first ≤ era }
        requires high { era < self.now.first + length self.now.sets.items }
        ensures { (r : RoutesValue) (c : ClassOfRoute) → AreSetsFrom r c self.now.first self.now.sets.items → AreSetsOf r c era result.now }
    {
        &self.sets[era - self.first]
    }

    /// Drops all sets where they begin behind this era.
    fn begin_by(&mut self, first: usize)
        ensures low { self.new.first ≤ first }
        ensures sets { (r : RoutesValue) (c : ClassOfRoute) → AreSetsFrom r c self.old.first self.old.sets.items → AreSetsFrom r c self.new.first self.new.sets.items }
    {
        if self.first <= first {
            return;
        }
        self.sets.clear();
        self.first = first;
    }

    /// Drops the sets of the eras before this one.
    fn drop_before(&mut self, first: usize)
        ensures first { self.new.first ≡ first }
        ensures sets { (r : RoutesValue) (c : ClassOfRoute) → AreSetsFrom r c self.old.first self.old.sets.items → AreSetsFrom r c self.new.first self.new.sets.items }
    {
        self.begin_by(first);
        while self.first < first {
            let _ = self.sets.pop_front();
            self.first += 1;
        }
    }
}

/// What the class's route has at the class's member in an era.
fn sets_of<'a>(
    alloc: Global,
    routes: &'a Routes,
    class: &RouteClass,
    member: &'a Rest,
    era: usize,
) -> Result<Sets<'a>, AllocError>
    requires class { IsRouteClass routes.now class.now }
    requires member { Some member.now ≡ class.now.class.member }
    ensures { IfOk result (AreSetsOf routes.now class.now era) }
{
    let Some(route) = routes.route(class.route) else {
        unreachable!()
    };
    Sets::new(alloc, route, member, opened(routes, era))
}

/// Goes on to the eras near that of a delete: drops the sets of those before, and lays out those that are missing.
pub fn slide<'a>(
    alloc: Global,
    routes: &'a Routes,
    at: &DeleteEra,
    member: &'a Rest,
    sets: &mut SlidingSets<'a>,
) -> Result<(), AllocError>
    requires class { IsRouteClass routes.now at.now.class.now }
    requires member { Some member.now ≡ at.now.class.now.class.member }
    requires near { AreNearEras routes.now routes.now.window at.now.era at.now.near.first at.now.near.end }
    requires sets { AreSetsFrom routes.now at.now.class.now sets.old.first sets.old.sets.items }
    ensures { OnOk result (AreSetsNear routes.now at.now sets.new) }
{
    let near = at.near;
    sets.drop_before(near.first);
    let count = near.end - near.first;
    while sets.sets.len() < count {
        let era = near.first + sets.sets.len();
        let own = sets_of(alloc, routes, at.class, member, era)?;
        sets.sets.push_back(own)?;
    }
    Ok(())
}
