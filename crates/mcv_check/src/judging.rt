//! The pairs of a certificate against the blocks of routes, one block at a time.

ghost use Rattle.std.specs.Prelude.{◌≡◌, ◌<◌, ◌≤◌, ◌-◌, ◌∷◌, [], IfErr, IfOk, MatchResult};
ghost use Rattle.mcv_blocks.specs.Blocks.{AreJustifiedPairs};
ghost use Rattle.mcv_blocks.specs.Places.{IsRouteClass};
ghost use Rattle.mcv_blocks.specs.SetsInEras.{AreSetsNear};
ghost use Rattle.mcv_blocks.specs.Spots.{AreNears, eras_near, gets_from, in_eras};
ghost use Rattle.mcv_cert.specs.Pair.{AreRising};
ghost use Rattle.mcv_check.specs.Fault.{IsFaultOfPairs};
ghost use Rattle.mcv_check.specs.Judgements.{Leaves, Stops};
ghost use Rattle.mcv_judge.specs.PairsInMemory.{pairs_of};
ghost use Rattle.mcv_route.specs.Routes.{IsSoundRoutes};

use crate::block::judge_sets;
use crate::fault::CheckFault;
use mcv_blocks::{DeleteEra, RouteClass, SlidingSets, nears_of, route_classes, slide};
use mcv_cert::Pair;
use mcv_judge::{Spot, judge_end};
use mcv_route::{NearEras, Routes};
use std::alloc::Global;

/// Judges the pairs against all blocks of the routes.
pub fn judge_routes(alloc: Global, routes: &Routes, pairs: &[Pair]) -> Result<(), CheckFault>
    requires sound { IsSoundRoutes routes.now }
    requires pairs { AreRising (pairs_of pairs.now) }
    ensures { MatchResult result (λ _. AreJustifiedPairs routes.now (pairs_of pairs.now)) (IsFaultOfPairs routes.now (pairs_of pairs.now)) }
{
    let classes = route_classes(alloc, routes)?;
    let nears = nears_of(alloc, routes)?;
    let near = nears.as_slice();
    let mut rest = pairs;
    for class in &classes {
        rest = judge_class(alloc, routes, class, near, rest)?;
    }
    judge_end(rest)?;
    Ok(())
}

/// Judges the pairs against the blocks of a class, era by era of its deletes; gives those that are left behind them.
fn judge_class<'p>(
    alloc: Global,
    routes: &Routes,
    class: &RouteClass,
    nears: &[NearEras],
    pairs: &'p [Pair],
) -> Result<&'p [Pair], CheckFault>
    requires sound { IsSoundRoutes routes.now }
    requires class { IsRouteClass routes.now class.now }
    requires nears { AreNears routes.now nears.now }
    requires pairs { AreRising (pairs_of pairs.now) }
    ensures rising { IfOk result (λ rest. AreRising (pairs_of rest.now)) }
    ensures left { IfOk result (λ rest. Leaves routes.now (pairs_of pairs.now) (eras_near class.now 0 nears.now) (pairs_of rest.now)) }
    ensures fault { IfErr result (Stops routes.now (pairs_of pairs.now) (eras_near class.now 0 nears.now)) }
{
    let Some(member) = class.class.member() else {
        unreachable!()
    };
    let mut sets = SlidingSets::new(alloc);
    let mut rest = pairs;
    for (era, near) in nears.iter().enumerate() {
        let at = DeleteEra {
            class,
            era,
            near: *near,
        };
        slide(alloc, routes, &at, &member, &mut sets)?;
        rest = judge_era(alloc, routes, &at, &sets, rest)?;
    }
    Ok(rest)
}

/// Judges the pairs against the blocks of a class with a delete in an era, one for each era of gets near it; gives those
/// that are left behind them.
fn judge_era<'p>(
    alloc: Global,
    routes: &Routes,
    at: &DeleteEra,
    sets: &SlidingSets,
    pairs: &'p [Pair],
) -> Result<&'p [Pair], CheckFault>
    requires sound { IsSoundRoutes routes.now }
    requires sets { AreSetsNear routes.now at.now sets.now }
    requires pairs { AreRising (pairs_of pairs.now) }
    ensures rising { IfOk result (λ rest. AreRising (pairs_of rest.now)) }
    ensures left { IfOk result (λ rest. Leaves routes.now (pairs_of pairs.now) (gets_from at.now.class.now at.now.era at.now.near.first (at.now.near.end - at.now.near.first)) (pairs_of rest.now)) }
    ensures fault { IfErr result (Stops routes.now (pairs_of pairs.now) (gets_from at.now.class.now at.now.era at.now.near.first (at.now.near.end - at.now.near.first))) }
{
    let mut rest = pairs;
    let near = at.near;
    for get_era in near.first..near.end {
        rest = judge_in_eras(alloc, routes, at, get_era, sets, rest)?;
    }
    Ok(rest)
}

/// Judges the pairs against the block of a class with a delete in one era and a get in another; gives those that are left
/// behind it.
fn judge_in_eras<'p>(
    alloc: Global,
    routes: &Routes,
    at: &DeleteEra,
    get_era: usize,
    sets: &SlidingSets,
    pairs: &'p [Pair],
) -> Result<&'p [Pair], CheckFault>
    requires sound { IsSoundRoutes routes.now }
    requires sets { AreSetsNear routes.now at.now sets.now }
    requires first { at.now.near.first ≤ get_era }
    requires end { get_era < at.now.near.end }
    requires pairs { AreRising (pairs_of pairs.now) }
    ensures rising { IfOk result (λ rest. AreRising (pairs_of rest.now)) }
    ensures left { IfOk result (λ rest. Leaves routes.now (pairs_of pairs.now) (in_eras at.now.class.now at.now.era get_era ∷ []) (pairs_of rest.now)) }
    ensures fault { IfErr result (Stops routes.now (pairs_of pairs.now) (in_eras at.now.class.now at.now.era get_era ∷ [])) }
{
    let _servers = routes.servers();
    let deletes = sets.at(at.era);
    let gets = sets.at(get_era);
    let spot = Spot {
        route: at.class.route,
        class: at.class.class.word(),
        era: at.era,
        get_era,
    };
    judge_sets(alloc, deletes, gets, &spot, pairs)
}
