//! Makes certificates, block by block.

ghost use Rattle.std.specs.Prelude.{◌≡◌, ◌<◌, ◌≤◌, ◌-◌, [], ◌∷◌, All, IfErr, IfOk, OnOk, length};
ghost use Rattle.mcv_blocks.specs.Blocks.{IsJustifiedBy};
ghost use Rattle.mcv_blocks.specs.Places.{IsRouteClass};
ghost use Rattle.mcv_blocks.specs.SetsInEras.{AreSetsNear};
ghost use Rattle.mcv_blocks.specs.Spots.{AreNears, eras_near, gets_from, in_eras};
ghost use Rattle.mcv_judge.specs.PairsInMemory.{pairs_of};
ghost use Rattle.mcv_route.specs.Routes.{IsSoundRoutes};
ghost use Rattle.mcv_symbolic.specs.CoveredRoutes.{AreCovered};
ghost use Rattle.mcv_certify.specs.Gap.{IfLost, IsRightFault};
ghost use Rattle.mcv_certify.specs.BlockSteps.{AddsFor, ReportsGapAt, ReportsGapIn};
ghost use Rattle.mcv_certify.specs.PickedReasons.{IsPickedOf};
ghost use Rattle.mcv_certify.specs.declared.gap.CertifyFault.TheVariants.{Memory as out_of_memory};

use crate::block::push_sets;
use crate::gap::CertifyFault;
use mcv_blocks::{DeleteEra, RouteClass, SlidingSets, nears_of, route_classes, slide};
use mcv_cert::{Certificate, Pair};
use mcv_judge::Spot;
use mcv_route::{NearEras, Routes};
use std::alloc::Global;

/// Adds the pairs of the block of a class with a delete in one era and a get in another, or reports the first gap in it.
fn push_in_eras(
    alloc: Global,
    routes: &Routes,
    at: &DeleteEra,
    get_era: usize,
    sets: &SlidingSets,
    pairs: &mut Vec<Pair>,
) -> Result<(), CertifyFault>
    requires sound { IsSoundRoutes routes.now }
    requires sets { AreSetsNear routes.now at.now sets.now }
    requires first { at.now.near.first ≤ get_era }
    requires end { get_era < at.now.near.end }
    ensures added { OnOk result (AddsFor routes.now (in_eras at.now.class.now at.now.era get_era ∷ []) (pairs_of pairs.old.items) (pairs_of pairs.new.items)) }
    ensures lost { IfErr result (λ f. IfLost f (ReportsGapAt routes.now (in_eras at.now.class.now at.now.era get_era))) }
{
    let _servers = routes.servers();
    let deletes = sets.at(at.era);
    let gets = sets.at(get_era);
    let spot = Spot {
        route: at.class.route,
        class: at.class.class.word(),
        era: at.era,
        get_era,
    };
    push_sets(alloc, deletes, gets, &spot, pairs)
}

/// Adds the pairs of the blocks of a class with a delete in an era, one for each era of gets near it, or reports the first
/// gap in them.
fn push_era(
    alloc: Global,
    routes: &Routes,
    at: &DeleteEra,
    sets: &SlidingSets,
    pairs: &mut Vec<Pair>,
) -> Result<(), CertifyFault>
    requires sound { IsSoundRoutes routes.now }
    requires sets { AreSetsNear routes.now at.now sets.now }
    ensures added { OnOk result (AddsFor routes.now (gets_from at.now.class.now at.now.era at.now.near.first (at.now.near.end - at.now.near.first)) (pairs_of pairs.old.items) (pairs_of pairs.new.items)) }
    ensures lost { IfErr result (λ f. IfLost f (ReportsGapIn routes.now (gets_from at.now.class.now at.now.era at.now.near.first (at.now.near.end - at.now.near.first)))) }
{
    let near = at.near;
    for get_era in near.first..near.end {
        push_in_eras(alloc, routes, at, get_era, sets, pairs)?;
    }
    Ok(())
}

/// Adds the pairs of the blocks of a class, era by era of its deletes, or reports the first gap in them.
fn push_class(
    alloc: Global,
    routes: &Routes,
    class: &RouteClass,
    nears: &[NearEras],
    pairs: &mut Vec<Pair>,
) -> Result<(), CertifyFault>
    requires sound { IsSoundRoutes routes.now }
    requires class { IsRouteClass routes.now class.now }
    requires nears { AreNears routes.now nears.now }
    ensures added { OnOk result (AddsFor routes.now (eras_near class.now 0 nears.now) (pairs_of pairs.old.items) (pairs_of pairs.new.items)) }
    ensures lost { IfErr result (λ f. IfLost f (ReportsGapIn routes.now (eras_near class.now 0 nears.now))) }
{
    let Some(member) = class.class.member() else {
        unreachable!()
    };
    let mut sets = SlidingSets::new(alloc);
    for (era, near) in nears.iter().enumerate() {
        let at = DeleteEra {
            class,
            era,
            near: *near,
        };
        slide(alloc, routes, &at, &member, &mut sets)?;
        push_era(alloc, routes, &at, &sets, pairs)?;
    }
    Ok(())
}

/// The certificate of the routes, if they are covered within their window. Else the first place where a delete can be lost.
///
/// Of the reasons that hold for a leaf the certificate names the first in the order never, twin, same and all, with
/// the least positions. Takes time in proportion to the nodes and the servers of the routes times their classes, eras and
/// the eras near each; each plan is laid out once, and is in memory while an era near its own is looked at.
pub fn certify(alloc: Global, routes: &Routes) -> Result<Certificate, CertifyFault>
    ensures justified { IfOk result (λ c. IsJustifiedBy routes.now c) }
    ensures picked { IfOk result (λ c. All (IsPickedOf routes.now) c.pairs) }
    ensures lost { IfErr result (λ f. IsRightFault routes.now f) }
    ensures known { IfErr result (λ f. IfLost f (λ g. g.server.0 < length routes.now.servers)) }
    ensures covered { AreCovered routes.now → IfErr result (λ f. f ≡ out_of_memory) }
{
    // Both say of the routes what it takes that those with a gap aren't covered: they are sound, and each symbol has an index.
    let _servers = routes.servers();
    let _symbols = routes.symbols();
    let nears = nears_of(alloc, routes)?;
    let near = nears.as_slice();
    let classes = route_classes(alloc, routes)?;
    let mut pairs = Vec::new(alloc);
    for class in &classes {
        push_class(alloc, routes, class, near, &mut pairs)?;
    }
    let window = routes.window();
    Ok(Certificate::of(window, pairs))
}
