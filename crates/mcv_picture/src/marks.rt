//! What a verdict marks in the trees of the routes.

ghost use Rattle.std.specs.Prelude.{◌≡◌, ◌==◌, ◌++◌, ◌∷◌, [], None, true, IfOk, OnOk, map, option_map};
ghost use Rattle.std.specs.List.{flat_map};
ghost use Rattle.mcv_blocks.specs.Blocks.{positions_of};
ghost use Rattle.mcv_cert.specs.Pair.{pair_of};
ghost use Rattle.mcv_cert.specs.Reason.{reason_of};
ghost use Rattle.mcv_draw.specs.Marks.{marks_by, marks_of};
ghost use Rattle.mcv_judge.specs.PairsInMemory.{legs_of};
ghost use Rattle.mcv_picture.specs.Drawing.{ShowsFinding, ShowsIf, certificate_marks, no_marks, own_leaf, own_legs, reason_legs, shown_legs};
ghost use Rattle.mcv_picture.specs.Found.{AreMarksOf};
ghost use Rattle.mcv_picture.specs.Reached.{AreDeletesTo, AreReadableAt, AreReached};
ghost use Rattle.mcv_route.specs.View.{view};
ghost use Rattle.mcv_witness.specs.Finding.{finding_of, outcomes_of};

use mcv_base::{Moment, Position, Rest};
use mcv_blocks::Sets;
use mcv_cert::{Certificate, Pair, Reason};
use mcv_classes::ClassTable;
use mcv_draw::Marks;
use mcv_judge::Leg;
use mcv_route::{Route, Routes, opened};
use mcv_witness::{Finding, LegOutcome};
use std::alloc::{AllocError, Global};

/// What was found of routes: a certificate by which they are covered, or how a delete can be lost.
#[derive(Clone, Copy)]
pub(crate) enum Found<'a> {
    Covered(&'a Certificate),
    Lost(&'a Finding),
}

/// What is marked in the tree of a route.
pub(crate) fn marks_of(
    alloc: Global,
    routes: &Routes,
    found: &Found<'_>,
    number: usize,
) -> Result<Marks, AllocError>
    ensures { IfOk result (λ marks. AreMarksOf found.now routes.now number (marks_of marks)) }
{
    match *found {
        Found::Covered(certificate) => certified(alloc, certificate, number),
        Found::Lost(finding) => lost(alloc, routes, finding, number),
    }
}

// ---- what is covered

/// What a certificate marks in the tree of a route: the leaves that can be read, and the legs that its reasons name. (There
/// are few routes where there are many pairs, so each route looks at all of them.)
fn certified(alloc: Global, certificate: &Certificate, number: usize) -> Result<Marks, AllocError>
    ensures { IfOk result (λ marks. marks_of marks ≡ certificate_marks certificate.now number) }
{
    let pairs = certificate.pairs();
    let deletes = named_legs(alloc, pairs, number)?;
    let readable = leaves_of(alloc, pairs, number)?;
    Ok(unshown(alloc, deletes, readable))
}

/// The leaves of the pairs of a route.
fn leaves_of(alloc: Global, pairs: &[Pair], number: usize) -> Result<Vec<Position>, AllocError>
    ensures { IfOk result (λ leaves. leaves.items ≡ flat_map (own_leaf number) (map pair_of pairs.now)) }
{
    let mut leaves = Vec::new(alloc);
    for pair in pairs {
        push_leaf(alloc, &mut leaves, pair, number)?;
    }
    Ok(leaves)
}

/// Adds the leaf of a pair, where it is of the route.
fn push_leaf(
    alloc: Global,
    leaves: &mut Vec<Position>,
    pair: &Pair,
    number: usize,
) -> Result<(), AllocError>
    ensures { OnOk result (leaves.new.items ≡ leaves.old.items ++ own_leaf number (pair_of pair.now)) }
{
    if pair.place.route == number {
        return push_leg(alloc, leaves, &pair.place.leaf);
    }
    Ok(())
}

/// The legs that the reasons of the pairs of a route name.
fn named_legs(alloc: Global, pairs: &[Pair], number: usize) -> Result<Vec<Position>, AllocError>
    ensures { IfOk result (λ legs. legs.items ≡ flat_map (own_legs number) (map pair_of pairs.now)) }
{
    let mut legs = Vec::new(alloc);
    for pair in pairs {
        push_named(alloc, &mut legs, pair, number)?;
    }
    Ok(legs)
}

/// Adds the legs that the reason of a pair names, where it is of the route.
fn push_named(
    alloc: Global,
    legs: &mut Vec<Position>,
    pair: &Pair,
    number: usize,
) -> Result<(), AllocError>
    ensures { OnOk result (legs.new.items ≡ legs.old.items ++ own_legs number (pair_of pair.now)) }
{
    if pair.place.route == number {
        return push_reason(alloc, legs, &pair.reason);
    }
    Ok(())
}

fn push_reason(alloc: Global, legs: &mut Vec<Position>, reason: &Reason) -> Result<(), AllocError>
    ensures { OnOk result (legs.new.items ≡ legs.old.items ++ reason_legs (reason_of reason.now)) }
{
    match reason {
        Reason::Never => Ok(()),
        Reason::Twin(leg) => push_leg(alloc, legs, leg),
        Reason::Same(_, leg) => push_leg(alloc, legs, leg),
        Reason::All(_, named) => push_legs(alloc, legs, named.as_slice()),
    }
}

fn push_legs(alloc: Global, legs: &mut Vec<Position>, named: &[Position]) -> Result<(), AllocError>
    ensures { OnOk result (legs.new.items ≡ legs.old.items ++ named.now) }
{
    for leg in named {
        push_leg(alloc, legs, leg)?;
    }
    Ok(())
}

fn push_leg(alloc: Global, legs: &mut Vec<Position>, leg: &Position) -> Result<(), AllocError>
    ensures { OnOk result (legs.new.items ≡ legs.old.items ++ leg.now ∷ []) }
{
    let copied = leg.copy(alloc)?;
    legs.push(copied)?;
    Ok(())
}

// ---- what is lost

/// What a finding marks in the tree of a route: in others than its own, nothing.
fn lost(
    alloc: Global,
    routes: &Routes,
    finding: &Finding,
    number: usize,
) -> Result<Marks, AllocError>
    ensures { IfOk result (λ marks. ShowsFinding routes.now (finding_of finding.now) number (marks_of marks)) }
{
    if is_route_of(finding, number) {
        return found_marks(alloc, routes, finding);
    }
    Ok(unmarked(alloc))
}

/// Whether a finding is of the route of this number.
fn is_route_of(finding: &Finding, number: usize) -> bool
    ensures { result ≡ (number == (finding_of finding.now).place.spot.route) }
{
    number == finding.place.route
}

/// What a finding marks in the tree of its route: the legs that answer, the leaf whose server is lost, and what deletes
/// and gets of its keys reach.
fn found_marks(alloc: Global, routes: &Routes, finding: &Finding) -> Result<Marks, AllocError>
    ensures { IfOk result (λ marks. ShowsIf true routes.now (finding_of finding.now) (marks_of marks)) }
{
    let shown = shown_legs(alloc, finding)?;
    let leaf = finding.place.leaf.copy(alloc)?;
    let reached = reach(alloc, routes, finding)?;
    let Reached { deletes, readable } = reached;
    Ok(Marks::new(deletes, readable, shown, Some(leaf)))
}

/// Nothing is marked.
fn unmarked(alloc: Global) -> Marks
    ensures { marks_of result ≡ no_marks }
{
    let deletes = Vec::new(alloc);
    let readable = Vec::new(alloc);
    unshown(alloc, deletes, readable)
}

/// These legs are marked, of which no finding shows any.
fn unshown(alloc: Global, deletes: Vec<Position>, readable: Vec<Position>) -> Marks
    ensures { marks_of result ≡ marks_by deletes.items readable.items [] None }
{
    let shown = Vec::new(alloc);
    Marks::new(deletes, readable, shown, None)
}

/// The positions of the legs that answer the finding's delete and its get, and of the leaf that is read.
fn shown_legs(alloc: Global, finding: &Finding) -> Result<Vec<Position>, AllocError>
    ensures { IfOk result (λ legs. legs.items ≡ shown_legs (finding_of finding.now)) }
{
    let mut legs = Vec::new(alloc);
    push_answered(alloc, &mut legs, finding.deletes.as_slice())?;
    push_answered(alloc, &mut legs, finding.gets.as_slice())?;
    push_leg(alloc, &mut legs, &finding.place.leaf)?;
    Ok(legs)
}

/// Adds the positions of legs that answered.
fn push_answered(
    alloc: Global,
    positions: &mut Vec<Position>,
    legs: &[LegOutcome],
) -> Result<(), AllocError>
    ensures { OnOk result (positions.new.items ≡ positions.old.items ++ map (λ e. e.0) (outcomes_of legs.now)) }
{
    for leg in legs {
        push_leg(alloc, positions, &leg.position)?;
    }
    Ok(())
}

/// What deletes and gets of a finding's keys reach, by the positions of legs.
#[derive(Drop)]
struct Reached {
    deletes: Vec<Position>,
    readable: Vec<Position>,
}

/// For the finding's keys and its eras, the legs that each delete that has a reply has sent, beside those that answered,
/// and the leaves that can be read. (Routes have a finding's route, and its class a member: else nothing is reached.)
fn reach(alloc: Global, routes: &Routes, finding: &Finding) -> Result<Reached, AllocError>
    ensures { IfOk result (λ reached. AreReached routes.now (finding_of finding.now) reached.deletes.items reached.readable.items) }
{
    let place = &finding.place;
    let Some(route) = routes.route(place.route) else {
        return Ok(nothing_reached(alloc));
    };
    let table = ClassTable::new(alloc, route)?;
    let Some(member) = table.member_of(place.class.as_slice()) else {
        return Ok(nothing_reached(alloc));
    };
    let since = opened(routes, place.era);
    let deletes = deletes_to(alloc, route, &member, since, finding)?;
    let since_read = opened(routes, place.get_era);
    let readable = readable_at(alloc, route, &member, since_read)?;
    Ok(Reached { deletes, readable })
}

fn nothing_reached(alloc: Global) -> Reached {
    Reached {
        deletes: Vec::new(alloc),
        readable: Vec::new(alloc),
    }
}

/// The legs that answered a finding's delete, and those that each delete of a rest that has a reply has sent in an era.
fn deletes_to(
    alloc: Global,
    route: &Route,
    rest: &Rest,
    since: Option<Moment>,
    finding: &Finding,
) -> Result<Vec<Position>, AllocError>
    ensures { IfOk result (λ positions. AreDeletesTo (view route.now) rest.now (option_map (λ m. m.0) since) (finding_of finding.now) positions.items) }
{
    let mut positions = Vec::new(alloc);
    push_answered(alloc, &mut positions, finding.deletes.as_slice())?;
    let sets = Sets::new(alloc, route, rest, since)?;
    let legs = sets.acknowledged(alloc)?;
    push_legs_of(alloc, &mut positions, legs.as_slice())?;
    Ok(positions)
}

/// The leaves from which a get, gets, incr or decr of a rest can be answered in an era.
fn readable_at(
    alloc: Global,
    route: &Route,
    rest: &Rest,
    since: Option<Moment>,
) -> Result<Vec<Position>, AllocError>
    ensures { IfOk result (λ positions. AreReadableAt (view route.now) rest.now (option_map (λ m. m.0) since) positions.items) }
{
    let mut positions = Vec::new(alloc);
    let sets = Sets::new(alloc, route, rest, since)?;
    let legs = sets.readable(alloc)?;
    push_legs_of(alloc, &mut positions, legs.as_slice())?;
    Ok(positions)
}

/// Adds the positions of legs.
fn push_legs_of(
    alloc: Global,
    positions: &mut Vec<Position>,
    legs: &[Leg<'_>],
) -> Result<(), AllocError>
    ensures { OnOk result (positions.new.items ≡ positions.old.items ++ positions_of (legs_of legs.entry.now)) }
{
    for leg in legs {
        push_leg(alloc, positions, leg.position)?;
    }
    Ok(())
}
