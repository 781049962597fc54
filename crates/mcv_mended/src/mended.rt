//! Routes beside those that they were mended from.

ghost use Rattle.std.specs.Prelude.{◌≡◌, ◌↔◌, ℕ, All, IfOk, IsTrue, Option, map, option_map};
ghost use Rattle.mcv_base.specs.declared.operation.Op.{Op as Operation};
ghost use Rattle.mcv_blocks.specs.Places.{AreRouteClasses, IsRouteClass};
ghost use Rattle.mcv_route.specs.Eras.{IsEra};
ghost use Rattle.mcv_route.specs.Routes.{RoutesValue};
ghost use Rattle.mcv_route.specs.View.{view};
ghost use Rattle.mcv_mended.specs.Classes.{HaveSameClasses, places_of};
ghost use Rattle.mcv_alike.specs.Numbers.{IsNumbering, legs_value};
ghost use Rattle.mcv_needs.specs.InMemory.{class_of_need, need_value, needs_value};
ghost use Rattle.mcv_mended.specs.Members.{IsAskedWell, IsMemberMended};
ghost use Rattle.mcv_mended.specs.Mend.{IsMendOf, IsMendedBy};
ghost use Rattle.mcv_mended.specs.Starts.{AreStarts};

use crate::start::{Start, start_of};
use mcv_alike::{NeededLeg, Numbering, is_same_plan, is_widened, numbered};
use mcv_base::{Mark, Moment, Op, Rest};
use mcv_blocks::{RouteClass, route_classes};
use mcv_needs::Need;
use mcv_route::{Route, Routes, era_count, opened};
use mcv_rules::{Asked, laid_out};
use std::alloc::{AllocError, Global};

/// All operations.
const OPERATIONS: [Op; 12] = [
    Op::Get,
    Op::Gets,
    Op::Set,
    Op::Add,
    Op::Replace,
    Op::Append,
    Op::Prepend,
    Op::Cas,
    Op::Delete,
    Op::Touch,
    Op::Incr,
    Op::Decr,
];

/// A route before and after, and the numbers that the servers and symbols of the one have in the other.
#[derive(Clone, Copy)]
struct Sides<'a> {
    numbering: &'a Numbering,
    before: &'a Route,
    after: &'a Route,
}

/// The same for one rest, with where its requests begin on both sides.
#[derive(Clone, Copy)]
struct Begun<'a> {
    sides: &'a Sides<'a>,
    before: &'a Start<'a>,
    after: &'a Start<'a>,
}

/// Whether the new routes are the old ones, mended: for each class of keys, in each era, deletes send the legs that the
/// class needs at once beside their own, and every other operation does what it did.
pub fn is_mended(
    alloc: Global,
    old: &Routes,
    new: &Routes,
    needs: &[Need],
) -> Result<bool, AllocError>
    requires aliases { map (λ e. e.aliases) new.now.entries ≡ map (λ e. e.aliases) old.now.entries }
    requires classes { AreRouteClasses old.now (map class_of_need needs.now) }
    ensures { IfOk result (λ fine. IsTrue fine → IsMendOf old.now new.now (needs_value needs.now)) }
{
    if !have_same_eras(old, new) {
        return Ok(false);
    }
    let classes = route_classes(alloc, new)?;
    if !are_classes(needs, classes.as_slice()) {
        return Ok(false);
    }
    let Some(numbering) = numbered(alloc, old, new)? else {
        return Ok(false);
    };
    for need in needs {
        let met = is_need_met(alloc, &numbering, old, new, need)?;
        if !met {
            return Ok(false);
        }
    }
    Ok(true)
}

/// Whether both are the same moments, in the same order.
fn are_same_moments(ones: &[Moment], others: &[Moment]) -> bool
    ensures { IsTrue result → map (λ m. m.0) ones.now ≡ map (λ m. m.0) others.now }
{
    if ones.len() != others.len() {
        return false;
    }
    for number in 0..ones.len() {
        if ones[number].0 != others[number].0 {
            return false;
        }
    }
    true
}

/// Whether the routes have the same eras.
fn have_same_eras(old: &Routes, new: &Routes) -> bool
    ensures { IsTrue result → (since : Option ℕ) → IsEra new.now since ↔ IsEra old.now since }
{
    are_same_moments(old.breaks(), new.breaks())
}

/// Whether the needs are those of these classes, in their order.
fn are_classes(needs: &[Need], classes: &[RouteClass]) -> bool
    ensures { IsTrue result → places_of (map class_of_need needs.now) ≡ places_of classes.now }
{
    if needs.len() != classes.len() {
        return false;
    }
    for (number, need) in needs.iter().enumerate() {
        if !is_same_class(&need.class, &classes[number]) {
            return false;
        }
    }
    true
}

/// Whether both are of one route and word.
fn is_same_class(one: &RouteClass, other: &RouteClass) -> bool
    ensures route { IsTrue result → one.now.route ≡ other.now.route }
    ensures word { IsTrue result → one.now.class.word ≡ other.now.class.word }
{
    if one.route != other.route {
        return false;
    }
    one.class.word() == other.class.word()
}

/// Whether a class is mended by its need.
fn is_need_met(
    alloc: Global,
    numbering: &Numbering,
    old: &Routes,
    new: &Routes,
    need: &Need,
) -> Result<bool, AllocError>
    requires numbering { IsNumbering old.now new.now numbering.now }
    requires class { IsRouteClass old.now (class_of_need need.now) }
    requires classes { HaveSameClasses old.now new.now }
    ensures { IfOk result (λ met. IsTrue met → IsMendedBy old.now new.now (need_value need.now)) }
{
    let Some(member) = need.class.class.member() else {
        return Ok(false);
    };
    let Some(before) = old.route(need.class.route) else {
        return Ok(false);
    };
    let Some(after) = new.route(need.class.route) else {
        return Ok(false);
    };
    // It is a rest.
    let _ = member.as_bytes();
    let sides = Sides {
        numbering,
        before,
        after,
    };
    is_member_mended(alloc, &sides, old, &member, need.legs.as_slice())
}

/// Whether both routes do what they should for a rest in all eras.
fn is_member_mended(
    alloc: Global,
    sides: &Sides,
    routes: &Routes,
    rest: &Rest,
    legs: &[NeededLeg],
) -> Result<bool, AllocError>
    ensures { IfOk result (λ fine. (n : RoutesValue) → IsNumbering routes.now n sides.now.numbering.now → IsTrue fine
        → IsMemberMended routes.now n (view sides.now.before.now) (view sides.now.after.now) rest.now (legs_value legs.now)) }
{
    let before = start_of(alloc, sides.before, rest)?;
    let after = start_of(alloc, sides.after, rest)?;
    let begun = Begun {
        sides,
        before: &before,
        after: &after,
    };
    for era in 0..era_count(routes) {
        let fine = is_era_mended(alloc, &begun, rest, opened(routes, era), legs)?;
        if !fine {
            return Ok(false);
        }
    }
    Ok(true)
}

/// The same in one era.
fn is_era_mended(
    alloc: Global,
    begun: &Begun,
    rest: &Rest,
    since: Option<Moment>,
    legs: &[NeededLeg],
) -> Result<bool, AllocError>
    requires { AreStarts begun.now rest.now }
    ensures { IfOk result (λ fine. (r n : RoutesValue) → IsNumbering r n begun.now.sides.now.numbering.now → IsTrue fine
        → (op : Operation) → IsAskedWell r n (view begun.now.sides.now.before.now) (view begun.now.sides.now.after.now) rest.now (option_map (λ m. m.0) since) (legs_value legs.now) op) }
{
    let fine = are_asked_well(alloc, begun, &OPERATIONS, rest, since, legs)?;
    Ok(fine)
}

/// The same when it is asked for one of these operations.
fn are_asked_well(
    alloc: Global,
    begun: &Begun,
    operations: &[Op],
    rest: &Rest,
    since: Option<Moment>,
    legs: &[NeededLeg],
) -> Result<bool, AllocError>
    requires { AreStarts begun.now rest.now }
    ensures { IfOk result (λ fine. (r n : RoutesValue) → IsNumbering r n begun.now.sides.now.numbering.now → IsTrue fine
        → All (IsAskedWell r n (view begun.now.sides.now.before.now) (view begun.now.sides.now.after.now) rest.now (option_map (λ m. m.0) since) (legs_value legs.now)) operations.now) }
{
    for op in operations {
        let fine = is_asked_well(alloc, begun, *op, rest, since, legs)?;
        if !fine {
            return Ok(false);
        }
    }
    Ok(true)
}

/// Whether the new route does what it should when it is asked for an operation.
fn is_asked_well(
    alloc: Global,
    begun: &Begun,
    op: Op,
    rest: &Rest,
    since: Option<Moment>,
    legs: &[NeededLeg],
) -> Result<bool, AllocError>
    requires { AreStarts begun.now rest.now }
    ensures { IfOk result (λ fine. (r n : RoutesValue) → IsNumbering r n begun.now.sides.now.numbering.now → IsTrue fine
        → IsAskedWell r n (view begun.now.sides.now.before.now) (view begun.now.sides.now.after.now) rest.now (option_map (λ m. m.0) since) (legs_value legs.now) op) }
{
    let asked = Asked {
        op,
        rest,
        since,
        mark: Mark::Plain,
    };
    let old = laid_out(alloc, begun.before.route, &asked, &begun.before.position)?;
    let new = laid_out(alloc, begun.after.route, &asked, &begun.after.position)?;
    match op {
        Op::Delete => Ok(is_widened(begun.sides.numbering, &old, &new, legs)),
        _ => Ok(is_same_plan(begun.sides.numbering, &old, &new)),
    }
}
