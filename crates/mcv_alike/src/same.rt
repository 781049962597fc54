//! Plans that do the same but for positions, and plans of deletes that send more legs at once.

ghost use Rattle.std.specs.Prelude.{◌≡◌, IsTrue, map, true};
ghost use Rattle.mcv_base.specs.Operation.{is_counting};
ghost use Rattle.mcv_base.specs.declared.operation.Op.TheVariants.{Delete};
ghost use Rattle.mcv_route.specs.Routes.{RoutesValue};
ghost use Rattle.mcv_rules.specs.NormalForm.{all_of, led_by, leg_of, part_of, whole_of};
ghost use Rattle.mcv_alike.specs.Numbers.{IsNumbering, leg_value, legs_value};
ghost use Rattle.mcv_alike.specs.Plans.{AreAddedParts, AreOneLeg, AreOnePart, AreOneParts, AreOnePlan, AreOneSymbol, IsAddedPart, IsWidened};

use crate::needed::NeededLeg;
use crate::numbering::Numbering;
use mcv_base::Op;
use mcv_rules::{After, Plan, PlannedLeg};

/// Whether the legs are of one operation, by one mark.
fn is_same_way(old: &PlannedLeg, new: &PlannedLeg) -> bool
    ensures op { IsTrue result → old.now.op ≡ new.now.op }
    ensures mark { IsTrue result → old.now.mark ≡ new.now.mark }
{
    old.op == new.op && old.mark == new.mark
}

/// Whether the new leg sends what the old one does.
fn is_same_leg(numbering: &Numbering, old: &PlannedLeg, new: &PlannedLeg) -> bool
    ensures { (r n : RoutesValue) → IsNumbering r n numbering.now → IsTrue result → AreOneLeg r n (leg_of old.now) (leg_of new.now) }
{
    is_same_way(old, new) && numbering.is_pool(old.symbol, &old.servers, new.symbol, &new.servers)
}

/// Whether both searches go on after the same replies.
fn is_same_search(old: After, new: After) -> bool
    ensures { IsTrue result → old ≡ new }
{
    old == new
}

/// When a shadow is sent: at these indexes of a symbol.
#[derive(Clone, Copy)]
struct Range {
    symbol: usize,
    first: u64,
    last: u64,
}

/// Whether both are the same indexes of one symbol.
fn is_same_range(numbering: &Numbering, old: Range, new: Range) -> bool
    ensures symbol { (r n : RoutesValue) → IsNumbering r n numbering.now → IsTrue result → AreOneSymbol r n old.symbol new.symbol }
    ensures first { IsTrue result → old.first ≡ new.first }
    ensures last { IsTrue result → old.last ≡ new.last }
{
    if old.first != new.first {
        return false;
    }
    if old.last != new.last {
        return false;
    }
    numbering.is_symbol(old.symbol, new.symbol)
}

/// Whether the new plan does what the old one does, but for the positions of its legs.
#[cycle(comparing)]
pub fn is_same_plan(numbering: &Numbering, old: &Plan, new: &Plan) -> bool
    ensures { (r n : RoutesValue) → IsNumbering r n numbering.now → IsTrue result → AreOnePart r n (part_of old.now) (part_of new.now) }
{
    match old {
        Plan::Send(one) => match new {
            Plan::Send(other) => is_same_leg(numbering, one, other),
            _ => false,
        },
        Plan::Reply(one) => match new {
            Plan::Reply(other) => *one == *other,
            _ => false,
        },
        Plan::All(ones) => match new {
            Plan::All(others) => are_same_plans(numbering, ones, others),
            _ => false,
        },
        Plan::Beside(ones) => match new {
            Plan::Beside(others) => are_same_plans(numbering, ones, others),
            _ => false,
        },
        Plan::InTurn(after, ones) => match new {
            Plan::InTurn(other, others) => {
                is_same_search(*after, *other) && are_same_plans(numbering, ones, others)
            }
            _ => false,
        },
        Plan::OnHit(one, fill) => match new {
            Plan::OnHit(other, filling) => {
                is_same_plan(numbering, one, other) && is_same_plan(numbering, fill, filling)
            }
            _ => false,
        },
        Plan::Shadowed {
            symbol,
            first,
            last,
            target,
        } => match new {
            Plan::Shadowed {
                symbol: number,
                first: least,
                last: most,
                target: other,
            } => {
                let range = Range {
                    symbol: *symbol,
                    first: *first,
                    last: *last,
                };
                let ranging = Range {
                    symbol: *number,
                    first: *least,
                    last: *most,
                };
                is_same_range(numbering, range, ranging) && is_same_plan(numbering, target, other)
            }
            _ => false,
        },
    }
}

/// Whether each new plan does what the old one at its place does.
#[cycle(comparing)]
fn are_same_plans(numbering: &Numbering, olds: &[Plan], news: &[Plan]) -> bool
    ensures { (r n : RoutesValue) → IsNumbering r n numbering.now → IsTrue result → AreOneParts r n (map part_of olds.now) (map part_of news.now) }
{
    if olds.len() != news.len() {
        return false;
    }
    for (number, old) in olds.iter().enumerate() {
        if !is_same_plan(numbering, old, &news[number]) {
            return false;
        }
    }
    true
}

/// Whether the leg is a delete that counts.
fn is_counted_delete(leg: &PlannedLeg) -> bool
    ensures delete { IsTrue result → leg.now.op ≡ Delete }
    ensures counted { IsTrue result → is_counting leg.now.mark ≡ true }
{
    leg.op == Op::Delete && leg.mark.is_counting()
}

/// Whether the plan sends the leg that is needed, as a delete's leg that counts.
fn is_needed_leg(numbering: &Numbering, needed: &NeededLeg, plan: &Plan) -> bool
    ensures { (r n : RoutesValue) → IsNumbering r n numbering.now → IsTrue result → IsAddedPart r n (leg_value needed.now) (part_of plan.now) }
{
    match plan {
        Plan::Send(leg) => {
            is_counted_delete(leg)
                && numbering.is_pool(needed.symbol, &needed.servers, leg.symbol, &leg.servers)
        }
        _ => false,
    }
}

/// Whether the plans send the legs that are needed, each its own.
fn are_needed_legs(numbering: &Numbering, needed: &[NeededLeg], plans: &[Plan]) -> bool
    ensures { (r n : RoutesValue) → IsNumbering r n numbering.now → IsTrue result → AreAddedParts r n (legs_value needed.now) (map part_of plans.now) }
{
    if needed.len() != plans.len() {
        return false;
    }
    for (number, leg) in needed.iter().enumerate() {
        if !is_needed_leg(numbering, leg, &plans[number]) {
            return false;
        }
    }
    true
}

/// Whether the new plan does what the old one does, and sends the legs that are needed beside it, or waits for them too.
pub fn is_widened(numbering: &Numbering, old: &Plan, new: &Plan, needed: &[NeededLeg]) -> bool
    ensures { (r n : RoutesValue) → IsNumbering r n numbering.now → IsTrue result → IsWidened r n (legs_value needed.now) (whole_of old.now) (whole_of new.now) }
{
    if needed.is_empty() {
        return is_same_plan(numbering, old, new);
    }
    match new {
        Plan::All(news) => is_all_widened(numbering, old, news, needed),
        Plan::Beside(news) => is_beside_widened(numbering, old, news, needed),
        _ => false,
    }
}

/// The same of a new plan that waits for all of these.
fn is_all_widened(numbering: &Numbering, old: &Plan, news: &[Plan], needed: &[NeededLeg]) -> bool
    ensures { (r n : RoutesValue) → IsNumbering r n numbering.now → IsTrue result → IsWidened r n (legs_value needed.now) (whole_of old.now) (all_of (map whole_of news.now)) }
{
    if needed.len() >= news.len() {
        return false;
    }
    let (front, added) = news.split_at(news.len() - needed.len());
    are_needed_legs(numbering, needed, added) && is_all_of(numbering, old, front)
}

/// Whether this is one plan, and does what the old one does.
fn is_only(numbering: &Numbering, old: &Plan, news: &[Plan]) -> bool
    ensures { (r n : RoutesValue) → IsNumbering r n numbering.now → IsTrue result → AreOnePlan r n (whole_of old.now) (all_of (map whole_of news.now)) }
{
    if news.len() != 1 {
        return false;
    }
    is_same_plan(numbering, old, &news[0])
}

/// Whether a plan that waits for all of these, one or more, does what the old one does.
fn is_all_of(numbering: &Numbering, old: &Plan, news: &[Plan]) -> bool
    ensures { (r n : RoutesValue) → IsNumbering r n numbering.now → IsTrue result → AreOnePlan r n (whole_of old.now) (all_of (map whole_of news.now)) }
{
    if is_only(numbering, old, news) {
        return true;
    }
    match old {
        Plan::All(olds) => are_same_plans(numbering, olds, news),
        _ => false,
    }
}

/// The same of a new plan that sends all of these at once.
fn is_beside_widened(numbering: &Numbering, old: &Plan, news: &[Plan], needed: &[NeededLeg]) -> bool
    ensures { (r n : RoutesValue) → IsNumbering r n numbering.now → IsTrue result → IsWidened r n (legs_value needed.now) (whole_of old.now) (led_by (map part_of news.now)) }
{
    if needed.len() >= news.len() {
        return false;
    }
    let Plan::Beside(olds) = old else {
        return false;
    };
    let (front, added) = news.split_at(news.len() - needed.len());
    are_same_plans(numbering, olds, front) && are_needed_legs(numbering, needed, added)
}
