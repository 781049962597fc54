//! The answers that lead to a reply, or to a hit of a leg: one walk over the nodes of the plan each.

ghost use Rattle.std.specs.Prelude.{◌≡◌, ◌++◌, IfOk, OnOk, Option, length, map, take};
ghost use Rattle.mcv_base.specs.declared.reply.Outcome.{Outcome as Outcomes};
ghost use Rattle.mcv_route.specs.Outcomes.{History};
ghost use Rattle.mcv_rules.specs.Plan.{Both, Plan as Planned, Send};
ghost use Rattle.mcv_rules.specs.NormalForm.{all_of, led_by, leg_of, part_of, turns_of, whole_of};
ghost use Rattle.mcv_symbolic.specs.ShownAnswers.{answers, first_hit, history_of, leaf_hit};
ghost use Rattle.mcv_symbolic.specs.Structure.{if_all};
ghost use Rattle.mcv_symbolic.specs.HitSearch.{IsAdded, IsLead, IsTried, goes_on_after, is_hit, passed_on};

use mcv_base::{Outcome, Position};
use mcv_rules::{After, Plan, PlannedLeg};
use std::alloc::AllocError;

/// What a leg answered.
#[derive(Clone, Copy)]
pub struct LegAnswer<'a> {
    pub leg: &'a PlannedLeg,
    pub outcome: Outcome,
}

/// Adds the answers by which the plan has its reply where each leg that it needs answers so; reports the reply.
#[cycle(answering)]
pub fn push_answers<'a>(
    plan: &'a Plan,
    answer: Outcome,
    legs: &mut Vec<LegAnswer<'a>>,
) -> Result<Outcome, AllocError>
    ensures legs { OnOk result (history_of legs.new.items ≡ history_of legs.old.items ++ answers answer (whole_of plan.now)) }
    ensures reply { IfOk result (λ x. x ≡ if_all answer (whole_of plan.now)) }
{
    match plan {
        Plan::Send(leg) => {
            legs.push(LegAnswer {
                leg,
                outcome: answer,
            })?;
            Ok(answer)
        }
        Plan::Reply(reply) => Ok(reply.outcome()),
        Plan::All(children) => push_answers_of_all(children, answer, legs),
        Plan::Beside(children) => push_answers_of_first(children, answer, legs),
        Plan::InTurn(after, children) => push_answers_in_turn(*after, children, answer, legs),
        Plan::OnHit(first, _) => push_answers(first, answer, legs),
        Plan::Shadowed { .. } => Ok(Outcome::Error),
    }
}

/// The same of all at once.
#[cycle(answering)]
fn push_answers_of_all<'a>(
    children: &'a [Plan],
    answer: Outcome,
    legs: &mut Vec<LegAnswer<'a>>,
) -> Result<Outcome, AllocError>
    ensures legs { OnOk result (history_of legs.new.items ≡ history_of legs.old.items ++ answers answer (all_of (map whole_of children.now))) }
    ensures reply { IfOk result (λ x. x ≡ if_all answer (all_of (map whole_of children.now))) }
{
    let Some((first, others)) = children.split_first() else {
        return Ok(Outcome::Error);
    };
    let mut reply = push_answers(first, answer, legs)?;
    for child in others {
        let next = push_answers(child, answer, legs)?;
        reply = reply.worse(next);
    }
    Ok(reply)
}

/// The same of the first.
#[cycle(answering)]
fn push_answers_of_first<'a>(
    children: &'a [Plan],
    answer: Outcome,
    legs: &mut Vec<LegAnswer<'a>>,
) -> Result<Outcome, AllocError>
    ensures legs { OnOk result (history_of legs.new.items ≡ history_of legs.old.items ++ answers answer (led_by (map part_of children.now))) }
    ensures reply { IfOk result (λ x. x ≡ if_all answer (led_by (map part_of children.now))) }
{
    match children.first() {
        Some(first) => push_answers(first, answer, legs),
        None => Ok(Outcome::Error),
    }
}

/// The same of a search.
#[cycle(answering)]
fn push_answers_in_turn<'a>(
    after: After,
    children: &'a [Plan],
    answer: Outcome,
    legs: &mut Vec<LegAnswer<'a>>,
) -> Result<Outcome, AllocError>
    ensures legs { OnOk result (history_of legs.new.items ≡ history_of legs.old.items ++ answers answer (turns_of after (map whole_of children.now))) }
    ensures reply { IfOk result (λ x. x ≡ if_all answer (turns_of after (map whole_of children.now))) }
{
    let Some((first, others)) = children.split_first() else {
        return Ok(Outcome::Error);
    };
    let mut reply = push_answers(first, answer, legs)?;
    for child in others {
        if !after.goes_on(reply) {
            return Ok(reply);
        }
        reply = push_answers(child, answer, legs)?;
    }
    Ok(reply)
}

/// The same in place of all behind the first `start`.
fn push_instead<'a>(
    plan: &'a Plan,
    answer: Outcome,
    start: usize,
    legs: &mut Vec<LegAnswer<'a>>,
) -> Result<Outcome, AllocError>
    ensures legs { OnOk result (history_of legs.new.items ≡ take start (history_of legs.old.items) ++ answers answer (whole_of plan.now)) }
    ensures reply { IfOk result (λ x. x ≡ if_all answer (whole_of plan.now)) }
{
    legs.truncate(start);
    push_answers(plan, answer, legs)
}

/// What a walk that looks for a hit has added.
#[derive(Clone, Copy, PartialEq, Eq)]
pub enum Added {
    /// The answers by which the hit is the reply.
    Hit,
    /// There are none. The answers that are all alike, and this is the reply.
    Alike(Outcome),
}

fn is_hit(added: Added) -> bool
    ensures { result ≡ is_hit added }
{
    match added {
        Added::Hit => true,
        Added::Alike(_) => false,
    }
}

/// The answer of each leg by which a search goes on as far as it can.
fn passed_on(after: After) -> Outcome
    ensures { result ≡ passed_on after }
{
    match after {
        After::Error => Outcome::Error,
        After::Miss => Outcome::Soft,
    }
}

/// After a search in the plan, which added those answers that pass it on where it found nothing: in place of them the
/// answers that are all this one.
fn settled<'a>(
    added: Added,
    after: After,
    plan: &'a Plan,
    answer: Outcome,
    start: usize,
    legs: &mut Vec<LegAnswer<'a>>,
) -> Result<Added, AllocError>
    ensures { (found : Option History) (before : History) → start ≡ length before
        → IsAdded found (answers (passed_on after) (whole_of plan.now)) (if_all (passed_on after) (whole_of plan.now)) added before (history_of legs.old.items)
        → IfOk result (λ r. IsAdded found (answers answer (whole_of plan.now)) (if_all answer (whole_of plan.now)) r before (history_of legs.new.items)) }
{
    match added {
        Added::Hit => Ok(Added::Hit),
        Added::Alike(reply) => {
            if passed_on(after) == answer {
                Ok(Added::Alike(reply))
            } else {
                Ok(Added::Alike(push_instead(plan, answer, start, legs)?))
            }
        }
    }
}

// ---- the first hit

/// Adds the answers by which the first leg that can hit hits; reports whether there is one. Where there is none, some
/// answers may have been added.
#[cycle(hits)]
pub fn push_first_hit<'a>(plan: &'a Plan, legs: &mut Vec<LegAnswer<'a>>) -> Result<bool, AllocError>
    ensures { IfOk result (λ found. IsTried (first_hit (whole_of plan.now)) found (history_of legs.old.items) (history_of legs.new.items)) }
{
    match plan {
        Plan::Send(leg) => {
            legs.push(LegAnswer {
                leg,
                outcome: Outcome::Good,
            })?;
            Ok(true)
        }
        Plan::Reply(_) => Ok(false),
        Plan::All(children) => push_all_hits(children, legs),
        Plan::Beside(children) => push_hit_of_first(children, legs),
        Plan::InTurn(after, children) => Ok(is_hit(push_hit_in_turn(*after, children, legs)?)),
        Plan::OnHit(first, _) => push_first_hit(first, legs),
        Plan::Shadowed { .. } => Ok(false),
    }
}

/// Adds the answers by which all hit; reports whether all can.
#[cycle(hits)]
fn push_all_hits<'a>(
    children: &'a [Plan],
    legs: &mut Vec<LegAnswer<'a>>,
) -> Result<bool, AllocError>
    ensures { IfOk result (λ found. IsTried (first_hit (all_of (map whole_of children.now))) found (history_of legs.old.items) (history_of legs.new.items)) }
{
    let Some((first, others)) = children.split_first() else {
        return Ok(false);
    };
    let mut found = push_first_hit(first, legs)?;
    for child in others {
        if !found {
            return Ok(false);
        }
        found = push_first_hit(child, legs)?;
    }
    Ok(found)
}

/// The same of the first.
#[cycle(hits)]
fn push_hit_of_first<'a>(
    children: &'a [Plan],
    legs: &mut Vec<LegAnswer<'a>>,
) -> Result<bool, AllocError>
    ensures { IfOk result (λ found. IsTried (first_hit (led_by (map part_of children.now))) found (history_of legs.old.items) (history_of legs.new.items)) }
{
    match children.first() {
        Some(first) => push_first_hit(first, legs),
        None => Ok(false),
    }
}

/// Adds the answers by which the first leg that can hit hits; where there is none, those that are all alike.
#[cycle(hits)]
fn push_hit_or_answers<'a>(
    plan: &'a Plan,
    answer: Outcome,
    legs: &mut Vec<LegAnswer<'a>>,
) -> Result<Added, AllocError>
    ensures { IfOk result (λ r. IsAdded (first_hit (whole_of plan.now)) (answers answer (whole_of plan.now)) (if_all answer (whole_of plan.now)) r (history_of legs.old.items) (history_of legs.new.items)) }
{
    let start = legs.len();
    match plan {
        Plan::Send(leg) => {
            legs.push(LegAnswer {
                leg,
                outcome: Outcome::Good,
            })?;
            Ok(Added::Hit)
        }
        Plan::Reply(reply) => Ok(Added::Alike(reply.outcome())),
        Plan::All(children) => {
            if push_all_hits(children, legs)? {
                Ok(Added::Hit)
            } else {
                Ok(Added::Alike(push_instead(plan, answer, start, legs)?))
            }
        }
        Plan::Beside(children) => push_hit_or_answers_of_first(children, answer, legs),
        Plan::InTurn(after, children) => {
            let added = push_hit_in_turn(*after, children, legs)?;
            settled(added, *after, plan, answer, start, legs)
        }
        Plan::OnHit(first, _) => push_hit_or_answers(first, answer, legs),
        Plan::Shadowed { .. } => Ok(Added::Alike(Outcome::Error)),
    }
}

/// The same of the first.
#[cycle(hits)]
fn push_hit_or_answers_of_first<'a>(
    children: &'a [Plan],
    answer: Outcome,
    legs: &mut Vec<LegAnswer<'a>>,
) -> Result<Added, AllocError>
    ensures { let whole = led_by (map part_of children.now) in
        IfOk result (λ r. IsAdded (first_hit whole) (answers answer whole) (if_all answer whole) r (history_of legs.old.items) (history_of legs.new.items)) }
{
    match children.first() {
        Some(first) => push_hit_or_answers(first, answer, legs),
        None => Ok(Added::Alike(Outcome::Error)),
    }
}

/// The same of a search, with the answers that pass it on.
#[cycle(hits)]
fn push_hit_in_turn<'a>(
    after: After,
    children: &'a [Plan],
    legs: &mut Vec<LegAnswer<'a>>,
) -> Result<Added, AllocError>
    ensures { let whole = turns_of after (map whole_of children.now) in
        IfOk result (λ r. IsAdded (first_hit whole) (answers (passed_on after) whole) (if_all (passed_on after) whole) r (history_of legs.old.items) (history_of legs.new.items)) }
{
    let answer = passed_on(after);
    let Some((first, others)) = children.split_first() else {
        return Ok(Added::Alike(Outcome::Error));
    };
    let mut added = push_hit_or_answers(first, answer, legs)?;
    for child in others {
        if !goes_on_after(after, added) {
            return Ok(added);
        }
        added = push_hit_or_answers(child, answer, legs)?;
    }
    Ok(added)
}

/// Whether a search goes on after what was added.
fn goes_on_after(after: After, added: Added) -> bool
    ensures { result ≡ goes_on_after after added }
{
    match added {
        Added::Hit => false,
        Added::Alike(reply) => after.goes_on(reply),
    }
}

// ---- a hit of the leg at a position

/// What a walk that looks for a hit of a leg, and else for any, has added.
#[derive(Clone, Copy, PartialEq, Eq)]
pub enum Lead {
    /// The answers by which the leg hits, and its hit is the reply.
    Led,
    /// There are none. The answers by which the first leg that can hit hits.
    Hit,
    /// There are neither. Some answers may have been added.
    Neither,
}

/// After a search in the plan for the leg, in place of answers that are all alike the first hit.
fn led<'a>(
    added: Added,
    plan: &'a Plan,
    start: usize,
    legs: &mut Vec<LegAnswer<'a>>,
) -> Result<Lead, AllocError>
    ensures { (found : Option History) (others : History) (y : Outcomes) (before : History) → start ≡ length before
        → IsAdded found others y added before (history_of legs.old.items)
        → IfOk result (λ r. IsLead found (first_hit (whole_of plan.now)) r before (history_of legs.new.items)) }
{
    match added {
        Added::Hit => Ok(Lead::Led),
        Added::Alike(_) => {
            legs.truncate(start);
            if push_first_hit(plan, legs)? {
                Ok(Lead::Hit)
            } else {
                Ok(Lead::Neither)
            }
        }
    }
}

/// Adds the answers by which the leg at the position hits, and its hit is the reply; where there are none, those by
/// which the first leg that can hit hits.
#[cycle(leads)]
fn push_lead<'a>(
    plan: &'a Plan,
    leaf: &Position,
    legs: &mut Vec<LegAnswer<'a>>,
) -> Result<Lead, AllocError>
    ensures { IfOk result (λ r. IsLead (leaf_hit leaf.now (whole_of plan.now)) (first_hit (whole_of plan.now)) r (history_of legs.old.items) (history_of legs.new.items)) }
{
    let start = legs.len();
    match plan {
        Plan::Send(leg) => push_leg(leg, leaf, legs),
        Plan::Reply(_) => Ok(Lead::Neither),
        Plan::All(children) => push_all_leads(children, leaf, legs),
        Plan::Beside(children) => push_lead_of_first(children, leaf, legs),
        Plan::InTurn(after, children) => {
            let added = push_leaf_hit_in_turn(*after, children, leaf, legs)?;
            led(added, plan, start, legs)
        }
        Plan::OnHit(first, _) => push_lead(first, leaf, legs),
        Plan::Shadowed { .. } => Ok(Lead::Neither),
    }
}

/// Adds a hit of the leg; reports whether it is the one at the position.
fn push_leg<'a>(
    leg: &'a PlannedLeg,
    leaf: &Position,
    legs: &mut Vec<LegAnswer<'a>>,
) -> Result<Lead, AllocError>
    ensures { IfOk result (λ r. IsLead (leaf_hit leaf.now (Send (leg_of leg.now))) (first_hit (Send (leg_of leg.now))) r (history_of legs.old.items) (history_of legs.new.items)) }
{
    legs.push(LegAnswer {
        leg,
        outcome: Outcome::Good,
    })?;
    if leg.position.is(leaf) {
        Ok(Lead::Led)
    } else {
        Ok(Lead::Hit)
    }
}

/// The same of the first.
#[cycle(leads)]
fn push_lead_of_first<'a>(
    children: &'a [Plan],
    leaf: &Position,
    legs: &mut Vec<LegAnswer<'a>>,
) -> Result<Lead, AllocError>
    ensures { let whole = led_by (map part_of children.now) in
        IfOk result (λ r. IsLead (leaf_hit leaf.now whole) (first_hit whole) r (history_of legs.old.items) (history_of legs.new.items)) }
{
    match children.first() {
        Some(first) => push_lead(first, leaf, legs),
        None => Ok(Lead::Neither),
    }
}

/// The same where all have to hit.
#[cycle(leads)]
fn push_all_leads<'a>(
    children: &'a [Plan],
    leaf: &Position,
    legs: &mut Vec<LegAnswer<'a>>,
) -> Result<Lead, AllocError>
    ensures { let whole = all_of (map whole_of children.now) in
        IfOk result (λ r. IsLead (leaf_hit leaf.now whole) (first_hit whole) r (history_of legs.old.items) (history_of legs.new.items)) }
{
    let Some((first, others)) = children.split_first() else {
        return Ok(Lead::Neither);
    };
    let mut lead = push_lead(first, leaf, legs)?;
    for child in others {
        lead = push_next_lead(lead, child, leaf, legs)?;
    }
    Ok(lead)
}

/// One child more that has to hit, after those so far.
#[cycle(leads)]
fn push_next_lead<'a>(
    lead: Lead,
    next: &'a Plan,
    leaf: &Position,
    legs: &mut Vec<LegAnswer<'a>>,
) -> Result<Lead, AllocError>
    ensures { IfOk result (λ r. (so_far : Planned) (before : History) → IsLead (leaf_hit leaf.now so_far) (first_hit so_far) lead before (history_of legs.old.items)
        → IsLead (leaf_hit leaf.now (Both so_far (whole_of next.now))) (first_hit (Both so_far (whole_of next.now))) r before (history_of legs.new.items)) }
{
    match lead {
        Lead::Led => {
            if push_first_hit(next, legs)? {
                Ok(Lead::Led)
            } else {
                Ok(Lead::Neither)
            }
        }
        Lead::Hit => push_lead(next, leaf, legs),
        Lead::Neither => Ok(Lead::Neither),
    }
}

/// Adds the answers by which the leg at the position hits, and its hit is the reply; where there are none, those that
/// are all alike.
#[cycle(leads)]
pub fn push_leaf_hit<'a>(
    plan: &'a Plan,
    leaf: &Position,
    answer: Outcome,
    legs: &mut Vec<LegAnswer<'a>>,
) -> Result<Added, AllocError>
    ensures { IfOk result (λ r. IsAdded (leaf_hit leaf.now (whole_of plan.now)) (answers answer (whole_of plan.now)) (if_all answer (whole_of plan.now)) r (history_of legs.old.items) (history_of legs.new.items)) }
{
    let start = legs.len();
    match plan {
        Plan::Send(leg) => push_answer_of(leg, leaf, answer, legs),
        Plan::Reply(reply) => Ok(Added::Alike(reply.outcome())),
        Plan::All(children) => match push_all_leads(children, leaf, legs)? {
            Lead::Led => Ok(Added::Hit),
            Lead::Hit | Lead::Neither => {
                Ok(Added::Alike(push_instead(plan, answer, start, legs)?))
            }
        },
        Plan::Beside(children) => push_leaf_hit_of_first(children, leaf, answer, legs),
        Plan::InTurn(after, children) => {
            let added = push_leaf_hit_in_turn(*after, children, leaf, legs)?;
            settled(added, *after, plan, answer, start, legs)
        }
        Plan::OnHit(first, _) => push_leaf_hit(first, leaf, answer, legs),
        Plan::Shadowed { .. } => Ok(Added::Alike(Outcome::Error)),
    }
}

/// Adds a hit of the leg, where it is the one at the position, and else this answer.
fn push_answer_of<'a>(
    leg: &'a PlannedLeg,
    leaf: &Position,
    answer: Outcome,
    legs: &mut Vec<LegAnswer<'a>>,
) -> Result<Added, AllocError>
    ensures { IfOk result (λ r. IsAdded (leaf_hit leaf.now (Send (leg_of leg.now))) (answers answer (Send (leg_of leg.now))) answer r (history_of legs.old.items) (history_of legs.new.items)) }
{
    if leg.position.is(leaf) {
        legs.push(LegAnswer {
            leg,
            outcome: Outcome::Good,
        })?;
        return Ok(Added::Hit);
    }
    legs.push(LegAnswer {
        leg,
        outcome: answer,
    })?;
    Ok(Added::Alike(answer))
}

/// The same of the first.
#[cycle(leads)]
fn push_leaf_hit_of_first<'a>(
    children: &'a [Plan],
    leaf: &Position,
    answer: Outcome,
    legs: &mut Vec<LegAnswer<'a>>,
) -> Result<Added, AllocError>
    ensures { let whole = led_by (map part_of children.now) in
        IfOk result (λ r. IsAdded (leaf_hit leaf.now whole) (answers answer whole) (if_all answer whole) r (history_of legs.old.items) (history_of legs.new.items)) }
{
    match children.first() {
        Some(first) => push_leaf_hit(first, leaf, answer, legs),
        None => Ok(Added::Alike(Outcome::Error)),
    }
}

/// The same of a search, with the answers that pass it on.
#[cycle(leads)]
fn push_leaf_hit_in_turn<'a>(
    after: After,
    children: &'a [Plan],
    leaf: &Position,
    legs: &mut Vec<LegAnswer<'a>>,
) -> Result<Added, AllocError>
    ensures { let whole = turns_of after (map whole_of children.now) in
        IfOk result (λ r. IsAdded (leaf_hit leaf.now whole) (answers (passed_on after) whole) (if_all (passed_on after) whole) r (history_of legs.old.items) (history_of legs.new.items)) }
{
    let answer = passed_on(after);
    let Some((first, others)) = children.split_first() else {
        return Ok(Added::Alike(Outcome::Error));
    };
    let mut added = push_leaf_hit(first, leaf, answer, legs)?;
    for child in others {
        if !goes_on_after(after, added) {
            return Ok(added);
        }
        added = push_leaf_hit(child, leaf, answer, legs)?;
    }
    Ok(added)
}
