//! The legs that a plan has sent.

ghost use Rattle.std.specs.Prelude.{◌≡◌, ◌++◌, IfOk, OnOk, map, slice_index};
ghost use Rattle.mcv_base.specs.declared.reply.Outcome.TheVariants.{Error};
ghost use Rattle.mcv_route.specs.Children.{child_or, is_within, joined, together};
ghost use Rattle.mcv_rules.specs.Arrivals.{known_at, outcome_in};
ghost use Rattle.mcv_rules.specs.PlanInMemory.{is_hit, legs_each, next_reply, replies_each, searched, sent};
ghost use Rattle.mcv_rules.specs.Plan.{both};

use crate::arrival::After;
use crate::known::Known;
use crate::plan::Plan;
use mcv_base::Outcome;
use mcv_pools::Choice;
use mcv_route::Launch;
use std::alloc::{AllocError, Global};

/// Adds the legs that the plan has sent, in the order of their positions, and reports what its reply amounts to.
#[cycle(sending)]
pub fn send(
    alloc: Global,
    plan: &Plan,
    choice: &Choice,
    known: &Known,
    found: &mut Vec<Launch>,
) -> Result<Option<Outcome>, AllocError>
    ensures legs { OnOk result (found.new.items ≡ found.old.items ++ (sent (slice_index choice.now) (outcome_in (known_at known.now)) plan.now).legs) }
    ensures reply { IfOk result (λ r. r ≡ (sent (slice_index choice.now) (outcome_in (known_at known.now)) plan.now).reply) }
{
    match plan {
        Plan::Send(leg) => {
            found.push(leg.launch(alloc, choice)?)?;
            Ok(known.own(&leg.position).outcome())
        }
        Plan::Reply(reply) => Ok(Some(reply.outcome())),
        Plan::All(plans) => send_all(alloc, plans, choice, known, found),
        Plan::Beside(plans) => send_beside(alloc, plans, choice, known, found),
        Plan::InTurn(after, plans) => send_in_turn(alloc, plans, *after, choice, known, found),
        Plan::OnHit(plan, filling) => {
            let reply = send(alloc, plan, choice, known, found)?;
            if is_hit(reply) {
                send(alloc, filling, choice, known, found)?;
            }
            Ok(reply)
        }
        Plan::Shadowed {
            symbol,
            first,
            last,
            target,
        } => {
            if is_within(*first, *last, choice.index(*symbol)) {
                send(alloc, target, choice, known, found)?;
            }
            Ok(None)
        }
    }
}

fn is_hit(reply: Option<Outcome>) -> bool
    ensures { result ≡ is_hit reply }
{
    match reply {
        None => false,
        Some(outcome) => matches!(outcome, Outcome::Good),
    }
}

fn is_within(first: u64, last: u64, index: usize) -> bool
    ensures { result ≡ is_within (record { first = first; last = last }) index }
{
    let index = index as u64;
    first <= index && index <= last
}

/// The legs of all, and the worst reply, once all are there.
#[cycle(sending)]
fn send_all(
    alloc: Global,
    plans: &[Plan],
    choice: &Choice,
    known: &Known,
    found: &mut Vec<Launch>,
) -> Result<Option<Outcome>, AllocError>
    ensures legs { OnOk result (found.new.items ≡ found.old.items ++ joined (legs_each (map (sent (slice_index choice.now) (outcome_in (known_at known.now))) plans.now))) }
    ensures reply { IfOk result (λ r. r ≡ together both (Some Error) (replies_each (map (sent (slice_index choice.now) (outcome_in (known_at known.now))) plans.now))) }
{
    let Some((first, others)) = plans.split_first() else {
        return Ok(Some(Outcome::Error));
    };
    let mut worst = send(alloc, first, choice, known, found)?;
    for plan in others {
        let next = send(alloc, plan, choice, known, found)?;
        worst = worse(worst, next);
    }
    Ok(worst)
}

/// The worse of two replies, once both are there.
fn worse(first: Option<Outcome>, second: Option<Outcome>) -> Option<Outcome>
    ensures { result ≡ both first second }
{
    Some(first?.worse(second?))
}

/// The legs of all, and the first one's reply.
#[cycle(sending)]
fn send_beside(
    alloc: Global,
    plans: &[Plan],
    choice: &Choice,
    known: &Known,
    found: &mut Vec<Launch>,
) -> Result<Option<Outcome>, AllocError>
    ensures legs { OnOk result (found.new.items ≡ found.old.items ++ joined (legs_each (map (sent (slice_index choice.now) (outcome_in (known_at known.now))) plans.now))) }
    ensures reply { IfOk result (λ r. r ≡ child_or (Some Error) 0 (replies_each (map (sent (slice_index choice.now) (outcome_in (known_at known.now))) plans.now))) }
{
    let Some((first, others)) = plans.split_first() else {
        return Ok(Some(Outcome::Error));
    };
    let reply = send(alloc, first, choice, known, found)?;
    for plan in others {
        send(alloc, plan, choice, known, found)?;
    }
    Ok(reply)
}

/// The legs of each before which the search goes on after all, and the last one's reply.
#[cycle(sending)]
fn send_in_turn(
    alloc: Global,
    plans: &[Plan],
    after: After,
    choice: &Choice,
    known: &Known,
    found: &mut Vec<Launch>,
) -> Result<Option<Outcome>, AllocError>
    ensures legs { OnOk result (found.new.items ≡ found.old.items ++ searched after (map (sent (slice_index choice.now) (outcome_in (known_at known.now))) plans.now)) }
    ensures reply { IfOk result (λ r. r ≡ together (next_reply after) (Some Error) (replies_each (map (sent (slice_index choice.now) (outcome_in (known_at known.now))) plans.now))) }
{
    let Some((first, others)) = plans.split_first() else {
        return Ok(Some(Outcome::Error));
    };
    let mut reply = send(alloc, first, choice, known, found)?;
    for plan in others {
        if !after.goes_on_after(reply) {
            return Ok(reply);
        }
        reply = send(alloc, plan, choice, known, found)?;
    }
    Ok(reply)
}
