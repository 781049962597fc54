//! What a plan answers, and when it first did.

ghost use Rattle.std.specs.Prelude.{◌≡◌, map};
ghost use Rattle.mcv_base.specs.declared.reply.FixedReply.TheVariants.{ErrorRoute};
ghost use Rattle.mcv_route.specs.Children.{child_or, together};
ghost use Rattle.mcv_rules.specs.Arrivals.{all_arrived, arrived_at_once, known_at, next_arrived};
ghost use Rattle.mcv_rules.specs.PlanInMemory.{arrived};

use crate::arrival::{After, Arrival};
use crate::known::Known;
use crate::plan::Plan;
use mcv_base::FixedReply;

/// The plan's answer at these outcomes.
#[cycle(arriving)]
pub fn arrive(plan: &Plan, known: &Known) -> Arrival
    ensures { result ≡ arrived (known_at known.now) plan.now }
{
    match plan {
        Plan::Send(leg) => known.own(&leg.position),
        Plan::Reply(reply) => Arrival::at_once(*reply),
        Plan::All(plans) => arrive_all(plans, known),
        Plan::Beside(plans) => arrive_first(plans, known),
        Plan::InTurn(after, plans) => arrive_in_turn(plans, *after, known),
        Plan::OnHit(plan, _) => arrive(plan, known),
        Plan::Shadowed { target, .. } => arrive(target, known),
    }
}

/// The one answer of plans that go at once and are all waited for.
#[cycle(arriving)]
fn arrive_all(plans: &[Plan], known: &Known) -> Arrival
    ensures { result ≡ all_arrived (map (arrived (known_at known.now)) plans.now) }
{
    let Some((first, others)) = plans.split_first() else {
        return Arrival::at_once(FixedReply::ErrorRoute);
    };
    let mut prevails = arrive(first, known);
    let mut came = prevails.came;
    for plan in others {
        let next = arrive(plan, known);
        came = came.max(next.came);
        prevails = prevails.later(next);
    }
    Arrival {
        answer: prevails.answer,
        came,
    }
}

/// The answer of plans of which the first is waited for.
#[cycle(arriving)]
fn arrive_first(plans: &[Plan], known: &Known) -> Arrival
    ensures { result ≡ child_or (arrived_at_once ErrorRoute) 0 (map (arrived (known_at known.now)) plans.now) }
{
    match plans.first() {
        Some(first) => arrive(first, known),
        None => Arrival::at_once(FixedReply::ErrorRoute),
    }
}

/// The answer at which a search stops.
#[cycle(arriving)]
fn arrive_in_turn(plans: &[Plan], after: After, known: &Known) -> Arrival
    ensures { result ≡ together (next_arrived after) (arrived_at_once ErrorRoute) (map (arrived (known_at known.now)) plans.now) }
{
    let Some((first, others)) = plans.split_first() else {
        return Arrival::at_once(FixedReply::ErrorRoute);
    };
    let mut answer = arrive(first, known);
    for plan in others {
        if !after.goes_on_after(answer.outcome()) {
            return answer;
        }
        answer = answer.or_next(after, arrive(plan, known));
    }
    answer
}
