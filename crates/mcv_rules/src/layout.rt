//! The plan of a route, laid out for what it is asked at its place: one arm for each handle.

ghost use Rattle.std.specs.Prelude.{◌≡◌, ℕ, IfOk, [], ◌∷◌, map, true};
ghost use Rattle.mcv_route.specs.Children.{is_policy_for, policy_of, prefix_policy};
ghost use Rattle.mcv_route.specs.Misses.{is_warmed_up};
ghost use Rattle.mcv_route.specs.Situation.{Situation, adding, under};
ghost use Rattle.mcv_route.specs.Tree.{Tree, many, AllSync, AllInitial, AllAsync, MissFailover, child, none, pool, warm_up};
ghost use Rattle.mcv_route.specs.View.{operation_view, pool_view, view};
ghost use Rattle.mcv_rules.specs.PlanInMemory.{ServeEach, Serves, children_of, longer_of, operations_of, prefixes_of, ranges_of, situation_at, targets_of};

use crate::arrival::After;
use crate::asked::{Asked, Way};
use crate::plan::{Plan, PlannedLeg};
use crate::status::default_reply;
use mcv_base::{FixedReply, Op, Position, Rest, begins_with};
use mcv_route::{Leaf, Many, OperationPolicy, PrefixPolicy, Route, Shadow};
use std::alloc::{AllocError, Global};
use std::sync::Arc;

/// The plan of the route at this position.
#[cycle(planning)]
pub fn laid_out(
    alloc: Global,
    route: &Route,
    asked: &Asked,
    position: &Position,
) -> Result<Plan, AllocError>
    ensures { IfOk result (λ p. Serves p (view route.now) (situation_at asked.now position.now)) }
{
    match route {
        Route::Pool { leaf, shadows } => with_shadows(alloc, shadows, leaf, asked, position),
        Route::Null => Ok(Plan::Reply(default_reply(asked.op))),
        Route::Error => Ok(Plan::Reply(FixedReply::ErrorRoute)),
        Route::Many(kind, children) => many_laid_out(alloc, *kind, children, asked, position),
        Route::WarmUp {
            cold,
            warm,
            exptime: _,
        } => {
            let first = child_laid_out(alloc, cold, asked, position, 0)?;
            if asked.is_warmed_up() {
                let second = child_laid_out(alloc, warm, asked, position, 1)?;
                let filling = child_laid_out(alloc, cold, &asked.adding(), position, 2)?;
                filled(alloc, first, second, filling)
            } else {
                Ok(first)
            }
        }
        Route::Migrate {
            from,
            to,
            start,
            interval,
        } => match asked.way(*start, *interval) {
            Way::From => child_laid_out(alloc, from, asked, position, 0),
            Way::To => child_laid_out(alloc, to, asked, position, 1),
            Way::Both => {
                let first = child_laid_out(alloc, from, asked, position, 0)?;
                let second = child_laid_out(alloc, to, asked, position, 1)?;
                both(alloc, first, second)
            }
        },
        Route::PrefixSelector { policies, wildcard } => {
            let number = prefix_number(policies, asked.rest);
            if number < policies.len() {
                let policy = &policies[number];
                return child_laid_out(alloc, &policy.route, asked, position, number);
            }
            match wildcard {
                Some(route) => child_laid_out(alloc, route, asked, position, number),
                None => Ok(Plan::Reply(FixedReply::ErrorRoute)),
            }
        }
        Route::OperationSelector {
            policies,
            default_policy,
        } => {
            let number = policy_number(policies, asked.op);
            if number < policies.len() {
                let policy = &policies[number];
                child_laid_out(alloc, &policy.route, asked, position, number)
            } else {
                match default_policy {
                    Some(route) => child_laid_out(alloc, route, asked, position, number),
                    None => Ok(Plan::Reply(FixedReply::ErrorRoute)),
                }
            }
        }
    }
}

/// The plan of a handle of this kind with these children, at this position.
#[cycle(planning)]
fn many_laid_out(
    alloc: Global,
    kind: Many,
    children: &[Route],
    asked: &Asked,
    position: &Position,
) -> Result<Plan, AllocError>
    ensures { IfOk result (λ p. Serves p (many kind (children_of children.now)) (situation_at asked.now position.now)) }
{
    match kind {
        Many::AllSync => Ok(Plan::All(each_laid_out(alloc, children, asked, position)?)),
        Many::AllInitial => first_waited_for(alloc, children, asked, position),
        Many::AllAsync => none_waited_for(alloc, children, asked, position),
        Many::Failover => {
            let plans = each_laid_out(alloc, children, asked, position)?;
            Ok(Plan::InTurn(After::Error, plans))
        }
        Many::MissFailover => misses_passed_on(alloc, children, asked, position),
    }
}

/// The plan of the child with this number of the handle at this position.
#[cycle(planning)]
fn child_laid_out(
    alloc: Global,
    child: &Route,
    asked: &Asked,
    position: &Position,
    number: usize,
) -> Result<Plan, AllocError>
    ensures { IfOk result (λ p. Serves p (view child.now) (under number (situation_at asked.now position.now))) }
{
    let place = position.child(alloc, number)?;
    match child {
        Route::Pool { leaf, shadows } if shadows.is_empty() => leg(leaf, asked, place),
        _ => laid_out(alloc, child, asked, &place),
    }
}

/// The leg of the pool at this position.
fn leg(leaf: &Leaf, asked: &Asked, position: Position) -> Result<Plan, AllocError>
    ensures { IfOk result (λ p. Serves p (pool (pool_view leaf.now) [] none) (situation_at asked.now position)) }
{
    Ok(Plan::Send(PlannedLeg {
        position,
        symbol: leaf.symbol,
        servers: Arc::try_clone(&leaf.servers)?,
        op: asked.op,
        mark: asked.mark,
    }))
}

/// The leg of the pool at this position, and beside it what its shadows send.
#[cycle(planning)]
fn with_shadows(
    alloc: Global,
    shadows: &[Shadow],
    leaf: &Leaf,
    asked: &Asked,
    position: &Position,
) -> Result<Plan, AllocError>
    ensures { IfOk result (λ p. Serves p (pool (pool_view leaf.now) (ranges_of shadows.now) (targets_of shadows.now)) (situation_at asked.now position.now)) }
{
    let own = leg(leaf, asked, position.copy(alloc)?)?;
    if shadows.is_empty() {
        return Ok(own);
    }
    let shadowed = asked.shadowed();
    let mut plans = Vec::with_capacity(alloc, 1)?;
    plans.push(own)?;
    for (number, shadow) in shadows.iter().enumerate() {
        let target = child_laid_out(alloc, &shadow.target, &shadowed, position, number)?;
        plans.push(Plan::Shadowed {
            symbol: leaf.symbol,
            first: shadow.first,
            last: shadow.last,
            target: Box::new(alloc, target)?,
        })?;
    }
    Ok(Plan::Beside(plans))
}

/// The plan of each child of the handle at this position.
#[cycle(planning)]
fn each_laid_out(
    alloc: Global,
    children: &[Route],
    asked: &Asked,
    position: &Position,
) -> Result<Vec<Plan>, AllocError>
    ensures { IfOk result (λ ps. ServeEach 0 ps.items (map view children.now) (situation_at asked.now position.now)) }
{
    let mut plans = Vec::with_capacity(alloc, children.len())?;
    for (number, child) in children.iter().enumerate() {
        plans.push(child_laid_out(alloc, child, asked, position, number)?)?;
    }
    Ok(plans)
}

/// All children at once, the first of which is waited for.
#[cycle(planning)]
fn first_waited_for(
    alloc: Global,
    children: &[Route],
    asked: &Asked,
    position: &Position,
) -> Result<Plan, AllocError>
    ensures { IfOk result (λ p. Serves p (many AllInitial (children_of children.now)) (situation_at asked.now position.now)) }
{
    let Some((first, others)) = children.split_first() else {
        return Ok(Plan::Reply(FixedReply::ErrorRoute));
    };
    let mut plans = Vec::with_capacity(alloc, 1)?;
    plans.push(child_laid_out(alloc, first, asked, position, 0)?)?;
    let unheard = asked.asynchronous();
    for (number, child) in others.iter().enumerate() {
        plans.push(child_laid_out(alloc, child, &unheard, position, number + 1)?)?;
    }
    Ok(Plan::Beside(plans))
}

/// The default reply, and all children at once, none of which is waited for.
#[cycle(planning)]
fn none_waited_for(
    alloc: Global,
    children: &[Route],
    asked: &Asked,
    position: &Position,
) -> Result<Plan, AllocError>
    ensures { IfOk result (λ p. Serves p (many AllAsync (children_of children.now)) (situation_at asked.now position.now)) }
{
    let mut plans = Vec::with_capacity(alloc, 1)?;
    plans.push(Plan::Reply(default_reply(asked.op)))?;
    let unheard = asked.asynchronous();
    for (number, child) in children.iter().enumerate() {
        plans.push(child_laid_out(alloc, child, &unheard, position, number)?)?;
    }
    Ok(Plan::Beside(plans))
}

/// The children one after another until one has a hit, for what fails over; for the rest the first child.
#[cycle(planning)]
fn misses_passed_on(
    alloc: Global,
    children: &[Route],
    asked: &Asked,
    position: &Position,
) -> Result<Plan, AllocError>
    ensures { IfOk result (λ p. Serves p (many MissFailover (children_of children.now)) (situation_at asked.now position.now)) }
{
    if !asked.fails_over_on_miss() {
        return match children.first() {
            Some(first) => child_laid_out(alloc, first, asked, position, 0),
            None => Ok(Plan::Reply(FixedReply::ErrorRoute)),
        };
    }
    let plans = each_laid_out(alloc, children, asked, position)?;
    Ok(Plan::InTurn(After::Miss, plans))
}

/// Cold's plan, after a miss warm's, and after its hit the add's.
fn filled(alloc: Global, cold: Plan, warm: Plan, filling: Plan) -> Result<Plan, AllocError>
    ensures { (t u : Tree) (exptime : ℕ) (s : Situation) → is_warmed_up s.op ≡ true → Serves cold t (under 0 s) → Serves warm u (under 1 s) → Serves filling t (under 2 (adding s)) → IfOk result (λ p. Serves p (warm_up t u exptime) s) }
{
    let filled = Plan::OnHit(Box::new(alloc, warm)?, Box::new(alloc, filling)?);
    Ok(Plan::InTurn(After::Miss, pair(alloc, cold, filled)?))
}

/// Two plans, both waited for.
fn both(alloc: Global, first: Plan, second: Plan) -> Result<Plan, AllocError>
    ensures { (t u : Tree) (s : Situation) → Serves first t (under 0 s) → Serves second u (under 1 s) → IfOk result (λ p. Serves p (many AllSync (child t (child u none))) s) }
{
    Ok(Plan::All(pair(alloc, first, second)?))
}

/// A list of two plans.
fn pair(alloc: Global, first: Plan, second: Plan) -> Result<Vec<Plan>, AllocError>
    ensures { IfOk result (λ plans. plans.items ≡ first ∷ second ∷ []) }
{
    let mut plans = Vec::with_capacity(alloc, 2)?;
    plans.push(first)?;
    plans.push(second)?;
    Ok(plans)
}

/// The number of the policy with the longest prefix with which the rest begins, or of the wildcard after all.
pub fn prefix_number(policies: &[PrefixPolicy], rest: &Rest) -> usize
    ensures { result ≡ prefix_policy rest.now (prefixes_of policies.now) }
{
    let mut longest = None;
    for (number, policy) in policies.iter().enumerate() {
        if begins_with(rest.as_bytes(), &policy.prefix) {
            longest = longer(longest, number, policy.prefix.len());
        }
    }
    match longest {
        Some((number, _)) => number,
        None => policies.len(),
    }
}

/// Of the policies so far, and one more, the one with the longer prefix, by number and length; the last of equals.
fn longer(longest: Option<(usize, usize)>, number: usize, length: usize) -> Option<(usize, usize)>
    ensures { result ≡ longer_of longest (number, length) }
{
    match longest {
        Some((first, most)) if length < most => Some((first, most)),
        _ => Some((number, length)),
    }
}

/// The number of the operation's policy, or of the default policy after all.
pub fn policy_number(policies: &[OperationPolicy], op: Op) -> usize
    ensures { result ≡ policy_of op (operations_of policies.now) }
{
    for (number, policy) in policies.iter().enumerate() {
        if is_policy_for(policy, op) {
            return number;
        }
    }
    policies.len()
}

fn is_policy_for(policy: &OperationPolicy, op: Op) -> bool
    ensures { result ≡ is_policy_for op (operation_view policy.now).0 }
{
    match policy.op {
        Some(named) => named.is(op),
        None => false,
    }
}
