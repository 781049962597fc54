//! The sets of a plan: one walk over its nodes each, in the order of the legs' positions.

ghost use Rattle.std.specs.Prelude.{◌≡◌, ◌<◌, ◌++◌, IfOk, List, OnOk, length, map};
ghost use Rattle.mcv_base.specs.declared.reply.Outcome.TheVariants.{Error as Failed, Good as Done};
ghost use Rattle.mcv_rules.specs.Plan.{Leg, both, reply};
ghost use Rattle.mcv_rules.specs.NormalForm.{all_of, led_by, leg_of, part_of, turns_of, whole_of};
ghost use Rattle.mcv_rules.specs.declared.arrival.After.TheVariants.{Error as on_error, Miss as on_miss};
ghost use Rattle.mcv_symbolic.specs.SetLists.{acknowledged, counted, hits, of_both};
ghost use Rattle.mcv_symbolic.specs.Structure.{after_miss, if_all, nothing};

use mcv_base::Outcome;
use mcv_rules::{After, Plan, PlannedLeg};
use std::alloc::AllocError;

// ---- the reply of answers that are all alike

/// What the plan replies where each leg answers so.
#[cycle(replies)]
pub fn reply_if_all(plan: &Plan, answer: Outcome) -> Outcome
    ensures { result ≡ if_all answer (whole_of plan.now) }
{
    match plan {
        Plan::Send(_) => answer,
        Plan::Reply(reply) => reply.outcome(),
        Plan::All(children) => worst_if_all(children, answer),
        Plan::Beside(children) => first_if_all(children, answer),
        Plan::InTurn(after, children) => last_if_all(*after, children, answer),
        Plan::OnHit(first, _) => reply_if_all(first, answer),
        Plan::Shadowed { .. } => Outcome::Error,
    }
}

/// The worst of all.
#[cycle(replies)]
fn worst_if_all(children: &[Plan], answer: Outcome) -> Outcome
    ensures { result ≡ if_all answer (all_of (map whole_of children.now)) }
{
    let Some((first, others)) = children.split_first() else {
        return Outcome::Error;
    };
    let mut reply = reply_if_all(first, answer);
    for child in others {
        reply = reply.worse(reply_if_all(child, answer));
    }
    reply
}

/// That of the first.
#[cycle(replies)]
fn first_if_all(children: &[Plan], answer: Outcome) -> Outcome
    ensures { result ≡ if_all answer (led_by (map part_of children.now)) }
{
    match children.first() {
        Some(first) => reply_if_all(first, answer),
        None => Outcome::Error,
    }
}

/// That of the one at which a search ends.
#[cycle(replies)]
fn last_if_all(after: After, children: &[Plan], answer: Outcome) -> Outcome
    ensures { result ≡ if_all answer (turns_of after (map whole_of children.now)) }
{
    let Some((first, others)) = children.split_first() else {
        return Outcome::Error;
    };
    let mut reply = reply_if_all(first, answer);
    for child in others {
        if !after.goes_on(reply) {
            return reply;
        }
        reply = reply_if_all(child, answer);
    }
    reply
}

// ---- the first wave

/// The worse of two replies, once both are there.
fn both(first: Option<Outcome>, second: Option<Outcome>) -> Option<Outcome>
    ensures { result ≡ both first second }
{
    Some(first?.worse(second?))
}

/// Adds the legs that are sent at once and are under no shadow; answers the reply that is there at once.
#[cycle(wave)]
pub fn push_first_wave<'a>(
    plan: &'a Plan,
    legs: &mut Vec<&'a PlannedLeg>,
) -> Result<Option<Outcome>, AllocError>
    ensures legs { OnOk result (map (λ l. leg_of l.now) legs.new.items ≡ map (λ l. leg_of l.now) legs.old.items ++ counted (whole_of plan.now) nothing) }
    ensures reply { IfOk result (λ r. r ≡ reply (whole_of plan.now) nothing) }
{
    match plan {
        Plan::Send(leg) => {
            legs.push(leg)?;
            Ok(None)
        }
        Plan::Reply(reply) => Ok(Some(reply.outcome())),
        Plan::All(children) => push_wave_of_all(children, legs),
        Plan::Beside(children) => push_wave_beside(children, legs),
        Plan::InTurn(after, children) => push_wave_in_turn(*after, children, legs),
        Plan::OnHit(first, second) => {
            let reply = push_first_wave(first, legs)?;
            if reply == Some(Outcome::Good) {
                push_first_wave(second, legs)?;
            }
            Ok(reply)
        }
        Plan::Shadowed { .. } => Ok(Some(Outcome::Error)),
    }
}

/// The same of all at once.
#[cycle(wave)]
fn push_wave_of_all<'a>(
    children: &'a [Plan],
    legs: &mut Vec<&'a PlannedLeg>,
) -> Result<Option<Outcome>, AllocError>
    ensures legs { OnOk result (map (λ l. leg_of l.now) legs.new.items ≡ map (λ l. leg_of l.now) legs.old.items ++ counted (all_of (map whole_of children.now)) nothing) }
    ensures reply { IfOk result (λ r. r ≡ reply (all_of (map whole_of children.now)) nothing) }
{
    let Some((first, others)) = children.split_first() else {
        return Ok(Some(Outcome::Error));
    };
    let mut reply = push_first_wave(first, legs)?;
    for child in others {
        let next = push_first_wave(child, legs)?;
        reply = both(reply, next);
    }
    Ok(reply)
}

/// The same of all beside the first.
#[cycle(wave)]
fn push_wave_beside<'a>(
    children: &'a [Plan],
    legs: &mut Vec<&'a PlannedLeg>,
) -> Result<Option<Outcome>, AllocError>
    ensures legs { OnOk result (map (λ l. leg_of l.now) legs.new.items ≡ map (λ l. leg_of l.now) legs.old.items ++ counted (led_by (map part_of children.now)) nothing) }
    ensures reply { IfOk result (λ r. r ≡ reply (led_by (map part_of children.now)) nothing) }
{
    let Some((first, others)) = children.split_first() else {
        return Ok(Some(Outcome::Error));
    };
    let reply = push_first_wave(first, legs)?;
    for child in others {
        push_first_wave(child, legs)?;
    }
    Ok(reply)
}

/// The same of a search.
#[cycle(wave)]
fn push_wave_in_turn<'a>(
    after: After,
    children: &'a [Plan],
    legs: &mut Vec<&'a PlannedLeg>,
) -> Result<Option<Outcome>, AllocError>
    ensures legs { OnOk result (map (λ l. leg_of l.now) legs.new.items ≡ map (λ l. leg_of l.now) legs.old.items ++ counted (turns_of after (map whole_of children.now)) nothing) }
    ensures reply { IfOk result (λ r. r ≡ reply (turns_of after (map whole_of children.now)) nothing) }
{
    let Some((first, others)) = children.split_first() else {
        return Ok(Some(Outcome::Error));
    };
    let mut reply = push_first_wave(first, legs)?;
    for child in others {
        if !after.goes_on_after(reply) {
            return Ok(reply);
        }
        reply = push_first_wave(child, legs)?;
    }
    Ok(reply)
}

// ---- what is acknowledged

/// Adds the legs that are sent wherever a delete has a reply; answers its reply where all legs answer Good.
#[cycle(acknowledging)]
pub fn push_acknowledged<'a>(
    plan: &'a Plan,
    legs: &mut Vec<&'a PlannedLeg>,
) -> Result<Outcome, AllocError>
    ensures legs { OnOk result (map (λ l. leg_of l.now) legs.new.items ≡ map (λ l. leg_of l.now) legs.old.items ++ acknowledged (whole_of plan.now)) }
    ensures reply { IfOk result (λ x. x ≡ if_all Done (whole_of plan.now)) }
{
    match plan {
        Plan::Send(leg) => {
            legs.push(leg)?;
            Ok(Outcome::Good)
        }
        Plan::Reply(reply) => Ok(reply.outcome()),
        Plan::All(children) => push_acknowledged_of_all(children, legs),
        Plan::Beside(children) => push_acknowledged_beside(children, legs),
        Plan::InTurn(after, children) => match after {
            After::Error => push_acknowledged_on_error(children, legs),
            After::Miss => push_acknowledged_on_miss(children, legs),
        },
        Plan::OnHit(first, _) => Ok(reply_if_all(first, Outcome::Good)),
        Plan::Shadowed { .. } => Ok(Outcome::Error),
    }
}

/// The same of all at once.
#[cycle(acknowledging)]
fn push_acknowledged_of_all<'a>(
    children: &'a [Plan],
    legs: &mut Vec<&'a PlannedLeg>,
) -> Result<Outcome, AllocError>
    ensures legs { OnOk result (map (λ l. leg_of l.now) legs.new.items ≡ map (λ l. leg_of l.now) legs.old.items ++ acknowledged (all_of (map whole_of children.now))) }
    ensures reply { IfOk result (λ x. x ≡ if_all Done (all_of (map whole_of children.now))) }
{
    let Some((first, others)) = children.split_first() else {
        return Ok(Outcome::Error);
    };
    let mut reply = push_acknowledged(first, legs)?;
    for child in others {
        let next = push_acknowledged(child, legs)?;
        reply = reply.worse(next);
    }
    Ok(reply)
}

/// The same of all beside the first: of these, what is sent at once.
#[cycle(acknowledging)]
fn push_acknowledged_beside<'a>(
    children: &'a [Plan],
    legs: &mut Vec<&'a PlannedLeg>,
) -> Result<Outcome, AllocError>
    ensures legs { OnOk result (map (λ l. leg_of l.now) legs.new.items ≡ map (λ l. leg_of l.now) legs.old.items ++ acknowledged (led_by (map part_of children.now))) }
    ensures reply { IfOk result (λ x. x ≡ if_all Done (led_by (map part_of children.now))) }
{
    let Some((first, others)) = children.split_first() else {
        return Ok(Outcome::Error);
    };
    let reply = push_acknowledged(first, legs)?;
    for other in others {
        push_first_wave(other, legs)?;
    }
    Ok(reply)
}

/// The same of a search by errors: while those before fail where all their legs answer Good.
#[cycle(acknowledging)]
fn push_acknowledged_on_error<'a>(
    children: &'a [Plan],
    legs: &mut Vec<&'a PlannedLeg>,
) -> Result<Outcome, AllocError>
    ensures legs { OnOk result (map (λ l. leg_of l.now) legs.new.items ≡ map (λ l. leg_of l.now) legs.old.items ++ acknowledged (turns_of on_error (map whole_of children.now))) }
    ensures reply { IfOk result (λ x. x ≡ if_all Done (turns_of on_error (map whole_of children.now))) }
{
    let Some((first, others)) = children.split_first() else {
        return Ok(Outcome::Error);
    };
    let mut last = push_acknowledged(first, legs)?;
    for child in others {
        if !After::Error.goes_on(last) {
            return Ok(last);
        }
        last = push_acknowledged(child, legs)?;
    }
    Ok(last)
}

/// The same of a search by misses. No delete has one of several children: of these nothing is added.
#[cycle(acknowledging)]
fn push_acknowledged_on_miss<'a>(
    children: &'a [Plan],
    legs: &mut Vec<&'a PlannedLeg>,
) -> Result<Outcome, AllocError>
    ensures legs { OnOk result (map (λ l. leg_of l.now) legs.new.items ≡ map (λ l. leg_of l.now) legs.old.items ++ acknowledged (turns_of on_miss (map whole_of children.now))) }
    ensures reply { IfOk result (λ x. x ≡ if_all Done (turns_of on_miss (map whole_of children.now))) }
{
    match children.split_first() {
        None => Ok(Outcome::Error),
        Some((first, others)) => {
            if others.is_empty() {
                push_acknowledged(first, legs)
            } else {
                Ok(last_if_all(After::Miss, children, Outcome::Good))
            }
        }
    }
}

// ---- what can hit

/// Where the list of both parts ends: nothing of it is kept where one of them is empty.
fn end_of_both(start: usize, middle: usize, end: usize) -> usize
    ensures first { middle ≡ start → result ≡ start }
    ensures second { end ≡ middle → result ≡ start }
    ensures both { start < middle → middle < end → result ≡ end }
{
    if middle == start || end == middle {
        start
    } else {
        end
    }
}

/// Adds the legs whose hit can be the reply; answers the reply where all legs answer Error.
#[cycle(hitting)]
pub fn push_hits<'a>(plan: &'a Plan, legs: &mut Vec<&'a PlannedLeg>) -> Result<Outcome, AllocError>
    ensures legs { OnOk result (map (λ l. leg_of l.now) legs.new.items ≡ map (λ l. leg_of l.now) legs.old.items ++ hits (whole_of plan.now)) }
    ensures reply { IfOk result (λ x. x ≡ if_all Failed (whole_of plan.now)) }
{
    match plan {
        Plan::Send(leg) => {
            legs.push(leg)?;
            Ok(Outcome::Error)
        }
        Plan::Reply(reply) => Ok(reply.outcome()),
        Plan::All(children) => push_hits_of_all(children, legs),
        Plan::Beside(children) => push_hits_of_first(children, legs),
        Plan::InTurn(after, children) => match after {
            After::Error => push_hits_on_error(children, legs),
            After::Miss => push_hits_on_miss(children, legs),
        },
        Plan::OnHit(first, _) => push_hits(first, legs),
        Plan::Shadowed { .. } => Ok(Outcome::Error),
    }
}

/// The same of all at once: those of each, where each has some.
#[cycle(hitting)]
fn push_hits_of_all<'a>(
    children: &'a [Plan],
    legs: &mut Vec<&'a PlannedLeg>,
) -> Result<Outcome, AllocError>
    ensures legs { OnOk result (map (λ l. leg_of l.now) legs.new.items ≡ map (λ l. leg_of l.now) legs.old.items ++ hits (all_of (map whole_of children.now))) }
    ensures reply { IfOk result (λ x. x ≡ if_all Failed (all_of (map whole_of children.now))) }
{
    let Some((first, others)) = children.split_first() else {
        return Ok(Outcome::Error);
    };
    let start = legs.len();
    let mut reply = push_hits(first, legs)?;
    for child in others {
        let next = push_next_hits(child, start, legs)?;
        reply = reply.worse(next);
    }
    Ok(reply)
}

/// The same of one that has to hit beside all whose legs are behind the first `start`.
#[cycle(hitting)]
fn push_next_hits<'a>(
    plan: &'a Plan,
    start: usize,
    legs: &mut Vec<&'a PlannedLeg>,
) -> Result<Outcome, AllocError>
    ensures legs { OnOk result ((before ones : List Leg) → start ≡ length before → map (λ l. leg_of l.now) legs.old.items ≡ before ++ ones
        → map (λ l. leg_of l.now) legs.new.items ≡ before ++ of_both ones (hits (whole_of plan.now))) }
    ensures reply { IfOk result (λ x. x ≡ if_all Failed (whole_of plan.now)) }
{
    let middle = legs.len();
    let reply = push_hits(plan, legs)?;
    let end = end_of_both(start, middle, legs.len());
    legs.truncate(end);
    Ok(reply)
}

/// The same of the first.
#[cycle(hitting)]
fn push_hits_of_first<'a>(
    children: &'a [Plan],
    legs: &mut Vec<&'a PlannedLeg>,
) -> Result<Outcome, AllocError>
    ensures legs { OnOk result (map (λ l. leg_of l.now) legs.new.items ≡ map (λ l. leg_of l.now) legs.old.items ++ hits (led_by (map part_of children.now))) }
    ensures reply { IfOk result (λ x. x ≡ if_all Failed (led_by (map part_of children.now))) }
{
    match children.first() {
        Some(first) => push_hits(first, legs),
        None => Ok(Outcome::Error),
    }
}

/// The same of a search by errors: while those before fail where all their legs do.
#[cycle(hitting)]
fn push_hits_on_error<'a>(
    children: &'a [Plan],
    legs: &mut Vec<&'a PlannedLeg>,
) -> Result<Outcome, AllocError>
    ensures legs { OnOk result (map (λ l. leg_of l.now) legs.new.items ≡ map (λ l. leg_of l.now) legs.old.items ++ hits (turns_of on_error (map whole_of children.now))) }
    ensures reply { IfOk result (λ x. x ≡ if_all Failed (turns_of on_error (map whole_of children.now))) }
{
    let Some((first, others)) = children.split_first() else {
        return Ok(Outcome::Error);
    };
    let mut reply = push_hits(first, legs)?;
    for child in others {
        if !After::Error.goes_on(reply) {
            return Ok(reply);
        }
        reply = push_hits(child, legs)?;
    }
    Ok(reply)
}

/// The same of a search by misses: all of them.
#[cycle(hitting)]
fn push_hits_on_miss<'a>(
    children: &'a [Plan],
    legs: &mut Vec<&'a PlannedLeg>,
) -> Result<Outcome, AllocError>
    ensures legs { OnOk result (map (λ l. leg_of l.now) legs.new.items ≡ map (λ l. leg_of l.now) legs.old.items ++ hits (turns_of on_miss (map whole_of children.now))) }
    ensures reply { IfOk result (λ x. x ≡ if_all Failed (turns_of on_miss (map whole_of children.now))) }
{
    let Some((first, others)) = children.split_first() else {
        return Ok(Outcome::Error);
    };
    let mut reply = push_hits(first, legs)?;
    for child in others {
        let next = push_hits(child, legs)?;
        reply = after_miss(reply, next);
    }
    Ok(reply)
}

/// The reply of a search by misses among two.
fn after_miss(first: Outcome, second: Outcome) -> Outcome
    ensures { result ≡ after_miss first second }
{
    match first {
        Outcome::Good => Outcome::Good,
        Outcome::Soft | Outcome::Error => second,
    }
}
