//! Which legs are launched where exactly these outcomes are known. Nothing here takes memory.

ghost use Rattle.std.specs.Prelude.{◌≡◌, ◌++◌, [], if◌then◌else◌};
ghost use Rattle.mcv_route.specs.Children.{joined};
ghost use Rattle.mcv_plan.specs.KnownOutcomes.{own_in};
ghost use Rattle.mcv_plan.specs.ReachedAnswers.{all_answered, answer_of, first_answered, is_hit, search_answered, searched};
ghost use Rattle.mcv_plan.specs.State.{answered, answered_each, answers_each, holds, sends, sends_each};
ghost use Rattle.mcv_plan.specs.View.{seen, view};

use crate::answer::{Answer, Source, goes_on_after, is_hit};
use crate::course::Course;
use mcv_base::Outcome;
use mcv_rules::After;

/// Whether the course launches the leg with this number.
#[cycle(launching)]
pub fn launches(course: &Course, outcomes: &[Option<Outcome>], entry: usize) -> bool
    ensures { result ≡ holds entry (sends (own_in outcomes.now) (view course.now)) }
{
    match course {
        Course::Send(number) => *number == entry,
        Course::Reply(_) => false,
        Course::All { children, .. } => any_launches(children, outcomes, entry),
        Course::InTurn {
            after,
            children,
            ..
        } => search_launches(*after, children, outcomes, entry),
        Course::Beside { children, .. } => any_launches(children, outcomes, entry),
        Course::OnHit { first, second, .. } => hit_launches(first, second, outcomes, entry),
    }
}

/// Whether one of the children does, all at once.
#[cycle(launching)]
fn any_launches(children: &[Course], outcomes: &[Option<Outcome>], entry: usize) -> bool
    ensures { result ≡ holds entry (joined (sends_each (own_in outcomes.now) (seen children.now))) }
{
    for child in children {
        if launches(child, outcomes, entry) {
            return true;
        }
    }
    false
}

/// Whether one of the children does, one after another while the search goes on.
#[cycle(launching)]
fn search_launches(
    after: After,
    children: &[Course],
    outcomes: &[Option<Outcome>],
    entry: usize,
) -> bool
    ensures { result ≡ holds entry (searched after (answers_each (own_in outcomes.now) (seen children.now)) (sends_each (own_in outcomes.now) (seen children.now))) }
{
    for child in children {
        if launches(child, outcomes, entry) {
            return true;
        }
        if !goes_on_after(after, reply_in(child, outcomes)) {
            return false;
        }
    }
    false
}

/// Whether the first does, or after its hit the second.
#[cycle(launching)]
fn hit_launches(first: &Course, second: &Course, outcomes: &[Option<Outcome>], entry: usize) -> bool
    ensures { result ≡ holds entry (sends (own_in outcomes.now) (view first.now) ++ (if is_hit (answer_of (answered (own_in outcomes.now) (view first.now))) then sends (own_in outcomes.now) (view second.now) else [])) }
{
    if launches(first, outcomes, entry) {
        return true;
    }
    if is_hit(reply_in(first, outcomes)) {
        return launches(second, outcomes, entry);
    }
    false
}

/// The course's reply.
#[cycle(replying)]
fn reply_in(course: &Course, outcomes: &[Option<Outcome>]) -> Option<Answer>
    ensures { result ≡ answer_of (answered (own_in outcomes.now) (view course.now)) }
{
    match course {
        Course::Send(number) => outcome_in(outcomes, *number),
        Course::Reply(reply) => Some(Answer::fixed(*reply)),
        Course::All { children, .. } => worst_in(children, outcomes),
        Course::InTurn {
            after,
            children,
            ..
        } => search_in(*after, children, outcomes),
        Course::Beside { children, .. } => first_in(children, outcomes),
        Course::OnHit { first, .. } => reply_in(first, outcomes),
    }
}

/// The worst of all children's replies, and of equal ones the last, once all are there.
#[cycle(replying)]
fn worst_in(children: &[Course], outcomes: &[Option<Outcome>]) -> Option<Answer>
    ensures { result ≡ answer_of (all_answered (answered_each (own_in outcomes.now) (seen children.now))) }
{
    let mut worst = None;
    for child in children {
        let answer = reply_in(child, outcomes)?;
        worst = Some(answer.over(worst));
    }
    worst
}

/// The reply of a search among the children.
#[cycle(replying)]
fn search_in(after: After, children: &[Course], outcomes: &[Option<Outcome>]) -> Option<Answer>
    ensures { result ≡ answer_of (search_answered after (answered_each (own_in outcomes.now) (seen children.now))) }
{
    let (first, others) = children.split_first()?;
    let mut reply = reply_in(first, outcomes);
    for child in others {
        if !goes_on_after(after, reply) {
            return reply;
        }
        reply = reply_in(child, outcomes);
    }
    reply
}

/// The first child's reply.
#[cycle(replying)]
fn first_in(children: &[Course], outcomes: &[Option<Outcome>]) -> Option<Answer>
    ensures { result ≡ answer_of (first_answered (answered_each (own_in outcomes.now) (seen children.now))) }
{
    let (first, _) = children.split_first()?;
    reply_in(first, outcomes)
}

/// What came of the leg with this number.
fn outcome_in(outcomes: &[Option<Outcome>], number: usize) -> Option<Answer>
    ensures { result ≡ answer_of (own_in outcomes.now number) }
{
    let outcome = outcomes.get(number).copied().unwrap_or(None)?;
    Some(Answer {
        outcome,
        source: Source::Entry(number),
    })
}
