//! The reply of a course before any outcome.

ghost use Rattle.std.specs.Prelude.{◌≡◌, ◌≤◌};
ghost use Rattle.mcv_plan.specs.ReachedAnswers.{answer_of, first_answered, missing_in, nothing, prevails, search_answered, stop, waits, worse_of};
ghost use Rattle.mcv_plan.specs.State.{ReflectEach, Reflects, answered_each, answers_each, replies_at_once};
ghost use Rattle.mcv_plan.specs.View.{seen, view};

use crate::answer::{Answer, goes_on_after};
use crate::course::Course;
use mcv_rules::After;

/// The reply that waits for no leg.
#[cycle(at_once)]
pub fn reply_at_once(course: &Course) -> Option<Answer>
    ensures { Reflects nothing (view course.now) → result ≡ replies_at_once (view course.now) }
{
    match course {
        Course::Send(_) => None,
        Course::Reply(reply) => Some(Answer::fixed(*reply)),
        Course::All { waiting, worst, .. } => { if *waiting == 0 { *worst } else { None } }
        Course::InTurn {
            after,
            children,
            ..
        } => {
            let (reply, _) = search_at_once(*after, children);
            reply
        }
        Course::Beside { children, .. } => first_at_once(children),
        Course::OnHit { first, .. } => reply_at_once(first),
    }
}

/// The first child's.
#[cycle(at_once)]
fn first_at_once(children: &[Course]) -> Option<Answer>
    ensures { ReflectEach nothing (seen children.now) → result ≡ answer_of (first_answered (answered_each nothing (seen children.now))) }
{
    let (first, _) = children.split_first()?;
    reply_at_once(first)
}

/// That of a search among the children, and the number of the child at which it is.
#[cycle(at_once)]
pub fn search_at_once(after: After, children: &[Course]) -> (Option<Answer>, usize)
    ensures reply { ReflectEach nothing (seen children.now) → result.0 ≡ answer_of (search_answered after (answered_each nothing (seen children.now))) }
    ensures steps { ReflectEach nothing (seen children.now) → result.1 ≡ stop after (answers_each nothing (seen children.now)) }
{
    let Some((first, others)) = children.split_first() else {
        return (None, 0);
    };
    let mut reply = reply_at_once(first);
    let mut steps = 0;
    for child in others {
        if !goes_on_after(after, reply) {
            return (reply, steps);
        }
        reply = reply_at_once(child);
        steps += 1;
    }
    (reply, steps)
}

/// How many children have no reply.
pub fn waiting_at_once(children: &[Course]) -> usize
    ensures { ReflectEach nothing (seen children.now) → result ≡ waits (answered_each nothing (seen children.now)) }
{
    let mut waiting = 0;
    for child in children {
        waiting += missing(reply_at_once(child));
    }
    waiting
}

/// One, where there is no reply.
fn missing(reply: Option<Answer>) -> usize
    ensures value { result ≡ missing_in reply }
    ensures bound { result ≤ 1 }
{
    match reply {
        None => 1,
        Some(_) => 0,
    }
}

/// The worst reply of the children that have one, and of equal ones the last.
pub fn worst_at_once(children: &[Course]) -> Option<Answer>
    ensures { ReflectEach nothing (seen children.now) → result ≡ answer_of (prevails (answered_each nothing (seen children.now))) }
{
    let mut worst = None;
    for child in children {
        worst = worse(worst, reply_at_once(child));
    }
    worst
}

/// The worse of the worst so far and a later reply, where that is there.
fn worse(worst: Option<Answer>, reply: Option<Answer>) -> Option<Answer>
    ensures { result ≡ worse_of worst reply }
{
    match reply {
        None => worst,
        Some(answer) => Some(answer.over(worst)),
    }
}
