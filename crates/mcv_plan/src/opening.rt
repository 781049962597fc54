//! The legs that wait for nothing.

ghost use Rattle.std.specs.Prelude.{◌≡◌, ◌<◌, ◌≤◌, ◌+◌, ◌++◌, [], drop, length, vec_capacity, if◌then◌else◌};
ghost use Rattle.mcv_route.specs.Children.{joined};
ghost use Rattle.mcv_plan.specs.ReachedAnswers.{answer_from, answer_of, first_answered, goes_on_after, is_hit, nothing, search_answered, searched, stop_from};
ghost use Rattle.mcv_plan.specs.State.{ReflectEach, Reflects, answers_each, entries, entries_each, replies_at_once, sends_each, answered_each, wave};
ghost use Rattle.mcv_plan.specs.View.{seen, view};

use crate::answer::{Answer, goes_on_after, is_hit};
use crate::course::Course;
use mcv_rules::After;

/// Launches the legs that wait for nothing, and reports the reply that is there at once.
#[cycle(opening)]
pub fn open(course: &Course, fresh: &mut Vec<usize>) -> Option<Answer>
    requires { length fresh.old.items + length (entries (view course.now)) ≤ vec_capacity fresh.old }
    ensures fresh { Reflects nothing (view course.now) → fresh.new.items ≡ fresh.old.items ++ wave (view course.now) }
    ensures reply { Reflects nothing (view course.now) → result ≡ replies_at_once (view course.now) }
    ensures count { length fresh.new.items ≤ length fresh.old.items + length (entries (view course.now)) }
    ensures capacity { vec_capacity fresh.new ≡ vec_capacity fresh.old }
{
    match course {
        Course::Send(entry) => {
            fresh.push_reserved(*entry);
            None
        }
        Course::Reply(reply) => Some(Answer::fixed(*reply)),
        Course::All {
            children,
            waiting,
            worst,
            ..
        } => {
            open_all(children, fresh);
            if *waiting == 0 { *worst } else { None }
        }
        Course::InTurn {
            after,
            children,
            ..
        } => open_in_turn(*after, children, fresh),
        Course::Beside { children, .. } => open_all(children, fresh),
        Course::OnHit { first, second, .. } => open_on_hit(first, second, fresh),
    }
}

/// Opens all, and reports the first one's reply.
#[cycle(opening)]
fn open_all(children: &[Course], fresh: &mut Vec<usize>) -> Option<Answer>
    requires { length fresh.old.items + length (joined (entries_each (seen children.now))) ≤ vec_capacity fresh.old }
    ensures fresh { ReflectEach nothing (seen children.now) → fresh.new.items ≡ fresh.old.items ++ joined (sends_each nothing (seen children.now)) }
    ensures reply { ReflectEach nothing (seen children.now) → result ≡ answer_of (first_answered (answered_each nothing (seen children.now))) }
    ensures count { length fresh.new.items ≤ length fresh.old.items + length (joined (entries_each (seen children.now))) }
    ensures capacity { vec_capacity fresh.new ≡ vec_capacity fresh.old }
{
    let (first, others) = children.split_first()?;
    let answered = open(first, fresh);
    for child in others {
        open(child, fresh);
    }
    answered
}

/// Opens one after another, while the search goes on.
#[cycle(opening)]
fn open_in_turn(after: After, children: &[Course], fresh: &mut Vec<usize>) -> Option<Answer>
    requires { length fresh.old.items + length (joined (entries_each (seen children.now))) ≤ vec_capacity fresh.old }
    ensures fresh { ReflectEach nothing (seen children.now) → fresh.new.items ≡ fresh.old.items ++ searched after (answers_each nothing (seen children.now)) (sends_each nothing (seen children.now)) }
    ensures reply { ReflectEach nothing (seen children.now) → result ≡ answer_of (search_answered after (answered_each nothing (seen children.now))) }
    ensures count { length fresh.new.items ≤ length fresh.old.items + length (joined (entries_each (seen children.now))) }
    ensures capacity { vec_capacity fresh.new ≡ vec_capacity fresh.old }
{
    let (first, others) = children.split_first()?;
    let answered = open(first, fresh);
    let (answered, _) = go_on(after, others, answered, fresh);
    answered
}

/// The reply of a search that reflects where this was answered, once the children behind have been opened to which it goes
/// on; and how many these are.
#[cycle(opening)]
fn go_on(
    after: After,
    others: &[Course],
    answered: Option<Answer>,
    fresh: &mut Vec<usize>,
) -> (Option<Answer>, usize)
    requires { length fresh.old.items + length (joined (entries_each (seen others.now))) ≤ vec_capacity fresh.old }
    ensures fresh { ReflectEach nothing (seen others.now)
        → fresh.new.items ≡ fresh.old.items ++ (if goes_on_after after answered then searched after (answers_each nothing (seen others.now)) (sends_each nothing (seen others.now)) else []) }
    ensures reply { ReflectEach nothing (seen others.now) → result.0 ≡ answer_from after answered (answers_each nothing (seen others.now)) }
    ensures steps { ReflectEach nothing (seen others.now) → result.1 ≡ stop_from after answered (answers_each nothing (seen others.now)) }
    ensures bound { result.1 ≤ length others.now }
    ensures count { length fresh.new.items ≤ length fresh.old.items + length (joined (entries_each (seen others.now))) }
    ensures capacity { vec_capacity fresh.new ≡ vec_capacity fresh.old }
{
    let mut answered = answered;
    let mut steps = 0;
    for child in others {
        if !goes_on_after(after, answered) {
            return (answered, steps);
        }
        answered = open(child, fresh);
        steps += 1;
    }
    (answered, steps)
}

/// Opens the first, and where that hits at once also the second.
#[cycle(opening)]
fn open_on_hit(first: &Course, second: &Course, fresh: &mut Vec<usize>) -> Option<Answer>
    requires { length fresh.old.items + length (entries (view first.now) ++ entries (view second.now)) ≤ vec_capacity fresh.old }
    ensures fresh { Reflects nothing (view first.now) → Reflects nothing (view second.now) → fresh.new.items ≡ fresh.old.items ++ (wave (view first.now) ++ (if is_hit (replies_at_once (view first.now)) then wave (view second.now) else [])) }
    ensures reply { Reflects nothing (view first.now) → result ≡ replies_at_once (view first.now) }
    ensures count { length fresh.new.items ≤ length fresh.old.items + length (entries (view first.now) ++ entries (view second.now)) }
    ensures capacity { vec_capacity fresh.new ≡ vec_capacity fresh.old }
{
    let answered = open(first, fresh);
    if is_hit(answered) {
        open(second, fresh);
    }
    answered
}

/// The same of a search that reflects at the child with this number.
pub fn go_on_behind(
    after: After,
    children: &[Course],
    child: usize,
    answered: Option<Answer>,
    fresh: &mut Vec<usize>,
) -> (Option<Answer>, usize)
    requires child { child < length children.now }
    requires room { length fresh.old.items + length (joined (entries_each (seen (drop (child + 1) children.now)))) ≤ vec_capacity fresh.old }
    ensures fresh { ReflectEach nothing (seen (drop (child + 1) children.now))
        → fresh.new.items ≡ fresh.old.items ++ (if goes_on_after after answered then searched after (answers_each nothing (seen (drop (child + 1) children.now))) (sends_each nothing (seen (drop (child + 1) children.now))) else []) }
    ensures reply { ReflectEach nothing (seen (drop (child + 1) children.now)) → result.0 ≡ answer_from after answered (answers_each nothing (seen (drop (child + 1) children.now))) }
    ensures steps { ReflectEach nothing (seen (drop (child + 1) children.now)) → result.1 ≡ stop_from after answered (answers_each nothing (seen (drop (child + 1) children.now))) }
    ensures bound { result.1 ≤ length (drop (child + 1) children.now) }
    ensures count { length fresh.new.items ≤ length fresh.old.items + length (joined (entries_each (seen (drop (child + 1) children.now)))) }
    ensures capacity { vec_capacity fresh.new ≡ vec_capacity fresh.old }
{
    go_on(after, &children[child + 1..], answered, fresh)
}
