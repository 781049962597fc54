//! What one outcome more changes.

ghost use Rattle.std.specs.Prelude.{◌≡◌, ◌≤◌, ◌<◌, ◌+◌, ◌++◌, ℕ, List, drop, map, true, length, vec_capacity, None};
ghost use Rattle.mcv_route.specs.Children.{joined};
ghost use Rattle.mcv_plan.specs.ReachedAnswers.{child_at};
ghost use Rattle.mcv_plan.specs.State.{Heard, HeardAt, IsOnlyIn, all, all_from, are_placed, beside, each_placed, entries, entries_each, holds, in_turn, is_placed, on_hit, within};
ghost use Rattle.mcv_plan.specs.View.{seen, view};

use crate::answer::{Answer, Source, is_hit};
use crate::course::Course;
use crate::opening::{go_on_behind, open};
use mcv_base::Outcome;
use mcv_rules::After;

/// Takes in the outcome of a leg, and reports the reply, if that has come now.
#[cycle(hearing)]
pub fn advance(
    course: &mut Course,
    entry: usize,
    outcome: Outcome,
    fresh: &mut Vec<usize>,
) -> Option<Answer>
    requires placed { is_placed (view course.old) ≡ true }
    requires within { holds entry (entries (view course.old)) ≡ true }
    requires room { length fresh.old.items + length (entries (view course.old)) ≤ vec_capacity fresh.old }
    ensures heard { Heard entry outcome result fresh.old.items fresh.new.items (view course.old) (view course.new) }
    ensures count { length fresh.new.items ≤ length fresh.old.items + length (entries (view course.old)) }
    ensures capacity { vec_capacity fresh.new ≡ vec_capacity fresh.old }
{
    match course {
        Course::Send(_) => Some(Answer {
            outcome,
            source: Source::Entry(entry),
        }),
        Course::Reply(_) => None,
        Course::All {
            ends,
            children,
            waiting,
            worst,
        } => hear_all(ends, children, waiting, worst, entry, outcome, fresh),
        Course::InTurn {
            after,
            ends,
            children,
            current,
        } => hear_in_turn(*after, ends, children, current, entry, outcome, fresh),
        Course::Beside { ends, children } => hear_beside(ends, children, entry, outcome, fresh),
        Course::OnHit { first, end, second } => {
            hear_on_hit(first, *end, second, entry, outcome, fresh)
        }
    }
}

#[cycle(hearing)]
fn hear_all(
    ends: &[usize],
    children: &mut Vec<Course>,
    waiting: &mut usize,
    worst: &mut Option<Answer>,
    entry: usize,
    outcome: Outcome,
    fresh: &mut Vec<usize>,
) -> Option<Answer>
    requires ends { are_placed 0 ends.now (entries_each (seen children.old.items)) ≡ true }
    requires placed { each_placed (seen children.old.items) ≡ true }
    requires within { holds entry (joined (entries_each (seen children.old.items))) ≡ true }
    requires room { length fresh.old.items + length (joined (entries_each (seen children.old.items))) ≤ vec_capacity fresh.old }
    ensures heard { Heard entry outcome result fresh.old.items fresh.new.items (all ends.now (seen children.old.items) waiting.old worst.old) (all ends.now (seen children.new.items) waiting.new worst.new) }
    ensures count { length fresh.new.items ≤ length fresh.old.items + length (joined (entries_each (seen children.old.items))) }
    ensures capacity { vec_capacity fresh.new ≡ vec_capacity fresh.old }
{
    let child = child_of(ends, entry);
    let answer = advance_child(children, child, entry, outcome, fresh)?;
    *worst = Some(answer.over(*worst));
    *waiting = waiting.saturating_sub(1);
    if *waiting == 0 { *worst } else { None }
}

#[cycle(hearing)]
fn hear_in_turn(
    after: After,
    ends: &[usize],
    children: &mut Vec<Course>,
    current: &mut usize,
    entry: usize,
    outcome: Outcome,
    fresh: &mut Vec<usize>,
) -> Option<Answer>
    requires ends { are_placed 0 ends.now (entries_each (seen children.old.items)) ≡ true }
    requires placed { each_placed (seen children.old.items) ≡ true }
    requires within { holds entry (joined (entries_each (seen children.old.items))) ≡ true }
    requires room { length fresh.old.items + length (joined (entries_each (seen children.old.items))) ≤ vec_capacity fresh.old }
    ensures heard { Heard entry outcome result fresh.old.items fresh.new.items (in_turn after ends.now (seen children.old.items) current.old) (in_turn after ends.now (seen children.new.items) current.new) }
    ensures count { length fresh.new.items ≤ length fresh.old.items + length (joined (entries_each (seen children.old.items))) }
    ensures capacity { vec_capacity fresh.new ≡ vec_capacity fresh.old }
{
    let child = child_of(ends, entry);
    let answer = advance_child(children, child, entry, outcome, fresh)?;
    if child != *current {
        return None;
    }
    let (answered, steps) = go_on_behind(after, children, child, Some(answer), fresh);
    *current = child + steps;
    answered
}

#[cycle(hearing)]
fn hear_beside(
    ends: &[usize],
    children: &mut Vec<Course>,
    entry: usize,
    outcome: Outcome,
    fresh: &mut Vec<usize>,
) -> Option<Answer>
    requires ends { are_placed 0 ends.now (entries_each (seen children.old.items)) ≡ true }
    requires placed { each_placed (seen children.old.items) ≡ true }
    requires within { holds entry (joined (entries_each (seen children.old.items))) ≡ true }
    requires room { length fresh.old.items + length (joined (entries_each (seen children.old.items))) ≤ vec_capacity fresh.old }
    ensures heard { Heard entry outcome result fresh.old.items fresh.new.items (beside ends.now (seen children.old.items)) (beside ends.now (seen children.new.items)) }
    ensures count { length fresh.new.items ≤ length fresh.old.items + length (joined (entries_each (seen children.old.items))) }
    ensures capacity { vec_capacity fresh.new ≡ vec_capacity fresh.old }
{
    let child = child_of(ends, entry);
    let answered = advance_child(children, child, entry, outcome, fresh);
    if child == 0 { answered } else { None }
}

#[cycle(hearing)]
fn hear_on_hit(
    first: &mut Course,
    end: usize,
    second: &mut Course,
    entry: usize,
    outcome: Outcome,
    fresh: &mut Vec<usize>,
) -> Option<Answer>
    requires ends { within 0 end (entries (view first.old)) ≡ true }
    requires behind { all_from end (entries (view second.old)) ≡ true }
    requires first_placed { is_placed (view first.old) ≡ true }
    requires second_placed { is_placed (view second.old) ≡ true }
    requires within { holds entry (entries (view first.old) ++ entries (view second.old)) ≡ true }
    requires room { length fresh.old.items + length (entries (view first.old) ++ entries (view second.old)) ≤ vec_capacity fresh.old }
    ensures heard { Heard entry outcome result fresh.old.items fresh.new.items (on_hit (view first.old) end (view second.old)) (on_hit (view first.new) end (view second.new)) }
    ensures count { length fresh.new.items ≤ length fresh.old.items + length (entries (view first.old) ++ entries (view second.old)) }
    ensures capacity { vec_capacity fresh.new ≡ vec_capacity fresh.old }
{
    if entry < end {
        let answered = advance(first, entry, outcome, fresh);
        if is_hit(answered) {
            open(second, fresh);
        }
        answered
    } else {
        advance(second, entry, outcome, fresh);
        None
    }
}

/// The same of the child with this number.
#[cycle(hearing)]
fn advance_child(
    children: &mut Vec<Course>,
    child: usize,
    entry: usize,
    outcome: Outcome,
    fresh: &mut Vec<usize>,
) -> Option<Answer>
    requires placed { each_placed (seen children.old.items) ≡ true }
    requires within { IsOnlyIn entry child (entries_each (seen children.old.items)) }
    requires room { length fresh.old.items + length (joined (entries_each (seen children.old.items))) ≤ vec_capacity fresh.old }
    ensures heard { HeardAt entry outcome result fresh.old.items fresh.new.items child (map view children.old.items) (map view children.new.items) }
    ensures count { length fresh.new.items + length (joined (entries_each (seen (drop (child + 1) children.old.items)))) ≤ length fresh.old.items + length (joined (entries_each (seen children.old.items))) }
    ensures capacity { vec_capacity fresh.new ≡ vec_capacity fresh.old }
{
    advance(&mut children[child], entry, outcome, fresh)
}

/// Whether the leg belongs to the child with this number: it lies behind those before it, and not behind this one.
fn belongs(ends: &[usize], child: usize, entry: usize) -> bool
    requires { (from : ℕ) × (kss : List (List ℕ)) × (are_placed from ends.now kss ≡ true) }
    ensures { result ≡ true → child ≡ child_at ends.now entry }
{
    if child >= ends.len() || ends[child] <= entry {
        return false;
    }
    child == 0 || ends[child - 1] <= entry
}

/// The number of the child to which the leg belongs. Where each child has one leg it is found at once.
fn child_of(ends: &[usize], entry: usize) -> usize
    requires { (from : ℕ) × (kss : List (List ℕ)) × (are_placed from ends.now kss ≡ true) }
    ensures { result ≡ child_at ends.now entry }
{
    let first = match ends.first() {
        Some(end) => end.saturating_sub(1),
        None => 0,
    };
    let guess = entry.saturating_sub(first);
    if belongs(ends, guess, entry) {
        return guess;
    }
    ends.partition_point(|end| *end <= entry)
}
