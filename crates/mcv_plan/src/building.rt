//! The course of a plan under a choice, and the legs that it can launch.

ghost use Rattle.std.specs.Prelude.{◌≡◌, ◌++◌, Box, IfOk, List, OnOk, Vec, length, map, slice_index, ℕ};
ghost use Rattle.std.specs.declared.alloc.Global.{Global};
ghost use Rattle.mcv_route.specs.Children.{is_within, joined};
ghost use Rattle.mcv_rules.specs.declared.plan.Plan.{All, Beside, InTurn, OnHit, Plan};
ghost use Rattle.mcv_plan.specs.CourseOfPlan.{BuiltEach, IsBuilt};
ghost use Rattle.mcv_plan.specs.Entries.{legs_of};
ghost use Rattle.mcv_plan.specs.View.{view};

use crate::at_once::{search_at_once, waiting_at_once, worst_at_once};
use crate::course::Course;
use mcv_base::FixedReply;
use mcv_pools::Choice;
use mcv_route::Launch;
use mcv_rules::{After, Plan};
use std::alloc::{AllocError, Global};

/// The children of a part, each with its end: one more than the number of its last leg.
#[derive(Drop)]
struct Children {
    ends: Vec<usize>,
    courses: Vec<Course>,
}

/// The course of a plan. Its legs are added to the entries, and each has the number of its entry.
#[cycle(building)]
pub fn build(
    alloc: Global,
    plan: &Plan,
    choice: &Choice,
    entries: &mut Vec<Launch>,
) -> Result<Course, AllocError>
    ensures entries { OnOk result (entries.new.items ≡ entries.old.items ++ legs_of (slice_index choice.now) plan.now) }
    ensures course { IfOk result (λ s. IsBuilt (slice_index choice.now) plan.now (length entries.old.items) (view s)) }
{
    match plan {
        Plan::Send(leg) => {
            let entry = entries.len();
            entries.push(leg.launch(alloc, choice)?)?;
            Ok(Course::Send(entry))
        }
        Plan::Reply(reply) => Ok(Course::Reply(*reply)),
        Plan::All(plans) => Ok(all(build_each(alloc, plans, choice, entries)?)),
        Plan::Beside(plans) => Ok(beside(build_each(alloc, plans, choice, entries)?)),
        Plan::InTurn(after, plans) => {
            Ok(in_turn(*after, build_each(alloc, plans, choice, entries)?))
        }
        Plan::OnHit(first, second) => build_on_hit(alloc, first, second, choice, entries),
        Plan::Shadowed {
            symbol,
            first,
            last,
            target,
        } => {
            if is_within(*first, *last, choice.index(*symbol)) {
                build(alloc, target, choice, entries)
            } else {
                Ok(Course::Reply(FixedReply::ErrorRoute))
            }
        }
    }
}

/// The courses of plans, in their order.
#[cycle(building)]
fn build_each(
    alloc: Global,
    plans: &[Plan],
    choice: &Choice,
    entries: &mut Vec<Launch>,
) -> Result<Children, AllocError>
    ensures entries { OnOk result (entries.new.items ≡ entries.old.items ++ joined (map (legs_of (slice_index choice.now)) plans.now)) }
    ensures courses { IfOk result (λ r. BuiltEach (slice_index choice.now) plans.now (length entries.old.items) r.ends.items (map view r.courses.items)) }
{
    let mut ends = Vec::with_capacity(alloc, plans.len())?;
    let mut courses = Vec::with_capacity(alloc, plans.len())?;
    for plan in plans {
        courses.push(build(alloc, plan, choice, entries)?)?;
        ends.push(entries.len())?;
    }
    Ok(Children { ends, courses })
}

/// The course of a plan, and after its hit that of a second.
#[cycle(building)]
fn build_on_hit(
    alloc: Global,
    first: &Plan,
    second: &Plan,
    choice: &Choice,
    entries: &mut Vec<Launch>,
) -> Result<Course, AllocError>
    ensures entries { OnOk result (entries.new.items ≡ entries.old.items ++ (legs_of (slice_index choice.now) first.now ++ legs_of (slice_index choice.now) second.now)) }
    ensures course { IfOk result (λ s. (p q : Box Plan Global) → p.value ≡ first.now → q.value ≡ second.now → IsBuilt (slice_index choice.now) (OnHit p q) (length entries.old.items) (view s)) }
{
    let first = build(alloc, first, choice, entries)?;
    let end = entries.len();
    let second = build(alloc, second, choice, entries)?;
    Ok(Course::OnHit {
        first: Box::new(alloc, first)?,
        end,
        second: Box::new(alloc, second)?,
    })
}

/// All at once. None at all reply as ErrorRoute does.
fn all(children: Children) -> Course
    ensures { (c : ℕ → ℕ) (v : Vec Plan Global) (from : ℕ) → BuiltEach c v.items from children.ends.items (map view children.courses.items) → IsBuilt c (All v) from (view result) }
{
    if children.courses.is_empty() {
        return Course::Reply(FixedReply::ErrorRoute);
    }
    let waiting = waiting_at_once(&children.courses);
    let worst = worst_at_once(&children.courses);
    Course::All {
        ends: children.ends,
        children: children.courses,
        waiting,
        worst,
    }
}

/// All at once, the first of which is waited for. None at all reply as ErrorRoute does.
fn beside(children: Children) -> Course
    ensures { (c : ℕ → ℕ) (v : Vec Plan Global) (from : ℕ) → BuiltEach c v.items from children.ends.items (map view children.courses.items) → IsBuilt c (Beside v) from (view result) }
{
    if children.courses.is_empty() {
        return Course::Reply(FixedReply::ErrorRoute);
    }
    Course::Beside {
        ends: children.ends,
        children: children.courses,
    }
}

/// One after another. None at all reply as ErrorRoute does.
fn in_turn(after: After, children: Children) -> Course
    ensures { (c : ℕ → ℕ) (v : Vec Plan Global) (from : ℕ) → BuiltEach c v.items from children.ends.items (map view children.courses.items) → IsBuilt c (InTurn after v) from (view result) }
{
    if children.courses.is_empty() {
        return Course::Reply(FixedReply::ErrorRoute);
    }
    let (_, current) = search_at_once(after, &children.courses);
    Course::InTurn {
        after,
        ends: children.ends,
        children: children.courses,
        current,
    }
}

/// Whether the index is one of those from the first to the last.
fn is_within(first: u64, last: u64, index: usize) -> bool
    ensures { result ≡ is_within (record { first = first; last = last }) index }
{
    let index = index as u64;
    first <= index && index <= last
}
