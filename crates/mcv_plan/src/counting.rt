//! How many legs a call can launch at most.

ghost use Rattle.std.specs.Prelude.{◌≡◌, List, option_map, ℕ};
ghost use Rattle.mcv_route.specs.Situation.{asked as asked_of};
ghost use Rattle.mcv_route.specs.Tree.{Pool, many, AllInitial, MissFailover, pool};
ghost use Rattle.mcv_route.specs.View.{view};
ghost use Rattle.mcv_rules.specs.PlanInMemory.{children_of, ranges_of, situation_at, targets_of};
ghost use Rattle.mcv_plan.specs.Counts.{capped, legs_each, legs_in};

use mcv_base::{Mark, Moment, Op, Rest};
use mcv_route::{Many, Route, Shadow};
use mcv_rules::{Asked, Way, policy_number, prefix_number};

/// How many legs a call can launch at most, whatever they answer and whatever the choice is: those of all shadows, of
/// all children of a search, and of a warm-up's add too. Takes no memory. At most `usize::MAX`.
///
/// The route is asked for this operation at this rest, in the era that began at `since` (none: the first one).
pub fn most_legs(route: &Route, op: Op, rest: &Rest, since: Option<Moment>) -> usize
    ensures { result ≡ capped (legs_in (view route.now) (asked_of op rest.now (option_map (λ m. m.0) since))) }
{
    let asked = Asked {
        op,
        rest,
        since,
        mark: Mark::Plain,
    };
    count(route, &asked)
}

/// Those of a route, at any position.
#[cycle(counting)]
fn count(route: &Route, asked: &Asked) -> usize
    ensures { (position : List ℕ) → result ≡ capped (legs_in (view route.now) (situation_at asked.now position)) }
{
    match route {
        Route::Pool { shadows, .. } => count_pool(shadows, asked),
        Route::Null => 0,
        Route::Error => 0,
        Route::Many(kind, children) => count_many(*kind, children, asked),
        Route::WarmUp { cold, warm, .. } => {
            let first = count(cold, asked);
            if asked.is_warmed_up() {
                let second = count(warm, asked);
                let adding = asked.adding();
                let filling = count(cold, &adding);
                let both = first.saturating_add(second);
                both.saturating_add(filling)
            } else {
                first
            }
        }
        Route::Migrate {
            from,
            to,
            start,
            interval,
        } => match asked.way(*start, *interval) {
            Way::From => count(from, asked),
            Way::To => count(to, asked),
            Way::Both => {
                let source = count(from, asked);
                let target = count(to, asked);
                source.saturating_add(target)
            }
        },
        Route::PrefixSelector { policies, wildcard } => {
            let number = prefix_number(policies, asked.rest);
            if number < policies.len() {
                let policy = &policies[number];
                return count(&policy.route, asked);
            }
            match wildcard {
                Some(route) => count(route, asked),
                None => 0,
            }
        }
        Route::OperationSelector {
            policies,
            default_policy,
        } => {
            let number = policy_number(policies, asked.op);
            if number < policies.len() {
                let policy = &policies[number];
                count(&policy.route, asked)
            } else {
                match default_policy {
                    Some(route) => count(route, asked),
                    None => 0,
                }
            }
        }
    }
}

/// Those of a handle of this kind with these children.
#[cycle(counting)]
fn count_many(kind: Many, children: &[Route], asked: &Asked) -> usize
    ensures { (position : List ℕ) → result ≡ capped (legs_in (many kind (children_of children.now)) (situation_at asked.now position)) }
{
    match kind {
        Many::AllSync => count_each(children, asked),
        Many::AllInitial => count_initial(children, asked),
        Many::AllAsync => {
            let unheard = asked.asynchronous();
            count_each(children, &unheard)
        }
        Many::Failover => count_each(children, asked),
        Many::MissFailover => count_misses(children, asked),
    }
}

/// Those of all children.
#[cycle(counting)]
fn count_each(children: &[Route], asked: &Asked) -> usize
    ensures { (position : List ℕ) → result ≡ capped (legs_each 0 (children_of children.now) (situation_at asked.now position)) }
{
    let mut total: usize = 0;
    for child in children {
        total = total.saturating_add(count(child, asked));
    }
    total
}

/// Those of the first child, and of the others, whose replies no one waits for.
#[cycle(counting)]
fn count_initial(children: &[Route], asked: &Asked) -> usize
    ensures { (position : List ℕ) → result ≡ capped (legs_in (many AllInitial (children_of children.now)) (situation_at asked.now position)) }
{
    let Some((first, others)) = children.split_first() else {
        return 0;
    };
    let unheard = asked.asynchronous();
    let mut total = count(first, asked);
    for child in others {
        total = total.saturating_add(count(child, &unheard));
    }
    total
}

/// Those of all children for what fails over, and of the first child for the rest.
#[cycle(counting)]
fn count_misses(children: &[Route], asked: &Asked) -> usize
    ensures { (position : List ℕ) → result ≡ capped (legs_in (many MissFailover (children_of children.now)) (situation_at asked.now position)) }
{
    if !asked.fails_over_on_miss() {
        return match children.first() {
            Some(first) => count(first, asked),
            None => 0,
        };
    }
    count_each(children, asked)
}

/// A pool's own, and those of all shadows' targets.
#[cycle(counting)]
fn count_pool(shadows: &[Shadow], asked: &Asked) -> usize
    ensures { (q : Pool) (position : List ℕ) → result ≡ capped (legs_in (pool q (ranges_of shadows.now) (targets_of shadows.now)) (situation_at asked.now position)) }
{
    let shadowed = asked.shadowed();
    let mut total: usize = 1;
    for shadow in shadows {
        total = total.saturating_add(count(&shadow.target, &shadowed));
    }
    total
}
