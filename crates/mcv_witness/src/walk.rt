//! A walk over a route beside the outcomes of its legs: what it replies, and whether a server was sent a leg that
//! counts, where each outcome is of a leg that is sent. It takes no memory.

ghost use Rattle.std.specs.Prelude.{◌≡◌, [], map, slice_index};
ghost use Rattle.mcv_base.specs.declared.reply.Outcome.TheVariants.{Soft as Missed};
ghost use Rattle.mcv_route.specs.Children.{is_within, rest_of};
ghost use Rattle.mcv_route.specs.Situation.{asynchronous, shadowed};
ghost use Rattle.mcv_route.specs.Tree.{many, pool};
ghost use Rattle.mcv_route.specs.View.{pool_view, view};
ghost use Rattle.mcv_rules.specs.PlanInMemory.{children_of, ranges_of, situation_at, targets_of};
ghost use Rattle.mcv_witness.specs.Walk.{at_once, gather, gather_all, known_of, one_more, only, only_nth, shade, walked, walked_each};
ghost use Rattle.mcv_witness.specs.declared.seen.Join.TheVariants.{Beside as beside};

use crate::known::Known;
use crate::seen::{Join, Seen, is_good};
use mcv_base::{Outcome, Position, ServerId};
use mcv_pools::Choice;
use mcv_route::{Leaf, Many, Route, Shadow};
use mcv_rules::{Asked, Way, policy_number, prefix_number};

/// What is looked for, and the choice under which.
#[derive(Clone, Copy)]
pub struct Sought<'a> {
    /// The leaf whose hit is looked for among the replies.
    pub leaf: &'a Position,
    /// The server to which a leg that counts is looked for.
    pub server: ServerId,
    pub choice: &'a Choice,
}

/// What is seen of a route; None where an outcome is left over.
#[cycle(walking)]
pub fn walk(route: &Route, asked: &Asked, sought: &Sought, known: Known) -> Option<Seen>
    ensures { result ≡ walked sought.now (view route.now) (situation_at asked.now []) (known_of known.entry) }
{
    match route {
        Route::Pool { leaf, shadows } => walk_pool(leaf, shadows, asked, sought, known),
        Route::Null => known.finish(Seen::at_once(Outcome::Soft)),
        Route::Error => known.finish(Seen::at_once(Outcome::Error)),
        Route::Many(kind, children) => walk_many(*kind, children, asked, sought, known),
        Route::WarmUp {
            cold,
            warm,
            exptime: _,
        } => {
            if !asked.is_warmed_up() {
                return walk_only(cold, 0, asked, sought, known);
            }
            let (own, past) = known.split(0);
            let seen = walk(cold, asked, sought, own)?;
            if !Join::OnMiss.goes_on(seen.reply) {
                return past.finish(seen);
            }
            let (own, past) = past.split(1);
            let warmed = walk(warm, asked, sought, own)?;
            let seen = Join::OnMiss.joined(seen, warmed);
            if !is_good(warmed.reply) {
                return past.finish(seen);
            }
            walk_last(cold, 2, &asked.adding(), sought, Join::Beside, seen, past)
        }
        Route::Migrate {
            from,
            to,
            start,
            interval,
        } => match asked.way(*start, *interval) {
            Way::From => walk_only(from, 0, asked, sought, known),
            Way::To => walk_only(to, 1, asked, sought, known),
            Way::Both => {
                let (own, past) = known.split(0);
                let seen = walk(from, asked, sought, own)?;
                walk_last(to, 1, asked, sought, Join::Both, seen, past)
            }
        },
        Route::PrefixSelector { policies, wildcard } => {
            let number = prefix_number(policies, asked.rest);
            if number < policies.len() {
                let policy = &policies[number];
                return walk_only(&policy.route, number, asked, sought, known);
            }
            match wildcard {
                Some(route) => walk_only(route, number, asked, sought, known),
                None => known.finish(Seen::at_once(Outcome::Error)),
            }
        }
        Route::OperationSelector {
            policies,
            default_policy,
        } => {
            let number = policy_number(policies, asked.op);
            if number < policies.len() {
                let policy = &policies[number];
                walk_only(&policy.route, number, asked, sought, known)
            } else {
                match default_policy {
                    Some(route) => walk_only(route, number, asked, sought, known),
                    None => known.finish(Seen::at_once(Outcome::Error)),
                }
            }
        }
    }
}

/// A handle of this kind with these children.
#[cycle(walking)]
fn walk_many(
    kind: Many,
    children: &[Route],
    asked: &Asked,
    sought: &Sought,
    known: Known,
) -> Option<Seen>
    ensures { result ≡ walked sought.now (many kind (children_of children.now)) (situation_at asked.now []) (known_of known.entry) }
{
    match kind {
        Many::AllSync => walk_joined(children, asked, sought, Join::Both, known),
        Many::AllInitial => walk_initial(children, asked, sought, known),
        Many::AllAsync => walk_unheard(children, &asked.asynchronous(), sought, known),
        Many::Failover => walk_joined(children, asked, sought, Join::OnError, known),
        Many::MissFailover => {
            if asked.fails_over_on_miss() {
                walk_joined(children, asked, sought, Join::OnMiss, known)
            } else {
                walk_first(children, asked, sought, known)
            }
        }
    }
}

/// A child that alone is asked.
#[cycle(walking)]
fn walk_only(
    route: &Route,
    number: usize,
    asked: &Asked,
    sought: &Sought,
    known: Known,
) -> Option<Seen>
    ensures { result ≡ only (walked sought.now (view route.now) (situation_at asked.now [])) number (known_of known.entry) }
{
    let (own, past) = known.split(number);
    if !past.legs.is_empty() {
        return None;
    }
    walk(route, asked, sought, own)
}

/// The first child alone, of a handle that asks one; without children the reply is an error.
#[cycle(walking)]
fn walk_first(children: &[Route], asked: &Asked, sought: &Sought, known: Known) -> Option<Seen>
    ensures { result ≡ only_nth 0 (walked_each sought.now (children_of children.now) (situation_at asked.now [])) 0 (known_of known.entry) }
{
    match children.first() {
        Some(child) => walk_only(child, 0, asked, sought, known),
        None => known.finish(Seen::at_once(Outcome::Error)),
    }
}

/// A child after what was seen of those before it, and no other behind it.
#[cycle(walking)]
fn walk_last(
    route: &Route,
    number: usize,
    asked: &Asked,
    sought: &Sought,
    how: Join,
    before: Seen,
    known: Known,
) -> Option<Seen>
    ensures { result ≡ one_more how number (walked sought.now (view route.now) (situation_at asked.now [])) before (known_of known.entry) }
{
    let (own, past) = known.split(number);
    let next = walk(route, asked, sought, own)?;
    past.finish(how.joined(before, next))
}

/// A pool's own leg, and beside it what its shadows send.
#[cycle(walking)]
fn walk_pool(
    leaf: &Leaf,
    shadows: &[Shadow],
    asked: &Asked,
    sought: &Sought,
    known: Known,
) -> Option<Seen>
    ensures { result ≡ walked sought.now (pool (pool_view leaf.now) (ranges_of shadows.now) (targets_of shadows.now)) (situation_at asked.now []) (known_of known.entry) }
{
    let index = sought.choice.index(leaf.symbol);
    let (reply, past) = known.own(sought.leaf);
    let own = server_at(&leaf.servers, index);
    let seen = Seen {
        reply,
        sent: own.0 == sought.server.0 && asked.mark.is_counting(),
    };
    walk_shadows(shadows, &asked.shadowed(), sought, index, seen, past)
}

/// The server at an index of a pool; past the end the first of all.
fn server_at(servers: &[ServerId], index: usize) -> ServerId
    ensures { result.0 ≡ slice_index (map (λ s. s.0) servers.now) index }
{
    servers.get(index).copied().unwrap_or(ServerId(0))
}

/// Beside what was seen the targets of the shadows that hold the index.
#[cycle(walking)]
fn walk_shadows(
    shadows: &[Shadow],
    asked: &Asked,
    sought: &Sought,
    index: usize,
    before: Seen,
    known: Known,
) -> Option<Seen>
    ensures { result ≡ shade index 0 (ranges_of shadows.now) (walked_each sought.now (targets_of shadows.now) (situation_at asked.now [])) before (known_of known.entry) }
{
    let mut seen = before;
    let mut rest = known;
    for (number, shadow) in shadows.iter().enumerate() {
        if !holds(shadow.first, shadow.last, index) {
            continue;
        }
        let (own, past) = rest.split(number);
        let next = walk(&shadow.target, asked, sought, own)?;
        seen = Join::Beside.joined(seen, next);
        rest = past;
    }
    rest.finish(seen)
}

/// The children behind the first, after what was seen of that one.
#[cycle(walking)]
fn walk_rest(
    children: &[Route],
    asked: &Asked,
    sought: &Sought,
    how: Join,
    before: Seen,
    known: Known,
) -> Option<Seen>
    ensures { result ≡ gather how 1 (rest_of (walked_each sought.now (children_of children.now) (situation_at asked.now []))) before (known_of known.entry) }
{
    let Some((_, others)) = children.split_first() else {
        return known.finish(before);
    };
    let mut seen = before;
    let mut rest = known;
    for (number, child) in others.iter().enumerate() {
        if !how.goes_on(seen.reply) {
            return rest.finish(seen);
        }
        let (own, past) = rest.split(number + 1);
        let next = walk(child, asked, sought, own)?;
        seen = how.joined(seen, next);
        rest = past;
    }
    rest.finish(seen)
}

/// All children, none of which is waited for.
#[cycle(walking)]
fn walk_unheard(children: &[Route], asked: &Asked, sought: &Sought, known: Known) -> Option<Seen>
    ensures { result ≡ gather beside 0 (walked_each sought.now (children_of children.now) (situation_at asked.now [])) (at_once Missed) (known_of known.entry) }
{
    let mut seen = Seen::at_once(Outcome::Soft);
    let mut rest = known;
    for (number, child) in children.iter().enumerate() {
        let (own, past) = rest.split(number);
        let next = walk(child, asked, sought, own)?;
        seen = Join::Beside.joined(seen, next);
        rest = past;
    }
    rest.finish(seen)
}

/// All children, joined.
#[cycle(walking)]
fn walk_joined(
    children: &[Route],
    asked: &Asked,
    sought: &Sought,
    how: Join,
    known: Known,
) -> Option<Seen>
    ensures { let passes = walked_each sought.now (children_of children.now) (situation_at asked.now []) in result ≡ gather_all how passes (rest_of passes) (known_of known.entry) }
{
    let Some((first, _)) = children.split_first() else {
        return known.finish(Seen::at_once(Outcome::Error));
    };
    let (own, past) = known.split(0);
    let seen = walk(first, asked, sought, own)?;
    walk_rest(children, asked, sought, how, seen, past)
}

/// All children, the first of which is waited for.
#[cycle(walking)]
fn walk_initial(children: &[Route], asked: &Asked, sought: &Sought, known: Known) -> Option<Seen>
    ensures { let s = situation_at asked.now [] in
        result ≡ gather_all beside (walked_each sought.now (children_of children.now) s) (rest_of (walked_each sought.now (children_of children.now) (asynchronous s))) (known_of known.entry) }
{
    let Some((first, _)) = children.split_first() else {
        return known.finish(Seen::at_once(Outcome::Error));
    };
    let (own, past) = known.split(0);
    let seen = walk(first, asked, sought, own)?;
    walk_rest(
        children,
        &asked.asynchronous(),
        sought,
        Join::Beside,
        seen,
        past,
    )
}

/// Whether the index is one from the first to the last.
fn holds(first: u64, last: u64, index: usize) -> bool
    ensures { result ≡ is_within (record { first = first; last = last }) index }
{
    let index = index as u64;
    first <= index && index <= last
}
