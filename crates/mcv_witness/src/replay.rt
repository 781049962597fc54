//! Whether a finding shows what it says. It takes no memory, and uses nothing of what finds findings.

ghost use Rattle.std.specs.Prelude.{◌≡◌, ◌↔◌, ◌<◌, Some, IsTrue, MatchOption, map, option_map, slice_get, slice_index, true};
ghost use Rattle.std.specs.Cmp.Lexicographic.{slice_cmp};
ghost use Rattle.std.specs.Ordering.{is_lt, nat_cmp};
ghost use Rattle.mcv_base.specs.Key.{IsCut, is_key_word};
ghost use Rattle.mcv_route.specs.Situation.{asked};
ghost use Rattle.mcv_route.specs.Tree.{Tree};
ghost use Rattle.mcv_route.specs.View.{view};
ghost use Rattle.mcv_witness.specs.Breaks.{BreaksCoverage, IsAtPlace, IsLeafOf, IsMissed, IsRead};
ghost use Rattle.mcv_witness.specs.Confirm.{AreErasOf, HaveNoEras, IsNowhere, are_rising, has_indexes, hit_seen, missed_seen};
ghost use Rattle.mcv_witness.specs.Finding.{finding_of, outcomes_of};
ghost use Rattle.mcv_witness.specs.Walk.{pass};

use crate::class_word::is_class_word;
use crate::finding::{Finding, LegOutcome};
use crate::known::Known;
use crate::seen::Seen;
use crate::walk::{Sought, walk};
use mcv_base::{Mark, Moment, Op, Outcome, Position, Prefix, Rest, ServerId, split_key};
use mcv_pools::{Choice, Symbol};
use mcv_route::{Route, Routes, era_count, near, opened};
use mcv_rules::Asked;
use std::cmp::Ordering;

/// Whether the finding breaks coverage: anyone can replay it, and it shows that what was deleted is still read.
/// It takes no memory, and time in proportion to the route and the outcomes.
pub fn confirm(routes: &Routes, finding: &Finding) -> bool
    ensures { IsTrue result ↔ BreaksCoverage routes.now (finding_of finding.now) }
{
    let Some(scene) = scene_of(routes, finding) else {
        return false;
    };
    if !is_choice(routes.symbols().as_slice(), &finding.choice) {
        return false;
    }
    if !has_leaf(routes, finding) {
        return false;
    }
    if !is_read(&scene, finding) {
        return false;
    }
    is_missed(&scene, finding)
}

/// The breaks that opened the eras of a finding's delete and of its get.
#[derive(Clone, Copy)]
struct Eras {
    since: Option<Moment>,
    read: Option<Moment>,
}

/// Where a finding is: its route, the rest of its key, and the breaks that opened the eras of its delete and of its get.
#[derive(Drop)]
struct Scene<'a> {
    route: &'a Route,
    rest: Rest,
    since: Option<Moment>,
    read: Option<Moment>,
}

/// The scene that the finding names, if there is one.
fn scene_of<'a>(routes: &'a Routes, finding: &Finding) -> Option<Scene<'a>>
    ensures { MatchOption result (IsNowhere routes.now (finding_of finding.now)) (λ p. IsAtPlace routes.now (finding_of finding.now) (view p.route.now) p.rest (option_map (λ m. m.0) p.since) (option_map (λ m. m.0) p.read)) }
{
    match split_key(finding.key.as_slice()) {
        Ok((prefix, rest)) => scene_by(routes, finding, &prefix, rest),
        Err(_) => None,
    }
}

/// The same, of a key with this routing prefix and this rest.
fn scene_by<'a>(
    routes: &'a Routes,
    finding: &Finding,
    prefix: &Prefix,
    rest: Rest,
) -> Option<Scene<'a>>
    requires word { is_key_word finding.now.key.items ≡ true }
    requires cut { IsCut finding.now.key.items prefix.now rest }
    ensures { MatchOption result (IsNowhere routes.now (finding_of finding.now)) (λ p. IsAtPlace routes.now (finding_of finding.now) (view p.route.now) p.rest (option_map (λ m. m.0) p.since) (option_map (λ m. m.0) p.read)) }
{
    let number = routes.route_of(prefix)?;
    if number != finding.place.route {
        return None;
    }
    let route = routes.route(number)?;
    let eras = eras_of(routes, finding)?;
    if !is_class_word(route, &rest, finding.place.class.as_slice()) {
        return None;
    }
    let _ = rest.as_bytes();
    Some(Scene {
        route,
        rest,
        since: eras.since,
        read: eras.read,
    })
}

/// The eras that the finding names, where the routes have them and they are near within its window.
fn eras_of(routes: &Routes, finding: &Finding) -> Option<Eras>
    ensures { MatchOption result (HaveNoEras routes.now (finding_of finding.now)) (λ e. AreErasOf routes.now (finding_of finding.now) (option_map (λ m. m.0) e.since) (option_map (λ m. m.0) e.read)) }
{
    let era = finding.place.era;
    let get_era = finding.place.get_era;
    let count = era_count(routes);
    if era >= count {
        return None;
    }
    if get_era >= count {
        return None;
    }
    if !near(routes, era, get_era, finding.window) {
        return None;
    }
    Some(Eras {
        since: opened(routes, era),
        read: opened(routes, get_era),
    })
}

/// Whether each symbol has an index below its number of servers.
fn is_choice(symbols: &[Symbol], choice: &Choice) -> bool
    ensures { result ≡ has_indexes choice.now 0 symbols.now }
{
    for (number, symbol) in symbols.iter().enumerate() {
        if choice.index(number) >= symbol.n() {
            return false;
        }
    }
    true
}

/// Whether a pool is at the leaf with the index and the server that the finding names.
fn has_leaf(routes: &Routes, finding: &Finding) -> bool
    ensures { (t : Tree) → option_map (λ e. e.tree) (slice_get routes.now.entries finding.now.place.route) ≡ Some t → IsTrue result ↔ IsLeafOf (finding_of finding.now) t }
{
    let Some(leaf) = routes.leaf_at(finding.place.route, &finding.place.leaf) else {
        return false;
    };
    if finding.choice.index(leaf.symbol) != finding.at {
        return false;
    }
    holds_at(&leaf.servers, finding.at, finding.server)
}

/// Whether the server is at the index.
fn holds_at(servers: &[ServerId], at: usize, server: ServerId) -> bool
    ensures { IsTrue result ↔ (slice_get (map (λ s. s.0) servers.now) at ≡ Some server.0) }
{
    match servers.get(at) {
        Some(found) => found.0 == server.0,
        None => false,
    }
}

/// Whether the one position comes before the other.
fn is_before(one: &Position, other: &Position) -> bool
    ensures { result ≡ is_lt (slice_cmp nat_cmp one.now other.now) }
{
    match one.steps().cmp(other.steps()) {
        Ordering::Less => true,
        Ordering::Equal => false,
        Ordering::Greater => false,
    }
}

/// Whether outcomes rise by position.
fn are_rising(legs: &[LegOutcome]) -> bool
    ensures { result ≡ are_rising (outcomes_of legs.now) }
{
    let Some((first, others)) = legs.split_first() else {
        return true;
    };
    let mut before = &first.position;
    for leg in others {
        if !is_before(before, &leg.position) {
            return false;
        }
        before = &leg.position;
    }
    true
}

/// What is seen of the finding's route at these outcomes of an operation, in the era that began at `since`.
fn seen(
    scene: &Scene,
    finding: &Finding,
    op: Op,
    since: Option<Moment>,
    legs: &[LegOutcome],
) -> Option<Seen>
    ensures { result ≡ pass finding.now.place.leaf finding.now.server.0 (slice_index finding.now.choice) (view scene.now.route.now)
        (asked op scene.now.rest (option_map (λ m. m.0) since)) (record { legs = outcomes_of legs.now; depth = 0 }) }
{
    let asked = Asked {
        op,
        rest: &scene.rest,
        since,
        mark: Mark::Plain,
    };
    let sought = Sought {
        leaf: &finding.place.leaf,
        server: finding.server,
        choice: &finding.choice,
    };
    walk(scene.route, &asked, &sought, Known { legs, depth: 0 })
}

/// Whether a hit of the leaf is among the replies.
fn is_hit(seen: Option<Seen>) -> bool
    ensures { result ≡ hit_seen seen }
{
    let Some(seen) = seen else {
        return false;
    };
    match seen.reply {
        Some(reply) => reply.is_hit,
        None => false,
    }
}

/// Whether there is a reply that isn't an error, and no leg was sent to the server.
fn is_past(seen: Option<Seen>) -> bool
    ensures { result ≡ missed_seen seen }
{
    let Some(seen) = seen else {
        return false;
    };
    if seen.sent {
        return false;
    }
    match seen.reply {
        Some(reply) => !matches!(reply.outcome, Outcome::Error),
        None => false,
    }
}

/// Whether the get's outcomes can come about, and a hit of the leaf is among its replies.
fn is_read(scene: &Scene, finding: &Finding) -> bool
    ensures { IsTrue result ↔ IsRead (finding_of finding.now) (view scene.now.route.now) scene.now.rest (option_map (λ m. m.0) scene.now.read) }
{
    if !finding.op.shows_value() {
        return false;
    }
    if !are_rising(finding.gets.as_slice()) {
        return false;
    }
    is_hit(seen(
        scene,
        finding,
        finding.op,
        scene.read,
        finding.gets.as_slice(),
    ))
}

/// Whether the delete's outcomes can come about, it has a reply that isn't an error, and the server was sent none of it.
fn is_missed(scene: &Scene, finding: &Finding) -> bool
    ensures { IsTrue result ↔ IsMissed (finding_of finding.now) (view scene.now.route.now) scene.now.rest (option_map (λ m. m.0) scene.now.since) }
{
    if !are_rising(finding.deletes.as_slice()) {
        return false;
    }
    is_past(seen(
        scene,
        finding,
        Op::Delete,
        scene.since,
        finding.deletes.as_slice(),
    ))
}
