//! What is launched and replied, step by step, a row a case: a route, an operation, the break that opened the era, and the
//! outcomes of legs by their numbers. Pool n has one server, n.

use crate::routes::{check, check_found, halves, moment_of, op_of, pool, rest_of_a, spelled, word};
use mcv_base::{Mark, Moment, Op, Outcome, Position, ServerId};
use mcv_plan::{EvalState, Source, most_legs};
use mcv_pools::Choice;
use mcv_route::{Launch, Many, Route};
use mcv_rules::{Asked, Plan, laid_out};
use std::process::Abort;

/// So many pools, from 0 on.
fn pools(rt: &(impl AllocGlobal + Abort), count: u32) -> Vec<Route> {
    let mut routes = Vec::new(rt.alloc());
    for number in 0..count {
        let pool = pool(rt, number as usize, &[ServerId(number)]);
        routes.push(pool).expect(rt, "memory");
    }
    routes
}

/// A MissFailoverRoute of so many pools, which is sent and not waited for.
fn async_miss_failover(rt: &(impl AllocGlobal + Abort), count: u32) -> Route {
    let search = Route::Many(Many::MissFailover, pools(rt, count));
    let children = vec![in rt.alloc(); search].expect(rt, "memory");
    Route::Many(Many::AllAsync, children)
}

/// The kind of a name.
fn kind_of(name: &str) -> Many {
    match name {
        "sync" => Many::AllSync,
        "initial" => Many::AllInitial,
        "async" => Many::AllAsync,
        "failover" => Many::Failover,
        _ => Many::MissFailover,
    }
}

/// The route of a name; behind a dot the number of its children, where they aren't two.
fn route_of(rt: &(impl AllocGlobal + Abort), word: &str) -> Route {
    let (name, count) = word.split_once('.').unwrap_or((word, "2"));
    let count = count.parse::<u32>().expect(rt, "a number");
    match name {
        "shadowed" => spelled(rt, "C"),
        "async_miss_failover" => async_miss_failover(rt, count),
        "warm_up" => spelled(rt, "01w"),
        "migrate" => spelled(rt, "01G"),
        _ => Route::Many(kind_of(name), pools(rt, count)),
    }
}

/// A plan by the words of a row: a route, an operation, and the break that opened the era.
fn planned(rt: &(impl AllocGlobal + Abort), row: &str) -> Plan {
    let route = route_of(rt, word(rt, row, 0));
    let rest = rest_of_a(rt);
    let asked = Asked {
        op: op_of(rt, row, 1),
        rest: &rest,
        since: moment_of(rt, row, 2),
        mark: Mark::Plain,
    };
    let root = Position::root(rt.alloc());
    laid_out(rt.alloc(), &route, &asked, &root).expect(rt, "memory")
}

/// An outcome as a row has it: the number of a leg, `=` and a word.
fn outcome(rt: &impl Abort, word: &str) -> (usize, Outcome) {
    let (entry, outcome) = word.split_once('=').expect(rt, "an outcome");
    let outcome = match outcome {
        "good" => Outcome::Good,
        "soft" => Outcome::Soft,
        _ => Outcome::Error,
    };
    (entry.parse::<usize>().expect(rt, "a leg"), outcome)
}

fn push(rt: &impl Abort, text: &mut String, piece: &str) {
    text.push_str(piece).expect(rt, "memory");
}

/// The reply where it is there.
fn push_reply(rt: &impl Abort, state: &EvalState, text: &mut String) {
    if let Some(answer) = state.status() {
        match answer.source {
            Source::Entry(entry) => write!(text, " reply {entry}").expect(rt, "memory"),
            Source::Fixed(_) => push(rt, text, " reply fixed"),
        }
    }
}

/// The numbers of the fresh legs, and the reply.
fn push_step(rt: &impl Abort, state: &EvalState, text: &mut String) {
    push(rt, text, "[");
    for entry in state.fresh() {
        write!(text, " {entry}").expect(rt, "memory");
    }
    push(rt, text, " ]");
    push_reply(rt, state, text);
}

fn state_of(rt: &(impl AllocGlobal + Abort), plan: &Plan) -> (EvalState, Vec<Launch>) {
    let choice = Choice::new(Vec::new(rt.alloc()));
    EvalState::new(rt.alloc(), plan, &choice).expect(rt, "memory")
}

/// What is launched before any outcome and after each.
fn steps(rt: &(impl AllocGlobal + Abort), plan: &Plan, outcomes: &str) -> String {
    let (mut state, _entries) = state_of(rt, plan);
    let mut text = String::new(rt.alloc());
    push_step(rt, &state, &mut text);
    for word in outcomes.split(' ') {
        let (entry, outcome) = outcome(rt, word);
        if entry < state.legs() {
            state.advance(entry, outcome);
        }
        push_step(rt, &state, &mut text);
    }
    text
}

fn check_row(rt: &(impl AllocGlobal + Abort), row: &str) {
    let (asked, wanted) = halves(rt, row);
    let (asked, outcomes) = asked.split_once(": ").expect(rt, "a row");
    let found = steps(rt, &planned(rt, asked), outcomes);
    check_found(rt, row, found.as_str(), wanted);
}

fn check_steps(rt: &(impl AllocGlobal + Abort), rows: &str) {
    for row in rows.lines() {
        check_row(rt, row);
    }
}

const WARM_UP: &str = "\
warm_up get -: 0=soft 1=good | [ 0 ][ 1 ][ 2 ] reply 1
warm_up get -: 0=soft 1=soft | [ 0 ][ 1 ][ ] reply 1
warm_up get -: 0=good | [ 0 ][ ] reply 0
warm_up set -: 0=soft | [ 0 ][ ] reply 0";

#[test]
fn a_warm_up_fills_its_cold_side(rt: HostRuntime) {
    check_steps(&rt, WARM_UP);
}

fn is_add(leg: &Launch) -> bool {
    leg.mark == Mark::Add
}

fn is_of_add(leg: &Launch) -> bool {
    leg.op == Op::Add
}

#[test]
fn the_add_is_marked(rt: HostRuntime) {
    let (_state, entries) = state_of(&rt, &planned(&rt, "warm_up get -"));
    check(&rt, entries.iter().position(is_add) == Some(2), "leg 2");
    check(&rt, entries.get(2).is_some_and(is_of_add), "an add");
}

#[test]
fn the_last_of_the_worst_is_the_reply(rt: HostRuntime) {
    let row = "sync delete -: 1=error 0=error | [ 0 1 ][ ][ ] reply 0";
    check_steps(&rt, row);
}

const FIRST: &str = "\
initial delete -: 1=error 0=good | [ 0 1 ][ ][ ] reply 0
async delete -: 1=error | [ 0 1 ] reply fixed[ ] reply fixed";

#[test]
fn the_first_is_waited_for(rt: HostRuntime) {
    check_steps(&rt, FIRST);
}

const SEARCHES: &str = "\
failover.3 get -: 0=error 1=soft | [ 0 ][ 1 ][ ] reply 1
miss_failover.3 get -: 0=error 1=soft 2=good | [ 0 ][ 1 ][ 2 ][ ] reply 2";

#[test]
fn searches_go_on_after_what_they_pass(rt: HostRuntime) {
    check_steps(&rt, SEARCHES);
}

#[test]
fn no_one_waits_for_a_shadow(rt: HostRuntime) {
    let row = "shadowed get -: 0=good 1=error | [ 0 1 ][ ] reply 0[ ] reply 0";
    check_steps(&rt, row);
}

const MIGRATION: &str = "\
migrate delete 105: 0=good 1=soft | [ 0 1 ][ ][ ] reply 1
migrate get 105: 0=good | [ 0 ][ ] reply 0";

#[test]
fn deletes_of_a_migration_go_to_both(rt: HostRuntime) {
    check_steps(&rt, MIGRATION);
}

/// Advances by a good outcome of each leg.
fn advance_all(state: &mut EvalState, count: usize) {
    for entry in 0..count {
        if entry < state.legs() {
            state.advance(entry, Outcome::Good);
        }
    }
}

#[test]
fn wide_routes(rt: HostRuntime) {
    let (mut state, entries) = state_of(&rt, &planned(&rt, "sync.4096 delete -"));
    check(&rt, state.fresh().len() == entries.len(), "all at once");
    advance_all(&mut state, entries.len());
    check(&rt, state.status().is_some(), "a reply");
}

/// Routes, each with an operation, a break, and the most legs of such a call of `a`.
const MOST: &str = "\
warm_up get - 3
warm_up set - 1
shadowed get - 2
failover.3 delete - 3
miss_failover.3 get - 3
miss_failover.3 delete - 1
async.5 delete - 5
initial.5 delete - 5
initial.0 delete - 0
migrate delete 105 2
migrate delete - 1";

/// The most legs of a call of `a` in a row.
fn most(rt: &(impl AllocGlobal + Abort), row: &str) -> usize {
    let route = route_of(rt, word(rt, row, 0));
    let (op, since) = (op_of(rt, row, 1), moment_of(rt, row, 2));
    most_legs(&route, op, &rest_of_a(rt), since)
}

/// The last word of a row is its number of legs.
fn check_most(rt: &(impl AllocGlobal + Abort), row: &str) {
    let (asked, wanted) = row.rsplit_once(' ').expect(rt, "a row");
    let wanted = wanted.parse::<usize>().expect(rt, "a number");
    check(rt, most(rt, asked) == wanted, row);
}

#[test]
fn the_most_legs_are_those_of_all_parts(rt: HostRuntime) {
    for row in MOST.lines() {
        check_most(&rt, row);
    }
}

/// A state, the outcomes that it took in, and the legs that were fresh so far.
#[derive(Drop)]
struct Followed {
    state: EvalState,
    known: Vec<Option<Outcome>>,
    launched: Vec<bool>,
}

impl Followed {
    fn of(rt: &(impl AllocGlobal + Abort), plan: &Plan) -> Followed {
        let (state, entries) = state_of(rt, plan);
        let mut followed = Followed {
            state,
            known: vec![in rt.alloc(); None; entries.len()].expect(rt, "memory"),
            launched: vec![in rt.alloc(); false; entries.len()].expect(rt, "memory"),
        };
        followed.mark_fresh();
        followed
    }

    fn mark_fresh(&mut self) {
        for entry in self.state.fresh() {
            if let Some(mark) = self.launched.get_mut(*entry) {
                *mark = true;
            }
        }
    }

    /// Takes in the outcome of a leg.
    fn take(&mut self, entry: usize, outcome: Outcome) {
        if entry < self.state.legs() {
            self.state.advance(entry, outcome);
        }
        if let Some(known) = self.known.get_mut(entry) {
            *known = Some(outcome);
        }
        self.mark_fresh();
    }

    /// Whether the legs that were fresh so far are those that are launched.
    fn is_right(&self) -> bool {
        for (entry, mark) in self.launched.iter().enumerate() {
            if self.state.is_launched(&self.known, entry) != *mark {
                return false;
            }
        }
        !self.state.is_launched(&self.known, self.launched.len())
    }

    /// Of the legs that are launched and have no outcome, the one with so many before it.
    fn awaited(&self, before: usize) -> Option<usize> {
        let mut left = before;
        for (entry, known) in self.known.iter().enumerate() {
            if known.is_none() && self.launched.get(entry) == Some(&true) {
                if left == 0 {
                    return Some(entry);
                }
                left = left.saturating_sub(1);
            }
        }
        None
    }
}

/// Routes, each with an operation, a break, and outcomes.
const AGREED: &str = "\
warm_up get -: 0=soft 1=good
warm_up get -: 0=soft 1=soft
warm_up get -: 0=good
failover.3 get -: 0=error 1=soft
sync delete -: 1=error 0=error
shadowed get -: 1=error";

/// After each of a row's outcomes the legs that were fresh so far are those that are launched.
fn check_agreed(rt: &(impl AllocGlobal + Abort), row: &str) {
    let (asked, outcomes) = row.split_once(": ").expect(rt, "a row");
    let mut followed = Followed::of(rt, &planned(rt, asked));
    check(rt, followed.is_right(), row);
    for word in outcomes.split(' ') {
        let (entry, outcome) = outcome(rt, word);
        followed.take(entry, outcome);
        check(rt, followed.is_right(), row);
    }
}

#[test]
fn what_was_fresh_is_launched(rt: HostRuntime) {
    for row in AGREED.lines() {
        check_agreed(&rt, row);
    }
}

/// Routes of at most four legs, each with an operation and a break.
const ORDERED: &str = "\
sync.4 delete -
initial.4 delete -
failover.4 get -
miss_failover.4 get -
async_miss_failover.4 get -
warm_up get -
shadowed delete -
migrate delete 105";

fn outcome_of(digit: usize) -> Outcome {
    match digit {
        0 => Outcome::Good,
        1 => Outcome::Soft,
        _ => Outcome::Error,
    }
}

/// Four outcomes as the order's digits say: of one of four legs that are awaited, where there are so many, one of three.
/// The legs that were fresh so far are those that are launched, each time.
fn check_order(rt: &(impl AllocGlobal + Abort), plan: &Plan, order: usize, row: &str) {
    let mut followed = Followed::of(rt, plan);
    check(rt, followed.is_right(), row);
    let mut digits = order;
    for _ in 0..4 {
        if let Some(entry) = followed.awaited(digits / 3 % 4) {
            followed.take(entry, outcome_of(digits % 3));
            assert!(rt; followed.is_right(), "{row}: order {order}");
        }
        digits /= 12;
    }
}

/// In every order.
fn check_orders(rt: &(impl AllocGlobal + Abort), row: &str) {
    let plan = planned(rt, row);
    for order in 0..12 * 12 * 12 * 12 {
        check_order(rt, &plan, order, row);
    }
}

#[test]
fn what_was_fresh_is_launched_in_every_order(rt: HostRuntime) {
    for row in ORDERED.lines() {
        check_orders(&rt, row);
    }
}
