//! Routes of the tests, and what their tables say of outcomes and positions.

use mcv_base::{FixedReply, Moment, Op, Part, Position, Reply, Rest, ServerId};
use mcv_route::{Answered, Leaf, Many, OperationPolicy, PrefixPolicy, Route, Shadow};
use std::process::Abort;
use std::sync::Arc;

/// Bytes that are shared.
pub fn shared(rt: &(impl AllocGlobal + Abort), bytes: &[u8]) -> Arc<Vec<u8>> {
    let bytes = Vec::from_slice(rt.alloc(), bytes).expect(rt, "memory");
    Arc::new(rt.alloc(), bytes).expect(rt, "memory")
}

fn boxed(rt: &(impl AllocGlobal + Abort), route: Route) -> Box<Route> {
    Box::new(rt.alloc(), route).expect(rt, "memory")
}

/// A pool of these servers, with its shadows.
fn shadowed(
    rt: &(impl AllocGlobal + Abort),
    symbol: usize,
    servers: &[ServerId],
    shadows: Vec<Shadow>,
) -> Route {
    let servers = Vec::from_slice(rt.alloc(), servers).expect(rt, "memory");
    let servers = Arc::new(rt.alloc(), servers).expect(rt, "memory");
    let leaf = Leaf { symbol, servers };
    Route::Pool { leaf, shadows }
}

/// A pool of these servers.
pub fn pool(rt: &(impl AllocGlobal + Abort), symbol: usize, servers: &[ServerId]) -> Route {
    shadowed(rt, symbol, servers, Vec::new(rt.alloc()))
}

fn lone(rt: &(impl AllocGlobal + Abort), server: u32) -> Route {
    pool(rt, 0, &[ServerId(server)])
}

/// A pool of these servers, whose copies for the indexes from `first` to `last` go to each target.
fn copied(
    rt: &(impl AllocGlobal + Abort),
    servers: &[ServerId],
    targets: &[(u64, u64, &[ServerId])],
) -> Route {
    let mut shadows = Vec::new(rt.alloc());
    for (first, last, servers) in targets {
        let shadow = Shadow {
            first: *first,
            last: *last,
            target: pool(rt, 0, servers),
        };
        shadows.push(shadow).expect(rt, "memory");
    }
    shadowed(rt, 0, servers, shadows)
}

/// A pool of servers 1 and 2; at index 0 server 3 gets a copy, at 1 to 9 server 4.
fn two_shadows(rt: &(impl AllocGlobal + Abort)) -> Route {
    let first: (u64, u64, &[ServerId]) = (0, 0, &[ServerId(3)]);
    let second: (u64, u64, &[ServerId]) = (1, 9, &[ServerId(0), ServerId(4)]);
    copied(rt, &[ServerId(1), ServerId(2)], &[first, second])
}

/// Server 1 for rests that begin with `a`, server 2 for those with `ab`.
fn prefixes(rt: &(impl AllocGlobal + Abort)) -> Route {
    let mut policies = Vec::new(rt.alloc());
    for (prefix, server) in [("a", 1), ("ab", 2)] {
        let policy = PrefixPolicy {
            prefix: Vec::from_slice(rt.alloc(), prefix.as_bytes()).expect(rt, "memory"),
            route: lone(rt, server),
        };
        policies.push(policy).expect(rt, "memory");
    }
    Route::PrefixSelector {
        policies,
        wildcard: None,
    }
}

fn policy(op: Option<Op>, route: Route) -> OperationPolicy {
    OperationPolicy { op, route }
}

/// Servers 7 and 8 for delete; a policy whose operation no command has comes before.
fn policies(rt: &(impl AllocGlobal + Abort)) -> Vec<OperationPolicy> {
    let delete = pool(rt, 0, &[ServerId(7), ServerId(8)]);
    let mut policies = Vec::new(rt.alloc());
    policies
        .push(policy(None, Route::Null))
        .expect(rt, "memory");
    policies
        .push(policy(Some(Op::Delete), delete))
        .expect(rt, "memory");
    policies
}

/// Those policies, and a default.
fn operations(rt: &(impl AllocGlobal + Abort), default_policy: Option<Box<Route>>) -> Route {
    Route::OperationSelector {
        policies: policies(rt),
        default_policy,
    }
}

/// The last route.
fn last(rt: &(impl AllocGlobal + Abort), routes: &mut Vec<Route>) -> Box<Route> {
    boxed(rt, routes.pop().expect(rt, "a route"))
}

/// The last routes, in their order.
fn last_of(rt: &(impl AllocGlobal + Abort), routes: &mut Vec<Route>, count: usize) -> Vec<Route> {
    let mut children = Vec::new(rt.alloc());
    for _ in 0..count {
        let child = routes.pop().expect(rt, "a route");
        children.push(child).expect(rt, "memory");
    }
    children.reverse();
    children
}

/// A WarmUpRoute of the last two routes.
fn warming(rt: &(impl AllocGlobal + Abort), routes: &mut Vec<Route>, exptime: u32) -> Route {
    let warm = last(rt, routes);
    let cold = last(rt, routes);
    Route::WarmUp {
        cold,
        warm,
        exptime,
    }
}

/// From the last route but one to the last, from this moment on.
fn moving(
    rt: &(impl AllocGlobal + Abort),
    routes: &mut Vec<Route>,
    start: u32,
    interval: u32,
) -> Route {
    let to = last(rt, routes);
    let from = last(rt, routes);
    Route::Migrate {
        from,
        to,
        start,
        interval,
    }
}

/// The kind of a letter.
fn kind_of(letter: u8) -> Many {
    match letter {
        b's' | b'S' => Many::AllSync,
        b'i' => Many::AllInitial,
        b'y' => Many::AllAsync,
        b'm' => Many::MissFailover,
        _ => Many::Failover,
    }
}

/// The route of a letter without children.
fn leaf_of(rt: &(impl AllocGlobal + Abort), letter: u8) -> Route {
    match letter {
        b'N' => Route::Null,
        b'E' => Route::Error,
        b'C' => copied(rt, &[ServerId(0)], &[(0, 0, &[ServerId(1)])]),
        b'T' => two_shadows(rt),
        b'P' => pool(rt, 0, &[ServerId(1), ServerId(2)]),
        b'X' => prefixes(rt),
        b'O' => operations(rt, Some(boxed(rt, lone(rt, 1)))),
        b'D' => operations(rt, None),
        other => lone(rt, u32::from(other).saturating_sub(48)),
    }
}

/// The route of a letter, whose children are the last ones.
fn lettered(rt: &(impl AllocGlobal + Abort), routes: &mut Vec<Route>, letter: u8) -> Route {
    match letter {
        b's' | b'i' | b'y' | b'm' | b'f' => Route::Many(kind_of(letter), last_of(rt, routes, 2)),
        b'S' | b'F' => Route::Many(kind_of(letter), last_of(rt, routes, 3)),
        b'w' => warming(rt, routes, 60),
        b'v' => warming(rt, routes, 5),
        b'M' => moving(rt, routes, 1000, 3600),
        b'G' => moving(rt, routes, 100, 10),
        other => leaf_of(rt, other),
    }
}

/// The route that letters spell, each behind its children: N a NullRoute, E an ErrorRoute, C and T pools with copies, P a
/// pool of servers 1 and 2, X a PrefixSelectorRoute, O and D OperationSelectorRoutes, D without a default; s, i, y, m and f
/// an AllSyncRoute, an AllInitialRoute, an AllAsyncRoute, a MissFailoverRoute and a FailoverRoute of the last two, S and F an
/// AllSyncRoute and a FailoverRoute of the last three, w and v WarmUpRoutes of the last two that add for 60 s and for 5 s, M
/// and G MigrateRoutes of them, from moment 1000 on by steps of an hour and from 100 on by steps of 10 s; a digit a pool of the server with this number, and any other letter a pool of its own.
pub fn spelled(rt: &(impl AllocGlobal + Abort), letters: &str) -> Route {
    let mut routes = Vec::new(rt.alloc());
    for letter in letters.as_bytes() {
        let route = lettered(rt, &mut routes, *letter);
        routes.push(route).expect(rt, "memory");
    }
    routes.pop().expect(rt, "a route")
}

/// The letters of a name.
fn letters_of<'a>(rt: &impl Abort, names: &[(&'a str, &'a str)], name: &str) -> &'a str {
    for (other, letters) in names {
        if *other == name {
            return letters;
        }
    }
    panic!(rt; "no such name")
}

/// The route of a name.
pub fn named(rt: &(impl AllocGlobal + Abort), names: &[(&str, &str)], name: &str) -> Route {
    spelled(rt, letters_of(rt, names, name))
}

/// What is found is what the row wants.
pub fn check_found(rt: &impl Abort, row: &str, found: &str, wanted: &str) {
    assert!(rt; found == wanted, "{row}\n{found}");
}

/// What is wanted is so.
pub fn check(rt: &impl Abort, is_so: bool, what: &str) {
    assert!(rt; is_so, "{what}");
}

/// What is asked by a row, and what it wants.
pub fn halves<'a>(rt: &impl Abort, row: &'a str) -> (&'a str, &'a str) {
    row.split_once(" | ").expect(rt, "a bar")
}

/// The word of a row at an index.
pub fn word<'a>(rt: &impl Abort, row: &'a str, index: usize) -> &'a str {
    row.split(' ').nth(index).expect(rt, "a word")
}

/// The operation of a row's word.
pub fn op_of(rt: &impl Abort, row: &str, index: usize) -> Op {
    Op::named(word(rt, row, index).as_bytes()).expect(rt, "an operation")
}

/// The moment of a row's word, or none.
pub fn moment_of(rt: &impl Abort, row: &str, index: usize) -> Option<Moment> {
    word(rt, row, index).parse::<u64>().ok().map(Moment)
}

/// The rest of the key that every call asks for.
pub fn rest_of_a(rt: &impl Abort) -> Rest {
    Rest::of(b"a").expect(rt, "a rest")
}

/// The position with these steps; `-` is the root.
pub fn position(rt: &(impl AllocGlobal + Abort), text: &str) -> Position {
    let mut position = Position::root(rt.alloc());
    for step in text.split('.') {
        if let Ok(step) = step.parse::<usize>() {
            position = position.child(rt.alloc(), step).expect(rt, "memory");
        }
    }
    position
}

fn owned(rt: &(impl AllocGlobal + Abort), reply: Reply) -> Part {
    Part::Owned(Arc::new(rt.alloc(), reply).expect(rt, "memory"))
}

fn fault(rt: &(impl AllocGlobal + Abort), line: &[u8]) -> Part {
    let line = Vec::from_slice(rt.alloc(), line).expect(rt, "memory");
    owned(rt, Reply::Fault(line))
}

/// A hit of a value, with 7 flags.
fn hit(rt: &(impl AllocGlobal + Abort), value: &str) -> Part {
    let body = shared(rt, value.as_bytes());
    let (flags, cas) = (7, None);
    owned(rt, Reply::Hit { flags, cas, body })
}

/// The reply of a word: a miss or another fixed one, an error line, or a hit of the word.
fn reply(rt: &(impl AllocGlobal + Abort), word: &str) -> Part {
    match word {
        "miss" => Part::Fixed(FixedReply::Miss),
        "not_found" => Part::Fixed(FixedReply::NotFound),
        "deleted" => Part::Fixed(FixedReply::Deleted),
        "lost" => Part::Fixed(FixedReply::Lost),
        "fault" => fault(rt, b"SERVER_ERROR x"),
        "error" => fault(rt, b"ERROR"),
        value => hit(rt, value),
    }
}

/// The replies of a row's legs, in the order in which they came: each a position, `=` and a word.
pub fn answers(rt: &(impl AllocGlobal + Abort), row: &str) -> Vec<Answered> {
    let mut answers = Vec::new(rt.alloc());
    for word in row.split(' ') {
        if let Some((place, word)) = word.split_once('=') {
            let position = position(rt, place);
            let reply = reply(rt, word);
            let answer = Answered { position, reply };
            answers.push(answer).expect(rt, "memory");
        }
    }
    answers
}
