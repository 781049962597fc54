//! Routes that are built of a text.

use crate::built::{check, check_text, routes};
use mcv_base::{Moment, Position, Prefix};
use mcv_route::{Leaf, Routes};
use std::process::Abort;

/// Two pools that share the server `b:1`, and two routes; the second's children are the servers of B.
const TEXT: &str = "{
  \"pools\": {
    \"A\": {\"servers\": [\"a:1\", \"b:1\", \"c:1\"]},
    \"B\": {\"servers\": [\"b:1\", \"d:1\"]}
  },
  \"route\": {
    \"type\": \"OperationSelectorRoute\",
    \"operation_policies\": {
      \"delete\": {\"type\": \"AllSyncRoute\", \"children\": [\"PoolRoute|A\", \"NullRoute\", \"PoolRoute|B\"]},
      \"set\": \"AllSyncRoute|Pool|B\"
    },
    \"default_policy\": \"PoolRoute|B\"
  }
}";

/// A migration whose new place has a warm-up with a shadow.
const MIGRATION: &str = "{
  \"pools\": {
    \"A\": {\"servers\": [\"a:1\", \"b:1\"]},
    \"B\": {\"servers\": [\"c:1\"]}
  },
  \"route\": {
    \"type\": \"MigrateRoute\", \"start_time\": 1000, \"interval\": 3600,
    \"from\": \"PoolRoute|A\",
    \"to\": {
      \"type\": \"WarmUpRoute\", \"exptime\": 60,
      \"cold\": {\"type\": \"PoolRoute\", \"pool\": \"A\", \"shadows\": [{\"target\": \"PoolRoute|B\", \"index_range\": [0, 1]}]},
      \"warm\": \"PoolRoute|B\"
    }
  }
}";

/// Two prefixes, and a wildcard whose children are the servers of B.
const PREFIXES: &str = "{
  \"pools\": {
    \"A\": {\"servers\": [\"a:1\"]},
    \"B\": {\"servers\": [\"b:1\", \"c:1\"]}
  },
  \"route\": {
    \"type\": \"PrefixSelectorRoute\",
    \"wildcard\": \"FailoverRoute|Pool|B\",
    \"policies\": {\"ab\": \"PoolRoute|B\", \"a\": \"PoolRoute|A\"}
  }
}";

/// The position with these steps; `-` is the root.
fn position(rt: &(impl AllocGlobal + Abort), text: &str) -> Position {
    let mut position = Position::root(rt.alloc());
    for step in text.split('.') {
        if let Ok(step) = step.parse::<usize>() {
            position = position.child(rt.alloc(), step).expect(rt, "memory");
        }
    }
    position
}

/// The symbol of a leaf, and its servers' texts.
fn shown(rt: &(impl AllocGlobal + Abort), routes: &Routes, leaf: &Leaf) -> String {
    let symbol = leaf.symbol;
    let mut text = format!(in rt.alloc(); "{symbol}:").expect(rt, "memory");
    for server in leaf.servers.iter() {
        let server = routes.servers().text(*server).unwrap_or("none");
        write!(text, " {server}").expect(rt, "memory");
    }
    text
}

/// A row is a position of a route and what leaf is there.
fn check_leaf(rt: &(impl AllocGlobal + Abort), routes: &Routes, number: usize, row: &str) {
    let (place, wanted) = row.split_once(" = ").expect(rt, "a row");
    match routes.leaf_at(number, &position(rt, place)) {
        Some(leaf) => check_text(rt, row, shown(rt, routes, leaf).as_str(), wanted),
        None => check(rt, wanted == "none", row),
    }
}

fn check_leaves(rt: &(impl AllocGlobal + Abort), routes: &Routes, number: usize, rows: &str) {
    for row in rows.lines() {
        check_leaf(rt, routes, number, row);
    }
}

/// What is asked of routes: the leaves of the route of a number, the numbers of prefixes, or the breaks.
#[derive(Clone, Copy)]
enum Asked {
    Leaves(usize, &'static str),
    Numbers,
    Breaks,
}

fn check_routes(rt: &(impl AllocGlobal + Abort), routes: &Routes, asked: Asked) {
    match asked {
        Asked::Leaves(number, rows) => check_leaves(rt, routes, number, rows),
        Asked::Numbers => check_numbers(rt, routes),
        Asked::Breaks => check_breaks(rt, routes),
    }
}

fn check_of(rt: &(impl AllocGlobal + Abort), text: &str, asked: Asked) {
    check_routes(rt, &routes(rt, text), asked);
}

const LEAVES: &str = "\
0.0 = 0: a:1 b:1 c:1
0.2 = 1: b:1 d:1
1.0 = 2: b:1
1.1 = 2: d:1
2 = 1: b:1 d:1";

#[test]
fn leaves_have_their_pools(rt: HostRuntime) {
    check_of(&rt, TEXT, Asked::Leaves(0, LEAVES));
}

const ELSEWHERE: &str = "\
- = none
0 = none
0.1 = none
0.3 = none
0.0.0 = none
3 = none";

#[test]
fn no_leaf_is_elsewhere(rt: HostRuntime) {
    check_of(&rt, TEXT, Asked::Leaves(0, ELSEWHERE));
    check_of(&rt, TEXT, Asked::Leaves(1, "2 = none"));
}

fn check_numbers(rt: &impl Abort, routes: &Routes) {
    let (only, other) = (Prefix::of(b"/././"), Prefix::of(b"/a/b/"));
    check(rt, routes.route_of(&only) == Some(0), "the only route");
    check(rt, routes.route_of(&other).is_none(), "no other route");
    check(rt, routes.symbols().len() == 3, "three symbols");
    check(rt, routes.since(Moment(u64::MAX)).is_none(), "no break");
    check(rt, routes.route(0).is_some(), "route 0");
    check(rt, routes.route(1).is_none(), "no route 1");
}

#[test]
fn prefixes_select_routes(rt: HostRuntime) {
    check_of(&rt, TEXT, Asked::Numbers);
}

/// Whether a moment is in this era, which this break opened.
fn is_in(routes: &Routes, moment: u64, since: Option<u64>, era: usize) -> bool {
    routes.since(Moment(moment)) == since.map(Moment) && routes.era_of(Moment(moment)) == era
}

fn check_breaks(rt: &impl Abort, routes: &Routes) {
    let breaks = [Moment(1000), Moment(4600), Moment(8200)];
    check(rt, routes.breaks() == breaks.as_slice(), "the breaks");
    let cases: [(u64, Option<u64>, usize); 5] = [
        (999, None, 0),
        (1000, Some(1000), 1),
        (8199, Some(4600), 2),
        (8200, Some(8200), 3),
        (u64::MAX, Some(8200), 3),
    ];
    for (moment, since, era) in cases {
        assert!(rt; is_in(routes, moment, since, era), "{moment}");
    }
}

#[test]
fn a_migration_has_three_breaks(rt: HostRuntime) {
    check_of(&rt, MIGRATION, Asked::Breaks);
}

const SIDES: &str = "\
0 = 0: a:1 b:1
1.0 = 0: a:1 b:1
1.0.0 = 1: c:1
1.1 = 1: c:1
1.2 = 0: a:1 b:1
1.3 = none";

#[test]
fn sides_and_shadows_have_places(rt: HostRuntime) {
    check_of(&rt, MIGRATION, Asked::Leaves(0, SIDES));
}

const SELECTED: &str = "\
0 = 0: a:1
1 = 1: b:1 c:1
2.0 = 0: b:1
2.1 = 0: c:1
3 = none";

#[test]
fn the_wildcard_comes_after_all_prefixes(rt: HostRuntime) {
    check_of(&rt, PREFIXES, Asked::Leaves(0, SELECTED));
}
