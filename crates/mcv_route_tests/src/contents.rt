//! What a configuration holds once it is read, and its limits.

use crate::built::{check, check_text, push};
use mcv_base::{Op, ServerId};
use mcv_config::{ConfigParts, Many, NamedPolicy, NamedRoute, NamedShadow, Pool, read_config};
use mcv_pools::HashFunc;
use std::process::Abort;

/// What becomes of a text.
fn answer(rt: &(impl AllocGlobal + Abort), text: &str) -> String {
    match read_config(rt.alloc(), text.as_bytes()) {
        Ok(_) => String::from_str(rt.alloc(), "read").expect(rt, "memory"),
        Err(fault) => format!(in rt.alloc(); "{fault}").expect(rt, "memory"),
    }
}

/// A part a number of times behind another.
fn repeated(rt: &(impl AllocGlobal + Abort), before: &str, part: &str, times: usize) -> String {
    let mut text = String::new(rt.alloc());
    push(rt, &mut text, before);
    for _ in 0..times {
        push(rt, &mut text, part);
    }
    text
}

/// What becomes of a text with the part so many times between two others.
fn check_times(
    rt: &(impl AllocGlobal + Abort),
    around: (&str, &str),
    part: &str,
    times: usize,
    want: &str,
) {
    let mut text = repeated(rt, around.0, part, times);
    push(rt, &mut text, around.1);
    check_text(rt, part, answer(rt, &text).as_str(), want);
}

/// The part may come so many times, and once more has the fault.
fn check_limit(
    rt: &(impl AllocGlobal + Abort),
    around: (&str, &str),
    part: &str,
    most: usize,
    fault: &str,
) {
    check_times(rt, around, part, most, "read");
    check_times(rt, around, part, most.saturating_add(1), fault);
}

const PREFIX: (&str, &str) = (
    "{\"route\":{\"type\":\"PrefixSelectorRoute\",\"policies\":{\"",
    "\":\"NullRoute\"}}}",
);

const SALT: (&str, &str) = (
    "{\"route\":{\"type\":\"PoolRoute\",\"pool\":{\"servers\":[\"a:1\"]},\"hash\":{\"salt\":\"",
    "\"}}}",
);

const POOL_BELOW: (&str, &str) = (
    "{\"pools\":{\"A\":{\"servers\":[\"a:11211\"]}},\"route\":\"",
    "PoolRoute|A\"}",
);

const SERVERS_BELOW: (&str, &str) = (
    "{\"pools\":{\"A\":{\"servers\":[\"a:11211\"]}},\"route\":\"",
    "Pool|A\"}",
);

/// A handle with a child, and the further children.
const CHILDREN: (&str, &str) = (
    "{\"route\":{\"type\":\"AllSyncRoute\",\"children\":[\"NullRoute\"",
    "]}}",
);

/// The same, and a route of one handle behind it.
const CHILDREN_AND_ROUTE: (&str, &str) = (
    "{\"routes\":[{\"aliases\":[\"/a/b/\"],\"route\":{\"type\":\"AllSyncRoute\",\"children\":[\"NullRoute\"",
    "]}},{\"aliases\":[\"/a/c/\"],\"route\":\"NullRoute\"}]}",
);

/// A pool with a server, and the further servers.
const SERVERS: (&str, &str) = (
    "{\"route\":\"NullRoute\",\"pools\":{\"A\":{\"servers\":[\"a:1\"",
    "]}}}",
);

#[test]
fn prefixes_and_salts_have_at_most_200_bytes(rt: HostRuntime) {
    let fault = repeated(&rt, "configuration 7 at /route/policies/", "a", 201);
    check_limit(&rt, PREFIX, "a", 200, fault.as_str());
    check_limit(&rt, SALT, "a", 200, "configuration 7 at /route/hash/salt");
}

#[test]
fn handles_are_on_at_most_32_levels(rt: HostRuntime) {
    let (part, fault) = ("AllSyncRoute|", "configuration 7 at /route");
    check_limit(&rt, POOL_BELOW, part, 31, fault);
    check_limit(&rt, SERVERS_BELOW, part, 31, fault);
    check_times(&rt, ("", ""), "[", 200, "configuration 1 at .");
}

#[test]
fn there_are_at_most_4096_handles(rt: HostRuntime) {
    let part = ",\"NullRoute\"";
    let fault = "configuration 7 at /route/children/4095";
    check_limit(&rt, CHILDREN, part, 4_094, fault);
    let fault = "configuration 7 at /routes/1/route";
    check_limit(&rt, CHILDREN_AND_ROUTE, part, 4_093, fault);
}

#[test]
fn a_pool_has_at_most_4096_servers(rt: HostRuntime) {
    let fault = "configuration 7 at /pools/A/servers";
    check_limit(&rt, SERVERS, ",\"a:1\"", 4_095, fault);
}

const ROUTED: &str = "{
  \"pools\": {\"A\": {\"servers\": [\"a:1\"]}}, // the only one with a name
  \"routes\": [
    {\"aliases\": [\"/a/b/\", \"/a/c/\"], \"route\": {\"type\": \"PoolRoute\", \"pool\": {\"servers\": [\"b:1\"]}}},
    {\"aliases\": [\"/././\"], \"route\": {\"type\": \"PoolRoute\", \"pool\": {\"servers\": [\"a:1\"]}}}
  ]
}";

/// What is asked of what a text holds.
#[derive(Clone, Copy)]
enum Asked {
    Aliases,
    Servers,
    Policies,
    Hash,
    Phases,
    Prefixes,
}

fn check_parts(rt: &impl Abort, parts: &ConfigParts, asked: Asked) {
    match asked {
        Asked::Aliases => check_aliases(rt, parts),
        Asked::Servers => check_servers(rt, parts),
        Asked::Policies => check_selector(rt, parts),
        Asked::Hash => check_pool(rt, parts),
        Asked::Phases => check_phases(rt, parts),
        Asked::Prefixes => check_prefixes(rt, parts),
    }
}

fn check_of(rt: &(impl AllocGlobal + Abort), text: &str, asked: Asked) {
    let config = read_config(rt.alloc(), text.as_bytes()).expect(rt, "a configuration");
    check_parts(rt, config.parts(), asked);
}

#[test]
fn routes_have_their_aliases(rt: HostRuntime) {
    check_of(&rt, ROUTED, Asked::Aliases);
}

fn check_aliases(rt: &impl Abort, parts: &ConfigParts) {
    check(rt, parts.pools.len() == 3, "three pools");
    check(rt, parts.servers.len() == 2, "two servers");
    let [first, second] = parts.entries.as_slice() else {
        panic!(rt; "two routes");
    };
    let [one, other] = first.aliases.as_slice() else {
        panic!(rt; "two aliases");
    };
    check(rt, one.as_bytes() == b"/a/b/".as_slice(), "/a/b/");
    check(rt, other.as_bytes() == b"/a/c/".as_slice(), "/a/c/");
    check(rt, is_pool(&first.route, 1), "pool 1");
    check(rt, second.aliases.len() == 1, "one alias");
    check(rt, is_pool(&second.route, 2), "pool 2");
}

const WHOLE: &str = "{
  \"pools\": {
    \"B\": {\"servers\": [\"b:1\", \"a:1\"]},
    \"A\": {\"name\": \"first\", \"servers\": [\"c:1\", \"b:1\"]}
  },
  \"route\": {
    \"type\": \"OperationSelectorRoute\",
    \"default_policy\": {\"type\": \"PoolRoute\", \"pool\": \"B\"},
    \"operation_policies\": {
      \"set\": \"AllSyncRoute|Pool|B\",
      \"lease-get\": \"NullRoute\",
      \"delete\": {\"type\": \"AllSyncRoute\", \"children\": [\"PoolRoute|A\", \"PoolRoute|B\"]}
    }
  }
}";

#[test]
fn servers_are_numbered_by_first_appearance(rt: HostRuntime) {
    check_of(&rt, WHOLE, Asked::Servers);
}

fn check_servers(rt: &impl Abort, parts: &ConfigParts) {
    check(rt, parts.servers.len() == 3, "three servers");
    let (a, b, c) = (ServerId(2), ServerId(1), ServerId(0));
    check(rt, parts.servers.find("c:1") == Some(c), "c:1");
    check(rt, parts.servers.find("b:1") == Some(b), "b:1");
    check(rt, parts.servers.find("a:1") == Some(a), "a:1");
    let [first, second] = parts.pools.as_slice() else {
        panic!(rt; "two pools");
    };
    check(rt, first.servers.as_slice() == [c, b].as_slice(), "A");
    check(rt, second.servers.as_slice() == [b, a].as_slice(), "B");
    check_alias(rt, parts);
}

/// The only route has the alias of the keys without a prefix.
fn check_alias(rt: &impl Abort, parts: &ConfigParts) {
    let [entry] = parts.entries.as_slice() else {
        panic!(rt; "one route");
    };
    let [alias] = entry.aliases.as_slice() else {
        panic!(rt; "one alias");
    };
    check(rt, alias.as_bytes() == b"/././".as_slice(), "/././");
}

/// The first route.
fn route_of<'a>(rt: &impl Abort, parts: &'a ConfigParts) -> &'a NamedRoute {
    let entry = parts.entries.as_slice().first().expect(rt, "a route");
    &entry.route
}

fn is_pool(route: &NamedRoute, number: usize) -> bool {
    matches!(route, NamedRoute::Pool { pool, .. } if *pool == number)
}

fn is_server_of(route: &NamedRoute, number: usize, place: usize) -> bool {
    matches!(route, NamedRoute::Server { pool, index } if *pool == number && *index == place)
}

/// The children of an AllSyncRoute that has two.
fn two_children(route: &NamedRoute) -> Option<(&NamedRoute, &NamedRoute)> {
    match route {
        NamedRoute::Many(Many::AllSync, children) => match children.as_slice() {
            [first, second] => Some((first, second)),
            _ => None,
        },
        _ => None,
    }
}

fn check_policies(rt: &impl Abort, policies: &[NamedPolicy], default_policy: Option<&NamedRoute>) {
    let [first, second, third] = policies else {
        panic!(rt; "three policies");
    };
    check(rt, first.op == Some(Op::Delete), "delete");
    let (one, other) = two_children(&first.route).expect(rt, "two children");
    check(rt, is_pool(one, 0) && is_pool(other, 1), "pools 0 and 1");
    check(rt, second.op.is_none(), "no operation of a command");
    check(rt, matches!(second.route, NamedRoute::Null), "a NullRoute");
    check(rt, third.op == Some(Op::Set), "set");
    let (one, other) = two_children(&third.route).expect(rt, "two children");
    let are_servers = is_server_of(one, 1, 0) && is_server_of(other, 1, 1);
    check(rt, are_servers, "servers 0 and 1 of pool 1");
    check(rt, default_policy.is_some_and(is_pool_1), "the default");
}

fn is_pool_1(route: &NamedRoute) -> bool {
    is_pool(route, 1)
}

#[test]
fn policies_are_in_byte_order(rt: HostRuntime) {
    check_of(&rt, WHOLE, Asked::Policies);
}

fn check_selector(rt: &impl Abort, parts: &ConfigParts) {
    match route_of(rt, parts) {
        NamedRoute::OperationSelector {
            policies,
            default_policy,
        } => check_policies(rt, policies.as_slice(), default_policy.as_deref()),
        _ => panic!(rt; "a selector"),
    }
}

const SHADOWED: &str = "{
  \"pools\": {\"A\": {\"servers\": [\"a:1\", \"b:1\"]}},
  \"route\": {
    \"type\": \"PoolRoute\",
    \"pool\": {\"servers\": [\"b:1\", \"c:1\"]},
    \"hash\": {\"hash_func\": \"Crc32\", \"salt\": \"x\"},
    \"shadows\": [{\"target\": \"PoolRoute|A\", \"index_range\": [1, 18446744073709551615]}]
  }
}";

fn check_shadow(rt: &impl Abort, shadows: &[NamedShadow]) {
    let [shadow] = shadows else {
        panic!(rt; "one shadow");
    };
    check(rt, shadow.first == 1, "the first index");
    check(
        rt,
        shadow.last == 18_446_744_073_709_551_615,
        "the last index",
    );
    check(rt, is_pool(&shadow.target, 0), "the target");
}

#[test]
fn a_pool_has_a_hash_and_shadows(rt: HostRuntime) {
    check_of(&rt, SHADOWED, Asked::Hash);
}

fn check_pool(rt: &impl Abort, parts: &ConfigParts) {
    check(rt, parts.pools.len() == 2, "two pools");
    check(rt, parts.servers.find("c:1") == Some(ServerId(2)), "c:1");
    match route_of(rt, parts) {
        NamedRoute::Pool {
            pool,
            func,
            salt,
            shadows,
        } => {
            check(rt, *pool == 1, "pool 1");
            check(rt, *func == HashFunc::Crc32, "Crc32");
            check(rt, salt.as_slice() == b"x".as_slice(), "the salt");
            check_shadow(rt, shadows.as_slice())
        }
        _ => panic!(rt; "a pool"),
    }
}

const IN_PHASES: &str = "{
  \"pools\": {\"A\": {\"servers\": [\"a:1\"]}, \"B\": {\"servers\": [\"b:1\"]}},
  \"route\": {
    \"type\": \"MigrateRoute\",
    \"from\": {\"type\": \"WarmUpRoute\", \"cold\": \"PoolRoute|B\", \"warm\": \"PoolRoute|A\", \"exptime\": 60},
    \"to\": \"PoolRoute|A\",
    \"start_time\": 1000
  }
}";

#[test]
fn a_migration_takes_an_hour(rt: HostRuntime) {
    check_of(&rt, IN_PHASES, Asked::Phases);
}

fn check_phases(rt: &impl Abort, parts: &ConfigParts) {
    match route_of(rt, parts) {
        NamedRoute::Migrate {
            from,
            to,
            start,
            interval,
        } => {
            check(rt, *start == 1_000, "the start");
            check(rt, *interval == 3_600, "an hour");
            check(rt, is_pool(&**to, 0), "pool 0");
            let is_warm_up = matches!(&**from, NamedRoute::WarmUp { exptime: 60, .. });
            check(rt, is_warm_up, "a WarmUpRoute");
        }
        _ => panic!(rt; "a migration"),
    }
}

const BY_PREFIX: &str = "{
  \"pools\": {\"A\": {\"servers\": [\"a:1\"]}},
  \"route\": {
    \"type\": \"PrefixSelectorRoute\",
    \"policies\": {\"b\": \"NullRoute\", \"ab\": \"PoolRoute|A\"},
    \"wildcard\": \"MissFailoverRoute|ErrorRoute\"
  }
}";

#[test]
fn prefixes_are_in_byte_order(rt: HostRuntime) {
    check_of(&rt, BY_PREFIX, Asked::Prefixes);
}

fn check_prefixes(rt: &impl Abort, parts: &ConfigParts) {
    match route_of(rt, parts) {
        NamedRoute::PrefixSelector { policies, wildcard } => {
            let [first, second] = policies.as_slice() else {
                panic!(rt; "two policies");
            };
            check(rt, first.prefix.as_slice() == b"ab".as_slice(), "ab");
            check(rt, is_pool(&first.route, 0), "pool 0");
            check(rt, second.prefix.as_slice() == b"b".as_slice(), "b");
            let is_miss_failover = matches!(
                wildcard.as_deref(),
                Some(NamedRoute::Many(Many::MissFailover, _))
            );
            check(rt, is_miss_failover, "a MissFailoverRoute");
        }
        _ => panic!(rt; "a selector"),
    }
}
