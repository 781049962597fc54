//! Configurations with their certificates, or with the first place where a delete can be lost.

use crate::built::{check_lines, halves, routes};
use mcv_certify::{CertifyFault, Gap, certify};
use mcv_route::Routes;
use std::alloc::Global;
use std::process::Abort;
use std::test::Fail;

/// A configuration and the lines of its certificate, a case a line: a replicated delete over a hashed pool; twins behind a warm-up; deletes that fail over after an error; deletes that are never acknowledged; a migration in its four eras; pools of the same servers; nothing that can be read; a delete that is sent in the background too; two pools that have one server each.
const COVERED: &str = "\
{\"pools\":{\"A\":{\"servers\":[\"a:11211\",\"b:11211\"]}},\"route\":{\"type\":\"OperationSelectorRoute\",\"operation_policies\":{\"delete\":\"AllSyncRoute|Pool|A\"},\"default_policy\":\"PoolRoute|A\"}} => mcv-cert 1 / 0 = 0 1 all 0 0.0 / 0 = 0 1 all 1 0.1 / end
{\"pools\":{\"A\":{\"servers\":[\"a:11211\"]},\"B\":{\"servers\":[\"b:11211\"]}},\"route\":{\"type\":\"OperationSelectorRoute\",\"operation_policies\":{\"delete\":{\"type\":\"AllSyncRoute\",\"children\":[\"PoolRoute|A\",\"PoolRoute|B\"]}},\"default_policy\":{\"type\":\"WarmUpRoute\",\"cold\":\"PoolRoute|A\",\"warm\":\"PoolRoute|B\"}}} => mcv-cert 1 / 0 = 0 1.0 twin 0.0 / 0 = 0 1.1 twin 0.1 / end
{\"pools\":{\"A\":{\"servers\":[\"a:11211\"]},\"B\":{\"servers\":[\"b:11211\"]}},\"route\":{\"type\":\"OperationSelectorRoute\",\"operation_policies\":{\"delete\":{\"type\":\"AllSyncRoute\",\"children\":[{\"type\":\"FailoverRoute\",\"children\":[{\"type\":\"AllSyncRoute\",\"children\":[\"PoolRoute|A\",\"ErrorRoute\"]},\"PoolRoute|B\"]}]}},\"default_policy\":{\"type\":\"MissFailoverRoute\",\"children\":[\"PoolRoute|A\",\"PoolRoute|B\"]}}} => mcv-cert 1 / 0 = 0 1.0 twin 0.0.0.0 / 0 = 0 1.1 twin 0.0.1 / end
{\"pools\":{\"A\":{\"servers\":[\"a:11211\"]},\"B\":{\"servers\":[\"b:11211\"]}},\"route\":{\"type\":\"OperationSelectorRoute\",\"operation_policies\":{\"delete\":{\"type\":\"AllSyncRoute\",\"children\":[\"PoolRoute|A\",\"ErrorRoute\"]}},\"default_policy\":\"PoolRoute|B\"}} => mcv-cert 1 / 0 = 0 1 never / end
{\"pools\":{\"A\":{\"servers\":[\"a:11211\"]},\"B\":{\"servers\":[\"b:11211\"]}},\"route\":{\"type\":\"MigrateRoute\",\"from\":\"PoolRoute|A\",\"to\":\"PoolRoute|B\",\"start_time\":1000,\"interval\":3600}} => mcv-cert 1 / 0 = 0 0 twin 0 / 0 = 1 0 twin 0 / 0 = 2 1 twin 1 / 0 = 3 1 twin 1 / end
{\"pools\":{\"A\":{\"servers\":[\"a:11211\",\"b:11211\"]},\"B\":{\"servers\":[\"a:11211\",\"b:11211\"]}},\"route\":{\"type\":\"OperationSelectorRoute\",\"operation_policies\":{\"delete\":\"PoolRoute|B\"},\"default_policy\":\"PoolRoute|A\"}} => mcv-cert 1 / 0 = 0 1 twin 0 / end
{\"pools\":{\"A\":{\"servers\":[\"a:11211\"]},\"B\":{\"servers\":[\"b:11211\"]}},\"route\":{\"type\":\"OperationSelectorRoute\",\"operation_policies\":{\"delete\":\"NullRoute\"},\"default_policy\":{\"type\":\"AllSyncRoute\",\"children\":[\"PoolRoute|A\",\"NullRoute\"]}}} => mcv-cert 1 / end
{\"pools\":{\"A\":{\"servers\":[\"a:11211\"]},\"B\":{\"servers\":[\"b:11211\"]}},\"route\":{\"type\":\"OperationSelectorRoute\",\"operation_policies\":{\"delete\":{\"type\":\"AllInitialRoute\",\"children\":[\"PoolRoute|A\",\"PoolRoute|B\"]}},\"default_policy\":\"PoolRoute|B\"}} => mcv-cert 1 / 0 = 0 1 twin 0.1 / end
{\"pools\":{\"A\":{\"servers\":[\"a:11211\",\"b:11211\"]},\"B\":{\"servers\":[\"a:11211\",\"c:11211\"]},\"C\":{\"servers\":[\"c:11211\",\"b:11211\"]}},\"route\":{\"type\":\"OperationSelectorRoute\",\"operation_policies\":{\"delete\":{\"type\":\"AllSyncRoute\",\"children\":[\"PoolRoute|B\",\"PoolRoute|C\"]}},\"default_policy\":\"PoolRoute|A\"}} => mcv-cert 1 / 0 = 0 1 same 0 0.0 / 0 = 0 1 same 1 0.1 / end";

/// A configuration, and of its first gap the server, the route, the length of the class word, the era, the leaf and the
/// index: the warm pool gets no delete; a delete that is acknowledged before it is sent on; a shadow isn't waited for; another salt; only gets reads the other pool.
const LOST: &str = "\
{\"pools\":{\"A\":{\"servers\":[\"a:11211\"]},\"B\":{\"servers\":[\"b:11211\"]}},\"route\":{\"type\":\"WarmUpRoute\",\"cold\":\"PoolRoute|A\",\"warm\":\"PoolRoute|B\"}} => b:11211 0 0 0 .1 0
{\"pools\":{\"A\":{\"servers\":[\"a:11211\"]},\"B\":{\"servers\":[\"b:11211\"]}},\"route\":{\"type\":\"OperationSelectorRoute\",\"operation_policies\":{\"delete\":{\"type\":\"AllAsyncRoute\",\"children\":[{\"type\":\"FailoverRoute\",\"children\":[{\"type\":\"AllSyncRoute\",\"children\":[\"PoolRoute|A\",\"ErrorRoute\"]},\"PoolRoute|B\"]}]}},\"default_policy\":{\"type\":\"MissFailoverRoute\",\"children\":[\"PoolRoute|A\",\"PoolRoute|B\"]}}} => b:11211 0 0 0 .1.1 0
{\"pools\":{\"A\":{\"servers\":[\"a:11211\"]},\"B\":{\"servers\":[\"b:11211\"]}},\"route\":{\"type\":\"OperationSelectorRoute\",\"operation_policies\":{\"delete\":{\"type\":\"PoolRoute\",\"pool\":\"A\",\"shadows\":[{\"target\":\"PoolRoute|B\",\"index_range\":[0,0]}]}},\"default_policy\":{\"type\":\"MissFailoverRoute\",\"children\":[\"PoolRoute|A\",\"PoolRoute|B\"]}}} => b:11211 0 0 0 .1.1 0
{\"pools\":{\"A\":{\"servers\":[\"a:11211\",\"b:11211\"]},\"B\":{\"servers\":[\"a:11211\",\"b:11211\"]}},\"route\":{\"type\":\"OperationSelectorRoute\",\"operation_policies\":{\"delete\":{\"type\":\"PoolRoute\",\"pool\":\"B\",\"hash\":{\"hash_func\":\"Ch3\",\"salt\":\"x\"}}},\"default_policy\":\"PoolRoute|A\"}} => a:11211 0 0 0 .1 0
{\"pools\":{\"A\":{\"servers\":[\"a:11211\"]},\"B\":{\"servers\":[\"b:11211\"]}},\"route\":{\"type\":\"OperationSelectorRoute\",\"operation_policies\":{\"delete\":\"PoolRoute|A\",\"get\":\"PoolRoute|A\",\"gets\":\"PoolRoute|B\"}}} => b:11211 0 0 0 .2 0";

/// The gap, a line.
fn shown(alloc: Global, routes: &Routes, gap: &Gap) -> Result<String, Fail> {
    let mut text = String::new(alloc);
    let server = routes.servers().text(gap.server).unwrap_or("none");
    let route = gap.place.route;
    let word = gap.place.class.len();
    let era = gap.place.era;
    write!(text, "{server} {route} {word} {era} ")?;
    for step in gap.place.leaf.steps() {
        write!(text, ".{step}")?;
    }
    let at = gap.at;
    write!(text, " {at}\n")?;
    Ok(text)
}

/// The routes have this certificate.
fn check_covered(
    rt: &impl Abort,
    alloc: Global,
    routes: &Routes,
    wanted: &str,
) -> Result<(), Fail> {
    match certify(alloc, routes) {
        Ok(made) => {
            let found = made.text(alloc)?;
            check_lines(rt, alloc, found.as_slice(), wanted)
        }
        Err(_) => panic!(rt; "no certificate: {wanted}"),
    }
}

fn check_shown(
    rt: &impl Abort,
    alloc: Global,
    routes: &Routes,
    gap: &Gap,
    wanted: &str,
) -> Result<(), Fail> {
    let found = shown(alloc, routes, gap)?;
    check_lines(rt, alloc, found.as_bytes(), wanted)
}

/// The routes have this gap.
fn check_gap(rt: &impl Abort, alloc: Global, routes: &Routes, wanted: &str) -> Result<(), Fail> {
    match certify(alloc, routes) {
        Err(CertifyFault::Lost(gap)) => check_shown(rt, alloc, routes, &gap, wanted),
        _ => panic!(rt; "no gap: {wanted}"),
    }
}

/// A configuration is covered and has its certificate, or isn't and has its first gap.
fn check_case(rt: &impl Abort, alloc: Global, case: &str, is_covered: bool) -> Result<(), Fail> {
    let (text, wanted) = halves(case)?;
    let routes = routes(rt, alloc, text)?;
    if is_covered {
        check_covered(rt, alloc, &routes, wanted)
    } else {
        check_gap(rt, alloc, &routes, wanted)
    }
}

#[test]
fn covered_routes_have_their_certificate(rt: HostRuntime) -> Result<(), Fail> {
    for case in COVERED.lines() {
        check_case(&rt, rt.alloc(), case, true)?;
    }
    Ok(())
}

#[test]
fn other_routes_have_a_first_gap(rt: HostRuntime) -> Result<(), Fail> {
    for case in LOST.lines() {
        check_case(&rt, rt.alloc(), case, false)?;
    }
    Ok(())
}
