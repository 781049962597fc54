//! Configurations that aren't covered, and the text of what shows it.

use crate::built::{check_true, halves, routes};
use mcv_make::{MakeFault, make};
use mcv_route::Routes;
use std::alloc::Global;
use std::process::Abort;
use std::test::Fail;

/// A configuration, and the text of its finding, a case a line: a warm-up;
/// the next pool after an error; a delete that isn't waited for; one that is sent to the other pool by a shadow alone;
/// a delete under another salt; a pool of its own for gets; a warm-up behind the policy of a prefix; a hit beside
/// another one; a route of errors before the leaf; a delete that goes to two pools and no further; a migration's last
/// era; a delete that fails over to a second pool, and no third; the second of two routes; a pool of its own for incr;
/// a pool that an incr reaches and no get.
const LOST: &str = "\
{\"pools\":{\"A\":{\"servers\":[\"a:11211\"]},\"B\":{\"servers\":[\"b:11211\"]}},\"route\":{\"type\":\"WarmUpRoute\",\"cold\":\"PoolRoute|A\",\"warm\":\"PoolRoute|B\"}} => lost b:11211 / route 0 / class = / era 0 / key /././! / get 0=miss 1=hit / delete 0=deleted
{\"pools\":{\"A\":{\"servers\":[\"a:11211\"]},\"B\":{\"servers\":[\"b:11211\"]}},\"route\":{\"type\":\"FailoverRoute\",\"children\":[\"PoolRoute|A\",\"PoolRoute|B\"]}} => lost b:11211 / route 0 / class = / era 0 / key /././! / get 0=error 1=hit / delete 0=deleted
{\"pools\":{\"A\":{\"servers\":[\"a:11211\"]},\"B\":{\"servers\":[\"b:11211\"]}},\"route\":{\"type\":\"OperationSelectorRoute\",\"operation_policies\":{\"delete\":{\"type\":\"AllAsyncRoute\",\"children\":[{\"type\":\"FailoverRoute\",\"children\":[{\"type\":\"AllSyncRoute\",\"children\":[\"PoolRoute|A\",\"ErrorRoute\"]},\"PoolRoute|B\"]}]}},\"default_policy\":{\"type\":\"MissFailoverRoute\",\"children\":[\"PoolRoute|A\",\"PoolRoute|B\"]}}} => lost b:11211 / route 0 / class = / era 0 / key /././! / get 1.0=miss 1.1=hit / delete -
{\"pools\":{\"A\":{\"servers\":[\"a:11211\"]},\"B\":{\"servers\":[\"b:11211\"]}},\"route\":{\"type\":\"OperationSelectorRoute\",\"operation_policies\":{\"delete\":{\"type\":\"PoolRoute\",\"pool\":\"A\",\"shadows\":[{\"target\":\"PoolRoute|B\",\"index_range\":[0,0]}]}},\"default_policy\":{\"type\":\"MissFailoverRoute\",\"children\":[\"PoolRoute|A\",\"PoolRoute|B\"]}}} => lost b:11211 / route 0 / class = / era 0 / key /././! / get 1.0=miss 1.1=hit / delete 0=deleted
{\"pools\":{\"A\":{\"servers\":[\"a:11211\",\"b:11211\"]},\"B\":{\"servers\":[\"a:11211\",\"b:11211\"]}},\"route\":{\"type\":\"OperationSelectorRoute\",\"operation_policies\":{\"delete\":{\"type\":\"PoolRoute\",\"pool\":\"B\",\"hash\":{\"hash_func\":\"Ch3\",\"salt\":\"x\"}}},\"default_policy\":\"PoolRoute|A\"}} => lost a:11211 / route 0 / class = / era 0 / key /././! / index Ch3/x/2=1 / index Ch3//2=0 / get 1=hit / delete 0=deleted
{\"pools\":{\"A\":{\"servers\":[\"a:11211\"]},\"B\":{\"servers\":[\"b:11211\"]}},\"route\":{\"type\":\"OperationSelectorRoute\",\"operation_policies\":{\"delete\":\"PoolRoute|A\",\"get\":\"PoolRoute|A\",\"gets\":\"PoolRoute|B\"}}} => lost b:11211 / route 0 / class = / era 0 / key /././! / gets 2=hit / delete 0=deleted
{\"pools\":{\"A\":{\"servers\":[\"a:11211\"]},\"B\":{\"servers\":[\"b:11211\"]}},\"routes\":[{\"aliases\":[\"/a/b/\"],\"route\":{\"type\":\"PrefixSelectorRoute\",\"policies\":{\"ab\":{\"type\":\"WarmUpRoute\",\"cold\":\"PoolRoute|A\",\"warm\":\"PoolRoute|B\"}},\"wildcard\":\"NullRoute\"}}]} => lost b:11211 / route 0 / class =ab / era 0 / key /a/b/ab / get 0.0=miss 0.1=hit / delete 0.0=deleted
{\"pools\":{\"A\":{\"servers\":[\"a:11211\"]},\"B\":{\"servers\":[\"b:11211\"]}},\"route\":{\"type\":\"OperationSelectorRoute\",\"operation_policies\":{\"delete\":\"PoolRoute|A\"},\"default_policy\":{\"type\":\"AllSyncRoute\",\"children\":[{\"type\":\"FailoverRoute\",\"children\":[{\"type\":\"AllSyncRoute\",\"children\":[\"PoolRoute|A\",\"ErrorRoute\"]},\"PoolRoute|A\"]},\"PoolRoute|B\"]}}} => lost b:11211 / route 0 / class = / era 0 / key /././! / get 1.0.0.0=error 1.0.1=hit 1.1=hit / delete 0=deleted
{\"pools\":{\"A\":{\"servers\":[\"a:11211\"]},\"B\":{\"servers\":[\"b:11211\"]}},\"route\":{\"type\":\"OperationSelectorRoute\",\"operation_policies\":{\"delete\":\"PoolRoute|A\"},\"default_policy\":{\"type\":\"MissFailoverRoute\",\"children\":[\"ErrorRoute\",\"NullRoute\",{\"type\":\"AllInitialRoute\",\"children\":[\"PoolRoute|B\",\"PoolRoute|A\"]}]}}} => lost b:11211 / route 0 / class = / era 0 / key /././! / get 1.2.0=hit / delete 0=deleted
{\"pools\":{\"A\":{\"servers\":[\"a:11211\"]},\"B\":{\"servers\":[\"b:11211\"]},\"C\":{\"servers\":[\"c:11211\"]}},\"route\":{\"type\":\"OperationSelectorRoute\",\"operation_policies\":{\"delete\":{\"type\":\"AllSyncRoute\",\"children\":[\"PoolRoute|A\",{\"type\":\"AllInitialRoute\",\"children\":[\"PoolRoute|B\",\"PoolRoute|A\"]}]}},\"default_policy\":{\"type\":\"MissFailoverRoute\",\"children\":[\"PoolRoute|A\",\"PoolRoute|B\",\"PoolRoute|C\"]}}} => lost c:11211 / route 0 / class = / era 0 / key /././! / get 1.0=miss 1.1=miss 1.2=hit / delete 0.0=deleted 0.1.0=deleted
{\"pools\":{\"A\":{\"servers\":[\"a:11211\"]},\"B\":{\"servers\":[\"b:11211\"]}},\"route\":{\"type\":\"OperationSelectorRoute\",\"operation_policies\":{\"delete\":\"PoolRoute|A\"},\"default_policy\":{\"type\":\"MigrateRoute\",\"from\":\"PoolRoute|A\",\"to\":\"PoolRoute|B\",\"start_time\":1000,\"interval\":3600}}} => lost b:11211 / route 0 / class = / era 2 / key /././! / get 1.1=hit / delete 0=deleted
{\"pools\":{\"A\":{\"servers\":[\"a:11211\"]},\"B\":{\"servers\":[\"b:11211\"]},\"C\":{\"servers\":[\"c:11211\"]}},\"route\":{\"type\":\"OperationSelectorRoute\",\"operation_policies\":{\"delete\":{\"type\":\"FailoverRoute\",\"children\":[{\"type\":\"AllSyncRoute\",\"children\":[\"PoolRoute|A\",\"ErrorRoute\"]},\"PoolRoute|B\",\"PoolRoute|C\"]}},\"default_policy\":{\"type\":\"FailoverRoute\",\"children\":[\"PoolRoute|A\",\"PoolRoute|B\",\"PoolRoute|C\"]}}} => lost c:11211 / route 0 / class = / era 0 / key /././! / get 1.0=error 1.1=error 1.2=hit / delete 0.0.0=deleted 0.1=deleted
{\"pools\":{\"A\":{\"servers\":[\"a:11211\"]},\"B\":{\"servers\":[\"b:11211\"]}},\"routes\":[{\"aliases\":[\"/a/a/\"],\"route\":\"PoolRoute|A\"},{\"aliases\":[\"/b/b/\",\"/c/c/\"],\"route\":{\"type\":\"WarmUpRoute\",\"cold\":\"PoolRoute|A\",\"warm\":\"PoolRoute|B\"}}]} => lost b:11211 / route 1 / class = / era 0 / key /b/b/! / get 0=miss 1=hit / delete 0=deleted
{\"pools\":{\"A\":{\"servers\":[\"a:11211\"]},\"B\":{\"servers\":[\"b:11211\"]}},\"route\":{\"type\":\"OperationSelectorRoute\",\"operation_policies\":{\"delete\":\"PoolRoute|A\",\"incr\":\"PoolRoute|B\"},\"default_policy\":\"PoolRoute|A\"}} => lost b:11211 / route 0 / class = / era 0 / key /././! / incr 1=number / delete 0=deleted
{\"pools\":{\"A\":{\"servers\":[\"a:11211\"]},\"B\":{\"servers\":[\"b:11211\"]}},\"route\":{\"type\":\"OperationSelectorRoute\",\"operation_policies\":{\"delete\":\"PoolRoute|A\"},\"default_policy\":{\"type\":\"FailoverRoute\",\"children\":[{\"type\":\"MissFailoverRoute\",\"children\":[\"PoolRoute|A\",\"NullRoute\"]},\"PoolRoute|B\"]}}} => lost b:11211 / route 0 / class = / era 0 / key /././! / incr 1.0.0=error 1.1=number / delete 0=deleted";

/// The routes have this finding.
fn check_lost(rt: &impl Abort, alloc: Global, routes: &Routes, wanted: &str) -> Result<(), Fail> {
    match make(alloc, routes) {
        Err(MakeFault::Lost(finding)) => check_true(rt, alloc, routes, &finding, wanted),
        _ => panic!(rt; "no finding: {wanted}"),
    }
}

fn check_case(rt: &impl Abort, alloc: Global, case: &str) -> Result<(), Fail> {
    let (text, wanted) = halves(case)?;
    let routes = routes(rt, alloc, text)?;
    check_lost(rt, alloc, &routes, wanted)
}

#[test]
fn losses_have_their_finding(rt: HostRuntime) -> Result<(), Fail> {
    for case in LOST.lines() {
        check_case(&rt, rt.alloc(), case)?;
    }
    Ok(())
}
