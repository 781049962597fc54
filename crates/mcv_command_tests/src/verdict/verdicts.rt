//! Which verdict there is on configurations, and what is written of it.

use crate::devices::joined;
use mcv_input::RunFault;
use mcv_verdict::{Verdict, run_check};
use std::process::Abort;

/// A of `a:11211`, B of `b:11211`, C and D of both, E of `a:11211` and `c:11211`, F of `c:11211` and `b:11211`.
pub const POOLS: &str =
    "{\"pools\":{\"A\":{\"servers\":[\"a:11211\"]},\"B\":{\"servers\":[\"b:11211\"]},\"C\":{\"servers\":[\"a:11211\",\"b:11211\"]},\"D\":{\"servers\":[\"a:11211\",\"b:11211\"]},\"E\":{\"servers\":[\"a:11211\",\"c:11211\"]},\"F\":{\"servers\":[\"c:11211\",\"b:11211\"]}},";

/// A route for deletes, one for all else, and what is written.
const BY_OPERATION: &str = "\
\"AllSyncRoute|Pool|C\" = \"PoolRoute|C\" = covered 2 / mcv-cert 1 / 0 = 0 1 all 0 0.0 / 0 = 0 1 all 1 0.1 / end
{\"type\":\"AllSyncRoute\",\"children\":[\"PoolRoute|A\",\"PoolRoute|B\"]} = {\"type\":\"WarmUpRoute\",\"cold\":\"PoolRoute|A\",\"warm\":\"PoolRoute|B\"} = covered 2 / mcv-cert 1 / 0 = 0 1.0 twin 0.0 / 0 = 0 1.1 twin 0.1 / end
{\"type\":\"AllAsyncRoute\",\"children\":[{\"type\":\"FailoverRoute\",\"children\":[{\"type\":\"AllSyncRoute\",\"children\":[\"PoolRoute|A\",\"ErrorRoute\"]},\"PoolRoute|B\"]}]} = {\"type\":\"MissFailoverRoute\",\"children\":[\"PoolRoute|A\",\"PoolRoute|B\"]} = lost b:11211 / route 0 / class = / era 0 / key /././! / get 1.0=miss 1.1=hit / delete -
{\"type\":\"AllSyncRoute\",\"children\":[{\"type\":\"FailoverRoute\",\"children\":[{\"type\":\"AllSyncRoute\",\"children\":[\"PoolRoute|A\",\"ErrorRoute\"]},\"PoolRoute|B\"]}]} = {\"type\":\"MissFailoverRoute\",\"children\":[\"PoolRoute|A\",\"PoolRoute|B\"]} = covered 2 / mcv-cert 1 / 0 = 0 1.0 twin 0.0.0.0 / 0 = 0 1.1 twin 0.0.1 / end
{\"type\":\"AllSyncRoute\",\"children\":[\"PoolRoute|A\",\"ErrorRoute\"]} = \"PoolRoute|B\" = covered 1 / mcv-cert 1 / 0 = 0 1 never / end
{\"type\":\"PoolRoute\",\"pool\":\"A\",\"shadows\":[{\"target\":\"PoolRoute|B\",\"index_range\":[0,0]}]} = {\"type\":\"MissFailoverRoute\",\"children\":[\"PoolRoute|A\",\"PoolRoute|B\"]} = lost b:11211 / route 0 / class = / era 0 / key /././! / get 1.0=miss 1.1=hit / delete 0=deleted
\"PoolRoute|D\" = \"PoolRoute|C\" = covered 1 / mcv-cert 1 / 0 = 0 1 twin 0 / end
{\"type\":\"PoolRoute\",\"pool\":\"D\",\"hash\":{\"hash_func\":\"Ch3\",\"salt\":\"x\"}} = \"PoolRoute|C\" = lost a:11211 / route 0 / class = / era 0 / key /././! / index Ch3/x/2=1 / index Ch3//2=0 / get 1=hit / delete 0=deleted
{\"type\":\"AllSyncRoute\",\"children\":[\"PoolRoute|E\",\"PoolRoute|F\"]} = \"PoolRoute|C\" = covered 2 / mcv-cert 1 / 0 = 0 1 same 0 0.0 / 0 = 0 1 same 1 0.1 / end
\"NullRoute\" = {\"type\":\"AllSyncRoute\",\"children\":[\"PoolRoute|A\",\"NullRoute\"]} = covered 0 / mcv-cert 1 / end
{\"type\":\"AllInitialRoute\",\"children\":[\"PoolRoute|A\",\"PoolRoute|B\"]} = \"PoolRoute|B\" = covered 1 / mcv-cert 1 / 0 = 0 1 twin 0.1 / end";

/// A route, and what is written.
const WHOLE: &str = "\
\"PoolRoute|A\" = covered 1 / mcv-cert 1 / 0 = 0 - twin - / end
{\"type\":\"WarmUpRoute\",\"cold\":\"PoolRoute|A\",\"warm\":\"PoolRoute|B\"} = lost b:11211 / route 0 / class = / era 0 / key /././! / get 0=miss 1=hit / delete 0=deleted
{\"type\":\"FailoverRoute\",\"children\":[\"PoolRoute|A\",\"PoolRoute|B\"]} = lost b:11211 / route 0 / class = / era 0 / key /././! / get 0=error 1=hit / delete 0=deleted
{\"type\":\"MigrateRoute\",\"from\":\"PoolRoute|A\",\"to\":\"PoolRoute|B\",\"start_time\":1000,\"interval\":3600} = covered 4 / mcv-cert 1 / 0 = 0 0 twin 0 / 0 = 1 0 twin 0 / 0 = 2 1 twin 1 / 0 = 3 1 twin 1 / end
{\"type\":\"OperationSelectorRoute\",\"operation_policies\":{\"delete\":\"PoolRoute|A\",\"get\":\"PoolRoute|A\",\"gets\":\"PoolRoute|B\"}} = lost b:11211 / route 0 / class = / era 0 / key /././! / gets 2=hit / delete 0=deleted
{\"type\":\"PrefixSelectorRoute\",\"policies\":{\"a\":\"PoolRoute|A\",\"ab\":{\"type\":\"WarmUpRoute\",\"cold\":\"PoolRoute|A\",\"warm\":\"PoolRoute|B\"}}} = lost b:11211 / route 0 / class =ab / era 0 / key /././ab / get 1.0=miss 1.1=hit / delete 1.0=deleted
{\"type\":\"PrefixSelectorRoute\",\"policies\":{\"a b\":\"PoolRoute|A\"},\"wildcard\":\"PoolRoute|B\"} = covered 1 / mcv-cert 1 / 0 = 0 1 twin 1 / end";

/// The number, the status and the text of a fault.
fn fault_text(rt: &(impl AllocGlobal + Abort), fault: &RunFault) -> String {
    let (number, status) = (fault.number(), fault.status());
    format!(in rt.alloc(); "{number} {status} {fault}").expect(rt, "memory")
}

/// What is written of a configuration within the window, with slashes between the lines, or the fault, beside which
/// nothing is written.
fn shown(
    rt: &(impl AllocGlobal + Abort),
    configuration: &str,
    cert: Option<&[u8]>,
    window: u64,
) -> String {
    let mut output = Vec::new(rt.alloc());
    let mut input = configuration.as_bytes();
    match run_check(rt.alloc(), &mut input, &mut output, cert, window) {
        Ok(_) => joined(rt, output),
        Err(fault) => {
            assert!(rt; output.is_empty(), "written beside a fault");
            fault_text(rt, &fault)
        }
    }
}

/// What is written of a configuration is this.
pub fn check(
    rt: &(impl AllocGlobal + Abort),
    configuration: &str,
    cert: Option<&[u8]>,
    wanted: &str,
) {
    check_within(rt, configuration, cert, 0, wanted);
}

/// What is written of a configuration within the window is this.
fn check_within(
    rt: &(impl AllocGlobal + Abort),
    configuration: &str,
    cert: Option<&[u8]>,
    window: u64,
    wanted: &str,
) {
    let text = shown(rt, configuration, cert, window);
    assert!(rt;
        text.as_str() == wanted,
        "{configuration}: {text}, not {wanted}"
    );
}

/// A configuration with these pools, whose deletes go one way, and all else another.
pub fn by_operation(rt: &(impl AllocGlobal + Abort), deletes: &str, others: &str) -> String {
    let text = format!(in rt.alloc();
        "{POOLS}\"route\":{{\"type\":\"OperationSelectorRoute\",\"operation_policies\":{{\"delete\":{deletes}}},\"default_policy\":{others}}}}}"
    );
    text.expect(rt, "memory")
}

fn check_by_operation(rt: &(impl AllocGlobal + Abort), case: &str) {
    let (deletes, more) = case.split_once(" = ").expect(rt, "a case");
    let (others, wanted) = more.split_once(" = ").expect(rt, "a case");
    check(rt, by_operation(rt, deletes, others).as_str(), None, wanted);
}

#[test]
fn verdicts_by_operation_are_written(rt: HostRuntime) {
    for case in BY_OPERATION.lines() {
        check_by_operation(&rt, case);
    }
}

fn check_whole(rt: &(impl AllocGlobal + Abort), case: &str) {
    let (route, wanted) = case.split_once(" = ").expect(rt, "a case");
    let configuration = format!(in rt.alloc(); "{POOLS}\"route\":{route}}}");
    check(
        rt,
        configuration.expect(rt, "memory").as_str(),
        None,
        wanted,
    );
}

#[test]
fn verdicts_are_written(rt: HostRuntime) {
    for case in WHOLE.lines() {
        check_whole(&rt, case);
    }
}

const MOVING: &str =
    "{\"type\":\"MigrateRoute\",\"from\":\"PoolRoute|A\",\"to\":\"PoolRoute|B\",\"start_time\":1000,\"interval\":3600}";

/// A window, and what is written of the migration: a delete before it doesn't reach the pool that is read in its second
/// half, 3601 seconds later and more.
const MOVED: &str = "\
1 = covered 10 / mcv-cert 2 1 / 0 = 0 0 0 twin 0 / 0 = 0 1 0 twin 0 / 0 = 1 0 0 twin 0 / 0 = 1 1 0 twin 0 / 0 = 1 2 1 twin 1 / 0 = 2 1 0 twin 0 / 0 = 2 2 1 twin 1 / 0 = 2 3 1 twin 1 / 0 = 3 2 1 twin 1 / 0 = 3 3 1 twin 1 / end
3600 = covered 10 / mcv-cert 2 3600 / 0 = 0 0 0 twin 0 / 0 = 0 1 0 twin 0 / 0 = 1 0 0 twin 0 / 0 = 1 1 0 twin 0 / 0 = 1 2 1 twin 1 / 0 = 2 1 0 twin 0 / 0 = 2 2 1 twin 1 / 0 = 2 3 1 twin 1 / 0 = 3 2 1 twin 1 / 0 = 3 3 1 twin 1 / end
3601 = lost b:11211 / route 0 / class = / era 0 2 / key /././! / get 1=hit / delete 0=deleted";

fn check_moved(rt: &(impl AllocGlobal + Abort), configuration: &str, case: &str) {
    let (window, wanted) = case.split_once(" = ").expect(rt, "a case");
    let window = window.parse::<u64>().expect(rt, "a window");
    check_within(rt, configuration, None, window, wanted);
}

#[test]
fn verdicts_within_a_window_are_written(rt: HostRuntime) {
    let configuration = format!(in rt.alloc(); "{POOLS}\"route\":{MOVING}}}");
    let configuration = configuration.expect(&rt, "memory");
    for case in MOVED.lines() {
        check_moved(&rt, configuration.as_str(), case);
    }
}

const ROUTES: &str =
    "\"routes\":[{\"aliases\":[\"/././\"],\"route\":\"PoolRoute|A\"},{\"aliases\":[\"/a/b/\"],\"route\":{\"type\":\"PrefixSelectorRoute\",\"policies\":{\"ab\":{\"type\":\"FailoverRoute\",\"children\":[\"PoolRoute|A\",\"PoolRoute|B\"]}},\"wildcard\":\"NullRoute\"}}]}";

const FIRST_LOSS: &str =
    "lost b:11211 / route 1 / class =ab / era 0 / key /a/b/ab / get 0.0=error 0.1=hit / delete 0.0=deleted";

#[test]
fn the_first_loss_is_named(rt: HostRuntime) {
    let configuration = format!(in rt.alloc(); "{POOLS}{ROUTES}").expect(&rt, "memory");
    check(&rt, configuration.as_str(), None, FIRST_LOSS);
    let mut output = Vec::new(rt.alloc());
    let mut input = configuration.as_bytes();
    let verdict = run_check(rt.alloc(), &mut input, &mut output, None, 0);
    assert!(rt; matches!(verdict, Ok(Verdict::Lost)));
}
