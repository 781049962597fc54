//! What `mcv legs` writes.

use crate::devices::{Broken, joined};
use mcv_base::Moment;
use mcv_input::RunFault;
use mcv_legs::{requests_have_one_reading, run_legs};
use std::io;
use std::io::Read;
use std::process::Abort;

/// A request line, a configuration, and what is written, a case a line.
const ANSWERED: &str = "\
delete a = {\"pools\":{\"A\":{\"servers\":[\"a:11211\"]}},\"route\":\"PoolRoute|A\"} = leg - a:11211 plain / reply none
delete /././a = {\"pools\":{\"A\":{\"servers\":[\"a:11211\"]}},\"route\":\"PoolRoute|A\"} = leg - a:11211 plain / reply none
delete a = {\"pools\":{\"A\":{\"servers\":[\"a:11211\",\"b:11211\"]}},\"route\":\"PoolRoute|A\"} = leg - a:11211 plain / reply none
delete b = {\"pools\":{\"A\":{\"servers\":[\"a:11211\",\"b:11211\"]}},\"route\":\"PoolRoute|A\"} = leg - b:11211 plain / reply none
delete a|#|b = {\"pools\":{\"A\":{\"servers\":[\"a:11211\",\"b:11211\"]}},\"route\":\"PoolRoute|A\"} = leg - a:11211 plain / reply none
delete a = {\"pools\":{\"A\":{\"servers\":[\"a:11211\",\"b:11211\"]}},\"route\":{\"type\":\"OperationSelectorRoute\",\"default_policy\":\"PoolRoute|A\",\"operation_policies\":{\"delete\":\"AllSyncRoute|Pool|A\"}}} = leg 0.0 a:11211 plain / leg 0.1 b:11211 plain / reply none
get b = {\"pools\":{\"A\":{\"servers\":[\"a:11211\",\"b:11211\"]}},\"route\":{\"type\":\"OperationSelectorRoute\",\"default_policy\":\"PoolRoute|A\",\"operation_policies\":{\"delete\":\"AllSyncRoute|Pool|A\"}}} = leg 1 b:11211 plain / reply none
delete a = {\"pools\":{\"A\":{\"servers\":[\"a:11211\",\"b:11211\"]}},\"route\":{\"type\":\"OperationSelectorRoute\",\"default_policy\":\"PoolRoute|A\",\"operation_policies\":{\"delete\":\"NullRoute\"}}} = reply soft";

/// A request line, a route over pool A of `a:11211` and pool B of `b:11211`, and what is written.
const HANDLED: &str = "\
delete a = {\"type\":\"OperationSelectorRoute\",\"default_policy\":{\"type\":\"MissFailoverRoute\",\"children\":[\"PoolRoute|A\",\"PoolRoute|B\"]},\"operation_policies\":{\"delete\":{\"type\":\"AllAsyncRoute\",\"children\":[{\"type\":\"FailoverRoute\",\"children\":[{\"type\":\"AllSyncRoute\",\"children\":[\"PoolRoute|A\",\"ErrorRoute\"]},\"PoolRoute|B\"]}]}}} = leg 0.0.0.0 a:11211 async / reply soft
delete a = {\"type\":\"OperationSelectorRoute\",\"default_policy\":{\"type\":\"MissFailoverRoute\",\"children\":[\"PoolRoute|A\",\"PoolRoute|B\"]},\"operation_policies\":{\"delete\":{\"type\":\"PoolRoute\",\"pool\":\"A\",\"shadows\":[{\"target\":\"PoolRoute|B\",\"index_range\":[0,0]}]}}} = leg 0 a:11211 plain / leg 0.0 b:11211 shadow / reply none
delete a = {\"type\":\"OperationSelectorRoute\",\"operation_policies\":{\"delete\":{\"type\":\"AllInitialRoute\",\"children\":[\"PoolRoute|A\",\"PoolRoute|B\"]}},\"default_policy\":\"PoolRoute|B\"} = leg 0.0 a:11211 plain / leg 0.1 b:11211 async / reply none
get a = {\"type\":\"FailoverRoute\",\"children\":[\"ErrorRoute\",\"PoolRoute|B\"]} = leg 1 b:11211 plain / reply none
get a = {\"type\":\"MissFailoverRoute\",\"children\":[\"NullRoute\",\"PoolRoute|B\"]} = leg 1 b:11211 plain / reply none
delete a = {\"type\":\"MissFailoverRoute\",\"children\":[\"NullRoute\",\"PoolRoute|B\"]} = reply soft
get a = {\"type\":\"WarmUpRoute\",\"cold\":\"PoolRoute|A\",\"warm\":\"PoolRoute|B\"} = leg 0 a:11211 plain / reply none
get abc = {\"type\":\"PrefixSelectorRoute\",\"policies\":{\"a\":\"PoolRoute|A\",\"ab\":\"PoolRoute|B\"}} = leg 1 b:11211 plain / reply none
get b = {\"type\":\"PrefixSelectorRoute\",\"policies\":{\"a\":\"PoolRoute|A\",\"ab\":\"PoolRoute|B\"}} = reply error
get a = ErrorRoute = reply error";

/// A request line, a configuration, and the number, the status and the text of the fault.
const REFUSED: &str = "\
delete a\r = {\"pools\":{\"A\":{\"servers\":[\"a:11211\"]}},\"route\":\"PoolRoute|A\"} = 1 1 bad request line
delete  a = {\"pools\":{\"A\":{\"servers\":[\"a:11211\"]}},\"route\":\"PoolRoute|A\"} = 1 1 bad request line
 delete a = {\"pools\":{\"A\":{\"servers\":[\"a:11211\"]}},\"route\":\"PoolRoute|A\"} = 1 1 bad request line
foo a = {\"pools\":{\"A\":{\"servers\":[\"a:11211\"]}},\"route\":\"PoolRoute|A\"} = 1 1 bad request line
delete = {\"pools\":{\"A\":{\"servers\":[\"a:11211\"]}},\"route\":\"PoolRoute|A\"} = 1 1 bad request line
delete  = {\"pools\":{\"A\":{\"servers\":[\"a:11211\"]}},\"route\":\"PoolRoute|A\"} = 1 1 bad request line
delete a b = {\"pools\":{\"A\":{\"servers\":[\"a:11211\"]}},\"route\":\"PoolRoute|A\"} = 1 1 bad request line
delete /a/b/ = {\"pools\":{\"A\":{\"servers\":[\"a:11211\"]}},\"route\":\"PoolRoute|A\"} = 1 1 bad request line
foo a = { = 1 1 bad request line
delete /a/b/c = {} = 3 2 configuration 3 at .
delete /a/b/c = {\"pools\":{\"A\":{\"servers\":[\"a:11211\"]}},\"route\":\"PoolRoute|A\"} = 2 2 no route
get a = {\"pools\":{\"A\":{\"servers\":[]}},\"route\":\"PoolRoute|A\"} = 3 2 configuration 6 at /pools/A/servers
get a = {\"pools\":{\"A\":{\"servers\":[\"a:11211\"]}},\"route\":\"PoolRoute|Z\"} = 3 2 configuration 5 at /route
get a = {\"route\":{\"type\":\"RandomRoute\",\"children\":[\"NullRoute\"]}} = 3 2 configuration 10 at /route/type
get a = [[[[[[[[[[[[[[[[[[[[[[[[[[[[[[[[[[[[[[[[[[[[[[[[[[[[[[[[[[[[[[[[[[[[[[[[[[[[[[[[[[[[[[[[[[[[[[[[[[[[[[[[[[[[[[[[[[[[[[[[[[[[[[[[[[[[[[[[[[[[[[[[[[[[[[[[[[[[[[[[[[[[[[[[[[[[[[[[[[[[[[[[[[[[[[[[[[[[[[[[ = 3 2 configuration 1 at .";

/// The number, the status and the text of a fault.
fn fault_text(rt: &(impl AllocGlobal + Abort), fault: &RunFault) -> String {
    let (number, status) = (fault.number(), fault.status());
    format!(in rt.alloc(); "{number} {status} {fault}").expect(rt, "memory")
}

/// The lines written, with slashes between them, or the fault, beside which nothing is written.
fn shown<R: Read>(rt: &(impl AllocGlobal + Abort), reader: &mut R) -> String {
    let mut output = Vec::new(rt.alloc());
    match run_legs(rt.alloc(), reader, &mut output, Moment(0)) {
        Ok(()) => joined(rt, output),
        Err(fault) => {
            assert!(rt; output.is_empty(), "written beside a fault");
            fault_text(rt, &fault)
        }
    }
}

/// What is written of a request line and a configuration.
fn check(rt: &(impl AllocGlobal + Abort), line: &str, configuration: &str, wanted: &str) {
    let input = format!(in rt.alloc(); "{line}\n{configuration}").expect(rt, "memory");
    let text = shown(rt, &mut input.as_bytes());
    assert!(rt; text.as_str() == wanted, "{line}: {text}, not {wanted}");
}

fn check_case(rt: &(impl AllocGlobal + Abort), case: &str) {
    let (line, more) = case.split_once(" = ").expect(rt, "a case");
    let (configuration, wanted) = more.split_once(" = ").expect(rt, "a case");
    check(rt, line, configuration, wanted);
}

#[test]
fn legs_are_written(rt: HostRuntime) {
    for case in ANSWERED.lines() {
        check_case(&rt, case);
    }
}

const POOLS: &str =
    "{\"pools\":{\"A\":{\"servers\":[\"a:11211\"]},\"B\":{\"servers\":[\"b:11211\"]}},";

fn check_handle(rt: &(impl AllocGlobal + Abort), case: &str) {
    let (line, more) = case.split_once(" = ").expect(rt, "a case");
    let (route, wanted) = more.split_once(" = ").expect(rt, "a case");
    let quote = if route.starts_with("{") { "" } else { "\"" };
    let configuration = format!(in rt.alloc(); "{POOLS}\"route\":{quote}{route}{quote}}}");
    check(
        rt,
        line,
        configuration.expect(rt, "memory").as_str(),
        wanted,
    );
}

#[test]
fn each_handle_sends_by_its_rule(rt: HostRuntime) {
    for case in HANDLED.lines() {
        check_handle(&rt, case);
    }
}

/// What is written of a whole input.
fn check_input<R: Read>(rt: &(impl AllocGlobal + Abort), input: &mut R, wanted: &str) {
    let text = shown(rt, input);
    assert!(rt; text.as_str() == wanted, "{text}, not {wanted}");
}

#[test]
fn faults_are_reported_in_their_order(rt: HostRuntime) {
    for case in REFUSED.lines() {
        check_case(&rt, case);
    }
    check_input(&rt, &mut b"delete a {}".as_slice(), "1 1 bad request line");
    requests_have_one_reading();
}

#[test]
fn an_input_without_end_is_too_long(rt: HostRuntime) {
    let mut input = b"delete a\n".as_slice().chain(io::repeat(b' '));
    check_input(&rt, &mut input, "3 2 configuration 7 at .");
}

#[test]
fn broken_devices_are_reported(rt: HostRuntime) {
    let input = b"get a\n{\"route\":\"NullRoute\"}";
    let mut broken = input.as_slice().chain(Broken);
    check_input(&rt, &mut broken, "7 4 device failed");
    let full = run_legs(rt.alloc(), &mut input.as_slice(), &mut Broken, Moment(0));
    assert!(rt; matches!(full, Err(RunFault::Device)));
}

/// A request line, and what is written where routing prefixes select between the pools.
const PREFIXED: &str = "\
get /x/y/a = leg - a:11211 plain / reply none
get a = leg - b:11211 plain / reply none
get /u/v/a = leg - b:11211 plain / reply none
get /x/z/a = 2 2 no route";

const ENTRIES: &str =
    "\"routes\":[{\"aliases\":[\"/x/y/\"],\"route\":\"PoolRoute|A\"},{\"aliases\":[\"/././\",\"/u/v/\"],\"route\":\"PoolRoute|B\"}]}";

fn check_prefix(rt: &(impl AllocGlobal + Abort), case: &str) {
    let (line, wanted) = case.split_once(" = ").expect(rt, "a case");
    let configuration = format!(in rt.alloc(); "{POOLS}{ENTRIES}").expect(rt, "memory");
    check(rt, line, configuration.as_str(), wanted);
}

#[test]
fn prefixes_select_routes(rt: HostRuntime) {
    for case in PREFIXED.lines() {
        check_prefix(&rt, case);
    }
}
