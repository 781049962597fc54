//! Verdicts and faults as JSON.

use crate::explained::{COVERED, LOST};
use mcv_show::run_check_as;
use mcv_verdict::Verdict;
use mcv_words::{CheckOptions, InRange, Window};
use serde_json::Value;
use std::process::Abort;

/// A counter is kept where deletes don't go.
const COUNTER: &str = r#"{"pools": {"A": {"servers": ["a:11211"]}, "B": {"servers": ["b:11211"]}},
 "route": {"type": "OperationSelectorRoute", "operation_policies": {"delete": "PoolRoute|A", "incr": "PoolRoute|B"},
  "default_policy": "PoolRoute|A"}}"#;

const FAULTY: &str = r#"{"pools": {"a/b": 1}}"#;

/// A configuration, a pointer into the report on it, and the text there.
const LOST_PARTS: &str = "\
/verdict lost
/finding/get/legs/1/handle /route/children/1
/finding/get/legs/1/server_pointer /pools/west/servers/0
/finding/delete/legs/0/outcome deleted
/finding/server/name 10.0.2.1:11211
/finding/server/pointer /pools/west/servers/0
/finding/route/pointer /route";

const COUNTER_PARTS: &str = "\
/finding/operation incr
/finding/get/legs/0/outcome number";

const COVERED_PARTS: &str = "\
/verdict covered
/certificate/0/reason twin
/certificate/1/leaf_pointer /route/policies/\"><script>";

const FAULTY_PARTS: &str = "\
/verdict refused
/fault/pointer /pools/a~1b
/fault/name wrong kind of value, or missing key";

fn options_of(rt: &impl Abort) -> CheckOptions {
    CheckOptions {
        window: Window::new(0).expect(rt, "a window"),
        explain: false,
        json: true,
        quiet: false,
    }
}

/// The report on a configuration, by this certificate or by one that is made.
fn report_on(rt: &(impl AllocGlobal + Abort), config: &str, certificate: Option<&[u8]>) -> Value {
    let mut text = Vec::new(rt.alloc());
    let mut input = config.as_bytes();
    let _ended = run_check_as(
        rt.alloc(),
        &mut input,
        &mut text,
        certificate,
        options_of(rt),
    );
    Value::from_slice(rt.alloc(), text.as_slice())
        .ok()
        .expect(rt, "JSON")
}

/// The report has these texts at these pointers.
fn check_parts(rt: &(impl AllocGlobal + Abort), config: &str, parts: &str) {
    let report = report_on(rt, config, None);
    for part in parts.lines() {
        let (pointer, wanted) = part.split_once(' ').expect(rt, "a pointer and a text");
        let found = report.pointer(pointer).and_then(Value::as_str);
        assert!(rt; found == Some(wanted), "{part}");
    }
}

#[test]
fn verdicts_are_reported(rt: HostRuntime) {
    check_parts(&rt, LOST, LOST_PARTS);
    check_parts(&rt, COUNTER, COUNTER_PARTS);
    check_parts(&rt, COVERED, COVERED_PARTS);
}

#[test]
fn faults_are_reported(rt: HostRuntime) {
    check_parts(&rt, FAULTY, FAULTY_PARTS);
}

/// What the report says of a fault of this certificate for a covered configuration.
fn check_refused(rt: &(impl AllocGlobal + Abort), certificate: &str, wanted: &str) {
    let report = report_on(rt, COVERED, Some(certificate.as_bytes()));
    let found = report.pointer("/fault/name").and_then(Value::as_str);
    assert!(rt; found == Some(wanted), "{wanted}");
}

#[test]
fn refused_certificates_are_reported(rt: HostRuntime) {
    check_refused(
        &rt,
        "mcv-cert 1\n0 = 0 1 twin 1\nend\n",
        "readable server without a line",
    );
    check_refused(
        &rt,
        "mcv-cert 1\n0 = 0 1 twin\nend\n",
        "no line of a certificate",
    );
    check_refused(&rt, "mcv-cert 2 60\nend\n", "another window");
}

#[test]
fn reports_change_no_verdict(rt: HostRuntime) {
    let mut input = LOST.as_bytes();
    let mut text = Vec::new(rt.alloc());
    let ended = run_check_as(rt.alloc(), &mut input, &mut text, None, options_of(&rt));
    assert!(rt; matches!(ended, Ok(Verdict::Lost)));
}
