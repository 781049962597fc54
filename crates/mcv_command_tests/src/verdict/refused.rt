//! Certificates that are refused, and other faults, in their order.

use super::verdicts::{by_operation, check};
use crate::devices::Broken;
use mcv_input::RunFault;
use mcv_verdict::{Verdict, run_check};
use std::process::Abort;

/// The pairs of a certificate over a pool of two servers and deletes to both, with semicolons between its lines, and what is written.
const PAIRS: &str = "\
mcv-cert 1;0 = 0 1 all 0 0.0;0 = 0 1 all 1 0.1;end; = covered 2
mcv-cert 1;0 = 0 1 all 0 0.0;end; = 5 5 certificate fault 1
mcv-cert 1;0 = 0 1 all 0 0.1;0 = 0 1 all 1 0.1;end; = 5 5 certificate fault 4
mcv-cert 1;0 = 0 1 all 0 0.0;0 = 0 1 all 0 0.0;0 = 0 1 all 1 0.1;end; = 4 5 certificate text 2 line 3
mcv-cert 1;0 = 0 1 all 0 0.0;0 = 0 1 all 1 0.1; = 4 5 certificate text 1 line 4
mcv-cert 1;0 = 0 1 all 0 0.0;0 = 0 1 all 1 0.1;end;; = 4 5 certificate text 1 line 5
mcv-cert 1;0 = 0 1 all 0 0.0;00 = 0 1 all 1 0.1;end; = 4 5 certificate text 1 line 3
mcv-cert 2;end; = 4 5 certificate text 1 line 1
mcv-cert 2 0;end; = 4 5 certificate text 1 line 1
mcv-cert 2 60;0 = 0 0 1 all 0 0.0;end; = 8 5 certificate fault 7
mcv-cert 1;0 = 0 1 all 0 0.0;0 = 0 1 all 1 0.1;0 = 0 1 all 2 0.1;end; = 5 5 certificate fault 2
mcv-cert 1;0 = 0 1 all 0 0.0;0 = 0 1 same 1 0.2;end; = 5 5 certificate fault 3
mcv-cert 1;0 = 0 1 never;end; = 5 5 certificate fault 5";

fn check_pairs(rt: &(impl AllocGlobal + Abort), configuration: &str, case: &str) {
    let (certificate, wanted) = case.rsplit_once(" = ").expect(rt, "a case");
    let text = certificate
        .replace(rt.alloc(), ";", "\n")
        .expect(rt, "memory");
    check(rt, configuration, Some(text.as_bytes()), wanted);
}

#[test]
fn certificates_are_judged(rt: HostRuntime) {
    let configuration = by_operation(&rt, "\"AllSyncRoute|Pool|C\"", "\"PoolRoute|C\"");
    for case in PAIRS.lines() {
        check_pairs(&rt, configuration.as_str(), case);
    }
}

const BOTH: &str =
    "{\"type\":\"MissFailoverRoute\",\"children\":[\"PoolRoute|A\",\"PoolRoute|B\"]}";

const LATE: &str =
    "{\"type\":\"FailoverRoute\",\"children\":[{\"type\":\"AllSyncRoute\",\"children\":[\"PoolRoute|A\",\"ErrorRoute\"]},\"PoolRoute|B\"]}";

/// What is written by this certificate where late deletes go through the handle.
fn check_late(rt: &(impl AllocGlobal + Abort), handle: &str, cert: &[u8], wanted: &str) {
    let deletes = format!(in rt.alloc(); "{{\"type\":\"{handle}\",\"children\":[{LATE}]}}");
    let configuration = by_operation(rt, deletes.expect(rt, "memory").as_str(), BOTH);
    check(rt, configuration.as_str(), Some(cert), wanted);
}

const UNREAD: &str = "{\"type\":\"AllSyncRoute\",\"children\":[\"PoolRoute|A\",\"NullRoute\"]}";

#[test]
fn certificates_of_other_routes_are_refused(rt: HostRuntime) {
    let covered = b"mcv-cert 1\n0 = 0 1.0 twin 0.0.0.0\n0 = 0 1.1 twin 0.0.1\nend\n";
    check_late(&rt, "AllSyncRoute", covered, "covered 2");
    check_late(&rt, "AllAsyncRoute", covered, "5 5 certificate fault 3");
    let unread = by_operation(&rt, "\"NullRoute\"", UNREAD);
    let stray = b"mcv-cert 1\n0 = 0 1.0 never\nend\n".as_slice();
    check(&rt, unread.as_str(), Some(stray), "5 5 certificate fault 2");
}

#[test]
fn the_configuration_is_judged_before_the_certificate(rt: HostRuntime) {
    let nothing = b"nothing".as_slice();
    check(&rt, "{", Some(nothing), "3 2 configuration 1 at .");
    check(
        &rt,
        "{\"route\":\"PoolRoute|Z\"}",
        None,
        "3 2 configuration 5 at /route",
    );
}

#[test]
fn broken_devices_are_reported(rt: HostRuntime) {
    let input = b"{\"route\":\"NullRoute\"}";
    let mut output = Vec::new(rt.alloc());
    let unread = run_check(rt.alloc(), &mut Broken, &mut output, None, 0);
    assert!(rt; matches!(unread, Err(RunFault::Device)));
    let unwritten = run_check(rt.alloc(), &mut input.as_slice(), &mut Broken, None, 0);
    assert!(rt; matches!(unwritten, Err(RunFault::Device)));
    let verdict = run_check(rt.alloc(), &mut input.as_slice(), &mut output, None, 0);
    assert!(rt; matches!(verdict, Ok(Verdict::Covered(0))));
}
