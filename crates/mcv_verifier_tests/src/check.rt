//! Certificates of small configurations, a row a case: accepted, or the number of the first fault.

use crate::built::{check_number, routes};
use mcv_cert::{Certificate, read_certificate};
use mcv_check::check;
use mcv_route::Routes;
use std::alloc::{AllocError, Global};
use std::process::Abort;
use std::test::Fail;

/// The configuration of a name, with the pools A and B of two servers each.
fn configuration(name: &str) -> &'static str {
    match name {
        "replicated" =>
            "{\"pools\": {\"A\": {\"servers\": [\"a:11211\", \"b:11211\"]}}, \"route\": {\"type\": \"OperationSelectorRoute\", \"operation_policies\": {\"delete\": \"AllSyncRoute|Pool|A\"}, \"default_policy\": \"PoolRoute|A\"}}",
        "hashed" =>
            "{\"pools\": {\"A\": {\"servers\": [\"a:11211\", \"b:11211\"]}}, \"route\": \"PoolRoute|A\"}",
        "refused" =>
            "{\"pools\": {\"A\": {\"servers\": [\"a:11211\", \"b:11211\"]}}, \"route\": {\"type\": \"OperationSelectorRoute\", \"operation_policies\": {\"delete\": \"ErrorRoute\"}, \"default_policy\": \"PoolRoute|A\"}}",
        "forgotten" =>
            "{\"pools\": {\"A\": {\"servers\": [\"a:11211\", \"b:11211\"]}, \"B\": {\"servers\": [\"c:11211\", \"d:11211\"]}}, \"route\": {\"type\": \"OperationSelectorRoute\", \"operation_policies\": {\"delete\": \"PoolRoute|A\"}, \"default_policy\": {\"type\": \"FailoverRoute\", \"children\": [\"PoolRoute|A\", \"PoolRoute|B\"]}}}",
        "moving" =>
            "{\"pools\": {\"A\": {\"servers\": [\"a:11211\", \"b:11211\"]}, \"B\": {\"servers\": [\"c:11211\", \"d:11211\"]}}, \"route\": {\"type\": \"MigrateRoute\", \"start_time\": 1000, \"interval\": 3600, \"from\": \"PoolRoute|A\", \"to\": \"PoolRoute|B\"}}",
        "prefixes" =>
            "{\"pools\": {\"A\": {\"servers\": [\"a:11211\", \"b:11211\"]}, \"B\": {\"servers\": [\"c:11211\", \"d:11211\"]}}, \"route\": {\"type\": \"PrefixSelectorRoute\", \"wildcard\": \"PoolRoute|B\", \"policies\": {\"ab\": \"PoolRoute|A\"}}}",
        _ => "{\"pools\": {}, \"route\": \"NullRoute\"}",
    }
}

/// The text of a certificate with these lines, which are parted by semicolons.
fn certificate_text(alloc: Global, lines: &str) -> Result<String, AllocError> {
    let mut text = String::from_str(alloc, "mcv-cert 1\n")?;
    for line in lines.split(';') {
        if !line.is_empty() {
            text.push_str(line)?;
            text.push_str("\n")?;
        }
    }
    text.push_str("end\n")?;
    Ok(text)
}

fn certificate_of(rt: &impl Abort, alloc: Global, lines: &str) -> Result<Certificate, AllocError> {
    let text = certificate_text(alloc, lines)?;
    match read_certificate(alloc, text.as_bytes()) {
        Ok(certificate) => Ok(certificate),
        Err(_) => panic!(rt; "the certificate isn't read"),
    }
}

/// The number of the first fault of a certificate for the routes; 0 where it is accepted.
fn number_of(alloc: Global, routes: Routes, certificate: &Certificate) -> u8 {
    match check(alloc, routes, certificate) {
        Ok(_) => 0,
        Err(fault) => fault.number(),
    }
}

/// The same for the configuration of a name.
fn judged_at(
    rt: &impl Abort,
    alloc: Global,
    name: &str,
    certificate: &Certificate,
) -> Result<u8, AllocError> {
    let routes = routes(rt, alloc, configuration(name))?;
    Ok(number_of(alloc, routes, certificate))
}

/// The same for the certificate with these lines.
fn judged(rt: &impl Abort, alloc: Global, name: &str, lines: &str) -> Result<u8, AllocError> {
    let certificate = certificate_of(rt, alloc, lines)?;
    judged_at(rt, alloc, name, &certificate)
}

/// A configuration, the lines of a certificate, and its number.
const ROWS: &str = "\
replicated|0 = 0 1 all 0 0.0;0 = 0 1 all 1 0.1|0
replicated|0 = 0 1 all 0 0.0|1
replicated|0 = 0 1 all 0 0.1;0 = 0 1 all 1 0.1|4
replicated|0 = 0 1 all 0 0.2;0 = 0 1 all 1 0.1|3
replicated|0 = 0 1 all 0 0.0;0 = 0 1 all 1 0.1;0 = 0 1 all 2 0.1|2
replicated|0 = 0 1 all 0 0.0;0 = 0 1 all 1 0.1;0 = 1 1 never|2
replicated|0 = 0 1 never|5
replicated||1
hashed|0 = 0 - twin -|0
hashed|0 = 0 - same 0 -;0 = 0 - same 1 -|0
hashed|0 = 0 - same 0 -|1
hashed|0 = 0 - all 0 -|4
refused|0 = 0 1 never|0
refused|0 = 0 1 twin 0|3
forgotten|0 = 0 1.0 twin 0|1
forgotten|0 = 0 1.0 twin 0;0 = 0 1.1 twin 0|4
moving|0 = 0 0 twin 0;0 = 1 0 twin 0;0 = 2 1 twin 1;0 = 3 1 twin 1|0
moving|0 = 0 0 twin 0;0 = 1 0 twin 0;0 = 3 1 twin 1|1
moving|0 = 0 0 twin 0;0 = 1 0 twin 0;0 = 2 0 twin 0;0 = 3 1 twin 1|2
prefixes|0 = 0 1 twin 1;0 =ab 0 0 twin 0|0
prefixes|0 = 0 1 twin 1|1
nothing||0
nothing|0 = 0 - never|2";

fn check_row(rt: &impl Abort, alloc: Global, row: &str) -> Result<(), Fail> {
    let (name, others) = row.split_once('|').ok_or("a row without a bar")?;
    let (lines, number) = others.split_once('|').ok_or("a row with one bar")?;
    let found = judged(rt, alloc, name, lines)?;
    check_number(rt, row, found, number.parse::<u8>()?);
    Ok(())
}

#[test]
fn certificates_are_judged(rt: HostRuntime) -> Result<(), Fail> {
    for row in ROWS.lines() {
        check_row(&rt, rt.alloc(), row)?;
    }
    Ok(())
}
