//! What is read of a configuration, up to its limit.

use crate::devices::Broken;
use mcv_base::ServerId;
use mcv_input::{read_at_most, read_configuration, read_routes, write_text};
use mcv_route::Routes;
use std::io;
use std::io::Read;
use std::process::Abort;

const LONE: &str = "{\"pools\":{\"A\":{\"servers\":[\"a:11211\"]}},\"route\":\"PoolRoute|A\"}";

/// A configuration, and the fault in it.
const REFUSED: &str = "\
{ = configuration 1 at .
{} = configuration 3 at .
{\"route\":\"PoolRoute|Z\"} = configuration 5 at /route
{\"pools\":{\"A\":{\"servers\":[]}},\"route\":\"PoolRoute|A\"} = configuration 6 at /pools/A/servers";

/// The first server's text, or none.
fn first_server(rt: &(impl AllocGlobal + Abort), routes: &Routes) -> String {
    let text = routes.servers().text(ServerId(0)).unwrap_or("none");
    String::from_str(rt.alloc(), text).expect(rt, "memory")
}

/// What is read of a reader: the first server's text, or the fault.
fn read<R: Read>(rt: &(impl AllocGlobal + Abort), reader: &mut R) -> String {
    match read_configuration(rt.alloc(), reader) {
        Ok(routes) => first_server(rt, &routes),
        Err(fault) => format!(in rt.alloc(); "{fault}").expect(rt, "memory"),
    }
}

/// What is read of a reader is this.
fn check_read<R: Read>(rt: &(impl AllocGlobal + Abort), reader: &mut R, wanted: &str) {
    let text = read(rt, reader);
    assert!(rt; text.as_str() == wanted, "{text}, not {wanted}");
}

fn check_refused(rt: &(impl AllocGlobal + Abort), case: &str) {
    let (text, wanted) = case.split_once(" = ").expect(rt, "a case");
    check_read(rt, &mut text.as_bytes(), wanted);
}

#[test]
fn routes_and_faults_are_read(rt: HostRuntime) {
    assert!(rt; read_routes(rt.alloc(), LONE.as_bytes()).is_ok());
    check_read(&rt, &mut LONE.as_bytes(), "a:11211");
    for case in REFUSED.lines() {
        check_refused(&rt, case);
    }
}

/// What is read of a configuration with spaces behind it, of so many bytes together.
fn check_length(rt: &(impl AllocGlobal + Abort), length: u64, wanted: &str) {
    let spaces = length.saturating_sub(LONE.len() as u64);
    let mut input = LONE.as_bytes().chain(io::repeat(b' ').take(spaces));
    check_read(rt, &mut input, wanted);
}

#[test]
fn a_configuration_may_have_16_mib_and_no_byte_more(rt: HostRuntime) {
    check_length(&rt, 16_777_216, "a:11211");
    check_length(&rt, 16_777_217, "configuration 7 at .");
}

#[test]
fn a_configuration_without_end_is_too_long(rt: HostRuntime) {
    let mut input = LONE.as_bytes().chain(io::repeat(b' '));
    check_read(&rt, &mut input, "configuration 7 at .");
}

/// What is read of `abc` up to a limit.
fn check_limit(rt: &(impl AllocGlobal + Abort), limit: u64, wanted: &[u8]) {
    let read = read_at_most(rt.alloc(), &mut b"abc".as_slice(), limit);
    assert!(rt;
        read.expect(rt, "bytes").as_slice() == wanted,
        "up to {limit}"
    );
}

#[test]
fn texts_are_written_whole_and_read_up_to_a_limit(rt: HostRuntime) {
    let mut written = Vec::new(rt.alloc());
    assert!(rt; write_text(&mut written, b"abc").is_ok());
    assert_eq!(rt; written.as_slice(), b"abc".as_slice());
    check_limit(&rt, 2, b"ab");
    check_limit(&rt, 4, b"abc");
}

#[test]
fn broken_devices_are_reported(rt: HostRuntime) {
    check_read(&rt, &mut Broken, "device failed");
    let fault = write_text(&mut Broken, b"abc").expect_err(&rt, "a fault");
    let text = format!(in rt.alloc(); "{fault}").expect(&rt, "memory");
    assert_eq!(rt; text.as_str(), "device failed");
}
