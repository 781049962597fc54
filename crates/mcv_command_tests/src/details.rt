//! What is said of a fault of a configuration behind its line.

use mcv_command::{Ending, Stop, says_more, second_line};
use mcv_input::{RunFault, read_routes};
use mcv_words::read_words;
use std::alloc::Global;
use std::process::Abort;

/// How a run ends that reads this configuration and does nothing with it.
fn read(alloc: Global, text: &[u8]) -> Result<Ending, Stop> {
    match read_routes(alloc, text) {
        Ok(_) => Ok(Ending::Done),
        Err(fault) => Err(Stop::Run(RunFault::from(fault))),
    }
}

/// More is said of this configuration's fault, or nothing where it is empty.
fn check_detail(rt: &(impl AllocGlobal + Abort), text: &str, wanted: &str) {
    let ended = read(rt.alloc(), text.as_bytes());
    let line = second_line(rt.alloc(), text.as_bytes(), &ended).expect(rt, "memory");
    match &line {
        Some(line) => assert!(rt; line.as_str() == wanted, "{line}"),
        None => assert!(rt; wanted.is_empty(), "{wanted}"),
    }
}

#[test]
fn more_is_said_of_faults(rt: HostRuntime) {
    check_detail(
        &rt,
        "{\"pools\": {},\n \"route\": \"PoolRoute|Z\"}",
        "unknown pool \"PoolRoute|Z\", line 2 column 11",
    );
    check_detail(&rt, "{", "not JSON");
    check_detail(&rt, "{\"route\": \"NullRoute\"}", "");
}

fn says(alloc: Global, words: &[&str]) -> bool {
    match read_words(alloc, words) {
        Ok(job) => says_more(&job),
        Err(_) => false,
    }
}

#[test]
fn more_is_said_of_configurations_alone(rt: HostRuntime) {
    assert!(rt; says(rt.alloc(), &["mcv", "check"]));
    assert!(rt; says(rt.alloc(), &["mcv", "draw"]));
    assert!(rt; says(rt.alloc(), &["mcv", "mend"]));
    assert!(rt; !says(rt.alloc(), &["mcv", "check", "-q"]));
    assert!(rt; !says(rt.alloc(), &["mcv", "legs"]));
    assert!(rt; !says(rt.alloc(), &["mcv", "serve"]));
}
