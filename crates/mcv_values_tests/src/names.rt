use crate::rows::{check, check_bytes};
use mcv_names::{FaultKind, ReadFault, Trail, fault_at};
use std::process::Abort;

/// A trail has this text.
fn check_trail(rt: &(impl AllocGlobal + Abort), trail: &Trail<'_>, wanted: &str) {
    let found = trail.text(rt.alloc()).expect(rt, "memory");
    check_bytes(rt, wanted, found.as_bytes(), wanted.as_bytes());
}

#[test]
fn a_path_has_its_steps(rt: HostRuntime) {
    let root = Trail::Root;
    let key = Trail::Key(&root, "a b/%\u{e9}");
    check_trail(&rt, &root, ".");
    check_trail(&rt, &Trail::Item(&key, 10), "/a%20b%2F%25%C3%A9/10");
}

#[test]
fn a_fault_has_its_number_and_path(rt: HostRuntime) {
    let macros = Trail::Key(&Trail::Root, "macros");
    match fault_at(rt.alloc(), FaultKind::LeftOut, &macros) {
        ReadFault::Config(fault) => {
            check(&rt, fault.number() == 10, "the number");
            check(&rt, fault.path() == "/macros", "the path");
        }
        ReadFault::Memory => panic!(rt; "out of memory"),
    }
}
