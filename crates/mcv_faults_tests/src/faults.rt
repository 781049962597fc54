//! The names, the pointers and the places of faults.

use mcv_faults::{fault_line, fault_pointer, standing_of};
use mcv_names::FaultKind;
use std::alloc::Global;
use std::process::Abort;
use std::str::from_utf8;
use std::test::Fail;

/// Comments and a line feed before what is at fault.
const CONFIG: &str = "{\"pools\": {\"a/b\": {\"servers\": [\"a:1\"]}}, // the route
 \"route\": {\"type\": \"FailoverRoute\", \"children\": [\"PoolRoute|a/b\", \"PoolRoute|\\\"w\"]}}";

/// The path of a value, and what is said of a fault there.
const PLACES: &str = "\
. => unknown pool, line 1 column 1
/pools/a%2Fb/servers/0 => unknown pool \"a:1\", line 1 column 32
/route/children/1 => unknown pool \"PoolRoute|\"w\", line 2 column 67
/route/children/2 => unknown pool";

/// The path of a fault, and its pointer.
const POINTERS: &str = "\
/pools/a%2Fb/servers/0 => /pools/a~1b/servers/0
/pools/a~b => /pools/a~0b
/route/children/1 => /route/children/1";

/// A text is the one that is wanted.
fn check_text(rt: &impl Abort, found: &[u8], wanted: &str) {
    let shown = from_utf8(found).unwrap_or("no text");
    assert!(rt; found == wanted.as_bytes(), "{wanted}\n{shown}");
}

fn check_place(rt: &impl Abort, alloc: Global, path: &str, wanted: &str) -> Result<(), Fail> {
    let standing = standing_of(alloc, CONFIG.as_bytes(), path.as_bytes())?;
    let line = fault_line(
        alloc,
        FaultKind::UnknownPool,
        standing.text.as_ref().map(|text| text.as_str()),
        standing.place,
    )?;
    check_text(rt, line.as_slice(), wanted);
    Ok(())
}

#[test]
fn faults_stand_where_their_paths_lead(rt: HostRuntime) -> Result<(), Fail> {
    for case in PLACES.lines() {
        let (path, wanted) = case.split_once(" => ").ok_or("a case in two parts")?;
        check_place(&rt, rt.alloc(), path, wanted)?;
    }
    Ok(())
}

#[test]
fn paths_have_pointers(rt: HostRuntime) -> Result<(), Fail> {
    for case in POINTERS.lines() {
        let (path, wanted) = case.split_once(" => ").ok_or("a case in two parts")?;
        let pointer = fault_pointer(rt.alloc(), path.as_bytes())?;
        check_text(&rt, pointer.as_slice(), wanted);
    }
    let root = fault_pointer(rt.alloc(), b".")?;
    check_text(&rt, root.as_slice(), "");
    Ok(())
}
