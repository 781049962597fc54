//! Where handles and servers stand.

use mcv_base::Position;
use mcv_places::{handle_at, read_document, server_at};
use std::process::Abort;

/// A configuration for all spellings of handles. `~` and `/` in the name of a pool are escaped in its pointers.
const CONFIG: &str = r#"{"pools": {"A": {"servers": ["a:1", "b:1"]}, "x/~": {"servers": ["c:1"]}},
"route": {"type": "OperationSelectorRoute",
 "operation_policies": {
  "get": {"type": "AllSyncRoute", "children": [{"type": "PoolRoute", "pool": "A"}, "PoolRoute|x/~"]},
  "delete": {"type": "FailoverRoute", "children": "Pool|A"}},
 "default_policy": {"type": "WarmUpRoute", "cold": "AllSyncRoute|FailoverRoute|Pool|A",
  "warm": {"type": "AllSyncRoute", "children": {"type": "PoolRoute", "pool": {"servers": ["d:1"]},
   "shadows": [{"index_range": [0, 0], "target": "PoolRoute|A"}]}}}}}"#;

/// The child numbers, the index of the server, and the pointers of the handle and of the server. Policies are in byte
/// order: delete is 0, get 1, and the default 2.
const PLACES: &str = "\
1 0 index 1: /route/operation_policies/get/children/0: /pools/A/servers/1
1 1 index 0: /route/operation_policies/get/children/1: /pools/x~1~0/servers/0
0 1 index 0: /route/operation_policies/delete/children: /pools/A/servers/1
2 0 0 1 index 0: /route/default_policy/cold: /pools/A/servers/1
2 2 0 0 index 0: /route/default_policy/cold: /pools/A/servers/0
2 1 0 index 0: /route/default_policy/warm/children: /route/default_policy/warm/children/pool/servers/0
2 1 0 0 index 1: /route/default_policy/warm/children/shadows/0/target: /pools/A/servers/1
1 9 index 0: none: none";

fn position_of(rt: &(impl AllocGlobal + Abort), numbers: &str) -> Position {
    let mut steps = Vec::new(rt.alloc());
    for number in numbers.split(' ') {
        let step = number.parse::<usize>().expect(rt, "a number");
        steps.push(step).expect(rt, "memory");
    }
    Position::at(rt.alloc(), steps.as_slice()).expect(rt, "memory")
}

fn is_at(pointer: Option<Vec<u8>>, wanted: &str) -> bool {
    match pointer {
        Some(pointer) => pointer.as_slice() == wanted.as_bytes(),
        None => wanted == "none",
    }
}

fn check_place(rt: &(impl AllocGlobal + Abort), case: &str) {
    let (leg, pointers) = case.split_once(": ").expect(rt, "a case");
    let (handle, server) = pointers.split_once(": ").expect(rt, "a case");
    let (numbers, index) = leg.split_once(" index ").expect(rt, "a case");
    let position = position_of(rt, numbers);
    let index = index.parse::<usize>().expect(rt, "an index");
    let document = read_document(rt.alloc(), CONFIG.as_bytes()).expect(rt, "memory");
    let document = document.expect(rt, "JSON");
    let found = handle_at(rt.alloc(), &document, 0, &position).expect(rt, "memory");
    assert!(rt; is_at(found, handle), "{case}");
    let found = server_at(rt.alloc(), &document, 0, &position, index).expect(rt, "memory");
    assert!(rt; is_at(found, server), "{case}");
}

#[test]
fn handles_and_servers_stand_where_the_configuration_has_them(rt: HostRuntime) {
    for case in PLACES.lines() {
        check_place(&rt, case);
    }
}
