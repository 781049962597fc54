//! Findings in sentences, and what certificates compared.

use crate::built::{check_text, routes};
use mcv_explain::{Scene, push_compared, push_explanation};
use mcv_make::{MakeFault, make};
use mcv_places::read_document;
use mcv_route::Routes;
use mcv_witness::Finding;
use std::alloc::{AllocError, Global};
use std::process::Abort;
use std::test::Fail;

/// Deletes have the failover of gets.
const LOST: &str =
    r#"{"pools": {"east": {"servers": ["10.0.1.1:11211"]}, "west": {"servers": ["10.0.2.1:11211"]}},
 "route": {"type": "FailoverRoute", "children": ["PoolRoute|east", "PoolRoute|west"]}}"#;

const EXPLANATION: &str = "
After a delete of the key /././! is acknowledged, a later get of it can be answered by 10.0.2.1:11211, to which the delete was never sent.
So it is with each key of route 0 (/route) whose rest begins with none of its policy prefixes.
The delete is acknowledged once it is answered so:
  0 at /route/children/0: 10.0.1.1:11211 (/pools/east/servers/0) answers deleted
By then it was not sent to 10.0.2.1:11211.
The get has a reply once it is answered so:
  0 at /route/children/0: 10.0.1.1:11211 (/pools/east/servers/0) answers error
  1 at /route/children/1: 10.0.2.1:11211 (/pools/west/servers/0) answers hit
The answer at 1 can be that reply: what 10.0.2.1:11211 still has from before the delete.
";

/// Gets of one pool, by two policies.
const COVERED: &str = r#"{"pools": {"A": {"servers": ["a:1", "b:1"]}},
 "route": {"type": "PrefixSelectorRoute", "policies": {"ab": "PoolRoute|A"}, "wildcard": "PoolRoute|A"}}"#;

const COMPARED: &str = "
Compared: readable leaves 2, classes 2, eras 1; a leaf is counted once for each class and era.
";

fn check_explained(
    rt: &impl Abort,
    alloc: Global,
    routes: &Routes,
    finding: &Finding,
) -> Result<(), Fail> {
    let document = read_document(alloc, LOST.as_bytes())?.expect(rt, "JSON");
    check_scene(
        rt,
        alloc,
        &Scene {
            document: &document,
            routes,
            finding,
        },
    )?;
    Ok(())
}

fn check_scene(rt: &impl Abort, alloc: Global, scene: &Scene<'_>) -> Result<(), AllocError> {
    let mut text = Vec::new(alloc);
    push_explanation(alloc, &mut text, scene)?;
    check_text(rt, text.as_slice(), EXPLANATION);
    Ok(())
}

#[test]
fn findings_are_explained(rt: HostRuntime) -> Result<(), Fail> {
    let routes = routes(&rt, rt.alloc(), LOST)?;
    match make(rt.alloc(), &routes) {
        Err(MakeFault::Lost(finding)) => check_explained(&rt, rt.alloc(), &routes, &finding),
        _ => panic!(rt; "no finding"),
    }
}

#[test]
fn what_was_compared_is_counted(rt: HostRuntime) -> Result<(), Fail> {
    let routes = routes(&rt, rt.alloc(), COVERED)?;
    let mut text = Vec::new(rt.alloc());
    match make(rt.alloc(), &routes) {
        Ok(certificate) => push_compared(rt.alloc(), &mut text, &routes, &certificate)?,
        Err(_) => panic!(rt; "no certificate"),
    }
    check_text(&rt, text.as_slice(), COMPARED);
    Ok(())
}
