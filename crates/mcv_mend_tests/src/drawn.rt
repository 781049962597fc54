//! Configurations drawn by lot: what `mend` writes is covered, and stays as it is.

use mcv_mend::{MendFault, Mending, run_mend};
use std::alloc::AllocError;
use std::process::Abort;

/// Numbers drawn one after another, the same in each run.
#[derive(Drop)]
struct Lots {
    state: u64,
}

impl Lots {
    /// A number below the bound, which isn't 0.
    fn draw(&mut self, bound: u64) -> u64 {
        self.state = self
            .state
            .wrapping_mul(6_364_136_223_846_793_005)
            .wrapping_add(1_442_695_040_888_963_407);
        (self.state >> 33) % bound.max(1)
    }
}

const POOLS: &str = "{ // pools
\"pools\":{\"A\":{\"servers\":[\"a:1\"]},\"B\":{\"servers\":[\"b:1\"]},\"C\":{\"servers\":[\"a:1\",\"b:1\"]},
\"D\":{\"servers\":[\"c:1\",\"b:1\"]},\"E\":{\"servers\":[\"a:1\",\"d:1\"]}},\n\"route\": ";

/// Adds a PoolRoute.
fn push_pool(lots: &mut Lots, text: &mut String) -> Result<(), AllocError> {
    let name = match lots.draw(5) {
        0 => "A",
        1 => "B",
        2 => "C",
        3 => "D",
        _ => "E",
    };
    match lots.draw(5) {
        0 => {
            text.push_str("{\"type\": \"PoolRoute\", \"pool\": \"")?;
            text.push_str(name)?;
            text.push_str("\", \"hash\": {\"salt\": \"s\"}}")?;
        }
        1 => {
            text.push_str("{\"pool\":\"")?;
            text.push_str(name)?;
            text.push_str(
                "\",\"shadows\":[{\"target\":\"PoolRoute|B\",\"index_range\":[0,0]}],\"type\":\"PoolRoute\"}",
            )?;
        }
        _ => {
            text.push_str("\"PoolRoute|")?;
            text.push_str(name)?;
            text.push_str("\"")?;
        }
    }
    Ok(())
}

/// Adds the name of a handle with children.
fn push_kind(lots: &mut Lots, text: &mut String) -> Result<(), AllocError> {
    text.push_str(match lots.draw(5) {
        0 => "AllSyncRoute",
        1 => "AllInitialRoute",
        2 => "AllAsyncRoute",
        3 => "FailoverRoute",
        _ => "MissFailoverRoute",
    })
}

/// Adds a handle with children.
#[cycle(drawing)]
fn push_many(lots: &mut Lots, depth: usize, text: &mut String) -> Result<(), AllocError> {
    if lots.draw(4) == 0 {
        text.push_str("\"")?;
        push_kind(lots, text)?;
        return text.push_str("|Pool|C\"");
    }
    text.push_str("{\"type\":\"")?;
    push_kind(lots, text)?;
    text.push_str("\", \"children\": [")?;
    push_route(lots, depth, text)?;
    if lots.draw(3) > 0 {
        text.push_str(", ")?;
        push_route(lots, depth, text)?;
    }
    text.push_str(" ]}")
}

/// Adds a WarmUpRoute or a MigrateRoute.
#[cycle(drawing)]
fn push_two(lots: &mut Lots, depth: usize, text: &mut String) -> Result<(), AllocError> {
    if lots.draw(2) == 0 {
        text.push_str("{\"type\":\"WarmUpRoute\",\"cold\":")?;
        push_route(lots, depth, text)?;
        text.push_str(",\"warm\":")?;
        push_route(lots, depth, text)?;
        text.push_str("}")
    } else {
        text.push_str("{\"type\":\"MigrateRoute\",\"from\":")?;
        push_route(lots, depth, text)?;
        text.push_str(",\"to\":")?;
        push_route(lots, depth, text)?;
        text.push_str(",\"start_time\":100,\"interval\":10}")
    }
}

/// Adds a PrefixSelectorRoute.
#[cycle(drawing)]
fn push_by_prefix(lots: &mut Lots, depth: usize, text: &mut String) -> Result<(), AllocError> {
    text.push_str("{\"type\":\"PrefixSelectorRoute\",\"policies\":{\"b\":")?;
    push_route(lots, depth, text)?;
    text.push_str(", /* longer */ \"a\":")?;
    push_route(lots, depth, text)?;
    if lots.draw(2) == 0 {
        text.push_str(",\"ab\":")?;
        push_route(lots, depth, text)?;
    }
    text.push_str("}")?;
    if lots.draw(4) > 0 {
        text.push_str(",\"wildcard\":")?;
        push_route(lots, depth, text)?;
    }
    text.push_str("}")
}

/// Adds an OperationSelectorRoute.
#[cycle(drawing)]
fn push_by_operation(lots: &mut Lots, depth: usize, text: &mut String) -> Result<(), AllocError> {
    text.push_str("{\"type\":\"OperationSelectorRoute\"")?;
    if lots.draw(4) > 0 {
        text.push_str(",\"operation_policies\": {\"set\":\"NullRoute\"")?;
        for name in ["get", "gets", "delete"] {
            if lots.draw(2) == 0 {
                text.push_str(",\"")?;
                text.push_str(name)?;
                text.push_str("\":")?;
                push_route(lots, depth, text)?;
            }
        }
        text.push_str("}")?;
    }
    text.push_str(",\"default_policy\":")?;
    push_route(lots, depth, text)?;
    text.push_str("}")
}

/// Adds a route with at most so many levels below it.
#[cycle(drawing)]
fn push_route(lots: &mut Lots, depth: usize, text: &mut String) -> Result<(), AllocError> {
    if depth == 0 {
        return push_pool(lots, text);
    }
    match lots.draw(12) {
        0 => text.push_str("\"NullRoute\""),
        1 | 2 => push_two(lots, depth - 1, text),
        3 | 4 => push_by_prefix(lots, depth - 1, text),
        5 | 6 => push_by_operation(lots, depth - 1, text),
        7 | 8 | 9 => push_many(lots, depth - 1, text),
        _ => push_pool(lots, text),
    }
}

/// A configuration.
fn drawn(rt: &(impl AllocGlobal + Abort), lots: &mut Lots) -> String {
    let mut text = String::from_str(rt.alloc(), POOLS).expect(rt, "memory");
    let depth = if lots.draw(3) == 0 { 3 } else { 2 };
    push_route(lots, depth, &mut text).expect(rt, "memory");
    text.push_str("} // end\n").expect(rt, "memory");
    text
}

/// What becomes of a configuration, with what is written.
fn mended(rt: &(impl AllocGlobal + Abort), text: &[u8]) -> (Option<Mending>, Vec<u8>) {
    let mut output = Vec::new(rt.alloc());
    let mut input = text;
    match run_mend(rt.alloc(), &mut input, &mut output) {
        Ok(mending) => (Some(mending), output),
        Err(MendFault::Run(fault)) => {
            assert!(rt; false, "{fault}");
            (None, output)
        }
        Err(_) => (None, output),
    }
}

#[test]
fn each_is_mended_once(rt: HostRuntime) {
    let mut lots = Lots { state: 7 };
    let mut changed = 0usize;
    for _ in 0..600 {
        let text = drawn(&rt, &mut lots);
        let (mending, output) = mended(&rt, text.as_bytes());
        assert!(rt; mending.is_some(), "no change for {text}");
        if mending == Some(Mending::Mended) {
            changed = changed.saturating_add(1);
            let (again, same) = mended(&rt, output.as_slice());
            assert!(rt;
                again == Some(Mending::Unchanged),
                "lost once mended: {text}"
            );
            assert!(rt; same.as_slice() == output.as_slice(), "changed again");
        }
    }
    assert!(rt; changed > 100, "{changed} are mended");
}
