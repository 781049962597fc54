//! Legs in flight over one connection, by number.

use mcv_base::{LegId, Op, Reply, Rest};
use mcv_pipeline::{Landed, Pipeline};
use mcv_reply::ReplyFault;
use std::process::Abort;
use std::sync::Arc;

/// What is wanted is so.
fn check(rt: &impl Abort, is_so: bool, what: &str) {
    assert!(rt; is_so, "{what}");
}

/// A connection on which gets of `a` with the numbers 1 to so many are in flight.
fn pipeline(rt: &(impl AllocGlobal + Abort), count: u64) -> Pipeline {
    let mut pipeline = Pipeline::new(rt.alloc());
    for number in 1..=count {
        let rest = Rest::of(b"a").expect(rt, "a key");
        let rest = Arc::new(rt.alloc(), rest).expect(rt, "memory");
        check(
            rt,
            pipeline.sent(LegId(number), Op::Get, rest).is_ok(),
            "sent",
        );
    }
    pipeline
}

/// These legs have landed, in this order, and the leg of this number has a hit.
fn check_landed(rt: &impl Abort, landed: &[Landed], numbers: &[u64], hit: u64) {
    check(rt, landed.len() == numbers.len(), "as many");
    for (found, number) in landed.iter().zip(numbers) {
        check(rt, found.leg == LegId(*number), "its number");
        let is_hit = matches!(found.reply, Reply::Hit { .. });
        check(rt, is_hit == (*number == hit), "its reply");
    }
}

/// The legs that are lost, in this order, and no others.
fn check_lost(rt: &impl Abort, pipeline: &mut Pipeline, numbers: &[u64]) {
    for number in numbers {
        check(rt, pipeline.lost() == Some(LegId(*number)), "lost");
    }
    check(rt, pipeline.lost().is_none(), "no other");
}

#[test]
fn each_leg_lands_with_its_own_reply(rt: HostRuntime) {
    let mut pipeline = pipeline(&rt, 3);
    let mut landed = Vec::new(rt.alloc());
    let first = pipeline.feed(b"END\r\nVALUE a 0 1\r\nx", &mut landed);
    check(&rt, first.is_ok() && pipeline.in_flight() == 2, "one");
    check_landed(&rt, landed.as_slice(), &[1], 2);
    let second = pipeline.feed(b"\r\nEND\r\nEND\r\n", &mut landed);
    check(&rt, second.is_ok() && pipeline.in_flight() == 0, "all");
    check_landed(&rt, landed.as_slice(), &[1, 2, 3], 2);
    check_lost(&rt, &mut pipeline, &[]);
}

#[test]
fn legs_behind_a_fault_are_lost(rt: HostRuntime) {
    let mut pipeline = pipeline(&rt, 3);
    let mut landed = Vec::new(rt.alloc());
    let found = pipeline.feed(b"END\r\nSTORED\r\n", &mut landed);
    check(&rt, found == Err(ReplyFault::NotAReply), "no reply");
    check_landed(&rt, landed.as_slice(), &[1], 0);
    check(&rt, pipeline.in_flight() == 0, "closed");
    check_lost(&rt, &mut pipeline, &[2, 3]);
}

#[test]
fn legs_of_a_connection_that_is_lost_are_lost(rt: HostRuntime) {
    let mut pipeline = pipeline(&rt, 2);
    check_lost(&rt, &mut pipeline, &[]);
    pipeline.close();
    let mut landed = Vec::new(rt.alloc());
    let found = pipeline.feed(b"END\r\n", &mut landed);
    check(&rt, found == Err(ReplyFault::Closed), "closed");
    check_landed(&rt, landed.as_slice(), &[], 0);
    check_lost(&rt, &mut pipeline, &[1, 2]);
}
