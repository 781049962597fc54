//! Legs over one connection: what is to be written for them, and which land or are lost.

use mcv_base::{LegId, LegRequest, Op, Reply, Rest};
use mcv_pipeline::Landed;
use mcv_reply::ReplyFault;
use mcv_upstream::Upstream;
use std::process::Abort;
use std::sync::Arc;

/// What is wanted is so.
fn check(rt: &impl Abort, is_so: bool, what: &str) {
    assert!(rt; is_so, "{what}");
}

/// What a leg of this operation asks for the key `a`.
fn request(rt: &(impl AllocGlobal + Abort), op: Op, body: &[u8]) -> LegRequest {
    let alloc = rt.alloc();
    let rest = Rest::of(b"a").expect(rt, "a key");
    let body = Vec::from_slice(alloc, body).expect(rt, "memory");
    LegRequest {
        op,
        rest: Arc::new(alloc, rest).expect(rt, "memory"),
        flags: 0,
        exptime: 0,
        body: Arc::new(alloc, body).ok().expect(rt, "memory"),
        cas: None,
        delta: 0,
    }
}

/// A connection over which a get, a set and a delete are sent, with the numbers 1 to 3.
fn upstream(rt: &(impl AllocGlobal + Abort)) -> Upstream {
    let mut upstream = Upstream::new(rt.alloc());
    for (number, op, body) in [
        (1, Op::Get, b"".as_slice()),
        (2, Op::Set, b"xyz".as_slice()),
        (3, Op::Delete, b"".as_slice()),
    ] {
        let asked = request(rt, op, body);
        check(rt, upstream.send(LegId(number), &asked).is_ok(), "sent");
    }
    upstream
}

/// These bytes are to be written.
fn check_output(rt: &impl Abort, upstream: &Upstream, wanted: &[u8]) {
    let found = upstream.output();
    assert!(rt; found == wanted, "{found:?}");
}

/// So many of the bytes that wait are written.
fn write(rt: &impl Abort, upstream: &mut Upstream, count: usize) {
    let waiting = upstream.output().len();
    assert!(rt; count <= waiting, "{waiting} bytes wait");
    upstream.wrote(count);
}

/// Legs of these numbers have landed, in this order.
fn check_landed(rt: &impl Abort, landed: &[Landed], numbers: &[u64]) {
    check(rt, landed.len() == numbers.len(), "as many");
    for (found, number) in landed.iter().zip(numbers) {
        check(rt, found.leg == LegId(*number), "its number");
    }
}

/// The legs that are lost, in this order, and no others.
fn check_lost(rt: &impl Abort, upstream: &mut Upstream, numbers: &[u64]) {
    for number in numbers {
        check(rt, upstream.lost() == Some(LegId(*number)), "lost");
    }
    check(rt, upstream.lost().is_none(), "no other");
}

#[test]
fn legs_are_written_in_the_order_of_sending(rt: HostRuntime) {
    let mut upstream = upstream(&rt);
    check(&rt, upstream.in_flight() == 3, "in flight");
    check_output(
        &rt,
        &upstream,
        b"get a\r\nset a 0 0 3\r\nxyz\r\ndelete a\r\n",
    );
    write(&rt, &mut upstream, 9);
    check_output(&rt, &upstream, b"t a 0 0 3\r\nxyz\r\ndelete a\r\n");
    write(&rt, &mut upstream, 26);
    check_output(&rt, &upstream, b"");
    check(&rt, upstream.in_flight() == 3, "still in flight");
}

#[test]
fn each_leg_lands_with_its_own_reply(rt: HostRuntime) {
    let mut upstream = upstream(&rt);
    let mut landed = Vec::new(rt.alloc());
    let first = upstream.feed(b"VALUE a 0 1\r\nx\r\nEND\r\nSTO", &mut landed);
    check(&rt, first.is_ok() && upstream.in_flight() == 2, "one");
    let is_hit = landed
        .iter()
        .all(|found| matches!(found.reply, Reply::Hit { .. }));
    check(&rt, is_hit, "a hit");
    let second = upstream.feed(b"RED\r\nDELETED\r\n", &mut landed);
    check(&rt, second.is_ok() && upstream.in_flight() == 0, "all");
    check_landed(&rt, landed.as_slice(), &[1, 2, 3]);
    check(&rt, upstream.is_open(), "open");
    check_lost(&rt, &mut upstream, &[]);
}

#[test]
fn a_fault_closes_and_loses_what_is_in_flight(rt: HostRuntime) {
    let mut upstream = upstream(&rt);
    let mut landed = Vec::new(rt.alloc());
    let found = upstream.feed(b"END\r\nVALUE a 0 1\r\n", &mut landed);
    check(&rt, found == Err(ReplyFault::NotAReply), "no reply");
    check_landed(&rt, landed.as_slice(), &[1]);
    check(&rt, !upstream.is_open(), "closed");
    check_output(&rt, &upstream, b"");
    check_lost(&rt, &mut upstream, &[2, 3]);
}

#[test]
fn nothing_is_sent_over_a_closed_connection(rt: HostRuntime) {
    let mut upstream = upstream(&rt);
    check_lost(&rt, &mut upstream, &[]);
    upstream.close();
    check(&rt, !upstream.is_open(), "closed");
    check_output(&rt, &upstream, b"");
    let asked = request(&rt, Op::Get, b"");
    let found = upstream.send(LegId(4), &asked);
    check(&rt, found == Err(ReplyFault::Closed), "refused");
    check_output(&rt, &upstream, b"");
    let mut landed = Vec::new(rt.alloc());
    let fed = upstream.feed(b"END\r\n", &mut landed);
    check(&rt, fed == Err(ReplyFault::Closed), "not read");
    check_landed(&rt, landed.as_slice(), &[]);
    check_lost(&rt, &mut upstream, &[1, 2, 3]);
}
