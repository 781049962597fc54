//! Replies of a connection on which several legs are in flight: each leg's own, at every cut.

use crate::protocol::replies::{fault_name, reply_name, wire};
use crate::rows::check;
use mcv_base::{Op, Reply, Rest};
use mcv_reply::{Replies, replies_come_in_order, replies_in_any_cuts};
use std::alloc::Global;
use std::process::Abort;
use std::sync::Arc;

/// Legs, the bytes that come (`|` is CR LF), and the replies in their order.
const IN_ORDER: &str = "get:a get:c; VALUE a 7 3|xyz|END|END| = hit miss
get:a gets:a; VALUE a 0 1|x|END|VALUE a 0 1 9|x|END| = hit hit
get:b get:a; VALUE b 0 8|END|END|END|END| = hit miss
delete:a set:a incr:a touch:a; DELETED|STORED|6|TOUCHED| = deleted stored number touched
set:a get:a; SERVER_ERROR out of memory|END| = fault miss
get:a get:a delete:a; END^  VALUE a 1  0 ||END |DELETED^ = miss hit deleted";

/// The same with bytes that are no reply: the first such byte comes behind `~`.
const BROKEN: &str = "get:a; END|~END| = miss
get:a delete:a; END|S~TORED| = miss
get:a get:b; VALUE a 0 1|x|END|VALUE ~a 0 1|y|END| = hit
delete:a get:a get:b; DELETED|VALUE a 0 1|x~y|END|END| = deleted
; ~END| = ";

/// A line of a table.
#[derive(Clone, Copy)]
struct Row<'a> {
    legs: &'a str,
    text: &'a str,
    answers: &'a str,
}

fn read_row<'a>(rt: &impl Abort, line: &'a str) -> Row<'a> {
    let (legs, behind) = line.split_once("; ").expect(rt, "legs");
    let (text, answers) = behind.split_once(" = ").expect(rt, "answers");
    Row {
        legs,
        text,
        answers,
    }
}

fn rest_of(alloc: Global, key: &str) -> Option<Arc<Rest>> {
    Arc::new(alloc, Rest::of(key.as_bytes())?).ok()
}

/// A leg is sent.
fn send(rt: &(impl AllocGlobal + Abort), replies: &mut Replies, leg: &str) {
    let (op, key) = leg.split_once(":").expect(rt, "a leg");
    let op = Op::named(op.as_bytes()).expect(rt, "an operation");
    let rest = rest_of(rt.alloc(), key).expect(rt, "a key");
    check(rt, replies.sent(op, rest).is_ok(), "sent");
}

/// A connection on which these legs are in flight.
fn connection(rt: &(impl AllocGlobal + Abort), legs: &str) -> Replies {
    let mut replies = Replies::new(rt.alloc());
    for leg in legs.split_whitespace() {
        send(rt, &mut replies, leg);
    }
    replies
}

/// The answer to a piece, in a word.
fn fed(replies: &mut Replies, piece: &[u8], given: &mut Vec<Reply>) -> &'static str {
    match replies.feed(piece, given) {
        Ok(()) => "read",
        Err(fault) => fault_name(fault),
    }
}

fn name_at(given: &[Reply], place: usize) -> &'static str {
    match given.get(place) {
        Some(reply) => reply_name(reply),
        None => "none",
    }
}

/// These are the replies, in this order.
fn check_replies(rt: &impl Abort, given: &[Reply], names: &str) {
    let mut place = 0usize;
    for name in names.split_whitespace() {
        let found = name_at(given, place);
        assert!(rt; found == name, "{name}, not {found}");
        place = place.wrapping_add(1);
    }
    check(rt, place == given.len(), "as many replies");
}

/// The bytes, cut there, are the legs' replies.
fn check_in_order(rt: &(impl AllocGlobal + Abort), row: Row<'_>, bytes: &[u8], cut: usize) {
    let (front, back) = bytes.split_at(cut.min(bytes.len()));
    let mut replies = connection(rt, row.legs);
    let mut given = Vec::new(rt.alloc());
    check(rt, fed(&mut replies, front, &mut given) == "read", "front");
    check(rt, fed(&mut replies, back, &mut given) == "read", "back");
    check_replies(rt, given.as_slice(), row.answers);
    check(rt, replies.in_flight() == 0, "no leg is left");
    check(rt, !replies.has_begun(), "no byte is left");
}

fn check_in_order_line(rt: &(impl AllocGlobal + Abort), line: &str) {
    let row = read_row(rt, line);
    let bytes = wire(rt, row.text);
    for cut in 0..=bytes.len() {
        check_in_order(rt, row, bytes.as_slice(), cut);
    }
}

#[test]
fn each_leg_has_its_own_reply_at_every_cut(rt: HostRuntime) {
    for line in IN_ORDER.lines() {
        check_in_order_line(&rt, line);
    }
    replies_in_any_cuts();
    replies_come_in_order();
}

/// The bytes, cut there, are refused at the byte behind so many.
fn check_broken(
    rt: &(impl AllocGlobal + Abort),
    row: Row<'_>,
    bytes: &[u8],
    good: usize,
    cut: usize,
) {
    let (front, back) = bytes.split_at(cut.min(bytes.len()));
    let mut replies = connection(rt, row.legs);
    let mut given = Vec::new(rt.alloc());
    let first = fed(&mut replies, front, &mut given);
    let second = fed(&mut replies, back, &mut given);
    check(
        rt,
        first == (if cut > good { "refused" } else { "read" }),
        "front",
    );
    check(
        rt,
        second == (if cut > good { "closed" } else { "refused" }),
        "back",
    );
    check_replies(rt, given.as_slice(), row.answers);
    check(rt, replies.in_flight() == 0, "closed");
}

fn check_broken_line(rt: &(impl AllocGlobal + Abort), line: &str) {
    let row = read_row(rt, line);
    let (front, _behind) = row.text.split_once("~").expect(rt, "a wrong byte");
    let good = wire(rt, front).len();
    let bytes = wire(rt, row.text);
    for cut in 0..=bytes.len() {
        check_broken(rt, row, bytes.as_slice(), good, cut);
    }
}

#[test]
fn replies_before_a_wrong_byte_are_given(rt: HostRuntime) {
    for line in BROKEN.lines() {
        check_broken_line(&rt, line);
    }
}

#[test]
fn a_leg_is_sent_behind_a_piece(rt: HostRuntime) {
    let mut replies = connection(&rt, "get:a");
    let mut given = Vec::new(rt.alloc());
    check(
        &rt,
        fed(&mut replies, b"VALUE a 0 1\r\nx", &mut given) == "read",
        "a value",
    );
    check(&rt, replies.has_begun(), "begun");
    send(&rt, &mut replies, "get:b");
    check(&rt, replies.in_flight() == 2, "two legs");
    check(
        &rt,
        fed(&mut replies, b"\r\nEND\r\nEND\r\n", &mut given) == "read",
        "both ends",
    );
    check_replies(&rt, given.as_slice(), "hit miss");
}

#[test]
fn a_lost_connection_reads_nothing(rt: HostRuntime) {
    let mut replies = connection(&rt, "get:a get:b");
    let mut given = Vec::new(rt.alloc());
    check(&rt, replies.is_open(), "open");
    replies.close();
    check(&rt, !replies.is_open(), "lost");
    check(&rt, replies.in_flight() == 0, "no leg is in flight");
    let found = fed(&mut replies, b"END\r\n", &mut given);
    check(&rt, found == "closed", "closed");
    check_replies(&rt, given.as_slice(), "");
}

/// A hit comes. Each allocation may fail here: then no reply is given, and the connection is closed.
fn check_given_or_closed(rt: &impl Abort, replies: &mut Replies, given: &mut Vec<Reply>) {
    let found = fed(replies, b"VALUE a 0 1\r\nx\r\nEND\r\n", given);
    if found == "memory" {
        check_replies(rt, given.as_slice(), "");
        check(rt, fed(replies, b"END\r\n", given) == "closed", "closed");
    } else {
        check(rt, found == "read", "read");
        check_replies(rt, given.as_slice(), "hit");
    }
}

#[test]
fn want_of_memory_closes_the_connection(rt: HostRuntime) {
    let mut replies = Replies::new(rt.alloc());
    let mut given = Vec::new(rt.alloc());
    if let Some(rest) = rest_of(rt.alloc(), "a") {
        match replies.sent(Op::Get, rest) {
            Ok(()) => check_given_or_closed(&rt, &mut replies, &mut given),
            Err(fault) => {
                check(&rt, fault_name(fault) == "memory", "memory");
                check(&rt, replies.in_flight() == 0, "no leg is in flight");
            }
        }
    }
}
