//! What travels between threads may travel: readers, requests, legs and replies.

use crate::legs::leg_of;
use crate::rows::check;
use mcv_base::{LegRequest, Op, Outcome, Parts, Reply, Request, Rest, ServerText};
use mcv_reply::{ProbeReader, Replies, ReplyReader};
use mcv_text::{Item, RequestReader};
use std::process::Abort;
use std::sync::Arc;
use std::thread;
use std::thread::Threads;

/// A value that another thread had and has given back.
pub fn moved<T: Send + Drop + 'static>(rt: &(impl Threads + Abort), value: T) -> T {
    let child = thread::spawn(rt, move || value).expect(rt, "a thread");
    child.join(rt)
}

#[test]
fn a_request_reader_is_moved(rt: HostRuntime) {
    let mut reader = moved(&rt, RequestReader::new(rt.alloc()));
    let items = reader.feed(b"get a\r\n").expect(&rt, "items");
    check(&rt, items.len() == 1, "one item");
}

/// A reader of the reply to a delete of `a`.
fn reply_reader(rt: &(impl AllocGlobal + Abort)) -> ReplyReader {
    let rest = Rest::of(b"a").expect(rt, "a rest");
    let rest = Arc::new(rt.alloc(), rest).expect(rt, "memory");
    ReplyReader::new(rt.alloc(), Op::Delete, rest)
}

fn is_deleted(reader: &mut ReplyReader) -> bool {
    matches!(reader.feed(b"DELETED\r\n"), Ok(Some(Reply::Deleted)))
}

#[test]
fn readers_of_replies_are_moved(rt: HostRuntime) {
    let mut reader = moved(&rt, reply_reader(&rt));
    check(&rt, is_deleted(&mut reader), "deleted");
    let mut probe = moved(&rt, ProbeReader::new(rt.alloc()));
    check(&rt, probe.feed(b"VERSION 1\r\n").is_ok(), "the version");
    let mut replies = moved(&rt, Replies::new(rt.alloc()));
    let mut given = Vec::new(rt.alloc());
    check(&rt, replies.feed(b"", &mut given).is_ok(), "nothing");
}

#[test]
fn parts_are_moved(rt: HostRuntime) {
    let parts = Parts::new(rt.alloc(), Reply::NotFound).expect(&rt, "memory");
    check(&rt, moved(&rt, parts).outcome() == Outcome::Soft, "soft");
}

/// A request to delete `a`.
fn request(rt: &(impl AllocGlobal + Abort)) -> Request {
    let mut items = RequestReader::new(rt.alloc())
        .feed(b"delete a\r\n")
        .expect(rt, "items");
    match items.pop() {
        Some(Item::Asked(request)) => request,
        _ => panic!(rt; "no request"),
    }
}

fn is_of_one_key(request: &Request) -> bool {
    matches!(request, Request::Ask(ask) if ask.keys.len() == 1)
}

#[test]
fn requests_are_moved(rt: HostRuntime) {
    let request = moved(&rt, request(&rt));
    check(&rt, is_of_one_key(&request), "one key");
}

/// The leg that sends a request on.
fn leg(rt: &(impl AllocGlobal + Abort), request: &Request) -> LegRequest {
    match request {
        Request::Ask(ask) => leg_of(rt.alloc(), ask).expect(rt, "a leg"),
        Request::Version | Request::Quit => panic!(rt; "no request"),
    }
}

#[test]
fn legs_and_servers_are_moved(rt: HostRuntime) {
    let leg = leg(&rt, &request(&rt));
    check(&rt, moved(&rt, leg).op.is_delete(), "a delete");
    let server = ServerText::of(b"a:1").expect(&rt, "a server");
    check(
        &rt,
        moved(&rt, server).as_bytes() == b"a:1".as_slice(),
        "a:1",
    );
}
