//! What a row does with a loop: clients send, rounds pass, and it is looked at what clients were told.

use crate::counter::Counter;
use crate::memory::{Asked, Memory, Talk};
use mcv_hubs::{HubNames, Names};
use mcv_loop::Loop;
use std::cell::RefCell;
use std::process::Abort;
use std::rc::Rc;
use std::sync::Wait;

/// A loop over memory.
pub(crate) type Looping<'a, F, G> = Loop<'a, F, G, Memory, Counter>;

/// What a client is yet to send and was told.
fn talk_of<F: HubNames, G: Names>(
    rt: &impl Abort,
    looping: &mut Looping<'_, F, G>,
    client: usize,
) -> Rc<RefCell<Talk>> {
    let found = looping.sources().clients.get(client);
    found
        .expect(rt, "a client")
        .talk
        .clone()
        .expect(rt, "memory")
}

/// A client sends these bytes.
pub(crate) fn send<F: HubNames, G: Names>(
    rt: &impl Abort,
    looping: &mut Looping<'_, F, G>,
    client: usize,
    bytes: &[u8],
) {
    let talk = talk_of(rt, looping, client);
    let mut talk = talk.try_borrow_mut().ok().expect(rt, "a talk");
    talk.send(bytes).expect(rt, "memory");
}

/// A client goes once all that it sent is read.
pub(crate) fn go<F: HubNames, G: Names>(
    rt: &impl Abort,
    looping: &mut Looping<'_, F, G>,
    client: usize,
) {
    let talk = talk_of(rt, looping, client);
    talk.try_borrow_mut().ok().expect(rt, "a talk").go();
}

/// A client takes nothing from now on.
pub(crate) fn be_deaf<F: HubNames, G: Names>(
    rt: &impl Abort,
    looping: &mut Looping<'_, F, G>,
    client: usize,
) {
    let talk = talk_of(rt, looping, client);
    talk.try_borrow_mut().ok().expect(rt, "a talk").is_deaf = true;
}

/// So many rounds, with none of which the loop ends.
pub(crate) fn rounds<F: HubNames, G: Names, R: Wait + Abort>(
    rt: &R,
    looping: &mut Looping<'_, F, G>,
    count: usize,
) {
    for _round in 0..count {
        let left = looping.round(rt);
        assert!(rt; left == Ok(None), "it ended: {left:?}");
    }
}

/// An end is asked for.
pub(crate) fn end<F: HubNames, G: Names>(looping: &mut Looping<'_, F, G>, asked: Asked) {
    looping.sources().asked = Some(asked);
}

/// Rounds until the loop ends, so many at most. So many legs are left.
pub(crate) fn check_end<F: HubNames, G: Names, R: Wait + Abort>(
    rt: &R,
    looping: &mut Looping<'_, F, G>,
    most: usize,
    wanted: usize,
) {
    for _round in 0..most {
        let left = looping.round(rt).ok().expect(rt, "a round");
        if let Some(left) = left {
            assert!(rt; left == wanted, "{left} legs are left");
            return;
        }
    }
    panic!(rt; "it doesn't end");
}

/// What a client was told.
pub(crate) fn check_told<F: HubNames, G: Names>(
    rt: &impl Abort,
    looping: &mut Looping<'_, F, G>,
    client: usize,
    wanted: &[u8],
) {
    let talk = talk_of(rt, looping, client);
    let talk = talk.try_borrow().ok().expect(rt, "a talk");
    let told = talk.told.as_slice();
    assert!(rt; told == wanted, "client {client} was told {told:?}");
}

/// Whether a client's connection is closed.
pub(crate) fn check_closed<F: HubNames, G: Names>(
    rt: &impl Abort,
    looping: &mut Looping<'_, F, G>,
    client: usize,
    wanted: bool,
) {
    let found = looping.sources().clients.get(client);
    let is_closed = found.expect(rt, "a client").is_closed();
    assert!(rt;
        is_closed == wanted,
        "client {client} is closed: {is_closed}"
    );
}

/// What all servers were asked, each after the other.
pub(crate) fn check_asked<F: HubNames, G: Names>(
    rt: &(impl AllocGlobal + Abort),
    looping: &mut Looping<'_, F, G>,
    wanted: &str,
) {
    let mut asked = String::new(rt.alloc());
    for station in looping.sources().stations.iter() {
        let station = station.try_borrow().ok().expect(rt, "a server");
        let text = station.memcached.asked.as_str();
        asked.push_str(text).expect(rt, "memory");
    }
    let asked = asked.as_str();
    assert!(rt; asked == wanted, "they were asked {asked}");
}
