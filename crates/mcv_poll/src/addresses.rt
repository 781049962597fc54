//! Which address of a server a connection is begun to.

ghost use Rattle.std.specs.Prelude.{◌≡◌, ◌≢◌, ◌<◌, [], Some, slice_get, vec_len, IfSome, IsTrue, ◌↔◌};
ghost use Rattle.mcv_poll.specs.Addresses.{IsPlaceOf, behind};

use std::net::SocketAddr;

/// The place behind this one among so many; the first one behind the last.
fn next_place(place: usize, count: usize) -> usize
    ensures { result ≡ behind place count }
{
    if place < count && count - place > 1 {
        place + 1
    } else {
        0
    }
}

/// The addresses of a server, of which one is the next to be tried.
#[derive(Drop)]
pub(crate) struct Addresses {
    all: Vec<SocketAddr>,
    next: usize,
}

impl Addresses {
    /// The first one is tried first.
    pub(crate) fn new(all: Vec<SocketAddr>) -> Addresses
        ensures { (result.all ≡ all) × (result.next ≡ 0) }
    {
        Addresses { all, next: 0 }
    }

    pub(crate) fn count(&self) -> usize
        ensures { result ≡ vec_len self.now.all }
    {
        self.all.len()
    }

    /// The one to be tried next; None where there is none.
    pub(crate) fn next(&self) -> Option<SocketAddr>
        ensures { result ≡ slice_get self.now.all.items self.now.next }
    {
        self.all.get(self.next).copied()
    }

    /// A connection to this address came to nothing. Where it is the one to be tried next, the one behind it is.
    pub(crate) fn pass_over(&mut self, failed: SocketAddr)
        ensures passed { slice_get self.old.all.items self.old.next ≡ Some failed → self.new.next ≡ behind self.old.next (vec_len self.old.all) }
        ensures another { slice_get self.old.all.items self.old.next ≢ Some failed → self.new.next ≡ self.old.next }
        ensures all { self.new.all ≡ self.old.all }
    {
        let Some(next) = self.next() else {
            return;
        };
        if is_same(next, failed) {
            self.next = next_place(self.next, self.all.len());
        }
    }

    /// The server has these addresses now, unless there are none. The one to be tried next stays it where it is among them.
    pub(crate) fn renew(&mut self, found: Vec<SocketAddr>)
        ensures none { found.items ≡ [] → self.new ≡ self.old }
        ensures found { 0 < vec_len found → self.new.all ≡ found }
        ensures stays { 0 < vec_len found → IfSome (slice_get self.old.all.items self.old.next) (λ next. IsPlaceOf found.items next self.new.next) }
    {
        if found.is_empty() {
            return;
        }
        self.next = match self.next() {
            Some(address) => place_of(&found, address),
            None => 0,
        };
        self.all = found;
    }
}

/// The place of an address, 0 where it isn't there.
fn place_of(addresses: &[SocketAddr], address: SocketAddr) -> usize
    ensures { IsPlaceOf addresses.now address result }
{
    for place in 0..addresses.len() {
        if is_same(addresses[place], address) {
            return place;
        }
    }
    0
}

fn is_same(one: SocketAddr, other: SocketAddr) -> bool
    ensures { IsTrue result ↔ (one ≡ other) }
{
    one == other
}
