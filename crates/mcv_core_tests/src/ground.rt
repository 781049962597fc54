//! What all lists of events over one configuration share: its routes, the keys, and the servers that can be read.

use crate::readable::push_readable;
use crate::setup::accepted_of;
use mcv_base::{Moment, Op, Rest, ServerId, hashed_part, split_key};
use mcv_check::Accepted;
use mcv_pools::{Choice, Fnv, choose};
use mcv_route::{Route, Routes};
use std::process::Abort;
use std::sync::Arc;

/// A key word, with what its call asks by.
#[derive(Drop)]
pub(crate) struct Key {
    pub(crate) word: &'static [u8],
    /// None where no route has its prefix.
    pub(crate) route: Option<usize>,
    pub(crate) rest: Rest,
    pub(crate) choice: Choice,
}

/// The servers that a get, gets, incr or decr of the key could be answered by, in one era.
#[derive(Drop)]
struct Readable {
    key: usize,
    since: Option<Moment>,
    servers: Vec<ServerId>,
}

#[derive(Drop)]
pub(crate) struct Ground {
    pub(crate) accepted: Arc<Accepted>,
    pub(crate) keys: Vec<Key>,
    readable: Vec<Readable>,
}

/// The words of the keys.
const WORDS: [&[u8]; 3] = [b"a", b"ab|#|c", b"/x/y/bb"];

fn key_of(rt: &(impl AllocGlobal + Abort), routes: &Routes, word: &'static [u8]) -> Key {
    let (prefix, rest) = split_key(word).expect(rt, "a key");
    let choice = choose(rt.alloc(), &Fnv, routes.symbols(), hashed_part(&rest));
    Key {
        word,
        route: routes.route_of(&prefix),
        rest,
        choice: choice.expect(rt, "memory"),
    }
}

fn keys_of(rt: &(impl AllocGlobal + Abort), routes: &Routes) -> Vec<Key> {
    let mut keys = Vec::new(rt.alloc());
    for word in WORDS {
        keys.push(key_of(rt, routes, word)).expect(rt, "memory");
    }
    keys
}

/// The route of a key.
fn route_of<'a>(routes: &'a Routes, key: &Key) -> Option<&'a Route> {
    routes.route(key.route?)
}

/// The servers that can be read of a key in an era.
fn servers_of(
    rt: &(impl AllocGlobal + Abort),
    routes: &Routes,
    key: &Key,
    since: Option<Moment>,
) -> Vec<ServerId> {
    let mut servers = Vec::new(rt.alloc());
    if let Some(route) = route_of(routes, key) {
        for op in [Op::Get, Op::Gets, Op::Incr, Op::Decr] {
            push_readable(rt, route, op, key, since, &mut servers);
        }
    }
    servers
}

impl Ground {
    /// None where the routes aren't covered.
    pub(crate) fn of(rt: &(impl AllocGlobal + Abort), text: &str) -> Option<Ground> {
        let accepted = accepted_of(rt, text)?;
        let keys = keys_of(rt, accepted.routes());
        Some(Ground {
            accepted,
            keys,
            readable: Vec::new(rt.alloc()),
        })
    }

    /// Takes in what can be read of each key.
    pub(crate) fn read(&mut self, rt: &(impl AllocGlobal + Abort)) {
        for key in 0..self.keys.len() {
            self.read_key(rt, key);
        }
    }

    /// Takes in what can be read of a key, era by era.
    fn read_key(&mut self, rt: &(impl AllocGlobal + Abort), key: usize) {
        self.read_in(rt, key, None);
        for place in 0..self.routes().breaks().len() {
            let since = self.routes().breaks().get(place).copied();
            self.read_in(rt, key, since);
        }
    }

    fn read_in(&mut self, rt: &(impl AllocGlobal + Abort), number: usize, since: Option<Moment>) {
        let key = self.keys.get(number).expect(rt, "a key");
        let row = Readable {
            key: number,
            since,
            servers: servers_of(rt, self.routes(), key, since),
        };
        self.readable.push(row).expect(rt, "memory");
    }

    pub(crate) fn routes(&self) -> &Routes {
        self.accepted.routes()
    }

    /// The route of a key.
    pub(crate) fn route(&self, key: &Key) -> Option<&Route> {
        route_of(self.routes(), key)
    }

    /// The servers that can be read of a key in an era.
    pub(crate) fn readable(&self, key: usize, since: Option<Moment>) -> &[ServerId] {
        for row in &self.readable {
            if row.key == key && row.since == since {
                return row.servers.as_slice();
            }
        }
        &[]
    }
}
