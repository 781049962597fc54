//! Bytes that wait to be written.

ghost use Rattle.std.specs.Prelude.{◌≡◌, ◌≤◌, ◌-◌, ◌++◌, [], length, drop, take, OnOk, OnErr};

use std::alloc::{AllocError, Global};
use std::marker::Model;

/// The most bytes of room that are kept where nothing waits, and the least that are given back before.
const KEPT: usize = 4096;

/// Bytes that wait to be written, from the first on. Clauses see them.
#[derive(Drop)]
pub struct Outgoing {
    alloc: Global,
    bytes: Vec<u8>,
    /// So many of them are written.
    at: usize,
}

impl Model for Outgoing {
    ghost use Rattle.std.specs.Prelude.{◌≤◌, length, drop, List, ℕ};

    ghost Value = { List ℕ };

    ghost view = { λ o. drop o.at o.bytes.items };

    ghost invariant = { λ o. o.at ≤ length o.bytes.items };
}

impl Outgoing {
    /// Nothing waits. It takes no memory.
    pub fn new(alloc: Global) -> Outgoing
        ensures { result ≡ [] }
    {
        Outgoing {
            alloc,
            bytes: Vec::new(alloc),
            at: 0,
        }
    }

    /// What waits, from its first byte on.
    pub fn bytes(&self) -> &[u8]
        ensures { result.now ≡ self.now }
    {
        &self.bytes.as_slice()[self.at..]
    }

    /// These bytes wait behind the others. An error is that memory ran out.
    pub fn push(&mut self, text: &[u8]) -> Result<(), AllocError>
        ensures ok { OnOk result (self.new ≡ self.old ++ text.now) }
        ensures err { OnErr result (self.new ≡ self.old) }
    {
        self.bytes.extend_from_slice(text)
    }

    /// The last `count` bytes wait no more, and weren't written.
    pub fn withdraw(&mut self, count: usize)
        requires { count ≤ length self.old }
        ensures { self.new ≡ take (length self.old - count) self.old }
    {
        let left = self.bytes.len() - count;
        self.bytes.truncate(left);
    }

    /// The first `count` are written.
    pub fn wrote(&mut self, count: usize)
        requires { count ≤ length self.old }
        ensures { self.new ≡ drop count self.old }
    {
        self.skip(count);
        self.settle();
    }

    fn skip(&mut self, count: usize)
        requires { count ≤ length self.old }
        ensures { self.new ≡ drop count self.old }
    {
        self.at += count;
    }

    /// Gives back the room of the written bytes, once they are as many as the others. Where there is no memory for that, it
    /// is given back later.
    fn settle(&mut self)
        ensures { self.new ≡ self.old }
    {
        if self.at < KEPT || self.at < self.bytes().len() {
            return;
        }
        let Ok(left) = Vec::from_slice(self.alloc, self.bytes()) else {
            return;
        };
        self.bytes = left;
        self.at = 0;
    }

    /// All are written. Room of more than 4,096 bytes is given back.
    pub fn clear(&mut self)
        ensures { self.new ≡ [] }
    {
        self.bytes.clear();
        self.bytes.shrink_to(KEPT);
        self.at = 0;
    }
}
