//! Which hub a key has.

ghost use Rattle.std.specs.Prelude.{◌≡◌, ◌<◌, ◌≤◌, None, IfOk, IfSome};
ghost use Rattle.mcv_core.specs.Asking.{HasNoKey, IsKeyOf};
ghost use Rattle.mcv_hubs.specs.Choice.{IsHubOf, hub_number, records_at};

use mcv_base::{Op, Request, Rest, cut_key};
use mcv_pools::{Fnv, HashFunc, KeyHash, Symbol};
use mcv_spool::SpoolRecord;
use std::alloc::{AllocError, Global};
use std::marker::Model;

/// The most hubs.
pub const MOST_HUBS: usize = 8;

/// Picks the hub of a rest, among 1 to 8. Clauses see how many there are.
#[derive(Drop)]
pub struct HubChoice {
    /// Its servers are the hubs.
    symbol: Symbol,
}

impl Model for HubChoice {
    ghost use Rattle.std.specs.Prelude.{ℕ, ◌≡◌, ◌<◌, ◌≤◌, []};
    ghost use Rattle.std.specs.Coded.{coded_ℕ};

    ghost Value = { ℕ };

    ghost coded = { coded_ℕ };

    ghost view = { λ c. c.symbol.n };

    ghost invariant = { λ c. (c.symbol.salt ≡ []) × (0 < c.symbol.n) × (c.symbol.n ≤ 8) };
}

impl HubChoice {
    /// The choice among so many hubs; None where it is none, or more than eight.
    pub fn new(alloc: Global, hubs: usize) -> Option<HubChoice>
        ensures some { IfSome result (λ c. (c ≡ hubs) × (0 < hubs) × (hubs ≤ 8)) }
        ensures none { result ≡ None → 0 < hubs → 8 < hubs }
    {
        if hubs > MOST_HUBS {
            return None;
        }
        match Symbol::new(HashFunc::Ch3, Vec::new(alloc), hubs) {
            Some(symbol) => Some(HubChoice { symbol }),
            None => None,
        }
    }

    /// How many hubs there are.
    pub fn hubs(&self) -> usize
        ensures hubs { result ≡ self.now }
        ensures some { 0 < result }
        ensures most { result ≤ 8 }
    {
        self.symbol.n()
    }

    /// The number of the hub of a rest.
    pub fn hub_of(&self, rest: &Rest) -> usize
        ensures hub { result ≡ hub_number self.now rest.now }
        ensures there { result < self.now }
    {
        self.hub_of_bytes(rest.as_bytes())
    }

    /// The number of the hub of a rest of these bytes.
    fn hub_of_bytes(&self, rest: &[u8]) -> usize
        ensures hub { result ≡ hub_number self.now rest.now }
        ensures there { result < self.now }
        ensures most { self.now ≤ 8 }
    {
        Fnv.index(&self.symbol, rest)
    }

    /// The number of the hub of one key of a request, counted from 0; that of a word that is no key is 0.
    pub fn hub_of_key(&self, request: &Request, key: usize) -> usize
        ensures hub { IsHubOf self.now request.now key result }
        ensures there { result < self.now }
        ensures most { self.now ≤ 8 }
    {
        let _symbol = &self.symbol;
        match key_of(request, key) {
            Some((_op, _prefix, rest)) => self.hub_of_bytes(rest),
            None => 0,
        }
    }

    /// The records of this hub, in their order.
    pub fn records_at(
        &self,
        alloc: Global,
        hub: usize,
        records: &[(u64, SpoolRecord)],
    ) -> Result<Vec<(u64, SpoolRecord)>, AllocError>
        ensures { IfOk result (λ found. found.items ≡ records_at self.now hub records.now) }
    {
        let mut found = Vec::new(alloc);
        for (number, record) in records {
            if self.hub_of(&record.rest) == hub {
                found.push((*number, record.copied()))?;
            }
        }
        Ok(found)
    }
}

/// The operation of a request, and the prefix and the rest of one of its keys, counted from 0.
fn key_of(request: &Request, key: usize) -> Option<(Op, &[u8], &[u8])>
    ensures some { IfSome result (λ k. IsKeyOf request.now key k.0 k.1.now k.2.now) }
    ensures none { result ≡ None → HasNoKey request.now key }
{
    let Request::Ask(ask) = request else {
        return None;
    };
    let word = ask.keys.get(key)?;
    match cut_key(word.as_slice()) {
        Ok((prefix, rest)) => Some((ask.op, prefix, rest)),
        Err(_) => None,
    }
}
