//! Symbols: a hash function with its salt, over a number of servers. Leaves with equal symbols
//! get the same index at every key.

ghost use Rattle.std.specs.Prelude.{◌≡◌, ◌<◌, ◌++◌, MatchOption};
ghost use Rattle.std.proofs.Common.{rules};
ghost use Rattle.std.specs.Cmp.Rules.{comparing, hashing};
ghost use Rattle.std.specs.Hash as fed;
ghost use Rattle.mcv_pools.specs.Symbol.{func_number, same_symbol};

use std::hash::{Hash, Hasher};
use std::marker::Model;

/// A hash function of mcrouter's, by its label.
#[derive(Clone, Copy, PartialEq, Eq)]
pub enum HashFunc {
    Ch3,
    Crc32,
}

impl HashFunc {
    fn number(self) -> u8
        ensures { result ≡ func_number self }
    {
        self as u8
    }
}

/// A hash function and its salt over `n` servers, at least one. Clauses see a `SymbolValue`.
#[derive(Drop)]
pub struct Symbol {
    func: HashFunc,
    salt: Vec<u8>,
    n: usize,
}

impl Model for Symbol {
    ghost use Rattle.std.specs.Prelude.{◌<◌};
    ghost use Rattle.mcv_pools.specs.Symbol.{SymbolValue};

    ghost Value = { SymbolValue };

    ghost view = { λ s. record { func = s.func; salt = s.salt.items; n = s.n } };

    ghost invariant = { λ s. 0 < s.n };
}

impl Symbol {
    /// The symbol, or None where it is over no server.
    pub fn new(func: HashFunc, salt: Vec<u8>, n: usize) -> Option<Symbol>
        ensures { MatchOption result (n ≡ 0) (λ s. (0 < n) × (s ≡ record { func = func; salt = salt.items; n = n })) }
    {
        if n == 0 {
            return None;
        }
        Some(Symbol { func, salt, n })
    }

    /// Its hash function.
    pub fn func(&self) -> HashFunc
        ensures { result ≡ self.now.func }
    {
        self.func
    }

    /// What is hashed behind the hashed part of a key.
    pub fn salt(&self) -> &[u8]
        ensures { result.now ≡ self.now.salt }
    {
        self.salt.as_slice()
    }

    /// The number of servers.
    pub fn n(&self) -> usize
        ensures value { result ≡ self.now.n }
        ensures some { 0 < self.now.n }
    {
        self.n
    }
}

impl PartialEq for Symbol {
    ghost eq = { same_symbol };

    ghost laws = { Prim.search (comparing, rules) };

    fn eq(&self, other: &Symbol) -> bool {
        self.func.number() == other.func.number() && self.salt == other.salt && self.n == other.n
    }
}

impl Eq for Symbol {
    ghost laws = { Prim.search (comparing, rules) };
}

impl Hash for Symbol {
    ghost hash_input = { λ s. fed.u8 (func_number s.func) ++ fed.slice fed.u8 s.salt ++ fed.usize s.n };

    ghost respects_eq = { Prim.search (hashing, rules) };

    fn hash<H: Hasher>(&self, state: &mut H) {
        self.func.number().hash(state);
        self.salt.hash(state);
        self.n.hash(state);
    }
}
