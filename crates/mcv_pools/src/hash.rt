//! Hashes: the index of a server for a symbol and the hashed part of a key, by FNV-1a or by a
//! table for tests.

ghost use Rattle.std.specs.Prelude.{◌≡◌, ◌<◌, ℕ, List, ◌++◌, map};
ghost use Rattle.std.proofs.Common.{arith};
ghost use Rattle.mcv_pools.specs.Hash.{fnv, fnv_index, listed, listed_index, next_hash};
ghost use Rattle.mcv_pools.specs.Symbol.{SymbolValue};

use crate::symbol::Symbol;
use std::marker::Model;

const OFFSET_BASIS: u64 = 14_695_981_039_346_656_037;

const FNV_PRIME: u64 = 1_099_511_628_211;

/// Picks one of a symbol's servers by the hashed part of a key.
pub trait KeyHash {
    /// The index that a symbol and a hashed part get.
    ghost chosen: { Self → SymbolValue → List ℕ → ℕ };

    /// The index of a server, from 0.
    fn index(&self, symbol: &Symbol, part: &[u8]) -> usize
        ensures { result ≡ chosen self.now symbol.now part.now };

    /// It is below the number of servers.
    ghost within: { (hash : Self) (symbol : SymbolValue) (part : List ℕ) → 0 < symbol.n → chosen hash symbol part < symbol.n };
}

/// FNV-1a in 64 bits over the hashed part and the salt behind it, modulo the number of servers.
#[derive(Clone, Copy)]
pub struct Fnv;

impl KeyHash for Fnv {
    ghost chosen = { λ _ symbol part. fnv_index symbol part };

    ghost within = { λ hash symbol part h. Prim.omega arith };

    fn index(&self, symbol: &Symbol, part: &[u8]) -> usize {
        (fnv_of(part, symbol.salt()) % symbol.n() as u64) as usize
    }
}

/// The hash of these bytes and those behind them.
fn fnv_of(part: &[u8], salt: &[u8]) -> u64
    ensures { result ≡ fnv (part.now ++ salt.now) }
{
    let of_part = part.iter().fold(OFFSET_BASIS, fnv_step);
    salt.iter().fold(of_part, fnv_step)
}

fn fnv_step(hash: u64, byte: &u8) -> u64
    ensures { result ≡ next_hash hash byte.now }
{
    (hash ^ u64::from(*byte)).wrapping_mul(FNV_PRIME)
}

/// The index of each listed part, for tests. A part that isn't listed has index 0, and an index counts modulo the
/// number of servers. Clauses see the list.
#[derive(Drop)]
pub struct TableHash {
    rows: Vec<(Vec<u8>, usize)>,
}

impl Model for TableHash {
    ghost use Rattle.std.specs.Prelude.{List, ℕ, map};
    ghost use Rattle.std.specs.Coded.{coded_ℕ, coded_list, coded×};

    ghost Value = { List (List ℕ × ℕ) };

    ghost coded = { coded_list (coded× (coded_list coded_ℕ) coded_ℕ) };

    ghost view = { λ t. map (λ row. (row.0.items, row.1)) t.rows.items };
}

impl TableHash {
    /// The hash of these rows, each a hashed part and its index.
    pub fn new(rows: Vec<(Vec<u8>, usize)>) -> Self
        ensures { result ≡ map (λ row. (row.0.items, row.1)) rows.items }
    {
        TableHash { rows }
    }

    fn listed(&self, part: &[u8]) -> usize
        ensures { result ≡ listed self.now part.now }
    {
        for (listed, index) in &self.rows {
            if listed.as_slice() == part {
                return *index;
            }
        }
        0
    }
}

impl KeyHash for TableHash {
    ghost chosen = { λ hash symbol part. listed_index hash symbol part };

    ghost within = { λ hash symbol part h. Prim.omega arith };

    fn index(&self, symbol: &Symbol, part: &[u8]) -> usize {
        self.listed(part) % symbol.n()
    }
}
