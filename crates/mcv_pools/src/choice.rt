//! Choices: the index that each symbol of a table gets at one key.

ghost use Rattle.std.specs.Prelude.{◌≡◌, IfOk, slice_index};
ghost use Rattle.mcv_pools.specs.Choice.{HasIndexEach, chosen_each};

use crate::hash::KeyHash;
use crate::symbols::Symbols;
use std::alloc::{AllocError, Global};
use std::marker::Model;

/// One index for each symbol, in the order of the table. Clauses see the list of them.
#[derive(Drop)]
pub struct Choice {
    indexes: Vec<usize>,
}

impl Model for Choice {
    ghost use Rattle.std.specs.Prelude.{List, ℕ};
    ghost use Rattle.std.specs.Coded.{coded_ℕ, coded_list};

    ghost Value = { List ℕ };

    ghost coded = { coded_list coded_ℕ };

    ghost view = { λ c. c.indexes.items };
}

impl Choice {
    /// The choice of these indexes.
    pub fn new(indexes: Vec<usize>) -> Self
        ensures { result ≡ indexes.items }
    {
        Choice { indexes }
    }

    /// The index of a symbol, by the symbol's number; 0 past the end.
    pub fn index(&self, symbol: usize) -> usize
        ensures { result ≡ slice_index self.now symbol }
    {
        self.indexes.get(symbol).copied().unwrap_or(0)
    }
}

/// The choice that a hash makes at a hashed part: for each symbol an index below its number of servers.
pub fn choose<H: KeyHash>(
    alloc: Global,
    hash: &H,
    symbols: &Symbols,
    part: &[u8],
) -> Result<Choice, AllocError>
    ensures value { IfOk result (λ choice. choice ≡ chosen_each (H.chosen hash.now) symbols.now part.now) }
    ensures within { IfOk result (λ choice. HasIndexEach symbols.now choice) }
{
    let mut indexes = Vec::with_capacity(alloc, symbols.len())?;
    for symbol in symbols.as_slice() {
        indexes.push(hash.index(symbol, part))?;
    }
    Ok(Choice { indexes })
}
