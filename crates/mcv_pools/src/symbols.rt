//! The table of symbols: each with its number, in the order in which they first came.

ghost use Rattle.std.specs.Prelude.{◌≡◌, ◌<◌, [], length, All, IfOk, OnOk, OnErr, IsOk, true, Some, slice_get, option_copied};
ghost use Rattle.mcv_pools.specs.Symbol.{same_symbol};
ghost use Rattle.mcv_pools.specs.Table.{IsOneToOne, is_in, number_in, with_entry};

use crate::symbol::Symbol;
use indexmap::IndexSet;
use std::alloc::{AllocError, Global};
use std::marker::Model;

/// Symbols, none twice, each over at least one server. Clauses see the list of them, in the order of their numbers.
#[derive(Drop)]
pub struct Symbols {
    symbols: IndexSet<Symbol>,
}

impl Model for Symbols {
    ghost use Rattle.std.specs.Prelude.{List, ◌<◌, All};
    ghost use Rattle.mcv_pools.specs.Symbol.{SymbolValue};

    ghost Value = { List SymbolValue };

    ghost view = { λ s. s.symbols.keys };

    ghost invariant = { λ s. All (λ symbol. 0 < symbol.n) s.symbols.keys };
}

impl Symbols {
    /// A table with no symbol.
    pub fn new(alloc: Global) -> Self
        ensures { result ≡ [] }
    {
        Symbols {
            symbols: IndexSet::new(alloc),
        }
    }

    /// The number of a symbol, which goes last where it isn't there yet. A symbol that is there needs no memory,
    /// and an error leaves the table as it was.
    pub fn insert(&mut self, symbol: Symbol) -> Result<usize, AllocError>
        ensures table { OnOk result (self.new ≡ with_entry same_symbol self.old symbol) }
        ensures number { IfOk result (λ i. number_in same_symbol self.new symbol ≡ Some i) }
        ensures place { IfOk result (λ i. slice_get self.new i ≡ Some symbol) }
        ensures known { is_in same_symbol self.old symbol ≡ true → IsOk result }
        ensures unchanged { OnErr result (self.new ≡ self.old) }
    {
        let _servers = symbol.n();
        let (number, _) = self.symbols.insert_full(symbol)?;
        Ok(number)
    }

    /// The symbol of a number, if it is one of the table.
    pub fn get(&self, number: usize) -> Option<&Symbol>
        ensures { option_copied result ≡ slice_get self.now number }
    {
        self.symbols.get_index(number)
    }

    /// The number of a symbol, if it is there.
    pub fn find(&self, symbol: &Symbol) -> Option<usize>
        ensures { result ≡ number_in same_symbol self.now symbol.now }
    {
        self.symbols.get_index_of(symbol)
    }

    /// The number of symbols.
    pub fn len(&self) -> usize
        ensures value { result ≡ length self.now }
        ensures one_to_one { IsOneToOne self.now }
    {
        self.symbols.len()
    }

    /// The symbols, in the order of their numbers.
    pub fn as_slice(&self) -> &[Symbol]
        ensures value { result.now ≡ self.now }
        ensures some { All (λ symbol. 0 < symbol.n) self.now }
    {
        self.symbols.as_slice()
    }
}
