//! Names with their numbers: each name once, in the order in which they came.

ghost use Rattle.std.specs.Prelude.{◌≡◌, [], OnOk, bytes_eq};
ghost use Rattle.mcv_pools.specs.Table.{number_in, with_entry};

use indexmap::IndexSet;
use std::alloc::{AllocError, Global};
use std::marker::Model;

/// Names, none twice. Clauses see the list of them, in the order of their numbers.
#[derive(Drop)]
pub struct NameTable {
    names: IndexSet<String>,
}

impl Model for NameTable {
    ghost use Rattle.std.specs.Prelude.{List, ℕ, map, string_bytes};
    ghost use Rattle.std.specs.Coded.{coded_ℕ, coded_list};

    ghost Value = { List (List ℕ) };

    ghost coded = { coded_list (coded_list coded_ℕ) };

    ghost view = { λ t. map (λ n. string_bytes n) t.names.keys };
}

impl NameTable {
    /// A table with no name.
    pub fn new(alloc: Global) -> Self
        ensures { result ≡ [] }
    {
        NameTable {
            names: IndexSet::new(alloc),
        }
    }

    /// A name goes last, where it isn't there yet.
    pub fn insert(&mut self, name: &str) -> Result<(), AllocError>
        ensures { OnOk result (self.new ≡ with_entry bytes_eq self.old name.now) }
    {
        let owned = String::from_str(*self.names.allocator(), name)?;
        self.names.insert(owned)?;
        Ok(())
    }

    /// The number of a name, if it is there.
    pub fn find(&self, name: &str) -> Option<usize>
        ensures { result ≡ number_in bytes_eq self.now name.now }
    {
        self.names.get_index_of(name)
    }
}
