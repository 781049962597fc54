//! The table of servers: the texts of a configuration's servers, each with its number, in the
//! order in which they first came.

ghost use Rattle.std.specs.Prelude.{◌≡◌, ◌≤◌, ◌↔◌, [], length, IfOk, OnOk, OnErr, IsOk, IsErrOf, true, false, slice_get};
ghost use Rattle.std.specs.Option.{option_map};
ghost use Rattle.std.specs.Str.{bytes_eq};
ghost use Rattle.mcv_pools.specs.declared.servers.ServersFault.TheVariants.{Memory};
ghost use Rattle.mcv_pools.specs.Table.{IsOneToOne, is_in, number_in, server_limit, with_entry};

use indexmap::IndexSet;
use mcv_base::ServerId;
use std::alloc::{AllocError, AllocFailed, Global};
use std::marker::Model;
use thiserror::Error;

/// The most servers of a table.
const SERVER_LIMIT: usize = 65_536;

/// Why a server got no number.
#[derive(Clone, Copy, Debug, PartialEq, Eq, Error)]
pub enum ServersFault {
    #[error("more than 65536 servers")]
    Full,
    #[error("out of memory")]
    Memory,
}

impl From<AllocError> for ServersFault {
    ghost from_gives = { λ _ e. e ≡ Memory };

    fn from(_fault: AllocError) -> ServersFault {
        ServersFault::Memory
    }
}

impl<T: Drop> From<AllocFailed<T>> for ServersFault {
    ghost from_gives = { λ _ e. e ≡ Memory };

    fn from(_fault: AllocFailed<T>) -> ServersFault {
        ServersFault::Memory
    }
}

/// Servers' texts, none twice, at most 65,536. Clauses see the list of them, in the order of their numbers.
#[derive(Drop)]
pub struct Servers {
    texts: IndexSet<String>,
}

impl Model for Servers {
    ghost use Rattle.std.specs.Prelude.{List, ℕ, ◌≤◌, length, map, string_bytes};
    ghost use Rattle.std.specs.Coded.{coded_ℕ, coded_list};
    ghost use Rattle.mcv_pools.specs.Table.{server_limit};

    ghost Value = { List (List ℕ) };

    ghost coded = { coded_list (coded_list coded_ℕ) };

    ghost view = { λ s. map (λ t. string_bytes t) s.texts.keys };

    ghost invariant = { λ s. length s.texts.keys ≤ server_limit };
}

impl Servers {
    /// A table with no server.
    pub fn new(alloc: Global) -> Self
        ensures { result ≡ [] }
    {
        Servers {
            texts: IndexSet::new(alloc),
        }
    }

    /// The number of a server, which goes last where it isn't there yet. A server that is there needs no memory,
    /// and a fault leaves the table as it was.
    pub fn insert(&mut self, text: &str) -> Result<ServerId, ServersFault>
        ensures table { OnOk result (self.new ≡ with_entry bytes_eq self.old text.now) }
        ensures number { IfOk result (λ id. number_in bytes_eq self.new text.now ≡ Some id.0) }
        ensures place { IfOk result (λ id. slice_get self.new id.0 ≡ Some text.now) }
        ensures known { is_in bytes_eq self.old text.now ≡ true → IsOk result }
        ensures full { IsErrOf result ServersFault.Full ↔ ((length self.old ≡ server_limit) × (is_in bytes_eq self.old text.now ≡ false)) }
        ensures unchanged { OnErr result (self.new ≡ self.old) }
    {
        if let Some(id) = self.find(text) {
            return Ok(id);
        }
        let number = self.texts.len();
        if number >= SERVER_LIMIT {
            return Err(ServersFault::Full);
        }
        let owned = String::from_str(*self.texts.allocator(), text)?;
        self.texts.insert(owned)?;
        Ok(ServerId(number as u32))
    }

    /// The number of a server, if it is there.
    pub fn find(&self, text: &str) -> Option<ServerId>
        ensures { option_map (λ id. id.0) result ≡ number_in bytes_eq self.now text.now }
    {
        let number = self.texts.get_index_of(text)?;
        Some(ServerId(number as u32))
    }

    /// The text of a server, if the number is one of the table.
    pub fn text(&self, id: ServerId) -> Option<&str>
        ensures { option_map (λ t. t.now) result ≡ slice_get self.now id.0 }
    {
        let text = self.texts.get_index(id.0 as usize)?;
        Some(text.as_str())
    }

    /// The number of servers.
    pub fn len(&self) -> usize
        ensures value { result ≡ length self.now }
        ensures within { length self.now ≤ server_limit }
        ensures one_to_one { IsOneToOne self.now }
    {
        self.texts.len()
    }
}
