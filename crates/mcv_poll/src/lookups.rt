//! Which names are to be looked up, and what was found.

ghost use Rattle.std.specs.Prelude.{◌≡◌, ◌<◌, [], ◌∷◌, ◌++◌, Some, false, true, slice_get, vec_len, IfOk, IfSome};
ghost use Rattle.std.specs.VecDeque.{deque_capacity, deque_len};
ghost use Rattle.std.specs.Option.{option_to_list};

use std::alloc::{AllocError, Global};
use std::collections::VecDeque;
use std::net::SocketAddr;

/// The look-up of one server's name.
#[derive(Drop)]
struct Lookup {
    /// It waits.
    is_asked: bool,
    /// The newest addresses that were found and not taken.
    found: Option<Vec<SocketAddr>>,
}

/// Which servers' names are to be looked up, each once, and what was found.
#[derive(Drop)]
pub(crate) struct Lookups {
    /// By server.
    all: Vec<Lookup>,
    /// The servers whose look-ups wait. There is room for all.
    asked: VecDeque<usize>,
    /// No more are made.
    pub ends: bool,
}

impl Lookups {
    /// None, of so many servers.
    pub(crate) fn new(alloc: Global, servers: usize) -> Result<Lookups, AllocError>
        ensures { IfOk result (λ l. (vec_len l.all ≡ servers) × (l.asked.items ≡ []) × (l.ends ≡ false)) }
    {
        let mut all = Vec::new(alloc);
        for _server in 0..servers {
            all.push(Lookup {
                is_asked: false,
                found: None,
            })?;
        }
        Ok(Lookups {
            all,
            asked: VecDeque::with_capacity(alloc, servers)?,
            ends: false,
        })
    }

    /// The name of a server is to be looked up, unless that waits already.
    pub(crate) fn ask(&mut self, server: usize)
        ensures again { IfSome (slice_get self.old.all.items server) (λ l. l.is_asked ≡ true → self.new.asked ≡ self.old.asked) }
        ensures first { IfSome (slice_get self.old.all.items server) (λ l. l.is_asked ≡ false → deque_len self.old.asked < deque_capacity self.old.asked → self.new.asked.items ≡ self.old.asked.items ++ server ∷ []) }
    {
        let Some(lookup) = self.all.get_mut(server) else {
            return;
        };
        if lookup.is_asked {
            return;
        }
        if self.asked.push_back(server).is_ok() {
            lookup.is_asked = true;
        }
    }

    /// The server whose look-up has waited longest, if one waits.
    pub(crate) fn take_asked(&mut self) -> Option<usize>
        ensures { self.old.asked.items ≡ option_to_list result ++ self.new.asked.items }
    {
        let server = self.asked.pop_front()?;
        if let Some(lookup) = self.all.get_mut(server) {
            lookup.is_asked = false;
        }
        Some(server)
    }

    /// These are a server's addresses now. Those that weren't taken go.
    pub(crate) fn answer(&mut self, server: usize, found: Vec<SocketAddr>)
        ensures found { IfSome (slice_get self.new.all.items server) (λ l. l.found ≡ Some found) }
        ensures asked { self.new.asked ≡ self.old.asked }
    {
        if let Some(lookup) = self.all.get_mut(server) {
            lookup.found = Some(found);
        }
    }

    /// The newest addresses of a server, if new ones were found.
    pub(crate) fn take_found(&mut self, server: usize) -> Option<Vec<SocketAddr>>
        ensures found { IfSome (slice_get self.old.all.items server) (λ l. result ≡ l.found) }
        ensures asked { self.new.asked ≡ self.old.asked }
    {
        self.all.get_mut(server)?.found.take()
    }
}
