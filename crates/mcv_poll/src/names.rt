//! The look-up of servers' names.

ghost use Rattle.std.specs.Prelude.{◌≡◌, vec_len, IfOk};

use crate::lookups::Lookups;
use std::alloc::{AllocError, Global};
use std::net::{Net, SocketAddr, ToSocketAddrs};
use std::sync::{Condvar, Mutex, Wait};

/// The texts of the servers, by number, and where a loop and the thread that looks their names up leave letters for each other. Another
/// thread may change these at any moment, so that no clause says what they are.
#[derive(Drop)]
pub struct Names {
    alloc: Global,
    /// `host:port` each, with an address or a name as its host.
    texts: Vec<String>,
    lookups: Mutex<Lookups>,
    bell: Condvar,
}

/// The addresses of a server, which the system may have to look up; none where that fails.
fn look_up<R: Net>(rt: &R, alloc: Global, text: &str) -> Result<Vec<SocketAddr>, AllocError> {
    let mut found = Vec::new(alloc);
    if let Ok(addresses) = text.to_socket_addrs(rt) {
        for address in addresses {
            found.push(address)?;
        }
    }
    Ok(found)
}

impl Names {
    /// The names of servers, by number: each is `host:port`, where the host is an IPv4 address, an IPv6 address in brackets, or a
    /// name.
    pub fn new(alloc: Global, texts: Vec<String>) -> Result<Names, AllocError>
        ensures { IfOk result (λ names. names.texts ≡ texts) }
    {
        let lookups = Lookups::new(alloc, texts.len())?;
        Ok(Names {
            alloc,
            texts,
            lookups: Mutex::new(lookups),
            bell: Condvar::new(),
        })
    }

    /// How many servers there are.
    pub(crate) fn count(&self) -> usize
        ensures { result ≡ vec_len self.now.texts }
    {
        self.texts.len()
    }

    /// The server's addresses, once the system has looked them up; none where that fails.
    pub(crate) fn look_up<R: Net>(
        &self,
        rt: &R,
        server: usize,
    ) -> Result<Vec<SocketAddr>, AllocError> {
        match self.texts.get(server) {
            Some(text) => look_up(rt, self.alloc, text.as_str()),
            None => Ok(Vec::new(self.alloc)),
        }
    }

    /// Whether a server has a name that is to be looked up.
    pub(crate) fn is_name(&self, server: usize) -> bool {
        match self.texts.get(server) {
            Some(text) => text.as_str().parse::<SocketAddr>().is_err(),
            None => false,
        }
    }

    /// The name of a server is to be looked up, unless that waits already.
    pub(crate) fn ask<R: Wait>(&self, rt: &R, server: usize) {
        self.lookups.lock(rt).ask(server);
        self.bell.notify_one();
    }

    /// The newest addresses of a server, if new ones were found.
    pub(crate) fn take_found<R: Wait>(&self, rt: &R, server: usize) -> Option<Vec<SocketAddr>> {
        self.lookups.lock(rt).take_found(server)
    }

    /// No more names are looked up. The look-up that is under way may take a while.
    pub fn end<R: Wait>(&self, rt: &R) {
        self.lookups.lock(rt).ends = true;
        self.bell.notify_one();
    }

    /// The server whose name is to be looked up next, once there is one; None once there are no more.
    fn next<R: Wait>(&self, rt: &R) -> Option<usize> {
        let mut lookups = self.lookups.lock(rt);
        for _turn in rt.forever() {
            if lookups.ends {
                return None;
            }
            if let Some(server) = lookups.take_asked() {
                return Some(server);
            }
            lookups = self.bell.wait(rt, lookups);
        }
        None
    }
}

/// Looks names up for a loop, until it is to end. The system may take its time for each, which nobody waits for. A server whose name
/// isn't found keeps the addresses that it has.
pub fn serve_names<R: Net + Wait>(rt: &R, names: &Names) {
    for _lookup in rt.forever() {
        let Some(server) = names.next(rt) else {
            return;
        };
        if let Ok(found) = names.look_up(rt, server) {
            if !found.is_empty() {
                names.lookups.lock(rt).answer(server, found);
            }
        }
    }
}
