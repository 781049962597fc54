//! The servers of a loop, and what is known of the connections to them.

ghost use Rattle.std.specs.Prelude.{◌≡◌, slice_get, IfOk, IfSome, IfNone, vec_len};

use crate::addresses::Addresses;
use crate::due::is_due;
use crate::names::Names;
use crate::tokens::Tokens;
use mcv_base::ServerId;
use mio::net::TcpStream;
use std::alloc::{AllocError, Global};
use std::net::{Net, SocketAddr};
use std::rt::Clock;
use std::sync::{Arc, Wait};
use std::time::{Duration, Instant};

/// How long it is at least, in milliseconds, from one look-up of a server's name to the next.
const LOOKUP_RESPITE: u64 = 1_000;

/// What is known of the last connection of one hub to one server.
#[derive(Clone, Copy, PartialEq, Eq)]
pub(crate) enum Attempt {
    /// There was none.
    Untried,
    /// One was begun to this address, and isn't known to have been made.
    Begun(SocketAddr),
    /// One was made.
    Made,
}

/// A server.
#[derive(Drop)]
struct Site {
    addresses: Addresses,
    /// It has a name that is to be looked up.
    is_name: bool,
    /// When that was asked for last.
    asked: Option<Instant>,
}

/// The servers of a loop, and what is known of the connections to them.
#[derive(Drop)]
pub(crate) struct Servers {
    sites: Vec<Site>,
    /// Of each hub's connection to each server, hub after hub.
    attempts: Vec<Attempt>,
    names: Arc<Names>,
}

/// The servers, once the system has looked their names up.
fn sites_of<R: Net>(rt: &R, alloc: Global, names: &Names) -> Result<Vec<Site>, AllocError> {
    let mut sites = Vec::new(alloc);
    for server in 0..names.count() {
        sites.push(Site {
            addresses: Addresses::new(names.look_up(rt, server)?),
            is_name: names.is_name(server),
            asked: None,
        })?;
    }
    Ok(sites)
}

impl Servers {
    /// Those of these names, with so many connections in all. The names are looked up, which may take a while.
    pub(crate) fn new<R: Net>(
        rt: &R,
        alloc: Global,
        names: Arc<Names>,
        lines: usize,
    ) -> Result<Servers, AllocError>
        ensures { IfOk result (λ servers. vec_len servers.attempts ≡ lines) }
    {
        Ok(Servers {
            sites: sites_of(rt, alloc, &names)?,
            attempts: Vec::from_elem(alloc, Attempt::Untried, lines)?,
            names,
        })
    }

    /// What is known of the last connection of this place.
    pub(crate) fn attempt(&self, line: usize) -> Attempt
        ensures there { IfSome (slice_get self.now.attempts.items line) (λ attempt. result ≡ attempt) }
        ensures none { IfNone (slice_get self.now.attempts.items line) (result ≡ Attempt.Untried) }
    {
        match self.attempts.get(line) {
            Some(attempt) => *attempt,
            None => Attempt::Untried,
        }
    }

    /// From now on this is known of the last connection of this place.
    pub(crate) fn note(&mut self, line: usize, known: Attempt)
        ensures { IfSome (slice_get self.new.attempts.items line) (λ attempt. attempt ≡ known) }
    {
        if let Some(attempt) = self.attempts.get_mut(line) {
            *attempt = known;
        }
    }

    /// A server's name is to be looked up again, if it has one, and if that wasn't asked for within a second.
    pub(crate) fn ask<R: Clock + Wait>(&mut self, rt: &R, server: ServerId) {
        let number = server.0 as usize;
        let Some(site) = self.sites.get_mut(number) else {
            return;
        };
        if !site.is_name {
            return;
        }
        let now = Instant::now(rt).ok();
        if is_due(site.asked, now, Duration::from_millis(LOOKUP_RESPITE)) {
            site.asked = now;
            self.names.ask(rt, number);
        }
    }

    /// Takes the newest addresses of a server, where its name was looked up again. The address of a connection that wasn't made isn't the
    /// next one to be tried.
    pub(crate) fn renew<R: Wait>(&mut self, rt: &R, server: ServerId, last: Attempt) {
        let number = server.0 as usize;
        let Some(site) = self.sites.get_mut(number) else {
            return;
        };
        if let Attempt::Begun(address) = last {
            site.addresses.pass_over(address);
        }
        if !site.is_name {
            return;
        }
        if let Some(found) = self.names.take_found(rt, number) {
            site.addresses.renew(found);
        }
    }

    /// Begins a connection to the first address of a server that takes one, from the one to be tried next.
    pub(crate) fn begin<R: Net>(
        &mut self,
        rt: &R,
        server: ServerId,
    ) -> Option<(SocketAddr, TcpStream)> {
        let site = self.sites.get_mut(server.0 as usize)?;
        for _address in 0..site.addresses.count() {
            let address = site.addresses.next()?;
            if let Ok(stream) = TcpStream::connect(rt, address) {
                // Without it small writes may wait, but the connection serves all the same.
                let _ = stream.set_nodelay(true);
                return Some((address, stream));
            }
            site.addresses.pass_over(address);
        }
        None
    }
}
