//! The first leg of each group, and how many legs are in flight to each server.

ghost use Rattle.std.specs.Prelude.{◌≡◌, ◌<◌, ◌+◌, ◌-◌, ◌^◌, ℕ, cond, nat_eq, nat_le, Option, None, IfOk};
ghost use Rattle.mcv_queues.specs.declared.roots.Group.{Group};
ghost use Rattle.mcv_queues.specs.Roots.{server_at, root_of, flights, known, put_root, IsKnown};

use std::alloc::{AllocError, Global};

/// Legs of which the first one is asked for: those that wait for a server, those in the spool for a server, and those of
/// all servers that are held, refused or in replay.
#[derive(Clone, Copy)]
pub enum Group {
    WaitingFor(usize),
    SpooledFor(usize),
    HeldLegs,
    RefusedLegs,
    LegsInReplay,
}

/// The first legs of one server, and how many are in flight to it.
#[derive(Clone, Copy)]
pub(crate) struct Server {
    pub waiting: Option<u64>,
    pub spooled: Option<u64>,
    pub flying: usize,
}

impl Server {
    /// Whether so many legs, or more, are in flight.
    pub fn is_full(self, limit: usize) -> bool
        ensures { result ≡ nat_le limit self.flying }
    {
        self.flying >= limit
    }
}

/// The number of the first leg of each group, and how many legs are in flight.
#[derive(Drop)]
pub(crate) struct Roots {
    pub servers: Vec<Server>,
    pub held: Option<u64>,
    pub refused: Option<u64>,
    pub in_replay: Option<u64>,
}

impl Roots {
    /// The roots of this many servers without legs.
    pub fn new(alloc: Global, count: usize) -> Result<Roots, AllocError>
        ensures roots { IfOk result (λ roots. (group : Group) → root_of roots group ≡ None) }
        ensures flights { IfOk result (λ roots. (s : ℕ) → flights roots s ≡ 0) }
        ensures known { IfOk result (λ roots. known roots ≡ count) }
    {
        let idle = Server {
            waiting: None,
            spooled: None,
            flying: 0,
        };
        let servers = vec![in alloc; idle; count]?;
        Ok(Roots {
            servers,
            held: None,
            refused: None,
            in_replay: None,
        })
    }

    /// What is known of a server; nothing of one that isn't in the table.
    pub fn server(&self, server: usize) -> Server
        ensures { result ≡ server_at self.now server }
    {
        match self.servers.get(server) {
            Some(server) => *server,
            None => Server {
                waiting: None,
                spooled: None,
                flying: 0,
            },
        }
    }

    /// The first leg of a group.
    pub fn get(&self, group: Group) -> Option<u64>
        ensures { result ≡ root_of self.now group }
    {
        match group {
            Group::WaitingFor(server) => self.server(server).waiting,
            Group::SpooledFor(server) => self.server(server).spooled,
            Group::HeldLegs => self.held,
            Group::RefusedLegs => self.refused,
            Group::LegsInReplay => self.in_replay,
        }
    }

    /// Sets the first leg of a group.
    pub fn set(&mut self, group: Group, root: Option<u64>)
        requires { IsKnown self.old group }
        ensures roots { (other : Group) → root_of self.new other ≡ put_root (root_of self.old) group root other }
        ensures flights { (s : ℕ) → flights self.new s ≡ flights self.old s }
        ensures known { known self.new ≡ known self.old }
    {
        match group {
            Group::WaitingFor(server) => {
                let old = self.server(server);
                self.servers[server] = Server {
                    waiting: root,
                    spooled: old.spooled,
                    flying: old.flying,
                };
            }
            Group::SpooledFor(server) => {
                let old = self.server(server);
                self.servers[server] = Server {
                    waiting: old.waiting,
                    spooled: root,
                    flying: old.flying,
                };
            }
            Group::HeldLegs => self.held = root,
            Group::RefusedLegs => self.refused = root,
            Group::LegsInReplay => self.in_replay = root,
        }
    }

    /// One leg more is in flight to a server.
    pub fn fly(&mut self, server: usize)
        requires known { server < known self.old }
        requires room { flights self.old server + 1 < 2 ^ 64 }
        ensures roots { (group : Group) → root_of self.new group ≡ root_of self.old group }
        ensures flights { (s : ℕ) → flights self.new s ≡ cond (nat_eq server s) (flights self.old server + 1) (flights self.old s) }
        ensures known { known self.new ≡ known self.old }
    {
        let old = self.server(server);
        self.set_flying(server, old.flying + 1);
    }

    /// One leg less is in flight to a server.
    pub fn land(&mut self, server: usize)
        requires { server < known self.old }
        ensures roots { (group : Group) → root_of self.new group ≡ root_of self.old group }
        ensures flights { (s : ℕ) → flights self.new s ≡ cond (nat_eq server s) (flights self.old server - 1) (flights self.old s) }
        ensures known { known self.new ≡ known self.old }
    {
        let old = self.server(server);
        self.set_flying(server, old.flying.saturating_sub(1));
    }

    /// Sets how many legs are in flight to a server.
    fn set_flying(&mut self, server: usize, flying: usize)
        requires { server < known self.old }
        ensures roots { (group : Group) → root_of self.new group ≡ root_of self.old group }
        ensures flights { (s : ℕ) → flights self.new s ≡ cond (nat_eq server s) flying (flights self.old s) }
        ensures known { known self.new ≡ known self.old }
    {
        let old = self.server(server);
        self.servers[server] = Server {
            waiting: old.waiting,
            spooled: old.spooled,
            flying,
        };
    }
}
