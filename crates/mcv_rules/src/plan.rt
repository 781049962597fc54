//! The plan of a call: the legs and replies of its route for one operation, rest and era.

ghost use Rattle.std.specs.Prelude.{◌≡◌, IfOk, map, slice_index};
ghost use Rattle.mcv_rules.specs.PlanInMemory.{launch_of};

use crate::arrival::After;
use mcv_base::{FixedReply, Mark, Op, Position, ServerId};
use mcv_pools::Choice;
use mcv_route::Launch;
use std::alloc::{AllocError, Global};
use std::sync::Arc;

/// A leg of a plan: that of a pool, before a choice gives its server.
#[derive(Drop)]
pub struct PlannedLeg {
    pub position: Position,
    /// The number of the pool's symbol.
    pub symbol: usize,
    pub servers: Arc<Vec<ServerId>>,
    pub op: Op,
    pub mark: Mark,
}

/// What a route does with one call. A list of plans that is empty replies as ErrorRoute does.
#[derive(Drop)]
pub enum Plan {
    /// One leg, whose reply is the reply.
    Send(PlannedLeg),
    /// A reply at once.
    Reply(FixedReply),
    /// All at once: the worst reply, and of equal ones the last, once all are there.
    All(Vec<Plan>),
    /// All at once: the first one's reply.
    Beside(Vec<Plan>),
    /// One after another, while the search goes on: the last one's reply.
    InTurn(After, Vec<Plan>),
    /// The first, whose reply is the reply; once that is a hit, also the second.
    OnHit(Box<Plan>, Box<Plan>),
    /// The target, where the choice gives the symbol an index from the first to the last. Nothing waits for it.
    Shadowed {
        symbol: usize,
        first: u64,
        last: u64,
        target: Box<Plan>,
    },
}

impl PlannedLeg {
    /// The leg under a choice.
    pub fn launch(&self, alloc: Global, choice: &Choice) -> Result<Launch, AllocError>
        ensures { IfOk result (λ l. l ≡ launch_of (slice_index choice.now) self.now) }
    {
        let position = self.position.copy(alloc)?;
        Ok(Launch {
            position,
            server: server_at(&self.servers, choice.index(self.symbol)),
            op: self.op,
            mark: self.mark,
        })
    }
}

/// The server at an index of a pool; past the end the first of all.
fn server_at(servers: &[ServerId], index: usize) -> ServerId
    ensures { result.0 ≡ slice_index (map (λ s. s.0) servers.now) index }
{
    servers.get(index).copied().unwrap_or(ServerId(0))
}
