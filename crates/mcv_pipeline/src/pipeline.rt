//! The legs in flight over one connection, by number.

ghost use Rattle.std.specs.Prelude.{◌≡◌, ◌<◌, ◌≤◌, ◌+◌, ◌++◌, [], List, length, vec_capacity};
ghost use Rattle.std.specs.Arc.{arc_value};
ghost use Rattle.mcv_pipeline.specs.Pipeline.{Lands, LandsAll, LandsOne, Loses, SendsLeg};
ghost use Rattle.mcv_reply.specs.Replies.{Open, Closed, flying};

use crate::landed::Landed;
use mcv_base::{LegId, Op, Reply, Rest};
use mcv_reply::{Replies, ReplyFault};
use std::alloc::Global;
use std::collections::VecDeque;
use std::marker::Model;
use std::sync::Arc;

/// The oldest leg has this reply.
fn land_one(legs: &mut VecDeque<LegId>, reply: Reply, landed: &mut Vec<Landed>)
    requires leg { 0 < length legs.old.items }
    requires room { length landed.old.items < vec_capacity landed.old }
    ensures lands { LandsOne legs.old.items reply landed.old.items legs.new.items landed.new.items }
    ensures room { vec_capacity landed.new ≡ vec_capacity landed.old }
{
    let Some(leg) = legs.pop_front() else {
        return;
    };
    landed.push_reserved(Landed { leg, reply });
}

/// The oldest legs have these replies, in their order.
fn land(legs: &mut VecDeque<LegId>, replies: Vec<Reply>, landed: &mut Vec<Landed>)
    requires legs { length replies.items ≤ length legs.old.items }
    requires room { length landed.old.items + length replies.items ≤ vec_capacity landed.old }
    ensures { LandsAll legs.old.items replies.items landed.old.items legs.new.items landed.new.items }
{
    for reply in replies {
        land_one(legs, reply, landed);
    }
}

/// The legs in flight over one connection, by number. Clauses see the numbers of those without a reply, oldest first, and the
/// connection as `Replies` has it.
#[derive(Drop)]
pub struct Pipeline {
    alloc: Global,
    legs: VecDeque<LegId>,
    replies: Replies,
}

impl Model for Pipeline {
    ghost use Rattle.mcv_pipeline.specs.Pipeline.{HasNumbers, PipelineValue};

    ghost Value = { PipelineValue };

    ghost view = { λ l. record { legs = l.legs.items; connection = l.replies } };

    ghost invariant = { λ l. HasNumbers l.legs.items l.replies };
}

impl Pipeline {
    /// A new connection: no leg is in flight. It takes no memory.
    pub fn new(alloc: Global) -> Pipeline
        ensures { result ≡ record { legs = []; connection = Open [] [] } }
    {
        Pipeline {
            alloc,
            legs: VecDeque::new(alloc),
            replies: Replies::new(alloc),
        }
    }

    /// The leg of this number, operation and rest is sent, behind those that are in flight. A fault changes nothing, and the
    /// leg is not to be sent.
    pub fn sent(&mut self, leg: LegId, op: Op, rest: Arc<Rest>) -> Result<(), ReplyFault>
        ensures { SendsLeg self.old leg (record { op = op; key = arc_value rest }) result self.new }
    {
        if !self.replies.is_open() {
            return Err(ReplyFault::Closed);
        }
        if self.legs.reserve(1).is_err() {
            return Err(ReplyFault::Memory);
        }
        match self.replies.sent(op, rest) {
            Ok(()) => {
                self.legs.push_back_reserved(leg);
                Ok(())
            }
            Err(fault) => Err(fault),
        }
    }

    /// A piece came: the legs whose replies are whole with it are put behind `landed`, the oldest first. A fault closes the
    /// connection; the legs that landed before it are given, and the others are lost.
    pub fn feed(&mut self, piece: &[u8], landed: &mut Vec<Landed>) -> Result<(), ReplyFault>
        ensures { (more : List Landed) × (landed.new.items ≡ landed.old.items ++ more) × Lands self.old piece.now more result self.new }
    {
        if !self.replies.is_open() {
            return Err(ReplyFault::Closed);
        }
        let mut replies = Vec::new(self.alloc);
        let outcome = self.replies.feed(piece, &mut replies);
        if landed.reserve(replies.len()).is_err() {
            self.replies.close();
            return Err(ReplyFault::Memory);
        }
        land(&mut self.legs, replies, landed);
        outcome
    }

    /// The connection is lost, and the legs in flight with it.
    pub fn close(&mut self)
        ensures { self.new ≡ record self.old { connection = Closed } }
    {
        self.replies.close();
    }

    /// Once the connection is closed: the oldest leg that is lost with it, each once. None where it is open.
    pub fn lost(&mut self) -> Option<LegId>
        ensures { Loses self.old result self.new }
    {
        if self.replies.is_open() {
            return None;
        }
        self.legs.pop_front()
    }

    /// How many legs are in flight; none once the connection is closed.
    pub fn in_flight(&self) -> usize
        ensures { result ≡ flying self.now.connection }
    {
        self.replies.in_flight()
    }
}
