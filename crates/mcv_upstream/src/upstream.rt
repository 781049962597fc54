//! One connection to a server: the legs in flight, and what is to be written.

ghost use Rattle.std.specs.Prelude.{◌≡◌, ◌≤◌, ◌++◌, [], List, IfOk, drop, length};
ghost use Rattle.mcv_pipeline.specs.Pipeline.{Lands, Loses};
ghost use Rattle.mcv_reply.specs.Replies.{Closed, flying, is_open};
ghost use Rattle.mcv_text.specs.Leg.{leg_text, leg_value};
ghost use Rattle.mcv_upstream.specs.Upstream.{SendsText, asked_leg, output_after, unused};
ghost use Rattle.std.specs.Arc.{arc_value};

use mcv_base::{LegId, LegRequest, Rest};
use mcv_outgoing::Outgoing;
use mcv_pipeline::{Landed, Pipeline};
use mcv_reply::ReplyFault;
use mcv_text::leg_text;
use std::alloc::{AllocError, Global};
use std::marker::Model;
use std::sync::Arc;

/// One connection to a server: the legs in flight, by number, and the bytes that are to be written for them. Clauses see both.
#[derive(Drop)]
pub struct Upstream {
    alloc: Global,
    legs: Pipeline,
    output: Outgoing,
    /// The connection is open.
    reads: bool,
}

impl Model for Upstream {
    ghost use Rattle.std.specs.Prelude.{◌≡◌};
    ghost use Rattle.mcv_reply.specs.Replies.{is_open};
    ghost use Rattle.mcv_upstream.specs.Upstream.{UpstreamValue};

    ghost Value = { UpstreamValue };

    ghost view = { λ u. record { legs = u.legs; output = u.output } };

    ghost invariant = { λ u. u.reads ≡ is_open u.legs.connection };
}

/// What is written for a leg, and its rest.
fn text_of(alloc: Global, request: &LegRequest) -> Result<(Vec<u8>, Arc<Rest>), AllocError>
    ensures text { IfOk result (λ t. t.0.items ≡ leg_text (leg_value request.now)) }
    ensures rest { IfOk result (λ t. arc_value t.1 ≡ arc_value request.now.rest) }
{
    let text = leg_text(alloc, request)?;
    let rest = Arc::try_clone(&request.rest)?;
    Ok((text, rest))
}

impl Upstream {
    /// A new connection: no leg is in flight, and nothing is to be written. It takes no memory.
    pub fn new(alloc: Global) -> Upstream
        ensures { result ≡ unused }
    {
        Upstream {
            alloc,
            legs: Pipeline::new(alloc),
            output: Outgoing::new(alloc),
            reads: true,
        }
    }

    /// The leg of this number is sent: its text is to be written behind the others. A fault changes nothing, and the leg is not
    /// sent: Closed, where the connection is, or Memory.
    pub fn send(&mut self, leg: LegId, request: &LegRequest) -> Result<(), ReplyFault>
        ensures { SendsText self.old leg (asked_leg request.now) (leg_text (leg_value request.now)) result self.new }
    {
        if !self.reads {
            return Err(ReplyFault::Closed);
        }
        let Ok((text, rest)) = text_of(self.alloc, request) else {
            return Err(ReplyFault::Memory);
        };
        if self.output.push(text.as_slice()).is_err() {
            return Err(ReplyFault::Memory);
        }
        match self.legs.sent(leg, request.op, rest) {
            Ok(()) => Ok(()),
            Err(fault) => {
                self.output.withdraw(text.len());
                Err(fault)
            }
        }
    }

    /// What is to be written, from its first byte on.
    pub fn output(&self) -> &[u8]
        ensures { result.now ≡ self.now.output }
    {
        self.output.bytes()
    }

    /// The first `count` bytes of the output are written.
    pub fn wrote(&mut self, count: usize)
        requires { count ≤ length self.old.output }
        ensures { self.new ≡ record self.old { output = drop count self.old.output } }
    {
        self.output.wrote(count);
    }

    /// A piece came: the legs whose replies are whole with it are put behind `landed`, the oldest first. A fault closes the
    /// connection; the legs that landed before it are given, the others are lost, and nothing is to be written.
    pub fn feed(&mut self, piece: &[u8], landed: &mut Vec<Landed>) -> Result<(), ReplyFault>
        ensures lands { (more : List Landed) × (landed.new.items ≡ landed.old.items ++ more) × Lands self.old.legs piece.now more result self.new.legs }
        ensures output { self.new.output ≡ output_after result self.old.output }
    {
        match self.legs.feed(piece, landed) {
            Ok(()) => Ok(()),
            Err(fault) => {
                self.output.clear();
                self.reads = false;
                Err(fault)
            }
        }
    }

    /// The connection is lost, and the legs in flight with it. Nothing is to be written.
    pub fn close(&mut self)
        ensures { self.new ≡ record { legs = record self.old.legs { connection = Closed }; output = [] } }
    {
        self.legs.close();
        self.output.clear();
        self.reads = false;
    }

    /// Whether replies are read: there was no fault, and it wasn't closed.
    pub fn is_open(&self) -> bool
        ensures { result ≡ is_open self.now.legs.connection }
    {
        self.reads
    }

    /// Once the connection is closed: the oldest leg that is lost with it, each once. None where it is open.
    pub fn lost(&mut self) -> Option<LegId>
        ensures lost { Loses self.old.legs result self.new.legs }
        ensures output { self.new.output ≡ self.old.output }
    {
        self.legs.lost()
    }

    /// How many legs are in flight; none once the connection is closed.
    pub fn in_flight(&self) -> usize
        ensures { result ≡ flying self.now.legs.connection }
    {
        self.legs.in_flight()
    }
}
