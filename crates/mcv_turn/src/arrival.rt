//! What became of legs that were in flight.

ghost use Rattle.std.specs.Prelude.{◌≡◌, ◌<◌, Err, IfErr, IfOk};
ghost use Rattle.mcv_base.specs.Reply.{reply_value};

use mcv_base::{LegId, Reply, ServerId};
use mcv_hub::LegReply;
use std::alloc::Global;

/// How a leg came to have no reply.
#[derive(Clone, Copy, Debug, PartialEq, Eq)]
pub enum NoReply {
    /// It was lost, and its server has one failure more.
    Lost,
    /// It was lost too, with the connection of which an older leg's loss has told: its server has no failure more.
    LostToo,
}

/// What became of a leg that was in flight to a server: its reply, or how it was lost.
#[derive(Drop)]
pub struct Arrival {
    pub server: ServerId,
    pub leg: LegId,
    pub reply: Result<LegReply, NoReply>,
}

impl Arrival {
    /// A leg that landed with this reply; where there is no memory for that it is lost.
    pub fn landed(alloc: Global, server: ServerId, leg: LegId, reply: Reply) -> Arrival
        ensures its { (result.server ≡ server) × (result.leg ≡ leg) }
        ensures reply { IfOk result.reply (λ x. x ≡ reply_value reply) }
        ensures lost { IfErr result.reply (λ why. why ≡ NoReply.Lost) }
    {
        let reply = match LegReply::new(alloc, reply) {
            Ok(reply) => Ok(reply),
            Err(_) => Err(NoReply::Lost),
        };
        Arrival { server, leg, reply }
    }

    /// A leg that was lost alone, or as the oldest one of its connection.
    pub fn lost(server: ServerId, leg: LegId) -> Arrival
        ensures { result ≡ record { server = server; leg = leg; reply = Err NoReply.Lost } }
    {
        Arrival {
            server,
            leg,
            reply: Err(NoReply::Lost),
        }
    }

    /// A leg that was lost too, with the connection of which an older leg's loss has told.
    pub fn lost_too(server: ServerId, leg: LegId) -> Arrival
        ensures { result ≡ record { server = server; leg = leg; reply = Err NoReply.LostToo } }
    {
        Arrival {
            server,
            leg,
            reply: Err(NoReply::LostToo),
        }
    }

    /// One of the legs that are lost with one connection, which have the numbers from 0, the oldest first: the first is lost, and
    /// each other one is lost too.
    pub fn lost_as(server: ServerId, leg: LegId, number: usize) -> Arrival
        ensures oldest { number ≡ 0 → result ≡ record { server = server; leg = leg; reply = Err NoReply.Lost } }
        ensures other { 0 < number → result ≡ record { server = server; leg = leg; reply = Err NoReply.LostToo } }
    {
        if number == 0 {
            Arrival::lost(server, leg)
        } else {
            Arrival::lost_too(server, leg)
        }
    }
}
