//! The reader of a connection's replies: any pieces, and several legs in flight.

ghost use Rattle.std.specs.Prelude.{◌≡◌, ◌<◌, ◌++◌, ◌↔◌, [], List, IfErr, IsTrue, MatchOption, OnErr, OnOk, drop, length, map};
ghost use Rattle.std.specs.Arc.{arc_value};
ghost use Rattle.std.specs.Option.{option_to_list};
ghost use Rattle.mcv_base.specs.Reply.{reply_value};
ghost use Rattle.mcv_reply.specs.Replies.{Open, Closed, HasBegun, HaveKeys, Receives, Sends, flying, is_open};
ghost use Rattle.mcv_reply.specs.Flight.{IsFlight, Leads, OldestSteps, ReadsReplies, held_in};

use crate::fault::ReplyFault;
use crate::flight::Flight;
use crate::progress::{Progress, Stage, Step, take_step};
use mcv_base::{Op, Reply, Rest};
use std::alloc::Global;
use std::collections::VecDeque;
use std::marker::Model;
use std::sync::Arc;

fn oldest(legs: &VecDeque<Flight>) -> Option<&Flight>
    ensures { MatchOption result (legs.now.items ≡ []) (λ leg. Leads leg.now legs.now.items) }
{
    legs.front()
}

/// The oldest leg has its reply, and nothing of the next one's has come.
fn forget_oldest(legs: &mut VecDeque<Flight>, progress: &mut Progress)
    requires { HaveKeys legs.old.items }
    ensures left { legs.new.items ≡ drop 1 legs.old.items }
    ensures flight { IsFlight legs.new.items progress.new }
    ensures none { held_in progress.new ≡ [] }
{
    let _answered = legs.pop_front();
    progress.stage = Stage::Start;
}

/// One step of the oldest leg's reply.
fn step_oldest(
    alloc: Global,
    legs: &mut VecDeque<Flight>,
    progress: &mut Progress,
    piece: &[u8],
) -> Result<Step, ReplyFault>
    requires some { 0 < length piece.now }
    requires flight { IsFlight legs.old.items progress.old }
    ensures { OldestSteps legs.old.items progress.old piece.now result legs.new.items progress.new }
{
    let Some(leg) = oldest(legs) else {
        return Err(ReplyFault::NotAReply);
    };
    let Step { used, reply } = take_step(alloc, leg.op(), leg.key(), progress, piece)?;
    match reply {
        None => Ok(Step { used, reply: None }),
        Some(reply) => {
            forget_oldest(legs, progress);
            Ok(Step {
                used,
                reply: Some(reply),
            })
        }
    }
}

/// A reply, if there is one, goes behind those that are there.
fn keep(replies: &mut Vec<Reply>, reply: Option<Reply>) -> Result<(), ReplyFault>
    ensures ok { OnOk result (replies.new.items ≡ replies.old.items ++ option_to_list reply) }
    ensures same { OnErr result (replies.new.items ≡ replies.old.items) }
    ensures memory { IfErr result (λ fault. fault ≡ ReplyFault.Memory) }
{
    let Some(reply) = reply else {
        return Ok(());
    };
    match replies.push(reply) {
        Ok(()) => Ok(()),
        Err(_) => Err(ReplyFault::Memory),
    }
}

/// A whole piece: the replies go behind those that are there.
fn read_replies(
    alloc: Global,
    legs: &mut VecDeque<Flight>,
    progress: &mut Progress,
    piece: &[u8],
    replies: &mut Vec<Reply>,
) -> Result<(), ReplyFault>
    requires { IsFlight legs.old.items progress.old }
    ensures { (given : List Reply) × (replies.new.items ≡ replies.old.items ++ given) × ReadsReplies legs.old.items (held_in progress.old ++ piece.now) (map reply_value given) result legs.new.items progress.new }
{
    let mut left = piece;
    while !left.is_empty() {
        let Step { used, reply } = step_oldest(alloc, legs, progress, left)?;
        left = &left[used..];
        keep(replies, reply)?;
    }
    Ok(())
}

/// Reads the replies of one connection from pieces: the legs that were sent over it are answered in
/// their order. Clauses see the legs in flight, oldest first, with the bytes of the oldest one's
/// reply that have come, or that it is closed.
#[derive(Drop)]
pub struct Replies {
    alloc: Global,
    legs: VecDeque<Flight>,
    /// Of the oldest leg's reply.
    progress: Progress,
}

impl Model for Replies {
    ghost use Rattle.std.specs.Prelude.{◌≡◌, false};
    ghost use Rattle.mcv_reply.specs.Replies.{Connection};
    ghost use Rattle.mcv_reply.specs.Flight.{IsFlight, connection_of, is_over};

    ghost Value = { Connection };

    ghost view = { λ r. connection_of r.legs.items r.progress };

    ghost invariant = { λ r. is_over r.progress.stage ≡ false → IsFlight r.legs.items r.progress };
}

impl Replies {
    /// The replies of a new connection: no leg is in flight. It takes no memory.
    pub fn new(alloc: Global) -> Replies
        ensures { result ≡ Open [] [] }
    {
        Replies {
            alloc,
            legs: VecDeque::new(alloc),
            progress: Progress::new(alloc),
        }
    }

    /// A leg of this operation and rest is sent, behind those that are in flight. A fault changes nothing: the
    /// leg's reply won't be read, and it is not to be sent.
    pub fn sent(&mut self, op: Op, rest: Arc<Rest>) -> Result<(), ReplyFault>
        ensures { Sends self.old (record { op = op; key = arc_value rest }) result self.new }
    {
        if self.progress.stage.is_over() {
            return Err(ReplyFault::Closed);
        }
        let leg = Flight::new(op, rest);
        match self.legs.push_back(leg) {
            Ok(()) => Ok(()),
            Err(_) => Err(ReplyFault::Memory),
        }
    }

    /// A piece came: the replies that are whole with it are put behind `replies`, the oldest leg's first. A
    /// fault closes the reader; the replies before it are given, and the legs behind them have none.
    pub fn feed(&mut self, piece: &[u8], replies: &mut Vec<Reply>) -> Result<(), ReplyFault>
        ensures { (given : List Reply) × (replies.new.items ≡ replies.old.items ++ given) × Receives self.old piece.now (map reply_value given) result self.new }
    {
        if self.progress.stage.is_over() {
            return Err(ReplyFault::Closed);
        }
        match read_replies(
            self.alloc,
            &mut self.legs,
            &mut self.progress,
            piece,
            replies,
        ) {
            Ok(()) => Ok(()),
            Err(fault) => {
                self.progress.stage = Stage::Closed;
                Err(fault)
            }
        }
    }

    /// The connection is lost, and the legs in flight with it.
    pub fn close(&mut self)
        ensures { self.new ≡ Closed }
    {
        self.progress.stage = Stage::Closed;
    }

    /// Whether it reads on: no fault has been answered, and the connection wasn't lost.
    #[tactic(auto, using(crate::proofs::FlightSteps::open_is))]
    pub fn is_open(&self) -> bool
        ensures { result ≡ is_open self.now }
    {
        !self.progress.stage.is_over()
    }

    /// How many legs are in flight; none once it is closed.
    pub fn in_flight(&self) -> usize
        ensures { result ≡ flying self.now }
    {
        if self.progress.stage.is_over() {
            0
        } else {
            self.legs.len()
        }
    }

    /// Whether some of the oldest leg's reply has come.
    pub fn has_begun(&self) -> bool
        ensures { IsTrue result ↔ HasBegun self.now }
    {
        self.progress.has_begun()
    }
}
