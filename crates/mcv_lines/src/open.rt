//! The legs in flight over an open connection to a server.

ghost use Rattle.std.specs.Prelude.{◌≡◌, ◌+◌, ◌≤◌, ◌++◌, ◌∷◌, [], All, List, IfErr, IfOk, OnOk, drop, length, map, vec_capacity, vec_len};
ghost use Rattle.mcv_lines.specs.Channel.{WritesOf};
ghost use Rattle.mcv_lines.specs.Legs.{HasLength, Hears, IsArrival, IsUnused, LandLegs, LosesLegs, SendsFlight, StillFlying, leg_number, number_of, since_of, unwritten_of};
ghost use Rattle.mcv_lines.specs.Lost.{taken_for, taken_unwritten};
ghost use Rattle.mcv_reply.specs.Replies.{is_open};

use crate::channel::Channel;
use crate::loss::Loss;
use crate::sent::{Sent, count_unwritten, tell_lost};
use crate::took::{Heard, Wrote};
use mcv_base::ServerId;
use mcv_connection::Connection;
use mcv_pipeline::Landed;
use mcv_turn::{Arrival, Flight};
use std::alloc::{AllocError, Global};
use std::collections::VecDeque;
use std::time::Instant;

/// An open connection, and the legs in flight over it, the oldest first.
#[derive(Drop)]
pub(crate) struct OpenLine<C: Connection> {
    channel: Channel<C>,
    sent: VecDeque<Sent>,
    ghost in_order: { map number_of sent.items ≡ map leg_number channel.carrier.legs.legs },
    ghost lengths: { All HasLength sent.items },
}

/// What a connection's loss is to the legs in flight over it: where no leg has landed over it, or something may have come of the oldest
/// one's reply, it isn't one of an idle connection.
fn taken_for(loss: Loss, is_kept: bool, has_begun: bool) -> Loss
    ensures { result ≡ taken_for loss is_kept has_begun }
{
    match loss {
        Loss::Idle if !is_kept || has_begun => Loss::Broken,
        other => other,
    }
}

/// How many legs go again because no byte of them was written, of so many that are unwritten: none over a connection over which
/// no leg has landed, since the next one would be new too, and none whose time ran out.
fn taken_unwritten(loss: Loss, is_kept: bool, count: usize) -> usize
    ensures { result ≡ taken_unwritten loss is_kept count }
{
    match loss {
        Loss::Idle | Loss::Broken if is_kept => count,
        _ => 0,
    }
}

/// The oldest leg has landed, and what came of it is put behind `arrivals`.
fn land_one(
    alloc: Global,
    server: ServerId,
    one: Landed,
    sent: &mut VecDeque<Sent>,
    arrivals: &mut Vec<Arrival>,
)
    requires { length arrivals.old.items + 1 ≤ vec_capacity arrivals.old }
    ensures arrivals { (a : Arrival) × (arrivals.new.items ≡ arrivals.old.items ++ a ∷ []) × IsArrival server one a }
    ensures sent { sent.new.items ≡ drop 1 sent.old.items }
    ensures room { vec_capacity arrivals.new ≡ vec_capacity arrivals.old }
{
    let _gone = sent.pop_front();
    let Landed { leg, reply } = one;
    let arrival = Arrival::landed(alloc, server, leg, reply);
    arrivals.push_reserved(arrival);
}

/// The oldest legs have landed, in their order.
fn land(
    alloc: Global,
    server: ServerId,
    landed: Vec<Landed>,
    sent: &mut VecDeque<Sent>,
    arrivals: &mut Vec<Arrival>,
)
    requires few { length landed.items ≤ length sent.old.items }
    requires room { length arrivals.old.items + length sent.old.items ≤ vec_capacity arrivals.old }
    ensures { LandLegs server sent.old.items landed.items arrivals.old.items sent.new.items arrivals.new.items }
{
    for one in landed {
        land_one(alloc, server, one, sent, arrivals);
    }
}

/// Room for so many more, in either.
fn reserve_each(
    count: usize,
    arrivals: &mut Vec<Arrival>,
    again: &mut Vec<Flight>,
) -> Result<(), AllocError>
    ensures arrivals { arrivals.new.items ≡ arrivals.old.items }
    ensures again { again.new.items ≡ again.old.items }
    ensures room { OnOk result ((vec_len arrivals.new + count ≤ vec_capacity arrivals.new) × (vec_len again.new + count ≤ vec_capacity again.new)) }
{
    arrivals.reserve(count)?;
    again.reserve(count)
}

impl<C: Connection> OpenLine<C> {
    /// No leg is in flight.
    pub(crate) fn new(alloc: Global, connection: C) -> OpenLine<C>
        ensures { IsUnused (C.written connection) (C.unread connection) result.sent.items result.channel }
    {
        OpenLine {
            channel: Channel::new(alloc, connection),
            sent: VecDeque::new(alloc),
        }
    }

    /// Sends a leg, for the first time or again. Where the connection is closed, or memory runs out, it is given back.
    pub(crate) fn send(
        &mut self,
        flight: Flight,
        now: Option<Instant>,
        is_again: bool,
    ) -> Result<(), Flight>
        ensures { SendsFlight flight now is_again self.old.sent.items self.old.channel result self.new.sent.items self.new.channel }
    {
        if self.sent.reserve(1).is_err() {
            return Err(flight);
        }
        let before = self.channel.unwritten();
        match self.channel.send(flight.leg, &flight.request) {
            Ok(()) => {
                let length = self.channel.unwritten() - before;
                self.sent.push_back_reserved(Sent {
                    flight,
                    at: now,
                    is_again,
                    length,
                });
                Ok(())
            }
            Err(_) => Err(flight),
        }
    }

    /// Writes what is to be written, with one write.
    pub(crate) fn write(&mut self) -> Wrote
        ensures writes { WritesOf self.old.channel result self.new.channel }
        ensures sent { self.new.sent.items ≡ self.old.sent.items }
    {
        self.channel.write()
    }

    /// Reads a piece. What came of the legs that land with it is put behind `arrivals`.
    pub(crate) fn read(
        &mut self,
        alloc: Global,
        server: ServerId,
        room: &mut [u8],
        arrivals: &mut Vec<Arrival>,
    ) -> Heard
        ensures { (more : List Arrival) × (arrivals.new.items ≡ arrivals.old.items ++ more) × Hears server room.new self.old.sent.items self.old.channel result more self.new.sent.items self.new.channel }
    {
        if !self.channel.is_open() {
            return Heard::Faulty;
        }
        if arrivals.reserve(self.sent.len()).is_err() {
            return Heard::Faulty;
        }
        let mut landed = Vec::new(alloc);
        let heard = self.channel.read(room, &mut landed);
        land(alloc, server, landed, &mut self.sent, arrivals);
        heard
    }

    /// The connection is lost so, and is dropped: of the legs in flight over it, those that may be are to be sent once more and go
    /// behind `again`, and the others behind `arrivals`. Where memory runs out it is given back: all are in flight still, over a closed
    /// connection.
    pub(crate) fn lose(
        self,
        server: ServerId,
        loss: Loss,
        arrivals: &mut Vec<Arrival>,
        again: &mut Vec<Flight>,
    ) -> Result<(), OpenLine<C>>
        ensures ok { OnOk result (LosesLegs server loss self.sent.items self.channel arrivals.old.items again.old.items arrivals.new.items again.new.items) }
        ensures err { IfErr result (λ o. StillFlying self.sent.items self.channel arrivals.old.items again.old.items o.sent.items o.channel arrivals.new.items again.new.items) }
    {
        let mut open = self;
        open.channel.close();
        if reserve_each(open.sent.len(), arrivals, again).is_err() {
            return Err(open);
        }
        let unwritten = open.unwritten(loss);
        let loss = taken_for(loss, open.channel.is_kept(), open.channel.has_begun());
        let OpenLine { sent, .. } = open;
        let mut sent = sent;
        tell_lost(server, loss, unwritten, &mut sent, arrivals, again);
        Ok(())
    }

    /// How many of the newest legs go again because no byte of them was written, where the connection is lost so.
    fn unwritten(&self, loss: Loss) -> usize
        ensures { result ≡ unwritten_of loss self.now.sent.items self.now.channel }
    {
        let count = count_unwritten(&self.sent, self.channel.unwritten());
        taken_unwritten(loss, self.channel.is_kept(), count)
    }

    /// Whether legs can be sent.
    pub(crate) fn is_open(&self) -> bool
        ensures { result ≡ is_open self.now.channel.carrier.legs.connection }
    {
        self.channel.is_open()
    }

    /// How many legs are in flight.
    pub(crate) fn in_flight(&self) -> usize
        ensures { result ≡ length self.now.sent.items }
    {
        self.sent.len()
    }

    /// When the oldest leg in flight was sent; None where none is, or the clock couldn't be read.
    pub(crate) fn since(&self) -> Option<Instant>
        ensures { result ≡ since_of self.now.sent.items }
    {
        self.sent.front()?.at
    }
}
