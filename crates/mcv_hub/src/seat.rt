//! What a session has of the hub: its shares of the books, and the replies that it took.

ghost use Rattle.std.specs.Prelude.{◌≡◌, ◌+◌};

use crate::receipts::Receipt;
use mcv_base::{Op, Part, Rest};
use std::marker::Model;
use std::sync::ledger::{Ledger, Share};

/// One session's shares of the books of calls begun and of replies taken: one part or more of each. Clauses see what was counted
/// with them.
#[derive(Drop)]
pub struct Seat<B: Ledger, T: Ledger> {
    pub(crate) begun: Share<B>,
    pub(crate) taken: Share<T>,
}

impl<B: Ledger, T: Ledger> Model for Seat<B, T> {
    ghost use Rattle.std.specs.Prelude.{◌<◌};
    ghost use Rattle.mcv_hub.specs.Seats.{SeatView};

    ghost Value = { SeatView };

    ghost view = { λ s. record { begun = record { amount = s.begun.amount; parts = s.begun.parts }; taken = record { amount = s.taken.amount; parts = s.taken.parts } } };

    ghost invariant = { λ s. (0 < s.begun.parts) × (0 < s.taken.parts) };
}

impl<B: Ledger, T: Ledger> Seat<B, T> {
    /// Adds the shares of another seat to these.
    pub fn merge(&mut self, other: Seat<B, T>)
        ensures begun { (self.new.begun.amount ≡ self.old.begun.amount + other.begun.amount) × (self.new.begun.parts ≡ self.old.begun.parts + other.begun.parts) }
        ensures taken { (self.new.taken.amount ≡ self.old.taken.amount + other.taken.amount) × (self.new.taken.parts ≡ self.old.taken.parts + other.taken.parts) }
    {
        let Seat { begun, taken } = other;
        self.begun.merge(begun);
        self.taken.merge(taken);
    }
}

/// A reply that was taken, with what its call asked. `take_reply` alone makes one, and it can't be copied.
#[derive(Drop)]
pub struct TakenReply {
    pub(crate) receipt: Receipt,
    pub(crate) reply: Part,
    pub(crate) asked: Asked,
}

/// What a call asks.
#[derive(Drop)]
pub(crate) struct Asked {
    pub op: Op,
    /// The number of its route.
    pub route: usize,
    /// Its key without the routing prefix.
    pub rest: Rest,
}

impl TakenReply {
    /// Where the history says that it was taken.
    pub fn receipt(&self) -> Receipt
        ensures { result ≡ self.now.receipt }
    {
        self.receipt
    }

    /// The reply.
    pub fn reply(&self) -> &Part
        ensures { result.now ≡ self.now.reply }
    {
        &self.reply
    }

    /// The operation of the call.
    pub fn op(&self) -> Op
        ensures { result ≡ self.now.asked.op }
    {
        self.asked.op
    }

    /// The number of the call's route.
    pub fn route(&self) -> usize
        ensures { result ≡ self.now.asked.route }
    {
        self.asked.route
    }

    /// The call's key without its routing prefix.
    pub fn rest(&self) -> &Rest
        ensures { result.now ≡ self.now.asked.rest }
    {
        &self.asked.rest
    }

    /// The reply, by value.
    pub fn into_reply(self) -> Part
        ensures { result ≡ self.reply }
    {
        self.reply
    }
}
