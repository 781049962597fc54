//! Passes, with which threads get the lock, and the seats of sessions.

ghost use Rattle.std.specs.Prelude.{◌≡◌, ◌+◌, IfNone, IfSome};

use crate::seat::Seat;
use std::marker::{Model, PhantomData};
use std::sync::ledger::{Ledger, Share};

/// The right to get the lock, or to ask a server outside of it, one at a time. It can't be copied.
#[derive(Drop)]
pub struct Pass {
    alone: PhantomData<()>,
}

/// Makes the passes of workers and sessions, and the seats of sessions. Clauses see how many seats are left, and of what.
#[derive(Drop)]
pub struct Passes<B: Ledger, T: Ledger> {
    left: u64,
    begun: Share<B>,
    taken: Share<T>,
}

impl<B: Ledger, T: Ledger> Model for Passes<B, T> {
    ghost use Rattle.std.specs.Prelude.{◌≡◌, ◌+◌};
    ghost use Rattle.mcv_hub.specs.Seats.{PassesView};

    ghost Value = { PassesView };

    ghost view = { λ p. record { left = p.left; begun = record { amount = p.begun.amount; parts = p.begun.parts }; taken = record { amount = p.taken.amount; parts = p.taken.parts } } };

    ghost invariant = { λ p. (p.begun.parts ≡ p.left + 1) × (p.taken.parts ≡ p.left + 1) × (p.begun.amount ≡ 0) × (p.taken.amount ≡ 0) };
}

impl<B: Ledger, T: Ledger> Passes<B, T> {
    /// Makes any number of passes, and this many seats from the shares of all calls and replies.
    pub(crate) fn new(left: u64, begun: Share<B>, taken: Share<T>) -> Passes<B, T>
        requires begun { (begun.parts ≡ left + 1) × (begun.amount ≡ 0) }
        requires taken { (taken.parts ≡ left + 1) × (taken.amount ≡ 0) }
        ensures left { result.left ≡ left }
    {
        Passes { left, begun, taken }
    }

    /// How many seats are left.
    pub fn left(&self) -> u64
        ensures { result ≡ self.now.left }
    {
        self.left
    }

    /// A pass for one worker or session.
    pub fn pass(&self) -> Pass {
        Pass { alone: PhantomData }
    }

    /// A seat for one session, which has begun no call and taken no reply; None once all seats were given.
    pub fn seat(&mut self) -> Option<Seat<B, T>>
        ensures rest { IfSome result (λ s. (self.new.begun.parts + 1 ≡ self.old.begun.parts) × (self.new.taken.parts + 1 ≡ self.old.taken.parts)) }
        ensures left { IfSome result (λ s. self.new.left + 1 ≡ self.old.left) }
        ensures none { IfNone result ((self.old.left ≡ 0) × (self.new.left ≡ 0)) }
        ensures same { IfNone result ((self.new.begun.parts ≡ self.old.begun.parts) × (self.new.taken.parts ≡ self.old.taken.parts)) }
        ensures seat { IfSome result (λ s. (s.begun.parts ≡ 1) × (s.taken.parts ≡ 1) × (s.begun.amount ≡ 0) × (s.taken.amount ≡ 0)) }
    {
        if self.left == 0 {
            return None;
        }
        let begun = self.begun.split_off(1, 0);
        let taken = self.taken.split_off(1, 0);
        self.left -= 1;
        Some(Seat { begun, taken })
    }

    /// The shares that no seat was given: no call was begun and no reply taken with them.
    pub fn into_shares(self) -> (Share<B>, Share<T>)
        ensures begun { (result.0.parts ≡ self.begun.parts) × (result.0.amount ≡ 0) }
        ensures taken { (result.1.parts ≡ self.taken.parts) × (result.1.amount ≡ 0) }
    {
        let Passes { begun, taken, .. } = self;
        (begun, taken)
    }
}
