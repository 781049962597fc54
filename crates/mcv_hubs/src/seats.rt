//! What a session has of all hubs.

ghost use Rattle.std.specs.Prelude.{◌≡◌, ◌+◌, ◌<◌, IfNone, IfSome, replicate};
ghost use Rattle.mcv_hubs.specs.Counts.{plus, sums, tally, unused};

use crate::names::{At, Names};
use mcv_hub::{Pass, Passes, Seat};
use std::marker::Model;
use std::sync::ledger::Ledger;

/// One session's seats, one at each hub. Clauses see what was counted with them, hub by hub.
#[derive(Drop)]
pub struct Seats<F: Names, G: Names> {
    pub seat0: Seat<At<F, 0>, At<G, 0>>,
    pub seat1: Seat<At<F, 1>, At<G, 1>>,
    pub seat2: Seat<At<F, 2>, At<G, 2>>,
    pub seat3: Seat<At<F, 3>, At<G, 3>>,
    pub seat4: Seat<At<F, 4>, At<G, 4>>,
    pub seat5: Seat<At<F, 5>, At<G, 5>>,
    pub seat6: Seat<At<F, 6>, At<G, 6>>,
    pub seat7: Seat<At<F, 7>, At<G, 7>>,
}

impl<F: Names, G: Names> Model for Seats<F, G> {
    ghost use Rattle.std.specs.Prelude.{List, [], ◌∷◌};
    ghost use Rattle.mcv_hubs.specs.Counts.{Tally, tally};

    ghost Value = { List Tally };

    ghost view = { λ s. tally s.seat0.begun.amount s.seat0.taken.amount s.seat0.begun.parts s.seat0.taken.parts ∷ tally s.seat1.begun.amount s.seat1.taken.amount s.seat1.begun.parts s.seat1.taken.parts ∷ tally s.seat2.begun.amount s.seat2.taken.amount s.seat2.begun.parts s.seat2.taken.parts ∷ tally s.seat3.begun.amount s.seat3.taken.amount s.seat3.begun.parts s.seat3.taken.parts ∷ tally s.seat4.begun.amount s.seat4.taken.amount s.seat4.begun.parts s.seat4.taken.parts ∷ tally s.seat5.begun.amount s.seat5.taken.amount s.seat5.begun.parts s.seat5.taken.parts ∷ tally s.seat6.begun.amount s.seat6.taken.amount s.seat6.begun.parts s.seat6.taken.parts ∷ tally s.seat7.begun.amount s.seat7.taken.amount s.seat7.begun.parts s.seat7.taken.parts ∷ [] };
}

impl<F: Names, G: Names> Seats<F, G> {
    /// Adds another session's shares to these.
    pub fn merge(&mut self, other: Seats<F, G>)
        ensures { self.new ≡ sums self.old other }
    {
        let Seats {
            seat0,
            seat1,
            seat2,
            seat3,
            seat4,
            seat5,
            seat6,
            seat7,
        } = other;
        merge(&mut self.seat0, seat0);
        merge(&mut self.seat1, seat1);
        merge(&mut self.seat2, seat2);
        merge(&mut self.seat3, seat3);
        merge(&mut self.seat4, seat4);
        merge(&mut self.seat5, seat5);
        merge(&mut self.seat6, seat6);
        merge(&mut self.seat7, seat7);
    }
}

/// Adds the shares of one seat to those of another.
fn merge<B: Ledger, T: Ledger>(all: &mut Seat<B, T>, one: Seat<B, T>)
    ensures { tally all.new.begun.amount all.new.taken.amount all.new.begun.parts all.new.taken.parts ≡ plus (tally all.old.begun.amount all.old.taken.amount all.old.begun.parts all.old.taken.parts) (tally one.begun.amount one.taken.amount one.begun.parts one.taken.parts) }
{
    all.merge(one);
}

/// Makes the passes of workers and sessions, and the seats of sessions at all hubs. Clauses see how many sessions there are
/// seats for yet.
#[derive(Drop)]
pub struct HubPasses<F: Names, G: Names> {
    pub(crate) passes0: Passes<At<F, 0>, At<G, 0>>,
    pub(crate) passes1: Passes<At<F, 1>, At<G, 1>>,
    pub(crate) passes2: Passes<At<F, 2>, At<G, 2>>,
    pub(crate) passes3: Passes<At<F, 3>, At<G, 3>>,
    pub(crate) passes4: Passes<At<F, 4>, At<G, 4>>,
    pub(crate) passes5: Passes<At<F, 5>, At<G, 5>>,
    pub(crate) passes6: Passes<At<F, 6>, At<G, 6>>,
    pub(crate) passes7: Passes<At<F, 7>, At<G, 7>>,
}

impl<F: Names, G: Names> Model for HubPasses<F, G> {
    ghost use Rattle.std.specs.Prelude.{ℕ, ◌≡◌};
    ghost use Rattle.std.specs.Coded.{coded_ℕ};

    ghost Value = { ℕ };

    ghost coded = { coded_ℕ };

    ghost view = { λ p. p.passes0.left };

    ghost invariant = { λ p. (p.passes1.left ≡ p.passes0.left) × (p.passes2.left ≡ p.passes0.left) × (p.passes3.left ≡ p.passes0.left) × (p.passes4.left ≡ p.passes0.left) × (p.passes5.left ≡ p.passes0.left) × (p.passes6.left ≡ p.passes0.left) × (p.passes7.left ≡ p.passes0.left) };
}

impl<F: Names, G: Names> HubPasses<F, G> {
    /// A pass for one worker or session: it is good for each hub, one at a time.
    pub fn pass(&self) -> Pass {
        self.passes0.pass()
    }

    /// Seats for one session, which has begun no call and taken no reply; None once all were given.
    pub fn seats(&mut self) -> Option<Seats<F, G>>
        ensures left { IfSome result (λ s. self.new + 1 ≡ self.old) }
        ensures none { IfNone result ((self.old ≡ 0) × (self.new ≡ 0)) }
        ensures unused { IfSome result (λ s. s ≡ replicate 8 unused) }
    {
        if self.passes0.left() == 0 {
            return None;
        }
        Some(Seats {
            seat0: next_seat(&mut self.passes0),
            seat1: next_seat(&mut self.passes1),
            seat2: next_seat(&mut self.passes2),
            seat3: next_seat(&mut self.passes3),
            seat4: next_seat(&mut self.passes4),
            seat5: next_seat(&mut self.passes5),
            seat6: next_seat(&mut self.passes6),
            seat7: next_seat(&mut self.passes7),
        })
    }
}

/// The next seat of one hub.
fn next_seat<B: Ledger, T: Ledger>(passes: &mut Passes<B, T>) -> Seat<B, T>
    requires { 0 < passes.old.left }
    ensures left { passes.new.left + 1 ≡ passes.old.left }
    ensures unused { tally result.begun.amount result.taken.amount result.begun.parts result.taken.parts ≡ unused }
{
    match passes.seat() {
        Some(seat) => seat,
        None => unreachable!(),
    }
}
