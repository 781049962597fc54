//! A leg leaves its state, and its call records a reply of it.

ghost use Rattle.std.specs.Prelude.{◌≡◌, ◌≤◌, ◌+◌, ◌-◌, ◌^◌, ◌<◌, ◌&&◌, ℕ, cond, option_map, true};
ghost use Rattle.mcv_base.specs.Reply.{part_value};
ghost use Rattle.mcv_queues.specs.Legs.{IsSentTo, is_in_flight, is_in_flight_to};
ghost use Rattle.mcv_queues.specs.Queues.{in_flight, legs, room, servers as known};
ghost use Rattle.mcv_world.specs.World.{put};
ghost use Rattle.mcv_core.specs.Settling.{IsOwner, is_gone, settled_to};
ghost use Rattle.mcv_core.specs.Facts.{facts_of as facts_seen};
ghost use Rattle.mcv_core.specs.View.{CanSettle, core_view, has_settled};

use crate::dispatcher::Dispatcher;
use crate::errand::Errand;
use crate::facts::{LegFacts, facts_of};
use mcv_base::{LegId, Part, ServerId};
use mcv_queues::Queues;

/// What becomes of a leg whose call records a reply of it.
#[derive(Clone, Copy, PartialEq, Eq)]
pub enum Settling {
    /// It was answered, and is done with.
    Gone,
    /// It was held, and is stored in the spool, where its record has this number.
    InSpool(u64),
    /// It is held, and the spool refused it.
    Refused,
}

/// The server of a leg, and its call and entry.
#[derive(Clone, Copy)]
pub(crate) struct Owner {
    pub server: ServerId,
    pub call: u64,
    pub entry: usize,
}

/// The leg leaves its state.
fn leave(queues: &mut Queues<Errand>, leg: LegId, server: ServerId, to: Settling)
    requires flies { is_in_flight (legs queues.old leg.0) ≡ is_gone to }
    requires sent { is_gone to ≡ true → IsSentTo server.0 (legs queues.old leg.0) }
    ensures legs { legs queues.new ≡ put (legs queues.old) leg.0 (settled_to to (legs queues.old leg.0)) }
    ensures flights { (s : ℕ) → in_flight queues.new s ≡ cond (is_in_flight_to s (legs queues.old leg.0)) (in_flight queues.old s - 1) (in_flight queues.old s) }
    ensures servers { known queues.new ≡ known queues.old }
    ensures room { room queues.old ≤ room queues.new }
{
    match to {
        Settling::Gone => {
            let _ = queues.sent_gone(leg, server);
        }
        Settling::InSpool(seq) => queues.spooled(leg, seq),
        Settling::Refused => queues.refused(leg),
    }
}

impl Dispatcher {
    /// The facts of a leg, where it is queued or spooled.
    pub(crate) fn facts(&self, leg: LegId) -> Option<LegFacts>
        ensures { result ≡ option_map facts_seen (legs self.now.queues leg.0) }
    {
        let row = self.queues.get(leg)?;
        Some(facts_of(row))
    }

    /// The server of a leg, and its call and entry; each 0 where it has none.
    pub(crate) fn owner_of(&self, leg: LegId) -> Owner
        ensures { IsOwner (legs self.now.queues leg.0) result }
    {
        match self.queues.get(leg) {
            Some(row) => Owner {
                server: row.server,
                call: row.content.call.unwrap_or(0),
                entry: row.content.entry,
            },
            None => Owner {
                server: ServerId(0),
                call: 0,
                entry: 0,
            },
        }
    }

    /// A leg that its call awaits leaves its state, and the call records this reply of it. It takes no memory.
    pub(crate) fn settle(
        &mut self,
        leg: LegId,
        owner: Owner,
        to: Settling,
        outcome: Part,
        taken: Part,
    )
        requires owner { IsOwner (legs self.old.queues leg.0) owner }
        requires can { CanSettle self.old leg.0 to }
        requires sent { is_gone to ≡ true → IsSentTo owner.server.0 (legs self.old.queues leg.0) }
        requires one { part_value taken ≡ part_value outcome }
        ensures { core_view self.new ≡ has_settled self.old leg.0 to (part_value outcome) }
    {
        leave(&mut self.queues, leg, owner.server, to);
        let step = self.calls.hear(
            &mut self.queues,
            owner.call,
            owner.entry,
            outcome,
            taken,
            self.next_leg,
        );
        self.calls.remove_if(owner.call, step.ended);
        self.next_leg = number_after(self.next_leg, step.launched);
        self.counts = self.counts.settled(to, step);
    }
}

/// The number after so many legs.
pub(crate) fn number_after(next: u64, launched: usize) -> u64
    requires { next + launched < 2 ^ 64 }
    ensures { result ≡ next + launched }
{
    next + launched as u64
}
