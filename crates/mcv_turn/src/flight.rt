//! What a loop has in hand of legs. These values are made under the lock alone.

ghost use Rattle.mcv_turn.specs.Flights.{IsHeldLeg, MayBeSent};

use mcv_base::{CallId, LegId, LegRequest, ServerId};
use mcv_spool::SpoolRecord;

/// A leg in flight that is to be sent.
#[derive(Drop)]
pub struct Flight {
    pub server: ServerId,
    pub leg: LegId,
    pub request: LegRequest,
    ghost may_be_sent: { ∥ MayBeSent server leg request ∥₁ },
}

/// What becomes of a leg that comes in flight.
#[derive(Drop)]
pub(crate) enum Departure {
    /// It is to be sent.
    Sent(Flight),
    /// It was lost at once: its server was marked, or there was no memory for its request. Its call was this.
    Lost { leg: LegId, call: Option<CallId> },
}

/// The leg that the spool is to take next, and its record.
#[derive(Drop)]
pub struct HeldLeg {
    pub leg: LegId,
    pub delete: SpoolRecord,
    ghost is_held: { ∥ IsHeldLeg leg delete ∥₁ },
}
