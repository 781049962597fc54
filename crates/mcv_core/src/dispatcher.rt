//! The running calls with their legs, and what is counted of them. Its events are in the files beside.

ghost use Rattle.std.specs.Prelude.{◌≡◌, length, option_map};
ghost use Rattle.std.specs.Arc.{arc_value};
ghost use Rattle.mcv_queues.specs.Marks.{servers as marked_servers};
ghost use Rattle.mcv_queues.specs.Queues.{in_flight, legs, room as leg_room, servers as known};
ghost use Rattle.mcv_core.specs.Calls.{calls_at};
ghost use Rattle.mcv_core.specs.Flights.{AreWithin};
ghost use Rattle.mcv_core.specs.Soundness.{IsSound};

use crate::calls::Calls;
use crate::counts::Counts;
use crate::errand::Errand;
use mcv_base::Moment;
use mcv_check::Accepted;
use mcv_queues::{Marks, Queues};
use std::sync::Arc;

/// The running calls with their legs.
#[derive(Drop)]
pub struct Dispatcher {
    pub(crate) accepted: Arc<Accepted>,
    pub(crate) calls: Calls,
    pub(crate) queues: Queues<Errand>,
    pub(crate) marks: Marks,
    /// The break that opened the era of `moment`.
    pub(crate) since: Option<Moment>,
    pub(crate) moment: Moment,
    /// Wider than the number of a call, so that the last of these is given too.
    pub(crate) next_call: u128,
    pub(crate) next_leg: u64,
    pub(crate) counts: Counts,
    /// How many entries the chapter's calls and spooled legs may write.
    pub(crate) entries: usize,
    pub(crate) chapter: u64,
    /// How many legs of a server may be in flight at a time.
    pub(crate) limit: usize,
    ghost sound: { IsSound (arc_value accepted) (calls_at calls) (legs queues) (option_map (λ m. m.0) since) moment.0 next_call next_leg counts.reserved counts.queued counts.spooled counts.running (leg_room queues) (known queues) },
    ghost table: { marked_servers marks ≡ length (arc_value accepted).servers },
    ghost within: { AreWithin (in_flight queues) limit },
}
