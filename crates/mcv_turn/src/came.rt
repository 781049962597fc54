//! What a turn is told, and what it gives.

ghost use Rattle.std.specs.Prelude.{◌≡◌, [], false, true, None};

use crate::arrival::Arrival;
use crate::flight::{Flight, HeldLeg};
use crate::refusals::Refused;
use mcv_base::{LegId, Moment, ServerId};
use mcv_hub::Past;
use mcv_spool::{SpoolFault, Stored};
use mcv_watch::Load;
use std::alloc::Global;

/// What the spool answered to the record of a held leg.
#[derive(Drop)]
pub struct StoredLeg {
    pub leg: LegId,
    pub outcome: Result<Stored, SpoolFault>,
}

/// What came to a loop since its last turn, as far as it is for this hub.
#[derive(Drop)]
pub struct Came {
    pub moment: Moment,
    /// What became of legs in flight: those of one connection in the order of their sending. Where it is lost, its oldest leg
    /// is lost, and each other one is lost too.
    pub arrivals: Vec<Arrival>,
    /// Servers that have answered a probe.
    pub answering: Vec<ServerId>,
    pub stored: Option<StoredLeg>,
    /// The spool may be asked: it hasn't refused a record a short time ago.
    pub may_store: bool,
    /// Legs that are in the spool are to be sent again, one to each server.
    pub replays: bool,
    /// A request has waited for the next chapter for so long that it is to begin in this one.
    pub waited: bool,
    /// The legs that wait are to be counted, in one pass over all legs.
    pub counts: bool,
}

impl Came {
    /// Nothing but the time. It takes no memory.
    pub fn at(alloc: Global, moment: Moment) -> Came
        ensures moment { result.moment ≡ moment }
        ensures nothing { (result.arrivals.items ≡ []) × (result.answering.items ≡ []) × (result.stored ≡ None) }
        ensures flags { (result.may_store ≡ true) × (result.replays ≡ false) × (result.waited ≡ false) × (result.counts ≡ false) }
    {
        Came {
            moment,
            arrivals: Vec::new(alloc),
            answering: Vec::new(alloc),
            stored: None,
            may_store: true,
            replays: false,
            waited: false,
            counts: false,
        }
    }
}

/// A server is marked, or isn't any more.
#[derive(Clone, Copy, Debug, PartialEq, Eq)]
pub struct Marked {
    pub server: ServerId,
    pub is_marked: bool,
}

/// A record that is done: its server has performed the leg, which was sent again. A turn alone makes one, and it can't be copied.
#[derive(Debug, Drop)]
pub struct Performed {
    pub(crate) server: ServerId,
    pub(crate) number: u64,
}

impl Performed {
    /// Its server.
    pub fn server(&self) -> ServerId
        ensures { result ≡ self.now.server }
    {
        self.server
    }

    /// The number that the record has in the spool.
    pub fn number(&self) -> u64
        ensures { result ≡ self.now.number }
    {
        self.number
    }
}

/// What is to be done once the lock is let go, and what there is to be noted of the hub.
#[derive(Drop)]
pub struct Gives {
    /// Legs that are to be sent, in this order.
    pub flights: Vec<Flight>,
    /// The leg whose record is to be written next.
    pub held: Option<HeldLeg>,
    /// Records whose legs, sent again, their servers have performed, in this order.
    pub performed: Vec<Performed>,
    /// What is left of a chapter that has ended, to be dropped.
    pub past: Option<Past>,
    /// The servers that are marked now and weren't as it was told last, and those that aren't any more, in the order of their numbers.
    /// Without memory for one it is told by a later turn.
    pub marks: Vec<Marked>,
    /// The calls that were refused in the turn for want of a place.
    pub refused: Refused,
    /// How full the chapter is at the turn's end.
    pub load: Load,
    /// How many legs wait then for each server, in the order of the servers' numbers, where that is to be counted; None also without
    /// memory for it.
    pub waiting: Option<Vec<usize>>,
    /// How many legs are queued then: they wait, are sent for the first time, or are held.
    pub queued: usize,
}

impl Gives {
    /// Nothing. It takes no memory.
    pub fn new(alloc: Global) -> Gives
        ensures nothing { (result.flights.items ≡ []) × (result.held ≡ None) × (result.performed.items ≡ []) × (result.past ≡ None) × (result.marks.items ≡ []) × (result.waiting ≡ None) }
        ensures zeros { (result.refused ≡ record { legs = 0; chapter = 0 }) × (result.load ≡ record { chapter = 0; entries = 0; bytes = 0 }) × (result.queued ≡ 0) }
    {
        Gives {
            flights: Vec::new(alloc),
            held: None,
            performed: Vec::new(alloc),
            past: None,
            marks: Vec::new(alloc),
            refused: Refused {
                legs: 0,
                chapter: 0,
            },
            load: Load {
                chapter: 0,
                entries: 0,
                bytes: 0,
            },
            waiting: None,
            queued: 0,
        }
    }
}
