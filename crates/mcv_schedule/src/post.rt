//! What a loop has gathered for one hub since its last turn there, and what it knows of the hub since then.

ghost use Rattle.std.specs.Prelude.{◌≡◌, ◌+◌, ◌||◌, ◌≤◌, Some, false, is_err, vec_capacity, vec_len};
ghost use Rattle.mcv_schedule.specs.Posts.{GivesUnsent, IsNew, IsShortened, IsTaken, is_due, is_second_over, waiting_since};
ghost use Rattle.mcv_schedule.specs.SpoolState.{IsAnswered, asked_again, refuses};
ghost use Rattle.mcv_schedule.specs.VainWaits.{seen};

use crate::deadlines::TICK;
use crate::spool_state::SpoolState;
use crate::vain_waits::VainWaits;
use mcv_base::{Moment, ServerId};
use mcv_hub::Past;
use mcv_turn::{Arrival, Came, Flight, StoredLeg};
use mcv_watch::Load;
use std::alloc::Global;
use std::mem;
use std::time::{Duration, Instant};

/// What is to be told to one hub in its next turn.
#[derive(Drop)]
pub struct Post {
    /// What became of legs in flight.
    pub arrivals: Vec<Arrival>,
    /// Servers that have answered a probe.
    pub answering: Vec<ServerId>,
    /// What the spool answered.
    stored: Option<StoredLeg>,
    /// Legs that the last turn gave and that aren't sent yet: no turn is made before they are.
    pub unsent: Vec<Flight>,
    /// A turn is to be made, whatever came.
    pub is_wanted: bool,
    /// Legs that are in the spool are to be sent again.
    pub replays: bool,
    /// The legs that wait are to be counted.
    pub counts: bool,
    /// How the spool stands to its records.
    pub spool: SpoolState,
    /// A record is being written.
    pub is_writing: bool,
    /// Since when requests have waited to begin.
    waits_since: Option<Instant>,
    /// How often they have waited for the next chapter in vain.
    vain_waits: VainWaits,
    /// How many legs were queued at the end of the last turn.
    pub queued: usize,
    /// What is left of its last chapter.
    past: Option<Past>,
}

/// The most entries of an old chapter that are dropped in a row.
const PIECE: usize = 4_096;

/// Whether a second or more has passed since a moment.
fn is_second_over(since: Option<Instant>, now: Option<Instant>) -> bool
    ensures { result ≡ is_second_over since now }
{
    match (since, now) {
        (Some(since), Some(now)) => Duration::from_millis(TICK)
            .saturating_sub(now.duration_since(since))
            .is_zero(),
        _ => false,
    }
}

impl Post {
    /// Nothing. It takes no memory.
    pub fn new(alloc: Global) -> Post
        ensures { IsNew result }
    {
        Post {
            arrivals: Vec::new(alloc),
            answering: Vec::new(alloc),
            stored: None,
            unsent: Vec::new(alloc),
            is_wanted: false,
            replays: false,
            counts: false,
            spool: SpoolState::Taking,
            is_writing: false,
            waits_since: None,
            vain_waits: VainWaits::new(),
            queued: 0,
            past: None,
        }
    }

    /// Whether there is something to be told: nothing that came is left out.
    pub fn is_due(&self) -> bool
        ensures { result ≡ is_due self.now }
    {
        self.is_wanted
            || self.replays
            || self.stored.is_some()
            || !self.arrivals.is_empty()
            || !self.answering.is_empty()
    }

    /// What is told in a turn at this moment. Nothing is left.
    pub fn take(&mut self, alloc: Global, moment: Moment, now: Option<Instant>) -> Came
        ensures { IsTaken self.old moment now result self.new }
    {
        self.is_wanted = false;
        let mut came = Came::at(alloc, moment);
        came.arrivals = mem::replace(&mut self.arrivals, Vec::new(alloc));
        came.answering = mem::replace(&mut self.answering, Vec::new(alloc));
        came.stored = self.stored.take();
        came.replays = mem::replace(&mut self.replays, false);
        came.counts = mem::replace(&mut self.counts, false);
        came.may_store = self.spool.may_ask(now);
        if is_second_over(self.waits_since, now) {
            self.vain_waits = self.vain_waits.noted();
        }
        came.waited = self.vain_waits.are_enough();
        came
    }

    /// The spool has answered to a record.
    pub fn note_stored(&mut self, stored: StoredLeg, now: Option<Instant>)
        ensures told { self.new.stored ≡ Some stored }
        ensures answered { IsAnswered (is_err stored.outcome) now self.new.spool }
        ensures written { self.new.is_writing ≡ false }
        ensures keeps { self.new ≡ record self.old { stored = self.new.stored; spool = self.new.spool; is_writing = self.new.is_writing } }
    {
        self.is_writing = false;
        self.spool = SpoolState::answered(stored.outcome.is_err(), now);
        self.stored = Some(stored);
    }

    /// Whether requests wait to begin, after a turn, and how full the chapter is.
    pub fn note_waiting(&mut self, waits: bool, load: Load, now: Option<Instant>)
        ensures { self.new ≡ record self.old { vain_waits = seen self.old.vain_waits load; waits_since = waiting_since waits self.old.waits_since now } }
    {
        self.vain_waits = self.vain_waits.seen(load);
        self.waits_since = match (waits, self.waits_since) {
            (false, _) => None,
            (true, None) => now,
            (true, since) => since,
        };
    }

    /// No client is left: the spool is asked once more, where it refuses records.
    pub fn ask_again(&mut self)
        ensures { self.new ≡ record self.old { is_wanted = self.old.is_wanted || refuses self.old.spool; spool = asked_again self.old.spool } }
    {
        self.is_wanted = self.is_wanted || self.spool.refuses();
        self.spool = self.spool.asked_again();
    }

    /// What is left of the hub's last chapter is to be dropped, piece by piece. What was left of an earlier one is dropped at once.
    pub fn leave(&mut self, past: Past)
        ensures { self.new ≡ record self.old { past = Some past } }
    {
        self.past = Some(past);
    }

    /// Drops a piece of what is left of the last chapter: at most 4,096 entries. Whether some are left.
    pub fn drop_piece(&mut self) -> bool
        ensures piece { IsShortened self.old.past result self.new.past }
        ensures keeps { self.new ≡ record self.old { past = self.new.past } }
    {
        let Some(mut past) = self.past.take() else {
            return false;
        };
        if past.shorten(PIECE) == 0 {
            return false;
        }
        self.past = Some(past);
        true
    }

    /// The legs that the last turn gave, with room to report each of them as lost. Without memory for that they stay, and none is given.
    pub fn take_unsent(&mut self, alloc: Global) -> Vec<Flight>
        ensures gives { GivesUnsent self.old.unsent.items result.items self.new.unsent.items }
        ensures room { vec_len self.new.arrivals + vec_len result ≤ vec_capacity self.new.arrivals }
        ensures arrivals { self.new.arrivals.items ≡ self.old.arrivals.items }
        ensures keeps { self.new ≡ record self.old { arrivals = self.new.arrivals; unsent = self.new.unsent } }
    {
        if self.arrivals.reserve(self.unsent.len()).is_err() {
            return Vec::new(alloc);
        }
        mem::replace(&mut self.unsent, Vec::new(alloc))
    }
}
