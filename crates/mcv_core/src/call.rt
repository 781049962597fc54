//! A running call: what it asks, how far it has come, and its entries.

ghost use Rattle.std.specs.Prelude.{◌≡◌, ◌<◌, ◌≤◌, ◌+◌, ◌-◌, ◌∷◌, [], ℕ, List, Some, ◌&&◌, not, length, vec_capacity};
ghost use Rattle.mcv_base.specs.Reply.{outcome_of, part_value};
ghost use Rattle.mcv_core.specs.CallProgress.{CanAdvance, IsTracked, Past, count, fresh, history_by, is_sent, places_from};
ghost use Rattle.mcv_queues.specs.Queues.{legs, room, in_flight, servers as known};
ghost use Rattle.mcv_route.specs.declared.launch.Launch.{Launch as Leg};
ghost use Rattle.mcv_route.specs.Outcomes.{Choice as Chosen};
ghost use Rattle.mcv_route.specs.Situation.{Situation};
ghost use Rattle.mcv_route.specs.Tree.{Tree};
ghost use Rattle.mcv_core.specs.Facts.{records_in};
ghost use Rattle.mcv_core.specs.Launching.{CanLaunch, IsLaunched};
ghost use Rattle.mcv_core.specs.Recordings.{CanNote, HasRecorded, IsNoted, has_ended_by};
ghost use Rattle.mcv_core.specs.Rows.{call_row, entries_of, IsRunning};
ghost use Rattle.mcv_events.specs.Rows.{CanRecord, IsCore, Rows};
ghost use Rattle.mcv_core.specs.CallProgress.{launch_at};
ghost use Rattle.mcv_route.specs.Routes.{RoutesValue};

use crate::errand::{Errand, Laid};
use crate::launch::{Entry, launch_each};
use crate::progress::advance;
use mcv_base::{Moment, Op, Part};
use mcv_plan::EvalState;
use mcv_pools::Choice;
use mcv_queues::Queues;
use std::sync::Arc;

/// What a call has recorded of one of its entries.
#[derive(Drop)]
pub struct Recorded {
    pub entry: usize,
    pub outcome: Part,
    /// The same reply once more, until it is taken.
    pub taken: Option<Part>,
}

/// What came of a reply that a call recorded.
#[derive(Clone, Copy, PartialEq, Eq)]
pub struct Recording {
    /// How many entries it launched.
    pub launched: usize,
    /// How many entries the call may still launch.
    pub left: usize,
    /// The call has ended: its reply was taken, and each launched entry has an outcome.
    pub ended: bool,
}

/// A running call.
#[derive(Drop)]
pub struct Call {
    pub op: Op,
    pub route: usize,
    pub since: Option<Moment>,
    pub choice: Choice,
    pub laid: Arc<Laid>,
    pub state: EvalState,
    pub entries: Vec<Entry>,
    /// The oldest first. There is room for one of each entry.
    pub recorded: Vec<Recorded>,
    /// How many entries it may still launch.
    pub left: usize,
    /// Its reply was taken.
    pub taken: bool,
}

impl Entry {
    /// Keeps the place of the entry's reply.
    fn fill(&mut self, place: usize)
        ensures errand { self.new.errand ≡ self.old.errand }
        ensures leg { self.new.leg ≡ self.old.leg }
        ensures place { self.new.place ≡ Some place }
    {
        self.place = Some(place);
    }
}

impl Call {
    /// Whether its reply was taken, and each launched entry has an outcome.
    pub fn has_ended(&self) -> bool
        ensures { result ≡ has_ended_by self.now }
    {
        self.taken && self.recorded.len() == self.entries.len().saturating_sub(self.left)
    }

    /// Notes the reply of an entry. It takes no memory.
    fn note(&mut self, entry: usize, outcome: Part, taken: Part)
        requires known { entry < count self.old.state }
        requires within { entry < length self.old.entries.items }
        requires room { length self.old.recorded.items < vec_capacity self.old.recorded }
        ensures noted { IsNoted entry outcome taken self.old self.new }
        ensures count { count self.new.state ≡ count self.old.state }
        ensures tracked { (t : Tree) (s : Situation) (c : Chosen) (es : List Leg) (past : Past) → IsTracked t s c es past self.old.state → CanAdvance t s c es past entry
            → IsTracked t s c es ((entry, outcome_of (part_value outcome)) ∷ past) self.new.state }
        ensures fresh { (t : Tree) (s : Situation) (c : Chosen) (es : List Leg) (past : Past) → IsTracked t s c es past self.old.state → CanAdvance t s c es past entry
            → fresh self.new.state ≡ places_from 0 (λ l. is_sent t s c (history_by es ((entry, outcome_of (part_value outcome)) ∷ past)) l && not (is_sent t s c (history_by es past) l)) es }
    {
        advance(&mut self.state, entry, outcome.outcome());
        let place = self.recorded.len();
        self.entries[entry].fill(place);
        self.recorded.push_reserved(Recorded {
            entry,
            outcome,
            taken: Some(taken),
        });
    }

    /// Launches the entries that are due since the last outcome. Gives how many that is. It takes no memory.
    pub fn launch(&mut self, queues: &mut Queues<Errand>, next: u64) -> usize
        requires can { CanLaunch (fresh self.old.state) self.old.entries.items (legs queues.old) (room queues.old) (known queues.old) next }
        requires left { length (fresh self.old.state) ≤ self.old.left }
        ensures launched { IsLaunched next (fresh self.old.state) self.old.entries.items self.new.entries.items (legs queues.old) (legs queues.new) }
        ensures same { self.new ≡ record self.old { entries = self.new.entries; left = self.old.left - length (fresh self.old.state) } }
        ensures count { result ≡ length (fresh self.old.state) }
        ensures flights { (s : ℕ) → in_flight queues.new s ≡ in_flight queues.old s }
        ensures servers { known queues.new ≡ known queues.old }
        ensures room { room queues.old ≤ room queues.new + length (fresh self.old.state) }
    {
        let fresh = self.state.fresh();
        launch_each(fresh, &mut self.entries, queues, next);
        let count = fresh.len();
        self.left -= count;
        count
    }

    /// Hears the reply of an entry that is launched and has none, and launches the entries that are due then. It takes
    /// no memory.
    pub fn hear(
        &mut self,
        queues: &mut Queues<Errand>,
        entry: usize,
        outcome: Part,
        taken: Part,
        next: u64,
    ) -> Recording
        requires can { CanNote self.old entry (legs queues.old) (room queues.old) (known queues.old) next }
        ensures recorded { (r : RoutesValue) (w : Rows) (k : ℕ) → IsCore r w → CanRecord r w k (call_row self.old) entry (launch_at (entries_of self.old) entry) → IsRunning r k self.old → w.next_leg ≡ next
            → part_value taken ≡ part_value outcome → HasRecorded r w k self.old self.new entry (part_value outcome) (legs queues.old) (legs queues.new) result }
        ensures records { records_in (legs queues.new) ≡ records_in (legs queues.old) }
        ensures flights { (s : ℕ) → in_flight queues.new s ≡ in_flight queues.old s }
        ensures servers { known queues.new ≡ known queues.old }
        ensures room { room queues.old ≤ room queues.new + result.launched }
    {
        self.note(entry, outcome, taken);
        let launched = self.launch(queues, next);
        Recording {
            launched,
            left: self.left,
            ended: self.has_ended(),
        }
    }
}
