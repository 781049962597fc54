//! The spool stores and refuses held legs.

ghost use Rattle.std.specs.Prelude.{◌≡◌, Some};
ghost use Rattle.mcv_queues.specs.Queues.{legs};
ghost use Rattle.mcv_world.specs.Moves.{is_one};
ghost use Rattle.mcv_core.specs.CoreView.{HasDone, at_row, is_record, refused, stores};
ghost use Rattle.mcv_core.specs.Events.{IsEvent, IsRefusedLeg, IsSpooledLeg};
ghost use Rattle.mcv_core.specs.Facts.{state_in};
ghost use Rattle.mcv_core.specs.View.{core_view};

use crate::counted::Counted;
use crate::dispatcher::Dispatcher;
use crate::fault::CoreFault;
use crate::settle::Settling;
use crate::step::{Change, LegState, Step};
use mcv_base::LegId;
use mcv_queues::State;
use mcv_spool::{SpoolRecord, Stored};

impl Dispatcher {
    /// A held leg is stored in the spool, where the record is its server's text and its rest. The leg keeps the record's number.
    pub fn spooled(&mut self, leg: LegId, stored: Stored) -> Result<Step, CoreFault>
        ensures { IsEvent (IsSpooledLeg (core_view self.old) leg stored result) (core_view self.new) }
    {
        if !self.is_record_of(leg, stored.record()) {
            return Err(CoreFault::NoSuchLeg);
        }
        let Some(facts) = self.facts(leg) else {
            return Err(CoreFault::NoSuchLeg);
        };
        match facts.state {
            State::Held => Ok(self.store_held(leg, stored.seq())),
            State::Refused => Ok(self.store_refused(leg, stored.seq())),
            State::Waiting | State::Sent | State::InSpool | State::InReplay => {
                Err(CoreFault::NoSuchLeg)
            }
        }
    }

    /// The spool refused a held leg: its call records an error, unless it has an outcome.
    pub fn spool_refused(&mut self, leg: LegId) -> Result<Step, CoreFault>
        ensures { IsEvent (IsRefusedLeg (core_view self.old) leg result) (core_view self.new) }
    {
        let Some(facts) = self.facts(leg) else {
            return Err(CoreFault::NoSuchLeg);
        };
        match facts.state {
            State::Held => Ok(self.refuse(leg)),
            State::Refused => Ok(Step {
                state: LegState::Held,
                change: Change::Nothing,
            }),
            State::Waiting | State::Sent | State::InSpool | State::InReplay => {
                Err(CoreFault::NoSuchLeg)
            }
        }
    }

    /// Whether the record is the text of the leg's server, and the leg's rest.
    fn is_record_of(&self, leg: LegId, delete: &SpoolRecord) -> bool
        ensures { result ≡ is_one ((core_view self.now).rows.legs leg.0) (is_record (core_view self.now) leg.0 delete.now.server delete.now.rest) }
    {
        let Some(row) = self.queues.get(leg) else {
            return false;
        };
        let Some(text) = self.accepted.routes().servers().text(row.server) else {
            return false;
        };
        text.as_bytes() == delete.server.as_bytes()
            && row.content.laid.rest.as_bytes() == delete.rest.as_bytes()
    }

    /// A held leg without an outcome is stored, as the record of this number.
    fn store_held(&mut self, leg: LegId, seq: u64) -> Step
        requires { state_in (legs self.old.queues leg.0) ≡ Some State.Held }
        ensures { HasDone (at_row (stores (core_view self.old) leg.0 seq) ((core_view self.old).rows.legs leg.0)) (core_view self.new) result }
    {
        let reply = Counted::not_found();
        let owner = self.owner_of(leg);
        self.settle(
            leg,
            owner,
            Settling::InSpool(seq),
            reply.outcome,
            reply.taken,
        );
        Step {
            state: LegState::Spooled,
            change: Change::Spooled,
        }
    }

    /// A leg that the spool had refused, so that it has an outcome, is stored, as the record of this number.
    fn store_refused(&mut self, leg: LegId, seq: u64) -> Step
        requires { state_in (legs self.old.queues leg.0) ≡ Some State.Refused }
        ensures { HasDone (at_row (stores (core_view self.old) leg.0 seq) ((core_view self.old).rows.legs leg.0)) (core_view self.new) result }
    {
        self.queues.spooled(leg, seq);
        self.counts = self.counts.stored();
        Step {
            state: LegState::Spooled,
            change: Change::Spooled,
        }
    }

    /// The spool refused a held leg without an outcome.
    fn refuse(&mut self, leg: LegId) -> Step
        requires { state_in (legs self.old.queues leg.0) ≡ Some State.Held }
        ensures { HasDone (at_row (refused (core_view self.old)) ((core_view self.old).rows.legs leg.0)) (core_view self.new) result }
    {
        let reply = Counted::lost();
        let owner = self.owner_of(leg);
        self.settle(leg, owner, Settling::Refused, reply.outcome, reply.taken);
        Step {
            state: LegState::Held,
            change: Change::Refused,
        }
    }
}
