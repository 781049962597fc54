//! Legs in flight are answered and lost.

ghost use Rattle.std.specs.Prelude.{◌≡◌, ◌&&◌, not, cond, true, false, Some, IfOk, IfErr, option_map};
ghost use Rattle.mcv_base.specs.Operation.{is_delete};
ghost use Rattle.mcv_base.specs.Reply.{part_value};
ghost use Rattle.mcv_queues.specs.Legs.{is_flight, is_in_flight};
ghost use Rattle.mcv_queues.specs.Queues.{legs};
ghost use Rattle.mcv_core.specs.CoreView.{HasDone, at_row, finished, held, landing_at, lost_too_at, replayed_in, sent_in};
ghost use Rattle.mcv_core.specs.Events.{IsAnsweredLeg, IsEvent, IsLostLeg, IsLostTooLeg};
ghost use Rattle.mcv_core.specs.Facts.{counts_in, facts_of as facts_seen, state_in};
ghost use Rattle.mcv_core.specs.View.{core_view};
ghost use Rattle.mcv_core.specs.declared.step.LegState.TheVariants as leg_states;

use crate::counted::Counted;
use crate::dispatcher::Dispatcher;
use crate::facts::LegFacts;
use crate::fault::CoreFault;
use crate::settle::Settling;
use crate::step::{Change, LegState, Step};
use mcv_base::{LegId, Op, Parts};
use mcv_queues::State;

impl Dispatcher {
    /// A leg in flight was answered: any of those that are, in whatever order they were sent.
    pub fn answered(&mut self, leg: LegId, parts: Parts) -> Result<Step, CoreFault>
        ensures { IsEvent (IsAnsweredLeg (core_view self.old) leg parts result) (core_view self.new) }
    {
        match self.flying(leg) {
            Ok(facts) => {
                let counted = Counted::of(facts.op, parts);
                self.marks.answered(facts.server);
                Ok(self.land(leg, facts, counted))
            }
            Err(fault) => Err(fault),
        }
    }

    /// A leg in flight was lost, and its server has one failure more.
    pub fn lost(&mut self, leg: LegId) -> Result<Step, CoreFault>
        ensures { IsEvent (IsLostLeg (core_view self.old) leg result) (core_view self.new) }
    {
        match self.flying(leg) {
            Ok(facts) => {
                self.marks.lost(facts.server);
                Ok(self.lose(leg, facts))
            }
            Err(fault) => Err(fault),
        }
    }

    /// A leg in flight was lost too, with the connection of which another leg's loss has told: its server has no failure
    /// more. The connection's oldest leg is `lost`, and each other one of it `lost_too`.
    pub fn lost_too(&mut self, leg: LegId) -> Result<Step, CoreFault>
        ensures { IsEvent (IsLostTooLeg (core_view self.old) leg result) (core_view self.new) }
    {
        match self.flying(leg) {
            Ok(facts) => Ok(self.lose(leg, facts)),
            Err(fault) => Err(fault),
        }
    }

    /// What the core looks at of a leg in flight.
    fn flying(&self, leg: LegId) -> Result<LegFacts, CoreFault>
        ensures at { IfOk result (λ facts. option_map facts_seen (legs self.now.queues leg.0) ≡ Some facts) }
        ensures flies { IfOk result (λ facts. is_flight facts.state ≡ true) }
        ensures refused { IfErr result (λ fault. (fault ≡ CoreFault.NoSuchLeg) × (is_in_flight (legs self.now.queues leg.0) ≡ false)) }
    {
        match self.facts(leg) {
            Some(facts) if is_flight(facts.state) => Ok(facts),
            _ => Err(CoreFault::NoSuchLeg),
        }
    }

    /// A leg in flight has no reply, whatever its server's mark is.
    fn lose(&mut self, leg: LegId, facts: LegFacts) -> Step
        requires at { option_map facts_seen (legs self.old.queues leg.0) ≡ Some facts }
        requires flies { is_flight facts.state ≡ true }
        ensures { HasDone (lost_too_at (core_view self.old) leg.0) (core_view self.new) result }
    {
        self.land(leg, facts, Counted::lost())
    }

    /// A leg in flight has this reply.
    fn land(&mut self, leg: LegId, facts: LegFacts, counted: Counted) -> Step
        requires at { option_map facts_seen (legs self.old.queues leg.0) ≡ Some facts }
        requires flies { is_flight facts.state ≡ true }
        requires one { part_value counted.taken ≡ part_value counted.outcome }
        ensures { HasDone (landing_at (core_view self.old) leg.0 (part_value counted.outcome)) (core_view self.new) result }
    {
        let replayed = matches!(facts.state, State::InReplay);
        if !replayed {
            return self.land_sent(leg, facts, counted);
        }
        if counted.is_error() {
            self.wait_again(leg)
        } else {
            self.perform(leg)
        }
    }

    /// A leg that was sent has this reply.
    fn land_sent(&mut self, leg: LegId, facts: LegFacts, counted: Counted) -> Step
        requires at { option_map facts_seen (legs self.old.queues leg.0) ≡ Some facts }
        requires sent { facts.state ≡ State.Sent }
        requires one { part_value counted.taken ≡ part_value counted.outcome }
        ensures { HasDone (at_row (sent_in (core_view self.old) leg.0 (part_value counted.outcome)) ((core_view self.old).rows.legs leg.0)) (core_view self.new) result }
    {
        if facts.counted_delete && counted.is_error() {
            self.hold(leg)
        } else {
            self.finish(leg, facts, counted)
        }
    }

    /// A leg that was sent is done with, and its call records this reply.
    fn finish(&mut self, leg: LegId, facts: LegFacts, counted: Counted) -> Step
        requires at { option_map facts_seen (legs self.old.queues leg.0) ≡ Some facts }
        requires sent { facts.state ≡ State.Sent }
        requires one { part_value counted.taken ≡ part_value counted.outcome }
        ensures { HasDone (at_row (finished (core_view self.old) leg.0 (part_value counted.outcome)) ((core_view self.old).rows.legs leg.0)) (core_view self.new) result }
    {
        let state = LegState::after(facts.op, counted.is_error());
        self.settle(
            leg,
            facts.owner(),
            Settling::Gone,
            counted.outcome,
            counted.taken,
        );
        Step {
            state,
            change: Change::Answered,
        }
    }

    /// A counted delete leg that its server didn't perform is held.
    fn hold(&mut self, leg: LegId) -> Step
        requires sent { state_in (legs self.old.queues leg.0) ≡ Some State.Sent }
        requires counted { counts_in (legs self.old.queues leg.0) ≡ true }
        ensures { HasDone (at_row (held (core_view self.old) leg.0) ((core_view self.old).rows.legs leg.0)) (core_view self.new) result }
    {
        self.queues.held(leg);
        Step {
            state: LegState::Held,
            change: Change::Nothing,
        }
    }

    /// A leg in replay waits in the spool again.
    fn wait_again(&mut self, leg: LegId) -> Step
        requires { state_in (legs self.old.queues leg.0) ≡ Some State.InReplay }
        ensures { HasDone (at_row (replayed_in (core_view self.old) leg.0 true) ((core_view self.old).rows.legs leg.0)) (core_view self.new) result }
    {
        self.queues.replay_failed(leg);
        Step {
            state: LegState::Spooled,
            change: Change::Nothing,
        }
    }

    /// A leg in replay was performed.
    fn perform(&mut self, leg: LegId) -> Step
        requires { state_in (legs self.old.queues leg.0) ≡ Some State.InReplay }
        ensures { HasDone (at_row (replayed_in (core_view self.old) leg.0 false) ((core_view self.old).rows.legs leg.0)) (core_view self.new) result }
    {
        let _ = self.queues.gone(leg);
        self.counts = self.counts.performed();
        Step {
            state: LegState::Performed,
            change: Change::Performed,
        }
    }
}

impl LegState {
    /// Where a leg is that had a reply and isn't held: a delete is performed by any answer but an error.
    fn after(op: Op, failed: bool) -> LegState
        ensures { result ≡ cond (is_delete op && not failed) leg_states.Performed leg_states.Gone }
    {
        if op.is_delete() && !failed {
            LegState::Performed
        } else {
            LegState::Gone
        }
    }
}

fn is_flight(state: State) -> bool
    ensures { result ≡ is_flight state }
{
    match state {
        State::Sent | State::InReplay => true,
        State::Waiting | State::Held | State::Refused | State::InSpool => false,
    }
}
