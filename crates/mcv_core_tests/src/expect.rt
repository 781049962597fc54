//! What the model expects the core to answer.

use crate::draw::{Deed, Say};
use crate::model::{Call, Model, OPEN, Stage};
use crate::readable::has_outcome;
use crate::script::shown;
use mcv_base::{Moment, Outcome, Part, ServerId};
use mcv_core::{Answer, CoreFault, LegState};
use mcv_route::Answered;
use mcv_rules::{Source, Status};
use std::process::Abort;

/// What the core is to answer.
#[derive(Clone, Copy)]
pub(crate) enum Expected {
    Call(usize),
    Leg(usize),
    State(LegState),
    /// Where the call's reply is, and None where there is none to be taken.
    Reply(usize, Option<Source>),
    Done,
    Refused(CoreFault),
}

/// Whether the part is the reply of this source.
fn is_reply(
    rt: &(impl AllocGlobal + Abort),
    answered: &[Answered],
    source: Option<Source>,
    part: &Option<Part>,
) -> bool {
    match (source, part) {
        (None, None) => true,
        (Some(Source::Fixed(reply)), Some(Part::Fixed(fixed))) => reply == *fixed,
        (Some(Source::Outcome(place)), Some(part)) => match answered.get(place) {
            Some(answered) => shown(rt, &answered.reply) == shown(rt, part),
            None => false,
        },
        _ => false,
    }
}

impl Model<'_> {
    /// Whether the answer is the expected one.
    pub(crate) fn is_expected(
        &self,
        rt: &(impl AllocGlobal + Abort),
        expected: Expected,
        answer: &Answer,
    ) -> bool {
        match (expected, answer) {
            (Expected::Call(call), Answer::Call(number)) => call as u64 == number.0,
            (Expected::Leg(leg), Answer::Leg(number)) => leg as u64 == number.0,
            (Expected::State(state), Answer::State(there)) => state == *there,
            (Expected::Reply(call, source), Answer::Reply(part)) => match self.calls.get(call) {
                Some(call) => is_reply(rt, &call.answered, source, part),
                None => false,
            },
            (Expected::Done, Answer::Done) => true,
            (Expected::Refused(fault), Answer::Refused(there)) => fault == *there,
            _ => false,
        }
    }

    /// The call's reply was taken, and each of its legs has an outcome.
    fn has_ended(&self, number: usize, call: &Call) -> bool {
        for leg in &self.legs {
            if leg.call == Some(number) && !has_outcome(&call.answered, &leg.launch.position) {
                return false;
            }
        }
        call.taken
    }

    /// Each call has ended, and no leg has to be sent or stored.
    fn is_quiet(&self) -> bool {
        for (number, call) in self.calls.iter().enumerate() {
            if !self.has_ended(number, call) {
                return false;
            }
        }
        self.first_leg(0, None, OPEN).is_none()
    }

    fn of_begin(&self, key: usize) -> Expected {
        let Some(key) = self.key(key) else {
            return Expected::Refused(CoreFault::BadKey);
        };
        match key.route {
            Some(_) => Expected::Call(self.calls.len()),
            None => Expected::Refused(CoreFault::UnknownPrefix),
        }
    }

    /// The server's first leg at this stage is sent, unless as many as may be are in flight.
    fn of_sending(&self, server: ServerId, stage: Stage) -> Expected {
        if self.in_flight(server) >= self.limit {
            return Expected::Refused(CoreFault::Busy);
        }
        match self.first_leg(0, Some(server), &[stage]) {
            Some(leg) => Expected::Leg(leg),
            None => Expected::Refused(CoreFault::NothingWaiting),
        }
    }

    /// Where a leg that is in flight is by its server's reply, or its loss: an error, or not.
    fn of_landing(&self, number: usize, failed: bool) -> Expected {
        let Some(leg) = self.legs.get(number) else {
            return Expected::Refused(CoreFault::NoSuchLeg);
        };
        if !leg.stage.is_in_flight() {
            return Expected::Refused(CoreFault::NoSuchLeg);
        }
        let state = if leg.stage == Stage::Replayed && failed {
            LegState::Spooled
        } else if leg.is_counted_delete() && failed {
            LegState::Held
        } else if leg.launch.op.is_delete() && !failed {
            LegState::Performed
        } else {
            LegState::Gone
        };
        Expected::State(state)
    }

    /// An error of a server, or what no server says to the leg's operation, is a failure.
    fn is_failure(&self, rt: &(impl AllocGlobal + Abort), leg: usize, say: Say) -> bool {
        let parts = say.parts(rt, leg);
        match self.legs.get(leg) {
            Some(leg) => !parts.may_answer(leg.launch.op) || parts.outcome() == Outcome::Error,
            None => true,
        }
    }

    /// A held leg is in this state then.
    fn of_spool(&self, leg: usize, taken: bool, state: LegState) -> Expected {
        match self.stage(leg) {
            Some(stage) if taken && stage.is_held() => Expected::State(state),
            _ => Expected::Refused(CoreFault::NoSuchLeg),
        }
    }

    fn of_take(&self, rt: &(impl AllocGlobal + Abort), number: usize) -> Expected {
        match self.calls.get(number) {
            Some(call) if !self.has_ended(number, call) => {
                Expected::Reply(number, self.source(rt, call))
            }
            _ => Expected::Refused(CoreFault::NoSuchCall),
        }
    }

    /// Where the call's reply is; None where there is none to be taken.
    fn source(&self, rt: &(impl AllocGlobal + Abort), call: &Call) -> Option<Source> {
        match self.status(rt, call) {
            Status::Replied(source) if !call.taken => Some(source),
            _ => None,
        }
    }

    /// What the core is to answer.
    pub(crate) fn expected(&self, rt: &(impl AllocGlobal + Abort), deed: Deed) -> Expected {
        match deed {
            Deed::Begin(_, key) => self.of_begin(key),
            Deed::Next(server) => self.of_sending(server, Stage::Waiting),
            Deed::Replay(server) => self.of_sending(server, Stage::Spooled),
            Deed::Answered(leg, say) => self.of_landing(leg, self.is_failure(rt, leg, say)),
            Deed::Lost(leg) | Deed::LostToo(leg) => self.of_landing(leg, true),
            Deed::Spooled(leg, own) => self.of_spool(leg, own, LegState::Spooled),
            Deed::SpoolRefused(leg) => self.of_spool(leg, true, LegState::Held),
            Deed::Mark(_) | Deed::Unmark(_) => Expected::Done,
            Deed::Clock(moment) => self.of_clock(moment),
            Deed::Turn if self.is_quiet() => Expected::Done,
            Deed::Turn => Expected::Refused(CoreFault::Busy),
            Deed::Take(call) => self.of_take(rt, call),
        }
    }

    fn of_clock(&self, moment: u64) -> Expected {
        if Moment(moment) < self.moment {
            Expected::Refused(CoreFault::ClockBack)
        } else {
            Expected::Done
        }
    }
}
