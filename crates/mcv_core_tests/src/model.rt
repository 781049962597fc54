//! A second account of calls and legs, from the rules of routes and a core's answers. Nothing here is the core's code.

use crate::draw::{Deed, Say};
use crate::ground::{Ground, Key};
use crate::readable::has_outcome;
use mcv_base::{FixedReply, Mark, Moment, Op, Part, Position, ServerId};
use mcv_core::{Answer, LegState};
use mcv_route::{Answered, Launch};
use mcv_rules::{Eval, Outcomes, Status};
use std::process::Abort;

/// Where a leg is.
#[derive(Clone, Copy, PartialEq, Eq)]
pub(crate) enum Stage {
    Waiting,
    Sent,
    /// It waits for the spool, which hasn't refused it.
    Held,
    /// It waits for the spool, which has refused it.
    Refused,
    Spooled,
    /// It is in the spool, and in flight.
    Replayed,
    Performed,
    Gone,
}

/// Where a leg is in flight.
pub(crate) const IN_FLIGHT: &[Stage] = &[Stage::Sent, Stage::Replayed];

/// Where a leg has to be sent or stored, or is in flight.
pub(crate) const OPEN: &[Stage] = &[
    Stage::Waiting,
    Stage::Sent,
    Stage::Held,
    Stage::Refused,
    Stage::Replayed,
];

#[derive(Drop)]
pub(crate) struct Leg {
    /// None where the spool held it at the start.
    pub(crate) call: Option<usize>,
    pub(crate) launch: Launch,
    /// The number of its key.
    pub(crate) key: usize,
    pub(crate) stage: Stage,
}

#[derive(Drop)]
pub(crate) struct Call {
    pub(crate) op: Op,
    /// The number of its key.
    pub(crate) key: usize,
    pub(crate) since: Option<Moment>,
    /// What was recorded of its legs, the oldest first.
    pub(crate) answered: Vec<Answered>,
    pub(crate) taken: bool,
}

/// All calls and legs that there ever were, by their numbers.
#[derive(Drop)]
pub(crate) struct Model<'a> {
    pub(crate) ground: &'a Ground,
    pub(crate) calls: Vec<Call>,
    pub(crate) legs: Vec<Leg>,
    pub(crate) moment: Moment,
    /// How many legs of a server may be in flight at a time.
    pub(crate) limit: usize,
}

impl Stage {
    pub(crate) fn is_in_flight(self) -> bool {
        matches!(self, Stage::Sent | Stage::Replayed)
    }

    pub(crate) fn is_held(self) -> bool {
        matches!(self, Stage::Held | Stage::Refused)
    }
}

impl Leg {
    /// Whether its server is this one, where one is given.
    fn is_to(&self, server: Option<ServerId>) -> bool {
        match server {
            Some(server) => self.launch.server.is(server),
            None => true,
        }
    }

    /// Whether it is a delete that lies under no shadow.
    pub(crate) fn is_counted_delete(&self) -> bool {
        self.launch.op.is_delete() && self.launch.mark.is_counting()
    }
}

fn outcomes_of<'a>(rt: &(impl AllocGlobal + Abort), answered: &'a [Answered]) -> Outcomes<'a> {
    Outcomes::of(rt.alloc(), answered).expect(rt, "memory")
}

impl<'a> Model<'a> {
    pub(crate) fn new(
        rt: &(impl AllocGlobal + Abort),
        ground: &'a Ground,
        limit: usize,
    ) -> Model<'a> {
        Model {
            ground,
            calls: Vec::new(rt.alloc()),
            legs: Vec::new(rt.alloc()),
            moment: Moment(0),
            limit,
        }
    }

    pub(crate) fn key(&self, number: usize) -> Option<&'a Key> {
        self.ground.keys.get(number)
    }

    /// The rules of a call.
    fn eval(&self, rt: &(impl AllocGlobal + Abort), call: &Call) -> Eval<'a> {
        let key = self.key(call.key).expect(rt, "a key");
        let route = self.ground.route(key).expect(rt, "a route");
        let eval = Eval::new(
            rt.alloc(),
            route,
            call.op,
            &key.rest,
            call.since,
            &key.choice,
        );
        eval.expect(rt, "memory")
    }

    /// Whether a call has its reply, and which.
    pub(crate) fn status(&self, rt: &(impl AllocGlobal + Abort), call: &Call) -> Status {
        let eval = self.eval(rt, call);
        eval.status(&outcomes_of(rt, &call.answered))
    }

    /// The legs that the call has launched by now.
    fn launched(&self, rt: &(impl AllocGlobal + Abort), call: &Call) -> Vec<Launch> {
        let eval = self.eval(rt, call);
        let launched = eval.launched(rt.alloc(), &outcomes_of(rt, &call.answered));
        launched.expect(rt, "memory")
    }

    /// The leg of a call at the launch's position is there.
    fn has_leg(&self, call: usize, launch: &Launch) -> bool {
        for leg in &self.legs {
            if leg.call == Some(call) && leg.launch.position.is(&launch.position) {
                return true;
            }
        }
        false
    }

    /// Numbers a leg of a call, unless it has a number.
    fn add(&mut self, rt: &(impl AllocGlobal + Abort), call: usize, key: usize, launch: Launch) {
        if !self.has_leg(call, &launch) {
            let leg = Leg {
                call: Some(call),
                launch,
                key,
                stage: Stage::Waiting,
            };
            self.legs.push(leg).expect(rt, "memory");
        }
    }

    /// Numbers the legs that the call has launched by now and that have no number, in the order of their positions.
    fn launch(&mut self, rt: &(impl AllocGlobal + Abort), number: usize) {
        let Some(call) = self.calls.get(number) else {
            return;
        };
        let key = call.key;
        let launched = self.launched(rt, call);
        for launch in launched {
            self.add(rt, number, key, launch);
        }
    }

    /// The call records this, unless it has an outcome there. Whether it had none.
    fn hear(&mut self, rt: &(impl AllocGlobal + Abort), call: usize, heard: Answered) -> bool {
        match self.calls.get_mut(call) {
            Some(call) if !has_outcome(&call.answered, &heard.position) => {
                call.answered.push(heard).expect(rt, "memory");
                true
            }
            _ => false,
        }
    }

    /// The leg's call records this reply of it, unless it has an outcome.
    fn record(&mut self, rt: &(impl AllocGlobal + Abort), number: usize, reply: Part) {
        let Some(leg) = self.legs.get(number) else {
            return;
        };
        let Some(call) = leg.call else {
            return;
        };
        let position = leg.launch.position.copy(rt.alloc()).expect(rt, "memory");
        if self.hear(rt, call, Answered { position, reply }) {
            self.launch(rt, call);
        }
    }

    fn begin(&mut self, rt: &(impl AllocGlobal + Abort), op: Op, key: usize) {
        let number = self.calls.len();
        let call = Call {
            op,
            key,
            since: self.ground.routes().since(self.moment),
            answered: Vec::new(rt.alloc()),
            taken: false,
        };
        self.calls.push(call).expect(rt, "memory");
        self.launch(rt, number);
    }

    /// A leg that the spool held at the start, if its server is in the table.
    pub(crate) fn open(&mut self, rt: &(impl AllocGlobal + Abort), server: ServerId, key: usize) {
        if self.ground.routes().servers().text(server).is_none() {
            return;
        }
        let launch = Launch {
            position: Position::root(rt.alloc()),
            server,
            op: Op::Delete,
            mark: Mark::Plain,
        };
        let leg = Leg {
            call: None,
            launch,
            key,
            stage: Stage::Spooled,
        };
        self.legs.push(leg).expect(rt, "memory");
    }

    pub(crate) fn stage(&self, leg: usize) -> Option<Stage> {
        Some(self.legs.get(leg)?.stage)
    }

    fn put(&mut self, leg: usize, stage: Stage) {
        if let Some(leg) = self.legs.get_mut(leg) {
            leg.stage = stage;
        }
    }

    /// The core has the leg in this state now.
    fn move_to(&mut self, leg: usize, state: LegState) {
        match state {
            LegState::Performed => self.put(leg, Stage::Performed),
            LegState::Gone => self.put(leg, Stage::Gone),
            LegState::Spooled => self.put(leg, Stage::Spooled),
            LegState::Held => self.put(leg, Stage::Held),
            LegState::Waiting | LegState::Sent => {}
        }
    }

    /// A leg in flight was answered, or lost, and the core says where it is then.
    fn land(&mut self, rt: &(impl AllocGlobal + Abort), leg: usize, reply: Part, state: LegState) {
        let replayed = self.stage(leg) == Some(Stage::Replayed);
        self.move_to(leg, state);
        if !replayed && state != LegState::Held {
            self.record(rt, leg, reply);
        }
    }

    /// What a server's reply to the leg counts as.
    fn counted(&self, rt: &(impl AllocGlobal + Abort), leg: usize, say: Say) -> Part {
        let (reply, _, _) = say.parts(rt, leg).into_parts();
        match self.legs.get(leg) {
            Some(there) if reply.may_answer(there.launch.op) => reply,
            _ => Part::Fixed(FixedReply::Lost),
        }
    }

    fn take(&mut self, call: usize) {
        if let Some(call) = self.calls.get_mut(call) {
            call.taken = true;
        }
    }

    /// Takes in what the core answered to an event on a leg.
    fn take_in_state(&mut self, rt: &(impl AllocGlobal + Abort), deed: Deed, state: LegState) {
        match deed {
            Deed::Answered(leg, say) => {
                let reply = self.counted(rt, leg, say);
                self.land(rt, leg, reply, state);
            }
            Deed::Lost(leg) | Deed::LostToo(leg) => {
                self.land(rt, leg, Part::Fixed(FixedReply::Lost), state);
            }
            Deed::Spooled(leg, _) => {
                self.put(leg, Stage::Spooled);
                self.record(rt, leg, Part::Fixed(FixedReply::NotFound));
            }
            Deed::SpoolRefused(leg) => {
                self.put(leg, Stage::Refused);
                self.record(rt, leg, Part::Fixed(FixedReply::Lost));
            }
            _ => {}
        }
    }

    /// Takes in what the core answered.
    pub(crate) fn take_in(&mut self, rt: &(impl AllocGlobal + Abort), deed: Deed, answer: &Answer) {
        match (deed, answer) {
            (deed, Answer::State(state)) => self.take_in_state(rt, deed, *state),
            (Deed::Begin(op, key), Answer::Call(_)) => self.begin(rt, op, key),
            (Deed::Next(_), Answer::Leg(leg)) => self.put(leg.0 as usize, Stage::Sent),
            (Deed::Replay(_), Answer::Leg(leg)) => self.put(leg.0 as usize, Stage::Replayed),
            (Deed::Clock(moment), Answer::Done) => self.moment = Moment(moment),
            (Deed::Take(call), Answer::Reply(Some(_))) => self.take(call),
            _ => {}
        }
    }

    /// How many legs are in flight to the server.
    pub(crate) fn in_flight(&self, server: ServerId) -> usize {
        let mut count: usize = 0;
        for leg in &self.legs {
            if leg.is_to(Some(server)) && leg.stage.is_in_flight() {
                count = count.saturating_add(1);
            }
        }
        count
    }

    /// Whether it sends a leg to a server to which others are in flight.
    pub(crate) fn is_beside_others(&self, deed: Deed) -> bool {
        match deed {
            Deed::Next(server) | Deed::Replay(server) => self.in_flight(server) > 0,
            _ => false,
        }
    }

    /// The least number from this one on of a leg at one of the stages, and to the server where one is given.
    pub(crate) fn first_leg(
        &self,
        from: usize,
        server: Option<ServerId>,
        stages: &[Stage],
    ) -> Option<usize> {
        for (number, leg) in self.legs.iter().enumerate() {
            if number >= from && leg.is_to(server) && stages.contains(&leg.stage) {
                return Some(number);
            }
        }
        None
    }
}
