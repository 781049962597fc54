//! Where the core has its legs, and that deletes are kept.

use crate::model::{Call, Leg, Model, Stage};
use mcv_base::{CallId, LegId, Outcome, ServerId};
use mcv_core::{Core, LegState};
use mcv_pools::Fnv;
use std::process::Abort;

/// Where the core is to have a leg at this stage.
fn leg_state(stage: Stage) -> Option<LegState> {
    match stage {
        Stage::Waiting => Some(LegState::Waiting),
        Stage::Sent => Some(LegState::Sent),
        Stage::Held | Stage::Refused => Some(LegState::Held),
        Stage::Spooled | Stage::Replayed => Some(LegState::Spooled),
        Stage::Performed | Stage::Gone => None,
    }
}

/// Whether the call is of this number, or there is neither.
fn is_call(call: Option<CallId>, number: Option<usize>) -> bool {
    match (call, number) {
        (Some(call), Some(number)) => call.0 == number as u64,
        (None, None) => true,
        _ => false,
    }
}

impl Model<'_> {
    /// Whether the core has the leg where the model has it, and sends of it what the model has.
    fn is_leg(&self, core: &Core<Fnv>, number: usize, leg: &Leg) -> bool {
        let state = core.state().leg_state(LegId(number as u64));
        if state != leg_state(leg.stage) {
            return false;
        }
        let (Some(view), Some(key)) = (core.state().leg(LegId(number as u64)), self.key(leg.key))
        else {
            return state.is_none();
        };
        is_call(view.call, leg.call)
            && view.server.is(leg.launch.server)
            && view.op.is(leg.launch.op)
            && view.mark == leg.launch.mark
            && view.rest.as_bytes() == key.rest.as_bytes()
    }

    /// The core has the model's legs, and none behind them.
    pub(crate) fn check_legs(&self, core: &Core<Fnv>) -> Result<(), &'static str> {
        for (number, leg) in self.legs.iter().enumerate() {
            if !self.is_leg(core, number, leg) {
                return Err("a leg isn't where the model has it, or asks something else");
            }
        }
        match core.state().leg_state(LegId(self.legs.len() as u64)) {
            None => Ok(()),
            Some(_) => Err("a leg has a number that no leg has"),
        }
    }

    /// A chapter that began has an entry for each spooled leg.
    pub(crate) fn check_entries(&self, core: &Core<Fnv>) -> Result<(), &'static str> {
        let mut spooled: usize = 0;
        for leg in &self.legs {
            if leg.stage == Stage::Spooled {
                spooled = spooled.saturating_add(1);
            }
        }
        if core.state().entries() == spooled {
            Ok(())
        } else {
            Err("a chapter that began hasn't an entry for each spooled leg")
        }
    }

    /// Whether the call is a delete that has a reply other than an error, taken or not.
    fn is_acknowledged(&self, rt: &(impl AllocGlobal + Abort), call: &Call) -> bool {
        if !call.op.is_delete() {
            return false;
        }
        let outcome = self.status(rt, call).outcome(&call.answered);
        matches!(outcome, Some(Outcome::Good | Outcome::Soft))
    }

    /// Whether the call has a counted delete leg to the server that was performed, or that the core has, queued or
    /// spooled.
    fn keeps(&self, core: &Core<Fnv>, call: usize, server: ServerId) -> bool {
        for (number, leg) in self.legs.iter().enumerate() {
            if leg.call == Some(call)
                && leg.launch.server.is(server)
                && leg.is_counted_delete()
                && (leg.stage == Stage::Performed
                    || core.state().leg_state(LegId(number as u64)).is_some())
            {
                return true;
            }
        }
        false
    }

    /// Checks that deletes are kept. Gives how many legs they keep.
    pub(crate) fn check_kept(
        &self,
        rt: &(impl AllocGlobal + Abort),
        core: &Core<Fnv>,
    ) -> Result<usize, &'static str> {
        let mut count: usize = 0;
        for (number, call) in self.calls.iter().enumerate() {
            if self.is_acknowledged(rt, call) {
                count = count.saturating_add(self.check_call(core, number, call)?);
            }
        }
        Ok(count)
    }

    /// The call keeps a leg to each server that can be read. Gives how many these are.
    fn check_call(
        &self,
        core: &Core<Fnv>,
        number: usize,
        call: &Call,
    ) -> Result<usize, &'static str> {
        let servers = self.ground.readable(call.key, call.since);
        for server in servers {
            if !self.keeps(core, number, *server) {
                return Err("a delete with a reply keeps no leg to a server that can be read");
            }
        }
        Ok(servers.len())
    }
}
