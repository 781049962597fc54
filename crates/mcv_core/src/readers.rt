//! What is read of the legs.

ghost use Rattle.std.specs.Prelude.{◌≡◌, ◌≤◌, ℕ, IfOk, IfSome, length, option_and_then, option_copied, option_map, slice_get, vec_len};
ghost use Rattle.mcv_events.specs.QueuedLegs.{queued_legs};
ghost use Rattle.mcv_queues.specs.Numbers.{leg_number};
ghost use Rattle.mcv_core.specs.Errands.{launch_of, rest_of};
ghost use Rattle.mcv_core.specs.Flights.{AreInFlight, AreWaiting};
ghost use Rattle.mcv_core.specs.Readers.{IsFirstHeld, call_asked, leg_state, request_in, request_of, row_asked, seen, seen_row};
ghost use Rattle.mcv_core.specs.Rows.{call_row, state_of};
ghost use Rattle.mcv_core.specs.View.{core_view, records_of};

use crate::call::Call;
use crate::dispatcher::Dispatcher;
use crate::errand::Errand;
use crate::step::LegState;
use mcv_base::{CallId, LegId, Mark, Op, Request, Rest, ServerId};
use mcv_check::Accepted;
use mcv_queues::State;
use std::alloc::{AllocError, Global};

/// What its server is sent of a leg.
#[derive(Clone, Copy)]
pub struct LegView<'a> {
    /// The call that launched it; None where the spool held it at the start.
    pub call: Option<CallId>,
    pub server: ServerId,
    pub op: Op,
    pub mark: Mark,
    pub rest: &'a Rest,
    /// Its place in the tree of its call's route; empty where the spool held it at the start.
    pub position: &'a [usize],
    /// The number of its record in the spool; None until it is stored there.
    pub record: Option<u64>,
    /// What the client asked; None where the spool held the leg at the start.
    pub request: Option<&'a Request>,
}

/// What a running call asks.
#[derive(Clone, Copy)]
pub struct CallView<'a> {
    pub op: Op,
    /// The number of its route.
    pub route: usize,
    /// Its key without the routing prefix.
    pub rest: &'a Rest,
}

impl LegState {
    /// Where a leg in this state is.
    fn of(state: State) -> LegState
        ensures { result ≡ leg_state (state_of state) }
    {
        match state {
            State::Waiting => LegState::Waiting,
            State::Sent => LegState::Sent,
            State::Held | State::Refused => LegState::Held,
            State::InSpool | State::InReplay => LegState::Spooled,
        }
    }
}

impl Errand {
    /// What its server is sent of it, of which the record in the spool has this number.
    fn view(&self, seq: Option<u64>) -> LegView<'_>
        ensures call { option_map (λ k. k.0) result.call ≡ self.now.call }
        ensures server { result.server ≡ (launch_of self.now).server }
        ensures op { result.op ≡ (launch_of self.now).op }
        ensures mark { result.mark ≡ (launch_of self.now).mark }
        ensures rest { result.rest.now ≡ rest_of self.now }
        ensures position { result.position.now ≡ (launch_of self.now).position }
        ensures record_number { result.«record» ≡ seq }
        ensures request { option_copied result.request ≡ request_in self.now }
    {
        LegView {
            call: self.call.map(CallId),
            server: self.server(),
            op: self.op(),
            mark: self.mark(),
            rest: &self.laid.rest,
            position: self.position(),
            record: seq,
            request: self.laid.request.as_deref(),
        }
    }
}

impl Call {
    /// What it asks.
    fn view(&self) -> CallView<'_>
        ensures { call_asked result ≡ row_asked (call_row self.now) }
    {
        CallView {
            op: self.op,
            route: self.route,
            rest: &self.laid.rest,
        }
    }
}

impl Dispatcher {
    /// The routes that it runs over, which the checker accepted: no event changes them.
    pub fn accepted(&self) -> &Accepted
        ensures { result.now ≡ (core_view self.now).routes }
    {
        &self.accepted
    }

    /// What a running call asks; None where the call doesn't run.
    pub fn call(&self, call: CallId) -> Option<CallView<'_>>
        ensures { option_map call_asked result ≡ option_map row_asked ((core_view self.now).rows.calls call.0) }
    {
        match self.calls.get(call.0) {
            Some(running) => Some(running.view()),
            None => None,
        }
    }

    /// Where a leg is; None where it is neither queued nor spooled.
    pub fn leg_state(&self, leg: LegId) -> Option<LegState>
        ensures { result ≡ option_map (λ s. leg_state s.state) ((core_view self.now).rows.legs leg.0) }
    {
        let row = self.queues.get(leg)?;
        Some(LegState::of(row.state))
    }

    /// How many legs of a server are in flight, sent or in replay.
    pub fn in_flight(&self, server: ServerId) -> usize
        ensures flights { result ≡ (core_view self.now).flights server.0 }
        ensures counted { ∥ AreInFlight (core_view self.now).rows server.0 result ∥₁ }
        ensures within { result ≤ (core_view self.now).limit }
    {
        self.queues.in_flight(server)
    }

    /// How many legs wait to be sent to each server, in the order of the servers' numbers: one pass over all legs. An error is
    /// that memory ran out.
    pub fn waiting(&self, alloc: Global) -> Result<Vec<usize>, AllocError>
        ensures servers { IfOk result (λ counts. length (core_view self.now).routes.servers ≤ vec_len counts) }
        ensures counted { IfOk result (λ counts. (s : ℕ) → IfSome (slice_get counts.items s) (λ count. ∥ AreWaiting (core_view self.now).rows s count ∥₁)) }
    {
        self.queues.waiting(alloc)
    }

    /// How many legs are queued: they wait, are sent for the first time, or are held.
    pub fn queued(&self) -> usize
        ensures { result ≡ queued_legs (core_view self.now).rows }
    {
        self.counts.queued
    }

    /// How many legs of a server may be in flight at a time.
    pub fn limit(&self) -> usize
        ensures { result ≡ (core_view self.now).limit }
    {
        self.limit
    }

    /// The number of the next leg that a call launches: those that an event launched have the numbers from what it was
    /// before to what it is after.
    pub fn next_leg(&self) -> u64
        ensures { result ≡ (core_view self.now).rows.next_leg }
    {
        self.next_leg
    }

    /// The number of a leg's record in the spool; None where the leg isn't stored there, or isn't there.
    pub fn record(&self, leg: LegId) -> Option<u64>
        ensures { result ≡ records_of self.now leg.0 }
    {
        let row = self.queues.get(leg)?;
        row.record
    }

    /// The leg that the spool is to take next: of those that are held without an outcome the one with the least number,
    /// and where there is none, of those that are held.
    pub fn held(&self) -> Option<LegId>
        ensures { IsFirstHeld (core_view self.now).rows (option_map leg_number result) }
    {
        match self.queues.first_held() {
            Some(leg) => Some(leg),
            None => None,
        }
    }

    /// What its server is sent of a leg; None where it is neither queued nor spooled.
    pub fn leg(&self, leg: LegId) -> Option<LegView<'_>>
        ensures row { option_map seen result ≡ option_map seen_row ((core_view self.now).rows.legs leg.0) }
        ensures record_number { option_and_then (λ v. v.«record») result ≡ records_of self.now leg.0 }
        ensures request { option_and_then (λ v. option_copied v.request) result ≡ request_of self.now leg.0 }
    {
        match self.queues.get(leg) {
            Some(row) => Some(row.content.view(row.record)),
            None => None,
        }
    }
}
