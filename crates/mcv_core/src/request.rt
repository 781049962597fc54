//! What a leg asks its server.

ghost use Rattle.std.specs.Prelude.{◌≡◌, ℕ, IfOk, None, Option, Some, map, option_copied, option_map};
ghost use Rattle.std.specs.Arc.{arc_value};
ghost use Rattle.mcv_asks.specs.Asks.{client_fields};
ghost use Rattle.mcv_asks.specs.Hits.{heard_of};
ghost use Rattle.mcv_core.specs.Calls.{calls_at};
ghost use Rattle.mcv_core.specs.Errands.{launch_of, rest_of};
ghost use Rattle.mcv_core.specs.Readers.{request_in};
ghost use Rattle.mcv_core.specs.Requests.{asked_at, asked_by, asked_of, call_in, fields_by};
ghost use Rattle.mcv_core.specs.Rows.{recorded_one};
ghost use Rattle.mcv_core.specs.CallProgress.{launch_at};

use crate::call::{Call, Recorded};
use crate::dispatcher::Dispatcher;
use crate::errand::Errand;
use mcv_asks::{Call as Asking, Heard, client_request, leg_request};
use mcv_base::{LegId, LegRequest};
use mcv_route::{Launch, Routes};
use std::alloc::{AllocError, Global};

/// The position of an entry.
fn position_at(launches: &[Launch], entry: usize) -> &[usize]
    ensures { result.now ≡ (launch_at launches.now entry).position }
{
    match launches.get(entry) {
        Some(launch) => launch.position.steps(),
        None => &[],
    }
}

/// The replies that a call of these entries has recorded, the oldest first.
fn heard_by<'a>(
    alloc: Global,
    launches: &'a [Launch],
    recorded: &'a [Recorded],
) -> Result<Vec<Heard<'a>>, AllocError>
    ensures { IfOk result (λ r. map heard_of r.items ≡ map (recorded_one launches.now) recorded.now) }
{
    let mut heard = Vec::new(alloc);
    for reply in recorded {
        heard.push(Heard {
            position: position_at(launches, reply.entry),
            reply: &reply.outcome,
        })?;
    }
    Ok(heard)
}

impl Errand {
    /// What it asks of its server, while no call of it runs.
    fn client_request(&self, alloc: Global) -> Result<LegRequest, AllocError>
        ensures { IfOk result (λ r. asked_by r ≡ record { op = (launch_of self.now).op; rest = rest_of self.now; fields = client_fields (request_in self.now) }) }
    {
        client_request(
            alloc,
            self.laid.request.as_deref(),
            self.op(),
            &self.laid.rest,
        )
    }
}

impl Call {
    /// What a leg of the call asks its server.
    fn request_of(
        &self,
        alloc: Global,
        routes: &Routes,
        errand: &Errand,
    ) -> Result<LegRequest, AllocError>
        ensures { IfOk result (λ r. asked_by r ≡ record { op = (launch_of errand.now).op; rest = rest_of errand.now; fields = fields_by routes.now errand.now (Some self.now) }) }
    {
        let heard = heard_by(alloc, &self.laid.launches, &self.recorded)?;
        let asking = Asking {
            op: self.op,
            rest: &self.laid.rest,
            since: self.since,
            choice: &self.choice,
            heard: &heard,
        };
        let Some(route) = routes.route(self.route) else {
            return errand.client_request(alloc);
        };
        let Some(launch) = errand.laid.launches.get(errand.entry) else {
            return errand.client_request(alloc);
        };
        let request = errand.laid.request.as_deref();
        leg_request(alloc, route, asking, request, launch, &errand.laid.rest)
    }
}

impl Dispatcher {
    /// What a leg asks its server; None where it is neither queued nor spooled. It shares the bytes of values.
    pub fn to_request(&self, alloc: Global, leg: LegId) -> Result<Option<LegRequest>, AllocError>
        ensures { IfOk result (λ r. option_map asked_by r ≡ asked_at self.now leg.0) }
    {
        match self.queues.get(leg) {
            Some(row) => Ok(Some(self.errand_request(alloc, &row.content)?)),
            None => Ok(None),
        }
    }

    fn errand_request(&self, alloc: Global, errand: &Errand) -> Result<LegRequest, AllocError>
        ensures { IfOk result (λ r. asked_by r ≡ asked_of (arc_value self.now.accepted) (calls_at self.now.calls) errand.now) }
    {
        match self.call_of(errand) {
            Some(call) => call.request_of(alloc, self.accepted.routes(), errand),
            None => errand.client_request(alloc),
        }
    }

    /// The call that launched the errand, while it runs.
    fn call_of(&self, errand: &Errand) -> Option<&Call>
        ensures { option_copied result ≡ call_in (calls_at self.now.calls) errand.now }
    {
        match errand.call {
            Some(number) => self.calls.get(number),
            None => None,
        }
    }
}
