//! The next leg of a server comes in flight.

ghost use Rattle.std.specs.Prelude.{◌≡◌, false, Some, Err, IfErr, IfOk, IfSome};
ghost use Rattle.mcv_core.specs.Events.{IsNext, IsReplay};
ghost use Rattle.mcv_core.specs.Requests.{asked_at, asked_by};
ghost use Rattle.mcv_core.specs.View.{core_view};
ghost use Rattle.mcv_hub.specs.Events.{IsHubEvent};
ghost use Rattle.mcv_turn.specs.Flights.{CameInFlight, is_marked};
ghost use Rattle.mcv_turn.specs.Steps.{IsDeparture, IsReturn};

use crate::flight::{Departure, Flight};
use crate::landing::{call_of, lose};
use mcv_base::{LegId, LegRequest, ServerId};
use mcv_core::{CoreFault, Dispatcher};
use mcv_hub::{Guard, HubLedger};
use std::alloc::Global;
use std::sync::ledger::Ledger;

/// What a leg asks its server; None where it isn't there, or there is no memory for that.
fn request_of(alloc: Global, core: &Dispatcher, leg: LegId) -> Option<LegRequest>
    ensures { IfSome result (λ request. asked_at core.now leg.0 ≡ Some (asked_by request)) }
{
    match core.to_request(alloc, leg) {
        Ok(request) => request,
        Err(_) => None,
    }
}

/// The flight of a leg that came in flight; None where its server is marked, or there is no memory for its request.
fn flight_of<B: HubLedger, T: Ledger>(
    alloc: Global,
    guard: &Guard<'_, B, T>,
    server: ServerId,
    leg: LegId,
) -> Option<Flight>
    requires { CameInFlight server leg guard.now }
    ensures its { IfSome result (λ flight. (flight.server ≡ server) × (flight.leg ≡ leg)) }
    ensures unmarked { IfSome result (λ flight. is_marked guard.now server ≡ false) }
    ensures asks { IfSome result (λ flight. asked_at guard.now.core leg.0 ≡ Some (asked_by flight.request)) }
{
    if guard.core().marked(server) {
        return None;
    }
    let Some(request) = request_of(alloc, guard.core(), leg) else {
        return None;
    };
    let flight = Flight {
        server,
        leg,
        request,
    };
    Some(flight)
}

/// The first leg that waits for a server comes in flight: it is to be sent, or is lost at once, as that of a marked server is. An
/// error is Busy, where as many legs of the server are in flight as may be, or NothingWaiting.
pub(crate) fn take_next<B: HubLedger, T: Ledger>(
    alloc: Global,
    guard: &mut Guard<'_, B, T>,
    server: ServerId,
) -> Result<Departure, CoreFault>
    ensures departs { IfOk result (IsDeparture server guard.old guard.new) }
    ensures refused { IfErr result (λ fault. IsHubEvent (IsNext (core_view guard.old.core) server (Err fault)) guard.old guard.new) }
{
    guard.deletes_are_kept();
    let leg = guard.next(server)?;
    match flight_of(alloc, guard, server, leg) {
        Some(flight) => Ok(Departure::Sent(flight)),
        None => {
            let call = call_of(guard.core(), leg);
            let _ = lose(guard, server, leg);
            Ok(Departure::Lost { leg, call })
        }
    }
}

/// The first leg of a server that is in the spool comes in flight again, as `take_next` has it of those that wait.
pub(crate) fn take_again<B: HubLedger, T: Ledger>(
    alloc: Global,
    guard: &mut Guard<'_, B, T>,
    server: ServerId,
) -> Result<Departure, CoreFault>
    ensures comes { IfOk result (IsReturn server guard.old guard.new) }
    ensures refused { IfErr result (λ fault. IsHubEvent (IsReplay (core_view guard.old.core) server (Err fault)) guard.old guard.new) }
{
    guard.deletes_are_kept();
    let leg = guard.replay(server)?;
    match flight_of(alloc, guard, server, leg) {
        Some(flight) => Ok(Departure::Sent(flight)),
        None => {
            let call = call_of(guard.core(), leg);
            let _ = lose(guard, server, leg);
            Ok(Departure::Lost { leg, call })
        }
    }
}
