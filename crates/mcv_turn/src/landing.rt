//! Legs in flight that were answered or lost.

ghost use Rattle.std.specs.Prelude.{◌≡◌, true, IfSome, Ok};
ghost use Rattle.mcv_core.specs.declared.step.Step.{Step as StepOf};
ghost use Rattle.mcv_turn.specs.Steps.{IsLanding, IsLoss, IsLostAs, IsReported, WasPerformed};

use crate::arrival::{Arrival, NoReply};
use mcv_base::{CallId, LegId, ServerId};
use mcv_core::{Change, CoreFault, Dispatcher, Step};
use mcv_hub::{Guard, HubLedger, LegReply};
use std::sync::ledger::Ledger;

/// The call of a leg, while it is there.
pub(crate) fn call_of(core: &Dispatcher, leg: LegId) -> Option<CallId> {
    core.leg(leg)?.call
}

/// A leg in flight was lost, and its server is marked where it has failed too often.
pub(crate) fn lose<B: HubLedger, T: Ledger>(
    guard: &mut Guard<'_, B, T>,
    server: ServerId,
    leg: LegId,
) -> Result<Step, CoreFault>
    ensures { IsLoss server leg guard.old guard.new result }
{
    match guard.lost(leg) {
        Ok(step) => {
            guard.mark(server);
            Ok(step)
        }
        Err(fault) => Err(fault),
    }
}

/// A leg in flight was lost, or lost too.
fn lose_as<B: HubLedger, T: Ledger>(
    guard: &mut Guard<'_, B, T>,
    server: ServerId,
    leg: LegId,
    why: NoReply,
) -> Result<Step, CoreFault>
    ensures { IsLostAs server leg why guard.old guard.new result }
{
    match why {
        NoReply::Lost => lose(guard, server, leg),
        NoReply::LostToo => guard.lost_too(leg),
    }
}

/// A leg in flight was answered, or has no reply.
fn land<B: HubLedger, T: Ledger>(
    guard: &mut Guard<'_, B, T>,
    server: ServerId,
    leg: LegId,
    reply: Result<LegReply, NoReply>,
) -> Result<Step, CoreFault>
    ensures { IsLanding server leg reply guard.old guard.new result }
{
    match reply {
        Ok(reply) => guard.answered(leg, reply),
        Err(why) => lose_as(guard, server, leg, why),
    }
}

/// What became of a leg in flight is reported. The number of its record, where it was sent again from the spool and its server has
/// performed it.
pub(crate) fn report<B: HubLedger, T: Ledger>(
    guard: &mut Guard<'_, B, T>,
    arrival: Arrival,
) -> Option<u64>
    ensures reported { IsReported arrival.server arrival.leg arrival.reply guard.old guard.new }
    ensures performed { IfSome result (λ number. WasPerformed number arrival guard.old guard.new) }
{
    let Arrival { server, leg, reply } = arrival;
    let number = guard.core().record(leg);
    let landed = land(guard, server, leg, reply);
    if !has_performed(landed) {
        return None;
    }
    number
}

/// Whether a leg that was sent again was performed.
fn has_performed(landed: Result<Step, CoreFault>) -> bool
    ensures { result ≡ true → (step : StepOf) × (landed ≡ Ok step) × (step.change ≡ Change.Performed) }
{
    match landed {
        Ok(step) => step.change == Change::Performed,
        Err(_) => false,
    }
}
