//! Deletes that their servers didn't perform, on their way into the spool.

ghost use Rattle.std.specs.Prelude.{◌≡◌, ◌↔◌, false, None, Some, IfErr, IfNone, IfOk, IfSome, IsTrue, OnErr};
ghost use Rattle.mcv_core.specs.Events.{IsRefusedLeg, IsSpooledLeg};
ghost use Rattle.mcv_core.specs.Readers.{IsFirstHeld};
ghost use Rattle.mcv_core.specs.View.{core_view};
ghost use Rattle.mcv_hub.specs.Events.{IsHubEvent};
ghost use Rattle.mcv_turn.specs.Flights.{IsRecordOf};

use crate::flight::HeldLeg;
use mcv_base::{LegId, ServerId, ServerText};
use mcv_core::{Change, CoreFault, Step};
use mcv_hub::{Guard, HubLedger};
use mcv_route::Routes;
use mcv_spool::{SpoolFault, SpoolRecord, Stored};
use std::alloc::{AllocError, Global};
use std::sync::ledger::Ledger;

/// The texts of the servers, by their numbers; None where one is no text of a record.
pub(crate) fn texts_of(
    alloc: Global,
    routes: &Routes,
) -> Result<Vec<Option<ServerText>>, AllocError> {
    let servers = routes.servers();
    let mut texts = Vec::new(alloc);
    for number in 0..u32::try_from(servers.len()).unwrap_or(u32::MAX) {
        let text = match servers.text(ServerId(number)) {
            Some(text) => ServerText::of(text.as_bytes()),
            None => None,
        };
        texts.push(text)?;
    }
    Ok(texts)
}

/// The record of a leg, where these are the texts of the servers.
fn record_of<B: HubLedger, T: Ledger>(
    texts: &[Option<ServerText>],
    guard: &Guard<'_, B, T>,
    leg: LegId,
) -> Option<SpoolRecord>
    ensures { IfSome result (IsRecordOf texts.now guard.now leg) }
{
    let view = guard.core().leg(leg)?;
    let text = texts.get(view.server.0 as usize)?.as_ref()?;
    Some(SpoolRecord {
        server: text.copied(),
        rest: view.rest.copied(),
    })
}

/// The leg that the spool is to take next, with its record; None where there is none, and no leg where it has no record.
pub(crate) fn held_leg<B: HubLedger, T: Ledger>(
    texts: &[Option<ServerText>],
    guard: &Guard<'_, B, T>,
) -> Option<Option<HeldLeg>>
    ensures none { IfNone result (IsFirstHeld (core_view guard.now.core).rows None) }
    ensures first { IfSome result (λ o. IfSome o (λ held. IsFirstHeld (core_view guard.now.core).rows (Some held.leg.0))) }
    ensures delete { IfSome result (λ o. IfSome o (λ held. IsRecordOf texts.now guard.now held.leg held.delete)) }
{
    guard.deletes_are_kept();
    let leg = guard.core().held()?;
    let Some(delete) = record_of(texts, guard, leg) else {
        return Some(None);
    };
    let held = HeldLeg { leg, delete };
    Some(Some(held))
}

/// Whether a leg was refused of which its call had no outcome before.
pub(crate) fn is_first_refusal(refused: Result<Step, CoreFault>) -> bool
    ensures ok { IfOk refused (λ step. IsTrue result ↔ (step.change ≡ Change.Refused)) }
    ensures err { OnErr refused (result ≡ false) }
{
    match refused {
        Ok(step) => step.change == Change::Refused,
        Err(_) => false,
    }
}

/// Reports what the spool answered to the record of a held leg: the leg is in the spool, or the spool refused it.
pub(crate) fn settle<B: HubLedger, T: Ledger>(
    guard: &mut Guard<'_, B, T>,
    leg: LegId,
    outcome: Result<Stored, SpoolFault>,
) -> Result<Step, CoreFault>
    ensures stored { IfOk outcome (λ stored. IsHubEvent (IsSpooledLeg (core_view guard.old.core) leg stored result) guard.old guard.new) }
    ensures refused { OnErr outcome (IsHubEvent (IsRefusedLeg (core_view guard.old.core) leg result) guard.old guard.new) }
{
    match outcome {
        Ok(stored) => guard.spooled(leg, stored),
        Err(_) => guard.spool_refused(leg),
    }
}
