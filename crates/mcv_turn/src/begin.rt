//! Calls begin for the keys of a request.

ghost use Rattle.std.specs.Prelude.{◌≡◌, ◌+◌, ◌≤◌, ◌++◌, [], List, IfErr, IfOk, OnErr, OnOk, vec_capacity, vec_len};
ghost use Rattle.std.specs.Arc.{arc_value};
ghost use Rattle.mcv_text.specs.Request.{request_value};
ghost use Rattle.mcv_hub.specs.Gate.{IsHubBegun};
ghost use Rattle.mcv_turn.specs.Answers.{AreBegun, WasBegun, WasRefused};
ghost use Rattle.mcv_turn.specs.Runs.{Runs};
ghost use Rattle.mcv_turn.specs.Steps.{Begins};

use mcv_base::{CallId, Request};
use mcv_core::CoreFault;
use mcv_hub::{Guard, HubLedger, Seat};
use std::alloc::Global;
use std::sync::Arc;
use std::sync::ledger::Ledger;

/// Begins a call for one key of the request.
fn begin<B: HubLedger, T: Ledger>(
    alloc: Global,
    guard: &mut Guard<'_, B, T>,
    seat: &mut Seat<B, T>,
    request: Arc<Request>,
    key: usize,
) -> Result<CallId, CoreFault>
    ensures event { IsHubBegun guard.old (arc_value request) key result guard.new }
    ensures begun { OnOk result (seat.new.begun.amount ≡ seat.old.begun.amount + 1) }
    ensures unbegun { OnErr result (seat.new.begun.amount ≡ seat.old.begun.amount) }
    ensures taken { seat.new.taken.amount ≡ seat.old.taken.amount }
    ensures began { IfOk result (WasBegun B.opened (request_value (arc_value request)) key) }
    ensures refused { IfErr result (WasRefused B.opened (request_value (arc_value request)) key) }
{
    guard.is_opened();
    guard.deletes_are_kept();
    guard.begin(alloc, seat, request, key)
}

/// Begins a call for one key of a request that others share. Memory is one of the errors.
pub(crate) fn begin_shared<B: HubLedger, T: Ledger>(
    alloc: Global,
    guard: &mut Guard<'_, B, T>,
    seat: &mut Seat<B, T>,
    request: &Arc<Request>,
    key: usize,
) -> Result<CallId, CoreFault>
    ensures event { Begins guard.old (arc_value request.now) key result guard.new }
    ensures begun { OnOk result (seat.new.begun.amount ≡ seat.old.begun.amount + 1) }
    ensures unbegun { OnErr result (seat.new.begun.amount ≡ seat.old.begun.amount) }
    ensures taken { seat.new.taken.amount ≡ seat.old.taken.amount }
    ensures began { IfOk result (WasBegun B.opened (request_value (arc_value request.now)) key) }
    ensures refused { IfErr result (WasRefused B.opened (request_value (arc_value request.now)) key) }
{
    guard.is_opened();
    guard.deletes_are_kept();
    match Arc::try_clone(request) {
        Ok(shared) => begin(alloc, guard, seat, shared, key),
        Err(_) => Err(CoreFault::Memory),
    }
}

/// Begins calls for the keys of a request from the first without one up to this number, in their order, up to the first that is
/// refused.
pub(crate) fn begin_each<B: HubLedger, T: Ledger>(
    alloc: Global,
    guard: &mut Guard<'_, B, T>,
    seat: &mut Seat<B, T>,
    request: &Arc<Request>,
    to: usize,
    calls: &mut Vec<CallId>,
) -> Result<(), CoreFault>
    requires began { AreBegun B.opened (request_value (arc_value request.now)) calls.old.items }
    requires room { to ≤ vec_capacity calls.old }
    requires more { vec_len calls.old ≤ to }
    ensures began { AreBegun B.opened (request_value (arc_value request.now)) calls.new.items }
    ensures runs { Runs guard.old [] [] guard.new }
    ensures all { OnOk result (vec_len calls.new ≡ to) }
    ensures most { vec_len calls.new ≤ to }
    ensures on { (more : List CallId) × (calls.new.items ≡ calls.old.items ++ more) }
    ensures begun { seat.new.begun.amount + vec_len calls.old ≡ seat.old.begun.amount + vec_len calls.new }
    ensures taken { seat.new.taken.amount ≡ seat.old.taken.amount }
    ensures room { vec_capacity calls.new ≡ vec_capacity calls.old }
    ensures err { IfErr result (WasRefused B.opened (request_value (arc_value request.now)) (vec_len calls.new)) }
{
    for key in calls.len()..to {
        match begin_shared(alloc, guard, seat, request, key) {
            Ok(call) => calls.push_reserved(call),
            Err(fault) => return Err(fault),
        }
    }
    Ok(())
}
