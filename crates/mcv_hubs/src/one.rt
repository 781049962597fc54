//! What a session does at one hub.

ghost use Rattle.std.specs.Prelude.{◌≡◌};
ghost use Rattle.std.specs.Arc.{arc_value};
ghost use Rattle.mcv_hubs.specs.Counts.{begun_by, taken_by, tally};
ghost use Rattle.mcv_hubs.specs.Reports.{IsAnswerOf};
ghost use Rattle.mcv_hubs.specs.Taken.{WasBegun, WasTaken};

use mcv_base::{CallId, Request};
use mcv_core::CoreFault;
use mcv_hub::{Bell, Gate, Hub, HubLedger, Pass, Receipt, ReceiptFault, Report, Seat, TakenReply};
use std::alloc::Global;
use std::rt::Clock;
use std::sync::ledger::Ledger;
use std::sync::{Arc, Wait};
use std::time::Duration;

/// How long a call waits for the next chapter at most, in milliseconds.
const PATIENCE: u64 = 1_000;

/// Begins a call for one key of the request. Where the next chapter is due the first key waits for that, and begins in the old
/// one where that takes too long; for another key the request's own calls run, so it doesn't wait. What is left of an old
/// chapter is dropped once the lock is let go.
pub(crate) fn begin<B: HubLedger, T: Ledger, R: Wait + Clock>(
    rt: &R,
    alloc: Global,
    hub: &Hub<B, T>,
    pass: &mut Pass,
    seat: &mut Seat<B, T>,
    asked: (Arc<Request>, usize),
) -> Result<CallId, CoreFault>
    ensures event { WasBegun B.number (arc_value asked.0) asked.1 result }
    ensures counted { tally seat.new.begun.amount seat.new.taken.amount seat.new.begun.parts seat.new.taken.parts ≡ begun_by result (tally seat.old.begun.amount seat.old.taken.amount seat.old.begun.parts seat.old.taken.parts) }
{
    let (request, key) = asked;
    let guard = hub.lock(rt, pass);
    let (mut guard, gate) = if key == 0 {
        hub.enter(rt, alloc, guard, Duration::from_millis(PATIENCE))
    } else {
        (guard, Gate::Open)
    };
    guard.is_numbered();
    let begun = guard.begin(alloc, seat, request, key);
    drop(guard);
    welcome(hub, gate);
    begun
}

/// Takes the reply to a call, where it is there, and begins the next chapter where that is due and can begin.
pub(crate) fn take_reply<B: HubLedger, T: Ledger, R: Wait>(
    rt: &R,
    alloc: Global,
    hub: &Hub<B, T>,
    pass: &mut Pass,
    seat: &mut Seat<B, T>,
    call: CallId,
) -> Result<Option<TakenReply>, CoreFault>
    ensures event { WasTaken B.number call result }
    ensures counted { tally seat.new.begun.amount seat.new.taken.amount seat.new.begun.parts seat.new.taken.parts ≡ taken_by result (tally seat.old.begun.amount seat.old.taken.amount seat.old.begun.parts seat.old.taken.parts) }
{
    let mut guard = hub.lock(rt, pass);
    guard.is_numbered();
    guard.deletes_are_kept();
    let taken = guard.take_reply(seat, call);
    let gate = guard.gate(alloc);
    drop(guard);
    welcome(hub, gate);
    taken
}

/// Where the next chapter has begun, wakes who waits for it, and drops what is left of the old one. The lock is let go before.
fn welcome<B: HubLedger, T: Ledger>(hub: &Hub<B, T>, gate: Gate) {
    if let Gate::Turned(_past) = gate {
        hub.ring(Bell::Chapter);
    }
}

/// Closes the books of a hub over these receipts.
pub(crate) fn close<B: HubLedger, T: Ledger, R: Wait>(
    rt: &R,
    alloc: Global,
    hub: &Hub<B, T>,
    pass: &mut Pass,
    seat: &mut Seat<B, T>,
    receipts: &[Receipt],
) -> Result<Report, ReceiptFault>
    ensures answer { IsAnswerOf B.number B.parts T.parts receipts.now (tally seat.old.begun.amount seat.old.taken.amount seat.old.begun.parts seat.old.taken.parts) result }
    ensures same { tally seat.new.begun.amount seat.new.taken.amount seat.new.begun.parts seat.new.taken.parts ≡ tally seat.old.begun.amount seat.old.taken.amount seat.old.begun.parts seat.old.taken.parts }
{
    let mut guard = hub.lock(rt, pass);
    guard.is_numbered();
    guard.deletes_are_kept();
    guard.close(alloc, seat, receipts)
}
