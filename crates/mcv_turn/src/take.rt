//! Replies to calls are taken.

ghost use Rattle.std.specs.Prelude.{◌≡◌, ◌+◌, ◌≤◌, [], length, vec_len, vec_capacity, IfErr, IfNone, IfOk, IfSome, OnErr};
ghost use Rattle.mcv_turn.specs.Answers.{AreTaken, KeepsMore, WasMissing, WasTaken};
ghost use Rattle.mcv_turn.specs.Runs.{Runs};

use crate::kept::Kept;
use mcv_base::CallId;
use mcv_core::CoreFault;
use mcv_hub::{Guard, HubLedger, Seat, TakenReply};
use std::sync::ledger::Ledger;

/// How far a request has come with the replies to its calls.
#[derive(Clone, Copy)]
pub(crate) struct Progress {
    /// How many calls are done with: their replies were taken, or won't come.
    pub(crate) done: usize,
    pub(crate) missed: Option<CoreFault>,
}

/// How far it has come by taking those that are there.
#[derive(Clone, Copy)]
pub(crate) struct Taking {
    pub(crate) progress: Progress,
    /// There was memory for each receipt.
    pub(crate) has_memory: bool,
}

/// Takes the reply to a call, if it is there.
fn take_one<B: HubLedger, T: Ledger>(
    guard: &mut Guard<'_, B, T>,
    seat: &mut Seat<B, T>,
    call: CallId,
) -> Result<Option<TakenReply>, CoreFault>
    ensures runs { Runs guard.old [] [] guard.new }
    ensures taken { IfOk result (λ found. IfSome found (WasTaken B.opened)) }
    ensures call { IfOk result (λ found. IfSome found (λ t. t.receipt.call ≡ call)) }
    ensures counted { IfOk result (λ found. IfSome found (λ t. seat.new.taken.amount ≡ seat.old.taken.amount + 1)) }
    ensures uncounted { IfOk result (λ found. IfNone found (seat.new.taken.amount ≡ seat.old.taken.amount)) }
    ensures refused { OnErr result (seat.new.taken.amount ≡ seat.old.taken.amount) }
    ensures begun { seat.new.begun.amount ≡ seat.old.begun.amount }
    ensures err { IfErr result (λ fault. fault ≡ CoreFault.NoSuchCall) }
    ensures missing { OnErr result (WasMissing B.opened call) }
{
    guard.is_opened();
    guard.deletes_are_kept();
    guard.take_reply(seat, call)
}

/// Takes the replies to calls that are there, in their order, up to the first that isn't, and keeps their receipts. Where one won't
/// come the others are taken too, and it is NoSuchCall. Where there is no memory for a receipt its reply stays.
pub(crate) fn take_ready<B: HubLedger, T: Ledger>(
    guard: &mut Guard<'_, B, T>,
    seat: &mut Seat<B, T>,
    kept: &mut Kept,
    calls: &[CallId],
    progress: Progress,
    taken: &mut Vec<TakenReply>,
) -> Taking
    requires so_far { AreTaken B.opened calls.now progress.done progress.missed taken.old.items }
    requires room { length calls.now ≤ vec_capacity taken.old }
    ensures runs { Runs guard.old [] [] guard.new }
    ensures so_far { AreTaken B.opened calls.now result.progress.done result.progress.missed taken.new.items }
    ensures on { progress.done ≤ result.progress.done }
    ensures kept { KeepsMore kept.old.receipts.items kept.new.receipts.items taken.old.items taken.new.items }
    ensures room { vec_capacity taken.new ≡ vec_capacity taken.old }
    ensures counted { seat.new.taken.amount + vec_len taken.old ≡ seat.old.taken.amount + vec_len taken.new }
    ensures begun { seat.new.begun.amount ≡ seat.old.begun.amount }
{
    let mut missed = progress.missed;
    for done in progress.done..calls.len() {
        if kept.reserve(1).is_err() {
            return Taking {
                progress: Progress { done, missed },
                has_memory: false,
            };
        }
        match take_one(guard, seat, calls[done]) {
            Ok(Some(reply)) => {
                kept.keep(&reply);
                taken.push_reserved(reply);
            }
            Ok(None) => {
                return Taking {
                    progress: Progress { done, missed },
                    has_memory: true,
                };
            }
            Err(fault) => missed = Some(fault),
        }
    }
    Taking {
        progress: Progress {
            done: calls.len(),
            missed,
        },
        has_memory: true,
    }
}
