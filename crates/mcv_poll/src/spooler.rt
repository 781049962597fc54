//! The thread of the spool.

ghost use Rattle.std.specs.Prelude.{◌≡◌, ◌++◌, ◌∷◌, [], None, Some, false, length, IfErr, IfNone, IfOk, IfSome, OnErr, OnOk, is_some};
ghost use Rattle.mcv_spool.specs.FoundFile.{IsFound};
ghost use Rattle.mcv_poll.specs.Spooler.{breaks_spool};

use crate::letters::{Answer, Record, Task};
use crate::mailbox::Mailbox;
use mcv_spool::{Disk, Spool, SpoolFault};
use mcv_turn::{HeldLeg, StoredLeg};
use std::sync::Wait;

/// Opens the spool again where it answers nothing else before; None where it does.
fn mend<D: Disk>(spool: &mut Spool<D>, fault: SpoolFault) -> Option<Result<(), SpoolFault>>
    ensures asked { is_some result ≡ breaks_spool fault }
    ensures ready { IfSome result (λ answer. OnOk answer (spool.new.needs_reopen ≡ false)) }
    ensures found { D.keeps_model → IfSome result (λ answer. OnOk answer (IsFound (D.seen spool.old.disk) spool.new.contents.pending.items)) }
    ensures pending { IfSome result (λ answer. OnErr answer (spool.new.contents.pending.items ≡ spool.old.contents.pending.items)) }
    ensures none { IfNone result (spool.new ≡ spool.old) }
{
    match fault {
        SpoolFault::Device | SpoolFault::Reopen => Some(spool.reopen()),
        SpoolFault::Full | SpoolFault::Memory | SpoolFault::Damaged(_) => None,
    }
}

/// Why the spool refused a record, if it did.
fn fault_of(answer: &Answer) -> Option<SpoolFault>
    ensures ok { IfOk answer.now.stored.outcome (λ _. result ≡ None) }
    ensures err { IfErr answer.now.stored.outcome (λ fault. result ≡ Some fault) }
{
    match &answer.stored.outcome {
        Ok(_) => None,
        Err(fault) => Some(*fault),
    }
}

/// Writes a record, whose number is then that of the slots before it.
fn append<D: Disk>(spool: &mut Spool<D>, leg: Record) -> Answer
    ensures whose { (result.hub ≡ leg.hub) × (result.stored.leg ≡ leg.held.leg) }
    ensures stored { IfOk result.stored.outcome (λ stored. (stored.seq ≡ length spool.old.contents.pending.items) × (stored.record ≡ leg.held.delete)) }
    ensures pending { OnOk result.stored.outcome (spool.new.contents.pending.items ≡ spool.old.contents.pending.items ++ Some leg.held.delete ∷ []) }
    ensures still_pending { OnErr result.stored.outcome (spool.new.contents.pending.items ≡ spool.old.contents.pending.items) }
    ensures slots { result.slots ≡ length spool.new.contents.pending.items }
{
    let Record { hub, held } = leg;
    let HeldLeg { leg, delete } = held;
    let outcome = spool.append(delete);
    Answer {
        hub,
        stored: StoredLeg { leg, outcome },
        slots: spool.pending().len(),
    }
}

/// Writes a record, and leaves what the spool answered. Where the spool refused it, it is opened again if it has to be.
fn write_record<D: Disk, R: Wait>(rt: &R, spool: &mut Spool<D>, mailbox: &Mailbox, record: Record) {
    let answer = append(spool, record);
    let fault = fault_of(&answer);
    mailbox.answer(rt, answer);
    if let Some(fault) = fault {
        let _ = mend(spool, fault);
    }
}

/// Marks a record as done. Where the spool fails, the record is pending until the next start, and the spool is opened again if it has
/// to be.
fn mark_done<D: Disk>(spool: &mut Spool<D>, number: u64) {
    if let Err(fault) = spool.done(number) {
        let _ = mend(spool, fault);
    }
}

/// Writes records, and marks those as done whose legs were performed, until it is to end. What
/// the spool answers is left in the mailbox, in the order of the records, and wakes the loop. Where the spool refuses a record it is
/// opened again if it has to be. It ends with the mailbox, whose letters no clause can name.
pub fn serve_spool<D: Disk, R: Wait>(rt: &R, spool: &mut Spool<D>, mailbox: &Mailbox) {
    for _task in rt.forever() {
        match mailbox.next(rt) {
            Task::Write(record) => write_record(rt, spool, mailbox, record),
            Task::Finish(number) => mark_done(spool, number),
            Task::End => return,
        }
    }
}
