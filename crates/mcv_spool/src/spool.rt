//! The spool: its file, and the records that are pending.

ghost use Rattle.std.specs.Prelude.{◌≡◌, ◌≢◌, ◌⊎◌, ◌↔◌, ℕ, ◌+◌, ◌*◌, ◌<◌, false, true, None, Some, IsSome, [], ◌∷◌, ◌++◌, length, set, slice_index_or, IfOk, IfErr, OnOk, OnErr, IsOk, IsErrOf};
ghost use Rattle.std.specs.List.{Contains};
ghost use Rattle.mcv_spool.specs.Disk.{LeavesOnly, Only};
ghost use Rattle.mcv_spool.specs.File.{damage, marked, slot_of, slots};
ghost use Rattle.mcv_spool.specs.FoundFile.{IsAppendFault, IsDoneFault, IsFound, IsOpenFault, WritesNothing};
ghost use Rattle.mcv_spool.specs.History.{SpoolCall, HasNumber, History, Reported, append_reported, append_stopped, done_reported, records_of, reopen_reported, reported_found, shut, spool_state};
ghost use Rattle.mcv_spool.specs.declared.record.SpoolRecord.{SpoolRecord};
ghost use Rattle.mcv_spool.specs.Version.{HasSlotsOf, IsBeforeOrAfter, IsSettled, IsVersion};

use crate::contents::{Contents, SLOT_LIMIT, SLOT_SIZE, Slot};
use crate::disk::Disk;
use crate::fault::SpoolFault;
use crate::record::{SpoolRecord, Stored};
use crate::recover::recover;
use crate::write::{write_done, write_record};
use std::alloc::Global;

/// Records of deletes that their servers didn't take, in a file.
#[derive(Drop)]
pub struct Spool<D: Disk> {
    disk: D,
    alloc: Global,
    contents: Contents,
    needs_reopen: bool,
    ghost settled: { D.keeps_model → needs_reopen ≡ false → IsSettled (D.seen disk) (D.may_leave disk) contents.pending.items },
}

impl<D: Disk> Spool<D> {
    /// Opens the spool of a disk, whatever a stop left of it. Where it is refused, nothing is handed back.
    pub fn open(alloc: Global, disk: D) -> Result<Spool<D>, SpoolFault>
        ensures ready { IfOk result (λ spool. spool.needs_reopen ≡ false) }
        ensures found { D.keeps_model → IfOk result (λ spool. IsFound (D.seen disk) spool.contents.pending.items) }
        ensures slots { D.keeps_model → IfOk result (λ spool. slots (D.seen spool.disk) ≡ slots (D.seen disk)) }
        ensures durable { D.keeps_model → IfOk result (λ spool. Only (D.seen spool.disk) (D.may_leave spool.disk)) }
        ensures damaged { D.keeps_model → (k : ℕ) → result ≡ Err (SpoolFault.Damaged k) → damage 0 (slots (D.seen disk)) ≡ Some k }
        // A crash at any moment of the call leaves the records that one before it could have left.
        ensures any_moment { D.keeps_model → IfOk result (λ spool. LeavesOnly D.moment D.left_since disk spool.disk (HasSlotsOf (D.may_leave disk))) }
        ensures step { D.keeps_model → IfOk result (λ spool. SpoolCall D.seen D.may_leave D.moment D.left_since (shut disk) (spool_state spool.disk spool.needs_reopen) (reported_found (records_of (slots (D.seen disk)))) (λ t. t)) }
        // An `open` that is refused drops its disk. As the disk was last, a call of it had failed where the fault is Device,
        // and where it is another it reads as before; whichever it is, the slots are those of before. A crash at any moment of the call leaves the records that one before it
        // could have left.
        ensures refused { D.keeps_model → IfErr result (λ fault. (last : D) × SpoolCall D.seen D.may_leave D.moment D.left_since (shut disk) (shut last) (λ t. t) (λ t. t) × (fault ≡ SpoolFault.Device → D.failures disk < D.failures last) × (fault ≢ SpoolFault.Device → D.seen last ≡ D.seen disk) × (slots (D.seen last) ≡ slots (D.seen disk))) }
        ensures alone { IsOpenFault result }
    {
        let mut disk = disk;
        let contents = recover(alloc, &mut disk)?;
        Ok(Spool {
            disk,
            alloc,
            contents,
            needs_reopen: false,
        })
    }

    /// Opens the spool again on its own disk, as after `Device`.
    pub fn reopen(&mut self) -> Result<(), SpoolFault>
        ensures ready { OnOk result (self.new.needs_reopen ≡ false) }
        ensures not_ready { OnErr result (self.new.needs_reopen ≡ true) }
        ensures found { D.keeps_model → OnOk result (IsFound (D.seen self.old.disk) self.new.contents.pending.items) }
        // Whatever it answers, Device too.
        ensures slots { D.keeps_model → slots (D.seen self.new.disk) ≡ slots (D.seen self.old.disk) }
        ensures durable { D.keeps_model → OnOk result (Only (D.seen self.new.disk) (D.may_leave self.new.disk)) }
        ensures damaged { D.keeps_model → (k : ℕ) → result ≡ Err (SpoolFault.Damaged k) → damage 0 (slots (D.seen self.old.disk)) ≡ Some k }
        ensures any_moment { D.keeps_model → LeavesOnly D.moment D.left_since self.old.disk self.new.disk (HasSlotsOf (D.may_leave self.old.disk)) }
        ensures device { D.keeps_model → IsErrOf result SpoolFault.Device → D.failures self.old.disk < D.failures self.new.disk }
        // Memory and Damaged come before anything is written.
        ensures unwritten { D.keeps_model → IfErr result (λ fault. fault ≢ SpoolFault.Device → D.seen self.new.disk ≡ D.seen self.old.disk) }
        // Where it is refused, what was pending is pending still.
        ensures still_pending { OnErr result (self.new.contents.pending.items ≡ self.old.contents.pending.items) }
        ensures step { D.keeps_model → SpoolCall D.seen D.may_leave D.moment D.left_since (spool_state self.old.disk self.old.needs_reopen) (spool_state self.new.disk self.new.needs_reopen) (reopen_reported result (records_of (slots (D.seen self.old.disk)))) (λ t. t) }
        ensures alone { IsOpenFault result }
    {
        self.needs_reopen = true;
        self.contents = recover(self.alloc, &mut self.disk)?;
        self.needs_reopen = false; // it is open again
        Ok(())
    }

    /// Writes a record. At `Ok` it is on the disk: each later `open` that answers Ok finds it (`what_was_reported_is_kept`).
    pub fn append(&mut self, delete: SpoolRecord) -> Result<Stored, SpoolFault>
        ensures stored { IfOk result (λ stored. (stored.seq ≡ length self.old.contents.pending.items) × (stored.record ≡ delete)) }
        ensures pending { OnOk result (self.new.contents.pending.items ≡ self.old.contents.pending.items ++ Some delete ∷ []) }
        ensures ready { OnOk result (self.new.needs_reopen ≡ false) }
        ensures slots { D.keeps_model → OnOk result (slots (D.seen self.new.disk) ≡ slots (D.seen self.old.disk) ++ slot_of delete ∷ []) }
        ensures durable { D.keeps_model → OnOk result (Only (D.seen self.new.disk) (D.may_leave self.new.disk)) }
        // A crash at any moment of the call leaves the records of before, or these and the new one.
        ensures any_moment { D.keeps_model → self.old.needs_reopen ≡ false → LeavesOnly D.moment D.left_since self.old.disk self.new.disk (IsBeforeOrAfter (slots (D.seen self.old.disk)) delete) }
        ensures reopen { IsErrOf result SpoolFault.Reopen ↔ (self.old.needs_reopen ≡ true) }
        ensures full { IsErrOf result SpoolFault.Full ↔ ((self.old.needs_reopen ≡ false) × (length self.old.contents.pending.items ≡ 1000000)) }
        ensures device { D.keeps_model → IsErrOf result SpoolFault.Device → D.failures self.old.disk < D.failures self.new.disk }
        ensures broken { IsErrOf result SpoolFault.Device → self.new.needs_reopen ≡ true }
        ensures unchanged { WritesNothing result → (self.new.disk ≡ self.old.disk) × (self.new.contents.pending.items ≡ self.old.contents.pending.items) × (self.new.needs_reopen ≡ self.old.needs_reopen) }
        // Whatever refuses it, what was pending is pending still.
        ensures still_pending { OnErr result (self.new.contents.pending.items ≡ self.old.contents.pending.items) }
        ensures step { D.keeps_model → SpoolCall D.seen D.may_leave D.moment D.left_since (spool_state self.old.disk self.old.needs_reopen) (spool_state self.new.disk self.new.needs_reopen) (append_reported result delete) (append_stopped result delete) }
        ensures alone { IsAppendFault result }
    {
        if self.needs_reopen {
            return Err(SpoolFault::Reopen);
        }
        let count = self.contents.count();
        if count >= SLOT_LIMIT {
            return Err(SpoolFault::Full);
        }
        self.contents.reserve()?;
        let slot = Slot::pending(self.alloc, delete.copied())?;
        self.needs_reopen = true;
        write_record(&mut self.disk, SLOT_SIZE * count, &delete)?;
        self.contents.add(slot);
        self.needs_reopen = false;
        Ok(Stored::new(count as u64, delete))
    }

    /// Marks a record as done. Where none of this number is pending, nothing is written. It takes the same time however many
    /// records are pending, and in whatever order they are done.
    pub fn done(&mut self, seq: u64) -> Result<(), SpoolFault>
        ensures pending { OnOk result (self.new.contents.pending.items ≡ set self.old.contents.pending.items seq None) }
        ensures slots { D.keeps_model → OnOk result (IsSome (slice_index_or self.old.contents.pending.items seq None) → slots (D.seen self.new.disk) ≡ marked seq (slots (D.seen self.old.disk))) }
        ensures any_moment { D.keeps_model → self.old.needs_reopen ≡ false → LeavesOnly D.moment D.left_since self.old.disk self.new.disk (IsVersion (marked seq (slots (D.seen self.old.disk)))) }
        ensures reopen { IsErrOf result SpoolFault.Reopen ↔ (self.old.needs_reopen ≡ true) }
        ensures nothing { self.old.needs_reopen ≡ false → slice_index_or self.old.contents.pending.items seq None ≡ None → IsOk result × (self.new.disk ≡ self.old.disk) }
        ensures device { D.keeps_model → IsErrOf result SpoolFault.Device → D.failures self.old.disk < D.failures self.new.disk }
        ensures broken { IsErrOf result SpoolFault.Device → self.new.needs_reopen ≡ true }
        ensures ready { OnOk result (self.new.needs_reopen ≡ false) }
        ensures unchanged { IsErrOf result SpoolFault.Reopen → (self.new.disk ≡ self.old.disk) × (self.new.contents.pending.items ≡ self.old.contents.pending.items) × (self.new.needs_reopen ≡ true) }
        // Whatever refuses it, what was pending is pending still, the record of this number too.
        ensures still_pending { OnErr result (self.new.contents.pending.items ≡ self.old.contents.pending.items) }
        ensures step { D.keeps_model → SpoolCall D.seen D.may_leave D.moment D.left_since (spool_state self.old.disk self.old.needs_reopen) (spool_state self.new.disk self.new.needs_reopen) (done_reported result seq) (done_reported result seq) }
        ensures alone { IsDoneFault result }
    {
        if self.needs_reopen {
            return Err(SpoolFault::Reopen);
        }
        let number = seq as usize;
        if !self.contents.has(number) {
            return Ok(());
        }
        self.needs_reopen = true;
        write_done(&mut self.disk, number)?;
        self.contents.forget(number);
        self.needs_reopen = false;
        Ok(())
    }

    /// The slots of the file in their order: at the number of a record that is pending the record, and at any other number
    /// nothing.
    pub fn pending(&self) -> &[Slot]
        ensures value { result.now ≡ self.now.contents.pending.items }
        // A record that was reported is missing only where `done` was called for its number. This speaks of a spool that
        // doesn't answer Reopen; a call that is refused leaves all as they were (`still_pending`).
        ensures kept { D.keeps_model → (reported : Reported) → History D.seen D.may_leave D.moment D.left_since reported (spool_state self.now.disk self.now.needs_reopen) → self.now.needs_reopen ≡ false → (r : SpoolRecord) (k : ℕ) → HasNumber reported r k → Contains reported.done k ⊎ (slice_index_or result.now k None ≡ Some r) }
    {
        self.contents.slots()
    }
}
