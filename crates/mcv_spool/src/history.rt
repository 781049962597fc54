//! What a spool keeps over any list of calls, with a stop of the machine at any moment.
//!
//! A `History` is such a list, with what its calls have reported. Each call of a spool is one of its steps: that is
//! the clause `step` of `open`, `reopen`, `append` and `done`.

ghost use Rattle.std.specs.Prelude.{◌≡◌, ℕ, List, [], ◌∷◌, ◌++◌, length, None};
ghost use Rattle.mcv_spool.specs.Disk.{Cut, Torn};
ghost use Rattle.mcv_spool.specs.File.{damage, slots};
ghost use Rattle.mcv_spool.specs.History.{Finds, History, IsKept, Reported, SpoolState};
ghost use Rattle.mcv_spool.specs.declared.record.SpoolRecord.{SpoolRecord};
ghost use Rattle.mcv_spool.specs.WorstDisk.{Change, KeepsModel, left_of, left_since_of, read_of};

use crate::disk::Disk;

/// Whatever a crash leaves after any list of calls has what was reported; and that is what the next `open` finds.
pub fn what_was_reported_is_kept<D: Disk>()
    ensures kept { D.keeps_model → (reported : Reported) (w : SpoolState D) → History D.seen D.may_leave D.moment D.left_since reported w → (file : List ℕ) → D.may_leave w.disk file → IsKept reported file }
    ensures found { D.keeps_model → (reported : Reported) (w : SpoolState D) (records : List SpoolRecord) (new : D) → History D.seen D.may_leave D.moment D.left_since reported w → Finds D.seen D.may_leave D.moment D.left_since records w.disk new → (more : List SpoolRecord) × (others : List SpoolRecord) × (reported.tried ≡ more ++ others) × (records ≡ reported.found ++ reported.stored ++ more) }
    // No slot of such a file is damaged, so no later `open` or `reopen` answers Damaged.
    ensures undamaged { D.keeps_model → (reported : Reported) (w : SpoolState D) → History D.seen D.may_leave D.moment D.left_since reported w → (file : List ℕ) → D.may_leave w.disk file → damage 0 (slots file) ≡ None }
{}

/// The clauses of a disk contradict one another nowhere: one that is empty at first, and of which a crash leaves whatever they allow, meets them.
pub fn a_disk_keeps_the_model()
    ensures met { KeepsModel read_of left_of length left_since_of }
    ensures begins { (file : List ℕ) → left_of [] file → file ≡ [] }
    ensures tears { (log : List Change) (at : ℕ) (bytes old new : List ℕ) → left_of log old → Torn at (length bytes) old new → left_of (Change.write at bytes ∷ log) new }
    ensures shortens { (log : List Change) (n : ℕ) (old new : List ℕ) → left_of log old → Cut n old new → left_of (Change.cut n ∷ log) new }
{}
