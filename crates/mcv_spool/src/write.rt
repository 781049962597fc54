//! The writes of the spool, each of which a crash may cut short.

ghost use Rattle.std.specs.Prelude.{◌≡◌, ℕ, ◌+◌, ◌*◌, ◌^◌, ◌<◌, ◌≤◌, List, [], ◌∷◌, ◌++◌, length, take, IfOk, OnOk, OnErr, IsTrue, Some, ◌↔◌};
ghost use Rattle.mcv_spool.specs.Disk.{IsCutFrom, IsQuiet, IsTornFrom, LeavesOnly, Only, written};
ghost use Rattle.mcv_spool.specs.File.{IsClosed, marked, read_record, slot_of, slots};
ghost use Rattle.mcv_spool.specs.Version.{IsBeforeOrAfter, IsVersion};

use crate::contents::SLOT_SIZE;
use crate::disk::{Disk, DiskFailed};
use crate::record::{CLOSED, DONE, OPEN, SpoolRecord};

/// Writes bytes at this offset, onto the disk.
fn write_through<D: Disk>(disk: &mut D, at: usize, bytes: &[u8]) -> Result<(), DiskFailed>
    requires { D.keeps_model → at ≤ length (D.seen disk.old) }
    ensures written { D.keeps_model → OnOk result (D.seen disk.new ≡ written (D.seen disk.old) at bytes.now) }
    ensures durable { D.keeps_model → OnOk result (Only (D.seen disk.new) (D.may_leave disk.new)) }
    ensures any_moment { D.keeps_model → LeavesOnly D.moment D.left_since disk.old disk.new (IsTornFrom at (length bytes.now) (D.may_leave disk.old)) }
    ensures counts { D.keeps_model → D.failures disk.old ≤ D.failures disk.new }
    ensures cause { D.keeps_model → OnErr result (D.failures disk.old < D.failures disk.new) }
{
    disk.write_at(at, bytes)?;
    disk.sync()?;
    Ok(())
}

/// Cuts the file to so many bytes, on the disk.
fn cut_through<D: Disk>(disk: &mut D, len: usize) -> Result<(), DiskFailed>
    requires { D.keeps_model → len ≤ length (D.seen disk.old) }
    ensures cut { D.keeps_model → OnOk result (D.seen disk.new ≡ take len (D.seen disk.old)) }
    ensures durable { D.keeps_model → OnOk result (Only (D.seen disk.new) (D.may_leave disk.new)) }
    ensures any_moment { D.keeps_model → LeavesOnly D.moment D.left_since disk.old disk.new (IsCutFrom len (D.may_leave disk.old)) }
    ensures counts { D.keeps_model → D.failures disk.old ≤ D.failures disk.new }
    ensures cause { D.keeps_model → OnErr result (D.failures disk.old < D.failures disk.new) }
{
    disk.cut(len)?;
    disk.sync()?;
    Ok(())
}

/// Writes a record into the slot at the end gate, and then opens that gate.
pub(crate) fn write_record<D: Disk>(
    disk: &mut D,
    end: usize,
    delete: &SpoolRecord,
) -> Result<(), DiskFailed>
    requires small { end < 2 ^ 62 }
    requires end { D.keeps_model → end ≡ 640 * length (slots (D.seen disk.old)) }
    requires crash { D.keeps_model → (c : List ℕ) → D.may_leave disk.old c → IsVersion (slots (D.seen disk.old)) c }
    ensures reads { read_record (slot_of delete.now) ≡ Some delete.now }
    ensures slots { D.keeps_model → OnOk result (slots (D.seen disk.new) ≡ slots (D.seen disk.old) ++ slot_of delete.now ∷ []) }
    ensures closed { D.keeps_model → OnOk result (IsClosed (D.seen disk.new)) }
    ensures durable { D.keeps_model → OnOk result (Only (D.seen disk.new) (D.may_leave disk.new)) }
    ensures any_moment { D.keeps_model → LeavesOnly D.moment D.left_since disk.old disk.new (IsBeforeOrAfter (slots (D.seen disk.old)) delete.now) }
    ensures counts { D.keeps_model → D.failures disk.old ≤ D.failures disk.new }
    ensures cause { D.keeps_model → OnErr result (D.failures disk.old < D.failures disk.new) }
{
    let bytes = delete.spelled();
    write_through(disk, end + 1, bytes.as_slice())?;
    write_through(disk, end, &[OPEN])?;
    Ok(())
}

/// Marks the record of a slot as done.
pub(crate) fn write_done<D: Disk>(disk: &mut D, seq: usize) -> Result<(), DiskFailed>
    requires small { seq < 2 ^ 52 }
    requires there { D.keeps_model → seq < length (slots (D.seen disk.old)) }
    requires crash { D.keeps_model → (c : List ℕ) → D.may_leave disk.old c → IsVersion (slots (D.seen disk.old)) c }
    ensures slots { D.keeps_model → OnOk result (slots (D.seen disk.new) ≡ marked seq (slots (D.seen disk.old))) }
    ensures crash { D.keeps_model → (c : List ℕ) → D.may_leave disk.new c → IsVersion (marked seq (slots (D.seen disk.old))) c }
    ensures any_moment { D.keeps_model → LeavesOnly D.moment D.left_since disk.old disk.new (IsVersion (marked seq (slots (D.seen disk.old)))) }
    ensures counts { D.keeps_model → D.failures disk.old ≤ D.failures disk.new }
    ensures cause { D.keeps_model → OnErr result (D.failures disk.old < D.failures disk.new) }
{
    disk.write_at(SLOT_SIZE * seq + 1, &[DONE])
}

/// Whether the end gate is there, and closed.
pub(crate) fn is_closed<D: Disk>(disk: &mut D, end: usize, len: usize) -> Result<bool, DiskFailed>
    requires end { D.keeps_model → end ≡ 640 * length (slots (D.seen disk.old)) }
    requires len { D.keeps_model → len ≡ length (D.seen disk.old) }
    ensures closed { D.keeps_model → IfOk result (λ closed. IsTrue closed ↔ IsClosed (D.seen disk.old)) }
    ensures quiet { D.keeps_model → IsQuiet D.seen D.may_leave D.moment D.left_since disk.old disk.new }
    ensures counts { D.keeps_model → D.failures disk.old ≤ D.failures disk.new }
    ensures cause { D.keeps_model → OnErr result (D.failures disk.old < D.failures disk.new) }
{
    if len <= end {
        return Ok(false);
    }
    let mut gate = [OPEN];
    disk.read(end, &mut gate)?;
    Ok(gate[0] == CLOSED)
}

/// Closes the end gate. The file is cut behind it and not at it: the slot before it counts only where the gate's byte is there.
pub(crate) fn close<D: Disk>(disk: &mut D, end: usize, len: usize) -> Result<(), DiskFailed>
    requires small { end < 2 ^ 62 }
    requires end { D.keeps_model → end ≡ 640 * length (slots (D.seen disk.old)) }
    requires len { D.keeps_model → len ≡ length (D.seen disk.old) }
    requires not_closed { D.keeps_model → ¬ IsClosed (D.seen disk.old) }
    requires durable { D.keeps_model → Only (D.seen disk.old) (D.may_leave disk.old) }
    ensures slots { D.keeps_model → OnOk result (slots (D.seen disk.new) ≡ slots (D.seen disk.old)) }
    ensures closed { D.keeps_model → OnOk result (IsClosed (D.seen disk.new)) }
    ensures durable { D.keeps_model → OnOk result (Only (D.seen disk.new) (D.may_leave disk.new)) }
    ensures any_moment { D.keeps_model → LeavesOnly D.moment D.left_since disk.old disk.new (λ c. slots c ≡ slots (D.seen disk.old)) }
    ensures counts { D.keeps_model → D.failures disk.old ≤ D.failures disk.new }
    ensures cause { D.keeps_model → OnErr result (D.failures disk.old < D.failures disk.new) }
{
    let kept = len.min(end + 1);
    cut_through(disk, kept)?;
    write_through(disk, end, &[CLOSED])?;
    Ok(())
}
