//! What `open` and `reopen` do to a file that a stop may have left.

ghost use Rattle.std.specs.Prelude.{◌≡◌, ◌≢◌, ℕ, ◌*◌, ◌^◌, ◌<◌, ◌≤◌, Some, length, IfOk, IfErr, OnOk, OnErr, IsErrOf};
ghost use Rattle.mcv_spool.specs.Disk.{IsQuiet, LeavesOnly, Only};
ghost use Rattle.mcv_spool.specs.File.{IsClosed, damage, slots};
ghost use Rattle.mcv_spool.specs.FoundFile.{IsFound, IsOpenFault};
ghost use Rattle.mcv_spool.specs.Version.{HasSlotsOf};

use crate::contents::{Contents, SLOT_SIZE};
use crate::disk::{Disk, DiskFailed};
use crate::fault::SpoolFault;
use crate::find::find;
use crate::write::{close, is_closed};
use std::alloc::Global;

/// Makes what a read gives the one file that a crash leaves, and reports its length. A crash before may have left the file one way
/// and may leave it another way now: the sync settles it.
fn settle<D: Disk>(disk: &mut D) -> Result<usize, DiskFailed>
    ensures len { D.keeps_model → IfOk result (λ n. n ≡ length (D.seen disk.new)) }
    ensures durable { D.keeps_model → OnOk result (Only (D.seen disk.new) (D.may_leave disk.new)) }
    ensures quiet { D.keeps_model → IsQuiet D.seen D.may_leave D.moment D.left_since disk.old disk.new }
    ensures counts { D.keeps_model → D.failures disk.old ≤ D.failures disk.new }
    ensures cause { D.keeps_model → OnErr result (D.failures disk.old < D.failures disk.new) }
{
    disk.renew()?;
    disk.sync()?;
    let len = disk.len()?;
    Ok(len)
}

/// Closes the end gate, where it isn't closed.
fn repair<D: Disk>(disk: &mut D, end: usize, len: usize) -> Result<(), DiskFailed>
    requires small { end < 2 ^ 62 }
    requires end { D.keeps_model → end ≡ 640 * length (slots (D.seen disk.old)) }
    requires len { D.keeps_model → len ≡ length (D.seen disk.old) }
    requires durable { D.keeps_model → Only (D.seen disk.old) (D.may_leave disk.old) }
    ensures slots { D.keeps_model → slots (D.seen disk.new) ≡ slots (D.seen disk.old) }
    ensures closed { D.keeps_model → OnOk result (IsClosed (D.seen disk.new)) }
    ensures durable { D.keeps_model → OnOk result (Only (D.seen disk.new) (D.may_leave disk.new)) }
    ensures any_moment { D.keeps_model → LeavesOnly D.moment D.left_since disk.old disk.new (λ c. slots c ≡ slots (D.seen disk.old)) }
    ensures counts { D.keeps_model → D.failures disk.old ≤ D.failures disk.new }
    ensures cause { D.keeps_model → OnErr result (D.failures disk.old < D.failures disk.new) }
{
    if is_closed(disk, end, len)? {
        return Ok(());
    }
    close(disk, end, len)
}

/// Finds what a file holds, and closes its end gate.
pub(crate) fn recover<D: Disk>(alloc: Global, disk: &mut D) -> Result<Contents, SpoolFault>
    ensures found { D.keeps_model → IfOk result (λ found. IsFound (D.seen disk.old) found.pending.items) }
    ensures slots { D.keeps_model → slots (D.seen disk.new) ≡ slots (D.seen disk.old) }
    ensures closed { D.keeps_model → OnOk result (IsClosed (D.seen disk.new)) }
    ensures durable { D.keeps_model → OnOk result (Only (D.seen disk.new) (D.may_leave disk.new)) }
    ensures damaged { D.keeps_model → (k : ℕ) → result ≡ Err (SpoolFault.Damaged k) → damage 0 (slots (D.seen disk.old)) ≡ Some k }
    ensures any_moment { D.keeps_model → LeavesOnly D.moment D.left_since disk.old disk.new (HasSlotsOf (D.may_leave disk.old)) }
    ensures device { D.keeps_model → IsErrOf result SpoolFault.Device → D.failures disk.old < D.failures disk.new }
    // Memory and Damaged come before anything is written.
    ensures unwritten { D.keeps_model → IfErr result (λ fault. fault ≢ SpoolFault.Device → D.seen disk.new ≡ D.seen disk.old) }
    ensures alone { IsOpenFault result }
{
    let len = settle(disk)?;
    let found = find(alloc, disk, len)?;
    repair(disk, SLOT_SIZE * found.count(), len)?;
    Ok(found)
}
