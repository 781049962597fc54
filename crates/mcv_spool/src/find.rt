//! The reading of a file.

ghost use Rattle.std.specs.Prelude.{◌≡◌, ℕ, ◌+◌, ◌*◌, ◌<◌, ◌≤◌, min, Some, length, take, drop, IfOk, IsErrOf};
ghost use Rattle.mcv_spool.specs.Disk.{IsQuiet};
ghost use Rattle.mcv_spool.specs.File.{damage, slots};
ghost use Rattle.mcv_spool.specs.FoundFile.{IsFound, IsOpenFault, IsReadFault};

use crate::contents::{Contents, SLOT_SIZE};
use crate::disk::Disk;
use crate::fault::SpoolFault;
use std::alloc::Global;

/// The slots of a piece that is read at once.
const PIECE_SLOTS: usize = 1_600;

/// The bytes of such a piece: its slots, and the gate behind them.
const PIECE_SIZE: usize = 1_024_001;

/// The pieces of a file that has as many slots as it may have, and one more.
const PIECES: usize = 626;

/// A piece of a file, of which so many bytes are left at this offset.
fn read_piece<D: Disk>(
    alloc: Global,
    disk: &mut D,
    at: usize,
    left: usize,
) -> Result<Vec<u8>, SpoolFault>
    requires { D.keeps_model → at + left ≡ length (D.seen disk.old) }
    ensures len { IfOk result (λ piece. length piece.items ≡ min left 1024001) }
    ensures piece { D.keeps_model → IfOk result (λ piece. piece.items ≡ take 1024001 (drop at (D.seen disk.old))) }
    ensures quiet { D.keeps_model → IsQuiet D.seen D.may_leave D.moment D.left_since disk.old disk.new }
    ensures counts { D.keeps_model → D.failures disk.old ≤ D.failures disk.new }
    ensures cause { D.keeps_model → IsErrOf result SpoolFault.Device → D.failures disk.old < D.failures disk.new }
    ensures alone { IsReadFault result }
{
    let size = left.min(PIECE_SIZE);
    let mut piece = vec![in alloc; 0; size]?;
    disk.read(at, piece.as_mut_slice())?;
    Ok(piece)
}

/// Reads a file of so many bytes, once, in large pieces.
pub(crate) fn find<D: Disk>(alloc: Global, disk: &mut D, len: usize) -> Result<Contents, SpoolFault>
    requires { D.keeps_model → len ≡ length (D.seen disk.old) }
    ensures found { D.keeps_model → IfOk result (λ found. IsFound (D.seen disk.old) found.pending.items) }
    ensures within { IfOk result (λ found. 640 * length found.pending.items ≤ len) }
    ensures damaged { D.keeps_model → (k : ℕ) → result ≡ Err (SpoolFault.Damaged k) → damage 0 (slots (D.seen disk.old)) ≡ Some k }
    ensures quiet { D.keeps_model → IsQuiet D.seen D.may_leave D.moment D.left_since disk.old disk.new }
    ensures counts { D.keeps_model → D.failures disk.old ≤ D.failures disk.new }
    ensures cause { D.keeps_model → IsErrOf result SpoolFault.Device → D.failures disk.old < D.failures disk.new }
    ensures alone { IsOpenFault result }
{
    let mut found = Contents::new(alloc);
    for number in 0..PIECES {
        let at = SLOT_SIZE * PIECE_SLOTS * number;
        let piece = read_piece(alloc, disk, at, len - at)?;
        found.take_all(&piece)?;
        if found.count() < PIECE_SLOTS * (number + 1) {
            return Ok(found);
        }
    }
    unreachable!()
}
