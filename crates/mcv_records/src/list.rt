//! The text of a file's records.

ghost use Rattle.std.specs.Prelude.{◌≡◌, ◌++◌, ◌+◌, ◌≤◌, ℕ, None, Some, Err, [], ◌∷◌, IfOk, IfErr, OnOk, cond, length, take};
ghost use Rattle.std.specs.Io.KnownBytes.{Appends};
ghost use Rattle.mcv_spool.specs.Disk.{IsQuiet};
ghost use Rattle.mcv_spool.specs.File.{damage, slots};
ghost use Rattle.mcv_records.specs.Text.{count_line, is_pending, is_shown, pending_count, records_text, slot_line, slot_lines};

use crate::fault::RecordsFault;
use crate::slot::{SLOT_SIZE, is_pending, push_record, read_record, read_slot};
use mcv_base::push_number;
use mcv_spool::Disk;
use std::alloc::{AllocError, Global};
use std::io::Write;

/// The most slots of a file.
const SLOT_LIMIT: usize = 1_000_000;

/// Which records are written.
#[derive(Clone, Copy, Debug, PartialEq, Eq)]
pub enum Shown {
    /// Those that are pending.
    Pending,
    /// Those that are done, too.
    All,
}

impl Shown {
    /// Whether the record of this slot is.
    fn has(self, slot: &[u8]) -> bool
        requires { length slot.now ≡ 640 }
        ensures { result ≡ is_shown self slot.now }
    {
        match self {
            Shown::Pending => is_pending(slot),
            Shown::All => true,
        }
    }
}

/// How many records there are.
#[derive(Drop)]
struct Counts {
    records: usize,
    pending: usize,
}

/// The line of a slot, or `Damaged`.
fn slot_line(
    alloc: Global,
    shown: Shown,
    number: usize,
    slot: &[u8],
) -> Result<Vec<u8>, RecordsFault>
    requires { length slot.now ≡ 640 }
    ensures line { IfOk result (λ line. line.items ≡ slot_line shown number slot.now) }
    ensures sound { OnOk result (damage number (slot.now ∷ []) ≡ None) }
    ensures damaged { IfErr result (λ fault. (k : ℕ) → fault ≡ RecordsFault.Damaged k → damage number (slot.now ∷ []) ≡ Some k) }
{
    if number == SLOT_LIMIT {
        return Err(RecordsFault::Damaged(number as u64));
    }
    let Some(record) = read_record(slot) else {
        return Err(RecordsFault::Damaged(number as u64));
    };
    let mut line = Vec::new(alloc);
    if shown.has(slot) {
        push_record(&mut line, number, is_pending(slot), record)?;
    }
    Ok(line)
}

/// Writes the line of a slot, and says whether its record is pending.
fn write_slot<W: Write>(
    alloc: Global,
    writer: &mut W,
    shown: Shown,
    number: usize,
    slot: &[u8],
) -> Result<bool, RecordsFault>
    requires { length slot.now ≡ 640 }
    ensures written { OnOk result (Appends (W.contents writer.old) (W.contents writer.new) (slot_line shown number slot.now)) }
    ensures pending { IfOk result (λ pending. pending ≡ is_pending slot.now) }
    ensures sound { OnOk result (damage number (slot.now ∷ []) ≡ None) }
    ensures damaged { (k : ℕ) → result ≡ Err (RecordsFault.Damaged k) → (k ≡ number) × (damage number (slot.now ∷ []) ≡ Some k) × (writer.new ≡ writer.old) }
{
    let line = slot_line(alloc, shown, number, slot)?;
    match writer.write_all(line.as_slice()) {
        Ok(()) => Ok(is_pending(slot)),
        Err(_) => Err(RecordsFault::Device),
    }
}

/// 1 for a record that is pending.
fn count(is_pending: bool) -> usize
    ensures { result ≡ cond is_pending 1 0 }
{
    usize::from(is_pending)
}

/// Writes the lines of all slots, up to the first that is damaged.
fn write_slots<D: Disk, W: Write>(
    alloc: Global,
    disk: &mut D,
    len: usize,
    writer: &mut W,
    shown: Shown,
) -> Result<Counts, RecordsFault>
    requires { D.keeps_model → len ≡ length (D.seen disk.old) }
    ensures written { D.keeps_model → OnOk result (Appends (W.contents writer.old) (W.contents writer.new) (slot_lines shown 0 (slots (D.seen disk.old)))) }
    ensures records { D.keeps_model → IfOk result (λ counts. counts.records ≡ length (slots (D.seen disk.old))) }
    ensures pending { D.keeps_model → IfOk result (λ counts. counts.pending ≡ pending_count (slots (D.seen disk.old))) }
    ensures sound { D.keeps_model → OnOk result (damage 0 (slots (D.seen disk.old)) ≡ None) }
    ensures damaged { D.keeps_model → (k : ℕ) → result ≡ Err (RecordsFault.Damaged k) → (damage 0 (slots (D.seen disk.old)) ≡ Some k) × Appends (W.contents writer.old) (W.contents writer.new) (slot_lines shown 0 (take k (slots (D.seen disk.old)))) }
    ensures quiet { D.keeps_model → IsQuiet D.seen D.may_leave D.moment D.left_since disk.old disk.new }
{
    let mut slot = [0; SLOT_SIZE];
    let mut pending = 0;
    for number in 0..SLOT_LIMIT + 1 {
        let is_there = read_slot(disk, len, number, &mut slot)?;
        if !is_there {
            return Ok(Counts {
                records: number,
                pending,
            });
        }
        let is_pending = write_slot(alloc, writer, shown, number, &slot)?;
        let more = count(is_pending);
        pending += more;
    }
    unreachable!()
}

fn count_line(alloc: Global, counts: Counts) -> Result<Vec<u8>, AllocError>
    ensures { IfOk result (λ line. line.items ≡ count_line counts.records counts.pending) }
{
    let Counts { records, pending } = counts;
    let mut line = Vec::new(alloc);
    line.extend_from_slice(b"records ")?;
    push_number(&mut line, records)?;
    line.extend_from_slice(b" pending ")?;
    push_number(&mut line, pending)?;
    line.extend_from_slice(b"\n")?;
    Ok(line)
}

/// Writes a line for each record of the file, in the order of their numbers, and a last one with their count. It reads one
/// slot at a time. Where a slot is damaged the lines of those before it have been written; where the disk or the writer
/// fails, or memory runs out, some of them may have been. The disk isn't changed.
pub fn write_records<D: Disk, W: Write>(
    alloc: Global,
    disk: &mut D,
    writer: &mut W,
    shown: Shown,
) -> Result<(), RecordsFault>
    ensures written { D.keeps_model → OnOk result (Appends (W.contents writer.old) (W.contents writer.new) (records_text shown (D.seen disk.old))) }
    ensures sound { D.keeps_model → OnOk result (damage 0 (slots (D.seen disk.old)) ≡ None) }
    ensures damaged { D.keeps_model → (k : ℕ) → result ≡ Err (RecordsFault.Damaged k) → (damage 0 (slots (D.seen disk.old)) ≡ Some k) × Appends (W.contents writer.old) (W.contents writer.new) (slot_lines shown 0 (take k (slots (D.seen disk.old)))) }
    ensures quiet { D.keeps_model → IsQuiet D.seen D.may_leave D.moment D.left_since disk.old disk.new }
{
    let len = disk.len()?;
    let counts = write_slots(alloc, disk, len, writer, shown)?;
    let line = count_line(alloc, counts)?;
    match writer.write_all(line.as_slice()) {
        Ok(()) => Ok(()),
        Err(_) => Err(RecordsFault::Device),
    }
}
