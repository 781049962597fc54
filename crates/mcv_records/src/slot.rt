//! One slot of a file, and its line.

ghost use Rattle.std.specs.Prelude.{◌≡◌, ◌+◌, ◌*◌, ◌++◌, ◌≤◌, ℕ, None, Some, OnOk, length, not, MatchOption, drop, take, IfOk, MatchBool, true, false};
ghost use Rattle.mcv_spool.specs.Disk.{IsQuiet};
ghost use Rattle.mcv_spool.specs.File.{is_done, is_open, number_at, read_record};
ghost use Rattle.mcv_spool.specs.declared.record.SpoolRecord.{SpoolRecord};
ghost use Rattle.mcv_records.specs.Text.{IsRecord, record_line, state_word};

use mcv_base::{is_key_word, is_server, push_number};
use mcv_cert::push_escaped;
use mcv_spool::{Disk, DiskFailed};
use std::alloc::AllocError;

/// The bytes of a slot.
pub(crate) const SLOT_SIZE: usize = 640;

/// What a slot holds: the text of a server, and the rest of a key.
#[derive(Clone, Copy)]
pub(crate) struct Record<'a> {
    pub(crate) server: &'a [u8],
    pub(crate) rest: &'a [u8],
}

/// The number that two bytes of a slot spell.
fn number_at(slot: &[u8], at: usize) -> usize
    requires { at + 2 ≤ length slot.now }
    ensures { result ≡ number_at slot.now at }
{
    256 * slot[at] as usize + slot[at + 1] as usize
}

/// The record of a slot, if it reads.
#[tactic(auto, unfolding(mcv_spool::specs::File::read_record))]
pub(crate) fn read_record(slot: &[u8]) -> Option<Record<'_>>
    requires { length slot.now ≡ 640 }
    ensures { MatchOption result (read_record slot.now ≡ None) (λ r. IsRecord slot.now r.server.now r.rest.now) }
{
    let server_len = number_at(slot, 2);
    let rest_len = number_at(slot, 4);
    if server_len > 261 || rest_len > 250 {
        return None;
    }
    let text = &slot[6..];
    let server = &text[..server_len];
    let rest = &text[server_len..server_len + rest_len];
    if is_server(server) && is_key_word(rest) {
        Some(Record { server, rest })
    } else {
        None
    }
}

/// Whether the slot's record is pending.
pub(crate) fn is_pending(slot: &[u8]) -> bool
    requires { length slot.now ≡ 640 }
    ensures { result ≡ not (is_done slot.now) }
{
    slot[1] == 0
}

fn state_word(is_pending: bool) -> &'static str
    ensures { result.now ≡ state_word is_pending }
{
    if is_pending { "pending" } else { "done" }
}

/// Adds the line of a record. On an error part of it may be there.
pub(crate) fn push_record(
    text: &mut Vec<u8>,
    number: usize,
    is_pending: bool,
    delete: Record<'_>,
) -> Result<(), AllocError>
    ensures { OnOk result (text.new.items ≡ text.old.items ++ record_line number is_pending delete.entry.server.now delete.entry.rest.now) }
{
    push_number(text, number)?;
    text.extend_from_slice(b" ")?;
    text.extend_from_slice(state_word(is_pending).as_bytes())?;
    text.extend_from_slice(b" ")?;
    text.extend_from_slice(delete.server)?;
    text.extend_from_slice(b" ")?;
    push_escaped(text, delete.rest)?;
    text.extend_from_slice(b"\n")?;
    Ok(())
}

/// Reads the slot of this number, and says whether it counts.
pub(crate) fn read_slot<D: Disk>(
    disk: &mut D,
    len: usize,
    number: usize,
    slot: &mut [u8],
) -> Result<bool, DiskFailed>
    requires size { length slot.old ≡ 640 }
    requires few { number ≤ 1000000 }
    requires len { D.keeps_model → len ≡ length (D.seen disk.old) }
    ensures counts { D.keeps_model → IfOk result (λ counts. counts ≡ is_open (drop (640 * number) (D.seen disk.old))) }
    ensures slot { D.keeps_model → IfOk result (λ counts. counts ≡ true → slot.new ≡ take 640 (drop (640 * number) (D.seen disk.old))) }
    ensures quiet { D.keeps_model → IsQuiet D.seen D.may_leave D.moment D.left_since disk.old disk.new }
{
    let at = SLOT_SIZE * number;
    if len <= at + SLOT_SIZE {
        return Ok(false);
    }
    disk.read(at, slot)?;
    Ok(slot[0] != 0)
}
