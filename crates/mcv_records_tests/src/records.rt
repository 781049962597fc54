//! The records of small files, written by hand as docs/SPOOL.md has them.

ghost use Rattle.std.specs.Prelude.{[]};

use mcv_records::{RecordsFault, Shown, write_records};
use mcv_spool::{Disk, DiskFailed};
use std::alloc::Global;
use std::test::Fail;

/// A file in memory, of which a read may fail.
#[derive(Drop)]
struct Bytes {
    bytes: Vec<u8>,
    fails: bool,
}

impl Disk for Bytes {
    ghost keeps_model = { ⊥ };

    ghost seen = { λ _. [] };

    ghost may_leave = { λ _ _. ⊥ };

    ghost moment = { λ _. 0 };

    ghost left_since = { λ _ _ _. ⊥ };

    ghost failures = { λ _. 0 };

    ghost read_may_stay = { λ none. absurd none };

    ghost counts_now = { λ none. absurd none };

    ghost only_now = { λ none. absurd none };

    fn len(&mut self) -> Result<usize, DiskFailed> {
        Ok(self.bytes.len())
    }

    fn read(&mut self, at: usize, bytes: &mut [u8]) -> Result<(), DiskFailed> {
        if self.fails {
            return Err(DiskFailed);
        }
        for (place, byte) in bytes.iter_mut().enumerate() {
            *byte = self.bytes.get(at.wrapping_add(place)).copied().unwrap_or(0);
        }
        Ok(())
    }

    fn write_at(&mut self, _at: usize, _bytes: &[u8]) -> Result<(), DiskFailed> {
        Err(DiskFailed)
    }

    fn cut(&mut self, _len: usize) -> Result<(), DiskFailed> {
        Err(DiskFailed)
    }

    fn sync(&mut self) -> Result<(), DiskFailed> {
        Err(DiskFailed)
    }

    fn renew(&mut self) -> Result<(), DiskFailed> {
        Err(DiskFailed)
    }
}

/// A slot by hand, as docs/SPOOL.md has it: these bytes and zeros.
fn push_slot(bytes: &mut Vec<u8>, slot: &[u8]) -> Result<(), Fail> {
    bytes.extend_from_slice(slot)?;
    for _zero in slot.len()..640 {
        bytes.push(0)?;
    }
    Ok(())
}

const PENDING_A: &[u8] = b"\x01\x00\x00\x07\x00\x01a:11211a";

const DONE_B: &[u8] = b"\x01\x01\x00\x07\x00\x03b:11211x%\xff";

const DAMAGED: &[u8] = b"\x01\x00\x00\x07\x00\x00c:11211";

fn shown(alloc: Global, slots: &[&[u8]], shown: Shown) -> Result<(Vec<u8>, Option<u64>), Fail> {
    let mut bytes = Vec::new(alloc);
    for slot in slots {
        push_slot(&mut bytes, slot)?;
    }
    bytes.push(0)?;
    let mut disk = Bytes {
        bytes,
        fails: false,
    };
    let mut text = Vec::new(alloc);
    match write_records(alloc, &mut disk, &mut text, shown) {
        Ok(()) => Ok((text, None)),
        Err(RecordsFault::Damaged(number)) => Ok((text, Some(number))),
        Err(fault) => Err(Fail::from(fault)),
    }
}

#[test]
fn pending_records_are_shown(rt: HostRuntime) -> Result<(), Fail> {
    let (text, damaged) = shown(rt.alloc(), &[PENDING_A, DONE_B, PENDING_A], Shown::Pending)?;
    let wanted = b"0 pending a:11211 a\n2 pending a:11211 a\nrecords 3 pending 2\n";
    assert_eq!(rt; text.as_slice(), wanted.as_slice());
    assert_eq!(rt; damaged, None);
    Ok(())
}

#[test]
fn all_records_are_shown_escaped(rt: HostRuntime) -> Result<(), Fail> {
    let (text, damaged) = shown(rt.alloc(), &[PENDING_A, DONE_B], Shown::All)?;
    let wanted = b"0 pending a:11211 a\n1 done b:11211 x%25%FF\nrecords 2 pending 1\n";
    assert_eq!(rt; text.as_slice(), wanted.as_slice());
    assert_eq!(rt; damaged, None);
    Ok(())
}

#[test]
fn an_empty_file_has_no_records(rt: HostRuntime) -> Result<(), Fail> {
    let (text, _) = shown(rt.alloc(), &[], Shown::All)?;
    assert_eq!(rt; text.as_slice(), b"records 0 pending 0\n".as_slice());
    Ok(())
}

#[test]
fn a_damaged_slot_ends_the_text(rt: HostRuntime) -> Result<(), Fail> {
    let (text, damaged) = shown(rt.alloc(), &[PENDING_A, DAMAGED, PENDING_A], Shown::All)?;
    assert_eq!(rt; text.as_slice(), b"0 pending a:11211 a\n".as_slice());
    assert_eq!(rt; damaged, Some(1));
    Ok(())
}

#[test]
fn a_disk_that_fails_is_a_device(rt: HostRuntime) -> Result<(), Fail> {
    let mut bytes = Vec::new(rt.alloc());
    push_slot(&mut bytes, PENDING_A)?;
    bytes.push(0)?;
    let mut disk = Bytes { bytes, fails: true };
    let mut text = Vec::new(rt.alloc());
    let result = write_records(rt.alloc(), &mut disk, &mut text, Shown::All);
    assert_eq!(rt; result, Err(RecordsFault::Device));
    assert_eq!(rt; text.len(), 0);
    Ok(())
}
