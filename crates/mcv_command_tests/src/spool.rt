//! The records of small spool files, written by hand as docs/SPOOL.md has them.

use crate::commands::ran;
use crate::devices::is_written;
use std::alloc::AllocError;
use std::process::Abort;

/// Adds a slot: these bytes and zeros.
fn push_slot(file: &mut Vec<u8>, slot: &[u8]) -> Result<(), AllocError> {
    file.extend_from_slice(slot)?;
    for _zero in slot.len()..640 {
        file.push(0)?;
    }
    Ok(())
}

const PENDING: &[u8] = b"\x01\x00\x00\x07\x00\x01a:11211a";

const DONE: &[u8] = b"\x01\x01\x00\x07\x00\x03b:11211x%\xff";

const DAMAGED: &[u8] = b"\x01\x00\x00\x07\x00\x00c:11211";

/// A file of these slots and its end.
fn file_of(rt: &(impl AllocGlobal + Abort), slots: &[&[u8]]) -> Vec<u8> {
    let mut file = Vec::new(rt.alloc());
    for slot in slots {
        push_slot(&mut file, slot).expect(rt, "memory");
    }
    file.push(0).expect(rt, "memory");
    file
}

/// What the program writes of a file of these slots, and its exit status.
fn check_spool(
    rt: &(impl AllocGlobal + Abort),
    words: &[&str],
    slots: &[&[u8]],
    wanted: &str,
    status: u8,
) {
    let file = file_of(rt, slots);
    let mut written = Vec::new(rt.alloc());
    let found = match ran(rt.alloc(), words, file.as_slice(), "", &mut written) {
        Ok(ending) => ending.status(),
        Err(stop) => stop.status(),
    };
    let text = String::from_utf8(written).expect(rt, "a text");
    assert!(rt;
        is_written(text.as_str(), wanted, found, status),
        "{found} {text}"
    );
}

#[test]
fn records_are_shown(rt: HostRuntime) {
    let pending = ["mcv", "spool", "a.cert"];
    let all = ["mcv", "spool", "--all", "a.cert"];
    let slots = [PENDING, DONE, PENDING];
    check_spool(
        &rt,
        &pending,
        &slots,
        "0 pending a:11211 a\n2 pending a:11211 a\nrecords 3 pending 2\n",
        0,
    );
    check_spool(
        &rt,
        &all,
        &slots,
        "0 pending a:11211 a\n1 done b:11211 x%25%FF\n2 pending a:11211 a\nrecords 3 pending 2\n",
        0,
    );
    check_spool(&rt, &all, &[], "records 0 pending 0\n", 0);
}

#[test]
fn a_damaged_slot_ends_the_text(rt: HostRuntime) {
    let words = ["mcv", "spool", "a.cert"];
    check_spool(
        &rt,
        &words,
        &[PENDING, DAMAGED, PENDING],
        "0 pending a:11211 a\n",
        4,
    );
    let file = file_of(&rt, &[DAMAGED]);
    let mut written = Vec::new(rt.alloc());
    let stop = ran(rt.alloc(), &words, file.as_slice(), "", &mut written);
    let stop = stop.expect_err(&rt, "a stop");
    let text = format!(in rt.alloc(); "{stop}").expect(&rt, "memory");
    assert!(rt;
        text.as_str() == "mcv: slot 0 of the spool is damaged",
        "{text}"
    );
}

#[test]
fn a_file_that_is_not_there_is_a_device(rt: HostRuntime) {
    let mut written = Vec::new(rt.alloc());
    let words = ["mcv", "spool", "b.spool"];
    let stop = ran(rt.alloc(), &words, b"", "", &mut written).expect_err(&rt, "a stop");
    assert_eq!(rt; stop.status(), 4);
    assert!(rt; written.is_empty());
}
