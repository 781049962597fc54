//! Scripts of a spool: what its calls give, and what is pending, as `0:a;2:c;`, each record with its number and rest.

use super::disk::{Borrowed, TestDisk};
use super::rows::{open, record};
use crate::script::{Line, check, line_of, number_of, shown};
use mcv_spool::{Disk, Slot, Spool, Stored};
use std::process::Abort;
use std::str::from_utf8;

/// Plays a script on a spool.
pub(super) fn play<D: Disk>(rt: &(impl AllocGlobal + Abort), spool: &mut Spool<D>, script: &str) {
    for text in script.lines() {
        let line = line_of(rt, text);
        let found = answer(rt, spool, &line);
        check(rt, &line, found.as_str());
    }
}

/// Plays a script on the spool of a disk, which is opened.
pub(super) fn play_on(rt: &(impl AllocGlobal + Abort), disk: &mut TestDisk, script: &str) {
    let mut spool: Spool<Borrowed<'_>> = open(rt.alloc(), disk).expect(rt, "a spool");
    play(rt, &mut spool, script);
}

fn answer<D: Disk>(
    rt: &(impl AllocGlobal + Abort),
    spool: &mut Spool<D>,
    line: &Line<'_>,
) -> String {
    match line.word {
        "append" => append(rt, spool, line),
        "done" => shown(rt, spool.done(number_of(rt, line.first))),
        "reopen" => shown(rt, spool.reopen()),
        "pending" => pending(rt, spool.pending()),
        _ => shown(rt, "no such word"),
    }
}

/// Appends a record of the line's server and rest.
fn append<D: Disk>(
    rt: &(impl AllocGlobal + Abort),
    spool: &mut Spool<D>,
    line: &Line<'_>,
) -> String {
    let record = record(line.first.as_bytes(), line.second.as_bytes());
    match spool.append(record.expect(rt, "a record")) {
        Ok(stored) => stored_text(rt, &stored),
        Err(fault) => shown(rt, fault),
    }
}

/// The number and the rest of a record that is stored.
fn stored_text(rt: &(impl AllocGlobal + Abort), stored: &Stored) -> String {
    let rest = from_utf8(stored.record().rest.as_bytes()).expect(rt, "a text");
    let number = stored.seq();
    format!(in rt.alloc(); "{number} {rest}").expect(rt, "memory")
}

fn pending(rt: &(impl AllocGlobal + Abort), slots: &[Slot]) -> String {
    let mut text = String::new(rt.alloc());
    for (number, slot) in slots.iter().enumerate() {
        push_slot(rt, &mut text, number, slot);
    }
    text
}

fn push_slot(rt: &(impl AllocGlobal + Abort), text: &mut String, number: usize, slot: &Slot) {
    if let Some(record) = slot.record() {
        let rest = from_utf8(record.rest.as_bytes()).expect(rt, "a text");
        let one = format!(in rt.alloc(); "{number}:{rest};").expect(rt, "memory");
        text.push_str(one.as_str()).expect(rt, "memory");
    }
}
