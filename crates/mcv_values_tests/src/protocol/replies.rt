//! What no clause says: that replies are given at all, and whole ones to whoever takes their parts.

use crate::rows::{check, push};
use mcv_base::{Op, Part, Parts, Reply, Rest};
use mcv_reply::{ProbeReader, ReplyFault, ReplyReader, one_reply, one_version};
use std::alloc::Global;
use std::process::Abort;
use std::sync::Arc;

/// Operation, bytes (`|` is CR LF, `^` is LF) and what they are; the key is `a`.
const REPLIES: &str = "get END| = miss
gets END^ = miss
get   END  | = miss
get VALUE a 0 1|x|END| = hit
get  VALUE  a  007  01  ^x|END^ = hit
gets VALUE a 0 1 7|x|END| = hit
get VALUE a 0 0||END| = hit
set STORED| = stored
add NOT_STORED| = not stored
append STORED^ = stored
prepend NOT_STORED| = not stored
cas EXISTS| = exists
cas NOT_FOUND| = not found
delete DELETED| = deleted
touch NOT_FOUND| = not found
touch TOUCHED^ = touched
incr 6| = number
decr  007  ^ = number
incr 18446744073709551615| = number
decr NOT_FOUND| = not found
incr CLIENT_ERROR cannot increment or decrement non-numeric value| = fault
delete SERVER_ERROR out of memory| = fault
get CLIENT_ERROR| = fault
replace  ERROR | = fault";

/// The same for bytes behind which no reply goes on: the first such byte comes behind `~`, and the
/// answer is that to the bytes before it.
const REFUSED: &str = "get VALUE ~b 0 1|x|END| = more
get VALUE a 0 1 ~7|x|END| = more
gets VALUE a 0 1~|x|END| = more
get ~DELETED| = more
delete S~TORED| = more
set STORED~X| = more
get VALUE a 0 104857~7| = more
get VALUE a 429496729~6 0| = more
gets VALUE a 0 0 1844674407370955161~6| = more
get VALUE a ~-1 0| = more
get VALUE a 0 1|x~y|END| = more
get VALUE a 0 1|x~^END| = more
get VALUE a 0 1|x|~STORED| = more
get END|~x = miss
get END|~END| = miss
incr 1844674407370955161~6| = more
incr 6 ~7| = more
incr 6~x| = more
incr ~-1| = more
incr ~| = more
incr 6|~6| = number
decr ~TOUCHED| = more
touch ~6| = more
get ~| = more
get ~^ = more";

/// A line of a table.
#[derive(Clone, Copy)]
struct Case<'a> {
    op: &'a str,
    text: &'a str,
    answer: &'a str,
}

fn read_case<'a>(rt: &impl Abort, line: &'a str) -> Case<'a> {
    let (op, behind) = line.split_once(" ").expect(rt, "an operation");
    let (text, answer) = behind.split_once(" = ").expect(rt, "an answer");
    Case { op, text, answer }
}

fn push_wire(rt: &impl Abort, bytes: &mut Vec<u8>, byte: u8) {
    match byte {
        b'|' => push(rt, bytes, b"\r\n"),
        b'^' => push(rt, bytes, b"\n"),
        b'~' => {}
        byte => push(rt, bytes, &[byte]),
    }
}

pub fn wire(rt: &(impl AllocGlobal + Abort), text: &str) -> Vec<u8> {
    let mut bytes = Vec::new(rt.alloc());
    for byte in text.as_bytes() {
        push_wire(rt, &mut bytes, *byte);
    }
    bytes
}

/// A reader for a leg of this operation on `a`, if there is memory for the key.
fn reader_for(alloc: Global, op: &str) -> Option<ReplyReader> {
    let op = Op::named(op.as_bytes())?;
    let rest = Arc::new(alloc, Rest::of(b"a")?).ok()?;
    Some(ReplyReader::new(alloc, op, rest))
}

pub fn reply_name(reply: &Reply) -> &'static str {
    match reply {
        Reply::Hit { .. } => "hit",
        Reply::Miss => "miss",
        Reply::Stored => "stored",
        Reply::NotStored => "not stored",
        Reply::Exists => "exists",
        Reply::NotFound => "not found",
        Reply::Deleted => "deleted",
        Reply::Touched => "touched",
        Reply::Number(_) => "number",
        Reply::Fault(_) => "fault",
    }
}

pub fn fault_name(fault: ReplyFault) -> &'static str {
    match fault {
        ReplyFault::NotAReply => "refused",
        ReplyFault::Closed => "closed",
        ReplyFault::Memory => "memory",
    }
}

/// The answer to a piece, in a word.
fn answer_to(reader: &mut ReplyReader, piece: &[u8]) -> &'static str {
    match reader.feed(piece) {
        Ok(None) => "more",
        Ok(Some(reply)) => reply_name(&reply),
        Err(fault) => fault_name(fault),
    }
}

/// The answer to a piece is this one.
fn check_answer(rt: &impl Abort, reader: &mut ReplyReader, piece: &[u8], answer: &str) {
    let found = answer_to(reader, piece);
    assert!(rt; found == answer, "{answer}, not {found}");
}

/// The bytes, cut there, are the reply of the case, given once.
fn check_given(rt: &(impl AllocGlobal + Abort), case: Case<'_>, bytes: &[u8], cut: usize) {
    let (front, back) = bytes.split_at(cut.min(bytes.len()));
    let mut reader = reader_for(rt.alloc(), case.op).expect(rt, "a reader");
    check_answer(rt, &mut reader, front, "more");
    check_answer(rt, &mut reader, back, case.answer);
    check_answer(rt, &mut reader, b"", "refused");
    check_answer(rt, &mut reader, b"", "closed");
}

/// The bytes of a line are the reply of its case at every cut.
fn check_given_line(rt: &(impl AllocGlobal + Abort), line: &str) {
    let case = read_case(rt, line);
    let bytes = wire(rt, case.text);
    for cut in 0..bytes.len() {
        check_given(rt, case, &bytes, cut);
    }
}

#[test]
fn replies_are_given_once_at_every_cut(rt: HostRuntime) {
    for line in REPLIES.lines() {
        check_given_line(&rt, line);
    }
}

/// The answer to so many bytes that there should be, where so many are good and have this answer.
fn expected_at<'a>(cut: usize, good: usize, answer: &'a str) -> &'a str {
    if cut < good {
        "more"
    } else if cut == good {
        answer
    } else {
        "refused"
    }
}

/// The bytes, cut there, are answered so where so many are good and no more.
fn check_refused(
    rt: &(impl AllocGlobal + Abort),
    case: Case<'_>,
    bytes: &[u8],
    good: usize,
    cut: usize,
) {
    let (front, back) = bytes.split_at(cut.min(bytes.len()));
    let mut reader = reader_for(rt.alloc(), case.op).expect(rt, "a reader");
    check_answer(rt, &mut reader, front, expected_at(cut, good, case.answer));
    check_answer(
        rt,
        &mut reader,
        back,
        if cut > good { "closed" } else { "refused" },
    );
}

/// How many bytes of a case are good.
fn good_of(rt: &(impl AllocGlobal + Abort), case: Case<'_>) -> usize {
    let (good, _behind) = case.text.split_once("~").expect(rt, "a wrong byte");
    wire(rt, good).len()
}

/// The bytes of a line are refused from the first wrong one on, at every cut.
fn check_refused_line(rt: &(impl AllocGlobal + Abort), line: &str) {
    let case = read_case(rt, line);
    let good = good_of(rt, case);
    let bytes = wire(rt, case.text);
    for cut in 0..=bytes.len() {
        check_refused(rt, case, &bytes, good, cut);
    }
}

#[test]
fn bytes_are_refused_from_the_first_wrong_one(rt: HostRuntime) {
    for line in REFUSED.lines() {
        check_refused_line(&rt, line);
    }
}

/// Whether a part is the hit of the value `x` with flags 3 and unique number 7.
fn is_the_hit(part: &Part) -> bool {
    match part {
        Part::Fixed(_) => false,
        Part::Owned(reply) => match &**reply {
            Reply::Hit { flags, cas, body } => {
                *flags == 3 && *cas == Some(7) && body.as_slice() == b"x".as_slice()
            }
            _ => false,
        },
    }
}

/// Whether the hit is in each part.
fn is_in_each_part(parts: Parts) -> bool {
    let (outcome, taken, history) = parts.into_parts();
    is_the_hit(&outcome) && is_the_hit(&taken) && is_the_hit(&history)
}

/// The reply to a gets in these bytes.
fn reply_of(rt: &(impl AllocGlobal + Abort), bytes: &[u8]) -> Reply {
    let mut reader = reader_for(rt.alloc(), "gets").expect(rt, "a reader");
    let fed = reader.feed(bytes).expect(rt, "a piece");
    fed.expect(rt, "a reply")
}

#[test]
fn a_hit_is_whole_in_its_parts(rt: HostRuntime) {
    let reply = reply_of(&rt, b"VALUE a 3 1 7\r\nx\r\nEND\r\n");
    let parts = Parts::new(rt.alloc(), reply).expect(&rt, "memory");
    check(&rt, is_in_each_part(parts), "the hit");
}

/// The last piece is answered so behind so many bytes, where the reply goes on behind the first piece and behind them.
fn check_behind(
    rt: &(impl AllocGlobal + Abort),
    op: &str,
    first: &[u8],
    bytes: &[u8],
    last: &[u8],
    answer: &str,
) {
    let mut reader = reader_for(rt.alloc(), op).expect(rt, "a reader");
    check_answer(rt, &mut reader, first, "more");
    for piece in bytes.chunks(99_999) {
        check_answer(rt, &mut reader, piece, "more");
    }
    check_answer(rt, &mut reader, last, answer);
}

fn many(rt: &(impl AllocGlobal + Abort), byte: u8, count: usize) -> Vec<u8> {
    vec![in rt.alloc(); byte; count].expect(rt, "memory")
}

#[test]
fn a_line_has_2048_bytes_at_the_most(rt: HostRuntime) {
    for (count, last, answer) in [
        (2041, "DELETED\n", "deleted"),
        (2042, "D", "refused"),
        (2043, " ", "refused"),
    ] {
        let spaces = many(&rt, b' ', count);
        check_behind(&rt, "delete", b"", &spaces, last.as_bytes(), answer);
    }
}

#[test]
fn a_value_has_1048576_bytes_at_the_most(rt: HostRuntime) {
    let value = many(&rt, b'x', 1_048_576);
    let first = b"VALUE a 0 1048576\r\n";
    check_behind(&rt, "get", first, &value, b"\r\nEND\r\n", "hit");
}

/// The answer to a piece, in a word.
fn probe_answer_to(probe: &mut ProbeReader, piece: &[u8]) -> &'static str {
    match probe.feed(piece) {
        Ok(None) => "more",
        Ok(Some(version)) => {
            if version.as_slice() == b"VERSION 1.6.9".as_slice() {
                "version"
            } else {
                "another version"
            }
        }
        Err(fault) => fault_name(fault),
    }
}

/// The probe's answer to a piece is this one.
fn check_probe(rt: &impl Abort, probe: &mut ProbeReader, piece: &[u8], answer: &str) {
    let found = probe_answer_to(probe, piece);
    assert!(rt; found == answer, "{answer}, not {found}");
}

/// The bytes, cut there, are the answer to a probe, given once.
fn check_probed(rt: &(impl AllocGlobal + Abort), bytes: &[u8], cut: usize) {
    let (front, back) = bytes.split_at(cut.min(bytes.len()));
    let mut probe = ProbeReader::new(rt.alloc());
    check_probe(rt, &mut probe, front, "more");
    check_probe(rt, &mut probe, back, "version");
    check_probe(rt, &mut probe, b"", "refused");
    check_probe(rt, &mut probe, b"", "closed");
}

#[test]
fn a_probe_is_answered_once_at_every_cut(rt: HostRuntime) {
    for cut in 0..15 {
        check_probed(&rt, b"VERSION 1.6.9\r\n", cut);
    }
}

#[test]
fn a_probe_wants_the_word(rt: HostRuntime) {
    let mut probe = ProbeReader::new(rt.alloc());
    check_probe(&rt, &mut probe, b"VERSIO\r", "refused");
}

#[test]
fn faults_have_numbers(rt: HostRuntime) {
    one_reply();
    one_version();
    check(&rt, ReplyFault::NotAReply.number() == 1, "no reply");
    check(&rt, ReplyFault::Memory.number() == 3, "memory");
}

/// A piece has this answer, or there is no memory and the reader is closed from then on.
fn check_answered_or_closed(rt: &impl Abort, reader: &mut ReplyReader, piece: &[u8], answer: &str) {
    let found = answer_to(reader, piece);
    if found == "memory" {
        check_answer(rt, reader, b"", "closed");
    } else {
        check(rt, found == answer, answer);
    }
}

/// Each allocation may fail here: the reader says so, and is closed then.
#[test]
fn want_of_memory_closes_the_reader(rt: HostRuntime) {
    if let Some(mut reader) = reader_for(rt.alloc(), "gets") {
        let piece = b"VALUE a 0 5 7\r\nworld\r\nEND\r\n";
        check_answered_or_closed(&rt, &mut reader, piece, "hit");
    }
}

/// The same of the probe's version.
fn check_probed_or_closed(rt: &impl Abort, probe: &mut ProbeReader, piece: &[u8]) {
    let found = probe_answer_to(probe, piece);
    if found == "memory" {
        check_probe(rt, probe, b"", "closed");
    } else {
        check(rt, found == "version", "the version");
    }
}

#[test]
fn want_of_memory_closes_the_probe(rt: HostRuntime) {
    let mut probe = ProbeReader::new(rt.alloc());
    check_probed_or_closed(&rt, &mut probe, b"VERSION 1.6.9\r\n");
}
