//! Items and texts against the words of memcached's `protocol.txt`.

use crate::legs::{hit, leg_line, shared};
use crate::rows::{check, check_bytes, push, push_meant, unfolded};
use itoa::Buffer;
use mcv_base::{Ask, FixedReply, LegRequest, Op, Part, Reply, Request, Rest};
use mcv_text::{Item, Refusal, RequestReader, TextFault, leg_text, reply_text};
use std::process::Abort;
use std::sync::Arc;

fn push_word(rt: &impl Abort, text: &mut Vec<u8>, mark: &[u8], word: &[u8]) {
    push(rt, text, mark);
    push(rt, text, word);
}

fn push_number(rt: &impl Abort, text: &mut Vec<u8>, mark: &[u8], number: i64) {
    let mut buffer = Buffer::new();
    push_word(rt, text, mark, buffer.format(number).as_bytes());
}

fn push_unless_0(rt: &impl Abort, text: &mut Vec<u8>, mark: &[u8], number: i64) {
    if number != 0 {
        push_number(rt, text, mark, number);
    }
}

fn push_cas(rt: &impl Abort, text: &mut Vec<u8>, cas: Option<u64>) {
    if let Some(cas) = cas {
        let mut buffer = Buffer::new();
        push_word(rt, text, b" c", buffer.format(cas).as_bytes());
    }
}

fn push_keys(rt: &impl Abort, text: &mut Vec<u8>, ask: &Ask) {
    for key in &ask.keys {
        push_word(rt, text, b" ", key.as_slice());
    }
}

/// The mark before a value, or none where it is empty.
fn body_mark(ask: &Ask) -> &'static [u8] {
    if ask.body.is_empty() { b"" } else { b" =" }
}

fn push_ask(rt: &impl Abort, text: &mut Vec<u8>, ask: &Ask) {
    push(rt, text, ask.op.name().as_bytes());
    push_keys(rt, text, ask);
    push_unless_0(rt, text, b" f", i64::from(ask.flags));
    push_unless_0(rt, text, b" e", ask.exptime);
    push_cas(rt, text, ask.cas);
    push_delta(rt, text, ask.delta);
    push(rt, text, if ask.noreply { b" noreply" } else { b"" });
    push_word(rt, text, body_mark(ask), ask.body.as_slice());
}

fn push_delta(rt: &impl Abort, text: &mut Vec<u8>, delta: u64) {
    if delta != 0 {
        push(rt, text, b" d");
        let mut buffer = Buffer::new();
        push(rt, text, buffer.format(delta).as_bytes());
    }
}

/// An item as a word or more and a semicolon; fields that are 0, empty or None aren't shown.
fn push_item(rt: &impl Abort, text: &mut Vec<u8>, item: &Item) {
    match item {
        Item::Refused(refusal) => push_number(rt, text, b"refused ", i64::from(refusal.number())),
        Item::Asked(Request::Version) => push(rt, text, b"version"),
        Item::Asked(Request::Quit) => push(rt, text, b"quit"),
        Item::Asked(Request::Ask(ask)) => push_ask(rt, text, ask),
    }
    push(rt, text, b";");
}

/// Feeds a piece and adds its items, or `end` where the reader has failed.
fn push_fed(
    rt: &impl Abort,
    text: &mut Vec<u8>,
    reader: &mut RequestReader,
    piece: &[u8],
    end: &[u8],
) {
    match reader.feed(piece) {
        Ok(items) => {
            for item in &items {
                push_item(rt, text, item);
            }
        }
        Err(fault) => {
            check(rt, fault == TextFault::Failed, "memory");
            push(rt, text, end);
        }
    }
}

/// What is read of a piece with the bytes up to the cut, and of pieces of so many bytes each behind it; `failed` comes
/// last where a further piece is answered Failed.
fn read(rt: &(impl AllocGlobal + Abort), bytes: &[u8], cut: usize, size: usize) -> Vec<u8> {
    let mut text = Vec::new(rt.alloc());
    let mut reader = RequestReader::new(rt.alloc());
    let (first, behind) = bytes.split_at(cut.min(bytes.len()));
    push_fed(rt, &mut text, &mut reader, first, b"");
    for piece in behind.chunks(size.max(1)) {
        push_fed(rt, &mut text, &mut reader, piece, b"");
    }
    push_fed(rt, &mut text, &mut reader, b"", b"failed");
    text
}

/// Whether a long stream of `length` bytes is cut here: each cut near both ends, and some between them.
fn is_tried(cut: usize, length: usize) -> bool {
    cut < 24 || length.saturating_sub(cut) < 24 || cut % 65_537 == 0
}

/// A stream has these items in a piece up to the cut and pieces of so many bytes.
fn check_cut(
    rt: &(impl AllocGlobal + Abort),
    row: &str,
    bytes: &[u8],
    items: &[u8],
    cut: usize,
    size: usize,
) {
    let found = read(rt, bytes, cut, size);
    assert!(rt; found.as_slice() == items, "{row}: cut at {cut}");
}

/// A stream has its items in two pieces, wherever it is cut; of a long one some cuts are tried.
fn check_cuts(
    rt: &(impl AllocGlobal + Abort),
    row: &str,
    bytes: &[u8],
    items: &[u8],
    is_long: bool,
) {
    for cut in 0..=bytes.len() {
        if !is_long || is_tried(cut, bytes.len()) {
            check_cut(rt, row, bytes, items, cut, bytes.len());
        }
    }
}

/// Adds a letter so many times.
fn push_letters(rt: &impl Abort, bytes: &mut Vec<u8>, count: usize) {
    for _ in 0..count {
        push(rt, bytes, b"k");
    }
}

/// The bytes that a column means, where `*` is so many letters.
fn stretched(rt: &(impl AllocGlobal + Abort), column: &str, count: usize) -> Vec<u8> {
    let mut bytes = Vec::new(rt.alloc());
    for byte in column.as_bytes() {
        match *byte {
            b'*' => push_letters(rt, &mut bytes, count),
            other => push_meant(rt, &mut bytes, other),
        }
    }
    bytes
}

/// A row's stream has its items. Without letters it is short, and is cut everywhere, and at every byte at once.
fn check_row(rt: &(impl AllocGlobal + Abort), row: &str, letters: usize) {
    let (stream, items) = row.split_once(" | ").expect(rt, "a row");
    let bytes = stretched(rt, stream, letters);
    let items = stretched(rt, items, letters);
    check_cuts(rt, row, &bytes, &items, letters > 0);
    if letters == 0 {
        check_cut(rt, row, &bytes, &items, 0, 1);
    }
}

fn check_rows(rt: &(impl AllocGlobal + Abort), table: &str) {
    for row in table.lines() {
        check_row(rt, row, 0);
    }
}

const READ: &str = "get a b~ | get a b;
gets   a  ~ | gets a;
delete /././a 0 noreply~ | delete /././a noreply;
delete a 0~delete a noreply~ | delete a;delete a noreply;
set k 05 0 4~x~y~get a~ | set k f5 =x~y;get a;
set k 0 -1 0 noreply~~ | set k e-1 noreply;
add k 4294967295 -0 1~x~ | add k f4294967295 =x;
replace k 0 9223372036854775807 1~x~ | replace k e9223372036854775807 =x;
append k 0 -9223372036854775808 1~x~ | append k e-9223372036854775808 =x;
prepend k 0 0 1~x~ | prepend k =x;
cas k 1 2 3 18446744073709551615 noreply~xyz~ | cas k f1 e2 c18446744073709551615 noreply =xyz;
touch a -1~version~quit~ | touch a e-1;version;quit;
get a^get b~ | get a;get b;
incr /././k 05~decr k 18446744073709551615 noreply~ | incr /././k d5;decr k d18446744073709551615 noreply;
foo~~get a~gat 0 a~ | refused 1;refused 1;get a;refused 1;";

#[test]
fn streams_have_their_items_however_cut(rt: HostRuntime) {
    check_rows(&rt, READ);
}

const REFUSED: &str = "set k 05 0 3~x~y~~get a~ | refused 3;failed
get~get a~ | refused 2;failed
get a  b\u{7f}~ | refused 2;failed
version 1~ | refused 2;failed
delete a noreply 0~ | refused 2;failed
delete a 1~ | refused 2;failed
set k 0 0 -1~ | refused 2;failed
set k 4294967296 0 1~ | refused 2;failed
set k 0 +1 1~ | refused 2;failed
set k 0 0 1 noreply noreply~ | refused 2;failed
set k 0 0~ | refused 2;failed
touch a 9223372036854775808~ | refused 2;failed
touch a -9223372036854775809~ | refused 2;failed
touch a -~ | refused 2;failed
cas k 0 0 0 18446744073709551616~ | refused 2;failed
set a 0 0 1~xyz | refused 3;failed
set a 0 0 1~xyz~ | refused 3;failed
set a 0 0 1~x^ | refused 3;failed
get a~add a 0 0 0~ ~ | get a;refused 3;failed
incr a~ | refused 2;failed
incr a 18446744073709551616~ | refused 2;failed
decr a -1~ | refused 2;failed
decr a +1~ | refused 2;failed
incr a 1 2~ | refused 2;failed
incr a b 1~ | refused 2;failed";

#[test]
fn refusals_2_and_3_end_the_reading(rt: HostRuntime) {
    check_rows(&rt, REFUSED);
}

/// Streams at the limits and one byte beyond, with their items: how many letters `*` is, and the row.
const LIMITS: [(usize, &str); 10] = [
    (250, "get * a~ | get * a;"),
    (251, "get * a~ | refused 2;failed"),
    (65_531, "foo *~get a~ | refused 1;get a;"),
    (65_532, "foo *~get a~ | refused 2;failed"),
    (65_532, "foo * | "),
    (65_533, "foo * | refused 2;failed"),
    (1_048_576, "set k 0 0 1048576~*~get a~ | set k =*;get a;"),
    (1_048_579, "set k 0 0 1048577~*get a~ | refused 4;get a;"),
    (
        1_048_578,
        "set k 0 0 1048577 noreply~*get a~ | refused 4;refused 1;",
    ),
    (
        1_048_577,
        "set k 0 0 1048577~*~version~ | refused 4;version;",
    ),
];

/// The other cuts are tried by `bench/cuts`; that all of them give the same items is the law `any_pieces`.
#[test]
fn limits_are_met_exactly_however_cut(rt: HostRuntime) {
    for (letters, row) in &LIMITS {
        check_row(&rt, row, *letters);
    }
}

/// Refusals with their numbers and lines.
const REFUSALS: [(Refusal, u8, &str, &str); 4] = [
    (Refusal::UnknownCommand, 1, "ERROR", "ERROR\r\n"),
    (
        Refusal::BadLine,
        2,
        "CLIENT_ERROR bad command line",
        "CLIENT_ERROR bad command line\r\n",
    ),
    (
        Refusal::BadDataChunk,
        3,
        "CLIENT_ERROR bad data chunk",
        "CLIENT_ERROR bad data chunk\r\n",
    ),
    (
        Refusal::ValueTooLarge,
        4,
        "SERVER_ERROR value too large",
        "SERVER_ERROR value too large\r\n",
    ),
];

#[test]
fn refusals_and_faults_have_numbers_and_lines(rt: HostRuntime) {
    for (refusal, number, line, text) in &REFUSALS {
        check(&rt, refusal.number() == *number, line);
        check(&rt, refusal.line() == *line, line);
        check(&rt, refusal.text() == *text, line);
    }
    check(&rt, TextFault::Failed.number() == 1, "failed");
    check(&rt, TextFault::Memory.number() == 2, "memory");
}

fn is_failed(reader: &mut RequestReader) -> bool {
    matches!(reader.feed(b"get a\r\n"), Err(TextFault::Failed))
        && matches!(reader.feed(b""), Err(TextFault::Failed))
}

/// How many items the pieces of a stream have, or none where one of them is answered Memory and each later one Failed.
fn count_fed(rt: &impl Abort, reader: &mut RequestReader, bytes: &[u8]) -> Option<usize> {
    let mut count = 0usize;
    for piece in bytes.chunks(13) {
        match reader.feed(piece) {
            Ok(items) => count = count.saturating_add(items.len()),
            Err(fault) => {
                check(rt, fault == TextFault::Memory, "memory");
                check(rt, is_failed(reader), "failed");
                return None;
            }
        }
    }
    Some(count)
}

/// Where a growth is refused, that piece gives Memory and each later one Failed. (With
/// `rt try --test --fail-alloc N` the Nth growth is.)
#[test]
fn want_of_memory_fails_the_reader(rt: HostRuntime) {
    let mut reader = RequestReader::new(rt.alloc());
    let stream = b"get a b\r\nset a 0 0 1\r\nx\r\ntouch a 1\r\n";
    let count = count_fed(&rt, &mut reader, stream);
    check(&rt, count.is_none_or(|count| count == 3), "three items");
}

/// Whether a request has nine keys, in vectors that have no other room.
fn has_nine_exact_keys(ask: &Ask) -> bool {
    ask.keys.len() == 9
        && ask.keys.capacity() == 9
        && ask.keys.iter().all(|key| key.capacity() == key.len())
}

fn is_exact(item: &Item) -> bool {
    match item {
        Item::Asked(Request::Ask(ask)) => has_nine_exact_keys(ask),
        _ => false,
    }
}

/// The words of a line take one growth, its keys one for all and one for each: no vector has other room than it needs.
#[test]
fn a_line_takes_one_growth_for_each_key(rt: HostRuntime) {
    let items = items_of(&rt, b"get a bb  ccc d e f g h i\r\n");
    check(&rt, items.first().is_some_and(is_exact), "exact");
}

/// The items of a stream.
fn items_of(rt: &(impl AllocGlobal + Abort), stream: &[u8]) -> Vec<Item> {
    let mut reader = RequestReader::new(rt.alloc());
    reader.feed(stream).expect(rt, "items")
}

/// The request of an item.
fn request_of(item: &Item) -> Option<&Request> {
    match item {
        Item::Asked(request) => Some(request),
        Item::Refused(_) => None,
    }
}

/// The answer to the first item of a stream.
fn answered(rt: &(impl AllocGlobal + Abort), stream: &str, parts: &[Part]) -> Vec<u8> {
    let items = items_of(rt, &unfolded(rt, stream));
    let item = items.first().expect(rt, "an item");
    let request = request_of(item).expect(rt, "a request");
    reply_text(rt.alloc(), request, parts).expect(rt, "memory")
}

fn owned(rt: &(impl AllocGlobal + Abort), reply: Reply) -> Part {
    Part::Owned(Arc::new(rt.alloc(), reply).expect(rt, "memory"))
}

fn hit_part(rt: &(impl AllocGlobal + Abort), flags: u32, body: &[u8]) -> Part {
    owned(
        rt,
        hit(rt.alloc(), flags, Some(9), body).expect(rt, "memory"),
    )
}

fn fault(rt: &(impl AllocGlobal + Abort), line: &[u8]) -> Part {
    let line = Vec::from_slice(rt.alloc(), line).expect(rt, "memory");
    owned(rt, Reply::Fault(line))
}

/// The reply without a value that a letter means.
fn fixed(letter: u8) -> FixedReply {
    match letter {
        b'l' => FixedReply::Lost,
        b's' => FixedReply::Stored,
        b'n' => FixedReply::NotStored,
        b'x' => FixedReply::Exists,
        b'o' => FixedReply::NotFound,
        b'd' => FixedReply::Deleted,
        b't' => FixedReply::Touched,
        b'6' => FixedReply::Number(6),
        b'z' => FixedReply::Number(u64::MAX),
        b'r' => FixedReply::ErrorRoute,
        _ => FixedReply::Miss,
    }
}

/// The reply that a letter means: h is a hit, e an empty one, f an error line, - a miss.
fn part(rt: &(impl AllocGlobal + Abort), letter: u8) -> Part {
    match letter {
        b'h' => hit_part(rt, 5, b"xyz"),
        b'e' => hit_part(rt, 0, b""),
        b'f' => fault(rt, b"SERVER_ERROR x"),
        other => Part::Fixed(fixed(other)),
    }
}

fn parts_of(rt: &(impl AllocGlobal + Abort), letters: &str) -> Vec<Part> {
    let mut parts = Vec::new(rt.alloc());
    for letter in letters.as_bytes() {
        parts.push(part(rt, *letter)).expect(rt, "memory");
    }
    parts
}

/// A row's stream has its answer.
fn check_answer(rt: &(impl AllocGlobal + Abort), row: &Answered) {
    let (stream, letters, text) = *row;
    let found = answered(rt, stream, &parts_of(rt, letters));
    check_bytes(rt, stream, &found, &unfolded(rt, text));
}

type Answered = (&'static str, &'static str, &'static str);

/// Streams of one request with the replies of its legs, by their letters, and the answer: hits under the client's keys, the
/// first error line for all, and else one line.
const ANSWERED: [Answered; 14] = [
    (
        "get /././a b c~",
        "h-e",
        "VALUE /././a 5 3~xyz~VALUE c 0 0~~END~",
    ),
    ("gets a~", "h", "VALUE a 5 3 9~xyz~END~"),
    ("get a b c~", "hfl", "SERVER_ERROR x~"),
    ("set a 0 0 0~~", "s", "STORED~"),
    ("add a 0 0 0~~", "n", "NOT_STORED~"),
    ("cas a 0 0 0 1~~", "x", "EXISTS~"),
    ("delete a~", "o", "NOT_FOUND~"),
    ("delete a~", "d", "DELETED~"),
    ("touch a 0~", "t", "TOUCHED~"),
    ("incr a 1~", "6", "6~"),
    ("decr a 1~", "z", "18446744073709551615~"),
    ("incr a 1~", "o", "NOT_FOUND~"),
    ("get a~", "r", "SERVER_ERROR error route~"),
    ("version~", "-", "VERSION mcv 1~"),
];

#[test]
fn requests_are_answered_from_their_replies(rt: HostRuntime) {
    for row in &ANSWERED {
        check_answer(&rt, row);
    }
}

/// The text of the leg that sends an item on.
fn sent(rt: &(impl AllocGlobal + Abort), item: &Item) -> Vec<u8> {
    match item {
        Item::Asked(Request::Ask(ask)) => leg_line(rt.alloc(), ask).expect(rt, "a leg"),
        _ => panic!(rt; "no leg"),
    }
}

/// The one item of two pieces is sent on so.
fn check_sent(rt: &(impl AllocGlobal + Abort), bytes: &[u8], cut: usize, text: &[u8]) {
    let mut reader = RequestReader::new(rt.alloc());
    let (first, second) = bytes.split_at(cut.min(bytes.len()));
    let early = reader.feed(first).expect(rt, "items");
    let late = reader.feed(second).expect(rt, "items");
    check(rt, early.len().saturating_add(late.len()) == 1, "one item");
    let item = early.first().or(late.first()).expect(rt, "an item");
    assert!(rt; sent(rt, item).as_slice() == text, "cut at {cut}");
}

#[test]
fn a_request_is_sent_on_under_its_rest(rt: HostRuntime) {
    let bytes = b"set   /././k 05 0 1 noreply\r\nx\r\n".as_slice();
    for cut in 0..=bytes.len() {
        check_sent(&rt, bytes, cut, b"set k 5 0 1\r\nx\r\n");
    }
}

/// The leg of an operation on `k` with flags 5, exptime -1, value `x` and cas 9.
fn leg(rt: &(impl AllocGlobal + Abort), op: Op) -> LegRequest {
    let rest = Rest::of(b"k").expect(rt, "a rest");
    LegRequest {
        op,
        rest: Arc::new(rt.alloc(), rest).expect(rt, "memory"),
        flags: 5,
        exptime: -1,
        body: shared(rt.alloc(), b"x").expect(rt, "memory"),
        cas: Some(9),
        delta: 7,
    }
}

/// The leg of an operation has this text.
fn check_leg(rt: &(impl AllocGlobal + Abort), op: Op, text: &[u8]) {
    let spelled = leg_text(rt.alloc(), &leg(rt, op)).expect(rt, "memory");
    check_bytes(rt, op.name(), &spelled, text);
}

const LEGS: [(Op, &[u8]); 12] = [
    (Op::Get, b"get k\r\n"),
    (Op::Gets, b"gets k\r\n"),
    (Op::Set, b"set k 5 -1 1\r\nx\r\n"),
    (Op::Add, b"add k 5 -1 1\r\nx\r\n"),
    (Op::Replace, b"replace k 5 -1 1\r\nx\r\n"),
    (Op::Append, b"append k 5 -1 1\r\nx\r\n"),
    (Op::Prepend, b"prepend k 5 -1 1\r\nx\r\n"),
    (Op::Cas, b"cas k 5 -1 1 9\r\nx\r\n"),
    (Op::Delete, b"delete k\r\n"),
    (Op::Touch, b"touch k -1\r\n"),
    (Op::Incr, b"incr k 7\r\n"),
    (Op::Decr, b"decr k 7\r\n"),
];

#[test]
fn legs_have_single_spaces_and_no_leading_zeros(rt: HostRuntime) {
    for (op, text) in &LEGS {
        check_leg(&rt, *op, text);
    }
}
