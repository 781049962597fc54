//! Sessions over a scripted desk.

use super::script::Script;
use crate::protocol::moved;
use crate::rows::{check, check_bytes, push, unfolded};
use mcv_base::Request;
use mcv_session::{Desk, DeskFault, Machine, Phase, SessionFault};
use std::process::Abort;
use std::sync::Arc;

/// A client's bytes, the desk's answers, what is written, what the desk was asked, and whether the session has ended.
pub type Row = (&'static str, &'static str, &'static str, &'static str, bool);

pub const ROWS: [Row; 22] = [
    ("get a b~", "hm", "VALUE a 0 1~x~END~", "get a~", false),
    ("version~", "", "VERSION mcv 1~", "", false),
    (
        "set /././k 05 0 1~x~",
        "s",
        "STORED~",
        "set k 5 0 1~x~",
        false,
    ),
    (
        "gets a~get b~",
        "h/m",
        "VALUE a 0 1 7~x~END~END~",
        "gets a~get b~",
        false,
    ),
    (
        "get a b c~get d~",
        "hfh/m",
        "SERVER_ERROR destination failed~END~",
        "get a~get d~",
        false,
    ),
    (
        "delete a noreply~delete b~",
        "d/n",
        "NOT_FOUND~",
        "delete a~delete b~",
        false,
    ),
    (
        "delete a noreply~version~",
        "3",
        "VERSION mcv 1~",
        "delete a~",
        false,
    ),
    (
        "get a b~get c~",
        "1/h",
        "SERVER_ERROR no route~VALUE c 0 1~x~END~",
        "get a~get c~",
        false,
    ),
    (
        "delete a~",
        "2",
        "CLIENT_ERROR bad key~",
        "delete a~",
        false,
    ),
    ("delete a~", "3", "SERVER_ERROR busy~", "delete a~", false),
    (
        "delete a~",
        "4",
        "SERVER_ERROR out of memory~",
        "delete a~",
        false,
    ),
    ("quit~", "", "", "", true),
    (
        "version~quit~version~delete a~",
        "d",
        "VERSION mcv 1~",
        "",
        true,
    ),
    (
        "foo~get a~",
        "h",
        "ERROR~VALUE a 0 1~x~END~",
        "get a~",
        false,
    ),
    ("~", "", "ERROR~", "", false),
    (
        "delete a~get~delete a~",
        "d/d",
        "DELETED~CLIENT_ERROR bad command line~",
        "delete a~",
        true,
    ),
    (
        "set k 0 0 1~xy~delete a~",
        "d",
        "CLIENT_ERROR bad data chunk~",
        "",
        true,
    ),
    (
        "set k 0 0 1048577~x",
        "s",
        "SERVER_ERROR value too large~",
        "",
        false,
    ),
    ("delete a~delete b", "d/d", "DELETED~", "delete a~", false),
    ("set k 0 0 4~x~", "s", "", "", false),
    (
        "set k 0 0 4~x~y~delete k~",
        "s/d",
        "STORED~DELETED~",
        "set k 0 0 4~x~y~delete k~",
        false,
    ),
    ("", "", "", "", false),
];

/// The desk answers what the session gives out.
fn answer_one(
    rt: &impl Abort,
    session: &mut Machine,
    desk: &mut Script<'_>,
    request: &Arc<Request>,
) {
    let answered = match desk.ask(request) {
        Ok(parts) => session.answer(parts.as_slice()),
        Err(fault) => session.refuse(fault),
    };
    check(rt, answered.is_ok(), "an answer");
}

/// The desk answers each request that waits; of a row there are at most four.
fn answer_all(rt: &impl Abort, session: &mut Machine, desk: &mut Script<'_>) {
    for _request in 0..5 {
        let given = session.next_request().expect(rt, "memory");
        match given {
            Some(request) => answer_one(rt, session, desk, &request),
            None => return,
        }
    }
    check(rt, false, "no request more");
}

/// Writes so many bytes of the output, or all.
fn write_part(rt: &impl Abort, session: &mut Machine, count: usize, text: &mut Vec<u8>) {
    let count = count.min(session.output().len());
    push(rt, text, &session.output()[..count]);
    session.wrote(count);
}

/// Writes so many bytes of the output, and then the others.
fn write_output(rt: &impl Abort, session: &mut Machine, count: usize, text: &mut Vec<u8>) {
    write_part(rt, session, count, text);
    push(rt, text, session.output());
    session.wrote_all();
}

/// Reads a piece, and writes its answers. The result: whether the session took it.
fn read_piece(
    rt: &impl Abort,
    text: &mut Vec<u8>,
    session: &mut Machine,
    desk: &mut Script<'_>,
    piece: &[u8],
) -> bool {
    match session.feed(piece) {
        Ok(()) => {
            answer_all(rt, session, desk);
            write_output(rt, session, piece.len(), text);
            true
        }
        Err(fault) => {
            check(rt, fault == SessionFault::Ended, "a fault");
            false
        }
    }
}

/// A session has a row's answers to pieces of so many bytes of the stream.
fn check_row(rt: &(impl AllocGlobal + Abort), row: &Row, size: usize) {
    let (stream, answers, wanted, asked, ends) = *row;
    let bytes = unfolded(rt, stream);
    let mut text = Vec::new(rt.alloc());
    let mut session = Machine::new(rt.alloc());
    let mut desk = Script::new(rt.alloc(), answers);
    for piece in bytes.chunks(size.max(1)) {
        let had_ended = session.phase() == Phase::Ended;
        let is_taken = read_piece(rt, &mut text, &mut session, &mut desk, piece);
        check(rt, is_taken != had_ended, stream);
    }
    check(rt, (session.phase() == Phase::Ended) == ends, stream);
    check_bytes(rt, stream, &text, &unfolded(rt, wanted));
    check_bytes(rt, stream, desk.asked(), &unfolded(rt, asked));
}

#[test]
fn streams_are_answered_in_pieces_of_any_size(rt: HostRuntime) {
    for row in &ROWS {
        for size in 1..80 {
            check_row(&rt, row, size);
        }
    }
}

/// A session whose stream came before it was asked anything has a row's answers.
fn check_late(rt: &(impl AllocGlobal + Abort), row: &Row) {
    let (stream, answers, wanted, asked, _ends) = *row;
    let bytes = unfolded(rt, stream);
    let mut text = Vec::new(rt.alloc());
    let mut session = Machine::new(rt.alloc());
    let mut desk = Script::new(rt.alloc(), answers);
    for piece in bytes.chunks(7) {
        check(rt, session.feed(piece).is_ok(), "a piece");
    }
    answer_all(rt, &mut session, &mut desk);
    write_output(rt, &mut session, 5, &mut text);
    check_bytes(rt, stream, &text, &unfolded(rt, wanted));
    check_bytes(rt, stream, desk.asked(), &unfolded(rt, asked));
}

#[test]
fn a_stream_may_come_before_it_is_answered(rt: HostRuntime) {
    for row in &ROWS {
        check_late(&rt, row);
    }
}

/// A session that answered so many lines by itself.
fn versions(rt: &(impl AllocGlobal + Abort), count: usize) -> Machine {
    let mut session = Machine::new(rt.alloc());
    for _line in 0..count {
        check(rt, session.feed(b"version\r\n").is_ok(), "a line");
    }
    check(rt, matches!(session.next_request(), Ok(None)), "no request");
    session
}

#[test]
fn long_output_is_written_in_parts(rt: HostRuntime) {
    let mut session = versions(&rt, 1_000);
    let mut text = Vec::new(rt.alloc());
    for _part in 0..22 {
        write_part(&rt, &mut session, 700, &mut text);
    }
    check(&rt, session.output().is_empty(), "all is written");
    check(&rt, text.len() == 15_000, "each answer");
    for line in text.as_slice().chunks(15) {
        check(&rt, line == b"VERSION mcv 1\r\n".as_slice(), "an answer");
    }
    check(&rt, session.feed(b"get a\r\n").is_ok(), "goes on");
    check(
        &rt,
        matches!(session.next_request(), Ok(Some(_))),
        "a request",
    );
}

#[test]
fn a_session_that_has_ended_takes_nothing(rt: HostRuntime) {
    let mut session = Machine::new(rt.alloc());
    check(&rt, session.feed(b"quit\r\n").is_ok(), "quit");
    check(
        &rt,
        matches!(session.next_request(), Ok(None)),
        "no request",
    );
    check(&rt, session.phase() == Phase::Ended, "ended");
    let again = session.feed(b"delete a\r\n");
    check(&rt, again == Err(SessionFault::Ended), "nothing more");
}

#[test]
fn one_request_is_out_at_a_time(rt: HostRuntime) {
    let mut session = Machine::new(rt.alloc());
    check(&rt, session.refuse(DeskFault::Busy).is_err(), "none is out");
    check(&rt, session.feed(b"get a\r\nget b\r\n").is_ok(), "two");
    check(
        &rt,
        matches!(session.next_request(), Ok(Some(_))),
        "the first",
    );
    check(&rt, matches!(session.next_request(), Ok(None)), "is out");
    check(&rt, session.refuse(DeskFault::Busy).is_ok(), "answered");
    check(
        &rt,
        matches!(session.next_request(), Ok(Some(_))),
        "the second",
    );
    check(
        &rt,
        session.output() == b"SERVER_ERROR busy\r\n".as_slice(),
        "one answer",
    );
}

#[test]
fn a_session_is_moved(rt: HostRuntime) {
    let mut desk = Script::new(rt.alloc(), "d");
    let mut text = Vec::new(rt.alloc());
    let mut session = moved(&rt, Machine::new(rt.alloc()));
    let is_taken = read_piece(&rt, &mut text, &mut session, &mut desk, b"delete a\r\n");
    check(&rt, is_taken, "goes on");
}
