//! Scripts of a core. A line is an event and what the core answers to it, or a look at the core and what is seen:
//! `next 0 = Ok(LegId(0))`, `state 0 = Some(Sent)`.

use crate::setup::{
    BOTH, MOVING, ONE, WARMING, accepted_of, bytes, opened, record, request, shared, stored_after,
};
use mcv_base::{
    CallId, FixedReply, LegId, LegRequest, Moment, Op, Part, Parts, Reply, Request, ServerId,
};
use mcv_core::{Core, CoreFault, Dispatcher, LegState, LegView, Step};
use mcv_pools::Fnv;
use mcv_spool::SpoolRecord;
use std::fmt::Debug;
use std::process::Abort;
use std::str::from_utf8;

/// A record of a line: its number, its server and its rest.
fn record_of(rt: &(impl AllocGlobal + Abort), line: &str) -> (u64, SpoolRecord) {
    let (number, delete) = line.split_once(' ').expect(rt, "a number");
    let (server, rest) = delete.split_once(' ').expect(rt, "a server");
    (
        number_of(rt, number),
        record(rt, server.as_bytes(), rest.as_bytes()),
    )
}

pub(crate) fn number_of(rt: &(impl AllocGlobal + Abort), word: &str) -> u64 {
    word.parse::<u64>().expect(rt, word)
}

/// The configuration of this name.
fn config_of(name: &str) -> &'static str {
    match name {
        "ONE" => ONE,
        "BOTH" => BOTH,
        "WARMING" => WARMING,
        "MOVING" => MOVING,
        _ => "no such configuration",
    }
}

/// A core over the configuration of this name, opened with the records behind it. A number behind the name and a slash says
/// how many legs of a server may be in flight at a time.
fn core_with(rt: &(impl AllocGlobal + Abort), opening: &str) -> Core<Fnv> {
    let mut words = opening.split(", ");
    let name = words.next().unwrap_or("");
    let (name, limit) = name.split_once('/').unwrap_or((name, "1"));
    let config = config_of(name);
    let mut records = Vec::new(rt.alloc());
    for line in words {
        records.push(record_of(rt, line)).expect(rt, "memory");
    }
    let accepted = accepted_of(rt, config).expect(rt, "covered routes");
    opened(
        rt,
        accepted,
        records.as_slice(),
        number_of(rt, limit) as usize,
    )
}

/// Plays a script: its first line opens a core, each other one is an event or a look.
pub(crate) fn play(rt: &(impl AllocGlobal + Abort), script: &str) {
    let (first, lines) = script.split_once('\n').expect(rt, script);
    let (name, opening) = first.split_once(" = ").expect(rt, first);
    let mut core = core_with(rt, opening);
    for line in lines.lines() {
        play_line(rt, &mut core, name, line);
    }
}

fn play_line(rt: &(impl AllocGlobal + Abort), core: &mut Core<Fnv>, name: &str, line: &str) {
    let (event, wanted) = line.split_once(" = ").expect(rt, line);
    let (word, more) = event.split_once(' ').unwrap_or((event, ""));
    let found = answer(rt, core, word, more);
    assert!(rt; found.as_str() == wanted, "{name}: {line}, not {found}");
}

fn answer(rt: &(impl AllocGlobal + Abort), core: &mut Core<Fnv>, word: &str, more: &str) -> String {
    match word {
        "begin" => begin(rt, core, more),
        "answered" => answered(rt, core.events(), more),
        "spooled" => spooled(rt, core.events(), more),
        "deletes" => shown(rt, are_begun(rt, core, number_of(rt, more))),
        "misses" => shown(rt, are_missed(rt, core, number_of(rt, more))),
        "turn" => shown(rt, core.events().turn()),
        "held" => shown(rt, core.state().held()),
        "entries" => shown(rt, core.state().entries()),
        "era" => shown(rt, core.state().era()),
        "legs" => shown(rt, core.state().next_leg()),
        "limit" => shown(rt, core.state().limit()),
        _ => moved(rt, core.events(), word, number_of(rt, more)),
    }
}

/// The answer to an event of this number's server, leg, call or moment.
fn moved(
    rt: &(impl AllocGlobal + Abort),
    core: &mut Dispatcher,
    word: &str,
    number: u64,
) -> String {
    match word {
        "next" => shown(rt, core.next(server(number))),
        "replay" => shown(rt, core.replay(server(number))),
        "lost" => shown(rt, state(core.lost(LegId(number)))),
        "lost_too" => shown(rt, state(core.lost_too(LegId(number)))),
        "refused" => shown(rt, state(core.spool_refused(LegId(number)))),
        "take" => shown(rt, core.take(CallId(number))),
        "clock" => shown(rt, core.clock(Moment(number))),
        "mark" => shown(rt, core.mark(server(number))),
        "unmark" => shown(rt, core.unmark(server(number))),
        _ => seen(rt, core, word, number),
    }
}

/// What is seen of this number's leg, call or server.
fn seen(rt: &(impl AllocGlobal + Abort), core: &Dispatcher, word: &str, number: u64) -> String {
    match word {
        "state" => shown(rt, core.leg_state(LegId(number))),
        "record" => shown(rt, core.record(LegId(number))),
        "ready" => shown(rt, core.can_take(CallId(number))),
        "marked" => shown(rt, core.marked(server(number))),
        "flights" => shown(rt, core.in_flight(server(number))),
        "leg" => leg(rt, core.leg(LegId(number))),
        "asks" => asks(rt, core, LegId(number)),
        _ => shown(rt, "no such word"),
    }
}

pub(crate) fn shown<T: Debug + Drop>(rt: &(impl AllocGlobal + Abort), value: T) -> String {
    format!(in rt.alloc(); "{value:?}").expect(rt, "memory")
}

pub(crate) fn server(number: u64) -> ServerId {
    ServerId(u32::try_from(number).unwrap_or(u32::MAX))
}

pub(crate) fn state(step: Result<Step, CoreFault>) -> Result<LegState, CoreFault> {
    Ok(step?.state)
}

/// An operation by its name.
pub(crate) fn op(name: &str) -> Op {
    if name == "Get" { Op::Get } else { Op::Delete }
}

/// Begins a call for the key `a`.
fn begin(rt: &(impl AllocGlobal + Abort), core: &mut Core<Fnv>, name: &str) -> String {
    shown(rt, core.begin(rt.alloc(), request(rt, op(name), b"a"), 0))
}

/// Whether so many deletes begin.
fn are_begun(rt: &(impl AllocGlobal + Abort), core: &mut Core<Fnv>, count: u64) -> bool {
    for _ in 0..count {
        if core
            .begin(rt.alloc(), request(rt, Op::Delete, b"a"), 0)
            .is_err()
        {
            return false;
        }
    }
    true
}

/// Whether so many gets begin, have a miss and are taken, one after the other.
fn are_missed(rt: &(impl AllocGlobal + Abort), core: &mut Core<Fnv>, count: u64) -> bool {
    for _ in 0..count {
        if !is_missed(rt, core) {
            return false;
        }
    }
    true
}

fn is_missed(rt: &(impl AllocGlobal + Abort), core: &mut Core<Fnv>) -> bool {
    let Ok(call) = core.begin(rt.alloc(), request(rt, Op::Get, b"a"), 0) else {
        return false;
    };
    let Ok(leg) = core.events().next(ServerId(0)) else {
        return false;
    };
    let step = core.events().answered(leg, Parts::fixed(FixedReply::Miss));
    matches!(step, Ok(step) if step.state == LegState::Gone)
        && matches!(
            core.events().take(call),
            Ok(Some(Part::Fixed(FixedReply::Miss)))
        )
}

/// A reply by its name; any other name is the body of a hit.
pub(crate) fn reply(rt: &(impl AllocGlobal + Abort), name: &str) -> Reply {
    match name {
        "Deleted" => Reply::Deleted,
        "NotFound" => Reply::NotFound,
        "Miss" => Reply::Miss,
        "Fault" => Reply::Fault(bytes(rt, b"SERVER_ERROR busy")),
        body => Reply::Hit {
            flags: 7,
            cas: None,
            body: shared(rt, body.as_bytes()),
        },
    }
}

/// A leg is answered by the reply of this name.
fn answered(rt: &(impl AllocGlobal + Abort), core: &mut Dispatcher, more: &str) -> String {
    let (leg, name) = more.split_once(' ').expect(rt, "a reply");
    let parts = Parts::new(rt.alloc(), reply(rt, name)).expect(rt, "memory");
    shown(rt, state(core.answered(LegId(number_of(rt, leg)), parts)))
}

/// A leg is stored as the record of this number, which is of this rest.
fn spooled(rt: &(impl AllocGlobal + Abort), core: &mut Dispatcher, more: &str) -> String {
    let (leg, record) = more.split_once(' ').expect(rt, "a record");
    let (number, rest) = record.split_once(' ').expect(rt, "a rest");
    let stored = stored_after(rt, number_of(rt, number), b"a:11211", rest.as_bytes());
    shown(rt, state(core.spooled(LegId(number_of(rt, leg)), stored)))
}

/// The operation, the rest, the server, the call and the record of a leg, and what its client asked.
fn leg(rt: &(impl AllocGlobal + Abort), leg: Option<LegView<'_>>) -> String {
    let Some(leg) = leg else {
        return shown(rt, "none");
    };
    let rest = from_utf8(leg.rest.as_bytes()).expect(rt, "a text");
    let asked = matches!(leg.request, Some(Request::Ask(_)));
    format!(in rt.alloc();
        "{:?} {rest} {:?} {:?} {:?} {:?} {asked}",
        leg.op, leg.mark, leg.server, leg.call, leg.record
    )
    .expect(rt, "memory")
}

/// What a leg asks its server.
fn asks(rt: &(impl AllocGlobal + Abort), core: &Dispatcher, leg: LegId) -> String {
    match core.to_request(rt.alloc(), leg).expect(rt, "memory") {
        Some(request) => asked(rt, &request),
        None => shown(rt, "none"),
    }
}

/// The operation, the rest, the flags, the time and the body of a request.
fn asked(rt: &(impl AllocGlobal + Abort), request: &LegRequest) -> String {
    let rest = from_utf8(request.rest.as_bytes()).expect(rt, "a text");
    let body = from_utf8(request.body.as_slice()).expect(rt, "a text");
    format!(in rt.alloc();
        "{:?} {rest} {} {} {body:?}",
        request.op, request.flags, request.exptime
    )
    .expect(rt, "memory")
}
