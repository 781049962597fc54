//! Legs of two servers, from their first call to their last.

use super::{play, server};
use crate::script::shown;
use mcv_base::{LegId, ServerId};
use mcv_queues::{Queues, State};
use std::process::Abort;

/// Adds a leg of a server, with its number as its content.
fn add(rt: &impl Abort, queues: &mut Queues<u64>, server: ServerId, number: u64) {
    queues.reserve(1).expect(rt, "memory");
    if queues.get(LegId(number)).is_none() {
        if (server.0 as usize) < queues.servers() {
            queues.push(LegId(number), server, number);
        }
    }
}

fn hold(queues: &mut Queues<u64>, number: u64) {
    if queues.is_in_flight(LegId(number)) {
        queues.held(LegId(number));
    }
}

fn refuse(queues: &mut Queues<u64>, number: u64) {
    if !queues.is_in_flight(LegId(number)) {
        queues.refused(LegId(number));
    }
}

/// Stores a leg as the record of this number.
fn store(queues: &mut Queues<u64>, number: u64, seq: u64) {
    if !queues.is_in_flight(LegId(number)) {
        queues.spooled(LegId(number), seq);
    }
}

fn fail_replay(queues: &mut Queues<u64>, number: u64) {
    if queues.is_in_flight(LegId(number)) {
        queues.replay_failed(LegId(number));
    }
}

/// The content of a leg that goes.
fn perform(queues: &mut Queues<u64>, number: u64) -> Option<u64> {
    if queues.is_in_flight(LegId(number)) {
        queues.gone(LegId(number))
    } else {
        None
    }
}

fn state(queues: &Queues<u64>, number: u64) -> Option<State> {
    Some(queues.get(LegId(number))?.state)
}

fn record(queues: &Queues<u64>, number: u64) -> Option<u64> {
    queues.get(LegId(number))?.record
}

/// How many legs may be in flight: one, where the script doesn't say it.
fn limit_of(more: u64) -> usize {
    if more == 0 { 1 } else { more as usize }
}

/// What a call on a leg or a server of this number gives.
pub(super) fn answer(
    rt: &(impl AllocGlobal + Abort),
    queues: &mut Queues<u64>,
    word: &str,
    number: u64,
    more: u64,
) -> String {
    match word {
        "add" => shown(rt, add(rt, queues, server(number), more)),
        "next" => shown(rt, queues.next(server(number), limit_of(more))),
        "replay" => shown(rt, queues.replay(server(number), limit_of(more))),
        "hold" => shown(rt, hold(queues, number)),
        "refuse" => shown(rt, refuse(queues, number)),
        "store" => shown(rt, store(queues, number, more)),
        "fail" => shown(rt, fail_replay(queues, number)),
        "perform" => shown(rt, perform(queues, number)),
        "set" => shown(rt, queues.set_content(LegId(number), more)),
        "grow" => shown(rt, queues.reserve(usize::MAX).is_ok()),
        _ => seen(rt, queues, word, number),
    }
}

/// What is seen of a leg or a server of this number.
fn seen(rt: &(impl AllocGlobal + Abort), queues: &Queues<u64>, word: &str, number: u64) -> String {
    match word {
        "state" => shown(rt, state(queues, number)),
        "record" => shown(rt, record(queues, number)),
        "sent" => shown(rt, queues.in_flight(server(number))),
        "held" => shown(rt, queues.first_held()),
        "replayed" => shown(rt, queues.in_replay()),
        _ => shown(rt, "no such word"),
    }
}

const ORDER: &str = "\
add 1 5 = ()
add 1 3 = ()
add 1 8 = ()
add 0 1 = ()
next 1 = Ok(LegId(3))
state 3 = Some(Sent)
sent 1 = 1
next 1 = Err(Busy)
next 0 = Ok(LegId(1))
perform 3 = Some(3)
state 3 = None
next 1 = Ok(LegId(5))
perform 5 = Some(5)
next 1 = Ok(LegId(8))
perform 8 = Some(8)
next 1 = Err(NothingWaiting)
next 2 = Err(NothingWaiting)";

#[test]
fn legs_are_handed_out_in_the_order_of_their_numbers(rt: HostRuntime) {
    play(&rt, ORDER);
}

const TWO_IN_FLIGHT: &str = "\
add 1 5 = ()
add 1 3 = ()
add 1 8 = ()
store 8 30 = ()
next 1 2 = Ok(LegId(3))
replay 1 2 = Ok(LegId(8))
sent 1 = 2
next 1 2 = Err(Busy)
next 1 3 = Ok(LegId(5))
next 1 3 = Err(Busy)
sent 0 = 0
perform 5 = Some(5)
sent 1 = 2
perform 3 = Some(3)
fail 8 = ()
sent 1 = 0
next 1 2 = Err(NothingWaiting)";

#[test]
fn several_legs_are_in_flight_up_to_the_limit(rt: HostRuntime) {
    play(&rt, TWO_IN_FLIGHT);
}

const HELD: &str = "\
add 0 1 = ()
add 0 4 = ()
add 1 2 = ()
held = None
next 0 = Ok(LegId(1))
hold 1 = ()
next 1 = Ok(LegId(2))
hold 2 = ()
held = Some(LegId(1))
refuse 1 = ()
held = Some(LegId(2))
store 2 0 = ()
held = Some(LegId(1))
state 1 = Some(Refused)
next 0 = Ok(LegId(4))";

#[test]
fn held_legs_come_before_refused_ones(rt: HostRuntime) {
    play(&rt, HELD);
}

const REPLAYED: &str = "\
add 0 6 = ()
add 0 2 = ()
add 0 9 = ()
record 6 = None
store 9 30 = ()
store 6 31 = ()
record 9 = Some(30)
record 2 = None
replayed = None
replay 0 = Ok(LegId(6))
replayed = Some(LegId(6))
replay 0 = Err(Busy)
next 0 = Err(Busy)
fail 6 = ()
replayed = None
state 6 = Some(InSpool)
record 6 = Some(31)
store 2 32 = ()
set 2 2 = ()
record 2 = Some(32)
replay 0 = Ok(LegId(2))
perform 2 = Some(2)
replay 0 = Ok(LegId(6))
perform 6 = Some(6)
replay 1 = Err(NothingWaiting)";

#[test]
fn replay_takes_the_least_number_and_keeps_what_fails(rt: HostRuntime) {
    play(&rt, REPLAYED);
}

const GROWN: &str = "\
add 0 1 = ()
grow = false
set 1 70 = ()
next 0 = Ok(LegId(1))
perform 1 = Some(70)";

#[test]
fn refused_growth_changes_nothing(rt: HostRuntime) {
    play(&rt, GROWN);
}
