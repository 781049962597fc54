//! What routes send and reply, a row a case; the values are those of mcrouter's wiki, List of Route Handles.

use crate::routes::{answers, check, check_found, halves, moment_of, named, op_of, word};
use mcv_base::{FixedReply, Op, Outcome, Rest, split_key};
use mcv_pools::Choice;
use mcv_route::{Answered, Launch, Route};
use mcv_rules::{Eval, Outcomes, Status, default_reply};
use std::process::Abort;

/// The routes that the rows name. `nested` has three children, the middle one of which is itself such a route; `async` has
/// two pools in the background, the second after an error of the first; `warm_up` has server 1 cold and server 2 warm.
const NAMES: [(&str, &str); 16] = [
    ("pool", "P"),
    ("shadows", "T"),
    ("null", "N"),
    ("error", "E"),
    ("sync", "12s"),
    ("null_sync", "N1s"),
    ("nested", "012s3S"),
    ("initial", "12i"),
    ("async", "12fEy"),
    ("failover", "12f"),
    ("miss_failover", "12m"),
    ("warm_up", "12w"),
    ("migrate", "12M"),
    ("prefixes", "X"),
    ("operations", "O"),
    ("no_default", "D"),
];

/// The legs as their positions, servers, operations and marks; the status, and what the reply amounts to.
fn shown(
    rt: &(impl AllocGlobal + Abort),
    legs: &[Launch],
    status: Status,
    outcome: Option<Outcome>,
) -> String {
    let mut text = String::new(rt.alloc());
    for leg in legs {
        let steps = leg.position.steps();
        let server = leg.server.0;
        let op = leg.op.name();
        let mark = leg.mark;
        write!(text, "{steps:?} {server} {op} {mark:?}; ").expect(rt, "memory");
    }
    write!(text, "{status:?} {outcome:?}").expect(rt, "memory");
    text
}

/// What is sent and replied after these outcomes.
fn evaluated(rt: &(impl AllocGlobal + Abort), eval: &Eval<'_>, answers: &[Answered]) -> String {
    let outcomes = Outcomes::of(rt.alloc(), answers).expect(rt, "memory");
    let legs = eval.launched(rt.alloc(), &outcomes).expect(rt, "memory");
    let status = eval.status(&outcomes);
    shown(rt, &legs, status, status.outcome(answers))
}

/// The choice of an index for symbol 0.
fn choice_of(rt: &(impl AllocGlobal + Abort), index: &str) -> Choice {
    let index = index.parse::<usize>().expect(rt, "an index");
    Choice::new(Vec::from_slice(rt.alloc(), &[index]).expect(rt, "memory"))
}

/// The rest of a key.
fn rest_of(rt: &impl Abort, key: &str) -> Rest {
    let (_, rest) = split_key(key.as_bytes()).expect(rt, "a key");
    rest
}

/// What a route gives for a row's operation, key, index of symbol 0, break that opened the era, and outcomes.
fn given(rt: &(impl AllocGlobal + Abort), route: &Route, row: &str) -> String {
    let rest = rest_of(rt, word(rt, row, 2));
    let choice = choice_of(rt, word(rt, row, 3));
    let (op, since) = (op_of(rt, row, 1), moment_of(rt, row, 4));
    let eval = Eval::new(rt.alloc(), route, op, &rest, since, &choice).expect(rt, "memory");
    evaluated(rt, &eval, &answers(rt, row))
}

/// A row gives what it wants; its first word is the name of a route.
fn check_row(rt: &(impl AllocGlobal + Abort), row: &str) {
    let (asked, wanted) = halves(rt, row);
    let route = named(rt, &NAMES, word(rt, asked, 0));
    check_found(rt, row, given(rt, &route, asked).as_str(), wanted);
}

fn check_rows(rt: &(impl AllocGlobal + Abort), table: &str) {
    for row in table.lines() {
        check_row(rt, row);
    }
}

/// Handles that send to all their children, or to none.
const ALL: &str = "\
pool get a 1 - | [] 2 get Plain; Waits None
pool get a 0 - -=miss -=hit | [] 1 get Plain; Replied(Outcome(0)) Some(Soft)
shadows get a 0 - 0=miss | [] 1 get Plain; [0] 3 get Shadow; Waits None
shadows get a 1 - -=hit | [] 2 get Plain; [1] 4 get Shadow; Replied(Outcome(0)) Some(Good)
null get a 0 - | Replied(Fixed(Miss)) Some(Soft)
null set a 0 - | Replied(Fixed(NotStored)) Some(Soft)
null delete a 0 - | Replied(Fixed(NotFound)) Some(Soft)
error get a 0 - | Replied(Fixed(ErrorRoute)) Some(Error)
sync delete a 0 - 1=error | [0] 1 delete Plain; [1] 2 delete Plain; Waits None
sync delete a 0 - 1=error 0=fault | [0] 1 delete Plain; [1] 2 delete Plain; Replied(Outcome(1)) Some(Error)
sync delete a 0 - 1=error 0=deleted | [0] 1 delete Plain; [1] 2 delete Plain; Replied(Outcome(0)) Some(Error)
null_sync delete a 0 - 1=not_found | [1] 1 delete Plain; Replied(Outcome(0)) Some(Soft)
nested delete a 0 - 1.0=error 0=fault 2=fault 1.1=deleted | [0] 0 delete Plain; [1, 0] 1 delete Plain; [1, 1] 2 delete Plain; [2] 3 delete Plain; Replied(Outcome(0)) Some(Error)
initial get a 0 - 1=hit | [0] 1 get Plain; [1] 2 get Async; Waits None
initial get a 0 - 0=miss | [0] 1 get Plain; [1] 2 get Async; Replied(Outcome(0)) Some(Soft)
async delete a 0 - | [0, 0] 1 delete Async; Replied(Fixed(NotFound)) Some(Soft)
async delete a 0 - 0.0=error | [0, 0] 1 delete Async; [0, 1] 2 delete Async; Replied(Fixed(NotFound)) Some(Soft)";

/// Handles that search.
const SEARCHES: &str = "\
failover get a 0 - | [0] 1 get Plain; Waits None
failover get a 0 - 0=miss | [0] 1 get Plain; Replied(Outcome(0)) Some(Soft)
failover get a 0 - 0=fault | [0] 1 get Plain; [1] 2 get Plain; Waits None
failover get a 0 - 0=fault 1=miss | [0] 1 get Plain; [1] 2 get Plain; Replied(Outcome(1)) Some(Soft)
miss_failover get a 0 - 0=miss | [0] 1 get Plain; [1] 2 get Plain; Waits None
miss_failover get a 0 - 0=error 1=hit | [0] 1 get Plain; [1] 2 get Plain; Replied(Outcome(1)) Some(Good)
miss_failover delete a 0 - 0=not_found | [0] 1 delete Plain; Replied(Outcome(0)) Some(Soft)
warm_up get a 0 - | [0] 1 get Plain; Waits None
warm_up get a 0 - 0=miss | [0] 1 get Plain; [1] 2 get Plain; Waits None
warm_up get a 0 - 0=miss 1=hit | [0] 1 get Plain; [1] 2 get Plain; [2] 1 add Add; Replied(Outcome(1)) Some(Good)
warm_up get a 0 - 0=miss 1=miss | [0] 1 get Plain; [1] 2 get Plain; Replied(Outcome(1)) Some(Soft)
warm_up set a 0 - | [0] 1 set Plain; Waits None";

/// Handles that choose among their children.
const CHOICES: &str = "\
migrate delete a 0 - | [0] 1 delete Plain; Waits None
migrate delete a 0 999 | [0] 1 delete Plain; Waits None
migrate delete a 0 1000 | [0] 1 delete Plain; [1] 2 delete Plain; Waits None
migrate delete a 0 8199 1=fault 0=deleted | [0] 1 delete Plain; [1] 2 delete Plain; Replied(Outcome(0)) Some(Error)
migrate delete a 0 8200 | [1] 2 delete Plain; Waits None
migrate get a 0 4599 | [0] 1 get Plain; Waits None
migrate get a 0 4600 | [1] 2 get Plain; Waits None
prefixes get ac 0 - | [0] 1 get Plain; Waits None
prefixes get abc 0 - | [1] 2 get Plain; Waits None
prefixes get b 0 - | Replied(Fixed(ErrorRoute)) Some(Error)
operations delete a 1 - | [1] 8 delete Plain; Waits None
operations get a 0 - | [2] 1 get Plain; Waits None
no_default get a 0 - | Replied(Fixed(ErrorRoute)) Some(Error)";

#[test]
fn all_are_sent_to(rt: HostRuntime) {
    check_rows(&rt, ALL);
}

#[test]
fn searches_stop(rt: HostRuntime) {
    check_rows(&rt, SEARCHES);
}

#[test]
fn one_is_chosen(rt: HostRuntime) {
    check_rows(&rt, CHOICES);
}

/// The default replies of the operations that no row has.
#[test]
fn nothing_asked_is_a_miss(rt: HostRuntime) {
    for (op, reply) in [
        (Op::Gets, FixedReply::Miss),
        (Op::Cas, FixedReply::NotStored),
        (Op::Touch, FixedReply::NotFound),
        (Op::Incr, FixedReply::NotFound),
        (Op::Decr, FixedReply::NotFound),
    ] {
        check(&rt, default_reply(op) == reply, op.name());
    }
}
