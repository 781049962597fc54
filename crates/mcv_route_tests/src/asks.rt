//! What legs ask, a row a case: an add stores the value and the flags that `warm` replied (mcrouter's wiki, List of Route
//! Handles, WarmUpRoute).

use crate::routes::{
    answers, check_found, halves, named, op_of, position, rest_of_a, shared, word,
};
use mcv_asks::{Call, Heard, client_request, leg_request};
use mcv_base::{Ask, LegRequest, Mark, Op, Request, Rest, ServerId};
use mcv_pools::Choice;
use mcv_route::{Answered, Launch, Route};
use std::process::Abort;
use std::str::from_utf8;
use std::sync::Arc;

/// The routes that the rows name, with pools of one server: `warm_up` adds for 60 s; another one that adds for 5 s has it as
/// its warm or its cold side; `failover` has it behind a pool.
const NAMES: [(&str, &str); 7] = [
    ("pool", "1"),
    ("warm_up", "11w"),
    ("as_warm", "111wv"),
    ("as_cold", "11w1v"),
    ("failover", "111wf"),
    ("of_failovers", "11f11fw"),
    ("of_all", "111sw"),
];

/// What the client asked: with 3 flags, an exptime of 9 s, the value `mine` and a delta of 7.
fn client(rt: &(impl AllocGlobal + Abort), op: Op) -> Request {
    let key = Vec::from_slice(rt.alloc(), b"a").expect(rt, "memory");
    Request::Ask(Ask {
        op,
        keys: vec![in rt.alloc(); key].expect(rt, "memory"),
        flags: 3,
        exptime: 9,
        body: shared(rt, b"mine"),
        cas: None,
        delta: 7,
        noreply: false,
    })
}

fn shown(rt: &(impl AllocGlobal + Abort), request: &LegRequest) -> String {
    let op = request.op.name();
    let flags = request.flags;
    let exptime = request.exptime;
    let body = from_utf8(request.body.as_slice()).unwrap_or("");
    let cas = request.cas;
    let delta = request.delta;
    format!(in rt.alloc(); "{op} {flags} {exptime} {body} {cas:?} {delta}").expect(rt, "memory")
}

fn heard<'a>(rt: &(impl AllocGlobal + Abort), came: &'a [Answered]) -> Vec<Heard<'a>> {
    let mut heard = Vec::new(rt.alloc());
    for leg in came {
        let position = leg.position.steps();
        let reply = &leg.reply;
        heard.push(Heard { position, reply }).expect(rt, "memory");
    }
    heard
}

/// The leg of a row: its operation, and its position.
fn launch_of(rt: &(impl AllocGlobal + Abort), row: &str) -> Launch {
    Launch {
        op: op_of(rt, row, 2),
        position: position(rt, word(rt, row, 3)),
        server: ServerId(1),
        mark: Mark::Plain,
    }
}

/// The rest of every call's key, shared.
fn shared_rest(rt: &(impl AllocGlobal + Abort)) -> Arc<Rest> {
    Arc::new(rt.alloc(), rest_of_a(rt)).expect(rt, "memory")
}

/// What a leg of a call asks, whose client asked for the same operation.
fn asked_by(
    rt: &(impl AllocGlobal + Abort),
    route: &Route,
    call: Call<'_>,
    launch: &Launch,
    rest: &Arc<Rest>,
) -> String {
    let client = client(rt, call.op);
    let request = leg_request(rt.alloc(), route, call, Some(&client), launch, rest);
    shown(rt, &request.expect(rt, "memory"))
}

/// What the leg of a row asks once these replies have come: the name of a route, the call's operation, the leg's and its position.
fn asked(rt: &(impl AllocGlobal + Abort), row: &str, heard: &[Heard<'_>]) -> String {
    let rest = shared_rest(rt);
    let choice = Choice::new(Vec::from_slice(rt.alloc(), &[0]).expect(rt, "memory"));
    let call = Call {
        op: op_of(rt, row, 1),
        rest: &rest,
        since: None,
        choice: &choice,
        heard,
    };
    let route = named(rt, &NAMES, word(rt, row, 0));
    asked_by(rt, &route, call, &launch_of(rt, row), &rest)
}

const ROWS: &str = "\
pool set set - | set 3 9 mine None 7
pool touch touch - | touch 3 9 mine None 7
pool incr incr - | incr 3 9 mine None 7
warm_up set set 0 | set 3 9 mine None 7
warm_up add add 0 | add 3 9 mine None 7
warm_up get add 2 0=miss 1=x | add 7 60 x None 0
as_warm get add 1.2 0=miss 1.0=miss 1.1=x | add 7 60 x None 0
as_warm get add 2 0=miss 1.0=miss 1.1=x | add 7 5 x None 0
as_warm get add 2 0=miss 1.0=y | add 7 5 y None 0
as_cold get add 0.2 0.0=miss 0.1=x | add 7 60 x None 0
as_cold get add 2.0 0.0=miss 0.1=miss 1=x | add 7 5 x None 0
failover get add 1.2 0=lost 1.0=miss 1.1=x | add 7 60 x None 0
of_failovers get add 2.0 0.0=lost 0.1=miss 1.0=lost 1.1=x | add 7 60 x None 0
of_failovers get add 2.1 0.0=miss 1.0=x 2.0=lost | add 7 60 x None 0
of_all get add 2 0=miss 1.1=x 1.0=y | add 7 60 y None 0
of_all get add 2 0=miss 1.0=y 1.1=x | add 7 60 x None 0";

/// What the leg of a row asks after its replies is what the row wants.
fn check_row(rt: &(impl AllocGlobal + Abort), row: &str) {
    let (call, wanted) = halves(rt, row);
    let came = answers(rt, call);
    let found = asked(rt, call, &heard(rt, &came));
    check_found(rt, row, found.as_str(), wanted);
}

#[test]
fn legs_ask(rt: HostRuntime) {
    for row in ROWS.lines() {
        check_row(&rt, row);
    }
}

/// What a delete of `a` asks whose record the spool held at the start.
fn spooled(rt: &(impl AllocGlobal + Abort)) -> String {
    let request = client_request(rt.alloc(), None, Op::Delete, &shared_rest(rt));
    shown(rt, &request.expect(rt, "memory"))
}

/// A delete whose record the spool held at the start has nothing but its rest.
#[test]
fn spooled_deletes_ask(rt: HostRuntime) {
    let row = "delete 0 0  None 0";
    check_found(&rt, row, spooled(&rt).as_str(), row);
}
