//! The servers whose hit can be a call's reply, by all lists of outcomes.

use crate::ground::Key;
use mcv_base::{FixedReply, Moment, Op, Part, Position, ServerId};
use mcv_route::{Answered, Launch, Route};
use mcv_rules::{Eval, Outcomes, Source, Status};
use std::process::Abort;
use std::sync::Arc;

/// The most lists of outcomes of one search.
const LISTS: usize = 100_000;

/// A reply of each outcome: only that counts here.
const REPLIES: [FixedReply; 3] = [FixedReply::Touched, FixedReply::Miss, FixedReply::Lost];

/// Whether there is an outcome at the position.
pub(crate) fn has_outcome(answered: &[Answered], position: &Position) -> bool {
    for there in answered {
        if there.position.is(position) {
            return true;
        }
    }
    false
}

fn copy_of(rt: &(impl AllocGlobal + Abort), part: &Part) -> Part {
    match part {
        Part::Fixed(reply) => Part::Fixed(*reply),
        Part::Owned(reply) => Part::Owned(Arc::try_clone(reply).expect(rt, "memory")),
    }
}

/// Adds an outcome at a position.
fn push_reply(
    rt: &(impl AllocGlobal + Abort),
    all: &mut Vec<Answered>,
    position: &Position,
    reply: Part,
) {
    let position = position.copy(rt.alloc()).expect(rt, "memory");
    all.push(Answered { position, reply }).expect(rt, "memory");
}

/// The list with one outcome more.
fn with_reply(
    rt: &(impl AllocGlobal + Abort),
    answered: &[Answered],
    position: &Position,
    reply: FixedReply,
) -> Vec<Answered> {
    let mut all = Vec::new(rt.alloc());
    for there in answered {
        push_reply(rt, &mut all, &there.position, copy_of(rt, &there.reply));
    }
    push_reply(rt, &mut all, position, Part::Fixed(reply));
    all
}

/// Adds the lists with one reply more of the leg, if it has none.
fn push_longer(
    rt: &(impl AllocGlobal + Abort),
    answered: &[Answered],
    launch: &Launch,
    open: &mut Vec<Vec<Answered>>,
) {
    if has_outcome(answered, &launch.position) {
        return;
    }
    for reply in REPLIES {
        let longer = with_reply(rt, answered, &launch.position, reply);
        open.push(longer).expect(rt, "memory");
    }
}

/// The server whose hit is the reply.
fn hit_server(launched: &[Launch], answered: &[Answered], status: Status) -> Option<ServerId> {
    let Status::Replied(Source::Outcome(place)) = status else {
        return None;
    };
    let reply = answered.get(place)?;
    if !matches!(reply.reply, Part::Fixed(FixedReply::Touched)) {
        return None;
    }
    for leg in launched {
        if leg.position.is(&reply.position) {
            return Some(leg.server);
        }
    }
    None
}

fn push_server(
    rt: &(impl AllocGlobal + Abort),
    server: Option<ServerId>,
    servers: &mut Vec<ServerId>,
) {
    if let Some(server) = server {
        if !servers.contains(&server) {
            servers.push(server).expect(rt, "memory");
        }
    }
}

/// Adds the server whose hit is the reply at this list, and the lists that are longer by one outcome.
fn visit(
    rt: &(impl AllocGlobal + Abort),
    eval: &Eval<'_>,
    answered: &[Answered],
    open: &mut Vec<Vec<Answered>>,
    servers: &mut Vec<ServerId>,
) {
    let outcomes = Outcomes::of(rt.alloc(), answered).expect(rt, "memory");
    let launched = eval.launched(rt.alloc(), &outcomes).expect(rt, "memory");
    let status = eval.status(&outcomes);
    push_server(rt, hit_server(&launched, answered, status), servers);
    for launch in &launched {
        push_longer(rt, answered, launch, open);
    }
}

/// Adds the servers whose hit can be the reply: each leg that is sent hits, misses or fails, and the outcomes come in any
/// order.
pub(crate) fn push_readable(
    rt: &(impl AllocGlobal + Abort),
    route: &Route,
    op: Op,
    key: &Key,
    since: Option<Moment>,
    servers: &mut Vec<ServerId>,
) {
    let eval = Eval::new(rt.alloc(), route, op, &key.rest, since, &key.choice);
    search(rt, &eval.expect(rt, "memory"), servers);
}

fn search(rt: &(impl AllocGlobal + Abort), eval: &Eval<'_>, servers: &mut Vec<ServerId>) {
    let mut open = Vec::new(rt.alloc());
    open.push(Vec::new(rt.alloc())).expect(rt, "memory");
    for _ in 0..LISTS {
        let Some(answered) = open.pop() else {
            return;
        };
        visit(rt, eval, &answered, &mut open, servers);
    }
    panic!(rt; "more than {LISTS} lists of outcomes");
}
