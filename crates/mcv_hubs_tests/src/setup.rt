//! What hubs are made over, and what is asked of them.

use mcv_base::{Ask, Op, Request, ServerId};
use mcv_check::Accepted;
use mcv_verdict::{Judgement, judge_input};
use std::process::Abort;
use std::sync::Arc;

/// One pool of one server.
const ONE: &str = "{\"pools\":{\"A\":{\"servers\":[\"a:11211\"]}},\"route\":\"PoolRoute|A\"}";

/// Its server.
pub(crate) const SERVER: ServerId = ServerId(0);

/// What the checker accepts of the configuration of one pool.
pub(crate) fn accepted(rt: &(impl AllocGlobal + Abort)) -> Arc<Accepted> {
    let judgement = judge_input(rt.alloc(), &mut ONE.as_bytes(), 0).expect(rt, "a verdict");
    let accepted = match judgement {
        Judgement::Covered { accepted, .. } => Some(accepted),
        Judgement::Lost { .. } => None,
    };
    Arc::new(rt.alloc(), accepted.expect(rt, "covered routes")).expect(rt, "memory")
}

/// A get of a key.
pub(crate) fn get(rt: &(impl AllocGlobal + Abort), key: &[u8]) -> Arc<Request> {
    let mut keys = Vec::new(rt.alloc());
    let word = Vec::from_slice(rt.alloc(), key).expect(rt, "memory");
    keys.push(word).expect(rt, "memory");
    let ask = Ask {
        op: Op::Get,
        keys,
        flags: 0,
        exptime: 0,
        body: Arc::new(rt.alloc(), Vec::new(rt.alloc())).expect(rt, "memory"),
        cas: None,
        delta: 0,
        noreply: false,
    };
    Arc::new(rt.alloc(), Request::Ask(ask)).expect(rt, "memory")
}
