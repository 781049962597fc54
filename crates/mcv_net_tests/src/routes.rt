//! Routes that the checker accepts.

use mcv_check::Accepted;
use mcv_verdict::{Judgement, judge_input};
use std::alloc::Global;
use std::process::Abort;
use std::sync::Arc;

/// What the checker accepts of a configuration.
pub(crate) fn accepted_of(rt: &impl Abort, alloc: Global, text: &str) -> Arc<Accepted> {
    let judgement = judge_input(alloc, &mut text.as_bytes(), 0);
    match judgement.expect(rt, "a configuration") {
        Judgement::Covered { accepted, .. } => Arc::new(alloc, accepted).expect(rt, "memory"),
        Judgement::Lost { .. } => panic!(rt; "the routes aren't covered"),
    }
}
