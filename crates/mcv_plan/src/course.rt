//! A call's plan under a choice, with what its legs have answered so far.

use crate::answer::Answer;
use mcv_base::FixedReply;
use mcv_rules::After;

/// A part of a plan, its legs numbered in the order of their positions.
#[derive(Drop)]
pub enum Course {
    /// The leg with this number.
    Send(usize),
    /// A reply at once.
    Reply(FixedReply),
    /// All at once: the worst reply, and of equal ones the last, once all are there.
    All {
        ends: Vec<usize>,
        children: Vec<Course>,
        waiting: usize,
        worst: Option<Answer>,
    },
    /// One after another, while the search goes on: the last one's reply.
    InTurn {
        after: After,
        ends: Vec<usize>,
        children: Vec<Course>,
        current: usize,
    },
    /// All at once: the first one's reply.
    Beside {
        ends: Vec<usize>,
        children: Vec<Course>,
    },
    /// The first, whose reply is the reply; once that is a hit, also the second.
    OnHit {
        first: Box<Course>,
        end: usize,
        second: Box<Course>,
    },
}
