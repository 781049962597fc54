//! For each server the legs of running calls, in the order of their numbers, and the servers' marks.
//!
//! `Queues` holds each leg under its number, with its server, its `State` and a content that is its caller's. It answers
//! which leg of a server is the next one to send (`next`) or to send again from the spool (`replay`), which leg the spool
//! is to take (`first_held`), and what is in flight (`in_flight`, `in_replay`). A server has as many legs in flight at most
//! as the caller of `next` and `replay` says; its legs are handed out in the order of their numbers. `Marks` counts each
//! server's failures in a row.
//!
//! All legs lie in one map (`rows`). The legs of one group, as those that wait for one server, form a heap by their links
//! (`heap`): the least number is its root. `roots` holds the root of each group, `groups` moves a leg from one group to
//! another, and `transitions` has the calls of `Queues`. Only `new` and `reserve` take memory.
#![tactic(auto)]

mod fault;
mod groups;
mod heap;
mod leg;
mod marks;
mod number_hasher;
mod queues;
mod roots;
mod rows;
mod transitions;

pub use fault::QueueFault;
pub use leg::{Leg, State};
pub use marks::{Marks, ServerFailures};
pub use number_hasher::NumberHasher;
pub use queues::Queues;
pub use roots::Group;
