//! A leg that has its reply.

use mcv_base::{LegId, Reply};

/// A leg that has its reply.
#[derive(Drop)]
pub struct Landed {
    pub leg: LegId,
    pub reply: Reply,
}
