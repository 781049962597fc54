//! Findings as they are kept.

use mcv_base::{Op, Outcome, Position, ServerId};
use mcv_cert::Place;
use mcv_pools::Choice;

/// What the leg at a position answered.
#[derive(Drop)]
pub struct LegOutcome {
    pub position: Position,
    pub outcome: Outcome,
}

/// A key, and a read and a delete of it, by which a server can keep what was deleted.
#[derive(Drop)]
pub struct Finding {
    /// Where the leaf is that is read.
    pub place: Place,
    /// The index of a server that the choice gives the leaf.
    pub at: usize,
    /// The leaf's server at this index: the one that is lost.
    pub server: ServerId,
    /// The key word, in the class and of the route.
    pub key: Vec<u8>,
    /// The index of each symbol.
    pub choice: Choice,
    /// How the key is read: `Get`, `Gets`, `Incr` or `Decr`.
    pub op: Op,
    /// What the legs of the read answered, rising by position.
    pub gets: Vec<LegOutcome>,
    /// What those of the delete answered, rising by position.
    pub deletes: Vec<LegOutcome>,
    /// The window, in seconds, at which the eras of both are near.
    pub window: u64,
}
