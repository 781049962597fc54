//! The legs that a route sends, and what came of them.

use mcv_base::{Mark, Op, Part, Position, ServerId};

/// A leg that a route sends.
#[derive(Drop)]
pub struct Launch {
    pub position: Position,
    pub server: ServerId,
    /// The operation: the call's own, or `Add` in a warm-up's add.
    pub op: Op,
    pub mark: Mark,
}

/// What the leg at a position was answered. A call keeps these in the order in which they came.
#[derive(Drop)]
pub struct Answered {
    pub position: Position,
    pub reply: Part,
}
