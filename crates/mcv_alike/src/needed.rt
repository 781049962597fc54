//! Legs that deletes need beside their own.

use mcv_base::{Position, ServerId};

/// A leg that is needed: of which leaf it is, and what it sends to.
#[derive(Drop)]
pub struct NeededLeg {
    pub position: Position,
    /// The number of its symbol.
    pub symbol: usize,
    /// Its servers, one for each index of the symbol.
    pub servers: Vec<ServerId>,
}
