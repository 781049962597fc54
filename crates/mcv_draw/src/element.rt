//! An element of a picture.

use crate::marks::Marked;
use mcv_base::Position;

/// A box for the handle at a position, and the edge that leads to it.
#[derive(Drop)]
pub(crate) struct Element {
    /// The number of the route.
    pub(crate) route: usize,
    pub(crate) position: Position,
    /// Its row from the top; None where it is folded away.
    pub(crate) row: Option<usize>,
    /// The row of the handle above it; 0 at the top.
    pub(crate) above: usize,
    /// The word of the edge: a policy's name, a side, or a child's number; empty at the top.
    pub(crate) word: Vec<u8>,
    /// The handle's name, and what it has beside its children.
    pub(crate) label: Vec<u8>,
    pub(crate) marked: Marked,
}

impl Element {
    ghost use Rattle.std.specs.Prelude.{◌≡◌, length};

    /// How many handles are above it.
    pub(crate) fn depth(&self) -> usize
        ensures { result ≡ length self.now.position }
    {
        self.position.steps().len()
    }
}
