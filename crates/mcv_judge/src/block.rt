//! What a route has for one class, with a delete in one era and a get in another. What it means: `block_of` of specs/PairsInMemory.antt.

use mcv_base::{Position, ServerId};

/// A leg at its place.
#[derive(Clone, Copy)]
pub struct Leg<'a> {
    pub position: &'a Position,
    /// The number of its symbol.
    pub symbol: usize,
    /// Its servers, one for each index of the symbol.
    pub servers: &'a [ServerId],
}

/// What a block is of: the rests of a class of a route, with a delete in one era and a get in another.
#[derive(Clone, Copy)]
pub struct Spot<'a> {
    /// The number of the route, from 0.
    pub route: usize,
    /// The class word.
    pub class: &'a [u8],
    /// The number of the delete's era, from 0.
    pub era: usize,
    /// The number of the get's era, from 0.
    pub get_era: usize,
}

/// What a route has at a spot.
#[derive(Clone, Copy)]
pub struct Block<'a> {
    pub spot: Spot<'a>,
    /// The legs from which a get, gets, incr or decr can be answered, in the order of their positions.
    pub readable: &'a [Leg<'a>],
    /// The legs that every delete that has a reply has sent, in the order of their positions.
    pub acknowledged: &'a [Leg<'a>],
    pub can_be_acknowledged: bool,
}
