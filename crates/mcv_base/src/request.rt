//! Requests of clients and of legs, and the numbers that name what they touch.

ghost use Rattle.std.specs.Prelude.{◌≡◌, ◌==◌};

use crate::key::Rest;
use crate::operation::Op;
use std::sync::Arc;

/// The number of a call, rising from 0.
#[derive(Clone, Copy, Debug, PartialEq, Eq, PartialOrd, Ord)]
pub struct CallId(pub u64);

impl CallId {
    /// Whether the two are one call's.
    pub fn is(self, other: CallId) -> bool
        ensures { result ≡ (self.0 == other.0) }
    {
        self == other
    }
}

/// The number of a leg, rising from 0.
#[derive(Clone, Copy, Debug, PartialEq, Eq, PartialOrd, Ord)]
pub struct LegId(pub u64);

impl LegId {
    /// Whether the two are one leg's.
    pub fn is(self, other: LegId) -> bool
        ensures { result ≡ (self.0 == other.0) }
    {
        self == other
    }
}

/// The number of a server in the table of servers.
#[derive(Clone, Copy, Debug, PartialEq, Eq, PartialOrd, Ord)]
pub struct ServerId(pub u32);

impl ServerId {
    /// Whether the two are one server's.
    pub fn is(self, other: ServerId) -> bool
        ensures { result ≡ (self.0 == other.0) }
    {
        self == other
    }
}

/// A moment, in seconds.
#[derive(Clone, Copy, Debug, PartialEq, Eq, PartialOrd, Ord)]
pub struct Moment(pub u64);

/// What a client asks servers. Fields that the operation hasn't are 0, empty or None.
#[derive(Drop)]
pub struct Ask {
    pub op: Op,
    /// The key words, as the client wrote them: one, or for get and gets one or more.
    pub keys: Vec<Vec<u8>>,
    pub flags: u32,
    /// Seconds, or a moment, as memcached takes it; negative is at once.
    pub exptime: i64,
    pub body: Arc<Vec<u8>>,
    pub cas: Option<u64>,
    /// By how much incr and decr change the number.
    pub delta: u64,
    pub noreply: bool,
}

/// A request of a client.
#[derive(Drop)]
pub enum Request {
    Ask(Ask),
    Version,
    Quit,
}

/// What one leg asks its server. Fields that the operation hasn't are 0, empty or None.
#[derive(Drop)]
pub struct LegRequest {
    pub op: Op,
    pub rest: Arc<Rest>,
    pub flags: u32,
    pub exptime: i64,
    pub body: Arc<Vec<u8>>,
    pub cas: Option<u64>,
    /// By how much incr and decr change the number.
    pub delta: u64,
}
