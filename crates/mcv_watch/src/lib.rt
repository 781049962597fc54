//! What a proxy notes of what happens, for whoever looks at it.
#![tactic(auto)]

use mcv_base::{Part, Request, ServerId};
use mcv_session::DeskFault;
use mcv_spool::SpoolFault;

/// What has no place for the calls of a request.
#[derive(Clone, Copy, Debug, PartialEq, Eq)]
pub enum Shortage {
    /// The queues of legs.
    Legs,
    /// The history of the chapter.
    Chapter,
}

/// How full the chapter of a hub is.
#[derive(Clone, Copy, Debug, Default, PartialEq, Eq)]
pub struct Load {
    /// The chapter's number, from 0.
    pub chapter: u64,
    /// How many entries of its history its calls and spooled legs may write.
    pub entries: u64,
    /// The bytes that the entries hold.
    pub bytes: u64,
}

/// Who notes what happens. One that looks at nothing keeps what is written here, and says that it looks at no legs.
pub trait Watch: Drop {
    ghost use Rattle.std.specs.Prelude.{◌≡◌, Bool};

    /// Whether somebody looks at how many legs wait.
    ghost looks: { Self → Bool };

    /// A session asks a request.
    fn note_asked(&mut self, _request: &Request) {}

    /// A request of a session was answered so.
    fn note_answer(&mut self, _request: &Request, _answer: &Result<Vec<Part>, DeskFault>) {}

    /// A leg is sent to the server.
    fn note_sent(&mut self, _server: ServerId) {}

    /// A leg that was sent to the server has no reply.
    fn note_lost(&mut self, _server: ServerId) {}

    /// The server is marked from now on, at one hub more.
    fn note_marked(&mut self, _server: ServerId) {}

    /// The server isn't marked any more, at one hub.
    fn note_unmarked(&mut self, _server: ServerId) {}

    /// The server has performed a delete of the spool.
    fn note_replayed(&mut self, _server: ServerId) {}

    /// A delete was written into the spool, whose file has so many slots then, with those of records that are done.
    fn note_spooled(&mut self, _slots: usize) {}

    /// The spool refuses records from now on, at one hub more, and refused the first for this reason.
    fn note_refusing(&mut self, _fault: SpoolFault) {}

    /// It takes records again, at one hub.
    fn note_taking(&mut self) {}

    /// The hub of this number refused so many calls, since they had no place.
    fn note_full(&mut self, _hub: usize, _shortage: Shortage, _refused: u64) {}

    /// How full the chapter of the hub of this number is.
    fn note_load(&mut self, _hub: usize, _load: Load) {}

    /// How many legs wait for each server at the hub of this number, in the order of the servers' numbers.
    fn note_waiting(&mut self, _hub: usize, _counts: &[usize]) {}

    /// A client isn't served, since there was no memory for its session.
    fn note_unserved(&mut self) {}

    /// Whether somebody looks at how many legs wait. Where nobody does they aren't counted.
    fn looks_at_waiting(&self) -> bool
        ensures { result ≡ looks self.now };

    /// Says what is left to be said of an earlier time. It is called some times a second.
    fn catch_up(&mut self) {}
}

/// Who looks at nothing.
#[derive(Clone, Copy, Debug, Default)]
pub struct Unwatched;

impl Watch for Unwatched {
    ghost use Rattle.std.specs.Prelude.{false};

    ghost looks = { λ watch. false };

    fn looks_at_waiting(&self) -> bool {
        false
    }
}
