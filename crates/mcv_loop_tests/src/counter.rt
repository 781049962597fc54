//! A watch that counts.

use mcv_base::{Part, Request, ServerId};
use mcv_session::DeskFault;
use mcv_spool::SpoolFault;
use mcv_watch::{Load, Shortage, Watch};

/// How often each thing was noted.
#[derive(Clone, Copy, Debug, Default, PartialEq, Eq)]
pub(crate) struct Counter {
    pub(crate) asked: u64,
    pub(crate) answered: u64,
    pub(crate) sent: u64,
    pub(crate) lost: u64,
    pub(crate) marked: u64,
    pub(crate) unmarked: u64,
    pub(crate) replayed: u64,
    pub(crate) spooled: u64,
    /// The slots of the spool's file, as they were noted last.
    pub(crate) slots: usize,
    pub(crate) refusing: u64,
    pub(crate) taking: u64,
    pub(crate) full: u64,
    pub(crate) unserved: u64,
    /// The entries of the history, as they were noted last.
    pub(crate) entries: u64,
    /// The most legs that waited for one server.
    pub(crate) waiting: usize,
    /// For how many servers it was noted how many wait, the last time.
    pub(crate) servers: usize,
}

/// One more.
fn count(counter: &mut u64) {
    *counter = counter.saturating_add(1);
}

impl Watch for Counter {
    ghost use Rattle.std.specs.Prelude.{true};

    ghost looks = { λ counter. true };

    fn note_asked(&mut self, _request: &Request) {
        count(&mut self.asked);
    }

    fn note_answer(&mut self, _request: &Request, _answer: &Result<Vec<Part>, DeskFault>) {
        count(&mut self.answered);
    }

    fn note_sent(&mut self, _server: ServerId) {
        count(&mut self.sent);
    }

    fn note_lost(&mut self, _server: ServerId) {
        count(&mut self.lost);
    }

    fn note_marked(&mut self, _server: ServerId) {
        count(&mut self.marked);
    }

    fn note_unmarked(&mut self, _server: ServerId) {
        count(&mut self.unmarked);
    }

    fn note_replayed(&mut self, _server: ServerId) {
        count(&mut self.replayed);
    }

    fn note_spooled(&mut self, slots: usize) {
        count(&mut self.spooled);
        self.slots = slots;
    }

    fn note_refusing(&mut self, _fault: SpoolFault) {
        count(&mut self.refusing);
    }

    fn note_taking(&mut self) {
        count(&mut self.taking);
    }

    fn note_full(&mut self, _hub: usize, _shortage: Shortage, refused: u64) {
        self.full = self.full.saturating_add(refused);
    }

    fn note_load(&mut self, _hub: usize, load: Load) {
        self.entries = load.entries;
    }

    fn note_waiting(&mut self, _hub: usize, counts: &[usize]) {
        self.servers = counts.len();
        for count in counts {
            self.waiting = self.waiting.max(*count);
        }
    }

    fn note_unserved(&mut self) {
        count(&mut self.unserved);
    }

    fn looks_at_waiting(&self) -> bool {
        true
    }
}
