//! What happens, as it is counted and as an operator is told of it.

use crate::notice::{Notice, Notices};
use crate::shortages::Shortages;
use mcv_base::{Part, Request, ServerId};
use mcv_check::Accepted;
use mcv_session::DeskFault;
use mcv_spool::SpoolFault;
use mcv_tally::{ServerTally, Tally};
use mcv_watch::{Load, Shortage, Watch};
use std::sync::Arc;

/// Where what happens is counted.
#[derive(Drop)]
pub struct Counters {
    /// Requests for which there was no place.
    pub shortages: Shortages,
    /// What an operator may ask about; None where none may.
    pub tally: Option<Arc<Tally>>,
}

/// Counts what happens, and notes what an operator is to be told.
#[derive(Drop)]
pub struct SystemWatch<N: Notices> {
    notices: N,
    counters: Counters,
    /// Whose servers have the texts that an operator is told.
    accepted: Arc<Accepted>,
}

impl<N: Notices> SystemWatch<N> {
    pub fn new(notices: N, counters: Counters, accepted: Arc<Accepted>) -> SystemWatch<N> {
        SystemWatch {
            notices,
            counters,
            accepted,
        }
    }

    /// Where it is counted what a server does; None where nobody may ask.
    fn server(&self, server: ServerId) -> Option<&ServerTally> {
        match &self.counters.tally {
            Some(tally) => tally.server(server.0 as usize),
            None => None,
        }
    }
}

impl<N: Notices> Watch for SystemWatch<N> {
    ghost use Rattle.std.specs.Prelude.{is_some};

    ghost looks = { λ watch. is_some watch.counters.tally };

    fn note_asked(&mut self, request: &Request) {
        let Some(tally) = &self.counters.tally else {
            return;
        };
        if let Request::Ask(ask) = request {
            tally.note_asked(ask.op, ask.keys.len());
        }
    }

    fn note_answer(&mut self, request: &Request, answer: &Result<Vec<Part>, DeskFault>) {
        let Some(tally) = &self.counters.tally else {
            return;
        };
        if let Request::Ask(_) = request {
            tally.note_answer(answer);
        }
    }

    fn note_sent(&mut self, server: ServerId) {
        if let Some(tally) = self.server(server) {
            tally.sent.more();
        }
    }

    fn note_lost(&mut self, server: ServerId) {
        if let Some(tally) = self.server(server) {
            tally.lost.more();
        }
    }

    fn note_marked(&mut self, server: ServerId) {
        if let Some(tally) = self.server(server) {
            tally.marked.more();
        }
        if let Some(text) = self.accepted.routes().servers().text(server) {
            self.notices.note(Notice::Marked(text));
        }
    }

    fn note_unmarked(&mut self, server: ServerId) {
        if let Some(tally) = self.server(server) {
            tally.unmarked.more();
        }
        if let Some(text) = self.accepted.routes().servers().text(server) {
            self.notices.note(Notice::Unmarked(text));
        }
    }

    fn note_replayed(&mut self, server: ServerId) {
        if let Some(tally) = self.server(server) {
            tally.replayed.more();
        }
    }

    fn note_spooled(&mut self, slots: usize) {
        if let Some(tally) = &self.counters.tally {
            tally.spool.spooled.more();
            tally.spool.slots.raise(slots as u64);
        }
    }

    fn note_refusing(&mut self, fault: SpoolFault) {
        self.notices.note(Notice::Refusing(fault));
    }

    fn note_taking(&mut self) {
        self.notices.note(Notice::Taking);
    }

    fn note_full(&mut self, hub: usize, shortage: Shortage, refused: u64) {
        if let Some(refused) = self.counters.shortages.more(hub, shortage, refused) {
            self.notices.note(Notice::Full(shortage, refused));
        }
    }

    fn note_load(&mut self, hub: usize, load: Load) {
        if self.counters.shortages.enter(hub, load.chapter) {
            self.notices.note(Notice::Turned);
        }
        let Some(tally) = &self.counters.tally else {
            return;
        };
        if let Some(hub) = tally.hub(hub) {
            hub.entries.set(load.entries);
            hub.bytes.set(load.bytes);
            hub.turned.raise(load.chapter);
        }
    }

    fn note_waiting(&mut self, hub: usize, counts: &[usize]) {
        let Some(tally) = &self.counters.tally else {
            return;
        };
        if let Some(hub) = tally.hub(hub) {
            hub.note_waiting(counts);
        }
    }

    fn note_unserved(&mut self) {
        self.notices.note(Notice::Unserved);
    }

    fn looks_at_waiting(&self) -> bool {
        self.counters.tally.is_some()
    }

    fn catch_up(&mut self) {
        self.notices.catch_up();
    }
}
