//! The turns of a loop at its hubs.

use crate::main_loop::Loop;
use crate::sources::Sources;
use mcv_hub::Past;
use mcv_hubs::{HubNames, Names};
use mcv_spool::SpoolFault;
use mcv_turn::{Arrival, Gives, HeldLeg, Marked, Performed, Refused, StoredLeg};
use mcv_watch::{Shortage, Watch};
use std::sync::Wait;

/// So many bytes, asked for at once, have the allocator join the blocks that were freed before.
const JOINS: usize = 2_048;

/// Notes legs that have no reply.
fn note_lost<W: Watch>(watch: &mut W, arrivals: &[Arrival]) {
    for arrival in arrivals {
        if arrival.reply.is_err() {
            watch.note_lost(arrival.server);
        }
    }
}

/// Notes marks that were put and taken away.
fn note_marks<W: Watch>(watch: &mut W, marks: &[Marked]) {
    for mark in marks {
        if mark.is_marked {
            watch.note_marked(mark.server);
        } else {
            watch.note_unmarked(mark.server);
        }
    }
}

/// Notes calls that a hub refused.
fn note_refused<W: Watch>(watch: &mut W, hub: usize, refused: Refused) {
    if refused.legs > 0 {
        watch.note_full(hub, Shortage::Legs, refused.legs);
    }
    if refused.chapter > 0 {
        watch.note_full(hub, Shortage::Chapter, refused.chapter);
    }
}

impl<'a, F: HubNames, G: Names, S: Sources, W: Watch> Loop<'a, F, G, S, W> {
    /// Makes a turn where requests wait to begin, the spool, which refused a record, may be asked again, or legs are to be sent again
    /// or counted.
    pub(crate) fn want_turns(&mut self) {
        let replays = !self.ending.is_past(self.now) && !self.is_leaving;
        let counts = self.watch.looks_at_waiting();
        for hub in 0..self.posts.len() {
            let waits = self.clients.waits(hub);
            if let Some(post) = self.posts.get_mut(hub) {
                post.is_wanted = waits || counts || post.spool.refuses();
                post.replays = replays;
                post.counts = counts;
            }
        }
    }

    /// The spool answered to a record, and its file has so many slots then.
    pub(crate) fn take_stored(&mut self, hub: usize, stored: StoredLeg, slots: usize) {
        if stored.outcome.is_ok() {
            self.watch.note_spooled(slots);
        }
        self.note_stored(hub, stored);
    }

    /// The spool answered to a record, or there was no memory to ask it.
    fn note_stored(&mut self, hub: usize, stored: StoredLeg) {
        let Some(post) = self.posts.get_mut(hub) else {
            return;
        };
        match (&stored.outcome, post.spool.refuses()) {
            (Ok(_), true) => self.watch.note_taking(),
            (Err(fault), false) => self.watch.note_refusing(*fault),
            _ => {}
        }
        post.note_stored(stored, self.now);
    }

    /// Whether a hub has something to be told, and may be.
    pub(crate) fn is_due_at(&self, hub: usize) -> bool {
        match self.posts.get(hub) {
            Some(post) => post.unsent.is_empty() && (post.is_due() || self.clients.is_asked(hub)),
            None => false,
        }
    }

    /// Whether some hub has.
    pub(crate) fn is_turn_due(&self) -> bool {
        for hub in 0..self.posts.len() {
            if self.is_due_at(hub) {
                return true;
            }
        }
        false
    }

    /// Makes a turn at each hub that has something to be told. Whether one had.
    pub(crate) fn turn_all<R: Wait>(&mut self, rt: &R) -> bool {
        let mut was_due = false;
        for hub in 0..self.posts.len() {
            if self.is_due_at(hub) {
                self.turn(rt, hub);
                was_due = true;
            }
        }
        was_due
    }

    /// One turn at a hub. What it gives is done once its lock is free.
    fn turn<R: Wait>(&mut self, rt: &R, hub: usize) {
        let moment = self.sources.moment();
        let Some(post) = self.posts.get_mut(hub) else {
            return;
        };
        let came = post.take(self.alloc, moment, self.now);
        note_lost(&mut self.watch, came.arrivals.as_slice());
        let mut gives = Gives::new(self.alloc);
        self.clients
            .turn(rt, self.hubs, &mut self.pass, hub, came, &mut gives);
        self.note_turn(hub, &gives);
        self.dispatch(hub, gives);
    }

    /// Notes what there is to be noted of a hub after a turn.
    fn note_turn(&mut self, hub: usize, gives: &Gives) {
        note_marks(&mut self.watch, gives.marks.as_slice());
        note_refused(&mut self.watch, hub, gives.refused);
        self.watch.note_load(hub, gives.load);
        if let Some(waiting) = &gives.waiting {
            self.watch.note_waiting(hub, waiting.as_slice());
        }
        let waits = self.clients.waits(hub);
        if let Some(post) = self.posts.get_mut(hub) {
            post.note_waiting(waits, gives.load, self.now);
            post.queued = gives.queued;
        }
    }

    /// Puts legs into their connections, in their order, asks servers that were marked whether they answer, and hands out the record
    /// that is to be written and those that are done.
    fn dispatch(&mut self, hub: usize, gives: Gives) {
        let Gives {
            flights,
            held,
            performed,
            past,
            marks,
            ..
        } = gives;
        if let Some(post) = self.posts.get_mut(hub) {
            post.unsent = flights;
        }
        self.send_all(hub);
        self.probe_newly_marked(hub, marks.as_slice());
        self.finish_all(performed);
        self.leave_past(hub, past);
        if let Some(held) = held {
            self.store(hub, held);
        }
    }

    /// What is left of an old chapter is dropped piece by piece, one in each round.
    fn leave_past(&mut self, hub: usize, past: Option<Past>) {
        if let (Some(past), Some(post)) = (past, self.posts.get_mut(hub)) {
            post.leave(past);
        }
    }

    /// Drops a piece of what is left of the old chapter of each hub.
    pub(crate) fn drop_pieces(&mut self) {
        self.is_dropping = false;
        for post in self.posts.as_mut_slice() {
            let is_left = post.drop_piece();
            self.is_dropping = self.is_dropping || is_left;
        }
        if self.is_dropping {
            self.join_freed();
        }
    }

    /// Takes room and gives it back. The system's allocator leaves small blocks that were freed apart until more than a kilobyte is
    /// asked for, and joins all then: those of a chapter in 0.1 seconds.
    fn join_freed(&self) {
        drop(Vec::<u8>::with_capacity(self.alloc, JOINS));
    }

    /// Sends the legs that the last turn of a hub gave.
    fn send_all(&mut self, hub: usize) {
        let Some(post) = self.posts.get_mut(hub) else {
            return;
        };
        for flight in post.take_unsent(self.alloc) {
            self.send(hub, flight, false);
        }
    }

    /// Sends legs that there was no memory for.
    pub(crate) fn send_unsent(&mut self) {
        for hub in 0..self.posts.len() {
            self.send_all(hub);
        }
    }

    /// Records are done.
    fn finish_all(&mut self, performed: Vec<Performed>) {
        for one in performed {
            self.watch.note_replayed(one.server());
            self.sources.finish(&self.pass, one);
        }
    }

    /// A record is to be written. Without memory for that the spool refuses it.
    fn store(&mut self, hub: usize, held: HeldLeg) {
        let leg = held.leg;
        let is_writing = self.sources.store(&self.pass, hub, held);
        if let Some(post) = self.posts.get_mut(hub) {
            post.is_writing = is_writing;
        }
        if !is_writing {
            let outcome = Err(SpoolFault::Memory);
            self.note_stored(hub, StoredLeg { leg, outcome });
        }
    }
}
