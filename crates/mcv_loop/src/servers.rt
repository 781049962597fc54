//! What a loop does with its connections to servers.

ghost use Rattle.std.specs.Prelude.{◌≡◌, Err, true};
ghost use Rattle.mcv_schedule.specs.Ending.{is_past};

use crate::main_loop::{Loop, MOST_PIECES, PIECE, TURNS};
use crate::sources::Sources;
use mcv_hubs::{HubNames, Names};
use mcv_lines::{Heard, Loss, Wrote};
use mcv_schedule::{Way, earlier, has_come, late_at};
use mcv_turn::{Arrival, Flight, Marked};
use mcv_watch::Watch;

impl<'a, F: HubNames, G: Names, S: Sources, W: Watch> Loop<'a, F, G, S, W> {
    /// A server takes bytes again.
    pub(crate) fn note_writable(&mut self, way: Way) {
        if let Some(line) = self.lines.line(way) {
            line.note_writable();
            self.lines.note_due(way);
        }
    }

    /// A server sends no more. What it said is read to its end.
    pub(crate) fn hear_end(&mut self, way: Way) {
        if let Some(line) = self.lines.line(way) {
            line.note_end();
            self.hear(way);
        }
    }

    /// Reads those that had more to say than is read in a row.
    pub(crate) fn hear_more(&mut self) {
        for _line in 0..self.lines.unread() {
            if let Some(way) = self.lines.next_unread() {
                self.hear(way);
            }
        }
    }

    /// Reads what a server said, as far as it is there, up to a limit.
    pub(crate) fn hear(&mut self, way: Way) {
        for _piece in 0..MOST_PIECES {
            if !self.hear_piece(way) {
                return;
            }
        }
        self.lines.note_unread(way);
    }

    /// Reads one piece of what a server said. Whether more may be there.
    fn hear_piece(&mut self, way: Way) -> bool {
        let (Some(line), Some(post)) = (self.lines.line(way), self.posts.get_mut(way.hub)) else {
            return false;
        };
        match line.read(&self.pass, self.room.as_mut_slice(), &mut post.arrivals) {
            Heard::Bytes(count) => count >= PIECE || line.ends(),
            Heard::NotNow => false,
            Heard::Answers => {
                // Without memory for it the server stays marked, and is asked again.
                let _ = post.answering.push(way.server);
                true
            }
            Heard::Over => {
                self.lose(way, Loss::Idle);
                false
            }
            Heard::Faulty => {
                self.lose(way, Loss::Broken);
                false
            }
        }
    }

    /// A connection to a server is lost so, and the legs in flight with it. Those that may be are sent once more, before any new leg.
    /// Without memory to report the others it stays, and is looked at again.
    pub(crate) fn lose(&mut self, way: Way, loss: Loss) {
        let (Some(line), Some(post)) = (self.lines.line(way), self.posts.get_mut(way.hub)) else {
            return;
        };
        let mut again = Vec::new(self.alloc);
        let _ = line.lose(loss, &mut post.arrivals, &mut again);
        for flight in again {
            self.send(way.hub, flight, true);
        }
    }

    /// Whether some leg's time may have run out.
    pub(crate) fn may_be_late(&self) -> bool {
        has_come(self.late_at, self.now)
    }

    /// Closes connections on which a reply didn't come in its time, and notes when the next one may be late.
    pub(crate) fn expire_lines(&mut self) {
        for place in 0..self.lines.count() {
            self.expire(place);
        }
        let oldest = self.lines.oldest(self.now);
        self.late_at = late_at(oldest, self.limits.server);
    }

    fn expire(&mut self, place: usize) {
        let Some(way) = self.lines.way(place) else {
            return;
        };
        let Some(line) = self.lines.line(way) else {
            return;
        };
        if let Some(loss) = line.overdue(self.now, self.limits.server) {
            self.lose(way, loss);
        }
    }

    /// Closes all connections to servers: what they owe is late.
    pub(crate) fn close_lines(&mut self) {
        for place in 0..self.lines.count() {
            if let Some(way) = self.lines.way(place) {
                self.lose(way, Loss::Late);
            }
        }
    }

    /// Asks each marked server that has no connection whether it answers.
    pub(crate) fn probe_marked(&mut self) {
        for place in 0..self.lines.count() {
            if let Some(way) = self.lines.way(place) {
                if self.clients.is_marked(way.hub, way.server) {
                    self.probe(way);
                }
            }
        }
    }

    /// Asks each server that was just marked at a hub whether it answers, so that one that does is marked for a moment only.
    pub(crate) fn probe_newly_marked(&mut self, hub: usize, marks: &[Marked]) {
        let may_ask = !self.ending.is_past(self.now);
        for mark in marks {
            if may_ask && mark.is_marked && self.clients.is_marked(hub, mark.server) {
                self.probe(Way {
                    hub,
                    server: mark.server,
                });
            }
        }
    }

    /// Asks a marked server whether it answers, over a new connection. One over which no leg is in flight is closed for that.
    fn probe(&mut self, way: Way) {
        let Some(line) = self.lines.line(way) else {
            return;
        };
        if line.is_open() && line.in_flight() == 0 {
            self.lose(way, Loss::Broken);
        }
        self.begin_probe(way);
    }

    /// Asks a server that has no connection whether it answers.
    fn begin_probe(&mut self, way: Way) {
        let Some(line) = self.lines.line(way) else {
            return;
        };
        if !line.is_closed() {
            return;
        }
        let Some(connection) = self.sources.connect(&self.pass, way.hub, way.server) else {
            return;
        };
        if line.probe(connection, self.now).is_ok() {
            self.note_owing();
            self.lines.note_due(way);
        }
    }

    /// Sends a leg over its connection. Where it can't be it is lost. There is room to report it.
    pub(crate) fn send(&mut self, hub: usize, flight: Flight, is_again: bool) {
        let way = Way {
            hub,
            server: flight.server,
        };
        if !is_again {
            self.watch.note_sent(way.server);
        }
        match self.try_send(way, flight, is_again) {
            Ok(()) => self.note_sent(way),
            Err(flight) => {
                if let Some(post) = self.posts.get_mut(hub) {
                    let _ = post.arrivals.push(Arrival::lost(way.server, flight.leg));
                }
            }
        }
    }

    /// A leg was put into its connection, for the first time or again.
    fn note_sent(&mut self, way: Way) {
        self.note_owing();
        self.lines.note_due(way);
    }

    /// A server owes an answer from now on.
    fn note_owing(&mut self) {
        self.late_at = earlier(self.late_at, late_at(self.now, self.limits.server));
    }

    /// Sends a leg over its connection, which is begun where there is none, or gives it back. Behind the moment of a drain none is sent.
    fn try_send(&mut self, way: Way, flight: Flight, is_again: bool) -> Result<(), Flight>
        ensures past { is_past self.old.ending self.old.now ≡ true → result ≡ Err flight }
    {
        if self.ending.is_past(self.now) {
            return Err(flight);
        }
        let Some(line) = self.lines.line(way) else {
            return Err(flight);
        };
        if line.is_closed() {
            match self.sources.connect(&self.pass, way.hub, way.server) {
                Some(connection) => line.open(connection),
                None => return Err(flight),
            }
        }
        line.send(flight, self.now, is_again)
    }

    /// Writes what is to be written to servers, with one write for each connection.
    pub(crate) fn write_lines(&mut self) {
        for _line in 0..TURNS {
            let Some(way) = self.lines.next_due() else {
                return;
            };
            self.write_line(way);
        }
    }

    fn write_line(&mut self, way: Way) {
        let Some(line) = self.lines.line(way) else {
            return;
        };
        if line.write(&self.pass) == Wrote::Over {
            self.lose(way, Loss::Idle);
        }
    }
}
