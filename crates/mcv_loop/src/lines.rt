//! The connections of a loop to all servers, for each hub.

ghost use Rattle.std.specs.Prelude.{◌≡◌};
ghost use Rattle.mcv_loop.specs.Oldest.{oldest_since};

use mcv_base::ServerId;
use mcv_connection::Connection;
use mcv_lines::Line;
use mcv_schedule::{Way, earlier};
use std::alloc::{AllocError, Global};
use std::collections::VecDeque;
use std::time::Instant;

/// A connection, and what is noted of it.
#[derive(Drop)]
struct Entry<C: Connection> {
    way: Way,
    line: Line<C>,
    /// It is among those that are to be read.
    is_unread: bool,
}

/// The connections to all servers, hub after hub, and which of them are to be written to and read. There is room to note each.
#[derive(Drop)]
pub(crate) struct Lines<C: Connection> {
    servers: u32,
    all: Vec<Entry<C>>,
    due: VecDeque<Way>,
    unread: VecDeque<Way>,
}

/// The earliest moment since when one of the servers owes an answer; none that is later than this one.
fn oldest_since<C: Connection>(entries: &[Entry<C>], now: Option<Instant>) -> Option<Instant>
    ensures { result ≡ oldest_since now entries.now }
{
    let mut oldest = now;
    for entry in entries {
        oldest = earlier(oldest, entry.line.since());
    }
    oldest
}

impl<C: Connection> Lines<C> {
    /// None is there: of each hub one to each server.
    pub(crate) fn new(alloc: Global, hubs: usize, servers: u32) -> Result<Lines<C>, AllocError> {
        let mut all = Vec::new(alloc);
        for hub in 0..hubs {
            for number in 0..servers {
                let server = ServerId(number);
                all.push(Entry {
                    way: Way { hub, server },
                    line: Line::new(alloc, server),
                    is_unread: false,
                })?;
            }
        }
        let mut due = VecDeque::new(alloc);
        due.reserve(all.len())?;
        let mut unread = VecDeque::new(alloc);
        unread.reserve(all.len())?;
        Ok(Lines {
            servers,
            all,
            due,
            unread,
        })
    }

    /// How many there are.
    pub(crate) fn count(&self) -> usize {
        self.all.len()
    }

    /// Which one is at this place.
    pub(crate) fn way(&self, place: usize) -> Option<Way> {
        match self.all.get(place) {
            Some(entry) => Some(entry.way),
            None => None,
        }
    }

    /// A connection.
    pub(crate) fn line(&mut self, way: Way) -> Option<&mut Line<C>> {
        match self.all.get_mut(way.place(self.servers)?) {
            Some(entry) => Some(&mut entry.line),
            None => None,
        }
    }

    /// A connection is to be written to, once, however often this is noted before it is.
    pub(crate) fn note_due(&mut self, way: Way) {
        let Some(line) = self.line(way) else {
            return;
        };
        if line.note_due() {
            // There is room for each.
            let _ = self.due.push_back(way);
        }
    }

    /// The next one that is to be written to.
    pub(crate) fn next_due(&mut self) -> Option<Way> {
        self.due.pop_front()
    }

    /// A connection is to be read, though nothing more is said of it.
    pub(crate) fn note_unread(&mut self, way: Way) {
        let Some(place) = way.place(self.servers) else {
            return;
        };
        let Some(entry) = self.all.get_mut(place) else {
            return;
        };
        if !entry.is_unread {
            entry.is_unread = self.unread.push_back(way).is_ok();
        }
    }

    /// How many are to be read.
    pub(crate) fn unread(&self) -> usize {
        self.unread.len()
    }

    /// The next one that is to be read. It is no more then.
    pub(crate) fn next_unread(&mut self) -> Option<Way> {
        let way = self.unread.pop_front()?;
        if let Some(entry) = self.all.get_mut(way.place(self.servers)?) {
            entry.is_unread = false;
        }
        Some(way)
    }

    /// Whether legs are in flight for a hub.
    pub(crate) fn is_flying(&self, hub: usize) -> bool {
        for entry in self.all.iter() {
            if entry.way.hub == hub && entry.line.in_flight() > 0 {
                return true;
            }
        }
        false
    }

    /// The earliest moment since when a server owes an answer; none that is later than this one.
    pub(crate) fn oldest(&self, now: Option<Instant>) -> Option<Instant>
        ensures { result ≡ oldest_since now self.now.all.items }
    {
        oldest_since(self.all.as_slice(), now)
    }
}
