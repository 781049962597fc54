//! Sources in memory.

ghost use Rattle.std.specs.Prelude.{◌≤◌, IfOk, length};

use crate::disk::MemoryDisk;
use crate::server::Server;
use mcv_base::{Moment, ServerId};
use mcv_connection::Connection;
use mcv_hub::Pass;
use mcv_loop::{Ready, Source, SourceFault, Sources};
use mcv_spool::{Spool, SpoolFault};
use mcv_turn::{HeldLeg, Performed, StoredLeg};
use std::alloc::{AllocError, Global};
use std::cell::RefCell;
use std::io;
use std::io::ErrorKind;
use std::rc::Rc;
use std::time::{Duration, Instant};

/// What a client is yet to send and was told.
#[derive(Drop)]
pub(crate) struct Talk {
    pub(crate) sends: Vec<u8>,
    pub(crate) told: Vec<u8>,
    /// It goes once all is sent.
    pub(crate) goes: bool,
    /// It takes nothing.
    pub(crate) is_deaf: bool,
    /// How many bytes are read at most at a time.
    pub(crate) cut: usize,
    /// The number that it is attended under.
    number: Option<usize>,
    /// There is something to be read of which the loop wasn't told.
    has_news: bool,
}

/// A client in memory, and its connection as long as the loop doesn't have it.
#[derive(Drop)]
pub(crate) struct Client {
    pub(crate) talk: Rc<RefCell<Talk>>,
    connection: Option<Wire>,
}

/// A client's connection.
#[derive(Drop)]
pub(crate) struct Wire {
    talk: Rc<RefCell<Talk>>,
}

/// A server of one hub.
#[derive(Drop)]
pub(crate) struct Station {
    hub: usize,
    server: ServerId,
    pub(crate) memcached: Server,
    /// It accepts connections.
    pub(crate) is_up: bool,
    /// It closes its connection with the next bytes that come.
    pub(crate) closes: bool,
    /// It says nothing.
    pub(crate) hangs: bool,
    /// It has closed its connection.
    ends: bool,
    cut: usize,
}

/// A connection to a server.
#[derive(Drop)]
pub(crate) struct Cable {
    station: Rc<RefCell<Station>>,
}

/// An end that is asked for.
#[derive(Clone, Copy)]
pub(crate) enum Asked {
    /// No more clients come.
    Closed,
    /// A drain, up to this moment.
    Drains(Option<Instant>),
}

/// Clients, servers and a spool.
#[derive(Drop)]
pub(crate) struct Memory {
    alloc: Global,
    pub(crate) clients: Vec<Client>,
    pub(crate) stations: Vec<Rc<RefCell<Station>>>,
    spool: Spool<MemoryDisk>,
    /// The spool refuses records.
    pub(crate) refuses: bool,
    /// What the spool answered, each with its hub, and wasn't given yet.
    stored: Vec<(usize, StoredLeg)>,
    /// How often it was asked to take a record.
    pub(crate) stores: u64,
    /// How many records are done.
    pub(crate) finished: u64,
    /// The time; None where the clock can't be read.
    pub(crate) now: Option<Instant>,
    /// An end that is asked for, and of which the loop wasn't told.
    pub(crate) asked: Option<Asked>,
    /// Clients can't be attended.
    pub(crate) is_crowded: bool,
    /// For how long the loop was to wait at most in its last round.
    pub(crate) patience: Option<Duration>,
}

/// A connection that would have to wait.
fn would_block() -> io::Error {
    io::Error::from(ErrorKind::WouldBlock)
}

/// Takes the first bytes away, as many as there is room for, and no more than this.
fn take(from: &mut Vec<u8>, room: &mut [u8], most: usize) -> usize
    ensures { result ≤ length room.new }
{
    let count = from.len().min(room.len()).min(most);
    for (place, byte) in room.iter_mut().zip(from.iter()) {
        *place = *byte;
    }
    from.drain(..count);
    count
}

/// As `take`. Where there is nothing the read would have to wait.
fn taken(from: &mut Vec<u8>, room: &mut [u8], most: usize) -> io::Result<usize>
    ensures { IfOk result (λ count. count ≤ length room.new) }
{
    match take(from, room, most) {
        0 => Err(would_block()),
        count => Ok(count),
    }
}

impl Talk {
    fn new(alloc: Global) -> Talk {
        Talk {
            sends: Vec::new(alloc),
            told: Vec::new(alloc),
            goes: false,
            is_deaf: false,
            cut: usize::MAX,
            number: None,
            has_news: false,
        }
    }

    /// These bytes are to be read.
    pub(crate) fn send(&mut self, bytes: &[u8]) -> Result<(), AllocError> {
        self.has_news = true;
        self.sends.extend_from_slice(bytes)
    }

    /// It goes once all is read.
    pub(crate) fn go(&mut self) {
        self.has_news = true;
        self.goes = true;
    }

    fn read(&mut self, room: &mut [u8]) -> io::Result<usize>
        ensures { IfOk result (λ count. count ≤ length room.new) }
    {
        if self.sends.is_empty() && self.goes {
            return Ok(0);
        }
        let read = taken(&mut self.sends, room, self.cut);
        self.has_news = self.goes || !self.sends.is_empty();
        read
    }

    fn write(&mut self, bytes: &[u8]) -> io::Result<usize>
        ensures { IfOk result (λ count. count ≤ length bytes.now) }
    {
        if self.is_deaf {
            return Err(would_block());
        }
        self.told.extend_from_slice(bytes)?;
        Ok(bytes.len())
    }

    /// Whether there is something to be read, or that it goes, of which the loop is told now.
    fn news(&mut self) -> Option<Ready<Wire>> {
        let number = self.number?;
        if !self.has_news {
            return None;
        }
        self.has_news = false;
        let source = Source::Client(number);
        if self.goes {
            Some(Ready::End(source))
        } else {
            Some(Ready::Read(source))
        }
    }
}

impl Station {
    fn read(&mut self, room: &mut [u8]) -> io::Result<usize>
        ensures { IfOk result (λ count. count ≤ length room.new) }
    {
        if !self.is_up {
            return Err(io::Error::from(ErrorKind::ConnectionReset));
        }
        if self.ends {
            return Ok(0);
        }
        if self.hangs {
            return Err(would_block());
        }
        taken(&mut self.memcached.says, room, self.cut)
    }

    fn write(&mut self, bytes: &[u8]) -> io::Result<usize>
        ensures { IfOk result (λ count. count ≤ length bytes.now) }
    {
        if !self.is_up || self.ends {
            return Err(io::Error::from(ErrorKind::BrokenPipe));
        }
        if self.closes {
            self.closes = false;
            self.ends = true;
        } else if self.memcached.read(bytes).is_none() {
            return Err(io::Error::from(ErrorKind::InvalidData));
        }
        Ok(bytes.len())
    }

    /// What is ready of its connection.
    fn news(&self) -> Option<Ready<Wire>> {
        let (hub, server) = (self.hub, self.server);
        let source = Source::Server { hub, server };
        if self.ends || !self.is_up {
            Some(Ready::End(source))
        } else if !self.hangs && !self.memcached.says.is_empty() {
            Some(Ready::Read(source))
        } else {
            None
        }
    }

    /// A connection is begun. Whether it can be.
    fn begin(&mut self) -> bool {
        self.ends = false;
        self.memcached.hang_up();
        self.is_up
    }
}

impl Connection for Wire {
    fn read(&mut self, room: &mut [u8]) -> io::Result<usize> {
        match self.talk.try_borrow_mut() {
            Ok(mut talk) => talk.read(room),
            Err(_) => Err(would_block()),
        }
    }

    fn write(&mut self, bytes: &[u8]) -> io::Result<usize> {
        match self.talk.try_borrow_mut() {
            Ok(mut talk) => talk.write(bytes),
            Err(_) => Err(would_block()),
        }
    }
}

impl Connection for Cable {
    fn read(&mut self, room: &mut [u8]) -> io::Result<usize> {
        match self.station.try_borrow_mut() {
            Ok(mut station) => station.read(room),
            Err(_) => Err(would_block()),
        }
    }

    fn write(&mut self, bytes: &[u8]) -> io::Result<usize> {
        match self.station.try_borrow_mut() {
            Ok(mut station) => station.write(bytes),
            Err(_) => Err(would_block()),
        }
    }
}

impl Client {
    /// Whether the loop has closed its connection.
    pub(crate) fn is_closed(&self) -> bool {
        self.connection.is_none() && Rc::strong_count(&self.talk) == 1
    }
}

impl Memory {
    pub(crate) fn new(alloc: Global) -> Option<Memory> {
        Some(Memory {
            alloc,
            clients: Vec::new(alloc),
            stations: Vec::new(alloc),
            spool: Spool::open(alloc, MemoryDisk::new(alloc)).ok()?,
            refuses: false,
            stored: Vec::new(alloc),
            stores: 0,
            finished: 0,
            now: None,
            asked: None,
            is_crowded: false,
            patience: None,
        })
    }

    /// A client more. None where memory ran out.
    pub(crate) fn add_client(&mut self) -> Option<()> {
        let talk = Rc::new(self.alloc, RefCell::new(Talk::new(self.alloc))).ok()?;
        let wire = Wire {
            talk: talk.clone().ok()?,
        };
        self.clients
            .push(Client {
                talk,
                connection: Some(wire),
            })
            .ok()
    }

    /// A server more for one hub.
    pub(crate) fn add_station(&mut self, hub: usize, server: ServerId) -> Option<()> {
        let station = Station {
            hub,
            server,
            memcached: Server::new(self.alloc),
            is_up: true,
            closes: false,
            hangs: false,
            ends: false,
            cut: usize::MAX,
        };
        let station = Rc::new(self.alloc, RefCell::new(station)).ok()?;
        self.stations.push(station).ok()
    }

    /// So many milliseconds pass.
    pub(crate) fn pass(&mut self, millis: u64) {
        self.now = self.after(millis);
    }

    /// The moment in so many milliseconds.
    pub(crate) fn after(&self, millis: u64) -> Option<Instant> {
        self.now?.checked_add(Duration::from_millis(millis))
    }

    /// Each read takes so many bytes at most.
    pub(crate) fn cut_all(&mut self, cut: usize) {
        for client in self.clients.iter() {
            if let Ok(mut talk) = client.talk.try_borrow_mut() {
                talk.cut = cut;
            }
        }
        for station in self.stations.iter() {
            if let Ok(mut station) = station.try_borrow_mut() {
                station.cut = cut;
            }
        }
    }

    /// All servers accept connections from now on, or none does.
    pub(crate) fn set_up(&mut self, is_up: bool) {
        for station in self.stations.iter() {
            if let Ok(mut station) = station.try_borrow_mut() {
                station.is_up = is_up;
            }
        }
    }

    /// All servers say nothing from now on, or all speak.
    pub(crate) fn set_hangs(&mut self, hangs: bool) {
        for station in self.stations.iter() {
            if let Ok(mut station) = station.try_borrow_mut() {
                station.hangs = hangs;
            }
        }
    }

    /// Each server closes its connection with the next bytes that come.
    pub(crate) fn close_stations(&mut self) {
        for station in self.stations.iter() {
            if let Ok(mut station) = station.try_borrow_mut() {
                station.closes = true;
            }
        }
    }

    /// How many records are in the spool whose deletes weren't performed.
    pub(crate) fn pending(&self) -> usize {
        let slots = self.spool.pending().iter();
        slots.filter(|slot| slot.record().is_some()).count()
    }

    /// The connection to a server of a hub.
    fn cable(&self, hub: usize, server: ServerId) -> Option<Cable> {
        for station in self.stations.iter() {
            let is_it = match station.try_borrow() {
                Ok(station) => station.hub == hub && station.server == server,
                Err(_) => false,
            };
            if is_it {
                return Some(Cable {
                    station: station.clone().ok()?,
                });
            }
        }
        None
    }

    /// What the spool has answered.
    fn look_at_spool(&mut self, ready: &mut Vec<Ready<Wire>>) -> Result<(), AllocError> {
        for _answer in 0..self.stored.len() {
            let Some((hub, stored)) = self.stored.pop() else {
                break;
            };
            let slots = self.spool.pending().len();
            ready.push(Ready::Stored { hub, stored, slots })?;
        }
        Ok(())
    }

    /// What is ready of clients.
    fn look_at_clients(&mut self, ready: &mut Vec<Ready<Wire>>) -> Result<(), AllocError> {
        for client in self.clients.iter_mut() {
            if let Some(wire) = client.connection.take() {
                ready.push(Ready::Client(wire))?;
            }
            if let Ok(mut talk) = client.talk.try_borrow_mut() {
                if let Some(news) = talk.news() {
                    ready.push(news)?;
                }
            }
        }
        Ok(())
    }

    /// What is ready of servers.
    fn look_at_stations(&mut self, ready: &mut Vec<Ready<Wire>>) -> Result<(), AllocError> {
        for station in self.stations.iter() {
            if Rc::strong_count(station) == 1 {
                continue;
            }
            if let Ok(station) = station.try_borrow() {
                if let Some(news) = station.news() {
                    ready.push(news)?;
                }
            }
        }
        Ok(())
    }

    /// An end that is asked for.
    fn look_at_end(&mut self, ready: &mut Vec<Ready<Wire>>) -> Result<(), AllocError> {
        match self.asked.take() {
            Some(Asked::Closed) => ready.push(Ready::Closed)?,
            Some(Asked::Drains(until)) => ready.push(Ready::Drains { until })?,
            None => {}
        }
        Ok(())
    }

    /// All that is ready.
    fn look(&mut self, ready: &mut Vec<Ready<Wire>>) -> Result<(), AllocError> {
        self.look_at_spool(ready)?;
        self.look_at_clients(ready)?;
        self.look_at_stations(ready)?;
        self.look_at_end(ready)
    }
}

impl Sources for Memory {
    type Client = Wire;

    type Server = Cable;

    fn wait(
        &mut self,
        _pass: &Pass,
        most: Option<Duration>,
        ready: &mut Vec<Ready<Wire>>,
    ) -> Result<(), SourceFault> {
        self.patience = most;
        match self.look(ready) {
            Ok(()) => Ok(()),
            Err(_) => Err(SourceFault::Memory),
        }
    }

    fn attend(&mut self, _pass: &Pass, client: &mut Wire, number: usize) -> bool {
        if self.is_crowded {
            return false;
        }
        match client.talk.try_borrow_mut() {
            Ok(mut talk) => {
                talk.number = Some(number);
                true
            }
            Err(_) => false,
        }
    }

    fn connect(&mut self, _pass: &Pass, hub: usize, server: ServerId) -> Option<Cable> {
        let cable = self.cable(hub, server)?;
        let has_begun = match cable.station.try_borrow_mut() {
            Ok(mut station) => station.begin(),
            Err(_) => false,
        };
        if has_begun { Some(cable) } else { None }
    }

    fn store(&mut self, _pass: &Pass, hub: usize, held: HeldLeg) -> bool {
        let HeldLeg { leg, delete } = held;
        self.stores = self.stores.saturating_add(1);
        let outcome = if self.refuses {
            Err(SpoolFault::Full)
        } else {
            self.spool.append(delete)
        };
        self.stored.push((hub, StoredLeg { leg, outcome })).is_ok()
    }

    fn finish(&mut self, _pass: &Pass, performed: Performed) {
        if self.spool.done(performed.number()).is_ok() {
            self.finished = self.finished.saturating_add(1);
        }
    }

    fn moment(&mut self) -> Moment {
        Moment(0)
    }

    fn instant(&mut self) -> Option<Instant> {
        self.now
    }
}
