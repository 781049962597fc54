//! Clients and servers over `mio`.

use crate::door::{Door, Visitor};
use crate::due::shorter;
use crate::entrance::{Entrance, MOST_SAID};
use crate::mailbox::Mailbox;
use crate::names::Names;
use crate::server_stream::ServerStream;
use crate::servers::{Attempt, Servers};
use crate::tokens::{LISTENER, Tokens};
use mcv_base::{Moment, ServerId};
use mcv_hub::Pass;
use mcv_loop::{Ready, Source, SourceFault, Sources};
use mcv_turn::{HeldLeg, Performed};
use mio::event::Event;
use mio::net::TcpStream;
use mio::{Events, Interest, Poll, Token};
use std::alloc::{AllocError, Global};
use std::net::Net;
use std::rt::Clock;
use std::sync::{Arc, Wait};
use std::time::{Duration, Instant, SystemTime, UNIX_EPOCH};
use std::{io, net};

/// The most events of one wait.
const EVENTS: usize = 1_024;

/// The most that becomes ready in one wait, but for the spool's answers.
const MOST_READY: usize = 2 * EVENTS + MOST_SAID;

/// Where a loop's clients come and who lets them in, where its servers are, and by what it is woken.
#[derive(Drop)]
pub struct Sockets<D: Door> {
    /// The poll of the mailbox, as `Mailbox::open` gave it.
    pub poll: Poll,
    pub mailbox: Arc<Mailbox>,
    pub listener: net::TcpListener,
    pub door: D,
    /// The servers, by number.
    pub names: Arc<Names>,
}

/// Sockets that don't wait, the spool's mailbox, and the names of servers. The system has what is registered and what is ready, so that
/// no clause says what that is.
#[derive(Drop)]
pub struct PollSources<R: Net + Clock + Wait + Copy + Drop, D: Door> {
    rt: R,
    poll: Poll,
    events: Events,
    tokens: Tokens,
    entrance: Entrance<D>,
    servers: Servers,
    mailbox: Arc<Mailbox>,
}

/// Whether an event says that the other side sends no more.
fn has_ended(event: &Event) -> bool {
    event.is_error() || event.is_read_closed()
}

/// Puts what an event says of a connection behind `ready`.
fn note_event<C: Drop>(
    source: Source,
    event: &Event,
    ready: &mut Vec<Ready<C>>,
) -> Result<(), AllocError> {
    if has_ended(event) {
        ready.push(Ready::End(source))?;
    } else if event.is_readable() {
        ready.push(Ready::Read(source))?;
    }
    if event.is_writable() {
        ready.push(Ready::Write(source))?;
    }
    Ok(())
}

impl<R: Net + Clock + Wait + Copy + Drop, D: Door> PollSources<R, D> {
    /// A listener's clients, and a loop's servers for so many hubs. The names of servers are looked up first, which may take a while. An
    /// error is the system's, or that memory ran out.
    pub fn new(
        rt: R,
        alloc: Global,
        sockets: Sockets<D>,
        hubs: usize,
    ) -> io::Result<PollSources<R, D>> {
        let Sockets {
            poll,
            mailbox,
            listener,
            door,
            names,
        } = sockets;
        let Some(tokens) = Tokens::new(hubs, names.count()) else {
            return Err(io::Error::from(io::ErrorKind::InvalidInput));
        };
        Ok(PollSources {
            rt,
            entrance: Entrance::new(&poll, listener, door)?,
            poll,
            events: Events::with_capacity(alloc, EVENTS)?,
            tokens,
            servers: Servers::new(&rt, alloc, names, tokens.lines)?,
            mailbox,
        })
    }

    /// Keeps in mind what an event says of a connection to a server: that it was made, or has come to its end.
    fn note_server(&mut self, hub: usize, server: ServerId, event: &Event) {
        if has_ended(event) {
            self.servers.ask(&self.rt, server);
        } else if event.is_writable() {
            if let Some(line) = self.tokens.line_of(hub, server) {
                self.servers.note(line, Attempt::Made);
            }
        }
    }

    /// Puts what an event says behind `ready`.
    fn note(
        &mut self,
        event: &Event,
        ready: &mut Vec<Ready<Visitor<D::Seat>>>,
    ) -> Result<(), AllocError> {
        let token = event.token().0;
        if token == LISTENER {
            self.entrance.note_waiting();
        }
        let Some(source) = self.tokens.source_of(token) else {
            return Ok(());
        };
        if let Source::Server { hub, server } = source {
            self.note_server(hub, server, event);
        }
        note_event(source, event, ready)
    }

    /// Puts what the events say behind `ready`.
    fn note_events(&mut self, ready: &mut Vec<Ready<Visitor<D::Seat>>>) -> Result<(), AllocError> {
        for place in 0..EVENTS {
            let event = match self.events.iter().as_slice().get(place) {
                Some(event) => *event,
                None => return Ok(()),
            };
            self.note(&event, ready)?;
        }
        Ok(())
    }

    /// Puts what is ready behind `ready`.
    fn look(&mut self, ready: &mut Vec<Ready<Visitor<D::Seat>>>) -> Result<(), AllocError> {
        self.note_events(ready)?;
        self.entrance.look(&self.rt, ready)?;
        self.mailbox.take_answers(&self.rt, ready)
    }

    /// Has the poll report a connection both ways under a token. Whether it will.
    fn register(&self, stream: &mut TcpStream, token: usize) -> bool {
        let both = Interest::READABLE | Interest::WRITABLE;
        let registry = self.poll.registry();
        registry.register(stream, Token(token), both).is_ok()
    }

    /// Begins a connection to a server, whose place is this one among those to all servers.
    fn open(&mut self, line: usize, token: usize, server: ServerId) -> Option<ServerStream> {
        let (address, mut stream) = self.servers.begin(&self.rt, server)?;
        if !self.register(&mut stream, token) {
            return None;
        }
        self.servers.note(line, Attempt::Begun(address));
        Some(ServerStream::new(stream))
    }
}

impl<R: Net + Clock + Wait + Copy + Drop, D: Door> Sources for PollSources<R, D> {
    type Client = Visitor<D::Seat>;

    type Server = ServerStream;

    fn wait(
        &mut self,
        _pass: &Pass,
        most: Option<Duration>,
        ready: &mut Vec<Ready<Visitor<D::Seat>>>,
    ) -> Result<(), SourceFault> {
        if ready.reserve(MOST_READY).is_err() {
            return Err(SourceFault::Memory);
        }
        let most = shorter(most, self.entrance.most_wait());
        if self.poll.poll(&mut self.events, most).is_err() {
            return Err(SourceFault::Failed);
        }
        match self.look(ready) {
            Ok(()) => Ok(()),
            Err(_) => Err(SourceFault::Memory),
        }
    }

    fn attend(&mut self, _pass: &Pass, client: &mut Visitor<D::Seat>, number: usize) -> bool {
        match self.tokens.token_of(Source::Client(number)) {
            Some(token) => self.register(&mut client.stream, token),
            None => false,
        }
    }

    fn connect(&mut self, _pass: &Pass, hub: usize, server: ServerId) -> Option<ServerStream> {
        let line = self.tokens.line_of(hub, server)?;
        let token = self.tokens.token_of(Source::Server { hub, server })?;
        let last = self.servers.attempt(line);
        self.servers.renew(&self.rt, server, last);
        let opened = self.open(line, token, server);
        if last != Attempt::Untried || opened.is_none() {
            self.servers.ask(&self.rt, server);
        }
        opened
    }

    fn store(&mut self, _pass: &Pass, hub: usize, held: HeldLeg) -> bool {
        self.mailbox.send(&self.rt, hub, held)
    }

    fn finish(&mut self, _pass: &Pass, performed: Performed) {
        self.mailbox.finish(&self.rt, performed.number());
    }

    fn moment(&mut self) -> Moment {
        let Ok(now) = SystemTime::now(&self.rt) else {
            return Moment(0);
        };
        match now.duration_since(UNIX_EPOCH) {
            Ok(passed) => Moment(passed.as_secs()),
            Err(_) => Moment(0),
        }
    }

    fn instant(&mut self) -> Option<Instant> {
        Instant::now(&self.rt).ok()
    }
}
