//! Sources over sockets of this machine, and what is at their other ends.

ghost use Rattle.std.specs.Prelude.{◌<◌, IfSome, length};

use crate::gate::Gate;
use mcv_base::ServerId;
use mcv_hub::Pass;
use mcv_loop::{Ready, Source, Sources};
use mcv_poll::{Mailbox, Names, PollSources, Sockets, Visitor};
use std::net::{Net, SocketAddr, TcpListener, TcpStream};
use std::process::Abort;
use std::rt::Clock;
use std::sync::atomic::AtomicBool;
use std::sync::{Arc, Wait};
use std::time::Duration;

/// What the sources say is ready, without what comes with it.
#[derive(Clone, Copy, Debug, PartialEq, Eq)]
pub(crate) enum Said {
    Client,
    Read(Source),
    Write(Source),
    End(Source),
    Stored,
    Closed,
    Drains,
}

/// What a test's clients leave ready.
pub(crate) type Gives = Ready<Visitor<u64>>;

/// A loop's sources, one server's listener, and what ends them.
#[derive(Drop)]
pub(crate) struct Office<R: Net + Clock + Wait + Copy + Drop> {
    pub(crate) rt: R,
    pub(crate) sources: PollSources<R, Gate>,
    pub(crate) mailbox: Arc<Mailbox>,
    pub(crate) drains: Arc<AtomicBool>,
    /// Where clients come.
    pub(crate) address: SocketAddr,
    /// Where the server is.
    pub(crate) server: TcpListener,
}

/// What this says.
fn summary_of(ready: &Gives) -> Said {
    match ready {
        Ready::Client(_) => Said::Client,
        Ready::Read(source) => Said::Read(*source),
        Ready::Write(source) => Said::Write(*source),
        Ready::End(source) => Said::End(*source),
        Ready::Stored { .. } => Said::Stored,
        Ready::Closed => Said::Closed,
        Ready::Drains { .. } => Said::Drains,
    }
}

/// Where this is said first.
fn place_of(ready: &[Gives], wanted: Said) -> Option<usize>
    ensures { IfSome result (λ place. place < length ready.now) }
{
    for place in 0..ready.len() {
        if summary_of(&ready[place]) == wanted {
            return Some(place);
        }
    }
    None
}

/// A listener of this machine.
fn listen<R: Net<Stream = TcpStream, Listener = TcpListener> + Abort>(rt: &R) -> TcpListener {
    TcpListener::bind(rt, "127.0.0.1:0").expect(rt, "a listener")
}

/// Sources for so many clients and two servers: one that listens, and one that doesn't.
pub(crate) fn open<R>(rt: R, clients: u64) -> Office<R>
where
    R: Net<Stream = TcpStream, Listener = TcpListener>
        + AllocGlobal
        + Clock
        + Wait
        + Abort
        + Copy
        + Drop,
{
    let alloc = rt.alloc();
    let (listener, server, closed) = (listen(&rt), listen(&rt), listen(&rt));
    let address = listener.local_addr().expect(&rt, "an address");
    let there = server.local_addr().expect(&rt, "an address");
    let away = closed.local_addr().expect(&rt, "an address");
    drop(closed);
    let mut texts = Vec::new(alloc);
    for server in [there, away] {
        let text = format!(in alloc; "{server}").expect(&rt, "memory");
        texts.push(text).ok().expect(&rt, "memory");
    }
    let names = Names::new(alloc, texts).expect(&rt, "memory");
    let (mailbox, poll) = Mailbox::open(&rt, alloc).expect(&rt, "a poll");
    let drains = Arc::new(alloc, AtomicBool::new(false))
        .ok()
        .expect(&rt, "memory");
    let sockets = Sockets {
        poll,
        mailbox: Arc::try_clone(&mailbox).expect(&rt, "memory"),
        listener,
        door: Gate {
            left: clients,
            drains: Arc::try_clone(&drains).expect(&rt, "memory"),
        },
        names: Arc::new(alloc, names).ok().expect(&rt, "memory"),
    };
    let sources = PollSources::new(rt, alloc, sockets, 1).expect(&rt, "sources");
    Office {
        rt,
        sources,
        mailbox,
        drains,
        address,
        server,
    }
}

impl<R> Office<R>
where
    R: Net<Stream = TcpStream, Listener = TcpListener>
        + AllocGlobal
        + Clock
        + Wait
        + Abort
        + Copy
        + Drop,
{
    /// Waits until the sources say this, for some ten seconds at most. What they said with it, from there on; nothing where they don't.
    pub(crate) fn wait_for(&mut self, pass: &Pass, wanted: Said) -> Vec<Gives> {
        let rt = self.rt;
        for _turn in 0..1_000 {
            let mut ready = Vec::new(rt.alloc());
            let most = Some(Duration::from_millis(10));
            self.sources
                .wait(pass, most, &mut ready)
                .ok()
                .expect(&rt, "a wait");
            if let Some(place) = place_of(ready.as_slice(), wanted) {
                return ready.split_off(place).expect(&rt, "memory");
            }
        }
        Vec::new(rt.alloc())
    }

    /// Whether the sources say this, within some ten seconds.
    pub(crate) fn says(&mut self, pass: &Pass, wanted: Said) -> bool {
        !self.wait_for(pass, wanted).is_empty()
    }

    /// The next client.
    pub(crate) fn client(&mut self, pass: &Pass) -> Option<Visitor<u64>> {
        for ready in self.wait_for(pass, Said::Client) {
            if let Ready::Client(client) = ready {
                return Some(client);
            }
        }
        None
    }

    /// A connection of a client's.
    pub(crate) fn connect(&self) -> Option<TcpStream> {
        TcpStream::connect(&self.rt, self.address).ok()
    }
}

/// The connection of the one hub to the server of this number.
pub(crate) fn server(number: u32) -> Source {
    Source::Server {
        hub: 0,
        server: ServerId(number),
    }
}
