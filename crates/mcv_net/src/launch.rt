//! What a proxy on sockets is started with.

ghost use Rattle.std.specs.Prelude.{◌≡◌, ◌<◌, ℕ, List, Some, IfOk, OnOk, length, map, slice_get, string_bytes};
ghost use Rattle.std.specs.Arc.{arc_value};
ghost use Rattle.std.specs.Io.KnownBytes.{Appends};
ghost use Rattle.mcv_net.specs.Fault.{net_fault};
ghost use Rattle.mcv_net.specs.Lines.{listening_line};

use crate::door::NetDoor;
use crate::fault::NetFault;
use crate::jobs::{MailKeeper, NameFinder};
use crate::limits::{client_limit, server_limit};
use crate::lines::{listening_line, print_line};
use crate::notice::{Notice, Notices, StandardError, Watched};
use crate::service::Service;
use crate::shortages::Shortages;
use crate::system_watch::{Counters, SystemWatch};
use mcv_base::ServerId;
use mcv_check::Accepted;
use mcv_loop::Limits;
use mcv_poll::{Mailbox, Names, Poll, PollSources, Sockets};
use mcv_pools::Servers;
use mcv_serve::{Found, Launch, ProxyFault, Tools};
use mcv_spool::Disk;
use mcv_words::Settings;
use std::alloc::{AllocError, Global};
use std::io::{Eprint, Write};
use std::net::{Net, SocketAddr, TcpListener, TcpStream};
use std::rt::Clock;
use std::sync::{Arc, Wait};

/// Where clients come, and how the loop that serves them is woken.
#[derive(Drop)]
pub(crate) struct Entrance {
    pub(crate) listener: TcpListener,
    pub(crate) mailbox: Arc<Mailbox>,
    pub(crate) poll: Poll,
}

/// By what clients are served.
#[derive(Drop)]
pub(crate) struct Order {
    pub(crate) accepted: Arc<Accepted>,
    pub(crate) settings: Settings,
    /// Where an operator may ask for an end.
    pub(crate) service: Service,
}

/// Clients that a listener accepts, servers over TCP, a disk, and the system's clock.
#[derive(Drop)]
pub(crate) struct NetLaunch<'a, D: Disk, W: Write, R: Drop> {
    alloc: Global,
    order: Order,
    /// Until the loop has it.
    entrance: Option<(TcpListener, Poll)>,
    /// Where clients come.
    address: SocketAddr,
    mailbox: Arc<Mailbox>,
    names: Arc<Names>,
    disk: Option<D>,
    error: StandardError<R>,
    out: &'a mut W,
}

/// What runs out where a proxy on sockets comes to such a fault.
fn proxy_fault(fault: NetFault) -> ProxyFault
    ensures { net_fault result ≡ fault }
{
    match fault {
        NetFault::Memory => ProxyFault::Memory,
        NetFault::Device => ProxyFault::Device,
    }
}

/// The text of the server of this number.
#[tactic(auto, using(crate::proofs::Texts::text_there))]
fn text_of(servers: &Servers, id: ServerId) -> &str
    requires { id.0 < length servers.now }
    ensures { slice_get servers.now id.0 ≡ Some result.now }
{
    match servers.text(id) {
        Some(text) => text,
        None => unreachable!(),
    }
}

/// The texts of all servers, in the order of their numbers.
#[tactic(auto, using(crate::proofs::Texts::texts_more))]
fn texts_of(alloc: Global, servers: &Servers) -> Result<Vec<String>, AllocError>
    ensures { IfOk result (λ texts. map string_bytes texts.items ≡ servers.now) }
{
    let mut texts = Vec::new(alloc);
    for number in 0..servers.len() {
        let text = text_of(servers, ServerId(number as u32));
        texts.push(String::from_str(alloc, text)?)?;
    }
    Ok(texts)
}

/// The names of all servers.
fn names_of(alloc: Global, accepted: &Accepted) -> Result<Names, AllocError>
    ensures { IfOk result (λ names. map string_bytes names.texts.items ≡ accepted.now.servers) }
{
    let texts = texts_of(alloc, accepted.routes().servers())?;
    Names::new(alloc, texts)
}

impl<'a, D: Disk, W: Write, R: Clock + Eprint + Wait + Copy + Drop> NetLaunch<'a, D, W, R> {
    /// Nothing has been begun.
    pub(crate) fn new(
        alloc: Global,
        order: Order,
        entrance: Entrance,
        disk: D,
        error: StandardError<R>,
        out: &'a mut W,
    ) -> Result<NetLaunch<'a, D, W, R>, NetFault>
        ensures names { IfOk result (λ launch. map string_bytes (arc_value launch.names).texts.items ≡ (arc_value order.accepted).servers) }
    {
        let Entrance {
            listener,
            mailbox,
            poll,
        } = entrance;
        let address = listener.local_addr()?;
        let names = names_of(alloc, &order.accepted)?;
        let Ok(names) = Arc::new(alloc, names) else {
            return Err(NetFault::Memory);
        };
        Ok(NetLaunch {
            alloc,
            order,
            entrance: Some((listener, poll)),
            address,
            mailbox,
            names,
            disk: Some(disk),
            error,
            out,
        })
    }

    /// Prints the line that says where clients may come, and how many records are pending.
    fn print_listening(&mut self, pending: usize) -> Result<(), NetFault>
        ensures { OnOk result ((address : List ℕ) × Appends (W.contents self.old.out.now) (W.contents self.new.out.now) (listening_line address pending)) }
    {
        let address = format!(in self.alloc; "{}", self.address)?;
        let line = listening_line(self.alloc, address.as_str(), pending)?;
        print_line(self.out, line.as_slice())?;
        Ok(())
    }

    /// Who counts what happens.
    fn watch(&self) -> Result<SystemWatch<Watched<R>>, AllocError> {
        let watched = Watched {
            error: self.error.another(),
            service: self.order.service.another(),
        };
        let hubs = self.order.settings.hubs.count as usize;
        let counters = Counters {
            shortages: Shortages::new(self.alloc, hubs)?,
            tally: self.order.service.tally(),
        };
        let accepted = Arc::try_clone(&self.order.accepted)?;
        Ok(SystemWatch::new(watched, counters, accepted))
    }

    /// Who decides who comes in.
    fn door(&self) -> Result<NetDoor<R>, AllocError> {
        let Order {
            settings,
            service,
            ..
        } = &self.order;
        NetDoor::new(
            self.alloc,
            settings,
            service.another(),
            self.error.another(),
        )
    }

    /// What the loop's sources begin with.
    fn sockets(&mut self) -> Result<Sockets<NetDoor<R>>, NetFault> {
        let door = self.door()?;
        let mailbox = Arc::try_clone(&self.mailbox)?;
        let names = Arc::try_clone(&self.names)?;
        let Some((listener, poll)) = self.entrance.take() else {
            return Err(NetFault::Device);
        };
        Ok(Sockets {
            poll,
            mailbox,
            listener,
            door,
            names,
        })
    }
}

impl<'a, D, W, R> NetLaunch<'a, D, W, R>
where
    D: Disk,
    W: Write,
    R: Net<Stream = TcpStream, Listener = TcpListener> + Clock + Eprint + Wait + Copy + Drop,
{
    /// Clients and servers.
    fn sources(&mut self) -> Result<PollSources<R, NetDoor<R>>, NetFault> {
        let sockets = self.sockets()?;
        let hubs = self.order.settings.hubs.count as usize;
        let sources = PollSources::new(self.error.rt, self.alloc, sockets, hubs)?;
        Ok(sources)
    }

    /// Who keeps the spool.
    fn make_keeper(&self) -> Result<MailKeeper<R>, AllocError> {
        let rt = self.error.rt;
        let mailbox = Arc::try_clone(&self.mailbox)?;
        Ok(MailKeeper { rt, mailbox })
    }

    /// What else is done beside the loop.
    fn make_jobs(&self) -> Result<Vec<NameFinder<R>>, AllocError> {
        let rt = self.error.rt;
        let names = Arc::try_clone(&self.names)?;
        let mut jobs = Vec::with_capacity(self.alloc, 1)?;
        jobs.push(NameFinder { rt, names })?;
        Ok(jobs)
    }
}

impl<'a, D, W, R> Launch for NetLaunch<'a, D, W, R>
where
    D: Disk + Send + 'static,
    W: Write,
    R: Net<Stream = TcpStream, Listener = TcpListener>
        + Wait
        + Clock
        + Eprint
        + Copy
        + Drop
        + Send
        + 'static,
{
    type Disk = D;

    type Sources = PollSources<R, NetDoor<R>>;

    type Watch = SystemWatch<Watched<R>>;

    type Keeper = MailKeeper<R>;

    type Job = NameFinder<R>;

    fn hubs(&self) -> usize
        ensures { result ≡ self.now.order.settings.hubs.count }
    {
        self.order.settings.hubs.count as usize
    }

    fn disk(&mut self) -> Option<D> {
        self.disk.take()
    }

    fn tools(&mut self) -> Result<Tools<Self::Sources, Self::Watch>, ProxyFault> {
        let watch = self.watch()?;
        let limits = Limits {
            server: server_limit(self.order.settings.server_timeout),
            client: client_limit(self.order.settings.client_timeout),
            answer: self.order.settings.answer_bytes.bytes as usize,
        };
        match self.sources() {
            Ok(sources) => Ok(Tools {
                sources,
                watch,
                limits,
            }),
            Err(fault) => Err(proxy_fault(fault)),
        }
    }

    fn keeper(&mut self) -> Result<MailKeeper<R>, AllocError> {
        self.make_keeper()
    }

    fn jobs(&mut self) -> Result<Vec<NameFinder<R>>, AllocError> {
        self.make_jobs()
    }

    fn opened(&mut self, found: Found) -> Result<(), ProxyFault>
        ensures { OnOk result ((address : List ℕ) × Appends (W.contents self.old.out.now) (W.contents self.new.out.now) (listening_line address found.pending)) }
    {
        self.order.service.note_found(found);
        match self.print_listening(found.pending) {
            Ok(()) => Ok(()),
            Err(fault) => Err(proxy_fault(fault)),
        }
    }

    fn end_jobs(&mut self) {
        self.mailbox.end(&self.error.rt);
        self.names.end(&self.error.rt);
    }

    fn ended(&mut self, left: usize) {
        if self.order.service.is_ending() {
            self.error.note(Notice::Drained(left as u64));
        }
    }
}
