//! A proxy on sockets, from its first line to its last.

ghost use Rattle.std.specs.Prelude.{◌≡◌, IfErr};

use crate::admin::serve_operators;
use crate::fault::NetFault;
use crate::launch::{Entrance, NetLaunch, Order};
use crate::lines::{closed_line, print_line};
use crate::notice::{Notice, Notices, StandardError};
use crate::service::Service;
use mcv_check::Accepted;
use mcv_poll::Mailbox;
use mcv_spool::{Disk, FileDisk};
use mcv_tally::Tally;
use mcv_words::{RunOptions, Settings};
use std::alloc::Global;
use std::io;
use std::io::{Eprint, Write};
use std::net::{Net, SocketAddr, TcpListener, TcpStream, ToSocketAddrs};
use std::rt::Clock;
use std::sync::{Arc, Wait};
use std::thread::Threads;

/// Where clients come, and where an operator may ask, if one may.
#[derive(Drop)]
pub struct Listeners {
    pub clients: TcpListener,
    pub admin: Option<TcpListener>,
}

/// Where an operator may ask from now on, if one may at this listener.
fn service_of<R>(
    rt: R,
    alloc: Global,
    admin: Option<TcpListener>,
    order: (&Accepted, &Settings),
    mailbox: &Arc<Mailbox>,
    error: &StandardError<R>,
) -> Result<Service, NetFault>
where
    R: Threads + Wait + Clock + Eprint + Copy + Drop + Send + 'static,
{
    let Some(listener) = admin else {
        return Ok(Service::unasked());
    };
    let (accepted, settings) = order;
    let hubs = settings.hubs.count as usize;
    let tally = Tally::new(alloc, accepted.routes().servers(), hubs)?;
    let mailbox = Arc::try_clone(mailbox)?;
    serve_operators(rt, alloc, tally, listener, mailbox, error.another())
}

/// Serves clients of a listener as the settings say, by what the checker accepted and with the spool on a disk. Without a limit
/// for servers it says on standard error what that may lead to. Once the spool is open and all threads run it prints
/// `mcv listening <address> pending <n>`, where n is the number of records pending in the spool; once the last client has gone and
/// no leg is queued, `mcv closed calls <n>`, where n is the number of calls begun. An operator may ask for that end (`mcv_admin`):
/// then no more clients are accepted, those that are there are closed once they have the answers to what was read of them, and
/// behind the time that the operator gave nothing is sent to servers any more, so that deletes which wait for them go to the spool.
pub fn run_proxy<D, W, R>(
    rt: R,
    alloc: Global,
    accepted: Arc<Accepted>,
    listeners: Listeners,
    disk: D,
    settings: Settings,
    out: &mut W,
) -> Result<(), NetFault>
where
    D: Disk + Send + 'static,
    W: Write,
    R: Net<Stream = TcpStream, Listener = TcpListener>
        + Threads
        + Wait
        + Clock
        + Eprint
        + Copy
        + Drop
        + Send
        + 'static,
{
    let mut error = StandardError::new(rt, alloc)?;
    if settings.server_timeout.is_none() {
        error.note(Notice::Unlimited);
    }
    let Listeners { clients, admin } = listeners;
    let (mailbox, poll) = Mailbox::open(&rt, alloc)?;
    let service = service_of(rt, alloc, admin, (&accepted, &settings), &mailbox, &error)?;
    let entrance = Entrance {
        listener: clients,
        mailbox,
        poll,
    };
    let order = Order {
        accepted: Arc::try_clone(&accepted)?,
        settings,
        service,
    };
    let launch = NetLaunch::new(alloc, order, entrance, disk, error, &mut *out)?;
    let report = mcv_serve::serve(&rt, alloc, accepted, launch)?;
    let line = closed_line(alloc, report)?;
    print_line(out, line.as_slice())?;
    Ok(())
}

/// A listener at this address, whose `accept` waits. As many connections as the system allows may wait to be accepted, so that a crowd
/// that comes at once isn't kept out.
fn bind<R: Net>(rt: &R, address: SocketAddr) -> io::Result<TcpListener> {
    let listener = TcpListener::from(mio::net::TcpListener::bind(rt, address)?);
    listener.set_nonblocking(false)?;
    Ok(listener)
}

/// Listens at an address, `127.0.0.1:5000`, `[::1]:5000` or `localhost:5000`. An address that doesn't read, or that can't be
/// listened at, is `Device`.
pub fn listen<R: Net<Stream = TcpStream, Listener = TcpListener>>(
    rt: &R,
    address: &str,
) -> Result<TcpListener, NetFault>
    ensures { IfErr result (λ fault. fault ≡ NetFault.Device) }
{
    let Ok(addresses) = address.to_socket_addrs(rt) else {
        return Err(NetFault::Device);
    };
    for address in addresses {
        if let Ok(listener) = bind(rt, address) {
            return Ok(listener);
        }
    }
    Err(NetFault::Device)
}

/// Opens the disks of spools by the names of their files.
pub trait SpoolFiles {
    type Disk: Disk + Send + 'static;

    fn open_spool(&self, name: &str) -> io::Result<Self::Disk>;
}

impl SpoolFiles for HostRuntime {
    type Disk = FileDisk;

    fn open_spool(&self, name: &str) -> io::Result<FileDisk> {
        FileDisk::open(self, name)
    }
}

/// Listens at the addresses, opens the spool, and serves clients (`run_proxy`), all as the options say.
pub fn serve<W, R>(
    rt: R,
    alloc: Global,
    accepted: Arc<Accepted>,
    options: RunOptions<'_>,
    out: &mut W,
) -> Result<(), NetFault>
where
    W: Write,
    R: Net<Stream = TcpStream, Listener = TcpListener>
        + SpoolFiles
        + Threads
        + Wait
        + Clock
        + Eprint
        + Copy
        + Drop
        + Send
        + 'static,
{
    let clients = listen(&rt, options.listen)?;
    let admin = match options.admin {
        Some(address) => Some(listen(&rt, address)?),
        None => None,
    };
    let listeners = Listeners { clients, admin };
    let disk = rt.open_spool(options.spool)?;
    run_proxy(rt, alloc, accepted, listeners, disk, options.settings, out)
}
