//! The listener of an operator, in a thread of its own.

use crate::connection::TcpConnection;
use crate::fault::NetFault;
use crate::notice::{Notice, Notices, StandardError};
use crate::service::Service;
use mcv_admin::{Health, Panel, serve_request};
use mcv_metrics::Snapshot;
use mcv_poll::Mailbox;
use mcv_tally::Tally;
use std::alloc::{AllocError, Global};
use std::io::{Eprint, ErrorKind};
use std::net::{TcpListener, TcpStream};
use std::rt::Clock;
use std::sync::{Arc, Wait};
use std::thread;
use std::thread::Threads;
use std::time::{Duration, Instant};

/// How many seconds a request and its response may take.
const SECONDS: u64 = 5;

/// What an operator may ask and change.
#[derive(Drop)]
struct NetPanel<R: Drop> {
    rt: R,
    service: Service,
    error: StandardError<R>,
    /// The start, which the end is counted from where the clock can't be read.
    since: Instant,
    /// Where the loop is woken.
    mailbox: Arc<Mailbox>,
}

impl<R: Clock + Eprint + Wait + Copy + Drop> Panel for NetPanel<R> {
    ghost use Rattle.std.specs.Prelude.{⊤};

    // Other threads change what is said.
    ghost has_counted = { λ _ _. ⊤ };

    ghost is_in = { λ _ _. ⊤ };

    ghost drains = { λ _ _ _. ⊤ };

    fn snapshot(&self, alloc: Global) -> Result<Snapshot, AllocError> {
        let now = Instant::now(&self.rt).unwrap_or(self.since);
        self.service.snapshot(alloc, now)
    }

    fn health(&self) -> Health {
        self.service.health()
    }

    fn drain(&mut self, seconds: u64) {
        let now = Instant::now(&self.rt).unwrap_or(self.since);
        if self.service.end_within(now, seconds) {
            self.error.note(Notice::Draining(seconds));
        }
    }
}

impl<R: Drop> NetPanel<R> {
    /// Has the loop see that an end was asked for. Whoever asked for it has the response by then, since the program may end at
    /// once.
    fn wake(&self) {
        if self.service.is_ending() {
            self.mailbox.wake();
        }
    }
}

/// Answers one request. What fails is the operator's.
fn answer<R: Clock + Eprint + Wait + Copy + Drop>(
    rt: R,
    alloc: Global,
    stream: TcpStream,
    panel: &mut NetPanel<R>,
) {
    let Ok(now) = Instant::now(&rt) else {
        return;
    };
    let Ok(other) = stream.try_clone() else {
        return;
    };
    let until = now.checked_add(Duration::from_secs(SECONDS));
    let mut reader = TcpConnection::new(rt, stream, until);
    let mut writer = TcpConnection::new(rt, other, until);
    let _ = serve_request(alloc, &mut reader, &mut writer, panel);
}

/// Whether a listener that failed so accepts connections later. One that isn't a listener never does.
fn passes(kind: ErrorKind) -> bool {
    kind != ErrorKind::InvalidInput && kind != ErrorKind::Unsupported
}

/// Answers requests, one connection after another.
fn attend<R: Clock + Eprint + Wait + Copy + Drop>(
    rt: R,
    alloc: Global,
    listener: TcpListener,
    mut panel: NetPanel<R>,
) {
    for _connection in 0..u64::MAX {
        match listener.accept() {
            Ok((stream, _address)) => {
                answer(rt, alloc, stream, &mut panel);
                panel.wake();
            }
            Err(error) if passes(error.kind()) => thread::sleep(&rt, Duration::from_millis(10)),
            Err(_) => return,
        }
    }
}

/// Answers an operator at this listener from now on, of what is counted in the tally. Who asks for an end wakes the loop by its
/// mailbox.
pub(crate) fn serve_operators<R>(
    rt: R,
    alloc: Global,
    tally: Tally,
    listener: TcpListener,
    mailbox: Arc<Mailbox>,
    error: StandardError<R>,
) -> Result<Service, NetFault>
where
    R: Threads + Wait + Clock + Eprint + Copy + Drop + Send + 'static,
{
    let since = Instant::now(&rt)?;
    let service = Service::new(alloc, since, tally)?;
    let panel = NetPanel {
        rt,
        service: service.another(),
        error,
        since,
        mailbox,
    };
    let job = move || attend(rt, alloc, listener, panel);
    let Ok(_thread) = thread::spawn(&rt, job) else {
        return Err(NetFault::Memory);
    };
    Ok(service)
}
