//! The program `mcv`: the words of the command line decide the work, standard input is read, and
//! standard output is written.
#![tactic(auto)]

use mcv_check::Accepted;
use mcv_command::{
    Ending, Proxy, Stop, SystemFiles, exit_status, given_words, run_words, says_more, second_line,
};
use mcv_input::{RunFault, read_at_most};
use mcv_net::{NetFault, SpoolFiles, serve};
use mcv_words::{RunOptions, Settings, read_words};
use std::alloc::{AllocError, Global};
use std::cell::Cell;
use std::fs::{File, Files};
use std::io;
use std::io::{Eprint, Write};
use std::net::{Net, TcpListener, TcpStream};
use std::process::ExitCode;
use std::rt::{Clock, Env};
use std::sync::{Arc, Wait};
use std::thread::Threads;

fn main(rt: HostRuntime) -> ExitCode {
    let end = match run(rt) {
        Ok(end) => end,
        Err(stop) => End {
            ended: Err(stop),
            more: None,
        },
    };
    if let Err(stop) = &end.ended {
        let _ = eprintln!(rt; "{stop}");
    }
    if let Some(more) = &end.more {
        let _ = eprintln!(rt; "{more}");
    }
    ExitCode::from(exit_status(&end.ended))
}

/// How the program ended, and what it says more of a fault.
#[derive(Drop)]
struct End {
    ended: Result<Ending, Stop>,
    more: Option<String>,
}

/// What is to be served: the routes, and the options with texts of its own.
#[derive(Drop)]
struct Order {
    accepted: Arc<Accepted>,
    listen: String,
    spool: String,
    admin: Option<String>,
    settings: Settings,
}

/// A text of one's own.
fn owned(alloc: Global, text: Option<&str>) -> Result<Option<String>, AllocError> {
    match text {
        Some(text) => Ok(Some(String::from_str(alloc, text)?)),
        None => Ok(None),
    }
}

impl Order {
    fn new(
        alloc: Global,
        accepted: Arc<Accepted>,
        options: RunOptions<'_>,
    ) -> Result<Order, AllocError> {
        let RunOptions {
            listen,
            spool,
            admin,
            settings,
        } = options;
        Ok(Order {
            accepted,
            listen: String::from_str(alloc, listen)?,
            spool: String::from_str(alloc, spool)?,
            admin: owned(alloc, admin)?,
            settings,
        })
    }
}

/// Keeps what is to be served until the words have been read; it is served behind that, since only a function with the
/// system's threads may start one. Nothing is known of what it serves.
#[derive(Drop)]
struct Orders {
    order: Cell<Option<Order>>,
}

impl Proxy for Orders {
    ghost use Rattle.std.specs.Prelude.{⊤};

    ghost serves = { λ _ _ _ _ _. ⊤ };

    fn serve<W: Write>(
        &self,
        alloc: Global,
        accepted: Arc<Accepted>,
        options: RunOptions<'_>,
        _out: &mut W,
    ) -> Result<(), RunFault> {
        match Order::new(alloc, accepted, options) {
            Ok(order) => {
                self.order.set(Some(order));
                Ok(())
            }
            Err(_) => Err(RunFault::Memory),
        }
    }
}

/// The most bytes that are read of a configuration: one more than it may have.
const READ_LIMIT: u64 = 16_777_217;

/// Does what the words ask for, and keeps what is to be served.
fn read<R: Env + AllocGlobal + Input + Print + Files<File = File>>(
    rt: &R,
    orders: &Orders,
) -> Result<End, Stop> {
    let alloc = rt.alloc();
    let words = given_words(rt)?;
    let texts: Vec<&str> = words.iter().map(|word| word.as_str()).collect(alloc)?;
    let texts = texts.as_slice();
    let is_detailed = match read_words(alloc, texts) {
        Ok(job) => says_more(&job),
        Err(_) => false,
    };
    if !is_detailed {
        let files = SystemFiles { system: rt };
        let ended = run_words(
            alloc,
            texts,
            &files,
            orders,
            &mut rt.reader(),
            &mut io::writer(rt),
        );
        return Ok(End { ended, more: None });
    }
    let input = read_at_most(alloc, &mut rt.reader(), READ_LIMIT)?;
    Ok(judge(rt, texts, orders, input.as_slice()))
}

/// Does what the words ask for of a configuration, and says more of a fault in it.
fn judge<R: AllocGlobal + Print + Files<File = File>>(
    rt: &R,
    words: &[&str],
    orders: &Orders,
    input: &[u8],
) -> End {
    let alloc = rt.alloc();
    let mut rest = input;
    let files = SystemFiles { system: rt };
    let ended = run_words(alloc, words, &files, orders, &mut rest, &mut io::writer(rt));
    let more = second_line(alloc, input, &ended).unwrap_or(None);
    End { ended, more }
}

/// Serves clients on the system's sockets.
fn serve_order<W, R>(rt: R, alloc: Global, order: Order, out: &mut W) -> Result<Ending, Stop>
where
    W: Write,
    R: Net<Stream = TcpStream, Listener = TcpListener>
        + SpoolFiles
        + Threads
        + Wait
        + Clock
        + Eprint
        + Copy
        + Drop
        + Send
        + 'static,
{
    let Order {
        accepted,
        listen,
        spool,
        admin,
        settings,
    } = order;
    let options = RunOptions {
        listen: listen.as_str(),
        spool: spool.as_str(),
        admin: admin.as_ref().map(|address| address.as_str()),
        settings,
    };
    match serve(rt, alloc, accepted, options, out) {
        Ok(()) => Ok(Ending::Done),
        Err(NetFault::Memory) => Err(Stop::Run(RunFault::Memory)),
        Err(NetFault::Device) => Err(Stop::Run(RunFault::Device)),
    }
}

fn run<R>(rt: R) -> Result<End, Stop>
where
    R: Env
        + AllocGlobal
        + Input
        + Print
        + Files<File = File>
        + Net<Stream = TcpStream, Listener = TcpListener>
        + SpoolFiles
        + Threads
        + Wait
        + Clock
        + Eprint
        + Copy
        + Drop
        + Send
        + 'static,
{
    let orders = Orders {
        order: Cell::new(None),
    };
    let end = read(&rt, &orders)?;
    match orders.order.replace(None) {
        Some(order) => Ok(End {
            ended: serve_order(rt, rt.alloc(), order, &mut io::writer(&rt)),
            more: None,
        }),
        None => Ok(end),
    }
}
