//! A proxy between sockets of this machine.

use crate::routes::accepted_of;
use mcv_check::Accepted;
use mcv_net::{Listeners, SpoolFiles, listen, run_proxy};
use mcv_words::{AnswerBytes, Hubs, InRange, ServerTimeout, Sessions, Settings, Window};
use std::alloc::Global;
use std::io::{Eprint, Read, Write};
use std::net::{Net, TcpListener, TcpStream};
use std::process::Abort;
use std::rt::Clock;
use std::sync::{Arc, Wait};
use std::thread::Threads;
use std::{env, fs, process, thread};

/// The next so many bytes; None where they don't come.
fn read_bytes(alloc: Global, mut stream: &TcpStream, count: usize) -> Option<Vec<u8>> {
    let mut bytes = Vec::new(alloc);
    bytes.resize(count, 0).ok()?;
    stream.read_exact(bytes.as_mut_slice()).ok()?;
    Some(bytes)
}

/// Sends a request to an address, and whether it is answered so.
fn is_answered(alloc: Global, stream: &TcpStream, request: &str, reply: &str) -> bool {
    let mut writer = stream;
    if writer.write_all(request.as_bytes()).is_err() {
        return false;
    }
    match read_bytes(alloc, stream, reply.len()) {
        Some(bytes) => bytes.as_slice() == reply.as_bytes(),
        None => false,
    }
}

/// Answers one request of one client with a hit of `a`.
fn serve_a_hit(alloc: Global, listener: &TcpListener) -> bool {
    let Ok((stream, _address)) = listener.accept() else {
        return false;
    };
    match read_bytes(alloc, &stream, 7) {
        Some(bytes) if bytes.as_slice() == b"get a\r\n".as_slice() => {
            (&stream).write_all(b"VALUE a 0 1\r\nx\r\nEND\r\n").is_ok()
        }
        _ => false,
    }
}

/// Connects to an address, sends a request, and whether it is answered so; so many times, one after another.
fn is_answered_at<R: Net<Stream = TcpStream>>(
    rt: &R,
    alloc: Global,
    address: &str,
    clients: u64,
    request: &str,
    reply: &str,
) -> bool {
    for _client in 0..clients {
        let is_right = match TcpStream::connect(rt, address) {
            Ok(stream) => is_answered(alloc, &stream, request, reply),
            Err(_) => false,
        };
        if !is_right {
            return false;
        }
    }
    true
}

/// What each client asks, and what it and the proxy's lines say.
#[derive(Clone, Copy)]
struct Visit {
    clients: u64,
    hubs: u64,
    request: &'static str,
    reply: &'static str,
    pending: usize,
    calls: usize,
}

/// The routes of a proxy to one server.
fn routes_to(rt: &impl Abort, alloc: Global, server: &str) -> Arc<Accepted> {
    let config = format!(in alloc;
        "{{\"pools\":{{\"A\":{{\"servers\":[\"{server}\"]}}}},\"route\":\"PoolRoute|A\"}}"
    );
    accepted_of(rt, alloc, config.expect(rt, "memory").as_str())
}

/// The address that a listener has.
fn address_of(rt: &impl Abort, alloc: Global, listener: &TcpListener) -> String {
    let address = listener.local_addr().expect(rt, "an address");
    format!(in alloc; "{address}").expect(rt, "memory")
}

/// The lines of a proxy that serves such clients.
fn lines_of(rt: &impl Abort, alloc: Global, address: &str, visit: &Visit) -> String {
    let lines = format!(in alloc;
        "mcv listening {address} pending {}\nmcv closed calls {}\n",
        visit.pending, visit.calls
    );
    lines.expect(rt, "memory")
}

/// So many clients, served by so many hubs, with half a minute for each reply.
fn settings_of(rt: &impl Abort, visit: &Visit) -> Settings {
    Settings {
        sessions: Some(Sessions::new(visit.clients).expect(rt, "some clients")),
        hubs: Hubs::new(visit.hubs).expect(rt, "some hubs"),
        window: Window::new(0).expect(rt, "a window"),
        server_timeout: ServerTimeout::new(30_000),
        client_timeout: None,
        max_clients: None,
        answer_bytes: AnswerBytes::new(67_108_864).expect(rt, "some bytes"),
    }
}

/// Whether a proxy to one server, with the spool in this file, serves clients so.
fn is_served<R>(rt: R, alloc: Global, server: &str, spool: &str, visit: Visit) -> bool
where
    R: Net<Stream = TcpStream, Listener = TcpListener>
        + SpoolFiles
        + Threads
        + Wait
        + Clock
        + Eprint
        + Abort
        + Copy
        + Drop
        + Send
        + 'static,
{
    let accepted = routes_to(&rt, alloc, server);
    let listener = listen(&rt, "127.0.0.1:0").expect(&rt, "a listener");
    let address = address_of(&rt, alloc, &listener);
    let lines = lines_of(&rt, alloc, address.as_str(), &visit);
    let settings = settings_of(&rt, &visit);
    let Visit {
        clients,
        request,
        reply,
        ..
    } = visit;
    let client = thread::spawn(
        &rt,
        move || is_answered_at(&rt, alloc, address.as_str(), clients, request, reply),
    );
    let client = client.expect(&rt, "a thread");
    let mut out = Vec::new(alloc);
    let disk = rt.open_spool(spool).expect(&rt, "a spool");
    let listeners = Listeners {
        clients: listener,
        admin: None,
    };
    let ran = run_proxy(rt, alloc, accepted, listeners, disk, settings, &mut out);
    let is_answered = client.join(&rt);
    ran.is_ok() && is_answered && out.as_slice() == lines.as_bytes()
}

const GET: Visit = Visit {
    clients: 1,
    hubs: 1,
    request: "get a\r\n",
    reply: "VALUE a 0 1\r\nx\r\nEND\r\n",
    pending: 0,
    calls: 1,
};

/// Whether a get is answered by a server's hit.
fn hits<R>(rt: R, alloc: Global, spool: &str) -> bool
where
    R: Net<Stream = TcpStream, Listener = TcpListener>
        + SpoolFiles
        + Threads
        + Wait
        + Clock
        + Eprint
        + Abort
        + Copy
        + Drop
        + Send
        + 'static,
{
    let listener = listen(&rt, "127.0.0.1:0").expect(&rt, "a listener");
    let server = address_of(&rt, alloc, &listener);
    let worker = thread::spawn(&rt, move || serve_a_hit(alloc, &listener));
    let worker = worker.expect(&rt, "a thread");
    let is_served = is_served(rt, alloc, server.as_str(), spool, GET);
    worker.join(&rt) && is_served
}

const DELETE: Visit = Visit {
    clients: 1,
    hubs: 1,
    request: "delete a\r\n",
    reply: "NOT_FOUND\r\n",
    pending: 0,
    calls: 1,
};

const DELETES: Visit = Visit {
    clients: 4,
    hubs: 2,
    request: "delete a\r\n",
    reply: "NOT_FOUND\r\n",
    pending: 1,
    calls: 4,
};

const VERSION: Visit = Visit {
    clients: 1,
    hubs: 1,
    request: "version\r\n",
    reply: "VERSION mcv 1\r\n",
    pending: 5,
    calls: 0,
};

/// Whether deletes to a server that isn't there are in the spool, also for the next proxy.
fn spools<R>(rt: R, alloc: Global, spool: &str) -> bool
where
    R: Net<Stream = TcpStream, Listener = TcpListener>
        + SpoolFiles
        + Threads
        + Wait
        + Clock
        + Eprint
        + Abort
        + Copy
        + Drop
        + Send
        + 'static,
{
    let listener = listen(&rt, "127.0.0.1:0").expect(&rt, "a listener");
    let server = address_of(&rt, alloc, &listener);
    drop(listener);
    is_served(rt, alloc, server.as_str(), spool, DELETE)
        && is_served(rt, alloc, server.as_str(), spool, DELETES)
        && is_served(rt, alloc, server.as_str(), spool, VERSION)
}

/// Two clients, of whom one never comes.
const DRAINED: Visit = Visit {
    clients: 2,
    hubs: 1,
    request: "version\r\n",
    reply: "VERSION mcv 1\r\n",
    pending: 5,
    calls: 0,
};

const DRAINING: &str =
    "HTTP/1.1 200 OK\r\nContent-Type: text/plain; charset=utf-8\r\nContent-Length: 9\r\nConnection: close\r\n\r\ndraining\n";

/// Whether a connection ends with no further byte.
fn is_closed(mut stream: &TcpStream) -> bool {
    let mut room = [0; 1];
    matches!(stream.read(&mut room), Ok(0))
}

/// Whether a client that has asked once is closed when an operator asks for the end.
fn is_closed_by_a_drain<R: Net<Stream = TcpStream>>(
    rt: &R,
    alloc: Global,
    address: &str,
    admin: &str,
) -> bool {
    let Ok(client) = TcpStream::connect(rt, address) else {
        return false;
    };
    let Ok(operator) = TcpStream::connect(rt, admin) else {
        return false;
    };
    let drain = "POST /drain?seconds=9 HTTP/1.1\r\n\r\n";
    is_answered(alloc, &client, DRAINED.request, DRAINED.reply)
        && is_answered(alloc, &operator, drain, DRAINING)
        && is_closed(&client)
}

/// Whether a proxy ends where an operator asks for it.
fn drains<R>(rt: R, alloc: Global, spool: &str) -> bool
where
    R: Net<Stream = TcpStream, Listener = TcpListener>
        + SpoolFiles
        + Threads
        + Wait
        + Clock
        + Eprint
        + Abort
        + Copy
        + Drop
        + Send
        + 'static,
{
    let clients = listen(&rt, "127.0.0.1:0").expect(&rt, "a listener");
    let operators = listen(&rt, "127.0.0.1:0").expect(&rt, "a listener");
    let address = address_of(&rt, alloc, &clients);
    let admin = address_of(&rt, alloc, &operators);
    let accepted = routes_to(&rt, alloc, admin.as_str());
    let lines = lines_of(&rt, alloc, address.as_str(), &DRAINED);
    let settings = settings_of(&rt, &DRAINED);
    let client = thread::spawn(
        &rt,
        move || is_closed_by_a_drain(&rt, alloc, address.as_str(), admin.as_str()),
    );
    let client = client.expect(&rt, "a thread");
    let mut out = Vec::new(alloc);
    let disk = rt.open_spool(spool).expect(&rt, "a spool");
    let listeners = Listeners {
        clients,
        admin: Some(operators),
    };
    let ran = run_proxy(rt, alloc, accepted, listeners, disk, settings, &mut out);
    let is_closed = client.join(&rt);
    ran.is_ok() && is_closed && out.as_slice() == lines.as_bytes()
}

#[test]
fn a_get_hits_and_deletes_are_spooled(rt: HostRuntime) {
    let alloc = rt.alloc();
    let temporary = env::temp_dir(&rt).expect(&rt, "a folder");
    let folder = temporary.as_str();
    let number = process::id(rt.process());
    let spool = format!(in alloc; "{folder}/mcv_net_tests.{number}").expect(&rt, "memory");
    let is_right = hits(rt, alloc, spool.as_str())
        && spools(rt, alloc, spool.as_str())
        && drains(rt, alloc, spool.as_str());
    let length = fs::read(&rt, spool.as_str()).expect(&rt, "the spool").len();
    fs::remove_file(&rt, spool.as_str()).expect(&rt, "the spool");
    assert!(rt; is_right);
    assert!(rt; length == 3201, "{length} bytes");
}
