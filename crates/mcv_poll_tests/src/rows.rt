//! What happens at the sockets of a loop.

use crate::disk::BlankDisk;
use crate::legs::KEYS;
use crate::office::{Gives, Said, open, server};
use mcv_base::{LegId, ServerId};
use mcv_connection::Connection;
use mcv_hub::Pass;
use mcv_loop::{Ready, Source, Sources};
use mcv_poll::serve_spool;
use mcv_spool::Spool;
use mcv_turn::HeldLeg;
use std::io::{Read, Write};
use std::net::{Net, Shutdown, TcpListener, TcpStream};
use std::process::Abort;
use std::rt::Clock;
use std::sync::Wait;
use std::sync::atomic::Ordering;

/// The bytes that a connection gives with one read are these.
fn gives(connection: &mut impl Connection, bytes: &[u8]) -> bool {
    let mut room = [0u8; 16];
    match connection.read(&mut room) {
        Ok(count) => match room.as_slice().get(..count) {
            Some(read) => read == bytes,
            None => false,
        },
        Err(_) => false,
    }
}

/// What a client sent before it is attended is told then, and so is its end, also under the number of an earlier client. Once the last
/// client came, the listener is closed.
pub(crate) fn clients_come<R>(rt: R, pass: &Pass)
where
    R: Net<Stream = TcpStream, Listener = TcpListener>
        + AllocGlobal
        + Clock
        + Wait
        + Abort
        + Copy
        + Drop,
{
    let mut office = open(rt, 2);
    let first = office.connect().expect(&rt, "a connection");
    (&first).write_all(b"get a\r\n").expect(&rt, "a write");
    let mut client = office.client(pass).expect(&rt, "a client");
    assert!(rt; office.sources.attend(pass, &mut client, 0));
    assert!(rt; office.says(pass, Said::Read(Source::Client(0))));
    assert!(rt; gives(&mut client, b"get a\r\n"));
    assert!(rt; matches!(client.write(b"END\r\n"), Ok(5)));
    let mut room = [0u8; 5];
    (&first).read_exact(&mut room).expect(&rt, "a read");
    assert!(rt; &room == b"END\r\n");
    drop(client);
    assert!(rt; matches!((&first).read(&mut room), Ok(0)));
    let second = office.connect().expect(&rt, "a connection");
    (&second).write_all(b"quit\r\n").expect(&rt, "a write");
    second.shutdown(Shutdown::Write).expect(&rt, "an end");
    let mut client = office.client(pass).expect(&rt, "a client");
    assert!(rt; office.sources.attend(pass, &mut client, 0));
    assert!(rt; office.says(pass, Said::End(Source::Client(0))));
    assert!(rt; gives(&mut client, b"quit\r\n"));
    assert!(rt; gives(&mut client, b""));
    assert!(rt; office.connect().is_none());
}

/// Once the last client came the sources say so, and who comes then is refused.
pub(crate) fn last_client_comes<R>(rt: R, pass: &Pass)
where
    R: Net<Stream = TcpStream, Listener = TcpListener>
        + AllocGlobal
        + Clock
        + Wait
        + Abort
        + Copy
        + Drop,
{
    let mut office = open(rt, 1);
    let _first = office.connect().expect(&rt, "a connection");
    assert!(rt; office.says(pass, Said::Closed));
    assert!(rt; office.connect().is_none());
}

/// Who asks for an end wakes the loop, and who comes then is refused.
pub(crate) fn drain_begins<R>(rt: R, pass: &Pass)
where
    R: Net<Stream = TcpStream, Listener = TcpListener>
        + AllocGlobal
        + Clock
        + Wait
        + Abort
        + Copy
        + Drop,
{
    let mut office = open(rt, 2);
    office.drains.store(true, Ordering::SeqCst);
    office.mailbox.wake();
    let mut ready = Vec::new(rt.alloc());
    office
        .sources
        .wait(pass, None, &mut ready)
        .ok()
        .expect(&rt, "a wait");
    assert!(rt; matches!(ready.as_slice(), [Ready::Drains { until: None }]));
    assert!(rt; office.connect().is_none());
}

/// A connection to a server that listens can be written, and one to a server that doesn't is at its end.
pub(crate) fn servers_are_connected<R>(rt: R, pass: &Pass)
where
    R: Net<Stream = TcpStream, Listener = TcpListener>
        + AllocGlobal
        + Clock
        + Wait
        + Abort
        + Copy
        + Drop,
{
    let mut office = open(rt, 1);
    let mut stream = office
        .sources
        .connect(pass, 0, ServerId(0))
        .expect(&rt, "a connection");
    assert!(rt; office.says(pass, Said::Write(server(0))));
    assert!(rt; matches!(stream.write(b"version\r\n"), Ok(9)));
    let (near, _address) = office.server.accept().expect(&rt, "a connection");
    let mut room = [0u8; 9];
    (&near).read_exact(&mut room).expect(&rt, "a read");
    assert!(rt; &room == b"version\r\n");
    (&near).write_all(b"VERSION 1\r\n").expect(&rt, "a write");
    assert!(rt; office.says(pass, Said::Read(server(0))));
    assert!(rt; gives(&mut stream, b"VERSION 1\r\n"));
    let away = office.sources.connect(pass, 0, ServerId(1));
    assert!(rt; away.is_none() || office.says(pass, Said::End(server(1))));
    assert!(rt; office.sources.connect(pass, 0, ServerId(2)).is_none());
    assert!(rt; office.sources.connect(pass, 1, ServerId(0)).is_none());
}

/// The loop is told that the record of this leg and this key was stored, for the hub of this number, in the slot of this number, which
/// was the last one then.
fn check_stored(rt: &impl Abort, said: &Gives, number: usize, leg: LegId, key: u8) {
    let Ready::Stored { hub, stored, slots } = said else {
        panic!(rt; "something else is ready");
    };
    assert!(rt;
        stored.leg == leg,
        "it is of {:?}, not of {leg:?}",
        stored.leg
    );
    assert!(rt; *hub == number, "{leg:?} is told to hub {hub}");
    assert!(rt;
        slots.checked_sub(1) == Some(number),
        "{slots} slots at {leg:?}"
    );
    match &stored.outcome {
        Ok(record) => {
            assert!(rt; record.seq() == number as u64, "another place");
            assert!(rt;
                record.record().rest.as_bytes() == [key].as_slice(),
                "another key"
            );
        }
        Err(fault) => panic!(rt; "the spool refused {leg:?}: {fault:?}"),
    }
}

/// Records are stored in the order in which their legs were handed over, and the loop is told of each in this order, with its hub and
/// the slots of the file. The spool's thread finds all of them, and ends behind the last one.
pub(crate) fn records_are_stored<R>(rt: R, pass: &Pass, held: Vec<HeldLeg>)
where
    R: Net<Stream = TcpStream, Listener = TcpListener>
        + AllocGlobal
        + Clock
        + Wait
        + Abort
        + Copy
        + Drop,
{
    let mut office = open(rt, 1);
    let mut legs = Vec::new(rt.alloc());
    for (number, held) in held.into_iter().enumerate() {
        legs.push(held.leg).expect(&rt, "memory");
        assert!(rt; office.sources.store(pass, number, held));
    }
    office.mailbox.end(&rt);
    let spool = Spool::open(rt.alloc(), BlankDisk);
    let mut spool = spool.ok().expect(&rt, "a spool");
    serve_spool(&rt, &mut spool, &office.mailbox);
    let told = office.wait_for(pass, Said::Stored);
    assert!(rt; told.len() == KEYS.len() && legs.len() == KEYS.len());
    for (number, said) in told.iter().enumerate() {
        let leg = legs.get(number).expect(&rt, "a leg");
        let key = KEYS.get(number).expect(&rt, "a key");
        check_stored(&rt, said, number, *leg, *key);
    }
}
