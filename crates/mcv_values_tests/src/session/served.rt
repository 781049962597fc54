//! Sessions over readers and writers.

use super::script::Script;
use super::sessions::{ROWS, Row};
use crate::rows::{check, check_bytes, unfolded};
use mcv_session::{ServeFault, serve_session};
use std::alloc::Global;
use std::io;
use std::io::{Read, Write};
use std::process::Abort;

/// Gives at most so many bytes a read, and is interrupted before the first. At the end it fails where it is broken.
#[derive(Drop)]
struct Client<'a> {
    left: &'a [u8],
    most: usize,
    is_interrupted: bool,
    is_broken: bool,
}

impl<'a> Read for Client<'a> {
    fn read(&mut self, buf: &mut [u8]) -> io::Result<usize> {
        if self.is_interrupted {
            self.is_interrupted = false;
            return Err(io::Error::from(io::ErrorKind::Interrupted));
        }
        let count = self.most.min(buf.len()).min(self.left.len());
        if count == 0 && self.is_broken {
            return Err(io::Error::from(io::ErrorKind::BrokenPipe));
        }
        let (now, later) = self.left.split_at(count);
        buf[..count].copy_from_slice(now);
        self.left = later;
        Ok(count)
    }
}

fn reading(bytes: &[u8], most: usize) -> Client<'_> {
    Client {
        left: bytes,
        most,
        is_interrupted: true,
        is_broken: false,
    }
}

/// Keeps what is written, and counts the writes of more than no bytes. It fails where it has no writes left.
#[derive(Drop)]
struct Output {
    bytes: Vec<u8>,
    writes: u64,
    left: u64,
}

impl Write for Output {
    fn write(&mut self, buf: &[u8]) -> io::Result<usize> {
        if self.left == 0 {
            return Err(io::Error::from(io::ErrorKind::BrokenPipe));
        }
        if self.bytes.extend_from_slice(buf).is_err() {
            return Err(io::Error::from(io::ErrorKind::OutOfMemory));
        }
        self.left -= 1;
        self.writes = self.writes.saturating_add(1);
        Ok(buf.len())
    }

    fn flush(&mut self) -> io::Result<()> {
        Ok(())
    }
}

fn writing(alloc: Global, left: u64) -> Output {
    Output {
        bytes: Vec::new(alloc),
        writes: 0,
        left,
    }
}

/// A client is served by a desk with these answers, which is asked this, where so many writes are left; the session ends
/// so. The result: how many writes there were.
fn check_served(
    rt: &(impl AllocGlobal + Abort),
    client: &mut Client<'_>,
    left: u64,
    fault: Option<ServeFault>,
    answers: &str,
    text: &str,
    asked: &str,
) -> u64 {
    let mut desk = Script::new(rt.alloc(), answers);
    let mut written = writing(rt.alloc(), left);
    let served = serve_session(rt.alloc(), client, &mut written, &mut desk);
    check(rt, served.err() == fault, text);
    check_bytes(rt, text, &written.bytes, &unfolded(rt, text));
    check_bytes(rt, asked, desk.asked(), &unfolded(rt, asked));
    written.writes
}

/// The client of a row is served as it says, by reads of so many bytes.
fn check_row(rt: &(impl AllocGlobal + Abort), row: &Row, most: usize) {
    let (stream, answers, text, asked, _) = *row;
    let bytes = unfolded(rt, stream);
    let mut client = reading(&bytes, most);
    let _ = check_served(rt, &mut client, 1000, None, answers, text, asked);
}

#[test]
fn clients_are_served(rt: HostRuntime) {
    for most in [1, 2, 7, 16384, 100000] {
        for row in &ROWS {
            check_row(&rt, row, most);
        }
    }
}

#[test]
fn a_slice_is_served(rt: HostRuntime) {
    let mut written = Vec::new(rt.alloc());
    let mut desk = Script::new(rt.alloc(), "hm/d");
    let bytes = b"get a b\r\ndelete a\r\n".as_slice();
    let served = serve_session(rt.alloc(), &mut &*bytes, &mut written, &mut desk);
    check(&rt, served.is_ok(), "served");
    let text = b"VALUE a 0 1\r\nx\r\nEND\r\nDELETED\r\n";
    check_bytes(&rt, "a slice", &written, text);
}

#[test]
fn what_one_read_gives_is_answered_by_one_write(rt: HostRuntime) {
    let mut client = reading(b"delete a\r\ndelete b\r\nversion\r\ndelete c\r\n", 1000);
    let text = "DELETED~NOT_FOUND~VERSION mcv 1~DELETED~";
    let asked = "delete a~delete b~delete c~";
    let writes = check_served(&rt, &mut client, 1000, None, "d/n/d", text, asked);
    check(&rt, writes == 1, "one write");
}

#[test]
fn a_reader_that_fails_ends_the_session(rt: HostRuntime) {
    let mut client = reading(b"delete a\r\ndelete b", 1000);
    client.is_broken = true;
    let fault = Some(ServeFault::Read);
    let (text, asked) = ("DELETED~", "delete a~");
    let _ = check_served(&rt, &mut client, 1000, fault, "d/n/d", text, asked);
}

#[test]
fn a_writer_that_fails_ends_the_session(rt: HostRuntime) {
    let mut client = reading(b"delete a\r\ndelete b\r\ndelete c\r\n", 10);
    let fault = Some(ServeFault::Write);
    let (text, asked) = ("DELETED~", "delete a~delete b~");
    let _ = check_served(&rt, &mut client, 1, fault, "d/n/d", text, asked);
}
