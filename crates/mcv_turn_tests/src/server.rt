//! A memcached in memory, as far as legs ask it.

use mcv_base::{Ask, Op, Request};
use mcv_text::{Item, RequestReader};
use std::alloc::Global;
use std::process::Abort;

/// A value under its key.
#[derive(Drop)]
struct Value {
    key: Vec<u8>,
    body: Vec<u8>,
}

/// A server: what it holds, what it was asked, and what it says.
#[derive(Drop)]
pub(crate) struct Server {
    alloc: Global,
    reader: RequestReader,
    values: Vec<Value>,
    /// The operations and keys that it was asked, one after the other.
    pub(crate) asked: String,
    pub(crate) says: Vec<u8>,
}

/// Answers a get of this value.
fn say_value(rt: &impl Abort, alloc: Global, value: &Value, says: &mut Vec<u8>) {
    let size = value.body.len();
    let line = format!(in alloc; " 0 {size}\r\n").expect(rt, "memory");
    says.extend_from_slice(b"VALUE ").expect(rt, "memory");
    says.extend_from_slice(value.key.as_slice())
        .expect(rt, "memory");
    says.extend_from_slice(line.as_bytes()).expect(rt, "memory");
    says.extend_from_slice(value.body.as_slice())
        .expect(rt, "memory");
    says.extend_from_slice(b"\r\nEND\r\n").expect(rt, "memory");
}

impl Server {
    pub(crate) fn new(alloc: Global) -> Server {
        Server {
            alloc,
            reader: RequestReader::new(alloc),
            values: Vec::new(alloc),
            asked: String::new(alloc),
            says: Vec::new(alloc),
        }
    }

    /// It reads these bytes, and says what it answers to them.
    pub(crate) fn read(&mut self, rt: &impl Abort, bytes: &[u8]) {
        let items = self.reader.feed(bytes).ok().expect(rt, "requests");
        for item in items {
            match item {
                Item::Asked(Request::Ask(ask)) => self.serve(rt, &ask),
                _ => panic!(rt; "no leg"),
            }
        }
    }

    fn serve(&mut self, rt: &impl Abort, ask: &Ask) {
        let key = ask.keys.first().expect(rt, "a key").as_slice();
        let name = ask.op.name();
        self.asked.push_str(name).expect(rt, "memory");
        self.asked.push_str(" ").expect(rt, "memory");
        for byte in key {
            self.asked.push(char::from(*byte)).expect(rt, "memory");
        }
        self.asked.push_str("\n").expect(rt, "memory");
        match ask.op {
            Op::Get => self.get(rt, key),
            Op::Set => self.set(rt, key, ask.body.as_slice()),
            Op::Delete => self.delete(rt, key),
            _ => panic!(rt; "an operation that it hasn't"),
        }
    }

    fn say(&mut self, rt: &impl Abort, bytes: &[u8]) {
        self.says.extend_from_slice(bytes).expect(rt, "memory");
    }

    fn get(&mut self, rt: &impl Abort, key: &[u8]) {
        for value in self.values.iter() {
            if value.key.as_slice() == key {
                say_value(rt, self.alloc, value, &mut self.says);
                return;
            }
        }
        self.say(rt, b"END\r\n");
    }

    fn forget(&mut self, key: &[u8]) -> bool {
        let before = self.values.len();
        self.values.retain(|value| value.key.as_slice() != key);
        self.values.len() < before
    }

    fn set(&mut self, rt: &impl Abort, key: &[u8], body: &[u8]) {
        self.forget(key);
        let value = Value {
            key: Vec::from_slice(self.alloc, key).expect(rt, "memory"),
            body: Vec::from_slice(self.alloc, body).expect(rt, "memory"),
        };
        self.values.push(value).ok().expect(rt, "memory");
        self.say(rt, b"STORED\r\n");
    }

    fn delete(&mut self, rt: &impl Abort, key: &[u8]) {
        if self.forget(key) {
            self.say(rt, b"DELETED\r\n");
        } else {
            self.say(rt, b"NOT_FOUND\r\n");
        }
    }
}
