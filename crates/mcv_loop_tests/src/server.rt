//! A memcached in memory, as far as legs ask it.

use mcv_base::{Ask, Op, Request};
use mcv_text::{Item, RequestReader};
use std::alloc::Global;

/// A value under its key.
#[derive(Drop)]
struct Value {
    key: Vec<u8>,
    body: Vec<u8>,
}

/// A server: what it holds, what it was asked, and what it says.
#[derive(Drop)]
pub(crate) struct Server {
    alloc: Global,
    reader: RequestReader,
    values: Vec<Value>,
    /// The operations and keys that it was asked, one after the other.
    pub(crate) asked: String,
    pub(crate) says: Vec<u8>,
}

/// Answers a get of this value.
fn say_value(alloc: Global, value: &Value, says: &mut Vec<u8>) -> Option<()> {
    let size = value.body.len();
    let line = format!(in alloc; " 0 {size}\r\n").ok()?;
    says.extend_from_slice(b"VALUE ").ok()?;
    says.extend_from_slice(value.key.as_slice()).ok()?;
    says.extend_from_slice(line.as_bytes()).ok()?;
    says.extend_from_slice(value.body.as_slice()).ok()?;
    says.extend_from_slice(b"\r\nEND\r\n").ok()
}

impl Server {
    pub(crate) fn new(alloc: Global) -> Server {
        Server {
            alloc,
            reader: RequestReader::new(alloc),
            values: Vec::new(alloc),
            asked: String::new(alloc),
            says: Vec::new(alloc),
        }
    }

    /// A new connection to it is begun: nothing of an earlier one is read or said.
    pub(crate) fn hang_up(&mut self) {
        self.reader = RequestReader::new(self.alloc);
        self.says.clear();
    }

    /// It reads these bytes, and says what it answers to them; None where they are no legs that it knows.
    pub(crate) fn read(&mut self, bytes: &[u8]) -> Option<()> {
        let items = self.reader.feed(bytes).ok()?;
        for item in items {
            match item {
                Item::Asked(Request::Ask(ask)) => self.serve(&ask)?,
                Item::Asked(Request::Version) => self.say(b"VERSION 1.6\r\n")?,
                _ => return None,
            }
        }
        Some(())
    }

    fn serve(&mut self, ask: &Ask) -> Option<()> {
        let key = ask.keys.first()?.as_slice();
        self.asked.push_str(ask.op.name()).ok()?;
        self.asked.push_str(" ").ok()?;
        for byte in key {
            self.asked.push(char::from(*byte)).ok()?;
        }
        self.asked.push_str("\n").ok()?;
        match ask.op {
            Op::Get => self.get(key),
            Op::Set => self.set(key, ask.body.as_slice()),
            Op::Delete => self.delete(key),
            _ => None,
        }
    }

    fn say(&mut self, bytes: &[u8]) -> Option<()> {
        self.says.extend_from_slice(bytes).ok()
    }

    fn get(&mut self, key: &[u8]) -> Option<()> {
        for value in self.values.iter() {
            if value.key.as_slice() == key {
                return say_value(self.alloc, value, &mut self.says);
            }
        }
        self.say(b"END\r\n")
    }

    fn forget(&mut self, key: &[u8]) -> bool {
        let before = self.values.len();
        self.values.retain(|value| value.key.as_slice() != key);
        self.values.len() < before
    }

    fn set(&mut self, key: &[u8], body: &[u8]) -> Option<()> {
        self.forget(key);
        let value = Value {
            key: Vec::from_slice(self.alloc, key).ok()?,
            body: Vec::from_slice(self.alloc, body).ok()?,
        };
        self.values.push(value).ok()?;
        self.say(b"STORED\r\n")
    }

    fn delete(&mut self, key: &[u8]) -> Option<()> {
        if self.forget(key) {
            self.say(b"DELETED\r\n")
        } else {
            self.say(b"NOT_FOUND\r\n")
        }
    }
}
