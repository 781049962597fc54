//! Records, and the slots that spell them.

ghost use Rattle.std.specs.Prelude.{◌≡◌, ◌+◌, ◌-◌, ◌*◌, ◌<◌, ◌≤◌, [], ◌∷◌, ◌++◌, length, replicate, Some, IsTrue, ◌↔◌};
ghost use Rattle.mcv_spool.specs.File.{body, number_at, read_parts, read_record, slot_of, two};

use arrayvec::ArrayVec;
use mcv_base::{Rest, ServerText};

/// The gate of a slot that counts.
pub(crate) const OPEN: u8 = 1;

/// The gate of a slot that doesn't, and of all behind it.
pub(crate) const CLOSED: u8 = 0;

/// The second byte of a slot whose record is pending.
pub(crate) const PENDING: u8 = 0;

/// The second byte of a slot whose record is done.
pub(crate) const DONE: u8 = 1;

/// A delete that its server didn't take: that server, and the rest of the delete's key.
#[derive(Debug, PartialEq, Eq, Drop)]
pub struct SpoolRecord {
    pub server: ServerText,
    pub rest: Rest,
}

/// A record that is on the disk. `append` alone makes one, and it can't be copied.
#[derive(Drop)]
pub struct Stored {
    seq: u64,
    record: SpoolRecord,
}

impl Stored {
    pub(crate) fn new(seq: u64, delete: SpoolRecord) -> Stored
        ensures seq { result.seq ≡ seq }
        ensures delete { result.record ≡ delete }
    {
        Stored {
            seq,
            record: delete,
        }
    }

    /// The number of the record's slot, from 0.
    pub fn seq(&self) -> u64
        ensures { result ≡ self.now.seq }
    {
        self.seq
    }

    /// The record.
    pub fn record(&self) -> &SpoolRecord
        ensures { result.now ≡ self.now.record }
    {
        &self.record
    }
}

impl SpoolRecord {
    /// Whether it is of this server and this rest.
    pub fn is(&self, server: &ServerText, rest: &Rest) -> bool
        ensures { IsTrue result ↔ ((self.now.server ≡ server.now) × (self.now.rest ≡ rest.now)) }
    {
        self.server.as_bytes() == server.as_bytes() && self.rest.as_bytes() == rest.as_bytes()
    }

    /// The same record. It takes no memory.
    pub fn copied(&self) -> SpoolRecord
        ensures { result ≡ self.now }
    {
        match (
            ServerText::of(self.server.as_bytes()),
            Rest::of(self.rest.as_bytes()),
        ) {
            (Some(server), Some(rest)) => SpoolRecord { server, rest },
            _ => unreachable!(),
        }
    }

    /// Bytes 1 to 639 of the record's slot, and the next slot's gate, closed.
    pub(crate) fn spelled(&self) -> ArrayVec<u8, 640>
        ensures bytes { result.items ≡ body self.now ++ 0 ∷ [] }
        ensures size { length (body self.now) ≡ 639 }
        ensures reads { read_record (slot_of self.now) ≡ Some self.now }
    {
        let server = self.server.as_bytes();
        let rest = self.rest.as_bytes();
        let mut bytes = ArrayVec::new();
        bytes.push(PENDING);
        push_two(&mut bytes, server.len());
        push_two(&mut bytes, rest.len());
        extend(&mut bytes, server);
        extend(&mut bytes, rest);
        pad(&mut bytes, 634 - server.len() - rest.len());
        bytes.push(CLOSED);
        bytes
    }
}

fn push_two(bytes: &mut ArrayVec<u8, 640>, number: usize)
    requires small { number < 65536 }
    requires room { length bytes.old.items + 2 ≤ 640 }
    ensures { bytes.new.items ≡ bytes.old.items ++ two number }
{
    bytes.push((number / 256) as u8);
    bytes.push((number % 256) as u8);
}

fn extend(bytes: &mut ArrayVec<u8, 640>, more: &[u8])
    requires { length bytes.old.items + length more.now ≤ 640 }
    ensures { bytes.new.items ≡ bytes.old.items ++ more.now }
{
    match bytes.try_extend_from_slice(more) {
        Ok(()) => {}
        Err(_) => unreachable!(),
    }
}

fn pad(bytes: &mut ArrayVec<u8, 640>, zeros: usize)
    requires { length bytes.old.items + zeros ≤ 640 }
    ensures { bytes.new.items ≡ bytes.old.items ++ replicate zeros 0 }
{
    for _place in 0..zeros {
        bytes.push(0);
    }
}

/// The number that two bytes of a slot spell.
fn number_at(slot: &[u8], at: usize) -> usize
    requires { at + 2 ≤ length slot.now }
    ensures { result ≡ number_at slot.now at }
{
    256 * slot[at] as usize + slot[at + 1] as usize
}

/// The record of a slot, if it reads.
#[tactic(auto, unfolding(crate::specs::File::read_record))]
pub(crate) fn read_record(slot: &[u8]) -> Option<SpoolRecord>
    requires { length slot.now ≡ 640 }
    ensures { result ≡ read_record slot.now }
{
    let server_len = number_at(slot, 2);
    let rest_len = number_at(slot, 4);
    if server_len > 261 || rest_len > 250 {
        return None;
    }
    let text = &slot[6..];
    read_parts(
        &text[..server_len],
        &text[server_len..server_len + rest_len],
    )
}

fn read_parts(server: &[u8], rest: &[u8]) -> Option<SpoolRecord>
    ensures { result ≡ read_parts server.now rest.now }
{
    match (ServerText::of(server), Rest::of(rest)) {
        (Some(server), Some(rest)) => Some(SpoolRecord { server, rest }),
        _ => None,
    }
}
