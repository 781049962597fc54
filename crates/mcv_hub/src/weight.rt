//! The bytes that an entry holds.

ghost use Rattle.std.specs.Prelude.{◌≡◌, sum_by, vec_len};
ghost use Rattle.mcv_plan.specs.Counts.{capped};
ghost use Rattle.mcv_hub.specs.Weights.{began_bytes, part_bytes, reply_bytes, request_bytes, weight};

use crate::entry::Entry;
use mcv_base::{Part, Reply, Request};

/// The bytes of an entry by itself, with what keeps it in memory: measured at 103.
const ENTRY_BYTES: u64 = 128;

/// The bytes of these words.
fn words_bytes(words: &[Vec<u8>]) -> u64
    ensures { result ≡ capped (sum_by (λ word. vec_len word) words.now) }
{
    let mut total = 0u64;
    for word in words {
        total = total.saturating_add(word.len() as u64);
    }
    total
}

/// The bytes of a request: its key words, and what it stores.
fn request_bytes(request: &Request) -> u64
    ensures { result ≡ capped (request_bytes request.now) }
{
    match request {
        Request::Ask(ask) => {
            let words = words_bytes(ask.keys.as_slice());
            words.saturating_add(ask.body.len() as u64)
        }
        Request::Version | Request::Quit => 0,
    }
}

/// The bytes that the entry of a call holds of its request.
fn began_bytes(request: &Request, key: usize) -> u64
    ensures { result ≡ capped (began_bytes request.now key) }
{
    if key == 0 { request_bytes(request) } else { 0 }
}

/// The bytes of a reply: a value, or the line of an error.
fn reply_bytes(reply: &Reply) -> u64
    ensures { result ≡ capped (reply_bytes reply.now) }
{
    match reply {
        Reply::Hit { body, .. } => body.len() as u64,
        Reply::Fault(line) => line.len() as u64,
        Reply::Miss
        | Reply::Stored
        | Reply::NotStored
        | Reply::Exists
        | Reply::NotFound
        | Reply::Deleted
        | Reply::Touched
        | Reply::Number(_) => 0,
    }
}

/// The bytes of a reply where it is owned.
fn part_bytes(part: &Part) -> u64
    ensures { result ≡ capped (part_bytes part.now) }
{
    match part {
        Part::Fixed(_) => 0,
        Part::Owned(reply) => reply_bytes(reply),
    }
}

impl Entry {
    /// The bytes that it holds.
    pub(crate) fn weight(&self) -> u64
        ensures { result ≡ capped (weight self.now) }
    {
        match self {
            Entry::Began { request, key } => {
                ENTRY_BYTES.saturating_add(began_bytes(request, *key))
            }
            Entry::Answered { reply, .. } => ENTRY_BYTES.saturating_add(part_bytes(reply)),
            Entry::Spooled(_)
            | Entry::Refused(_)
            | Entry::Performed(_)
            | Entry::EraBegan(_)
            | Entry::Taken(_) => ENTRY_BYTES,
        }
    }
}
