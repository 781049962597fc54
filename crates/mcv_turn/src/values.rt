//! How many bytes the values of an answer have.

ghost use Rattle.std.specs.Prelude.{◌≡◌, ◌<◌, ◌≤◌, false, sum_by, true};
ghost use Rattle.mcv_turn.specs.Values.{hit_bytes, value_bytes};

use mcv_base::{Part, Reply};
use mcv_hub::TakenReply;

/// The bytes of the value of a hit; 0 where it is none.
fn hit_bytes(reply: &Reply) -> usize
    ensures { result ≡ hit_bytes reply.now }
{
    match reply {
        Reply::Hit { body, .. } => body.len(),
        Reply::Miss
        | Reply::Stored
        | Reply::NotStored
        | Reply::Exists
        | Reply::NotFound
        | Reply::Deleted
        | Reply::Touched
        | Reply::Number(_)
        | Reply::Fault(_) => 0,
    }
}

/// The bytes of the value of a reply; 0 where it has none.
pub fn value_bytes(part: &Part) -> usize
    ensures { result ≡ value_bytes part.now }
{
    match part {
        Part::Fixed(_) => 0,
        Part::Owned(reply) => hit_bytes(reply),
    }
}

/// Whether the values of these replies have so many bytes at most.
pub fn are_within(parts: &[Part], most: usize) -> bool
    ensures within { result ≡ true → sum_by value_bytes parts.now ≤ most }
    ensures beyond { result ≡ false → most < sum_by value_bytes parts.now }
{
    let mut left = most;
    for part in parts {
        match left.checked_sub(value_bytes(part)) {
            Some(rest) => left = rest,
            None => return false,
        }
    }
    true
}

/// Whether the values of these replies that were taken have so many bytes at most.
pub(crate) fn is_room_left(taken: &[TakenReply], most: usize) -> bool
    ensures within { result ≡ true → sum_by (λ t. value_bytes t.reply) taken.now ≤ most }
    ensures beyond { result ≡ false → most < sum_by (λ t. value_bytes t.reply) taken.now }
{
    let mut left = most;
    for reply in taken {
        match left.checked_sub(value_bytes(reply.reply())) {
            Some(rest) => left = rest,
            None => return false,
        }
    }
    true
}
