//! The legs in flight over a connection, and what becomes of them when it is lost.

ghost use Rattle.std.specs.Prelude.{◌≡◌, ◌+◌, ◌≤◌, ◌++◌, ◌∷◌, ◌&&◌, [], cond, true, vec_capacity, vec_len};
ghost use Rattle.std.specs.VecDeque.{deque_len};
ghost use Rattle.mcv_lines.specs.Lost.{again_of, count_unwritten, goes_again, lost_leg, lost_of};

use crate::loss::{Loss, may_ask_again};
use mcv_base::{LegId, ServerId};
use mcv_turn::{Arrival, Flight};
use std::collections::VecDeque;
use std::time::Instant;

/// A leg in flight.
#[derive(Drop)]
pub(crate) struct Sent {
    pub(crate) flight: Flight,
    pub(crate) at: Option<Instant>,
    /// It was sent before over a connection that was lost.
    pub(crate) is_again: bool,
    /// How many bytes its text has.
    pub(crate) length: usize,
}

/// How many of the newest legs are unwritten, where so many of the last bytes of all texts are: no byte of their texts was
/// written.
pub(crate) fn count_unwritten(sent: &VecDeque<Sent>, bytes: usize) -> usize
    ensures { result ≡ count_unwritten bytes sent.now.items }
{
    let mut left = bytes;
    for place in (0..sent.len()).rev() {
        let length = sent[place].length;
        if left < length {
            return sent.len() - place - 1;
        }
        left -= length;
    }
    sent.len()
}

/// Whether a leg in flight over a connection that is lost so is sent once more, where no byte of it was written or some may
/// have been.
fn goes_again(one: &Sent, loss: Loss, is_unwritten: bool) -> bool
    ensures { result ≡ goes_again loss is_unwritten one.now }
{
    !one.is_again && (is_unwritten || may_ask_again(one.flight.request.op, loss))
}

/// A leg that is lost: the oldest one that is with its connection, or another one.
fn lost_leg(server: ServerId, leg: LegId, is_oldest: bool) -> Arrival
    ensures { result ≡ lost_leg server is_oldest leg }
{
    if is_oldest {
        Arrival::lost(server, leg)
    } else {
        Arrival::lost_too(server, leg)
    }
}

/// A leg in flight over a connection that is lost goes behind those that are sent once more, or behind what is reported.
/// Whether the next one that is lost is the oldest, where this one may be.
fn tell_one(
    server: ServerId,
    one: Sent,
    goes: bool,
    is_oldest: bool,
    arrivals: &mut Vec<Arrival>,
    again: &mut Vec<Flight>,
) -> bool
    requires arrivals { vec_len arrivals.old + 1 ≤ vec_capacity arrivals.old }
    requires again { vec_len again.old + 1 ≤ vec_capacity again.old }
    ensures again { again.new.items ≡ again.old.items ++ cond goes (one.flight ∷ []) [] }
    ensures lost { arrivals.new.items ≡ arrivals.old.items ++ cond goes [] (lost_leg server is_oldest one.flight.leg ∷ []) }
    ensures oldest { result ≡ (is_oldest && goes) }
    ensures few { (vec_len arrivals.new ≤ vec_len arrivals.old + 1) × (vec_len again.new ≤ vec_len again.old + 1) }
    ensures room { (vec_capacity arrivals.new ≡ vec_capacity arrivals.old) × (vec_capacity again.new ≡ vec_capacity again.old) }
{
    let Sent { flight, .. } = one;
    if goes {
        again.push_reserved(flight);
        return is_oldest;
    }
    arrivals.push_reserved(lost_leg(server, flight.leg, is_oldest));
    false
}

/// The legs in flight over a connection that is lost so, the oldest first, of which so many of the newest are unwritten: those
/// that may be are sent once more, and go behind `again`; of the others, which go behind `arrivals`, the oldest is lost, and each
/// other one is lost too.
pub(crate) fn tell_lost(
    server: ServerId,
    loss: Loss,
    unwritten: usize,
    sent: &mut VecDeque<Sent>,
    arrivals: &mut Vec<Arrival>,
    again: &mut Vec<Flight>,
)
    requires arrivals { vec_len arrivals.old + deque_len sent.old ≤ vec_capacity arrivals.old }
    requires again { vec_len again.old + deque_len sent.old ≤ vec_capacity again.old }
    ensures none { sent.new.items ≡ [] }
    ensures again { again.new.items ≡ again.old.items ++ again_of loss unwritten sent.old.items }
    ensures lost { arrivals.new.items ≡ arrivals.old.items ++ lost_of server loss unwritten true sent.old.items }
{
    let mut is_oldest = true;
    while let Some(one) = sent.pop_front() {
        let goes = goes_again(&one, loss, sent.len() < unwritten);
        is_oldest = tell_one(server, one, goes, is_oldest, arrivals, again);
    }
}
