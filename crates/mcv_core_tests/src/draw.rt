//! Events that are drawn.

use crate::model::{IN_FLIGHT, Model, Stage};
use crate::setup::{bytes, shared};
use mcv_base::{FixedReply, Op, Parts, Reply, ServerId};
use std::process::Abort;

/// What a server says to a leg.
#[derive(Clone, Copy)]
pub(crate) enum Say {
    /// A value, its unique number with it.
    Hit(Option<u64>),
    /// An error line.
    Fault,
    Short(FixedReply),
}

/// An event, before its parts are made. Keys, legs and calls have their numbers.
#[derive(Clone, Copy)]
pub(crate) enum Deed {
    Begin(Op, usize),
    Next(ServerId),
    Answered(usize, Say),
    Lost(usize),
    LostToo(usize),
    /// Whether the record is the leg's.
    Spooled(usize, bool),
    SpoolRefused(usize),
    Replay(ServerId),
    Mark(ServerId),
    Unmark(ServerId),
    Clock(u64),
    Turn,
    Take(usize),
}

/// A linear congruential generator (Knuth, MMIX), of which the upper bits are used.
#[derive(Clone, Copy)]
pub(crate) struct Dice {
    state: u64,
}

/// What is drawn, a letter a chance: many calls at once.
const BUSY: &[u8] = b"bbbbbbbbbbnnnnnnnnnnnnaaaaaaaaalLLlsssssfffrrrmucTtttttt";

/// The same with few calls, which end, so that chapters turn.
const CALM: &[u8] = b"bbbnnnnnnnnnnaaaaaaaaaalLlssssssfrrrmucTTTTTTtttttttttttt";

/// The operations of calls.
const OPS: &[u8] = b"ddddddggxsi";

/// What servers say: the first half fits the operation.
const SAYINGS: &[u8] = b"yyyyynnnfffhgmsxe0dtc";

impl Dice {
    pub(crate) fn new(seed: u64) -> Dice {
        Dice {
            state: seed.wrapping_mul(0x9E37_79B9_7F4A_7C15),
        }
    }

    fn next(&mut self) -> u64 {
        self.state = self
            .state
            .wrapping_mul(6_364_136_223_846_793_005)
            .wrapping_add(1_442_695_040_888_963_407);
        self.state >> 33
    }

    /// A number below this one; 0 below 0.
    pub(crate) fn below(&mut self, count: usize) -> usize {
        (self.next() as usize).checked_rem(count).unwrap_or(0)
    }

    fn letter(&mut self, letters: &[u8]) -> u8 {
        letters.get(self.below(letters.len())).copied().unwrap_or(0)
    }

    /// Whether one of so many chances comes.
    fn once_in(&mut self, count: usize) -> bool {
        self.below(count) == 0
    }
}

impl Say {
    /// The reply. A value or an error line names its leg.
    fn reply(self, rt: &(impl AllocGlobal + Abort), leg: usize) -> Option<Reply> {
        let text = (leg as u64).to_be_bytes();
        match self {
            Say::Hit(cas) => Some(Reply::Hit {
                flags: 1,
                cas,
                body: shared(rt, &text),
            }),
            Say::Fault => Some(Reply::Fault(bytes(rt, &text))),
            Say::Short(_) => None,
        }
    }

    /// The same, as the core takes it.
    pub(crate) fn parts(self, rt: &(impl AllocGlobal + Abort), leg: usize) -> Parts {
        if let Say::Short(reply) = self {
            return Parts::fixed(reply);
        }
        let reply = self.reply(rt, leg).expect(rt, "a reply");
        Parts::new(rt.alloc(), reply).expect(rt, "memory")
    }

    /// That it was done, or found.
    fn done(op: Op) -> Say {
        match op {
            Op::Get => Say::Hit(None),
            Op::Gets => Say::Hit(Some(5)),
            Op::Delete => Say::Short(FixedReply::Deleted),
            Op::Touch => Say::Short(FixedReply::Touched),
            Op::Incr | Op::Decr => Say::Short(FixedReply::Number(6)),
            _ => Say::Short(FixedReply::Stored),
        }
    }

    /// That it wasn't.
    fn not_done(op: Op) -> Say {
        match op {
            Op::Get | Op::Gets => Say::Short(FixedReply::Miss),
            Op::Delete | Op::Touch | Op::Incr | Op::Decr => Say::Short(FixedReply::NotFound),
            _ => Say::Short(FixedReply::NotStored),
        }
    }

    /// A reply to a leg of the operation; one that no server gives to it, now and then.
    fn drawn(dice: &mut Dice, op: Op) -> Say {
        match dice.letter(SAYINGS) {
            b'y' => Say::done(op),
            b'n' => Say::not_done(op),
            b'h' => Say::Hit(None),
            b'g' => Say::Hit(Some(7)),
            b'm' => Say::Short(FixedReply::Miss),
            b's' => Say::Short(FixedReply::Stored),
            b'x' => Say::Short(FixedReply::Exists),
            b'e' => Say::Short(FixedReply::ErrorRoute),
            b'0' => Say::Short(FixedReply::NotFound),
            b'd' => Say::Short(FixedReply::Deleted),
            b't' => Say::Short(FixedReply::NotStored),
            b'c' => Say::Short(FixedReply::Number(7)),
            _ => Say::Fault,
        }
    }
}

fn drawn_op(dice: &mut Dice) -> Op {
    match dice.letter(OPS) {
        b'd' => Op::Delete,
        b'g' => Op::Get,
        b'x' => Op::Gets,
        b'i' => Op::Incr,
        _ => Op::Set,
    }
}

/// The number of a leg at one of these stages, or of any leg, or of none.
fn drawn_leg(dice: &mut Dice, model: &Model<'_>, stages: &[Stage]) -> usize {
    let count = model.legs.len();
    let start = dice.below(count.saturating_add(1));
    if dice.once_in(10) {
        return start;
    }
    match model.first_leg(start, None, stages) {
        Some(leg) => leg,
        None => model.first_leg(0, None, stages).unwrap_or(start),
    }
}

/// The server of a leg at one of these stages, or of any leg, or any server, or none.
fn drawn_server(dice: &mut Dice, model: &Model<'_>, stages: &[Stage]) -> ServerId {
    let leg = drawn_leg(dice, model, stages);
    match model.legs.get(leg) {
        Some(leg) => leg.launch.server,
        None => ServerId(u32::try_from(dice.below(7)).unwrap_or(0)),
    }
}

fn drawn_reply(dice: &mut Dice, model: &Model<'_>) -> Deed {
    let leg = drawn_leg(dice, model, IN_FLIGHT);
    let op = match model.legs.get(leg) {
        Some(leg) => leg.launch.op,
        None => Op::Get,
    };
    Deed::Answered(leg, Say::drawn(dice, op))
}

/// A moment up to 120 seconds before the last one, or up to 400 after it; the eras begin at 1000 seconds.
fn drawn_moment(dice: &mut Dice, model: &Model<'_>) -> u64 {
    let now = model.moment.0;
    if dice.once_in(4) {
        return now.saturating_sub(dice.below(120) as u64);
    }
    if now < 800 {
        return now.saturating_add(800);
    }
    now.saturating_add(dice.below(150) as u64)
}

/// A call that wasn't taken, or any, or none.
fn drawn_call(dice: &mut Dice, model: &Model<'_>) -> usize {
    let start = dice.below(model.calls.len().saturating_add(1));
    for (number, call) in model.calls.iter().enumerate() {
        if number >= start && !call.taken {
            return number;
        }
    }
    start
}

/// The next event, over what the model has.
pub(crate) fn drawn(dice: &mut Dice, model: &Model<'_>, calm: bool) -> Deed {
    let letters = if calm { CALM } else { BUSY };
    match dice.letter(letters) {
        b'b' => Deed::Begin(drawn_op(dice), dice.below(model.ground.keys.len())),
        b'n' => Deed::Next(drawn_server(dice, model, &[Stage::Waiting])),
        b'a' => drawn_reply(dice, model),
        b'l' => Deed::Lost(drawn_leg(dice, model, IN_FLIGHT)),
        b'L' => Deed::LostToo(drawn_leg(dice, model, IN_FLIGHT)),
        b's' => Deed::Spooled(
            drawn_leg(dice, model, &[Stage::Held, Stage::Refused]),
            !dice.once_in(8),
        ),
        b'f' => Deed::SpoolRefused(drawn_leg(dice, model, &[Stage::Held, Stage::Refused])),
        b'r' => Deed::Replay(drawn_server(dice, model, &[Stage::Spooled])),
        b'm' => Deed::Mark(drawn_server(dice, model, &[Stage::Waiting])),
        b'u' => Deed::Unmark(drawn_server(dice, model, &[Stage::Waiting])),
        b'c' => Deed::Clock(drawn_moment(dice, model)),
        b'T' => Deed::Turn,
        _ => Deed::Take(drawn_call(dice, model)),
    }
}
