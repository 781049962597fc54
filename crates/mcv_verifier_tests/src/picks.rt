//! The legs and reasons that are picked for leaves, as one text.

use crate::built::check_lines;
use mcv_base::{Position, ServerId};
use mcv_cert::Reason;
use mcv_judge::Leg;
use mcv_picks::Picks;
use std::alloc::{AllocError, Global};
use std::test::Fail;

const SEVEN: [ServerId; 1] = [ServerId(7)];

const EIGHT: [ServerId; 1] = [ServerId(8)];

/// Adds where the leg is.
fn push_leg(text: &mut Vec<u8>, leg: Option<&Leg>) -> Result<(), AllocError> {
    match leg {
        Some(leg) => leg.position.push_text(text)?,
        None => text.extend_from_slice(b"none")?,
    }
    Ok(text.push(b' ')?)
}

/// Adds the kind of the reason and the first leg that it names.
fn push_reason(text: &mut Vec<u8>, reason: &Option<Reason>) -> Result<(), AllocError> {
    match reason {
        Some(Reason::Never) => text.extend_from_slice(b"never"),
        Some(Reason::Twin(leg)) => {
            text.extend_from_slice(b"twin ")?;
            leg.push_text(text)
        }
        Some(Reason::Same(_, leg)) => {
            text.extend_from_slice(b"same ")?;
            leg.push_text(text)
        }
        Some(Reason::All(_, legs)) => {
            text.extend_from_slice(b"all")?;
            push_positions(text, legs.as_slice())
        }
        None => text.extend_from_slice(b"none"),
    }
}

fn push_positions(text: &mut Vec<u8>, positions: &[Position]) -> Result<(), AllocError> {
    for position in positions {
        text.push(b' ')?;
        position.push_text(text)?;
    }
    Ok(())
}

/// Adds the reason for a whole leaf.
fn push_whole<'a>(
    alloc: Global,
    text: &mut Vec<u8>,
    picks: &Picks<'a>,
    leaf: &Leg<'a>,
) -> Result<(), AllocError> {
    let reason = picks.whole_reason(alloc, true, leaf)?;
    push_reason(text, &reason)
}

/// Adds the reason for a leaf with the server at index 0.
fn push_at<'a>(
    alloc: Global,
    text: &mut Vec<u8>,
    picks: &Picks<'a>,
    leaf: &Leg<'a>,
    server: ServerId,
) -> Result<(), AllocError> {
    let reason = picks.reason_at(alloc, leaf, 0, server)?;
    push_reason(text, &reason)
}

/// Adds what is picked for a leaf with the server at index 0.
fn push_picks<'a>(
    alloc: Global,
    text: &mut Vec<u8>,
    picks: &Picks<'a>,
    leaf: &Leg<'a>,
    server: ServerId,
) -> Result<(), AllocError> {
    push_leg(text, picks.twin(leaf))?;
    push_leg(text, picks.same(leaf.symbol, server, 0))?;
    push_whole(alloc, text, picks, leaf)?;
    text.push(b' ')?;
    push_at(alloc, text, picks, leaf, server)?;
    Ok(text.push(b'\n')?)
}

/// Adds what is picked for a leaf with the server 8, and for another one with the server 7 and with one that no leg has.
fn push_all<'a>(
    alloc: Global,
    text: &mut Vec<u8>,
    picks: &Picks<'a>,
    leaf: &Leg<'a>,
    other: &Leg<'a>,
) -> Result<(), AllocError> {
    push_picks(alloc, text, picks, leaf, ServerId(8))?;
    push_picks(alloc, text, picks, other, ServerId(7))?;
    push_picks(alloc, text, picks, other, ServerId(9))
}

/// Adds what is picked of these legs for the leaves.
fn push_picked<'a>(
    alloc: Global,
    text: &mut Vec<u8>,
    legs: &'a [Leg<'a>],
    leaf: &Leg<'a>,
    other: &Leg<'a>,
) -> Result<(), AllocError> {
    let picks = Picks::new(alloc, legs)?;
    push_all(alloc, text, &picks, leaf, other)
}

/// Adds what is picked of three legs, the first of which has the server 7 and the others 8, for the last of them and for
/// a leaf with another symbol and the server 7.
fn push_picked_at<'a>(
    alloc: Global,
    text: &mut Vec<u8>,
    place: &'a Position,
    next: &'a Position,
    last: &'a Position,
) -> Result<(), AllocError> {
    let legs = [
        Leg {
            position: place,
            symbol: 1,
            servers: &SEVEN,
        },
        Leg {
            position: next,
            symbol: 1,
            servers: &EIGHT,
        },
        Leg {
            position: last,
            symbol: 1,
            servers: &EIGHT,
        },
    ];
    let other = Leg {
        position: last,
        symbol: 0,
        servers: &SEVEN,
    };
    push_picked(alloc, text, &legs, &legs[2], &other)
}

/// What is picked where the legs are at 0, 1 and 2.
fn picked(alloc: Global) -> Result<Vec<u8>, AllocError> {
    let place = Position::at(alloc, &[0])?;
    let next = Position::at(alloc, &[1])?;
    let last = Position::at(alloc, &[2])?;
    let mut text = Vec::new(alloc);
    push_picked_at(alloc, &mut text, &place, &next, &last)?;
    Ok(text)
}

#[test]
fn the_first_that_holds_is_picked(rt: HostRuntime) -> Result<(), Fail> {
    let expected = "1 1 twin 1 same 1 / none none none all 0 / none none none none";
    check_lines(&rt, rt.alloc(), picked(rt.alloc())?.as_slice(), expected)
}
