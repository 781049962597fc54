//! The lines of a certificate.

ghost use Rattle.std.specs.Prelude.{codes, ◌≡◌, ◌++◌, [], map, OnOk};
ghost use Rattle.std.specs.List.{flat_map, join_with_byte};
ghost use Rattle.mcv_base.specs.Position.{position_text};
ghost use Rattle.mcv_cert.specs.Pair.{all, pair_of, reason_of};
ghost use Rattle.mcv_cert.specs.Place.{place_of};
ghost use Rattle.mcv_cert.specs.Text.{era_words, first_text, pair_line, pair_text, reason_words};

use crate::escape::push_escaped;
use crate::pair::{Pair, Reason};
use crate::place::Place;
use mcv_base::{Position, push_number};
use std::alloc::AllocError;

/// Adds the first line of a certificate for this window, without its end.
pub fn push_first(text: &mut Vec<u8>, window: u64) -> Result<(), AllocError>
    ensures { OnOk result (text.new.items ≡ text.old.items ++ first_text window) }
{
    if window == 0 {
        text.extend_from_slice(b"mcv-cert 1")?;
        return Ok(());
    }
    text.extend_from_slice(b"mcv-cert 2 ")?;
    push_number(text, window as usize)?;
    Ok(())
}

/// Adds the positions, a space before each.
fn push_positions(text: &mut Vec<u8>, positions: &[Position]) -> Result<(), AllocError>
    ensures { OnOk result (text.new.items ≡ text.old.items ++ flat_map (λ p. codes " " ++ position_text p) positions.now) }
{
    for position in positions {
        text.extend_from_slice(b" ")?;
        position.push_text(text)?;
    }
    Ok(())
}

fn push_all(text: &mut Vec<u8>, index: usize, legs: &[Position]) -> Result<(), AllocError>
    ensures { OnOk result (text.new.items ≡ text.old.items ++ join_with_byte 32 (reason_words (all index legs.now))) }
{
    text.extend_from_slice(b"all ")?;
    push_number(text, index)?;
    push_positions(text, legs)?;
    Ok(())
}

fn push_reason(text: &mut Vec<u8>, reason: &Reason) -> Result<(), AllocError>
    ensures { OnOk result (text.new.items ≡ text.old.items ++ join_with_byte 32 (reason_words (reason_of reason.now))) }
{
    match reason {
        Reason::Never => text.extend_from_slice(b"never"),
        Reason::Twin(leg) => {
            text.extend_from_slice(b"twin ")?;
            leg.push_text(text)
        }
        Reason::Same(index, leg) => {
            text.extend_from_slice(b"same ")?;
            push_number(text, *index)?;
            text.extend_from_slice(b" ")?;
            leg.push_text(text)
        }
        Reason::All(index, legs) => push_all(text, *index, legs),
    }
}

/// Adds the delete's era, and with a window that of the get.
fn push_eras(text: &mut Vec<u8>, window: u64, place: &Place) -> Result<(), AllocError>
    ensures { OnOk result (text.new.items ≡ text.old.items ++ join_with_byte 32 (era_words window (place_of place.now).spot [])) }
{
    push_number(text, place.era)?;
    if window == 0 {
        return Ok(());
    }
    text.extend_from_slice(b" ")?;
    push_number(text, place.get_era)?;
    Ok(())
}

/// Adds the text of a pair, without the end of its line. On an error part of it may be there.
pub fn push_pair(text: &mut Vec<u8>, window: u64, pair: &Pair) -> Result<(), AllocError>
    ensures { OnOk result (text.new.items ≡ text.old.items ++ pair_text window (pair_of pair.now)) }
{
    push_number(text, pair.place.route)?;
    text.extend_from_slice(b" =")?;
    push_escaped(text, pair.place.class.as_slice())?;
    text.extend_from_slice(b" ")?;
    push_eras(text, window, &pair.place)?;
    text.extend_from_slice(b" ")?;
    pair.place.leaf.push_text(text)?;
    text.extend_from_slice(b" ")?;
    push_reason(text, &pair.reason)?;
    Ok(())
}

/// Adds the lines of pairs. On an error some may be there.
pub fn push_pairs(text: &mut Vec<u8>, window: u64, pairs: &[Pair]) -> Result<(), AllocError>
    ensures { OnOk result (text.new.items ≡ text.old.items ++ flat_map (pair_line window) (map pair_of pairs.now)) }
{
    for pair in pairs {
        push_pair(text, window, pair)?;
        text.extend_from_slice(b"\n")?;
    }
    Ok(())
}
