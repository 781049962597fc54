//! The text that one leg sends its server.

ghost use Rattle.std.specs.Prelude.{◌≡◌, ◌++◌, IfOk, OnOk, codes};
ghost use Rattle.mcv_text.specs.Leg.{leg_text, leg_value, more_words, value_block, value_words};

use itoa::{Buffer, Integer};
use mcv_base::{LegRequest, Op};
use std::alloc::{AllocError, Global};

/// More than the bytes of the longest line and the end of a value.
const LINE_ROOM: usize = 352;

fn push_number<I: Integer>(text: &mut Vec<u8>, number: I) -> Result<(), AllocError>
    ensures { OnOk result (text.new.items ≡ text.old.items ++ codes " " ++ I.text number) }
{
    let mut buffer = Buffer::new();
    text.extend_from_slice(b" ")?;
    text.extend_from_slice(buffer.format(number).as_bytes())?;
    Ok(())
}

/// ` <flags> <exptime> <bytes>`
fn push_value_words(text: &mut Vec<u8>, leg: &LegRequest) -> Result<(), AllocError>
    ensures { OnOk result (text.new.items ≡ text.old.items ++ value_words (leg_value leg.now)) }
{
    push_number(text, leg.flags)?;
    push_number(text, leg.exptime)?;
    push_number(text, leg.body.len())
}

/// The words behind the key.
fn push_more_words(text: &mut Vec<u8>, leg: &LegRequest) -> Result<(), AllocError>
    ensures { OnOk result (text.new.items ≡ text.old.items ++ more_words leg.now.op (leg_value leg.now)) }
{
    match leg.op {
        Op::Get | Op::Gets | Op::Delete => Ok(()),
        Op::Set | Op::Add | Op::Replace | Op::Append | Op::Prepend => push_value_words(text, leg),
        Op::Cas => {
            push_value_words(text, leg)?;
            push_number(text, leg.cas.unwrap_or(0))
        }
        Op::Touch => push_number(text, leg.exptime),
        Op::Incr | Op::Decr => push_number(text, leg.delta),
    }
}

/// The value, where the operation has one.
fn push_value(text: &mut Vec<u8>, leg: &LegRequest) -> Result<(), AllocError>
    ensures { OnOk result (text.new.items ≡ text.old.items ++ value_block leg.now.op (leg_value leg.now)) }
{
    match leg.op {
        Op::Get | Op::Gets | Op::Delete | Op::Touch | Op::Incr | Op::Decr => Ok(()),
        Op::Set | Op::Add | Op::Replace | Op::Append | Op::Prepend | Op::Cas => {
            text.extend_from_slice(leg.body.as_slice())?;
            text.extend_from_slice(b"\r\n")?;
            Ok(())
        }
    }
}

/// The bytes that a leg sends: a request of its rest alone, with single spaces, no leading zeros and no `noreply`.
pub fn leg_text(alloc: Global, leg: &LegRequest) -> Result<Vec<u8>, AllocError>
    ensures { IfOk result (λ text. text.items ≡ leg_text (leg_value leg.now)) }
{
    let room = leg.body.len().saturating_add(LINE_ROOM);
    let mut text = Vec::with_capacity(alloc, room)?;
    text.extend_from_slice(leg.op.name().as_bytes())?;
    text.extend_from_slice(b" ")?;
    text.extend_from_slice(leg.rest.as_bytes())?;
    push_more_words(&mut text, leg)?;
    text.extend_from_slice(b"\r\n")?;
    push_value(&mut text, leg)?;
    Ok(text)
}
