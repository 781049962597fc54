//! The texts that clients are answered.

ghost use Rattle.std.specs.Prelude.{◌≡◌, ◌++◌, IfOk, OnOk, map, codes, decimal, length};
ghost use Rattle.std.specs.List.{find, flat_map};
ghost use Rattle.std.specs.Option.{option_map};
ghost use Rattle.mcv_base.specs.Reply.{part_value, reply_value, fixed_value};
ghost use Rattle.mcv_text.specs.Answer.{ask_text, cas_text, hit_text, hits_text, is_fault, line_end, reply_line, reply_text};
ghost use Rattle.mcv_text.specs.Request.{request_value};

use itoa::Buffer;
use mcv_base::{Ask, FixedReply, Op, Outcome, Part, Reply, Request};
use std::alloc::{AllocError, Global};

/// A number is written into the buffer.
fn fixed_line(reply: FixedReply, buffer: &mut Buffer) -> &[u8]
    ensures { result.now ≡ reply_line (fixed_value reply) }
{
    match reply {
        FixedReply::Miss => b"END",
        FixedReply::Stored => b"STORED",
        FixedReply::NotStored => b"NOT_STORED",
        FixedReply::Exists => b"EXISTS",
        FixedReply::NotFound => b"NOT_FOUND",
        FixedReply::Deleted => b"DELETED",
        FixedReply::Touched => b"TOUCHED",
        FixedReply::Number(value) => buffer.format(value).as_bytes(),
        FixedReply::ErrorRoute => b"SERVER_ERROR error route",
        FixedReply::Lost => b"SERVER_ERROR destination failed",
    }
}

fn owned_line<'a>(reply: &'a Reply, buffer: &'a mut Buffer) -> &'a [u8]
    ensures { result.now ≡ reply_line (reply_value reply.now) }
{
    match reply {
        Reply::Hit { .. } | Reply::Miss => b"END",
        Reply::Stored => b"STORED",
        Reply::NotStored => b"NOT_STORED",
        Reply::Exists => b"EXISTS",
        Reply::NotFound => b"NOT_FOUND",
        Reply::Deleted => b"DELETED",
        Reply::Touched => b"TOUCHED",
        Reply::Number(value) => buffer.format(*value).as_bytes(),
        Reply::Fault(line) => line.as_slice(),
    }
}

/// The line of a reply that has no value, without its end. A number is written into the buffer.
fn line_of<'a>(part: &'a Part, buffer: &'a mut Buffer) -> &'a [u8]
    ensures { result.now ≡ reply_line (part_value part.now) }
{
    match part {
        Part::Fixed(reply) => fixed_line(*reply, buffer),
        Part::Owned(reply) => owned_line(reply, buffer),
    }
}

fn push_line(text: &mut Vec<u8>, line: &[u8]) -> Result<(), AllocError>
    ensures { OnOk result (text.new.items ≡ text.old.items ++ line.now ++ line_end) }
{
    text.extend_from_slice(line)?;
    text.extend_from_slice(b"\r\n")?;
    Ok(())
}

fn push_reply(text: &mut Vec<u8>, part: &Part) -> Result<(), AllocError>
    ensures { OnOk result (text.new.items ≡ text.old.items ++ reply_line (part_value part.now) ++ line_end) }
{
    let mut buffer = Buffer::new();
    push_line(text, line_of(part, &mut buffer))
}

fn push_number(text: &mut Vec<u8>, number: u64) -> Result<(), AllocError>
    ensures { OnOk result (text.new.items ≡ text.old.items ++ codes " " ++ decimal number) }
{
    let mut buffer = Buffer::new();
    text.extend_from_slice(b" ")?;
    text.extend_from_slice(buffer.format(number).as_bytes())?;
    Ok(())
}

fn push_cas(text: &mut Vec<u8>, op: Op, cas: Option<u64>) -> Result<(), AllocError>
    ensures { OnOk result (text.new.items ≡ text.old.items ++ cas_text op cas) }
{
    match (op, cas) {
        (Op::Gets, Some(cas)) => push_number(text, cas),
        _ => Ok(()),
    }
}

/// What the reply for one key adds to the answer.
fn push_hit(text: &mut Vec<u8>, op: Op, key: &[u8], part: &Part) -> Result<(), AllocError>
    ensures { OnOk result (text.new.items ≡ text.old.items ++ hit_text op key.now (part_value part.now)) }
{
    let Part::Owned(reply) = part else {
        return Ok(());
    };
    let Reply::Hit { flags, cas, body } = &**reply else {
        return Ok(());
    };
    text.extend_from_slice(b"VALUE ")?;
    text.extend_from_slice(key)?;
    push_number(text, u64::from(*flags))?;
    push_number(text, body.len() as u64)?;
    push_cas(text, op, *cas)?;
    text.extend_from_slice(b"\r\n")?;
    push_line(text, body.as_slice())
}

fn push_hits(text: &mut Vec<u8>, op: Op, keys: &[Vec<u8>], parts: &[Part]) -> Result<(), AllocError>
    ensures { OnOk result (text.new.items ≡ text.old.items ++ hits_text op (map (λ key. key.items) keys.now) (map part_value parts.now)) }
{
    let mut left = keys;
    for part in parts {
        let Some((key, more)) = left.split_first() else {
            return Ok(());
        };
        push_hit(text, op, key.as_slice(), part)?;
        left = more;
    }
    Ok(())
}

/// The first reply that is an error.
fn first_fault(parts: &[Part]) -> Option<&Part>
    ensures { option_map (λ part. part_value part.now) result ≡ find is_fault (map part_value parts.now) }
{
    for part in parts {
        if let Outcome::Error = part.outcome() {
            return Some(part);
        }
    }
    None
}

fn push_lines(text: &mut Vec<u8>, parts: &[Part]) -> Result<(), AllocError>
    ensures { OnOk result (text.new.items ≡ text.old.items ++ flat_map (λ reply. reply_line reply ++ line_end) (map part_value parts.now)) }
{
    for part in parts {
        push_reply(text, part)?;
    }
    Ok(())
}

fn push_answer(text: &mut Vec<u8>, ask: &Ask, parts: &[Part]) -> Result<(), AllocError>
    ensures { OnOk result (text.new.items ≡ text.old.items ++ ask_text ask.now.op (map (λ key. key.items) ask.now.keys.items) (map part_value parts.now)) }
{
    if !ask.op.is_reading() {
        return push_lines(text, parts);
    }
    match first_fault(parts) {
        Some(part) => push_reply(text, part),
        None => {
            push_hits(text, ask.op, ask.keys.as_slice(), parts)?;
            push_line(text, b"END")
        }
    }
}

/// The text that answers a request: `parts` are its replies, in the order of its keys.
///
/// get and gets are answered with all hits under the client's own key words and `END`, or with
/// the first error alone; the others with the line of their reply; quit with nothing. Whether
/// the client wants no reply isn't looked at.
pub fn reply_text(alloc: Global, request: &Request, parts: &[Part]) -> Result<Vec<u8>, AllocError>
    ensures { IfOk result (λ text. text.items ≡ reply_text (request_value request.now) (map part_value parts.now)) }
{
    let mut text = Vec::new(alloc);
    match request {
        Request::Ask(ask) => push_answer(&mut text, ask, parts)?,
        Request::Version => push_line(&mut text, b"VERSION mcv 1")?,
        Request::Quit => (),
    }
    Ok(text)
}
