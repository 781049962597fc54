//! Texts between quotes.

ghost use Rattle.std.specs.Prelude.{◌≡◌, ◌<◌, ◌++◌, OnOk};
ghost use Rattle.mcv_spans.specs.Quoted.{escaped_byte, hex_digit, quoted};

use memchr::memchr;
use serde_json::Value;
use std::alloc::{AllocError, Global};
use std::str::from_utf8;

/// The length of a text between quotes that the bytes begin with, its quotes among them; None where it doesn't end.
pub fn quoted_len(text: &[u8]) -> Option<usize> {
    let mut is_escaped = false;
    for (place, byte) in text.iter().enumerate() {
        if is_escaped {
            is_escaped = false;
        } else if *byte == b'\\' {
            is_escaped = true;
        } else if *byte == b'"' && place > 0 {
            return Some(place + 1);
        }
    }
    None
}

/// The text that stands between these quotes, without escapes; None where it is no text.
pub fn unquoted(alloc: Global, quoted: &[u8]) -> Result<Option<String>, AllocError> {
    if memchr(b'\\', quoted).is_some() {
        return escaped_text(alloc, quoted);
    }
    let [b'"', body @ .., b'"'] = quoted else {
        return Ok(None);
    };
    match from_utf8(body) {
        Ok(text) => Ok(Some(String::from_str(alloc, text)?)),
        Err(_) => Ok(None),
    }
}

/// The same of a text with escapes.
fn escaped_text(alloc: Global, quoted: &[u8]) -> Result<Option<String>, AllocError> {
    match Value::from_slice(alloc, quoted) {
        Ok(value) => match value.as_str() {
            Some(text) => Ok(Some(String::from_str(alloc, text)?)),
            None => Ok(None),
        },
        Err(fault) => {
            if fault.is_memory() {
                return Err(AllocError);
            }
            Ok(None)
        }
    }
}

/// Adds a text between quotes, with the escapes that it needs.
pub fn push_quoted(text: &mut Vec<u8>, body: &[u8]) -> Result<(), AllocError>
    ensures { OnOk result (text.new.items ≡ text.old.items ++ quoted body.now) }
{
    text.push(b'"')?;
    for byte in body {
        push_escaped(text, *byte)?;
    }
    text.push(b'"')?;
    Ok(())
}

/// Adds a byte of a text between quotes.
fn push_escaped(text: &mut Vec<u8>, byte: u8) -> Result<(), AllocError>
    ensures { OnOk result (text.new.items ≡ text.old.items ++ escaped_byte byte) }
{
    match byte {
        b'"' => text.extend_from_slice(b"\\\"")?,
        b'\\' => text.extend_from_slice(b"\\\\")?,
        0..=31 => {
            text.extend_from_slice(b"\\u00")?;
            text.push(hex_digit(byte / 16))?;
            text.push(hex_digit(byte % 16))?;
        }
        _ => text.push(byte)?,
    }
    Ok(())
}

fn hex_digit(number: u8) -> u8
    requires { number < 16 }
    ensures { result ≡ hex_digit number }
{
    if number < 10 {
        b'0' + number
    } else {
        b'a' + (number - 10)
    }
}
