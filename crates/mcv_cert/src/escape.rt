//! Words of any bytes in a text of plain ones.

ghost use Rattle.std.specs.Prelude.{◌≡◌, ◌++◌, ◌<◌, ℕ, List, All, IfOk, IfSome, IsSomeAnd, OnOk, Some, length};
ghost use Rattle.std.specs.Option.{option_map};
ghost use Rattle.mcv_cert.specs.Escape.{escaped, escaped_byte, hex_digit};

use std::alloc::{AllocError, Global};

/// The upper case hexadecimal digit of a number below 16.
fn hex_digit(number: u8) -> u8
    requires { number < 16 }
    ensures { result ≡ hex_digit number }
{
    if number < 10 {
        b'0' + number
    } else {
        b'A' - 10 + number
    }
}

fn push_byte(text: &mut Vec<u8>, byte: u8) -> Result<(), AllocError>
    ensures { OnOk result (text.new.items ≡ text.old.items ++ escaped_byte byte) }
{
    if 33 <= byte && byte <= 126 && byte != b'%' {
        Ok(text.push(byte)?)
    } else {
        text.extend_from_slice(&[b'%', hex_digit(byte / 16), hex_digit(byte % 16)])
    }
}

/// Adds the word with its other bytes than plain ones escaped. On an error it isn't said what is there.
pub fn push_escaped(text: &mut Vec<u8>, word: &[u8]) -> Result<(), AllocError>
    ensures { OnOk result (text.new.items ≡ text.old.items ++ escaped word.now) }
{
    for byte in word {
        push_byte(text, *byte)?;
    }
    Ok(())
}

/// The number of a hexadecimal digit.
fn hex_value(byte: u8) -> Option<u8>
    ensures value { (d : ℕ) → d < 16 → byte ≡ hex_digit d → result ≡ Some d }
    ensures small { IfSome result (λ d. d < 16) }
{
    match byte {
        b'0'..=b'9' => Some(byte - b'0'),
        b'A'..=b'F' => Some(byte - b'A' + 10),
        _ => None,
    }
}

/// The byte that an escaped word begins with, and what follows. Another text may give any.
fn next_byte(text: &[u8]) -> Option<(u8, &[u8])>
    ensures exact { (b : ℕ) (later : List ℕ) → b < 256 → text.now ≡ escaped_byte b ++ later → IsSomeAnd result (λ x. (x.0 ≡ b) × (x.1.now ≡ later)) }
    ensures shorter { IfSome result (λ x. length x.1.now < length text.now) }
{
    let (first, later) = text.split_first()?;
    if *first != b'%' {
        return Some((*first, later));
    }
    let (high, later) = later.split_first()?;
    let (low, later) = later.split_first()?;
    Some((hex_value(*high)? * 16 + hex_value(*low)?, later))
}

/// The word that was escaped so. Another text may give any.
pub fn unescaped(alloc: Global, text: &[u8]) -> Result<Option<Vec<u8>>, AllocError>
    ensures { (w : List ℕ) → All (λ b. b < 256) w → text.now ≡ escaped w → IfOk result (λ o. option_map (λ v. v.items) o ≡ Some w) }
{
    let mut word = Vec::new(alloc);
    let mut rest = text;
    while !rest.is_empty() {
        let Some((byte, later)) = next_byte(rest) else {
            return Ok(None);
        };
        word.push(byte)?;
        rest = later;
    }
    Ok(Some(word))
}
