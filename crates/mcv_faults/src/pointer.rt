//! The JSON pointer of a fault's path.

ghost use Rattle.std.specs.Prelude.{◌≡◌, ◌≤◌, ◌++◌, ◌∷◌, ◌+◌, ◌*◌, ◌%◌, IfOk, OnOk, length};
ghost use Rattle.mcv_faults.specs.FaultPointer.{digit_value, fault_pointer, is_escape, plain_byte, steps_pointer};
ghost use Rattle.mcv_places.specs.Pointer.{pointer_byte};

use std::alloc::{AllocError, Global};

/// The JSON pointer of the value at a fault's path.
pub fn fault_pointer(alloc: Global, path: &[u8]) -> Result<Vec<u8>, AllocError>
    ensures { IfOk result (λ pointer. pointer.items ≡ fault_pointer path.now) }
{
    let mut pointer = Vec::new(alloc);
    if path == b".".as_slice() {
        return Ok(pointer);
    }
    push_steps(&mut pointer, path)?;
    Ok(pointer)
}

/// Adds the steps of a path.
fn push_steps(pointer: &mut Vec<u8>, path: &[u8]) -> Result<(), AllocError>
    ensures { OnOk result (pointer.new.items ≡ pointer.old.items ++ steps_pointer path.now) }
{
    let mut rest = path;
    while let [byte, behind @ ..] = rest {
        rest = push_step(pointer, *byte, behind)?;
    }
    Ok(())
}

/// Whether a byte of a path begins an escape.
pub(crate) fn is_escape(byte: u8, behind: &[u8]) -> bool
    ensures { result ≡ is_escape byte behind.now }
{
    byte == b'%' && behind.len() > 1
}

/// Adds what a byte of a path says, with the two behind it where it begins an escape; the answer is what comes behind
/// these.
fn push_step<'t>(pointer: &mut Vec<u8>, byte: u8, behind: &'t [u8]) -> Result<&'t [u8], AllocError>
    ensures said { IfOk result (λ rest. pointer.new.items ++ steps_pointer rest.now ≡ pointer.old.items ++ steps_pointer (byte ∷ behind.now)) }
    ensures shorter { IfOk result (λ rest. length rest.now ≤ length behind.now) }
{
    if is_escape(byte, behind) {
        push_key_byte(pointer, escaped_byte(behind[0], behind[1]))?;
        return Ok(&behind[2..]);
    }
    push_plain_byte(pointer, byte)?;
    Ok(behind)
}

/// The byte that two hexadecimal digits say.
pub(crate) fn escaped_byte(high: u8, low: u8) -> u8
    ensures { result ≡ (digit_value high * 16 + digit_value low) % 256 }
{
    ((digit_value(high) as u16 * 16 + digit_value(low) as u16) % 256) as u8
}

fn digit_value(digit: u8) -> u8
    ensures { result ≡ digit_value digit }
{
    if digit < 58 {
        digit.saturating_sub(48)
    } else {
        digit - 55
    }
}

fn push_key_byte(pointer: &mut Vec<u8>, byte: u8) -> Result<(), AllocError>
    ensures { OnOk result (pointer.new.items ≡ pointer.old.items ++ pointer_byte byte) }
{
    match byte {
        b'~' => pointer.extend_from_slice(b"~0"),
        b'/' => pointer.extend_from_slice(b"~1"),
        _ => pointer.extend_from_slice(&[byte]),
    }
}

fn push_plain_byte(pointer: &mut Vec<u8>, byte: u8) -> Result<(), AllocError>
    ensures { OnOk result (pointer.new.items ≡ pointer.old.items ++ plain_byte byte) }
{
    match byte {
        b'~' => pointer.extend_from_slice(b"~0"),
        _ => pointer.extend_from_slice(&[byte]),
    }
}
