//! Pointers, step by step.

ghost use Rattle.std.specs.Prelude.{◌≡◌, ◌++◌, IfNone, IfOk, OnOk, codes, decimal, option_map, string_bytes};
ghost use Rattle.std.specs.List.{flat_map};
ghost use Rattle.serde_json.specs.View.{view};
ghost use Rattle.mcv_places.specs.Pointer.{item_pointer, key_pointer, pointer_byte};
ghost use Rattle.mcv_places.specs.Site.{item_under, under};

use itoa::Buffer;
use serde_json::Value;
use std::alloc::AllocError;

/// Adds the step to the member of a key.
pub(crate) fn push_key(pointer: &mut Vec<u8>, key: &str) -> Result<(), AllocError>
    ensures { OnOk result (pointer.new.items ≡ key_pointer pointer.old.items key.now) }
{
    pointer.extend_from_slice(b"/")?;
    push_key_bytes(pointer, key.as_bytes())
}

fn push_key_bytes(pointer: &mut Vec<u8>, key: &[u8]) -> Result<(), AllocError>
    ensures { OnOk result (pointer.new.items ≡ pointer.old.items ++ flat_map pointer_byte key.now) }
{
    for byte in key {
        push_key_byte(pointer, *byte)?;
    }
    Ok(())
}

fn push_key_byte(pointer: &mut Vec<u8>, byte: u8) -> Result<(), AllocError>
    ensures { OnOk result (pointer.new.items ≡ pointer.old.items ++ pointer_byte byte) }
{
    match byte {
        b'~' => pointer.extend_from_slice(b"~0"),
        b'/' => pointer.extend_from_slice(b"~1"),
        _ => pointer.extend_from_slice(&[byte]),
    }
}

/// Adds the step to a value of a list.
pub(crate) fn push_item(pointer: &mut Vec<u8>, number: usize) -> Result<(), AllocError>
    ensures { OnOk result (pointer.new.items ≡ item_pointer pointer.old.items number) }
{
    let mut buffer = Buffer::new();
    pointer.extend_from_slice(b"/")?;
    pointer.extend_from_slice(buffer.format(number).as_bytes())
}

/// The member of a key, to which the pointer goes; where there is none, the pointer stays.
pub(crate) fn under<'a>(
    pointer: &mut Vec<u8>,
    value: &'a Value,
    key: &str,
) -> Result<Option<&'a Value>, AllocError>
    ensures stays { IfOk result (λ found. IfNone found (pointer.new.items ≡ pointer.old.items)) }
    ensures found { IfOk result (λ found. option_map (λ v. (pointer.new.items, view v.now)) found ≡ under key.now (pointer.old.items, view value.now)) }
{
    let Some(found) = value.get(key) else {
        return Ok(None);
    };
    push_key(pointer, key)?;
    Ok(Some(found))
}

/// A value of a list, to which the pointer goes; where there is none, the pointer stays.
pub(crate) fn item_under<'a>(
    pointer: &mut Vec<u8>,
    value: &'a Value,
    number: usize,
) -> Result<Option<&'a Value>, AllocError>
    ensures { IfOk result (λ found. option_map (λ v. (pointer.new.items, view v.now)) found ≡ item_under number (pointer.old.items, view value.now)) }
{
    let Some(found) = value.get(number) else {
        return Ok(None);
    };
    push_item(pointer, number)?;
    Ok(Some(found))
}
