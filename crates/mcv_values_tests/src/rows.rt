//! Rows of tables as bytes: `~` is CR LF and `^` a LF alone.

use std::process::Abort;
use std::str::from_utf8;

/// Adds bytes.
pub fn push(rt: &impl Abort, text: &mut Vec<u8>, bytes: &[u8]) {
    text.extend_from_slice(bytes).expect(rt, "memory");
}

/// Adds the bytes that a byte of a row means.
pub fn push_meant(rt: &impl Abort, bytes: &mut Vec<u8>, byte: u8) {
    match byte {
        b'~' => push(rt, bytes, b"\r\n"),
        b'^' => push(rt, bytes, b"\n"),
        other => push(rt, bytes, &[other]),
    }
}

/// The bytes that a row of a table means.
pub fn unfolded(rt: &(impl AllocGlobal + Abort), row: &str) -> Vec<u8> {
    let mut bytes = Vec::new(rt.alloc());
    for byte in row.as_bytes() {
        push_meant(rt, &mut bytes, *byte);
    }
    bytes
}

/// The bytes that are found are those that a row wants.
pub fn check_bytes(rt: &impl Abort, row: &str, found: &[u8], wanted: &[u8]) {
    let shown = from_utf8(found).unwrap_or("no text");
    assert!(rt; found == wanted, "{row}\n{shown}");
}

/// What is wanted is so.
pub fn check(rt: &impl Abort, is_so: bool, what: &str) {
    assert!(rt; is_so, "{what}");
}
