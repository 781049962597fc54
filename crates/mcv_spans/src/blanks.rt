//! What may stand between the values of a text: white space and comments.

use memchr::{memchr, memmem};

/// What comes behind the white space and the comments that a text begins with. A comment that doesn't end goes on to
/// the end of the text.
pub fn behind_blanks(text: &[u8]) -> &[u8] {
    let mut rest = text;
    for _ in 0..text.len() {
        match rest {
            [b' ' | b'\t' | b'\n' | b'\r', behind @ ..] => rest = behind,
            [b'/', b'*', behind @ ..] => rest = behind_block(behind),
            [b'/', b'/', behind @ ..] => rest = behind_line(behind),
            _ => return rest,
        }
    }
    rest
}

/// What comes behind the `*/` of a comment; `body` is all that comes behind its `/*`.
fn behind_block(body: &[u8]) -> &[u8] {
    match memmem::find(body, b"*/") {
        Some(end) => &body[end + 2..],
        None => &body[body.len()..],
    }
}

/// What comes behind a comment up to the end of its line; `body` is all that comes behind its `//`.
fn behind_line(body: &[u8]) -> &[u8] {
    match memchr(b'\n', body) {
        Some(end) => &body[end..],
        None => &body[body.len()..],
    }
}
