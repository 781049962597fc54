//! What names a handle.

use serde_json::Value;

/// What names a handle: a value, a part of a text, or one server of the pool of a name.
#[derive(Clone, Copy)]
pub(crate) enum Named<'a> {
    Value(&'a Value),
    Text(&'a str),
    Server(&'a str, usize),
}
