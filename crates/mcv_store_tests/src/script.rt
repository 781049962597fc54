//! Scripts: a line is a call, with up to two words for its arguments, and what it gives, as `next 1 = Ok(LegId(3))`.

use std::fmt::Debug;
use std::process::Abort;

#[derive(Clone, Copy)]
pub(crate) struct Line<'a> {
    text: &'a str,
    pub(crate) word: &'a str,
    pub(crate) first: &'a str,
    pub(crate) second: &'a str,
    wanted: &'a str,
}

/// The parts of a line. Arguments that it hasn't are 0.
pub(crate) fn line_of<'a>(rt: &impl Abort, text: &'a str) -> Line<'a> {
    let (call, wanted) = text.split_once(" = ").expect(rt, "an answer");
    let (word, more) = call.split_once(' ').unwrap_or((call, "0"));
    let (first, second) = more.split_once(' ').unwrap_or((more, "0"));
    Line {
        text,
        word,
        first,
        second,
        wanted,
    }
}

/// The call gave what the line has.
pub(crate) fn check(rt: &impl Abort, line: &Line<'_>, found: &str) {
    assert!(rt; found == line.wanted, "{}, not {found}", line.text);
}

pub(crate) fn number_of(rt: &impl Abort, word: &str) -> u64 {
    word.parse::<u64>().expect(rt, word)
}

pub(crate) fn shown<T: Debug + Drop>(rt: &(impl AllocGlobal + Abort), value: T) -> String {
    format!(in rt.alloc(); "{value:?}").expect(rt, "memory")
}
