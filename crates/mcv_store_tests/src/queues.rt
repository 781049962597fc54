//! Legs and marks of two servers, by scripts.

use crate::script::{Line, check, line_of, number_of};
use mcv_base::ServerId;
use mcv_queues::{Marks, Queues};
use std::process::Abort;

mod legs;
mod marks;

/// The server of this number.
fn server(number: u64) -> ServerId {
    ServerId(u32::try_from(number).unwrap_or(u32::MAX))
}

/// Plays a script on the queues and the marks of two servers.
fn play(rt: &(impl AllocGlobal + Abort), script: &str) {
    let mut queues = Queues::new(rt.alloc(), 2).expect(rt, "memory");
    let mut marks = Marks::new(rt.alloc(), 2).expect(rt, "memory");
    for text in script.lines() {
        play_line(rt, &mut queues, &mut marks, &line_of(rt, text));
    }
}

fn play_line(
    rt: &(impl AllocGlobal + Abort),
    queues: &mut Queues<u64>,
    marks: &mut Marks,
    line: &Line<'_>,
) {
    let number = number_of(rt, line.first);
    let found = match marks::answer(rt, marks, line.word, server(number)) {
        Some(found) => found,
        None => legs::answer(rt, queues, line.word, number, number_of(rt, line.second)),
    };
    check(rt, line, found.as_str());
}
