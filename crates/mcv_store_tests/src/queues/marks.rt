//! Failures and marks of two servers.

use super::play;
use crate::script::shown;
use mcv_base::ServerId;
use mcv_queues::Marks;
use std::process::Abort;

/// What a call on a server's marks gives; None where the word is none of these.
pub(super) fn answer(
    rt: &(impl AllocGlobal + Abort),
    marks: &mut Marks,
    word: &str,
    server: ServerId,
) -> Option<String> {
    Some(match word {
        "lost" => shown(rt, marks.lost(server)),
        "answered" => shown(rt, marks.answered(server)),
        "mark" => shown(rt, marks.mark(server)),
        "unmark" => shown(rt, marks.unmark(server)),
        "marked" => shown(rt, marks.get(server).marked),
        "failures" => shown(rt, marks.get(server).failures),
        _ => return None,
    })
}

const MARKED: &str = "\
lost 1 = ()
lost 1 = ()
mark 1 = ()
marked 1 = false
answered 1 = ()
lost 1 = ()
lost 1 = ()
mark 1 = ()
marked 1 = false
lost 1 = ()
mark 1 = ()
marked 1 = true
failures 1 = 3
marked 0 = false
answered 1 = ()
marked 1 = true
unmark 1 = ()
marked 1 = false
lost 2 = ()
failures 2 = 0";

#[test]
fn three_failures_in_a_row_mark_a_server(rt: HostRuntime) {
    play(&rt, MARKED);
}
