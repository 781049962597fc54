//! What an operator is told.

use mcv_net::Notice;
use mcv_spool::SpoolFault;
use mcv_watch::Shortage;
use std::alloc::Global;
use std::process::Abort;

fn check_notice(rt: &impl Abort, alloc: Global, notice: Notice<'_>, line: &str) {
    let shown = format!(in alloc; "{notice}").expect(rt, "memory");
    assert!(rt; shown.as_str() == line, "{shown}");
}

#[test]
fn notices_of_servers_and_the_spool_are_lines(rt: HostRuntime) {
    let alloc = rt.alloc();
    check_notice(
        &rt,
        alloc,
        Notice::Marked("a:1"),
        "mcv: server a:1 is marked",
    );
    check_notice(
        &rt,
        alloc,
        Notice::Unmarked("a:1"),
        "mcv: server a:1 answers again",
    );
    check_notice(
        &rt,
        alloc,
        Notice::Refusing(SpoolFault::Full),
        "mcv: the spool refuses records: the spool is full",
    );
    check_notice(
        &rt,
        alloc,
        Notice::Taking,
        "mcv: the spool takes records again",
    );
    check_notice(
        &rt,
        alloc,
        Notice::Full(Shortage::Legs, 1000),
        "mcv: too many legs wait: 1000 refused",
    );
    check_notice(
        &rt,
        alloc,
        Notice::Full(Shortage::Chapter, 1),
        "mcv: the chapter is full: 1 refused",
    );
    check_notice(&rt, alloc, Notice::Turned, "mcv: the chapter begins again");
    check_notice(
        &rt,
        alloc,
        Notice::Unlimited,
        "mcv: no --server-timeout: a server that never answers will stop all clients",
    );
}

#[test]
fn notices_of_clients_and_of_the_end_are_lines(rt: HostRuntime) {
    let alloc = rt.alloc();
    check_notice(
        &rt,
        alloc,
        Notice::Crowded(2000),
        "mcv: too many clients: 2000 refused",
    );
    check_notice(&rt, alloc, Notice::Unserved, "mcv: no memory for a session");
    check_notice(&rt, alloc, Notice::Deaf, "mcv: clients can't be accepted");
    check_notice(
        &rt,
        alloc,
        Notice::Hearing,
        "mcv: clients are accepted again",
    );
    check_notice(&rt, alloc, Notice::More(3), "mcv: 3 lines more in a second");
    check_notice(
        &rt,
        alloc,
        Notice::Draining(9),
        "mcv: a drain began: 9 seconds",
    );
    check_notice(&rt, alloc, Notice::Drained(0), "mcv: a drain ended");
    check_notice(
        &rt,
        alloc,
        Notice::Drained(2),
        "mcv: a drain ended: 2 legs left",
    );
}
