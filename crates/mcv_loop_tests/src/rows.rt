//! What clients are answered, and how a loop ends, row by row. Each row says how many calls it makes.

use crate::memory::Asked;
use crate::script::{
    Looping, be_deaf, check_asked, check_closed, check_end, check_told, end, go, rounds, send,
};
use mcv_hubs::{HubNames, Names};
use std::process::Abort;
use std::sync::Wait;
use std::time::Duration;

/// Two clients at once, each of whose requests are answered in their order.
pub(crate) fn two_at_once<F: HubNames, G: Names, R: Wait + Abort>(
    rt: &R,
    looping: &mut Looping<'_, F, G>,
) -> u64 {
    send(rt, looping, 0, b"set a 0 0 1\r\nx\r\nget a\r\nversion\r\n");
    send(rt, looping, 1, b"set b 0 0 1\r\ny\r\nget b\r\nquit\r\n");
    rounds(rt, looping, 12);
    check_told(
        rt,
        looping,
        0,
        b"STORED\r\nVALUE a 0 1\r\nx\r\nEND\r\nVERSION mcv 1\r\n",
    );
    check_told(rt, looping, 1, b"STORED\r\nVALUE b 0 1\r\ny\r\nEND\r\n");
    check_closed(rt, looping, 0, false);
    check_closed(rt, looping, 1, true);
    4
}

/// A get of keys of both hubs is answered in the order of the keys.
pub(crate) fn several_hubs<F: HubNames, G: Names, R: Wait + Abort>(
    rt: &R,
    looping: &mut Looping<'_, F, G>,
) -> u64 {
    send(
        rt,
        looping,
        0,
        b"set a 0 0 1\r\n1\r\nset b 0 0 1\r\n2\r\nset c 0 0 1\r\n3\r\nset d 0 0 1\r\n4\r\n",
    );
    rounds(rt, looping, 16);
    send(rt, looping, 1, b"get d b z a c\r\n");
    rounds(rt, looping, 8);
    check_told(rt, looping, 0, b"STORED\r\nSTORED\r\nSTORED\r\nSTORED\r\n");
    check_told(
        rt,
        looping,
        1,
        b"VALUE d 0 1\r\n4\r\nVALUE b 0 1\r\n2\r\nVALUE a 0 1\r\n1\r\nVALUE c 0 1\r\n3\r\nEND\r\n",
    );
    9
}

/// Requests and replies come in pieces of 1 to 24 bytes.
pub(crate) fn every_cut<F: HubNames, G: Names, R: AllocGlobal + Wait + Abort>(
    rt: &R,
    looping: &mut Looping<'_, F, G>,
) -> u64 {
    let mut wanted = Vec::new(rt.alloc());
    for cut in 1..25 {
        looping.sources().cut_all(cut);
        send(rt, looping, 0, b"set a 0 0 3\r\nabc\r\nget a b\r\n");
        rounds(rt, looping, 80);
        let told = b"STORED\r\nVALUE a 0 3\r\nabc\r\nEND\r\n";
        wanted.extend_from_slice(told).expect(rt, "memory");
    }
    check_told(rt, looping, 0, wanted.as_slice());
    72
}

/// Servers die with legs in flight. Each delete is answered once, when its record is in the spool; and it is sent again, and its record
/// done, when its server is back.
pub(crate) fn server_dies<F: HubNames, G: Names, R: Wait + Abort>(
    rt: &R,
    looping: &mut Looping<'_, F, G>,
) -> u64 {
    send(rt, looping, 0, b"delete a\r\n");
    send(rt, looping, 1, b"delete b\r\n");
    send(rt, looping, 2, b"delete c\r\n");
    rounds(rt, looping, 1);
    looping.sources().set_up(false);
    rounds(rt, looping, 12);
    for client in 0..3 {
        check_told(rt, looping, client, b"NOT_FOUND\r\n");
    }
    looping.sources().set_up(true);
    for _second in 0..6 {
        looping.sources().pass(1_000);
        rounds(rt, looping, 6);
    }
    let finished = looping.sources().finished;
    assert!(rt; finished == 3, "{finished} records are done");
    3
}

/// A server closes an idle connection as a leg is sent over it: a get is sent once more, over a new one.
pub(crate) fn server_closes<F: HubNames, G: Names, R: Wait + Abort>(
    rt: &R,
    looping: &mut Looping<'_, F, G>,
) -> u64 {
    send(rt, looping, 0, b"set a 0 0 1\r\nx\r\nget a\r\n");
    rounds(rt, looping, 8);
    looping.sources().close_stations();
    send(rt, looping, 1, b"get a\r\n");
    rounds(rt, looping, 8);
    check_told(rt, looping, 1, b"VALUE a 0 1\r\nx\r\nEND\r\n");
    3
}

/// A server hangs: past its time a get fails, and isn't sent again; a delete goes to the spool.
pub(crate) fn server_hangs<F: HubNames, G: Names, R: AllocGlobal + Wait + Abort>(
    rt: &R,
    looping: &mut Looping<'_, F, G>,
) -> u64 {
    looping.sources().set_hangs(true);
    send(rt, looping, 0, b"get a\r\n");
    rounds(rt, looping, 4);
    check_told(rt, looping, 0, b"");
    looping.sources().pass(300);
    rounds(rt, looping, 4);
    check_told(rt, looping, 0, b"SERVER_ERROR destination failed\r\n");
    send(rt, looping, 1, b"delete a\r\n");
    rounds(rt, looping, 4);
    looping.sources().pass(300);
    rounds(rt, looping, 4);
    check_told(rt, looping, 1, b"NOT_FOUND\r\n");
    check_asked(rt, looping, "get a\ndelete a\n");
    2
}

/// A client that sends nothing for too long is closed, and another one is served.
pub(crate) fn client_idles<F: HubNames, G: Names, R: Wait + Abort>(
    rt: &R,
    looping: &mut Looping<'_, F, G>,
) -> u64 {
    rounds(rt, looping, 2);
    looping.sources().pass(5_000);
    send(rt, looping, 1, b"get a\r\n");
    rounds(rt, looping, 4);
    looping.sources().pass(6_000);
    rounds(rt, looping, 2);
    check_told(rt, looping, 1, b"END\r\n");
    check_closed(rt, looping, 0, true);
    check_closed(rt, looping, 1, false);
    check_closed(rt, looping, 2, true);
    1
}

/// A client goes in the middle of its request, and another one goes on. What the first one has asked whole is answered before it is
/// closed.
pub(crate) fn client_goes<F: HubNames, G: Names, R: Wait + Abort>(
    rt: &R,
    looping: &mut Looping<'_, F, G>,
) -> u64 {
    send(rt, looping, 0, b"get a b c\r\nget d");
    go(rt, looping, 0);
    send(rt, looping, 1, b"get a\r\n");
    rounds(rt, looping, 12);
    check_told(rt, looping, 0, b"END\r\n");
    check_told(rt, looping, 1, b"END\r\n");
    check_closed(rt, looping, 0, true);
    check_closed(rt, looping, 1, false);
    4
}

/// Two requests that come in one piece are answered in their order, though no server says anything for a while.
pub(crate) fn two_in_one_piece<F: HubNames, G: Names, R: Wait + Abort>(
    rt: &R,
    looping: &mut Looping<'_, F, G>,
) -> u64 {
    send(rt, looping, 1, b"set a 0 0 1\r\n1\r\nset b 0 0 1\r\n2\r\n");
    rounds(rt, looping, 8);
    looping.sources().set_hangs(true);
    send(rt, looping, 0, b"get a\r\nget b\r\n");
    rounds(rt, looping, 8);
    check_told(rt, looping, 0, b"");
    looping.sources().set_hangs(false);
    rounds(rt, looping, 8);
    check_told(
        rt,
        looping,
        0,
        b"VALUE a 0 1\r\n1\r\nEND\r\nVALUE b 0 1\r\n2\r\nEND\r\n",
    );
    4
}

/// A get of 3,000 keys, of which two have values.
pub(crate) fn many_keys<F: HubNames, G: Names, R: AllocGlobal + Wait + Abort>(
    rt: &R,
    looping: &mut Looping<'_, F, G>,
) -> u64 {
    send(
        rt,
        looping,
        0,
        b"set k2999 0 0 1\r\ny\r\nset k7 0 0 1\r\nx\r\n",
    );
    rounds(rt, looping, 8);
    let mut line = String::new(rt.alloc());
    line.push_str("get").expect(rt, "memory");
    for number in 0..3_000 {
        let key = format!(in rt.alloc(); " k{number}").expect(rt, "memory");
        line.push_str(key.as_str()).expect(rt, "memory");
    }
    line.push_str("\r\n").expect(rt, "memory");
    send(rt, looping, 1, line.as_bytes());
    rounds(rt, looping, 200);
    check_told(
        rt,
        looping,
        1,
        b"VALUE k7 0 1\r\nx\r\nVALUE k2999 0 1\r\ny\r\nEND\r\n",
    );
    3_002
}

/// The loop isn't told of a client's bytes: it isn't served, and it is told so.
pub(crate) fn nobody_attended<F: HubNames, G: Names, R: Wait + Abort>(
    rt: &R,
    looping: &mut Looping<'_, F, G>,
) -> u64 {
    looping.sources().is_crowded = true;
    rounds(rt, looping, 2);
    for client in 0..3 {
        check_closed(rt, looping, client, true);
    }
    0
}

/// Servers are away and the spool refuses records: deletes fail, the third failure marks the server, and the fourth delete isn't sent.
/// Once the spool takes records they are written, and once the server is back they are sent again.
pub(crate) fn spool_refuses<F: HubNames, G: Names, R: Wait + Abort>(
    rt: &R,
    looping: &mut Looping<'_, F, G>,
) -> u64 {
    looping.sources().set_up(false);
    looping.sources().refuses = true;
    for _delete in 0..4 {
        send(rt, looping, 0, b"delete a\r\n");
        rounds(rt, looping, 4);
    }
    check_told(
        rt,
        looping,
        0,
        b"SERVER_ERROR destination failed\r\nSERVER_ERROR destination failed\r\nSERVER_ERROR destination failed\r\nSERVER_ERROR destination failed\r\n",
    );
    let pending = looping.sources().pending();
    assert!(rt; pending == 0, "{pending} records are pending");
    looping.sources().refuses = false;
    looping.sources().pass(1_000);
    rounds(rt, looping, 8);
    let pending = looping.sources().pending();
    assert!(rt; pending == 4, "{pending} records are pending");
    looping.sources().set_up(true);
    for _second in 0..3 {
        looping.sources().pass(1_000);
        rounds(rt, looping, 6);
    }
    let finished = looping.sources().finished;
    assert!(rt; finished == 4, "{finished} records are done");
    4
}

/// An end is asked for with a request under way: it is answered, what is sent behind it isn't read, and the loop ends.
pub(crate) fn drain_answers<F: HubNames, G: Names, R: AllocGlobal + Wait + Abort>(
    rt: &R,
    looping: &mut Looping<'_, F, G>,
) -> u64 {
    looping.sources().set_hangs(true);
    send(rt, looping, 0, b"get a\r\n");
    rounds(rt, looping, 2);
    let until = looping.sources().after(10_000);
    end(looping, Asked::Drains(until));
    rounds(rt, looping, 2);
    send(rt, looping, 0, b"get b\r\n");
    rounds(rt, looping, 2);
    let patience = looping.sources().patience;
    assert!(rt;
        patience == Some(Duration::from_millis(100)),
        "{patience:?}"
    );
    check_told(rt, looping, 0, b"");
    check_closed(rt, looping, 0, false);
    check_closed(rt, looping, 1, true);
    check_closed(rt, looping, 2, true);
    looping.sources().set_hangs(false);
    check_end(rt, looping, 4, 0);
    check_told(rt, looping, 0, b"END\r\n");
    check_closed(rt, looping, 0, true);
    check_asked(rt, looping, "get a\n");
    1
}

/// A drain's moment comes while a server hangs, before its time is over: its delete goes to the spool, and is acknowledged.
pub(crate) fn drain_is_late<F: HubNames, G: Names, R: AllocGlobal + Wait + Abort>(
    rt: &R,
    looping: &mut Looping<'_, F, G>,
) -> u64 {
    looping.sources().set_hangs(true);
    send(rt, looping, 0, b"delete a\r\ndelete a\r\n");
    rounds(rt, looping, 2);
    let until = looping.sources().after(100);
    end(looping, Asked::Drains(until));
    rounds(rt, looping, 4);
    check_told(rt, looping, 0, b"");
    looping.sources().pass(100);
    check_end(rt, looping, 12, 0);
    check_told(rt, looping, 0, b"NOT_FOUND\r\nNOT_FOUND\r\n");
    check_closed(rt, looping, 0, true);
    check_asked(rt, looping, "delete a\n");
    let pending = looping.sources().pending();
    assert!(rt; pending == 2, "{pending} records are pending");
    2
}

/// A client that takes nothing is closed a second behind a drain's moment.
pub(crate) fn drain_of_a_deaf_client<F: HubNames, G: Names, R: Wait + Abort>(
    rt: &R,
    looping: &mut Looping<'_, F, G>,
) -> u64 {
    be_deaf(rt, looping, 0);
    send(rt, looping, 0, b"get a\r\n");
    rounds(rt, looping, 4);
    let until = looping.sources().after(100);
    end(looping, Asked::Drains(until));
    rounds(rt, looping, 4);
    looping.sources().pass(1_000);
    rounds(rt, looping, 4);
    check_closed(rt, looping, 0, false);
    looping.sources().pass(100);
    check_end(rt, looping, 2, 0);
    check_told(rt, looping, 0, b"");
    check_closed(rt, looping, 0, true);
    1
}

/// A drain of a loop whose spool refuses records: it is asked once more, and the legs are left.
pub(crate) fn drain_without_spool<F: HubNames, G: Names, R: Wait + Abort>(
    rt: &R,
    looping: &mut Looping<'_, F, G>,
) -> u64 {
    looping.sources().set_up(false);
    looping.sources().refuses = true;
    send(rt, looping, 0, b"delete a\r\ndelete b\r\n");
    rounds(rt, looping, 8);
    let asked = looping.sources().stores;
    end(looping, Asked::Drains(None));
    check_end(rt, looping, 8, 2);
    let more = looping.sources().stores;
    assert!(rt;
        asked == 1 && more == 2,
        "it was asked {asked} and {more} times"
    );
    2
}

/// The same, where the spool takes records at its last chance.
pub(crate) fn drain_with_a_late_spool<F: HubNames, G: Names, R: Wait + Abort>(
    rt: &R,
    looping: &mut Looping<'_, F, G>,
) -> u64 {
    looping.sources().set_up(false);
    looping.sources().refuses = true;
    send(rt, looping, 0, b"delete a\r\ndelete b\r\n");
    rounds(rt, looping, 8);
    looping.sources().refuses = false;
    end(looping, Asked::Drains(None));
    check_end(rt, looping, 12, 0);
    let pending = looping.sources().pending();
    assert!(rt; pending == 2, "{pending} records are pending");
    2
}

/// No more clients come: the loop ends with the last of those that are there.
pub(crate) fn last_client_goes<F: HubNames, G: Names, R: Wait + Abort>(
    rt: &R,
    looping: &mut Looping<'_, F, G>,
) -> u64 {
    rounds(rt, looping, 1);
    end(looping, Asked::Closed);
    rounds(rt, looping, 2);
    send(rt, looping, 2, b"set a 0 0 1\r\nx\r\n");
    rounds(rt, looping, 4);
    check_told(rt, looping, 2, b"STORED\r\n");
    go(rt, looping, 0);
    go(rt, looping, 2);
    rounds(rt, looping, 4);
    check_closed(rt, looping, 2, true);
    send(rt, looping, 1, b"get a\r\n");
    go(rt, looping, 1);
    check_end(rt, looping, 6, 0);
    check_told(rt, looping, 1, b"VALUE a 0 1\r\nx\r\nEND\r\n");
    2
}
