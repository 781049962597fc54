//! What clients are answered, and what servers are asked.

ghost use Rattle.std.specs.Prelude.{◌≡◌, ◌+◌, []};
ghost use Rattle.std.specs.Arc.{arc_value};
ghost use Rattle.std.specs.Int.NonZero.{non_zero_usize_get};
ghost use Rattle.mcv_core.specs.Opening.{opened_within};

use crate::scene::{SEATS, Scene, accepted_of, hub_of};
use mcv_base::ServerId;
use mcv_check::Accepted;
use mcv_hub::HubLedger;
use mcv_turn::Marked;
use std::marker::Brand;
use std::num::NonZeroUsize;
use std::process::Abort;
use std::sync::ledger::{Blank, Ledger};
use std::sync::{Arc, Wait};

/// One pool of one server.
const ONE: &str = "{\"pools\":{\"A\":{\"servers\":[\"a:11211\"]}},\"route\":\"PoolRoute|A\"}";

/// Deletes go to both pools, and the first one replies; all else goes to the second.
const BOTH: &str =
    "{\"pools\":{\"A\":{\"servers\":[\"a:11211\"]},\"B\":{\"servers\":[\"b:11211\"]}},\"route\":{\"type\":\"OperationSelectorRoute\",\"operation_policies\":{\"delete\":{\"type\":\"AllInitialRoute\",\"children\":[\"PoolRoute|A\",\"PoolRoute|B\"]}},\"default_policy\":\"PoolRoute|B\"}}";

/// Which row is played.
#[derive(Clone, Copy)]
enum Row {
    TwoAtOnce,
    SeveralKeys,
    EveryCut,
    ServerDies,
    ClientGoes,
    SpoolRefuses,
    SpoolTakes,
    LongLine,
    MarkedServer,
    SeveralDie,
    ConnectionsDie,
    Noted,
}

/// Two sessions at once: each is answered its own replies, in the order of its requests.
fn two_at_once<B: HubLedger, T: Ledger, R: AllocGlobal + Abort + Wait>(
    rt: &R,
    scene: Scene<'_, B, T>,
) {
    let mut scene = scene;
    scene.send(rt, 0, b"set a 0 0 1\r\nx\r\nget a\r\nget b\r\n");
    scene.send(rt, 1, b"set b 0 0 1\r\ny\r\nget b\r\nget a\r\n");
    scene.settle(rt, 1000);
    scene.check_told(
        rt,
        0,
        b"STORED\r\nVALUE a 0 1\r\nx\r\nEND\r\nVALUE b 0 1\r\ny\r\nEND\r\n",
    );
    scene.check_told(
        rt,
        1,
        b"STORED\r\nVALUE b 0 1\r\ny\r\nEND\r\nVALUE a 0 1\r\nx\r\nEND\r\n",
    );
    scene.check_books(rt, 6);
}

/// A get of several keys is answered in the order of the keys, those without a value left out.
fn several_keys<B: HubLedger, T: Ledger, R: AllocGlobal + Abort + Wait>(
    rt: &R,
    scene: Scene<'_, B, T>,
) {
    let mut scene = scene;
    scene.send(rt, 0, b"set a 0 0 1\r\nx\r\nset c 0 0 2\r\nzz\r\n");
    scene.settle(rt, 1000);
    scene.send(rt, 0, b"get c b a\r\n");
    scene.settle(rt, 1000);
    scene.check_told(
        rt,
        0,
        b"STORED\r\nSTORED\r\nVALUE c 0 2\r\nzz\r\nVALUE a 0 1\r\nx\r\nEND\r\n",
    );
    scene.check_asked(rt, 0, "set a\nset c\nget c\nget b\nget a\n");
    scene.check_books(rt, 5);
}

/// Replies are cut behind each so many bytes.
fn every_cut<B: HubLedger, T: Ledger, R: AllocGlobal + Abort + Wait>(
    rt: &R,
    scene: Scene<'_, B, T>,
) {
    let mut scene = scene;
    scene.send(rt, 0, b"set a 0 0 3\r\nabc\r\n");
    scene.settle(rt, 1000);
    for cut in 1..25 {
        scene.send(rt, 0, b"get a\r\n");
        scene.send(rt, 1, b"get a b\r\n");
        scene.settle(rt, cut);
    }
    for client in 0..2 {
        let mut wanted = Vec::new(rt.alloc());
        if client == 0 {
            wanted.extend_from_slice(b"STORED\r\n").expect(rt, "memory");
        }
        for _cut in 1..25 {
            let hit = b"VALUE a 0 3\r\nabc\r\nEND\r\n";
            wanted.extend_from_slice(hit).expect(rt, "memory");
        }
        scene.check_told(rt, client, wanted.as_slice());
    }
    scene.check_books(rt, 73);
}

/// A server dies with legs in flight. Each delete is answered once, when its record was stored or the spool refused it.
fn server_dies<B: HubLedger, T: Ledger, R: AllocGlobal + Abort + Wait>(
    rt: &R,
    scene: Scene<'_, B, T>,
) {
    let mut scene = scene;
    scene.send(rt, 0, b"delete a\r\n");
    scene.send(rt, 1, b"delete b\r\n");
    scene.send(rt, 2, b"get a\r\n");
    scene.round(rt);
    let lost = scene.break_off(rt, 0);
    assert!(rt; lost > 0, "no leg was in flight");
    for _round in 0..6 {
        scene.round(rt);
        if scene.held.is_some() {
            scene.refuse(rt);
        }
    }
    scene.check_told(rt, 0, b"SERVER_ERROR destination failed\r\n");
    scene.check_told(rt, 1, b"SERVER_ERROR destination failed\r\n");
    scene.check_told(rt, 2, b"SERVER_ERROR destination failed\r\n");
    scene.check_books(rt, 3);
}

/// A client goes while its request is under way: its replies are taken, and the other client goes on.
fn client_goes<B: HubLedger, T: Ledger, R: AllocGlobal + Abort + Wait>(
    rt: &R,
    scene: Scene<'_, B, T>,
) {
    let mut scene = scene;
    scene.send(rt, 0, b"get a b c\r\n");
    scene.send(rt, 1, b"get a\r\n");
    scene.round(rt);
    scene.go(rt, 0);
    scene.settle(rt, 3);
    scene.check_told(rt, 0, b"");
    scene.check_told(rt, 1, b"END\r\n");
    assert!(rt; scene.desk.open() == 0, "a request is left");
    scene.check_books(rt, 4);
}

/// A spool that refuses: each delete is answered in the turn in which it was lost.
fn spool_refuses<B: HubLedger, T: Ledger, R: AllocGlobal + Abort + Wait>(
    rt: &R,
    scene: Scene<'_, B, T>,
) {
    let mut scene = scene;
    scene.may_store(false);
    scene.send(rt, 0, b"delete a\r\n");
    scene.round(rt);
    scene.break_off(rt, 0);
    scene.round(rt);
    scene.check_told(rt, 0, b"SERVER_ERROR destination failed\r\n");
    scene.check_books(rt, 1);
}

/// Deletes of a server that died are answered NOT_FOUND once their records are stored, one after the other, and each once; they are sent
/// again when it is back, and their records are done.
fn spool_takes<B: HubLedger, T: Ledger, R: AllocGlobal + Abort + Wait>(
    rt: &R,
    scene: Scene<'_, B, T>,
) {
    let mut scene = scene;
    scene.send(rt, 0, b"delete a\r\n");
    scene.send(rt, 1, b"delete b\r\n");
    scene.round(rt);
    scene.break_off(rt, 0);
    scene.round(rt);
    scene.check_told(rt, 0, b"");
    for _round in 0..6 {
        if scene.held.is_some() {
            scene.store(rt);
        } else {
            scene.break_off(rt, 0);
        }
        scene.round(rt);
    }
    scene.check_told(rt, 0, b"NOT_FOUND\r\n");
    scene.check_told(rt, 1, b"NOT_FOUND\r\n");
    scene.check_asked(rt, 0, "");
    scene.connect(rt, 0);
    scene.replay();
    scene.settle(rt, 3);
    scene.check_asked(rt, 0, "delete a\ndelete b\n");
    let finished = scene.finished;
    assert!(rt; finished == 2, "{finished} records are done");
    scene.check_books(rt, 2);
}

/// A line of 1,500 keys: at most 1,024 calls of it run at a time, so another client's get is asked between them.
fn long_line<B: HubLedger, T: Ledger, R: AllocGlobal + Abort + Wait>(
    rt: &R,
    scene: Scene<'_, B, T>,
) {
    let mut scene = scene;
    let mut line = Vec::from_slice(rt.alloc(), b"get").expect(rt, "memory");
    for _key in 0..1_500 {
        line.extend_from_slice(b" k").expect(rt, "memory");
    }
    line.extend_from_slice(b"\r\n").expect(rt, "memory");
    scene.send(rt, 0, line.as_slice());
    scene.round(rt);
    scene.send(rt, 1, b"get other\r\n");
    for _round in 0..1_600 {
        scene.pass(rt);
    }
    scene.check_told(rt, 0, b"END\r\n");
    scene.check_told(rt, 1, b"END\r\n");
    let asked = scene.asked(rt, 0);
    let at = asked.lines().position(|line| line == "get other");
    let at = at.expect(rt, "the other client's get");
    assert!(rt; at == 1_024, "it was asked behind {at} others");
    scene.check_books(rt, 1_501);
}

/// A server that failed three times is marked: its legs are lost at once, until it answers a probe.
fn marked_server<B: HubLedger, T: Ledger, R: AllocGlobal + Abort + Wait>(
    rt: &R,
    scene: Scene<'_, B, T>,
) {
    let mut scene = scene;
    for _failure in 0..3 {
        scene.send(rt, 0, b"get a\r\n");
        scene.round(rt);
        assert!(rt; scene.break_off(rt, 0) == 1, "no leg was in flight");
        scene.connect(rt, 0);
        scene.round(rt);
    }
    assert!(rt; scene.desk.is_marked(ServerId(0)), "it isn't marked");
    scene.send(rt, 0, b"get a\r\n");
    scene.round(rt);
    let mut wanted = Vec::new(rt.alloc());
    for _failure in 0..4 {
        let line = b"SERVER_ERROR destination failed\r\n";
        wanted.extend_from_slice(line).expect(rt, "memory");
    }
    scene.check_told(rt, 0, wanted.as_slice());
    scene.answers_probe(rt, ServerId(0));
    scene.send(rt, 0, b"get a\r\n");
    scene.settle(rt, 5);
    wanted.extend_from_slice(b"END\r\n").expect(rt, "memory");
    scene.check_told(rt, 0, wanted.as_slice());
    scene.check_asked(rt, 0, "get a\n");
    scene.check_books(rt, 5);
}

/// A server dies with three legs in flight, of which it has answered the first: each delete is performed or spooled, and each is
/// answered once. What was spooled is sent again.
fn several_die<B: HubLedger, T: Ledger, R: AllocGlobal + Abort + Wait>(
    rt: &R,
    scene: Scene<'_, B, T>,
) {
    let mut scene = scene;
    scene.send(rt, 0, b"set a 0 0 1\r\nx\r\n");
    scene.settle(rt, 3);
    scene.send(rt, 0, b"delete a\r\n");
    scene.send(rt, 1, b"delete b\r\n");
    scene.send(rt, 2, b"delete c\r\n");
    scene.round(rt);
    scene.serve(rt, 0);
    scene.hear_first(rt, 0, b"DELETED\r\nNOT".len());
    let lost = scene.break_off(rt, 0);
    assert!(rt; lost == 2, "{lost} legs were lost");
    scene.connect(rt, 0);
    scene.round(rt);
    scene.check_told(rt, 0, b"STORED\r\nDELETED\r\n");
    scene.check_told(rt, 1, b"");
    scene.check_told(rt, 2, b"");
    for _round in 0..6 {
        if scene.held.is_some() {
            scene.store(rt);
        }
        scene.round(rt);
    }
    scene.check_told(rt, 0, b"STORED\r\nDELETED\r\n");
    scene.check_told(rt, 1, b"NOT_FOUND\r\n");
    scene.check_told(rt, 2, b"NOT_FOUND\r\n");
    scene.check_asked(rt, 0, "set a\ndelete a\ndelete b\ndelete c\n");
    scene.replay();
    scene.settle(rt, 3);
    let asked = "set a\ndelete a\ndelete b\ndelete c\ndelete b\ndelete c\n";
    scene.check_asked(rt, 0, asked);
    let finished = scene.finished;
    assert!(rt; finished == 2, "{finished} records are done");
    scene.check_books(rt, 4);
}

/// A connection that is lost with three legs is one failure of its server: the third connection marks it, and none before.
fn connections_die<B: HubLedger, T: Ledger, R: AllocGlobal + Abort + Wait>(
    rt: &R,
    scene: Scene<'_, B, T>,
) {
    let mut scene = scene;
    for failure in 0..3 {
        for client in 0..3 {
            scene.send(rt, client, b"get a\r\n");
        }
        scene.round(rt);
        let lost = scene.break_off(rt, 0);
        assert!(rt; lost == 3, "{lost} legs were lost");
        scene.connect(rt, 0);
        scene.round(rt);
        let is_marked = scene.desk.is_marked(ServerId(0));
        assert!(rt;
            is_marked == (failure == 2),
            "after failure {failure}: {is_marked}"
        );
    }
    let mut wanted = Vec::new(rt.alloc());
    for _failure in 0..3 {
        let line = b"SERVER_ERROR destination failed\r\n";
        wanted.extend_from_slice(line).expect(rt, "memory");
    }
    for client in 0..3 {
        scene.check_told(rt, client, wanted.as_slice());
    }
    scene.check_books(rt, 9);
}

/// What a turn tells of the hub: the legs that wait and are queued, how full the chapter is, and the marks of servers.
fn noted<B: HubLedger, T: Ledger, R: AllocGlobal + Abort + Wait>(rt: &R, scene: Scene<'_, B, T>) {
    let mut scene = scene;
    for client in 0..3 {
        scene.send(rt, client, b"get a\r\n");
    }
    scene.round(rt);
    assert!(rt; scene.waiting.is_none(), "legs were counted unasked");
    scene.count();
    scene.round(rt);
    let waiting = scene.waiting.as_ref().expect(rt, "counts");
    let waiting = waiting.get(0).copied();
    assert!(rt; waiting == Some(2), "{waiting:?} legs wait");
    let queued = scene.queued;
    assert!(rt; queued == 3, "{queued} legs are queued");
    // Each call has an entry of 128 bytes, and a key of one.
    let load = scene.load;
    assert!(rt; load.chapter == 0 && load.bytes == 3 * 129, "{load:?}");
    assert!(rt; load.entries >= 3, "{load:?}");
    for failure in 0..3 {
        let told = scene.marks.len();
        assert!(rt; told == 0, "{told} marks after failure {failure}");
        scene.break_off(rt, 0);
        scene.connect(rt, 0);
        scene.round(rt);
    }
    scene.answers_probe(rt, ServerId(0));
    scene.settle(rt, 5);
    let mark = Marked {
        server: ServerId(0),
        is_marked: true,
    };
    let unmark = Marked {
        server: ServerId(0),
        is_marked: false,
    };
    let marks = scene.marks.as_slice();
    assert!(rt; marks == [mark, unmark].as_slice(), "{marks:?}");
    let queued = scene.queued;
    assert!(rt; queued == 0, "{queued} legs are queued in the end");
    scene.check_books(rt, 3);
}

/// Plays a row over a hub of its own, of which each server may have so many legs in flight.
fn play<B: HubLedger, T: Ledger, R: AllocGlobal + Abort + Wait>(
    rt: &R,
    row: Row,
    accepted: Arc<Accepted>,
    flights: NonZeroUsize,
    begun: Blank,
    taken: Blank,
)
    requires begun { (begun.name ≡ B.name) × (begun.parts ≡ B.parts) × (begun.parts ≡ SEATS + 1) }
    requires taken { (taken.name ≡ T.name) × (taken.parts ≡ T.parts) × (taken.parts ≡ SEATS + 1) }
    requires number { 0 ≡ B.number }
    requires opened { B.opened ≡ opened_within (non_zero_usize_get flights) (arc_value accepted) [] }
{
    let (hub, mut passes) = hub_of::<B, T>(rt, accepted, flights, begun, taken);
    let scene = Scene::new(rt, &hub, &mut passes, 3, 2);
    match row {
        Row::TwoAtOnce => two_at_once(rt, scene),
        Row::SeveralKeys => several_keys(rt, scene),
        Row::EveryCut => every_cut(rt, scene),
        Row::ServerDies => server_dies(rt, scene),
        Row::ClientGoes => client_goes(rt, scene),
        Row::SpoolRefuses => spool_refuses(rt, scene),
        Row::SpoolTakes => spool_takes(rt, scene),
        Row::LongLine => long_line(rt, scene),
        Row::MarkedServer => marked_server(rt, scene),
        Row::SeveralDie => several_die(rt, scene),
        Row::ConnectionsDie => connections_die(rt, scene),
        Row::Noted => noted(rt, scene),
    }
}

/// Plays a row where each server may have so many legs in flight.
fn play_with<R: AllocGlobal + Abort + Wait>(rt: &R, row: Row, text: &str, flights: usize) {
    let accepted = accepted_of(rt, text);
    let flights = NonZeroUsize::new(flights).expect(rt, "a limit");
    play::<Brand, Brand, R>(
        rt,
        row,
        accepted,
        flights,
        Blank::new(SEATS + 1),
        Blank::new(SEATS + 1),
    );
}

/// Plays a row where each server may have one leg in flight.
fn play_one<R: AllocGlobal + Abort + Wait>(rt: &R, row: Row, text: &str) {
    play_with(rt, row, text, 1);
}

#[test]
fn two_sessions_at_once(rt: HostRuntime) {
    play_one(&rt, Row::TwoAtOnce, ONE);
}

#[test]
fn a_get_of_several_keys(rt: HostRuntime) {
    play_one(&rt, Row::SeveralKeys, ONE);
}

#[test]
fn replies_cut_at_every_byte(rt: HostRuntime) {
    play_one(&rt, Row::EveryCut, ONE);
}

#[test]
fn a_server_that_dies_with_legs_in_flight(rt: HostRuntime) {
    play_one(&rt, Row::ServerDies, ONE);
}

#[test]
fn a_client_that_goes_in_the_middle_of_its_request(rt: HostRuntime) {
    play_one(&rt, Row::ClientGoes, ONE);
}

#[test]
fn a_spool_that_refuses(rt: HostRuntime) {
    play_one(&rt, Row::SpoolRefuses, ONE);
}

#[test]
fn a_spool_that_takes_records(rt: HostRuntime) {
    play_one(&rt, Row::SpoolTakes, ONE);
}

#[test]
fn a_line_of_many_keys(rt: HostRuntime) {
    play_one(&rt, Row::LongLine, ONE);
}

#[test]
fn a_server_that_is_marked(rt: HostRuntime) {
    play_one(&rt, Row::MarkedServer, ONE);
}

#[test]
fn a_server_that_dies_with_three_legs_in_flight(rt: HostRuntime) {
    play_with(&rt, Row::SeveralDie, ONE, 3);
}

#[test]
fn connections_that_die_with_three_legs_each(rt: HostRuntime) {
    play_with(&rt, Row::ConnectionsDie, ONE, 3);
}

#[test]
fn what_a_turn_tells_of_the_hub(rt: HostRuntime) {
    play_one(&rt, Row::Noted, ONE);
}
