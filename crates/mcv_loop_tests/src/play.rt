//! Each row is played over hubs that are opened for it, and the hubs are closed behind it.

ghost use Rattle.std.specs.Prelude.{◌≡◌, ◌+◌, ℕ, []};
ghost use Rattle.std.specs.Arc.{arc_value};
ghost use Rattle.std.specs.Int.NonZero.{non_zero_usize_get};
ghost use Rattle.mcv_core.specs.Opening.{opened_within};
ghost use Rattle.mcv_hubs.specs.Blanks.{AreOf};

use crate::counter::Counter;
use crate::memory::Memory;
use crate::rows;
use crate::script::Looping;
use mcv_base::ServerId;
use mcv_check::Accepted;
use mcv_hub::{Capacity, Pass, Report};
use mcv_hubs::{Blanks, HubChoice, HubNames, HubPasses, Hubs, Names};
use mcv_loop::{Limits, Loop};
use mcv_verdict::{Judgement, judge_input};
use std::marker::Brand;
use std::num::NonZeroUsize;
use std::process::Abort;
use std::rt::Clock;
use std::sync::{Arc, Wait};
use std::time::{Duration, Instant};

/// How many seats there are: the loop's.
const SEATS: u64 = 1;

/// One pool of two servers.
const TWO: &str =
    "{\"pools\":{\"A\":{\"servers\":[\"a:11211\",\"b:11211\"]}},\"route\":\"PoolRoute|A\"}";

/// Which row is played.
#[derive(Clone, Copy)]
enum Row {
    TwoAtOnce,
    SeveralHubs,
    EveryCut,
    ServerDies,
    ServerCloses,
    ServerHangs,
    ClientIdles,
    ClientGoes,
    TwoInOnePiece,
    ManyKeys,
    NobodyAttended,
    SpoolRefuses,
    DrainAnswers,
    DrainIsLate,
    DrainOfADeafClient,
    DrainWithoutSpool,
    DrainWithALateSpool,
    LastClientGoes,
}

/// What the checker accepts of a configuration.
fn accepted_of(rt: &(impl AllocGlobal + Abort), text: &str) -> Arc<Accepted> {
    let judgement = judge_input(rt.alloc(), &mut text.as_bytes(), 0);
    match judgement.expect(rt, "a configuration") {
        Judgement::Covered { accepted, .. } => Arc::new(rt.alloc(), accepted).expect(rt, "memory"),
        Judgement::Lost { .. } => panic!(rt; "the routes aren't covered"),
    }
}

/// How many legs of a server may be in flight at a time.
fn flights() -> NonZeroUsize
    ensures { non_zero_usize_get result ≡ 64 }
{
    match NonZeroUsize::new(64) {
        Some(flights) => flights,
        None => unreachable!(),
    }
}

/// Three clients, and for each hub two servers.
fn memory_of(rt: &(impl AllocGlobal + Clock + Abort), hubs: usize) -> Memory {
    let mut memory = Memory::new(rt.alloc()).expect(rt, "a spool");
    memory.now = Instant::now(rt).ok();
    for _client in 0..3 {
        memory.add_client().expect(rt, "memory");
    }
    for hub in 0..hubs {
        for server in 0..2 {
            memory
                .add_station(hub, ServerId(server))
                .expect(rt, "memory");
        }
    }
    memory
}

/// All calls that were begun were taken, and their receipts are good. What was counted.
fn close<F: HubNames, G: Names, R: AllocGlobal + Wait + Abort>(
    rt: &R,
    hubs: &Hubs<F, G>,
    pass: Pass,
    looping: Looping<'_, F, G>,
    calls: u64,
) -> Counter {
    let mut pass = pass;
    let (mut seats, receipts, _sources, counter) = looping.into_parts();
    let receipts = receipts.expect(rt, "memory");
    let found = hubs.close(rt, rt.alloc(), &mut pass, &mut seats, receipts.as_slice());
    let wanted = Report {
        begun: calls,
        taken: calls,
        older: 0,
    };
    assert!(rt; found == Ok(wanted), "{found:?}");
    counter
}

/// What a row does. How many calls it makes.
fn act<F: HubNames, G: Names, R: AllocGlobal + Wait + Abort>(
    rt: &R,
    row: Row,
    looping: &mut Looping<'_, F, G>,
) -> u64 {
    match row {
        Row::TwoAtOnce => rows::two_at_once(rt, looping),
        Row::SeveralHubs => rows::several_hubs(rt, looping),
        Row::EveryCut => rows::every_cut(rt, looping),
        Row::ServerDies => rows::server_dies(rt, looping),
        Row::ServerCloses => rows::server_closes(rt, looping),
        Row::ServerHangs => rows::server_hangs(rt, looping),
        Row::ClientIdles => rows::client_idles(rt, looping),
        Row::ClientGoes => rows::client_goes(rt, looping),
        Row::TwoInOnePiece => rows::two_in_one_piece(rt, looping),
        Row::ManyKeys => rows::many_keys(rt, looping),
        Row::NobodyAttended => rows::nobody_attended(rt, looping),
        Row::SpoolRefuses => rows::spool_refuses(rt, looping),
        Row::DrainAnswers => rows::drain_answers(rt, looping),
        Row::DrainIsLate => rows::drain_is_late(rt, looping),
        Row::DrainOfADeafClient => rows::drain_of_a_deaf_client(rt, looping),
        Row::DrainWithoutSpool => rows::drain_without_spool(rt, looping),
        Row::DrainWithALateSpool => rows::drain_with_a_late_spool(rt, looping),
        Row::LastClientGoes => rows::last_client_goes(rt, looping),
    }
}

/// Plays a row over these hubs.
fn play_over<F: HubNames, G: Names, R: AllocGlobal + Wait + Clock + Abort>(
    rt: &R,
    row: Row,
    hubs: &Hubs<F, G>,
    passes: HubPasses<F, G>,
    memory: Memory,
) -> Counter {
    let mut passes = passes;
    let seats = passes.seats().expect(rt, "seats");
    let limits = Limits {
        server: Some(Duration::from_millis(200)),
        client: Some(Duration::from_secs(10)),
        answer: usize::MAX,
    };
    let counter = Counter::default();
    let pass = passes.pass();
    let looping = Loop::new(rt.alloc(), hubs, pass, seats, memory, counter, limits);
    let mut looping = looping.expect(rt, "memory");
    let calls = act(rt, row, &mut looping);
    close(rt, hubs, passes.pass(), looping, calls)
}

/// Plays a row over so many hubs.
fn play<F: HubNames, G: Names, R: AllocGlobal + Wait + Clock + Abort>(
    rt: &R,
    row: Row,
    count: usize,
    accepted: Arc<Accepted>,
    begun: Blanks,
    taken: Blanks,
) -> Counter
    requires begun { AreOf F.name_of F.parts_of (SEATS + 1) begun }
    requires taken { AreOf G.name_of G.parts_of (SEATS + 1) taken }
    requires opened { (hub : ℕ) → F.opened_of hub ≡ opened_within 64 (arc_value accepted) [] }
{
    let alloc = rt.alloc();
    let choice = HubChoice::new(alloc, count).expect(rt, "hubs");
    let capacity = Capacity {
        flights: flights(),
        bells: 1,
        seats: SEATS,
    };
    let opened = Hubs::<F, G>::new(alloc, accepted, choice, &[], capacity, begun, taken);
    let (hubs, passes) = opened.expect(rt, "memory");
    play_over(rt, row, &hubs, passes, memory_of(rt, count))
}

/// Plays a row over so many hubs, which are opened for it. What was counted.
fn play_row<R: AllocGlobal + Wait + Clock + Abort>(rt: &R, row: Row, count: usize) -> Counter {
    let accepted = accepted_of(rt, TWO);
    play::<Brand, Brand, R>(
        rt,
        row,
        count,
        accepted,
        Blanks::new(SEATS + 1),
        Blanks::new(SEATS + 1),
    )
}

#[test]
fn two_clients_at_once(rt: HostRuntime) {
    play_row(&rt, Row::TwoAtOnce, 1);
    play_row(&rt, Row::TwoAtOnce, 2);
}

#[test]
fn a_get_over_two_hubs(rt: HostRuntime) {
    play_row(&rt, Row::SeveralHubs, 1);
    play_row(&rt, Row::SeveralHubs, 2);
}

#[test]
fn pieces_of_every_length(rt: HostRuntime) {
    play_row(&rt, Row::EveryCut, 2);
}

#[test]
fn a_server_that_dies_with_legs_in_flight(rt: HostRuntime) {
    play_row(&rt, Row::ServerDies, 1);
    play_row(&rt, Row::ServerDies, 2);
}

#[test]
fn a_client_that_goes_in_the_middle_of_its_request(rt: HostRuntime) {
    play_row(&rt, Row::ClientGoes, 2);
}

#[test]
fn a_server_that_closes_an_idle_connection(rt: HostRuntime) {
    play_row(&rt, Row::ServerCloses, 1);
}

#[test]
fn a_server_that_hangs(rt: HostRuntime) {
    play_row(&rt, Row::ServerHangs, 1);
}

#[test]
fn a_client_that_idles(rt: HostRuntime) {
    play_row(&rt, Row::ClientIdles, 1);
}

#[test]
fn two_requests_in_one_piece(rt: HostRuntime) {
    play_row(&rt, Row::TwoInOnePiece, 1);
    play_row(&rt, Row::TwoInOnePiece, 2);
}

#[test]
fn a_get_of_3000_keys(rt: HostRuntime) {
    play_row(&rt, Row::ManyKeys, 1);
    play_row(&rt, Row::ManyKeys, 2);
}

#[test]
fn clients_that_cant_be_attended(rt: HostRuntime) {
    let counter = play_row(&rt, Row::NobodyAttended, 1);
    let wanted = Counter {
        unserved: 3,
        servers: 2,
        ..Counter::default()
    };
    assert!(&rt; counter == wanted, "{counter:?}");
}

#[test]
fn marks_and_refusals_are_told(rt: HostRuntime) {
    let counter = Counter {
        entries: 0,
        waiting: 0,
        ..play_row(&rt, Row::SpoolRefuses, 1)
    };
    let wanted = Counter {
        asked: 4,
        answered: 4,
        sent: 7,
        lost: 3,
        marked: 1,
        unmarked: 1,
        replayed: 4,
        spooled: 4,
        slots: 4,
        refusing: 1,
        taking: 1,
        servers: 2,
        ..Counter::default()
    };
    assert!(&rt; counter == wanted, "{counter:?}");
}

#[test]
fn a_drain_with_a_request_under_way(rt: HostRuntime) {
    play_row(&rt, Row::DrainAnswers, 1);
    play_row(&rt, Row::DrainAnswers, 2);
}

#[test]
fn a_drain_past_its_moment(rt: HostRuntime) {
    let counter = play_row(&rt, Row::DrainIsLate, 1);
    let (sent, lost) = (counter.sent, counter.lost);
    assert!(&rt; sent == 2 && lost == 2, "{sent} were sent, {lost} lost");
    play_row(&rt, Row::DrainIsLate, 2);
}

#[test]
fn a_drain_with_a_client_that_takes_nothing(rt: HostRuntime) {
    play_row(&rt, Row::DrainOfADeafClient, 1);
}

#[test]
fn a_drain_with_a_spool_that_refuses(rt: HostRuntime) {
    play_row(&rt, Row::DrainWithoutSpool, 1);
}

#[test]
fn a_drain_with_a_spool_that_takes_again(rt: HostRuntime) {
    play_row(&rt, Row::DrainWithALateSpool, 1);
}

#[test]
fn the_last_client_goes(rt: HostRuntime) {
    play_row(&rt, Row::LastClientGoes, 1);
    play_row(&rt, Row::LastClientGoes, 2);
}
