//! Two sessions at once over hubs side by side.

ghost use Rattle.std.specs.Prelude.{◌≡◌, ◌+◌, ℕ, []};
ghost use Rattle.std.specs.Arc.{arc_value};
ghost use Rattle.mcv_core.specs.Opening.{opened_view};
ghost use Rattle.mcv_hubs.specs.Blanks.{AreOf};

use crate::setup;
use crate::setup::{SERVER, accepted};
use mcv_base::{FixedReply, Request, Rest};
use mcv_check::Accepted;
use mcv_core::CoreFault;
use mcv_hub::{Capacity, Hub, HubLedger, LegReply, Pass, Receipt, Report};
use mcv_hubs::{Blanks, HubChoice, HubNames, HubPasses, Hubs, Names, Seats};
use std::marker::Brand;
use std::num::NonZeroUsize;
use std::process::Abort;
use std::rt::Clock;
use std::sync::ledger::Ledger;
use std::sync::{Arc, Wait};
use std::thread;
use std::thread::{JoinHandle, Threads};

/// How many sessions there are.
const SESSIONS: u64 = 2;

/// How many seats there are: one for each session, and one that gathers the others.
const SEATS: u64 = SESSIONS + 1;

/// How many gets each session makes.
const GETS: usize = 5_000;

/// What a session hands back.
#[derive(Drop)]
struct Done<F: Names, G: Names> {
    seats: Seats<F, G>,
    receipts: Vec<Receipt>,
}

/// Sends all legs that wait at a hub, each of which is a miss.
fn answer_all<B: HubLedger, T: Ledger>(rt: &impl Wait, hub: &Hub<B, T>, pass: &mut Pass) {
    let mut guard = hub.lock(rt, pass);
    for _ in 0..u64::MAX {
        let Ok(leg) = guard.next(SERVER) else {
            return;
        };
        let _ = guard.answered(leg, LegReply::fixed(FixedReply::Miss));
    }
}

/// Sends all legs that wait at the hub of this number, the first or the second.
fn answer_all_at<F: HubNames, G: Names>(
    rt: &impl Wait,
    hubs: &Hubs<F, G>,
    pass: &mut Pass,
    hub: usize,
) {
    match hub {
        0 => answer_all(rt, &hubs.hub0, pass),
        _ => answer_all(rt, &hubs.hub1, pass),
    }
}

/// Begins a get, has it answered, and takes its reply: its receipt.
fn get<F: HubNames, G: Names, R: AllocGlobal + Wait + Clock + Abort>(
    rt: &R,
    hubs: &Hubs<F, G>,
    pass: &mut Pass,
    seats: &mut Seats<F, G>,
    asked: Arc<Request>,
) -> Result<Receipt, CoreFault> {
    let call = hubs.begin(rt, rt.alloc(), pass, seats, (asked, 0))?;
    answer_all_at(rt, hubs, pass, call.hub);
    let taken = hubs.take_reply(rt, rt.alloc(), pass, seats, call)?;
    Ok(taken.expect(rt, "a reply").receipt())
}

/// The gets of one session, of one key after the other.
fn serve<F: HubNames, G: Names, R: AllocGlobal + Wait + Clock + Abort>(
    rt: &R,
    hubs: &Hubs<F, G>,
    pass: Pass,
    seats: Seats<F, G>,
) -> Done<F, G> {
    let (mut pass, mut seats) = (pass, seats);
    let mut receipts = Vec::new(rt.alloc());
    for number in 0..GETS {
        let key: &[u8] = if number % 2 == 0 { b"a" } else { b"b" };
        let asked = setup::get(rt, key);
        let receipt = get(rt, hubs, &mut pass, &mut seats, asked).expect(rt, "a miss");
        receipts.push(receipt).expect(rt, "memory");
    }
    Done { seats, receipts }
}

/// Starts a session.
fn start<
    F: HubNames + Send + Sync + 'static,
    G: Names + Send + Sync + 'static,
    R: AllocGlobal + Threads + Wait + Clock + Abort + Copy + Send + 'static,
>(rt: R, hubs: &Arc<Hubs<F, G>>, passes: &mut HubPasses<F, G>) -> JoinHandle<Done<F, G>> {
    let hubs = Arc::try_clone(hubs).expect(&rt, "memory");
    let pass = passes.pass();
    let seats = passes.seats().expect(&rt, "seats");
    let job = move || serve(&rt, &*hubs, pass, seats);
    thread::spawn(&rt, job).ok().expect(&rt, "a thread")
}

/// Waits for a session, and adds its receipts to these and its shares to those.
fn gather<F: Names + Send, G: Names + Send, R: AllocGlobal + Threads + Abort>(
    rt: &R,
    session: JoinHandle<Done<F, G>>,
    all: &mut Seats<F, G>,
    receipts: &mut Vec<Receipt>,
) {
    let done = session.join(rt);
    all.merge(done.seats);
    receipts
        .extend_from_slice(done.receipts.as_slice())
        .expect(rt, "memory");
}

/// How many of the receipts are of this hub.
fn count_at(receipts: &[Receipt], hub: usize) -> usize {
    receipts.iter().filter(|r| r.hub == hub).count()
}

/// Two sessions at once over so many hubs: all that they did is counted, and each key was asked at its one hub.
fn two_sessions<
    F: HubNames + Send + Sync + 'static,
    G: Names + Send + Sync + 'static,
    R: AllocGlobal + Threads + Wait + Clock + Abort + Copy + Send + 'static,
>(rt: R, accepted: Arc<Accepted>, count: usize, begun: Blanks, taken: Blanks)
    requires begun { AreOf F.name_of F.parts_of (SEATS + 1) begun }
    requires taken { AreOf G.name_of G.parts_of (SEATS + 1) taken }
    requires opened { (hub : ℕ) → F.opened_of hub ≡ opened_view (arc_value accepted) [] }
{
    let alloc = rt.alloc();
    let choice = HubChoice::new(alloc, count).expect(&rt, "hubs");
    let capacity = Capacity {
        flights: NonZeroUsize::MIN,
        bells: 4,
        seats: SEATS,
    };
    let opened = Hubs::<F, G>::new(alloc, accepted, choice, &[], capacity, begun, taken);
    let (hubs, mut passes) = opened.expect(&rt, "memory");
    let hubs = Arc::new(alloc, hubs).expect(&rt, "memory");
    let one = start(rt, &hubs, &mut passes);
    let other = start(rt, &hubs, &mut passes);
    let mut all = passes.seats().expect(&rt, "seats");
    let mut receipts = Vec::new(alloc);
    gather(&rt, one, &mut all, &mut receipts);
    gather(&rt, other, &mut all, &mut receipts);
    let first = if count == 1 { 2 * GETS } else { GETS };
    assert_eq!(rt; count_at(receipts.as_slice(), 0), first);
    assert_eq!(rt; count_at(receipts.as_slice(), 1), 2 * GETS - first);
    let report = Report {
        begun: 2 * GETS as u64,
        taken: 2 * GETS as u64,
        older: 0,
    };
    let mut pass = passes.pass();
    let found = hubs.close(&rt, alloc, &mut pass, &mut all, receipts.as_slice());
    assert!(rt; found == Ok(report), "{found:?}");
}

#[test]
fn two_sessions_over_one_hub(rt: HostRuntime) {
    let accepted = accepted(&rt);
    two_sessions::<Brand, Brand, HostRuntime>(
        rt,
        accepted,
        1,
        Blanks::new(SEATS + 1),
        Blanks::new(SEATS + 1),
    );
}

#[test]
fn two_sessions_over_two_hubs(rt: HostRuntime) {
    let accepted = accepted(&rt);
    two_sessions::<Brand, Brand, HostRuntime>(
        rt,
        accepted,
        2,
        Blanks::new(SEATS + 1),
        Blanks::new(SEATS + 1),
    );
}

/// The hub of each rest among two: by FNV-1a `a` is even (af63dc4c8601ec8c) and `b` odd (af63df4c8601f1a5).
#[test]
fn a_and_b_have_two_hubs(rt: HostRuntime) {
    let choice = HubChoice::new(rt.alloc(), 2).expect(&rt, "two hubs");
    for (rest, hub) in [(b"a", 0usize), (b"b", 1usize)] {
        let rest = Rest::of(rest.as_slice()).expect(&rt, "a rest");
        assert_eq!(rt; choice.hub_of(&rest), hub);
    }
    assert!(rt; HubChoice::new(rt.alloc(), 0).is_none(), "no hub");
    assert!(rt; HubChoice::new(rt.alloc(), 9).is_none(), "nine hubs");
}
