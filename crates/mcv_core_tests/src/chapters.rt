//! Chapters of a hub end by what they hold.

ghost use Rattle.std.specs.Prelude.{◌≡◌, ◌+◌, []};
ghost use Rattle.std.specs.Arc.{arc_value};
ghost use Rattle.mcv_core.specs.Opening.{opened_view};

use crate::script::server;
use crate::setup::{ONE, accepted_of, bytes, request};
use mcv_base::{CallId, FixedReply, Op, Reply, Request};
use mcv_check::Accepted;
use mcv_core::CoreFault;
use mcv_hub::{Capacity, Gate, Guard, Hub, HubLedger, LegReply, Passes, Receipt, Report, Seat};
use std::marker::Brand;
use std::num::NonZeroUsize;
use std::process::Abort;
use std::rt::Clock;
use std::sync::ledger::{Blank, Ledger};
use std::sync::{Arc, Wait};
use std::time::{Duration, Instant};

/// How many seats there are.
const SEATS: u64 = 1;

/// How many bytes the values of the large hits have.
const LARGE: usize = 100_000;

/// A hub over one server, with one seat.
fn one_seat<B: HubLedger, T: Ledger>(
    rt: &(impl AllocGlobal + Abort),
    accepted: Arc<Accepted>,
    begun: Blank,
    taken: Blank,
) -> (Hub<B, T>, Passes<B, T>)
    requires begun { (begun.name ≡ B.name) × (begun.parts ≡ B.parts) × (begun.parts ≡ SEATS + 1) }
    requires taken { (taken.name ≡ T.name) × (taken.parts ≡ T.parts) × (taken.parts ≡ SEATS + 1) }
    requires number { 0 ≡ B.number }
    requires opened { B.opened ≡ opened_view (arc_value accepted) [] }
{
    let capacity = Capacity {
        flights: NonZeroUsize::MIN,
        bells: 1,
        seats: SEATS,
    };
    Hub::new(rt.alloc(), accepted, 0, &[], capacity, begun, taken).expect(rt, "memory")
}

/// A value of so many bytes.
fn value(rt: &(impl AllocGlobal + Abort), count: usize) -> Arc<Vec<u8>> {
    let mut value = bytes(rt, b"");
    value.resize(count, b'x').expect(rt, "memory");
    Arc::new(rt.alloc(), value).expect(rt, "memory")
}

/// A hit of this value.
fn hit(rt: &(impl AllocGlobal + Abort), body: &Arc<Vec<u8>>) -> LegReply {
    let body = Arc::try_clone(body).expect(rt, "memory");
    let hit = Reply::Hit {
        flags: 0,
        cas: None,
        body,
    };
    LegReply::new(rt.alloc(), hit).expect(rt, "memory")
}

/// Begins a get, whose one leg is answered by a hit of this value, and takes the reply: its receipt.
fn get<B: HubLedger, T: Ledger>(
    rt: &(impl AllocGlobal + Abort),
    guard: &mut Guard<'_, B, T>,
    seat: &mut Seat<B, T>,
    asked: &Arc<Request>,
    body: &Arc<Vec<u8>>,
) -> Result<Receipt, CoreFault> {
    let asked = Arc::try_clone(asked).expect(rt, "memory");
    let call = guard.begin(rt.alloc(), seat, asked, 0)?;
    let leg = guard.next(server(0))?;
    guard.answered(leg, hit(rt, body))?;
    let taken = guard.take_reply(seat, call)?;
    Ok(taken.expect(rt, "a reply").receipt())
}

/// So many gets, one after the other, after each of which the next chapter begins where it is due: their receipts, and the
/// numbers of the gets after which it began.
fn get_each<B: HubLedger, T: Ledger>(
    rt: &(impl AllocGlobal + Abort),
    guard: &mut Guard<'_, B, T>,
    seat: &mut Seat<B, T>,
    count: usize,
    body: &Arc<Vec<u8>>,
) -> (Vec<Receipt>, Vec<usize>) {
    let asked = request(rt, Op::Get, b"a");
    let mut receipts = Vec::new(rt.alloc());
    let mut turned = Vec::new(rt.alloc());
    for number in 0..count {
        let receipt = get(rt, guard, seat, &asked, body).expect(rt, "a hit");
        receipts.push(receipt).expect(rt, "memory");
        if let Gate::Turned(_) = guard.gate(rt.alloc()) {
            turned.push(number + 1).expect(rt, "memory");
        }
    }
    (receipts, turned)
}

/// Three chapters of gets, and all their receipts.
fn three_chapters<B: HubLedger, T: Ledger>(
    rt: &(impl AllocGlobal + Abort + Wait),
    accepted: Arc<Accepted>,
    begun: Blank,
    taken: Blank,
)
    requires begun { (begun.name ≡ B.name) × (begun.parts ≡ B.parts) × (begun.parts ≡ SEATS + 1) }
    requires taken { (taken.name ≡ T.name) × (taken.parts ≡ T.parts) × (taken.parts ≡ SEATS + 1) }
    requires number { 0 ≡ B.number }
    requires opened { B.opened ≡ opened_view (arc_value accepted) [] }
{
    let (hub, mut passes) = one_seat::<B, T>(rt, accepted, begun, taken);
    let mut pass = passes.pass();
    let mut seat = passes.seat().expect(rt, "a seat");
    let mut guard = hub.lock(rt, &mut pass);
    let body = value(rt, 1);
    let (receipts, turned) = get_each(rt, &mut guard, &mut seat, 300_000, &body);
    assert_eq!(rt; turned.as_slice(), [100_000, 200_000, 300_000].as_slice());
    let receipts = receipts.as_slice();
    let found = guard.close(rt.alloc(), &mut seat, receipts);
    let report = Report {
        begun: 300_000,
        taken: 300_000,
        older: 300_000,
    };
    assert!(rt; found == Ok(report), "{found:?}");
}

#[test]
fn chapters_end_at_half_their_entries(rt: HostRuntime) {
    let accepted = accepted_of(&rt, ONE).expect(&rt, "covered routes");
    three_chapters::<Brand, Brand>(&rt, accepted, Blank::new(SEATS + 1), Blank::new(SEATS + 1));
}

/// Gets of large values: 128 bytes for each of three entries, 1 for the key and 100,000 for the value, so 669 of them are the
/// first to hold 64 MiB.
fn large_values<B: HubLedger, T: Ledger>(
    rt: &(impl AllocGlobal + Abort + Wait),
    accepted: Arc<Accepted>,
    begun: Blank,
    taken: Blank,
)
    requires begun { (begun.name ≡ B.name) × (begun.parts ≡ B.parts) × (begun.parts ≡ SEATS + 1) }
    requires taken { (taken.name ≡ T.name) × (taken.parts ≡ T.parts) × (taken.parts ≡ SEATS + 1) }
    requires number { 0 ≡ B.number }
    requires opened { B.opened ≡ opened_view (arc_value accepted) [] }
{
    let (hub, mut passes) = one_seat::<B, T>(rt, accepted, begun, taken);
    let mut pass = passes.pass();
    let mut seat = passes.seat().expect(rt, "a seat");
    let mut guard = hub.lock(rt, &mut pass);
    let body = value(rt, LARGE);
    let (_receipts, turned) = get_each(rt, &mut guard, &mut seat, 2_000, &body);
    assert_eq!(rt; turned.as_slice(), [669, 1_338].as_slice());
    assert_eq!(rt; guard.bytes(), 662 * 100_385);
}

#[test]
fn chapters_end_at_64_mib(rt: HostRuntime) {
    let accepted = accepted_of(&rt, ONE).expect(&rt, "covered routes");
    large_values::<Brand, Brand>(&rt, accepted, Blank::new(SEATS + 1), Blank::new(SEATS + 1));
}

/// Begins a get and has it answered, but doesn't take its reply: it runs on.
fn begin_one<B: HubLedger, T: Ledger>(
    rt: &(impl AllocGlobal + Abort),
    guard: &mut Guard<'_, B, T>,
    seat: &mut Seat<B, T>,
) -> CallId {
    let asked = request(rt, Op::Get, b"b");
    let call = guard.begin(rt.alloc(), seat, asked, 0).expect(rt, "a call");
    let leg = guard.next(server(0)).expect(rt, "its leg");
    let missed = LegReply::fixed(FixedReply::Miss);
    guard.answered(leg, missed).expect(rt, "a miss");
    call
}

/// Takes the reply to a call.
fn take_one<B: HubLedger, T: Ledger>(
    rt: &impl Abort,
    guard: &mut Guard<'_, B, T>,
    seat: &mut Seat<B, T>,
    call: CallId,
) {
    let taken = guard.take_reply(seat, call).expect(rt, "its reply");
    assert!(rt; taken.is_some(), "no reply");
}

/// So many gets of large values, while the chapter can't end.
fn get_beside<B: HubLedger, T: Ledger>(
    rt: &(impl AllocGlobal + Abort),
    guard: &mut Guard<'_, B, T>,
    seat: &mut Seat<B, T>,
    count: usize,
) {
    let asked = request(rt, Op::Get, b"a");
    let body = value(rt, LARGE);
    for _ in 0..count {
        let _receipt = get(rt, guard, seat, &asked, &body).expect(rt, "a hit");
    }
}

/// A call waits at the gate for so long in vain.
fn wait_in_vain<'a, B: HubLedger, T: Ledger>(
    rt: &(impl AllocGlobal + Abort + Wait + Clock),
    hub: &Hub<B, T>,
    guard: Guard<'a, B, T>,
    most: Duration,
) -> Guard<'a, B, T> {
    let before = Instant::now(rt).expect(rt, "the time");
    let (guard, gate) = hub.enter(rt, rt.alloc(), guard, most);
    assert!(rt; gate.is_closed(), "the gate is open");
    let after = Instant::now(rt).expect(rt, "the time");
    assert!(rt; after.duration_since(before) >= most, "no wait");
    guard
}

/// A call goes through the gate, though that is closed, without waiting: an hour would be too late for the test.
fn go_through<'a, B: HubLedger, T: Ledger>(
    rt: &(impl AllocGlobal + Abort + Wait + Clock),
    hub: &Hub<B, T>,
    guard: Guard<'a, B, T>,
) -> Guard<'a, B, T> {
    let (guard, gate) = hub.enter(rt, rt.alloc(), guard, Duration::from_secs(3_600));
    assert!(rt; gate.is_closed(), "the gate is open");
    guard
}

/// A chapter that is due while a call of it runs: the first call that waits does so in vain, and then none waits. When the history
/// holds 160 MiB, which 1,672 gets of large values do, one more waits in vain, and then none, until the next one has begun.
fn awaited_chapter<B: HubLedger, T: Ledger>(
    rt: &(impl AllocGlobal + Abort + Wait + Clock),
    accepted: Arc<Accepted>,
    begun: Blank,
    taken: Blank,
)
    requires begun { (begun.name ≡ B.name) × (begun.parts ≡ B.parts) × (begun.parts ≡ SEATS + 1) }
    requires taken { (taken.name ≡ T.name) × (taken.parts ≡ T.parts) × (taken.parts ≡ SEATS + 1) }
    requires number { 0 ≡ B.number }
    requires opened { B.opened ≡ opened_view (arc_value accepted) [] }
{
    let (short, long) = (Duration::from_millis(20), Duration::from_secs(3_600));
    let (hub, mut passes) = one_seat::<B, T>(rt, accepted, begun, taken);
    let mut pass = passes.pass();
    let mut seat = passes.seat().expect(rt, "a seat");
    let mut guard = hub.lock(rt, &mut pass);
    let first = begin_one(rt, &mut guard, &mut seat);
    get_beside(rt, &mut guard, &mut seat, 700);
    let guard = wait_in_vain(rt, &hub, guard, short);
    let mut guard = go_through(rt, &hub, guard);
    get_beside(rt, &mut guard, &mut seat, 971);
    let mut guard = go_through(rt, &hub, guard);
    get_beside(rt, &mut guard, &mut seat, 1);
    let guard = wait_in_vain(rt, &hub, guard, short);
    let mut guard = go_through(rt, &hub, guard);
    let second = begin_one(rt, &mut guard, &mut seat);
    take_one(rt, &mut guard, &mut seat, first);
    take_one(rt, &mut guard, &mut seat, second);
    let (guard, gate) = hub.enter(rt, rt.alloc(), guard, long);
    assert!(rt; matches!(gate, Gate::Turned(_)), "no other chapter");
    let (_guard, gate) = hub.enter(rt, rt.alloc(), guard, long);
    assert!(rt; matches!(gate, Gate::Open), "one more chapter");
}

#[test]
fn two_calls_wait_for_a_chapter_in_vain(rt: HostRuntime) {
    let accepted = accepted_of(&rt, ONE).expect(&rt, "covered routes");
    awaited_chapter::<Brand, Brand>(&rt, accepted, Blank::new(SEATS + 1), Blank::new(SEATS + 1));
}

/// How many gets of large values are begun until one is refused, while a call runs, so that no chapter can end.
fn gets_until_full<B: HubLedger, T: Ledger>(
    rt: &(impl AllocGlobal + Abort),
    guard: &mut Guard<'_, B, T>,
    seat: &mut Seat<B, T>,
) -> (usize, CoreFault) {
    let asked = request(rt, Op::Get, b"a");
    let body = value(rt, LARGE);
    for number in 0..10_000 {
        if let Err(fault) = get(rt, guard, seat, &asked, &body) {
            return (number, fault);
        }
    }
    (10_000, CoreFault::Busy)
}

/// A call that runs, and gets beside it: its own entry takes 129 bytes, so 2,675 gets are the first to hold more than 256 MiB.
fn heavy_chapter<B: HubLedger, T: Ledger>(
    rt: &(impl AllocGlobal + Abort + Wait),
    accepted: Arc<Accepted>,
    begun: Blank,
    taken: Blank,
)
    requires begun { (begun.name ≡ B.name) × (begun.parts ≡ B.parts) × (begun.parts ≡ SEATS + 1) }
    requires taken { (taken.name ≡ T.name) × (taken.parts ≡ T.parts) × (taken.parts ≡ SEATS + 1) }
    requires number { 0 ≡ B.number }
    requires opened { B.opened ≡ opened_view (arc_value accepted) [] }
{
    let (hub, mut passes) = one_seat::<B, T>(rt, accepted, begun, taken);
    let mut pass = passes.pass();
    let mut seat = passes.seat().expect(rt, "a seat");
    let mut guard = hub.lock(rt, &mut pass);
    let first = begin_one(rt, &mut guard, &mut seat);
    let found = gets_until_full(rt, &mut guard, &mut seat);
    assert!(rt; found == (2_675, CoreFault::ChapterFull), "{found:?}");
    assert!(rt; guard.gate(rt.alloc()).is_closed(), "the gate is open");
    take_one(rt, &mut guard, &mut seat, first);
    assert!(rt;
        matches!(guard.gate(rt.alloc()), Gate::Turned(_)),
        "no other chapter"
    );
    assert!(rt;
        matches!(guard.gate(rt.alloc()), Gate::Open),
        "one more chapter"
    );
}

#[test]
fn no_call_begins_beyond_256_mib(rt: HostRuntime) {
    let accepted = accepted_of(&rt, ONE).expect(&rt, "covered routes");
    heavy_chapter::<Brand, Brand>(&rt, accepted, Blank::new(SEATS + 1), Blank::new(SEATS + 1));
}
