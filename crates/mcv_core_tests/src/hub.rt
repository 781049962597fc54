//! What a hub's guard answers, event by event.

ghost use Rattle.std.specs.Prelude.{◌≡◌, ◌+◌, []};
ghost use Rattle.std.specs.Arc.{arc_value};
ghost use Rattle.mcv_core.specs.Opening.{opened_view};

use crate::script::{number_of, op, reply, server, shown, state};
use crate::setup::{ONE, accepted_of, request, stored_after};
use mcv_base::{CallId, LegId};
use mcv_check::Accepted;
use mcv_core::CoreFault;
use mcv_hub::{
    Capacity, Entry, Guard, Hub, HubLedger, LegReply, Passes, Receipt, ReceiptFault, Report, Seat,
    TakenReply,
};
use std::marker::Brand;
use std::num::NonZeroUsize;
use std::process::Abort;
use std::sync::ledger::{Blank, Ledger};
use std::sync::{Arc, Wait};

/// How many seats there are.
const SEATS: u64 = 2;

/// A delete is begun, sent, lost and spooled; its reply is taken, and then it is performed when it is sent again.
const DELETE: &str = "\
begin Delete = Ok(CallId(0))
next 0 = Ok(LegId(0))
lost 0 = Ok(Held)
spooled 0 a = Ok(Spooled)
take 0 = Fixed(NotFound) Receipt { hub: 0, chapter: 0, entry: 2, call: CallId(0) }
replay 0 = Ok(LegId(0))
answered 0 Deleted = Ok(Performed)";

/// A get is begun, sent and answered by a hit, which is taken once.
const GET: &str = "\
begin Get = Ok(CallId(1))
take 1 = none
next 0 = Ok(LegId(1))
answered 1 x = Ok(Gone)
take 1 = Owned(Hit { flags: 7, cas: None, body: [120] }) Receipt { hub: 0, chapter: 0, entry: 6, call: CallId(1) }
take 1 = NoSuchCall";

/// Plays a script of one seat: a line is an event and what the guard answers to it.
fn play<B: HubLedger, T: Ledger>(
    rt: &(impl AllocGlobal + Abort),
    guard: &mut Guard<'_, B, T>,
    seat: &mut Seat<B, T>,
    script: &str,
) {
    for line in script.lines() {
        let (event, wanted) = line.split_once(" = ").expect(rt, line);
        let (word, more) = event.split_once(' ').expect(rt, line);
        let found = answer(rt, guard, seat, word, more);
        assert!(rt; found.as_str() == wanted, "{line}, not {found}");
    }
}

fn answer<B: HubLedger, T: Ledger>(
    rt: &(impl AllocGlobal + Abort),
    guard: &mut Guard<'_, B, T>,
    seat: &mut Seat<B, T>,
    word: &str,
    more: &str,
) -> String {
    match word {
        "begin" => shown(
            rt,
            guard.begin(rt.alloc(), seat, request(rt, op(more), b"a"), 0),
        ),
        "take" => taken(rt, guard.take_reply(seat, CallId(number_of(rt, more)))),
        _ => moved(rt, guard, word, more),
    }
}

/// A reply that was taken, and its receipt.
fn taken(rt: &(impl AllocGlobal + Abort), reply: Result<Option<TakenReply>, CoreFault>) -> String {
    let text = match reply {
        Ok(Some(reply)) => format!(in rt.alloc(); "{:?} {:?}", reply.reply(), reply.receipt()),
        Ok(None) => format!(in rt.alloc(); "none"),
        Err(fault) => format!(in rt.alloc(); "{fault:?}"),
    };
    text.expect(rt, "memory")
}

/// The answer to an event of a server or a leg.
fn moved<B: HubLedger, T: Ledger>(
    rt: &(impl AllocGlobal + Abort),
    guard: &mut Guard<'_, B, T>,
    word: &str,
    more: &str,
) -> String {
    let (number, name) = more.split_once(' ').unwrap_or((more, ""));
    let number = number_of(rt, number);
    match word {
        "next" => shown(rt, guard.next(server(number))),
        "replay" => shown(rt, guard.replay(server(number))),
        "lost" => shown(rt, state(guard.lost(LegId(number)))),
        "spooled" => {
            let stored = stored_after(rt, 0, b"a:11211", name.as_bytes());
            shown(rt, state(guard.spooled(LegId(number), stored)))
        }
        _ => {
            let reply = LegReply::new(rt.alloc(), reply(rt, name)).expect(rt, "memory");
            shown(rt, state(guard.answered(LegId(number), reply)))
        }
    }
}

fn receipt(entry: usize, call: u64) -> Receipt {
    Receipt {
        hub: 0,
        chapter: 0,
        entry,
        call: CallId(call),
    }
}

/// The hub closes over these receipts as wanted.
fn check_close<B: HubLedger, T: Ledger>(
    rt: &(impl AllocGlobal + Abort),
    guard: &mut Guard<'_, B, T>,
    seat: &mut Seat<B, T>,
    receipts: &[Receipt],
    wanted: Result<Report, ReceiptFault>,
) {
    let found = guard.close(rt.alloc(), seat, receipts);
    assert!(rt; found == wanted, "{found:?}, not {wanted:?}");
}

/// Whether the history has the entries of the two calls.
fn is_of_two_calls(history: &[Entry]) -> bool {
    matches!(
        history,
        [
            Entry::Began { key: 0, .. },
            Entry::Spooled(LegId(0)),
            Entry::Taken(CallId(0)),
            Entry::Performed(LegId(0)),
            Entry::Began { key: 0, .. },
            Entry::Answered { leg: LegId(1), .. },
            Entry::Taken(CallId(1)),
        ]
    )
}

/// What the hub says of the receipts of two calls.
fn check_closes<B: HubLedger, T: Ledger>(
    rt: &(impl AllocGlobal + Abort),
    guard: &mut Guard<'_, B, T>,
    seat: &mut Seat<B, T>,
) {
    let report = Report {
        begun: 2,
        taken: 2,
        older: 0,
    };
    let (first, second) = (receipt(2, 0), receipt(6, 1));
    check_close(rt, guard, seat, &[first, second], Ok(report));
    check_close(rt, guard, seat, &[first, first], Err(ReceiptFault::Twice));
    check_close(
        rt,
        guard,
        seat,
        &[receipt(0, 0)],
        Err(ReceiptFault::Stranger),
    );
    let other = Receipt { hub: 1, ..first };
    check_close(rt, guard, seat, &[other], Err(ReceiptFault::Stranger));
}

/// Two sessions, one after the other, and what the hub says of their receipts.
fn check_seats<B: HubLedger, T: Ledger>(
    rt: &(impl AllocGlobal + Abort),
    guard: &mut Guard<'_, B, T>,
    one: &mut Seat<B, T>,
    other: &mut Seat<B, T>,
) {
    play(rt, guard, one, DELETE);
    play(rt, guard, other, GET);
    assert!(rt; is_of_two_calls(guard.history()), "another history");
    check_closes(rt, guard, one);
}

/// A hub with two seats that are numbered from the ledgers' parts.
fn hub_of<B: HubLedger, T: Ledger>(
    rt: &(impl AllocGlobal + Abort),
    accepted: Arc<Accepted>,
    begun: Blank,
    taken: Blank,
) -> (Hub<B, T>, Passes<B, T>)
    requires begun { (begun.name ≡ B.name) × (begun.parts ≡ B.parts) × (begun.parts ≡ SEATS + 1) }
    requires taken { (taken.name ≡ T.name) × (taken.parts ≡ T.parts) × (taken.parts ≡ SEATS + 1) }
    requires number { 0 ≡ B.number }
    requires opened { B.opened ≡ opened_view (arc_value accepted) [] }
{
    let capacity = Capacity {
        flights: NonZeroUsize::MIN,
        bells: 4,
        seats: SEATS,
    };
    Hub::new(rt.alloc(), accepted, 0, &[], capacity, begun, taken).expect(rt, "memory")
}

/// A hub has two seats, and no third one.
fn two_seats<B: HubLedger, T: Ledger>(
    rt: &(impl AllocGlobal + Abort + Wait),
    accepted: Arc<Accepted>,
    begun: Blank,
    taken: Blank,
)
    requires begun { (begun.name ≡ B.name) × (begun.parts ≡ B.parts) × (begun.parts ≡ SEATS + 1) }
    requires taken { (taken.name ≡ T.name) × (taken.parts ≡ T.parts) × (taken.parts ≡ SEATS + 1) }
    requires number { 0 ≡ B.number }
    requires opened { B.opened ≡ opened_view (arc_value accepted) [] }
{
    let (hub, mut passes) = hub_of::<B, T>(rt, accepted, begun, taken);
    let mut pass = passes.pass();
    let mut one = passes.seat().expect(rt, "a seat");
    let mut other = passes.seat().expect(rt, "a second seat");
    assert!(rt; passes.seat().is_none(), "a third seat");
    check_seats(rt, &mut hub.lock(rt, &mut pass), &mut one, &mut other);
}

#[test]
fn two_seats_have_their_receipts(rt: HostRuntime) {
    let begun = Blank::new(SEATS + 1);
    let taken = Blank::new(SEATS + 1);
    let accepted = accepted_of(&rt, ONE).expect(&rt, "covered routes");
    two_seats::<Brand, Brand>(&rt, accepted, begun, taken);
}
