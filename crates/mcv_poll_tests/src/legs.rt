//! Legs of a hub whose records are to be written.

use mcv_base::Moment;
use mcv_hub::{Hub, HubLedger, Pass, Passes};
use mcv_spool::SpoolFault;
use mcv_text::{Item, RequestReader};
use mcv_turn::{Arrival, Asker, Came, Gives, HeldLeg, LoopDesk, StoredLeg};
use std::process::Abort;
use std::sync::ledger::Ledger;
use std::sync::{Arc, Wait};

/// Deletes, each of another key.
const DELETES: &[u8] = b"delete a\r\ndelete b\r\ndelete c\r\n";

/// Their keys, in this order, each of one byte.
pub(crate) const KEYS: &[u8] = b"abc";

/// How many turns it takes until each leg was given out: the first one puts a leg in flight, and each other one loses a leg.
const TURNS: u64 = 4;

/// Asks the deletes.
fn ask_all<B: HubLedger, T: Ledger>(
    rt: &(impl AllocGlobal + Abort),
    desk: &mut LoopDesk<'_, B, T>,
) {
    let items = RequestReader::new(rt.alloc()).feed(DELETES);
    let items = items.ok().expect(rt, "memory");
    for (number, item) in items.into_iter().enumerate() {
        let Item::Asked(request) = item else {
            panic!(rt; "no request");
        };
        let request = Arc::new(rt.alloc(), request).ok().expect(rt, "memory");
        desk.ask(Asker::Session(number as u64), request)
            .expect(rt, "memory");
    }
}

/// What comes of what a turn gave: each leg is lost that came in flight, and the spool refuses the record.
fn loss_of(rt: &(impl AllocGlobal + Abort), gives: &Gives) -> Came {
    let mut came = Came::at(rt.alloc(), Moment(0));
    for flight in gives.flights.iter() {
        let arrival = Arrival::lost(flight.server, flight.leg);
        came.arrivals.push(arrival).ok().expect(rt, "memory");
    }
    if let Some(held) = &gives.held {
        came.stored = Some(StoredLeg {
            leg: held.leg,
            outcome: Err(SpoolFault::Full),
        });
    }
    came
}

/// What a turn gives.
fn turn<B: HubLedger, T: Ledger, R: AllocGlobal + Wait>(
    rt: &R,
    hub: &Hub<B, T>,
    pass: &mut Pass,
    desk: &mut LoopDesk<'_, B, T>,
    came: Came,
) -> Gives {
    let mut gives = Gives::new(rt.alloc());
    let mut guard = hub.lock(rt, pass);
    desk.turn(&mut guard, came, &mut gives);
    gives
}

/// The legs of deletes of `KEYS`, in this order. Their server may have one leg in flight, which the next turn loses; the spool refuses
/// each record, so that the next one is given out.
pub(crate) fn held_legs<B: HubLedger, T: Ledger, R: AllocGlobal + Abort + Wait>(
    rt: &R,
    hub: &Hub<B, T>,
    passes: &mut Passes<B, T>,
) -> Vec<HeldLeg> {
    let alloc = rt.alloc();
    let mut pass = passes.pass();
    let seat = passes.seat().expect(rt, "a seat");
    let mut desk = LoopDesk::new(alloc, hub, seat, usize::MAX).expect(rt, "memory");
    ask_all(rt, &mut desk);
    let mut came = Came::at(alloc, Moment(0));
    let mut legs = Vec::new(alloc);
    for _turn in 0..TURNS {
        let gives = turn(rt, hub, &mut pass, &mut desk, came);
        came = loss_of(rt, &gives);
        let Gives { held, .. } = gives;
        if let Some(held) = held {
            legs.push(held).ok().expect(rt, "memory");
        }
    }
    legs
}
