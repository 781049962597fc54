//! The end of all hubs.

ghost use Rattle.std.specs.Prelude.{◌≡◌, IfOk, IsTrue, ◌↔◌};
ghost use Rattle.mcv_hubs.specs.Counts.{tally};
ghost use Rattle.mcv_hubs.specs.Reports.{AreOfHubs, IsAnswerOf, IsClosing, both, receipts_at, sum_of_two};

use crate::choice::MOST_HUBS;
use crate::hubs::Hubs;
use crate::names::{HubNames, Names};
use crate::one;
use crate::seats::Seats;
use mcv_hub::{Hub, HubLedger, Pass, Receipt, ReceiptFault, Report, Seat};
use std::alloc::{AllocError, Global};
use std::sync::Wait;
use std::sync::ledger::Ledger;

/// The receipts that name this hub, in their order.
fn receipts_at(alloc: Global, receipts: &[Receipt], hub: usize) -> Result<Vec<Receipt>, AllocError>
    ensures { IfOk result (λ found. found.items ≡ receipts_at hub receipts.now) }
{
    let mut found = Vec::new(alloc);
    for receipt in receipts {
        if receipt.hub == hub {
            found.push(*receipt)?;
        }
    }
    Ok(found)
}

/// Whether each receipt names one of eight hubs.
fn are_of_hubs(receipts: &[Receipt]) -> bool
    ensures { IsTrue result ↔ AreOfHubs receipts.now }
{
    receipts.iter().all(|receipt| receipt.hub < MOST_HUBS)
}

/// Two reports, added up.
fn sum_of_two(one: Report, other: Report) -> Report
    ensures { result ≡ sum_of_two one other }
{
    Report {
        begun: one.begun.saturating_add(other.begun),
        taken: one.taken.saturating_add(other.taken),
        older: one.older.saturating_add(other.older),
    }
}

/// Two reports, added up; where one is refused, the first refusal.
fn both(
    one: Result<Report, ReceiptFault>,
    other: Result<Report, ReceiptFault>,
) -> Result<Report, ReceiptFault>
    ensures { result ≡ both one other }
{
    match one {
        Ok(one) => match other {
            Ok(other) => Ok(sum_of_two(one, other)),
            Err(fault) => Err(fault),
        },
        Err(fault) => Err(fault),
    }
}

/// The answer of one hub, which has this number, on the receipts that name it.
fn close_one<B: HubLedger, T: Ledger, R: Wait>(
    rt: &R,
    alloc: Global,
    hub: &Hub<B, T>,
    pass: &mut Pass,
    seat: &mut Seat<B, T>,
    named: (&[Receipt], usize),
) -> Result<Report, ReceiptFault>
    ensures answer { IsAnswerOf B.number B.parts T.parts (receipts_at named.entry.1 named.entry.0.now) (tally seat.old.begun.amount seat.old.taken.amount seat.old.begun.parts seat.old.taken.parts) result }
    ensures same { tally seat.new.begun.amount seat.new.taken.amount seat.new.begun.parts seat.new.taken.parts ≡ tally seat.old.begun.amount seat.old.taken.amount seat.old.begun.parts seat.old.taken.parts }
{
    match receipts_at(alloc, named.0, named.1) {
        Ok(receipts) => one::close(rt, alloc, hub, pass, seat, receipts.as_slice()),
        Err(_) => Err(ReceiptFault::Memory),
    }
}

impl<F: HubNames, G: Names> Hubs<F, G> {
    /// Closes the books of all hubs, one after the other: what all of them counted, where each receipt names a hub and passes
    /// there. Where one names no hub it is Stranger; else each hub answers on its own receipts, and the first refusal counts.
    pub fn close<R: Wait>(
        &self,
        rt: &R,
        alloc: Global,
        pass: &mut Pass,
        seats: &mut Seats<F, G>,
        receipts: &[Receipt],
    ) -> Result<Report, ReceiptFault>
        ensures closing { IsClosing F.parts_of G.parts_of receipts.now seats.old result }
        ensures same { seats.new ≡ seats.old }
    {
        if !are_of_hubs(receipts) {
            return Err(ReceiptFault::Stranger);
        }
        let total = Ok(Report {
            begun: 0,
            taken: 0,
            older: 0,
        });
        let answer0 = close_one(rt, alloc, &self.hub0, pass, &mut seats.seat0, (receipts, 0));
        let total = both(total, answer0);
        let answer1 = close_one(rt, alloc, &self.hub1, pass, &mut seats.seat1, (receipts, 1));
        let total = both(total, answer1);
        let answer2 = close_one(rt, alloc, &self.hub2, pass, &mut seats.seat2, (receipts, 2));
        let total = both(total, answer2);
        let answer3 = close_one(rt, alloc, &self.hub3, pass, &mut seats.seat3, (receipts, 3));
        let total = both(total, answer3);
        let answer4 = close_one(rt, alloc, &self.hub4, pass, &mut seats.seat4, (receipts, 4));
        let total = both(total, answer4);
        let answer5 = close_one(rt, alloc, &self.hub5, pass, &mut seats.seat5, (receipts, 5));
        let total = both(total, answer5);
        let answer6 = close_one(rt, alloc, &self.hub6, pass, &mut seats.seat6, (receipts, 6));
        let total = both(total, answer6);
        let answer7 = close_one(rt, alloc, &self.hub7, pass, &mut seats.seat7, (receipts, 7));
        let total = both(total, answer7);
        total
    }
}
