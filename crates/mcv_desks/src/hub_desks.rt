//! One desk at each hub.

ghost use Rattle.std.specs.Prelude.{◌≡◌, ◌↔◌, ◌<◌, ◌++◌, ℕ, true, None, Ok, Vec, IfNone, IfOk, IfSome, OnErr, OnOk};
ghost use Rattle.std.specs.Arc.{arc_value};
ghost use Rattle.std.specs.declared.alloc.Global.{Global as TheAllocator};
ghost use Rattle.mcv_desks.specs.Asked.{AtOne, asked_at, entering_at, questions_at, receipts_of, servers_at, tallies_of};
ghost use Rattle.mcv_hub.specs.declared.receipts.Receipt.{Receipt as TheReceipt};
ghost use Rattle.mcv_session.specs.Desk.{answer_value};
ghost use Rattle.mcv_text.specs.Request.{request_value};
ghost use Rattle.mcv_turn.specs.Answers.{IsAnswer};
ghost use Rattle.mcv_turn.specs.OpenRequests.{AreSameOpen, Closes, Opens, open_at};
ghost use Rattle.mcv_turn.specs.Shown.{is_known_marked};

use mcv_base::{Request, ServerId};
use mcv_hub::{Hub, HubLedger, Pass, Receipt};
use mcv_hubs::{At, HubNames, Hubs, Names, Seats};
use mcv_turn::{Answer, Asker, Came, Gives, LoopDesk};
use std::alloc::{AllocError, Global};
use std::sync::ledger::Ledger;
use std::sync::{Arc, Wait};

/// A desk at each of eight hubs.
#[derive(Drop)]
pub(crate) struct HubDesks<'a, F: HubNames, G: Names> {
    desk0: LoopDesk<'a, At<F, 0>, At<G, 0>>,
    desk1: LoopDesk<'a, At<F, 1>, At<G, 1>>,
    desk2: LoopDesk<'a, At<F, 2>, At<G, 2>>,
    desk3: LoopDesk<'a, At<F, 3>, At<G, 3>>,
    desk4: LoopDesk<'a, At<F, 4>, At<G, 4>>,
    desk5: LoopDesk<'a, At<F, 5>, At<G, 5>>,
    desk6: LoopDesk<'a, At<F, 6>, At<G, 6>>,
    desk7: LoopDesk<'a, At<F, 7>, At<G, 7>>,
}

/// One turn at one hub, under its lock. The same requests are open as before.
fn turn_at<B: HubLedger, T: Ledger, R: Wait>(
    rt: &R,
    hub: &Hub<B, T>,
    pass: &mut Pass,
    desk: &mut LoopDesk<'_, B, T>,
    came: Came,
    gives: &mut Gives,
)
    ensures { AreSameOpen desk.old.questions desk.new.questions }
{
    let mut guard = hub.lock(rt, pass);
    desk.turn(&mut guard, came, gives);
}

/// These receipts, and those of one more desk. An error is that memory ran out.
fn with_more(
    all: Result<Vec<Receipt>, AllocError>,
    other: Vec<Receipt>,
) -> Result<Vec<Receipt>, AllocError>
    ensures { IfOk result (λ v. (before : Vec TheReceipt TheAllocator) × (all ≡ Ok before) × (v.items ≡ before.items ++ other.items)) }
{
    match all {
        Ok(all) => joined(all, other.as_slice()),
        Err(fault) => Err(fault),
    }
}

/// These receipts, and others behind them. An error is that memory ran out.
fn joined(all: Vec<Receipt>, others: &[Receipt]) -> Result<Vec<Receipt>, AllocError>
    ensures { IfOk result (λ v. v.items ≡ all.items ++ others.now) }
{
    let mut all = all;
    all.extend_from_slice(others)?;
    Ok(all)
}

impl<'a, F: HubNames, G: Names> HubDesks<'a, F, G> {
    /// Desks that were asked nothing, each for answers with values of so many bytes. An error is that memory ran out.
    pub(crate) fn new(
        alloc: Global,
        hubs: &'a Hubs<F, G>,
        seats: Seats<F, G>,
        most: usize,
    ) -> Result<HubDesks<'a, F, G>, AllocError>
        ensures { IfOk result (λ d. (hub number : ℕ) → open_at (questions_at d hub) number ≡ None) }
    {
        let Seats {
            seat0,
            seat1,
            seat2,
            seat3,
            seat4,
            seat5,
            seat6,
            seat7,
        } = seats;
        let desk0 = LoopDesk::new(alloc, &hubs.hub0, seat0, most)?;
        let desk1 = LoopDesk::new(alloc, &hubs.hub1, seat1, most)?;
        let desk2 = LoopDesk::new(alloc, &hubs.hub2, seat2, most)?;
        let desk3 = LoopDesk::new(alloc, &hubs.hub3, seat3, most)?;
        let desk4 = LoopDesk::new(alloc, &hubs.hub4, seat4, most)?;
        let desk5 = LoopDesk::new(alloc, &hubs.hub5, seat5, most)?;
        let desk6 = LoopDesk::new(alloc, &hubs.hub6, seat6, most)?;
        let desk7 = LoopDesk::new(alloc, &hubs.hub7, seat7, most)?;
        Ok(HubDesks {
            desk0,
            desk1,
            desk2,
            desk3,
            desk4,
            desk5,
            desk6,
            desk7,
        })
    }

    /// Asks the desk at the hub of this number. An error is that memory ran out, and changes nothing.
    pub(crate) fn ask_at(
        &mut self,
        hub: usize,
        asker: Asker,
        request: Arc<Request>,
    ) -> Result<(), AllocError>
        requires { hub < 8 }
        ensures { AtOne (λ old new. OnOk result (Opens old new asker (request_value (arc_value request))) × OnErr result (AreSameOpen old new)) hub (questions_at self.old) (questions_at self.new) }
    {
        match hub {
            0 => self.desk0.ask(asker, request),
            1 => self.desk1.ask(asker, request),
            2 => self.desk2.ask(asker, request),
            3 => self.desk3.ask(asker, request),
            4 => self.desk4.ask(asker, request),
            5 => self.desk5.ask(asker, request),
            6 => self.desk6.ask(asker, request),
            _ => self.desk7.ask(asker, request),
        }
    }

    /// The answer of the desk at the hub of this number to its next open request that is done; None where none is.
    pub(crate) fn answer_at(&mut self, hub: usize) -> Option<Answer>
        requires { hub < 8 }
        ensures answer { IfSome result (λ a. IsAnswer (F.opened_of hub) (request_value (arc_value a.request)) (answer_value a.outcome)) }
        ensures closed { AtOne (λ old new. IfSome result (λ a. Closes old new a.asker (request_value (arc_value a.request))) × IfNone result (AreSameOpen old new)) hub (questions_at self.old) (questions_at self.new) }
    {
        match hub {
            0 => self.desk0.answer(),
            1 => self.desk1.answer(),
            2 => self.desk2.answer(),
            3 => self.desk3.answer(),
            4 => self.desk4.answer(),
            5 => self.desk5.answer(),
            6 => self.desk6.answer(),
            _ => self.desk7.answer(),
        }
    }

    /// One turn at the hub of this number, under its lock. The same requests are open as before.
    pub(crate) fn turn<R: Wait>(
        &mut self,
        rt: &R,
        hubs: &Hubs<F, G>,
        pass: &mut Pass,
        hub: usize,
        came: Came,
        gives: &mut Gives,
    )
        ensures { (at : ℕ) → AreSameOpen (questions_at self.old at) (questions_at self.new at) }
    {
        match hub {
            0 => turn_at(rt, &hubs.hub0, pass, &mut self.desk0, came, gives),
            1 => turn_at(rt, &hubs.hub1, pass, &mut self.desk1, came, gives),
            2 => turn_at(rt, &hubs.hub2, pass, &mut self.desk2, came, gives),
            3 => turn_at(rt, &hubs.hub3, pass, &mut self.desk3, came, gives),
            4 => turn_at(rt, &hubs.hub4, pass, &mut self.desk4, came, gives),
            5 => turn_at(rt, &hubs.hub5, pass, &mut self.desk5, came, gives),
            6 => turn_at(rt, &hubs.hub6, pass, &mut self.desk6, came, gives),
            _ => turn_at(rt, &hubs.hub7, pass, &mut self.desk7, came, gives),
        }
    }

    /// Whether requests were asked at the hub of this number since its last turn.
    pub(crate) fn is_asked(&self, hub: usize) -> bool
        ensures { result ≡ asked_at self.now hub }
    {
        match hub {
            0 => self.desk0.is_asked(),
            1 => self.desk1.is_asked(),
            2 => self.desk2.is_asked(),
            3 => self.desk3.is_asked(),
            4 => self.desk4.is_asked(),
            5 => self.desk5.is_asked(),
            6 => self.desk6.is_asked(),
            _ => self.desk7.is_asked(),
        }
    }

    /// Whether requests wait to begin at the hub of this number.
    pub(crate) fn waits(&self, hub: usize) -> bool
        ensures { (result ≡ true) ↔ (0 < entering_at self.now hub) }
    {
        match hub {
            0 => self.desk0.waits(),
            1 => self.desk1.waits(),
            2 => self.desk2.waits(),
            3 => self.desk3.waits(),
            4 => self.desk4.waits(),
            5 => self.desk5.waits(),
            6 => self.desk6.waits(),
            _ => self.desk7.waits(),
        }
    }

    /// Whether the server was marked at the end of the last turn at the hub of this number.
    pub(crate) fn is_marked(&self, hub: usize, server: ServerId) -> bool
        ensures { result ≡ is_known_marked (servers_at self.now hub) server }
    {
        match hub {
            0 => self.desk0.is_marked(server),
            1 => self.desk1.is_marked(server),
            2 => self.desk2.is_marked(server),
            3 => self.desk3.is_marked(server),
            4 => self.desk4.is_marked(server),
            5 => self.desk5.is_marked(server),
            6 => self.desk6.is_marked(server),
            _ => self.desk7.is_marked(server),
        }
    }

    /// The seats, and the receipts that were kept, those of the first hub first. An error is that there was no memory for all receipts.
    pub(crate) fn into_parts(self) -> (Seats<F, G>, Result<Vec<Receipt>, AllocError>)
        ensures seats { result.0 ≡ tallies_of self.entry }
        ensures receipts { IfOk result.1 (λ v. v.items ≡ receipts_of self.entry) }
    {
        let HubDesks {
            desk0,
            desk1,
            desk2,
            desk3,
            desk4,
            desk5,
            desk6,
            desk7,
        } = self;
        let (seat0, receipts0) = desk0.into_parts();
        let (seat1, receipts1) = desk1.into_parts();
        let (seat2, receipts2) = desk2.into_parts();
        let (seat3, receipts3) = desk3.into_parts();
        let (seat4, receipts4) = desk4.into_parts();
        let (seat5, receipts5) = desk5.into_parts();
        let (seat6, receipts6) = desk6.into_parts();
        let (seat7, receipts7) = desk7.into_parts();
        let seats = Seats {
            seat0,
            seat1,
            seat2,
            seat3,
            seat4,
            seat5,
            seat6,
            seat7,
        };
        let receipts = with_more(Ok(receipts0), receipts1);
        let receipts = with_more(receipts, receipts2);
        let receipts = with_more(receipts, receipts3);
        let receipts = with_more(receipts, receipts4);
        let receipts = with_more(receipts, receipts5);
        let receipts = with_more(receipts, receipts6);
        (seats, with_more(receipts, receipts7))
    }
}
