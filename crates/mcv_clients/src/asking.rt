//! The desks, and who asks them.

ghost use Rattle.std.specs.Prelude.{◌≡◌, ◌↔◌, ◌<◌, ◌≤◌, ◌+◌, true, IfNone, IfOk, IfSome, sum_by};
ghost use Rattle.std.specs.Arc.{arc_value};
ghost use Rattle.mcv_desks.specs.Desks.{AsksHubs};
ghost use Rattle.mcv_desks.specs.Open.{AreSameRequests, IsOneLess, IsOneMore, IsOpen, asked_of, entering_of, servers_of};
ghost use Rattle.mcv_session.specs.Desk.{answer_value};
ghost use Rattle.mcv_text.specs.Request.{RequestValue, request_value};
ghost use Rattle.mcv_turn.specs.Shown.{is_known_marked};
ghost use Rattle.mcv_turn.specs.Values.{value_bytes};

use mcv_base::{Part, Request, ServerId};
use mcv_desks::LoopDesks;
use mcv_hub::{Pass, Receipt};
use mcv_hubs::{HubNames, Hubs, Names, Seats};
use mcv_session::DeskFault;
use mcv_turn::{Asker, Came, Gives};
use std::alloc::{AllocError, Global};
use std::collections::HashMap;
use std::marker::Model;
use std::sync::{Arc, Wait};

/// The desks at all hubs, and which client asks each request that is out. Clauses see the desks, and the serial number of the next request.
#[derive(Drop)]
pub(crate) struct Asking<'a, F: HubNames, G: Names> {
    desks: LoopDesks<'a, F, G>,
    /// The serial number of the next request.
    next: u64,
    /// The number of the client of each request that is out, by the request's serial number.
    askers: HashMap<u64, usize>,
}

impl<'a, F: HubNames, G: Names> Model for Asking<'a, F, G> {
    ghost use Rattle.mcv_clients.specs.Asking.{AreAsked, AskingView};

    ghost Value = { AskingView };

    ghost view = { λ a. record { desks = a.desks; next = a.next } };

    ghost invariant = { λ a. AreAsked a.desks a.next };
}

/// The answer to the request of this serial number.
#[derive(Drop)]
pub(crate) struct Answered {
    pub(crate) serial: u64,
    /// The number of the client that asked it; None where that has gone.
    pub(crate) client: Option<usize>,
    pub(crate) request: Arc<Request>,
    pub(crate) outcome: Result<Vec<Part>, DeskFault>,
}

impl<'a, F: HubNames, G: Names> Asking<'a, F, G> {
    /// Desks that were asked nothing, whose answers may have values of so many bytes together. An error is that memory ran out.
    pub(crate) fn new(
        alloc: Global,
        hubs: &'a Hubs<F, G>,
        seats: Seats<F, G>,
        most: usize,
    ) -> Result<Asking<'a, F, G>, AllocError>
        ensures hubs { IfOk result (λ a. a.desks.hubs ≡ hubs.now.choice) }
        ensures most { IfOk result (λ a. a.desks.most ≡ most) }
    {
        let desks = LoopDesks::new(alloc, hubs, seats, most)?;
        Ok(Asking {
            desks,
            next: 0,
            askers: HashMap::new(alloc),
        })
    }

    /// Asks a request of the client of this number: its serial number. None where memory ran out, or 2^64 - 1 requests were asked.
    pub(crate) fn ask(&mut self, client: usize, request: &Arc<Request>) -> Option<u64>
        ensures number { IfSome result (λ serial. (serial ≡ self.old.next) × (self.new.next ≡ serial + 1)) }
        ensures asked { IfSome result (λ serial. IsOneMore self.old.desks self.new.desks serial (request_value (arc_value request.now))) }
        ensures fresh { IfSome result (λ serial. (request : RequestValue) → IsOpen self.old.desks serial request → ⊥) }
        ensures none { IfNone result ((self.old.next ≤ self.new.next) × AreSameRequests self.old.desks self.new.desks) }
    {
        let serial = self.next;
        let Some(next) = serial.checked_add(1) else {
            return None;
        };
        let Ok(given) = request.clone() else {
            return None;
        };
        if self.askers.insert(serial, client).is_err() {
            return None;
        }
        self.next = next;
        match self.desks.ask(serial, given) {
            Ok(()) => Some(serial),
            Err(_) => {
                let _ = self.askers.remove(&serial);
                None
            }
        }
    }

    /// The client of the request of this serial number has gone.
    pub(crate) fn forget(&mut self, serial: u64)
        ensures { self.new ≡ self.old }
    {
        let _ = self.askers.remove(&serial);
    }

    /// All clients have gone.
    pub(crate) fn forget_all(&mut self)
        ensures { self.new ≡ self.old }
    {
        self.askers.clear();
    }

    /// The next answer that is there.
    pub(crate) fn answer(&mut self) -> Option<Answered>
        ensures next { self.new.next ≡ self.old.next }
        ensures answered { IfSome result (λ a. IsOneLess self.old.desks self.new.desks a.serial (request_value (arc_value a.request))) }
        ensures none { IfNone result (AreSameRequests self.old.desks self.new.desks) }
        ensures answer { IfSome result (λ a. AsksHubs F.opened_of self.old.desks.hubs (request_value (arc_value a.request)) (answer_value a.outcome)) }
        ensures within { IfSome result (λ a. IfOk a.outcome (λ parts. sum_by value_bytes parts.items ≤ self.old.desks.most)) }
    {
        let Some(answer) = self.desks.answer() else {
            return None;
        };
        match answer.asker {
            Asker::Session(serial) => Some(Answered {
                serial,
                client: self.askers.remove(&serial),
                request: answer.request,
                outcome: answer.outcome,
            }),
            Asker::Key { .. } => unreachable!(),
        }
    }

    /// One turn at the hub of this number, under its lock. The same requests are open as before.
    pub(crate) fn turn<R: Wait>(
        &mut self,
        rt: &R,
        hubs: &Hubs<F, G>,
        pass: &mut Pass,
        hub: usize,
        came: Came,
        gives: &mut Gives,
    )
        ensures next { self.new.next ≡ self.old.next }
        ensures desks { AreSameRequests self.old.desks self.new.desks }
    {
        self.desks.turn(rt, hubs, pass, hub, came, gives);
    }

    /// Whether requests were asked at the hub of this number since its last turn.
    pub(crate) fn is_asked(&self, hub: usize) -> bool
        ensures { result ≡ asked_of self.now.desks hub }
    {
        self.desks.is_asked(hub)
    }

    /// Whether requests wait to begin at the hub of this number.
    pub(crate) fn waits(&self, hub: usize) -> bool
        ensures { (result ≡ true) ↔ (0 < entering_of self.now.desks hub) }
    {
        self.desks.waits(hub)
    }

    /// Whether the server was marked in the last turn at the hub of this number.
    pub(crate) fn is_marked(&self, hub: usize, server: ServerId) -> bool
        ensures { result ≡ is_known_marked (servers_of self.now.desks hub) server }
    {
        self.desks.is_marked(hub, server)
    }

    /// The seats, and the receipts that were kept. An error is that there was no memory for all receipts.
    pub(crate) fn into_parts(self) -> (Seats<F, G>, Result<Vec<Receipt>, AllocError>)
        ensures seats { result.0 ≡ self.entry.desks.tallies }
        ensures receipts { IfOk result.1 (λ v. v.items ≡ self.entry.desks.receipts) }
    {
        let Asking { desks, .. } = self;
        desks.into_parts()
    }
}
