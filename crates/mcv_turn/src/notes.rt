//! What a desk has noted of what is to be looked at.

ghost use Rattle.std.specs.Prelude.{◌≡◌, ◌<◌, ◌⊎◌, [], ◌∷◌, ◌++◌, IfNone, IfSome, vec_capacity, vec_len};
ghost use Rattle.mcv_turn.specs.Runs.{Runs, SendsMore};
ghost use Rattle.mcv_turn.specs.Shown.{TellsPerformed};

use crate::arrival::Arrival;
use crate::came::{Performed, StoredLeg};
use crate::flight::{Departure, Flight, HeldLeg};
use crate::landing::{call_of, report};
use crate::sending::{take_again, take_next};
use crate::servers::Servers;
use crate::spooling::{held_leg, is_first_refusal, settle};
use mcv_base::{CallId, LegId, ServerId, ServerText};
use mcv_core::Dispatcher;
use mcv_hub::{Guard, HubLedger};
use std::alloc::Global;
use std::collections::HashMap;
use std::sync::ledger::Ledger;

/// More turns than come: of the servers under one hold of the lock, and of one server's legs.
const TURNS: u64 = u64::MAX;

/// The servers whose legs may be sent, the questions whose replies may be there, and what the spool does. The questions themselves are
/// the desk's, and nothing here touches them.
#[derive(Drop)]
pub(crate) struct Notes {
    alloc: Global,
    /// The servers' texts, for records.
    texts: Vec<Option<ServerText>>,
    pub(crate) servers: Servers,
    /// Which question waits for the reply to a call.
    pub(crate) awaited: HashMap<u64, usize>,
    /// Questions of which the next reply may be there.
    pub(crate) ready: Vec<usize>,
    /// For want of memory a question isn't noted where it should be: all are to be looked at.
    pub(crate) overlooks: bool,
    /// All legs of smaller numbers were noted at their servers.
    first: u64,
    /// A record is being written.
    is_storing: bool,
}

impl Notes {
    /// Nothing is noted.
    pub(crate) fn new(alloc: Global, texts: Vec<Option<ServerText>>, servers: Servers) -> Notes {
        Notes {
            alloc,
            texts,
            servers,
            awaited: HashMap::new(alloc),
            ready: Vec::new(alloc),
            overlooks: false,
            first: 0,
            is_storing: false,
        }
    }

    /// Legs in the spool are to be sent again, one to each server, where that is so.
    pub(crate) fn note_replays(&mut self, replays: bool) {
        if replays {
            self.servers.note_replays();
        }
    }

    /// A call's question awaits its reply.
    pub(crate) fn await_reply(&mut self, call: CallId, number: usize) {
        if self.awaited.insert(call.0, number).is_err() {
            self.overlooks = true;
        }
    }

    /// The next reply to a question may be there.
    pub(crate) fn note_ready(&mut self, number: usize) {
        if self.ready.push(number).is_err() {
            self.overlooks = true;
        }
    }

    /// Takes the marks of servers away that answer again.
    pub(crate) fn unmark_all<B: HubLedger, T: Ledger>(
        &mut self,
        guard: &mut Guard<'_, B, T>,
        answering: &[ServerId],
    )
        ensures { Runs guard.old [] [] guard.new }
    {
        for server in answering {
            guard.unmark(*server);
            self.servers.note_due(*server);
        }
    }

    /// Reports what became of legs in flight, in this order.
    pub(crate) fn report_all<B: HubLedger, T: Ledger>(
        &mut self,
        guard: &mut Guard<'_, B, T>,
        arrivals: Vec<Arrival>,
        performed: &mut Vec<Performed>,
    )
        ensures run { Runs guard.old arrivals.items [] guard.new }
        ensures performed { TellsPerformed guard.old arrivals.items performed.old.items performed.new.items }
    {
        for arrival in arrivals {
            self.report(guard, arrival, performed);
        }
    }

    /// Reports what became of a leg in flight. A leg more of its server may be sent, and the reply to its call may be there. Where it
    /// was sent again and performed, its record is done, and the server's next one comes.
    fn report<B: HubLedger, T: Ledger>(
        &mut self,
        guard: &mut Guard<'_, B, T>,
        arrival: Arrival,
        performed: &mut Vec<Performed>,
    )
        ensures run { Runs guard.old (arrival ∷ []) [] guard.new }
        ensures performed { TellsPerformed guard.old (arrival ∷ []) performed.old.items performed.new.items }
    {
        let server = arrival.server;
        let call = call_of(guard.core(), arrival.leg);
        let landed = report(guard, arrival);
        self.note_landed(server, landed, performed);
        self.servers.note_due(server);
        self.note_call(guard.core(), call);
    }

    /// Tells of the record whose leg the server has performed, if it has, and notes that its next one is to come. Without memory for its
    /// number it is pending until the next start, and its leg is sent once more then.
    fn note_landed(&mut self, server: ServerId, landed: Option<u64>, performed: &mut Vec<Performed>)
        ensures told { IfSome landed (λ number. (performed.new.items ≡ performed.old.items ++ (record { server = server; number = number }) ∷ []) ⊎ (performed.new.items ≡ performed.old.items)) }
        ensures none { IfNone landed (performed.new.items ≡ performed.old.items) }
    {
        let Some(number) = landed else {
            return;
        };
        let _ = performed.push(Performed { server, number });
        self.servers.note_replay(server);
    }

    /// Reports what the spool answered to a record.
    pub(crate) fn settle<B: HubLedger, T: Ledger>(
        &mut self,
        guard: &mut Guard<'_, B, T>,
        stored: Option<StoredLeg>,
    )
        ensures { Runs guard.old [] [] guard.new }
    {
        let Some(StoredLeg { leg, outcome }) = stored else {
            return;
        };
        self.is_storing = false;
        let call = call_of(guard.core(), leg);
        let _ = settle(guard, leg, outcome);
        self.note_call(guard.core(), call);
    }

    /// The reply to this call may be there: its question is to be looked at, if it waits for that.
    fn note_call(&mut self, core: &Dispatcher, call: Option<CallId>) {
        let Some(call) = call else {
            return;
        };
        if !core.can_take(call) {
            return;
        }
        if let Some(number) = self.awaited.get(&call.0).copied() {
            self.note_ready(number);
        }
    }

    /// Notes the servers of all legs that were launched since they were noted last.
    fn note_launched(&mut self, core: &Dispatcher) {
        let next = core.next_leg();
        for number in self.first..next {
            if let Some(view) = core.leg(LegId(number)) {
                self.servers.note_due(view.server);
            }
        }
        self.first = next;
    }

    /// Puts legs in flight to all servers that are due, until none is. Legs that are lost at once may launch others.
    pub(crate) fn send_all<B: HubLedger, T: Ledger>(
        &mut self,
        guard: &mut Guard<'_, B, T>,
        flights: &mut Vec<Flight>,
    )
        ensures { SendsMore guard.old guard.new flights.old.items flights.new.items }
    {
        for _round in 0..TURNS {
            self.note_launched(guard.core());
            if !self.send_round(guard, flights) {
                return;
            }
        }
    }

    /// Puts legs in flight to each server that is due. Whether one was.
    fn send_round<B: HubLedger, T: Ledger>(
        &mut self,
        guard: &mut Guard<'_, B, T>,
        flights: &mut Vec<Flight>,
    ) -> bool
        ensures { SendsMore guard.old guard.new flights.old.items flights.new.items }
    {
        let mut was_due = false;
        for number in 0..self.servers.count() {
            let is_due = self.send_where_due(guard, number, flights);
            was_due = was_due || is_due;
        }
        was_due
    }

    /// Puts legs in flight to the server of this number, if it is due. Whether it was.
    fn send_where_due<B: HubLedger, T: Ledger>(
        &mut self,
        guard: &mut Guard<'_, B, T>,
        number: usize,
        flights: &mut Vec<Flight>,
    ) -> bool
        ensures { SendsMore guard.old guard.new flights.old.items flights.new.items }
    {
        if !self.servers.take_due(number) {
            return false;
        }
        let Ok(number) = u32::try_from(number) else {
            return false;
        };
        let server = ServerId(number);
        self.send_again(guard, server, flights);
        self.send_to(guard, server, flights)
    }

    /// Where legs of a server are to be sent again, puts its first one that is in the spool in flight, unless the server is marked. Where
    /// none can be now it is left to the next time.
    fn send_again<B: HubLedger, T: Ledger>(
        &mut self,
        guard: &mut Guard<'_, B, T>,
        server: ServerId,
        flights: &mut Vec<Flight>,
    )
        ensures { SendsMore guard.old guard.new flights.old.items flights.new.items }
    {
        if !self.servers.take_replay(server) || guard.core().marked(server) {
            return;
        }
        if flights.reserve(1).is_err() {
            return;
        }
        match take_again(self.alloc, guard, server) {
            Ok(Departure::Sent(again)) => flights.push_reserved(again),
            Ok(Departure::Lost { leg: _, call: _ }) => {}
            Err(_) => {}
        }
    }

    /// Puts legs in flight to a server until none waits, or as many are in flight as may be. Whether it was looked at; without memory
    /// for a flight its legs wait for the next turn.
    fn send_to<B: HubLedger, T: Ledger>(
        &mut self,
        guard: &mut Guard<'_, B, T>,
        server: ServerId,
        flights: &mut Vec<Flight>,
    ) -> bool
        ensures { SendsMore guard.old guard.new flights.old.items flights.new.items }
    {
        for _leg in 0..TURNS {
            if flights.reserve(1).is_err() {
                self.servers.note_due(server);
                return false;
            }
            if !self.send_one(guard, server, flights) {
                return true;
            }
        }
        true
    }

    /// Puts the first leg that waits for a server in flight, or takes note that it is lost. Whether there was one that may be.
    fn send_one<B: HubLedger, T: Ledger>(
        &mut self,
        guard: &mut Guard<'_, B, T>,
        server: ServerId,
        flights: &mut Vec<Flight>,
    ) -> bool
        requires room { vec_len flights.old < vec_capacity flights.old }
        ensures { SendsMore guard.old guard.new flights.old.items flights.new.items }
    {
        match take_next(self.alloc, guard, server) {
            Ok(Departure::Sent(flight)) => {
                flights.push_reserved(flight);
                true
            }
            Ok(Departure::Lost { leg: _, call }) => {
                self.note_call(guard.core(), call);
                true
            }
            Err(_) => false,
        }
    }

    /// Gives the leg out whose record is to be written next. Where the spool isn't to be asked, held legs of which their calls have no
    /// outcome are refused at once.
    pub(crate) fn hold<B: HubLedger, T: Ledger>(
        &mut self,
        guard: &mut Guard<'_, B, T>,
        may_store: bool,
        next: &mut Option<HeldLeg>,
    )
        ensures { Runs guard.old [] [] guard.new }
    {
        for _leg in 0..TURNS {
            let Some(Some(held)) = held_leg(self.texts.as_slice(), guard) else {
                return;
            };
            if may_store {
                if !self.is_storing {
                    self.is_storing = true;
                    *next = Some(held);
                }
                return;
            }
            let call = call_of(guard.core(), held.leg);
            if !is_first_refusal(guard.spool_refused(held.leg)) {
                return;
            }
            self.note_call(guard.core(), call);
        }
    }
}
