//! A client of a loop.

ghost use Rattle.std.specs.Prelude.{◌≡◌, ◌<◌, ◌⊎◌, None, Some, IfNone, IfSome, length, true};
ghost use Rattle.std.specs.Arc.{arc_value};
ghost use Rattle.mcv_session.specs.Desk.{answer_value};
ghost use Rattle.mcv_session.specs.Exchange.{by_desk, text_of};
ghost use Rattle.mcv_session.specs.Machine.{Fails, History, Lived, Passes, Replies};
ghost use Rattle.mcv_session.specs.declared.phase.Phase.{Phase as Stage};
ghost use Rattle.mcv_text.specs.Request.{AskValue, asking, request_value};
ghost use Rattle.mcv_text.specs.Stream.{Awaits};
ghost use Rattle.mcv_clients.specs.Life.{IsAnswered, IsToldOf, came_client, wire};
ghost use Rattle.mcv_clients.specs.Steps.{Goes, Told};

use crate::limits::MOST_OUTPUT;
use mcv_base::{Part, Request};
use mcv_connection::{Connection, Received, Sent, has_passed, receive, send};
use mcv_hubs::HubNames;
use mcv_session::{
    DeskFault, Machine, Phase, life_begins, life_of_answering, life_of_failing, life_of_feeding,
    life_of_writing,
};
use std::alloc::Global;
use std::marker::{Model, PhantomData};
use std::snapshot::Snapshot;
use std::sync::Arc;
use std::time::{Duration, Instant};

/// A client: its connection and its session. Clauses see what its connection has carried since it came, the session, and the number of
/// its request that is out.
#[derive(Drop)]
pub(crate) struct Client<F: HubNames, C: Connection> {
    connection: C,
    /// The connection as it came; clauses alone read it.
    came: Snapshot<C>,
    machine: Machine,
    /// The number of its request that is out.
    out: Option<u64>,
    /// Among how many hubs it asks.
    hubs: usize,
    /// It sends no more.
    ends: bool,
    /// All that is read of it was read.
    is_at_end: bool,
    /// Bytes may be there that weren't read.
    is_unread: bool,
    /// Nothing is written before it is ready.
    is_full: bool,
    /// Its next request, if there is one, waits until it has taken more of what it is told.
    is_held: bool,
    /// It is among those that are to be served.
    is_touched: bool,
    /// When it sent its last byte, took one or was answered.
    since: Option<Instant>,
    family: PhantomData<F>,
}

impl<F: HubNames, C: Connection> Model for Client<F, C> {
    ghost use Rattle.mcv_clients.specs.Life.{ClientView, IsClient, client, wire};

    ghost Value = { ClientView };

    ghost view = { λ c. client (wire (C.unread c.came.value) (C.written c.came.value)) (wire (C.unread c.connection) (C.written c.connection)) c.machine c.out c.hubs };

    ghost invariant = { λ c. IsClient F.opened_of (client (wire (C.unread c.came.value) (C.written c.came.value)) (wire (C.unread c.connection) (C.written c.connection)) c.machine c.out c.hubs) };
}

/// The next request of a session; None where it has none, or memory ran out.
fn next_of(session: &mut Machine) -> Option<Arc<Request>>
    ensures lives { (from : Awaits) (h : History) → Lived from h session.old → Passes from h session.new }
    ensures asks { IfSome result (λ r. session.new.request ≡ Some (request_value (arc_value r))) }
    ensures of_desk { IfSome result (λ r. (ask : AskValue) × (request_value (arc_value r) ≡ asking ask)) }
    ensures none { IfNone result ((session.new.request ≡ session.old.request) ⊎ (session.new.phase ≡ Stage.Failed)) }
{
    match session.next_request() {
        Ok(found) => found,
        Err(_) => None,
    }
}

/// Gives a session the answer to its request. Where memory runs out it has failed.
fn put_answer(session: &mut Machine, outcome: Result<Vec<Part>, DeskFault>)
    ensures { (ask : AskValue) → session.old.request ≡ Some (asking ask) → Replies session.old (text_of (by_desk ask (answer_value outcome))) session.new ⊎ Fails session.old session.new }
{
    match outcome {
        Ok(parts) => {
            let _ = session.answer(parts.as_slice());
        }
        Err(fault) => {
            let _ = session.refuse(fault);
        }
    }
}

impl<F: HubNames, C: Connection> Client<F, C> {
    /// A client of which nothing was read.
    pub(crate) fn new(
        alloc: Global,
        connection: C,
        hubs: usize,
        now: Option<Instant>,
    ) -> Client<F, C>
        ensures { result ≡ came_client (wire (C.unread connection) (C.written connection)) hubs }
    {
        life_begins();
        let came = Snapshot::of(&connection);
        Client {
            connection,
            came,
            machine: Machine::new(alloc),
            out: None,
            hubs,
            ends: false,
            is_at_end: false,
            is_unread: true,
            is_full: false,
            is_held: false,
            is_touched: false,
            since: now,
            family: PhantomData,
        }
    }

    /// The number of its request that is out.
    pub(crate) fn out(&self) -> Option<u64>
        ensures { result ≡ self.now.out }
    {
        self.out
    }

    /// It was told, in order, the answers of the hubs to the first of the requests that it sent since it came.
    pub(crate) fn is_answered_in_order(&self)
        ensures { IsAnswered F.opened_of self.now }
    {
        let _ = &self.connection;
    }

    /// Whether its request that is out has this number.
    pub(crate) fn awaits(&self, number: u64) -> bool
        ensures { result ≡ true → self.now.out ≡ Some number }
    {
        match self.out {
            Some(its) => its == number,
            None => false,
        }
    }

    /// Whether its bytes can be read: nothing of what was read waits, no request is out, and it takes what it is told.
    fn reads(&self) -> bool
        ensures free { result ≡ true → self.now.out ≡ None }
        ensures goes_on { result ≡ true → self.now.session.phase ≡ Stage.Open }
    {
        self.machine.phase() == Phase::Open
            && !self.is_at_end
            && self.out.is_none()
            && self.has_room()
    }

    /// Whether it takes what it is told: little of that waits to be written.
    fn has_room(&self) -> bool {
        self.machine.output().len() < MOST_OUTPUT
    }

    /// Whether a read may give bytes.
    pub(crate) fn is_readable(&self) -> bool {
        self.is_unread && self.reads()
    }

    /// Whether there is something to be done with it now.
    pub(crate) fn is_due(&self) -> bool {
        self.is_readable()
            || (self.is_held && self.has_room())
            || (!self.is_full && !self.machine.output().is_empty())
    }

    /// Whether its connection is to be closed: its session or its bytes have ended, no request is out, and all is written.
    pub(crate) fn is_over(&self) -> bool {
        (self.is_at_end || self.machine.phase() != Phase::Open)
            && self.out.is_none()
            && !self.is_held
            && self.machine.output().is_empty()
    }

    /// Whether it has sent no byte and taken none for so long, though no request of it is out.
    pub(crate) fn is_late(&self, now: Option<Instant>, limit: Option<Duration>) -> bool
        ensures { result ≡ true → self.now.out ≡ None }
    {
        self.out.is_none() && has_passed(self.since, now, limit)
    }

    /// Bytes of it may be there. It `ends` where it sends no more.
    pub(crate) fn note_readable(&mut self, ends: bool, now: Option<Instant>)
        ensures { self.new ≡ self.old }
    {
        self.is_unread = true;
        self.ends = self.ends || ends;
        self.since = now;
    }

    /// It takes bytes again.
    pub(crate) fn note_writable(&mut self, now: Option<Instant>)
        ensures { self.new ≡ self.old }
    {
        self.is_full = false;
        self.since = now;
    }

    /// Nothing more is read of it.
    pub(crate) fn end_input(&mut self)
        ensures { self.new ≡ self.old }
    {
        self.is_at_end = true;
    }

    /// It is to be served. Whether it was not before.
    pub(crate) fn touch(&mut self) -> bool
        ensures { self.new ≡ self.old }
    {
        let is_new = !self.is_touched;
        self.is_touched = true;
        is_new
    }

    /// It is being served.
    pub(crate) fn note_served(&mut self)
        ensures { self.new ≡ self.old }
    {
        self.is_touched = false;
    }

    /// Whether it can have a next request: none is out, and its session goes on.
    fn can_ask(&self) -> bool
        ensures free { result ≡ true → self.now.out ≡ None }
        ensures goes_on { result ≡ true → self.now.session.phase ≡ Stage.Open }
    {
        self.out.is_none() && self.machine.phase() == Phase::Open
    }

    /// Whether its next request is taken: none is out, its session goes on, and it takes what it is told.
    fn can_take(&self) -> bool
        ensures free { result ≡ true → self.now.out ≡ None }
        ensures goes_on { result ≡ true → self.now.session.phase ≡ Stage.Open }
    {
        self.can_ask() && self.has_room()
    }

    /// Notes whether its next request has to wait until it has taken more of what it is told.
    pub(crate) fn note_room(&mut self)
        ensures { self.new ≡ self.old }
    {
        self.is_held = self.can_ask() && !self.has_room();
    }

    /// Its next request, where none is out and it takes what it is told. It is to be asked, or refused.
    pub(crate) fn next_request(&mut self) -> Option<Arc<Request>>
        ensures goes { Goes self.old self.new }
        ensures free { IfSome result (λ r. self.new.out ≡ None) }
        ensures asks { IfSome result (λ r. self.new.session.request ≡ Some (request_value (arc_value r))) }
    {
        if !self.can_take() {
            return None;
        }
        next_of(&mut self.machine)
    }

    /// Its request is out, under this number.
    pub(crate) fn note_asked(&mut self, number: u64)
        ensures { self.new ≡ record self.old { out = Some number } }
    {
        self.out = Some(number);
    }

    /// Gives it the answer to its request. Where memory runs out its session has failed.
    pub(crate) fn answer(&mut self, outcome: Result<Vec<Part>, DeskFault>, now: Option<Instant>)
        requires { IsToldOf F.opened_of self.old (answer_value outcome) }
        ensures { Told (answer_value outcome) self.old self.new }
    {
        life_of_answering();
        life_of_failing();
        put_answer(&mut self.machine, outcome);
        self.out = None;
        self.since = now;
    }

    /// Reads what is there, with one read, and gives it to its session. False where the connection is broken.
    pub(crate) fn read(&mut self, room: &mut [u8], now: Option<Instant>) -> bool
        requires { 0 < length room.old }
        ensures { Goes self.old self.new }
    {
        life_of_feeding();
        life_of_failing();
        if !self.reads() {
            return true;
        }
        match receive(&mut self.connection, room) {
            Received::Bytes(count) => {
                self.is_unread = count == 0 || count >= room.len() || self.ends;
                self.since = now;
                let _ = self.machine.feed(&room[..count]);
            }
            Received::NotNow => self.is_unread = false,
            Received::End => self.is_at_end = true,
            Received::Broken => return false,
        }
        true
    }

    /// Writes what it is told, with one write. False where the connection is broken.
    pub(crate) fn write(&mut self, now: Option<Instant>) -> bool
        ensures { Goes self.old self.new }
    {
        life_of_writing();
        let length = self.machine.output().len();
        if self.is_full || length == 0 {
            return true;
        }
        match send(&mut self.connection, self.machine.output()) {
            Sent::Bytes(count) => {
                self.is_full = 0 < count && count < length;
                self.since = now;
                self.machine.wrote(count);
            }
            Sent::NotNow => self.is_full = true,
            Sent::Broken => return false,
        }
        true
    }
}
