//! The way to one server for the legs of one hub.

ghost use Rattle.std.specs.Prelude.{◌≡◌, ◌++◌, [], List, All, IfErr, None, OnErr, OnOk, Some, false, length, not, true};
ghost use Rattle.mcv_lines.specs.Line.{AnswersProbe, AnswersState, HearsLine, IsOverdue, LosesLine, OpensLine, ProbesLine, SendsLine, WritesLine, flights_of, is_closed, is_probing, legs_can_be_sent, since_in};

use crate::loss::Loss;
use crate::open::OpenLine;
use crate::probe::Probe;
use crate::took::{Heard, Wrote};
use mcv_base::ServerId;
use mcv_connection::{Connection, has_passed};
use mcv_hub::Pass;
use mcv_turn::{Arrival, Flight};
use std::alloc::{AllocError, Global};
use std::mem;
use std::time::{Duration, Instant};

/// How a connection to a server stands.
#[derive(Drop)]
pub(crate) enum State<C: Connection> {
    Closed,
    /// Legs are sent over it.
    Open(OpenLine<C>),
    /// The server, which is marked, is asked since then whether it answers.
    Probing(Probe<C>, Option<Instant>),
}

/// The way to one server for the legs of one hub: a connection, or none.
#[derive(Drop)]
pub struct Line<C: Connection> {
    alloc: Global,
    server: ServerId,
    state: State<C>,
    /// The connection took no more when it was written to last.
    is_full: bool,
    /// It is among those that are to be written to.
    is_due: bool,
    /// The server sends no more.
    ends: bool,
    /// The connection is lost so, but there was no memory to say so of its legs.
    lost: Option<Loss>,
    ghost own: { All (λ one. one.flight.server.0 ≡ server.0) (flights_of state) },
}

/// What came of reading a piece of the answer to a probe, and how the connection stands then.
#[derive(Drop)]
struct Answered<C: Connection> {
    heard: Heard,
    state: State<C>,
}

/// Reads a piece of the answer to a probe: behind the answer legs can be sent over the connection.
fn hear_answer<C: Connection>(alloc: Global, state: State<C>, room: &mut [u8]) -> Answered<C>
    requires { is_probing state ≡ true }
    ensures hears { AnswersState state room.new result.heard result.state }
    ensures none { flights_of result.state ≡ [] }
{
    match state {
        State::Probing(probe, since) => hear_probe(alloc, probe, since, room),
        other => Answered {
            heard: Heard::Faulty,
            state: other,
        },
    }
}

fn hear_probe<C: Connection>(
    alloc: Global,
    probe: Probe<C>,
    since: Option<Instant>,
    room: &mut [u8],
) -> Answered<C>
    ensures hears { AnswersProbe probe room.new since result.heard result.state }
    ensures none { flights_of result.state ≡ [] }
{
    let mut probe = probe;
    match probe.read(room) {
        Heard::Answers => Answered {
            heard: Heard::Answers,
            state: State::Open(OpenLine::new(alloc, probe.into_connection())),
        },
        heard => Answered {
            heard,
            state: State::Probing(probe, since),
        },
    }
}

impl<C: Connection> Line<C> {
    /// No connection to this server.
    pub fn new(alloc: Global, server: ServerId) -> Line<C>
        ensures server { result.server ≡ server }
        ensures closed { (is_closed result.state ≡ true) × (result.lost ≡ None) }
    {
        Line {
            alloc,
            server,
            state: State::Closed,
            is_full: false,
            is_due: false,
            ends: false,
            lost: None,
        }
    }

    /// Whether there is no connection.
    pub fn is_closed(&self) -> bool
        ensures { result ≡ is_closed self.now.state }
    {
        matches!(self.state, State::Closed)
    }

    /// Whether legs can be sent: there is a connection, it isn't for a probe, and no fault was met on it.
    pub fn is_open(&self) -> bool
        ensures { result ≡ legs_can_be_sent self.now.state }
    {
        match &self.state {
            State::Open(open) => open.is_open(),
            State::Closed | State::Probing(..) => false,
        }
    }

    /// Whether the server is being asked whether it answers.
    pub fn is_probing(&self) -> bool
        ensures { result ≡ is_probing self.now.state }
    {
        matches!(self.state, State::Probing(..))
    }

    /// A connection was begun: legs can be sent. Where there is one already this one is dropped.
    pub fn open(&mut self, connection: C)
        ensures server { self.new.server ≡ self.old.server }
        ensures opens { OpensLine (C.written connection) (C.unread connection) self.old.state self.new.state }
        ensures lost { self.new.lost ≡ self.old.lost }
    {
        if !self.is_closed() {
            return;
        }
        self.begin(State::Open(OpenLine::new(self.alloc, connection)));
    }

    /// A connection was begun, over which the server is asked whether it answers. Where there is one already this one is dropped. An
    /// error is that memory ran out: there is no connection.
    pub fn probe(&mut self, connection: C, now: Option<Instant>) -> Result<(), AllocError>
        ensures server { self.new.server ≡ self.old.server }
        ensures probes { ProbesLine (C.written connection) (C.unread connection) now self.old.state result self.new.state }
        ensures lost { self.new.lost ≡ self.old.lost }
    {
        if !self.is_closed() {
            return Ok(());
        }
        let probe = Probe::new(self.alloc, connection)?;
        self.begin(State::Probing(probe, now));
        Ok(())
    }

    /// A connection over which no leg is in flight stands so from now on.
    fn begin(&mut self, state: State<C>)
        requires { flights_of state ≡ [] }
        ensures { (self.new.server ≡ self.old.server) × (self.new.state ≡ state) × (self.new.lost ≡ self.old.lost) }
    {
        self.is_full = false;
        self.ends = false;
        self.state = state;
    }

    /// Sends a leg, for the first time or again: its text is to be written behind the others. Where it is for another server, where
    /// legs can't be sent, or where memory runs out, it is given back, and nothing changes.
    pub fn send(
        &mut self,
        flight: Flight,
        now: Option<Instant>,
        is_again: bool,
    ) -> Result<(), Flight>
        ensures server { self.new.server ≡ self.old.server }
        ensures sends { SendsLine self.old.server flight now is_again self.old.state result self.new.state }
        ensures back { IfErr result (λ back. back ≡ flight) }
        ensures lost { self.new.lost ≡ self.old.lost }
    {
        if flight.server != self.server {
            return Err(flight);
        }
        match &mut self.state {
            State::Open(open) => open.send(flight, now, is_again),
            State::Closed | State::Probing(..) => Err(flight),
        }
    }

    /// The connection takes bytes again, or may.
    pub fn note_writable(&mut self)
        ensures { (self.new.server ≡ self.old.server) × (self.new.state ≡ self.old.state) × (self.new.lost ≡ self.old.lost) }
    {
        self.is_full = false;
    }

    /// It is among those that are to be written to from now on. Whether it wasn't before.
    pub fn note_due(&mut self) -> bool
        ensures same { (self.new.server ≡ self.old.server) × (self.new.state ≡ self.old.state) × (self.new.lost ≡ self.old.lost) }
        ensures due { (result ≡ not self.old.is_due) × (self.new.is_due ≡ true) }
    {
        !mem::replace(&mut self.is_due, true)
    }

    /// Writes what is to be written with one write, unless the connection took no more the last time; it is no longer among those that
    /// are to be written to. Who calls shows a pass, so that it has no hub's lock.
    pub fn write(&mut self, _pass: &Pass) -> Wrote
        ensures server { self.new.server ≡ self.old.server }
        ensures writes { WritesLine self.old.state result self.new.state }
        ensures due { self.new.is_due ≡ false }
        ensures lost { self.new.lost ≡ self.old.lost }
    {
        self.is_due = false;
        if self.is_full {
            return Wrote::NotNow;
        }
        let wrote = match &mut self.state {
            State::Closed => Wrote::All,
            State::Open(open) => open.write(),
            State::Probing(probe, _) => probe.write(),
        };
        self.is_full = wrote == Wrote::Part || wrote == Wrote::NotNow;
        wrote
    }

    /// The server sends no more. What it has said is to be read to its end.
    pub fn note_end(&mut self)
        ensures { (self.new.server ≡ self.old.server) × (self.new.state ≡ self.old.state) × (self.new.lost ≡ self.old.lost) }
    {
        self.ends = true;
    }

    /// Whether the server sends no more.
    pub fn ends(&self) -> bool
        ensures { result ≡ self.now.ends }
    {
        self.ends
    }

    /// Reads a piece, with one read. What came of the legs that land with it is put behind `arrivals`, in their order: each has its own
    /// reply, and one for whose reply there is no memory is lost. Behind the answer to a probe legs can be sent over the connection.
    pub fn read(&mut self, _pass: &Pass, room: &mut [u8], arrivals: &mut Vec<Arrival>) -> Heard
        ensures server { self.new.server ≡ self.old.server }
        ensures hears { (more : List Arrival) × (arrivals.new.items ≡ arrivals.old.items ++ more) × HearsLine self.old.server room.new self.old.state result more self.new.state }
        ensures lost { self.new.lost ≡ self.old.lost }
    {
        if self.is_probing() {
            return self.read_answer(room);
        }
        match &mut self.state {
            State::Open(open) => open.read(self.alloc, self.server, room, arrivals),
            State::Closed | State::Probing(..) => Heard::Faulty,
        }
    }

    /// Reads a piece of the answer to a probe.
    fn read_answer(&mut self, room: &mut [u8]) -> Heard
        requires { is_probing self.old.state ≡ true }
        ensures server { self.new.server ≡ self.old.server }
        ensures hears { AnswersState self.old.state room.new result self.new.state }
        ensures lost { self.new.lost ≡ self.old.lost }
    {
        let state = mem::replace(&mut self.state, State::Closed);
        let Answered { heard, state } = hear_answer(self.alloc, state, room);
        self.state = state;
        heard
    }

    /// The connection is lost so, and is dropped: of the legs in flight over it, the oldest first, those that may be are to be sent once
    /// more and go behind `again`; of the others, which go behind `arrivals`, the oldest is lost, and each other one is lost too. An
    /// error is that memory ran out: all are in flight still, nothing can be sent, and it is overdue, to be called again.
    pub fn lose(
        &mut self,
        loss: Loss,
        arrivals: &mut Vec<Arrival>,
        again: &mut Vec<Flight>,
    ) -> Result<(), AllocError>
        ensures server { self.new.server ≡ self.old.server }
        ensures loses { LosesLine self.old.server loss self.old.state arrivals.old.items again.old.items result self.new.state arrivals.new.items again.new.items }
        ensures ok { OnOk result (self.new.lost ≡ None) }
        ensures err { OnErr result (self.new.lost ≡ Some loss) }
    {
        let state = mem::replace(&mut self.state, State::Closed);
        self.lost = Some(loss);
        if let State::Open(open) = state {
            if let Err(open) = open.lose(self.server, loss, arrivals, again) {
                self.state = State::Open(open);
                return Err(AllocError);
            }
        }
        self.lost = None;
        Ok(())
    }

    /// How many legs are in flight.
    pub fn in_flight(&self) -> usize
        ensures { result ≡ length (flights_of self.now.state) }
    {
        match &self.state {
            State::Open(open) => open.in_flight(),
            State::Closed | State::Probing(..) => 0,
        }
    }

    /// How the connection is to be lost, if its server owes an answer for so long or there was no memory to say of its loss before.
    pub fn overdue(&self, now: Option<Instant>, limit: Option<Duration>) -> Option<Loss>
        ensures { IsOverdue self.now.lost (since_in self.now.state) now limit result }
    {
        match self.lost {
            Some(loss) => Some(loss),
            None if has_passed(self.since(), now, limit) => Some(Loss::Late),
            None => None,
        }
    }

    /// Since when the server owes an answer; None where it owes none, or the clock couldn't be read.
    pub fn since(&self) -> Option<Instant>
        ensures { result ≡ since_in self.now.state }
    {
        match &self.state {
            State::Closed => None,
            State::Open(open) => open.since(),
            State::Probing(_, since) => *since,
        }
    }
}
