//! Lists of events, and that deletes are kept after each.

ghost use Rattle.std.specs.Arc.{arc_value};
ghost use Rattle.std.specs.Prelude.{◌≡◌, [], IfOk, IfErr, OnErr};
ghost use Rattle.mcv_core.specs.Answers.{call_answer, done_answer, leg_answer, reply_answer, state_answer};
ghost use Rattle.mcv_core.specs.Opening.{opened_view};
ghost use Rattle.mcv_core.specs.Steps.{AreAnswered, DeletesAreKept, IsAnswered};
ghost use Rattle.mcv_core.specs.View.{core_view};
ghost use Rattle.mcv_core.specs.declared.fault.CoreFault.TheVariants.{Memory as OutOfMemory};

use crate::engine::Core;
use crate::fault::CoreFault;
use crate::step::{LegState, Step};
use mcv_base::{CallId, LegId, Moment, Part, Parts, Request, ServerId};
use mcv_check::Accepted;
use mcv_pools::KeyHash;
use mcv_spool::Stored;
use std::alloc::Global;
use std::sync::Arc;

/// What happens to a core.
#[derive(Drop)]
pub enum Event {
    /// A client asks for the key of this number, counted from 0.
    Begin(Arc<Request>, usize),
    Next(ServerId),
    Answered(LegId, Parts),
    Lost(LegId),
    /// With the connection of which another leg's loss has told.
    LostToo(LegId),
    Spooled(LegId, Stored),
    SpoolRefused(LegId),
    Replay(ServerId),
    Mark(ServerId),
    Unmark(ServerId),
    Clock(Moment),
    Turn,
    Take(CallId),
}

/// What the core answers to an event.
#[derive(Drop)]
pub enum Answer {
    /// To `Begin`.
    Call(CallId),
    /// To `Next` and `Replay`.
    Leg(LegId),
    /// The leg's state after `Answered`, `Lost`, `LostToo`, `Spooled` and `SpoolRefused`.
    State(LegState),
    /// To `Take`; None while the call has no reply, or where it was taken.
    Reply(Option<Part>),
    Done,
    Refused(CoreFault),
}

impl Answer {
    fn call(called: Result<CallId, CoreFault>) -> Answer
        ensures { result ≡ call_answer called }
    {
        match called {
            Ok(call) => Answer::Call(call),
            Err(fault) => Answer::Refused(fault),
        }
    }

    fn leg(sent: Result<LegId, CoreFault>) -> Answer
        ensures { result ≡ leg_answer sent }
    {
        match sent {
            Ok(leg) => Answer::Leg(leg),
            Err(fault) => Answer::Refused(fault),
        }
    }

    fn state(stepped: Result<Step, CoreFault>) -> Answer
        ensures { result ≡ state_answer stepped }
    {
        match stepped {
            Ok(step) => Answer::State(step.state),
            Err(fault) => Answer::Refused(fault),
        }
    }

    fn reply(taken: Result<Option<Part>, CoreFault>) -> Answer
        ensures { result ≡ reply_answer taken }
    {
        match taken {
            Ok(part) => Answer::Reply(part),
            Err(fault) => Answer::Refused(fault),
        }
    }

    fn done<T: Drop>(gone: Result<T, CoreFault>) -> Answer
        ensures { result ≡ done_answer gone }
    {
        match gone {
            Ok(_) => Answer::Done,
            Err(fault) => Answer::Refused(fault),
        }
    }
}

/// A core after events, with one answer for each.
#[derive(Drop)]
pub struct Run<H> {
    pub core: Core<H>,
    pub answers: Vec<Answer>,
}

impl<H: KeyHash + Drop> Core<H> {
    /// Takes in an event.
    pub fn answer(&mut self, alloc: Global, event: Event) -> Answer
        ensures answered { IsAnswered (H.chosen self.old.hash) (core_view self.old.dispatcher) event result (core_view self.new.dispatcher) }
        ensures hash { self.new.hash ≡ self.old.hash }
    {
        match event {
            Event::Begin(request, key) => Answer::call(self.begin(alloc, request, key)),
            Event::Next(server) => Answer::leg(self.dispatcher.next(server)),
            Event::Answered(leg, parts) => Answer::state(self.dispatcher.answered(leg, parts)),
            Event::Lost(leg) => Answer::state(self.dispatcher.lost(leg)),
            Event::LostToo(leg) => Answer::state(self.dispatcher.lost_too(leg)),
            Event::Spooled(leg, stored) => Answer::state(self.dispatcher.spooled(leg, stored)),
            Event::SpoolRefused(leg) => Answer::state(self.dispatcher.spool_refused(leg)),
            Event::Replay(server) => Answer::leg(self.dispatcher.replay(server)),
            Event::Mark(server) => {
                self.dispatcher.mark(server);
                Answer::Done
            }
            Event::Unmark(server) => {
                self.dispatcher.unmark(server);
                Answer::Done
            }
            Event::Clock(moment) => Answer::done(self.dispatcher.clock(moment)),
            Event::Turn => Answer::done(self.dispatcher.turn()),
            Event::Take(call) => Answer::reply(self.dispatcher.take(call)),
        }
    }

    /// Takes the events in, one after the other: one answer for each, refusals among them. The one error is `Memory`, and
    /// then no event was taken in.
    pub fn run(&mut self, alloc: Global, events: Vec<Event>) -> Result<Vec<Answer>, CoreFault>
        ensures answered { IfOk result (λ answers. AreAnswered (H.chosen self.old.hash) (core_view self.old.dispatcher) events.items answers.items (core_view self.new.dispatcher)) }
        ensures memory { IfErr result (λ fault. fault ≡ OutOfMemory) }
        ensures err { OnErr result (self.new ≡ self.old) }
        ensures hash { self.new.hash ≡ self.old.hash }
    {
        let mut answers = Vec::with_capacity(alloc, events.len())?;
        for event in events {
            answers.push_reserved(self.answer(alloc, event));
        }
        Ok(answers)
    }
}

/// A core over accepted routes, after these events: **no acknowledged delete is dropped**. Whatever the events are, each
/// delete that has a reply other than an error keeps, for every server that could answer a get, gets, incr or decr of its
/// rest, a counted leg of its own that the server performed, that is queued, or that is spooled (`Kept` of
/// mcv_world/specs/KeptLegs.antt, in the world to which the events' moves lead). The one error is `Memory`.
///
/// Its premises: a server that says DELETED or NOT_FOUND to a delete leg has performed it; the process goes on; the hash is
/// a function of symbol and hashed part; a call that was refused with `Memory` isn't answered as done.
pub fn run_all<H: KeyHash + Drop>(
    alloc: Global,
    accepted: Arc<Accepted>,
    hash: H,
    events: Vec<Event>,
) -> Result<Run<H>, CoreFault>
    ensures kept { IfOk result (λ run. DeletesAreKept (H.chosen hash) (opened_view (arc_value accepted) []) events.items run.answers.items (core_view run.core.dispatcher)) }
    ensures err { IfErr result (λ fault. fault ≡ OutOfMemory) }
{
    let mut core = Core::new(alloc, accepted, hash, &[])?;
    let answers = core.run(alloc, events)?;
    Ok(Run { core, answers })
}
