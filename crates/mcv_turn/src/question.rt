//! A request at a hub, from its first call to its last reply.

ghost use Rattle.std.specs.Prelude.{◌≡◌, ◌≤◌, [], true, None, Some, IfErr, IfNone, IfOk, IfSome, map, vec_capacity, vec_len};
ghost use Rattle.mcv_core.specs.declared.fault.CoreFault.{CoreFault as Fault};
ghost use Rattle.std.specs.Arc.{arc_value};
ghost use Rattle.mcv_session.specs.Desk.{answer_value};
ghost use Rattle.mcv_text.specs.Request.{request_value};
ghost use Rattle.mcv_turn.specs.Answers.{AreFor, IsAnswer, desk_fault};
ghost use Rattle.mcv_turn.specs.OpenRequests.{asked_in};
ghost use Rattle.mcv_turn.specs.Runs.{Runs};
ghost use Rattle.mcv_turn.specs.Question.{IsCause, IsDone};
ghost use Rattle.mcv_turn.specs.Refusals.{WasCallRefused};

use crate::answer::{Answer, Asker, fault_for, into_parts};
use crate::begin::begin_each;
use crate::kept::Kept;
use crate::keys::{are_for, key_count};
use crate::take::{Progress, take_ready};
use crate::values::is_room_left;
use mcv_base::{CallId, Part, Request};
use mcv_core::CoreFault;
use mcv_hub::{Guard, HubLedger, Seat, TakenReply};
use mcv_route::Routes;
use mcv_session::DeskFault;
use std::alloc::{AllocError, Global};
use std::marker::{Model, PhantomData};
use std::sync::Arc;
use std::sync::ledger::Ledger;

/// The most calls of one request that run at a time.
const MOST_RUNNING: usize = 1024;

/// A request at the hub that this ledger stands for: calls are begun for its keys, in their order, up to the first that is refused,
/// and their replies are taken, in the order of the calls. Clauses see who asks, the request, the
/// calls, and how many of them are done with.
#[derive(Drop)]
pub(crate) struct Question<B: HubLedger> {
    asker: Asker,
    request: Arc<Request>,
    /// How many keys it has.
    count: usize,
    calls: Vec<CallId>,
    taken: Vec<TakenReply>,
    parts: Vec<Part>,
    progress: Progress,
    /// Why no call is begun for a further key.
    refused: Option<CoreFault>,
    hub: PhantomData<B>,
}

impl<B: HubLedger> Model for Question<B> {
    ghost use Rattle.std.specs.Prelude.{◌≡◌};
    ghost use Rattle.std.specs.Arc.{arc_value};
    ghost use Rattle.mcv_text.specs.Request.{request_value};
    ghost use Rattle.mcv_turn.specs.Question.{IsQuestion, QuestionView};

    ghost Value = { QuestionView };

    ghost view = { λ q. record { asker = q.asker; request = request_value (arc_value q.request); calls = q.calls.items; done = q.progress.done; refused = q.refused } };

    ghost invariant = { λ q. IsQuestion B.opened (request_value (arc_value q.request)) q.count q.calls q.taken q.parts q.progress.done q.progress.missed q.refused };
}

/// Up to which key calls are begun, where so many of them are there and so many of those are done with.
fn next_limit(count: usize, done: usize) -> usize
    ensures { result ≤ count }
{
    count.min(done.saturating_add(MOST_RUNNING))
}

/// Why a request has no replies, now that its calls are done with: one has none, they are for other keys, or no call was begun for
/// a key.
fn why_not(
    routes: &Routes,
    request: &Request,
    taken: &[TakenReply],
    missed: Option<CoreFault>,
    refused: Option<CoreFault>,
) -> Option<CoreFault>
    ensures none { IfNone result ((missed ≡ None) × (refused ≡ None) × AreFor routes.now (request_value request.now) taken.now) }
    ensures some { IfSome result (IsCause routes.now (request_value request.now) taken.now missed refused) }
{
    if let Some(fault) = missed {
        return Some(fault);
    }
    if !are_for(routes, request, taken) {
        return Some(CoreFault::NoSuchCall);
    }
    refused
}

/// What a request is answered, now that its calls are done with.
fn outcome_of(
    routes: &Routes,
    request: &Request,
    taken: Vec<TakenReply>,
    parts: Vec<Part>,
    missed: Option<CoreFault>,
    refused: Option<CoreFault>,
) -> Result<Vec<Part>, DeskFault>
    requires empty { parts.items ≡ [] }
    requires room { vec_len taken ≤ vec_capacity parts }
    ensures ok { IfOk result (λ ps. (missed ≡ None) × (refused ≡ None) × AreFor routes.now (request_value request.now) taken.items × (ps.items ≡ map (λ t. t.reply) taken.items)) }
    ensures err { IfErr result (λ fault. (cause : Fault) × (fault ≡ desk_fault cause) × IsCause routes.now (request_value request.now) taken.items missed refused cause) }
{
    match why_not(routes, request, taken.as_slice(), missed, refused) {
        Some(fault) => Err(fault_for(fault)),
        None => Ok(into_parts(taken, parts)),
    }
}

impl<B: HubLedger> Question<B> {
    /// A request for which no call is begun yet.
    pub(crate) fn new(
        alloc: Global,
        asker: Asker,
        request: Arc<Request>,
    ) -> Result<Question<B>, AllocError>
        ensures { IfOk result (λ q. q ≡ record { asker = asker; request = request_value (arc_value request); calls = []; done = 0; refused = None }) }
    {
        let count = key_count(&request);
        let calls = Vec::with_capacity(alloc, count)?;
        let taken = Vec::with_capacity(alloc, count)?;
        let parts = Vec::with_capacity(alloc, count)?;
        let progress = Progress {
            done: 0,
            missed: None,
        };
        Ok(Question {
            asker,
            request,
            count,
            calls,
            taken,
            parts,
            progress,
            refused: None,
            hub: PhantomData,
        })
    }

    /// No call is begun for a further key, as where there is no memory.
    fn stop<T: Ledger>(&mut self, guard: &Guard<'_, B, T>)
        ensures asked { asked_in self.new ≡ asked_in self.old }
        ensures refused { self.new.refused ≡ Some CoreFault.Memory }
        ensures why { WasCallRefused B.opened CoreFault.Memory }
    {
        guard.is_opened();
        guard.deletes_are_kept();
        self.refused = Some(CoreFault::Memory);
    }

    /// Begins calls for further keys, in their order, until 1,024 of them run or one is refused, as the next one is where the values of
    /// the replies so far have more than so many bytes. Why one was, if one was.
    pub(crate) fn begin<T: Ledger>(
        &mut self,
        alloc: Global,
        guard: &mut Guard<'_, B, T>,
        seat: &mut Seat<B, T>,
        most: usize,
    ) -> Option<CoreFault>
        ensures run { Runs guard.old [] [] guard.new }
        ensures asked { asked_in self.new ≡ asked_in self.old }
        ensures refused { IfSome result (WasCallRefused B.opened) }
    {
        match self.refused {
            Some(_) => return None,
            None => {}
        }
        let to = next_limit(self.count, self.progress.done);
        if to < self.calls.len() {
            return None;
        }
        if !is_room_left(self.taken.as_slice(), most) {
            self.stop(guard);
            return Some(CoreFault::Memory);
        }
        let begun = begin_each(alloc, guard, seat, &self.request, to, &mut self.calls);
        match begun {
            Ok(()) => None,
            Err(fault) => {
                self.refused = Some(fault);
                Some(fault)
            }
        }
    }

    /// Takes the replies that are there, in the order of the calls, up to the first that isn't. False where one may be left, for want
    /// of memory for its receipt.
    pub(crate) fn take<T: Ledger>(
        &mut self,
        guard: &mut Guard<'_, B, T>,
        seat: &mut Seat<B, T>,
        kept: &mut Kept,
    ) -> bool
        ensures run { Runs guard.old [] [] guard.new }
        ensures asked { asked_in self.new ≡ asked_in self.old }
    {
        let calls = self.calls.as_slice();
        let came = take_ready(guard, seat, kept, calls, self.progress, &mut self.taken);
        self.progress = came.progress;
        came.has_memory
    }

    /// The call whose reply is the next to be taken; None where no call runs.
    pub(crate) fn awaits(&self) -> Option<CallId> {
        self.calls.get(self.progress.done).copied()
    }

    /// Whether calls are to be begun for further keys, now that none runs.
    pub(crate) fn wants_calls(&self) -> bool {
        self.refused.is_none()
            && self.progress.done == self.calls.len()
            && self.calls.len() < self.count
    }

    /// Whether it can be answered: all calls are done with, and no further one is to be begun.
    pub(crate) fn is_done(&self) -> bool
        ensures { result ≡ true → IsDone self.now }
    {
        if self.progress.done != self.calls.len() {
            return false;
        }
        if self.calls.len() == self.count {
            return true;
        }
        self.refused.is_some()
    }

    /// Its answer, once it is done.
    pub(crate) fn into_answer(self, routes: &Routes) -> Answer
        requires routes { routes.now ≡ B.opened.routes }
        requires done { IsDone self }
        ensures asker { result.asker ≡ self.asker }
        ensures request { request_value (arc_value result.request) ≡ self.request }
        ensures answer { IsAnswer B.opened self.request (answer_value result.outcome) }
    {
        let Question {
            asker,
            request,
            taken,
            parts,
            progress,
            refused,
            ..
        } = self;
        let outcome = outcome_of(routes, &request, taken, parts, progress.missed, refused);
        Answer {
            asker,
            request,
            outcome,
        }
    }
}
