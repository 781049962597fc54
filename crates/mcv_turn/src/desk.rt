//! The desk of a loop at one hub.

ghost use Rattle.slab.specs.Slab.{slab_len};
ghost use Rattle.std.specs.Prelude.{◌≡◌, ◌↔◌, ◌<◌, ◌||◌, ℕ, [], false, true, None, IfNone, IfOk, IfSome, OnErr, OnOk, not};
ghost use Rattle.std.specs.Arc.{arc_value};
ghost use Rattle.std.specs.VecDeque.{deque_len};
ghost use Rattle.mcv_core.specs.View.{core_view};
ghost use Rattle.mcv_events.specs.QueuedLegs.{queued_legs};
ghost use Rattle.mcv_hub.specs.Gate.{IsGate, is_closed};
ghost use Rattle.mcv_hub.specs.declared.gate.Gate.{Gate as HubGate};
ghost use Rattle.mcv_session.specs.Desk.{answer_value};
ghost use Rattle.mcv_text.specs.Request.{request_value};
ghost use Rattle.mcv_turn.specs.Answers.{IsAnswer};
ghost use Rattle.mcv_turn.specs.OpenRequests.{AreSameOpen, Closes, Opens, open_at};
ghost use Rattle.mcv_turn.specs.Refusals.{WereRefused};
ghost use Rattle.mcv_turn.specs.Runs.{IsTurn, Runs, SendsMore};
ghost use Rattle.mcv_turn.specs.Shown.{AreCounts, IsLoad, TellsMarks, TellsPerformed, chapter_behind, is_known_marked};

use crate::answer::{Answer, Asker};
use crate::came::{Came, Gives, Performed};
use crate::hub_routes::HubRoutes;
use crate::kept::Kept;
use crate::notes::Notes;
use crate::question::Question;
use crate::questions::{awaits_at, begin_at, look_at_all, next_done, take_at};
use crate::refusals::Refusals;
use crate::servers::Servers;
use crate::shown::{load_of, waiting_of};
use crate::spooling::texts_of;
use mcv_base::{CallId, Request, ServerId};
use mcv_core::Dispatcher;
use mcv_hub::{Gate, Guard, Hub, HubLedger, Past, Receipt, Seat};
use slab::Slab;
use std::alloc::{AllocError, Global};
use std::collections::{HashMap, VecDeque};
use std::sync::Arc;
use std::sync::ledger::Ledger;

/// More turns than come: of the servers under one hold of the lock, and of one server's legs.
const TURNS: u64 = u64::MAX;

/// The desk of a loop at one hub: it is asked requests, which its turns begin, and answers them once they are done. Clauses see
/// which requests are open, and who asked each (`open_at` of its questions): `ask` adds one, `answer` takes the one away that it
/// answers, and `turn` keeps all.
#[derive(Drop)]
pub struct LoopDesk<'a, B: HubLedger, T: Ledger> {
    alloc: Global,
    routes: HubRoutes<'a, B>,
    seat: Seat<B, T>,
    kept: Kept,
    questions: Slab<Question<B>>,
    /// Questions for whose keys calls are to be begun, in this order.
    entering: VecDeque<usize>,
    /// Questions that are done, in this order.
    done: VecDeque<usize>,
    notes: Notes,
    /// Requests were asked since the last turn.
    is_asked: bool,
    refusals: Refusals<B>,
    /// How many bytes the values of an answer may have.
    most: usize,
    /// How many chapters its turns have begun: the number of the hub's chapter, where nothing else begins one.
    chapter: u64,
}

/// Makes room for one question more, and for a call that it awaits.
fn make_room(
    awaited: &mut HashMap<u64, usize>,
    entering: &mut VecDeque<usize>,
) -> Result<(), AllocError> {
    awaited.reserve(1)?;
    entering.reserve(1)
}

impl<'a, B: HubLedger, T: Ledger> LoopDesk<'a, B, T> {
    /// A desk over a hub that was asked nothing. No further calls are begun for a request for which replies were taken whose values have
    /// more than so many bytes together.
    pub fn new(
        alloc: Global,
        hub: &'a Hub<B, T>,
        seat: Seat<B, T>,
        most: usize,
    ) -> Result<LoopDesk<'a, B, T>, AllocError>
        ensures { IfOk result (λ d. (number : ℕ) → open_at d.questions number ≡ None) }
    {
        let routes = HubRoutes::of(hub);
        let texts = texts_of(alloc, routes.get())?;
        let servers = Servers::new(alloc, routes.get().servers().len())?;
        let questions = Slab::new(alloc);
        Ok(LoopDesk {
            alloc,
            routes,
            seat,
            kept: Kept::new(alloc),
            questions,
            entering: VecDeque::new(alloc),
            done: VecDeque::new(alloc),
            notes: Notes::new(alloc, texts, servers),
            is_asked: false,
            refusals: Refusals::new(),
            most,
            chapter: 0,
        })
    }

    /// Takes a request: the next turns begin calls for its keys, and it is open until it is answered. An error is that memory ran
    /// out, and changes nothing.
    pub fn ask(&mut self, asker: Asker, request: Arc<Request>) -> Result<(), AllocError>
        ensures asked { OnOk result (Opens self.old.questions self.new.questions asker (request_value (arc_value request))) }
        ensures err { OnErr result (AreSameOpen self.old.questions self.new.questions) }
    {
        let question = Question::new(self.alloc, asker, request)?;
        make_room(&mut self.notes.awaited, &mut self.entering)?;
        let number = self.questions.insert(question)?;
        self.is_asked = true;
        self.notes.overlooks |= self.entering.push_back(number).is_err();
        Ok(())
    }

    /// The answer to the next open request that is done, which is open no more; None where none is done.
    pub fn answer(&mut self) -> Option<Answer>
        ensures answer { IfSome result (λ a. IsAnswer B.opened (request_value (arc_value a.request)) (answer_value a.outcome)) }
        ensures closed { IfSome result (λ a. Closes self.old.questions self.new.questions a.asker (request_value (arc_value a.request))) }
        ensures none { IfNone result (AreSameOpen self.old.questions self.new.questions) }
    {
        let Some(number) = next_done(&mut self.done, &self.questions) else {
            return None;
        };
        let Some(question) = self.questions.try_remove(number) else {
            return None;
        };
        Some(question.into_answer(self.routes.get()))
    }

    /// How many requests are open: asked, and not answered yet.
    pub fn open(&self) -> usize
        ensures { result ≡ slab_len self.now.questions }
    {
        self.questions.len()
    }

    /// Whether requests were asked since the last turn.
    pub fn is_asked(&self) -> bool
        ensures { result ≡ self.now.is_asked }
    {
        self.is_asked
    }

    /// Whether requests wait to begin.
    pub fn waits(&self) -> bool
        ensures { (result ≡ true) ↔ (0 < deque_len self.now.entering) }
    {
        !self.entering.is_empty()
    }

    /// Whether the server was marked at the end of the last turn.
    pub fn is_marked(&self, server: ServerId) -> bool
        ensures { result ≡ is_known_marked self.now.notes.servers server }
    {
        self.notes.servers.is_marked(server)
    }

    /// The seat, and the receipts that were kept.
    pub fn into_parts(self) -> (Seat<B, T>, Vec<Receipt>)
        ensures seat { result.0 ≡ self.entry.seat }
        ensures receipts { result.1 ≡ self.entry.kept.receipts }
    {
        let LoopDesk { seat, kept, .. } = self;
        (seat, kept.receipts)
    }

    /// One turn under the hub's lock: later calls have the era of the moment; what came is reported, in its order; requests begin,
    /// where the chapter lets them; legs come in flight, until none waits or as many are in flight as may be; and the replies that
    /// are there are taken. The same requests are open as before. What is noted of the hub is so at the turn's end; the number of its
    /// chapter is that of those which this desk has begun.
    pub fn turn(&mut self, guard: &mut Guard<'_, B, T>, came: Came, gives: &mut Gives)
        ensures turn { IsTurn guard.old guard.new came.arrivals.items gives.old.flights.items gives.new.flights.items }
        ensures same { AreSameOpen self.old.questions self.new.questions }
        ensures performed { TellsPerformed guard.old came.arrivals.items gives.old.performed.items gives.new.performed.items }
        ensures marks { TellsMarks guard.new gives.old.marks.items gives.new.marks.items }
        ensures refused { WereRefused B.opened gives.new.refused }
        ensures load { IsLoad self.new.chapter guard.new gives.new.load }
        ensures uncounted { came.counts ≡ false → gives.new.waiting ≡ None }
        ensures waiting { IfSome gives.new.waiting (λ v. AreCounts guard.new v.items) }
        ensures queued { gives.new.queued ≡ queued_legs (core_view guard.new.core).rows }
    {
        let (may_store, waited, counts) = (came.may_store, came.waited, came.counts);
        self.is_asked = false;
        self.note_all(guard, came, &mut gives.performed);
        self.go_round(guard, may_store, waited, gives);
        self.show(guard, counts, gives);
    }

    /// Tells what there is to be noted of the hub.
    fn show(&mut self, guard: &Guard<'_, B, T>, counts: bool, gives: &mut Gives)
        ensures same { self.new.questions ≡ self.old.questions }
        ensures flights { gives.new.flights ≡ gives.old.flights }
        ensures performed { gives.new.performed ≡ gives.old.performed }
        ensures marks { TellsMarks guard.now gives.old.marks.items gives.new.marks.items }
        ensures refused { WereRefused B.opened gives.new.refused }
        ensures load { IsLoad self.new.chapter guard.now gives.new.load }
        ensures uncounted { counts ≡ false → gives.new.waiting ≡ None }
        ensures waiting { IfSome gives.new.waiting (λ v. AreCounts guard.now v.items) }
        ensures queued { gives.new.queued ≡ queued_legs (core_view guard.now.core).rows }
    {
        self.notes.servers.note_marks(guard, &mut gives.marks);
        gives.refused = self.refusals.take();
        gives.load = load_of(guard, self.chapter);
        gives.waiting = waiting_of(self.alloc, guard, counts);
        gives.queued = guard.core().queued();
    }

    /// Reports what came.
    fn note_all(&mut self, guard: &mut Guard<'_, B, T>, came: Came, performed: &mut Vec<Performed>)
        ensures run { Runs guard.old came.arrivals.items [] guard.new }
        ensures performed { TellsPerformed guard.old came.arrivals.items performed.old.items performed.new.items }
        ensures same { AreSameOpen self.old.questions self.new.questions }
    {
        let Came {
            moment,
            arrivals,
            answering,
            stored,
            replays,
            ..
        } = came;
        // A moment before the hub's leaves its era as it is.
        let _ = guard.clock(moment);
        self.notes.unmark_all(guard, answering.as_slice());
        self.notes.report_all(guard, arrivals, performed);
        self.notes.settle(guard, stored);
        self.notes.note_replays(replays);
        self.take_all(guard);
    }

    /// Requests begin and legs come in flight, until there is nothing to be done before something comes.
    fn go_round(
        &mut self,
        guard: &mut Guard<'_, B, T>,
        may_store: bool,
        waited: bool,
        gives: &mut Gives,
    )
        ensures sends { SendsMore guard.old guard.new gives.old.flights.items gives.new.flights.items }
        ensures same { AreSameOpen self.old.questions self.new.questions }
        ensures others { (gives.new.performed ≡ gives.old.performed) × (gives.new.marks ≡ gives.old.marks) }
    {
        for _round in 0..TURNS {
            if self.go_on(guard, may_store, waited, gives) {
                return;
            }
        }
    }

    /// Requests begin, and legs come in flight. Whether nothing is to be done then before something comes.
    fn go_on(
        &mut self,
        guard: &mut Guard<'_, B, T>,
        may_store: bool,
        waited: bool,
        gives: &mut Gives,
    ) -> bool
        ensures sends { SendsMore guard.old guard.new gives.old.flights.items gives.new.flights.items }
        ensures same { AreSameOpen self.old.questions self.new.questions }
        ensures others { (gives.new.performed ≡ gives.old.performed) × (gives.new.marks ≡ gives.old.marks) }
    {
        let was_at_rest = guard.core().is_at_rest();
        let is_open = self.open_gate(guard, waited, &mut gives.past);
        self.enter(guard, is_open);
        self.notes.send_all(guard, &mut gives.flights);
        self.notes.hold(guard, may_store, &mut gives.held);
        self.take_all(guard);
        self.is_over(guard.core(), is_open, was_at_rest)
    }

    /// Whether nothing is to be done before something comes: no request waits to begin, or they may not, and what runs will end, or
    /// nothing ran as the gate was looked at.
    fn is_over(&self, core: &Dispatcher, is_open: bool, was_at_rest: bool) -> bool {
        self.entering.is_empty() || !is_open && (was_at_rest || !core.is_at_rest())
    }

    /// Whether calls may begin: unless the next chapter is due and can't begin yet. Where it can it begins, and what is left of the old
    /// one is given out.
    fn open_gate(
        &mut self,
        guard: &mut Guard<'_, B, T>,
        waited: bool,
        past: &mut Option<Past>,
    ) -> bool
        ensures gate { (gate : HubGate) × IsGate guard.old gate guard.new × (result ≡ (not (is_closed gate) || waited)) × (self.new.chapter ≡ chapter_behind gate self.old.chapter) }
        ensures same { self.new.questions ≡ self.old.questions }
    {
        match guard.gate(self.alloc) {
            Gate::Open => true,
            Gate::Turned(old) => {
                self.chapter = self.chapter.saturating_add(1);
                *past = Some(old);
                true
            }
            Gate::Closed => waited,
        }
    }

    /// Begins calls for the keys of questions that enter, where they may.
    fn enter(&mut self, guard: &mut Guard<'_, B, T>, is_open: bool)
        ensures run { Runs guard.old [] [] guard.new }
        ensures same { AreSameOpen self.old.questions self.new.questions }
    {
        if !is_open {
            return;
        }
        for _question in 0..self.entering.len() {
            let Some(number) = self.entering.pop_front() else {
                break;
            };
            self.begin(guard, number);
        }
    }

    /// Begins calls for keys of a question.
    fn begin(&mut self, guard: &mut Guard<'_, B, T>, number: usize)
        ensures run { Runs guard.old [] [] guard.new }
        ensures same { AreSameOpen self.old.questions self.new.questions }
    {
        let refused = begin_at(
            self.alloc,
            guard,
            &mut self.seat,
            &mut self.questions,
            number,
            self.most,
        );
        self.refusals.note(refused);
        self.note_begun(number);
    }

    /// Notes a question for whose keys calls were begun.
    fn note_begun(&mut self, number: usize)
        ensures { self.new.questions ≡ self.old.questions }
    {
        if let Some(call) = awaits_at(&self.questions, number) {
            self.notes.await_reply(call, number);
        }
        self.notes.note_ready(number);
    }

    /// Takes the replies that are there.
    fn take_all(&mut self, guard: &mut Guard<'_, B, T>)
        ensures run { Runs guard.old [] [] guard.new }
        ensures same { AreSameOpen self.old.questions self.new.questions }
    {
        self.look_where_overlooked();
        for _question in 0..self.notes.ready.len() {
            let Some(number) = self.notes.ready.pop() else {
                return;
            };
            self.take(guard, number);
        }
    }

    /// Takes the replies to a question that are there.
    fn take(&mut self, guard: &mut Guard<'_, B, T>, number: usize)
        ensures run { Runs guard.old [] [] guard.new }
        ensures same { AreSameOpen self.old.questions self.new.questions }
    {
        let before = awaits_at(&self.questions, number);
        let (seat, kept) = (&mut self.seat, &mut self.kept);
        let has_memory = take_at(guard, seat, kept, &mut self.questions, number);
        self.note_taken(number, before, has_memory);
    }

    /// Notes a question of which replies were taken where it belongs, unless it awaits the same reply as before.
    fn note_taken(&mut self, number: usize, before: Option<CallId>, has_memory: bool)
        ensures { self.new.questions ≡ self.old.questions }
    {
        if !has_memory {
            self.notes.overlooks = true;
        }
        let Some(question) = self.questions.get(number) else {
            return;
        };
        if let Some(call) = before {
            if question.awaits() == before {
                return;
            }
            let _ = self.notes.awaited.remove(&call.0);
        }
        let noted = if question.is_done() {
            self.done.push_back(number).is_ok()
        } else if question.wants_calls() {
            self.entering.push_back(number).is_ok()
        } else {
            match question.awaits() {
                Some(call) => self.notes.awaited.insert(call.0, number).is_ok(),
                None => true,
            }
        };
        if !noted {
            self.notes.overlooks = true;
        }
    }

    /// Where a question isn't noted where it should be, notes each where it belongs.
    fn look_where_overlooked(&mut self)
        ensures { self.new.questions ≡ self.old.questions }
    {
        if !self.notes.overlooks {
            return;
        }
        let (entering, done) = (&mut self.entering, &mut self.done);
        let noted = look_at_all(&self.questions, entering, &mut self.notes.ready, done);
        self.notes.overlooks = !noted;
    }
}
