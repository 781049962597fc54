//! The locked state, borrowed by one thread.

ghost use Rattle.std.specs.Prelude.{◌≡◌, ◌+◌, IfOk, OnOk, IfErr, IfSome, count_by};
ghost use Rattle.std.specs.Arc.{arc_value};
ghost use Rattle.mcv_core.specs.Events.{IsAnsweredLeg, IsClocked, IsLostLeg, IsLostTooLeg, IsMarked, IsNext, IsRefusedLeg, IsReplay, IsSpooledLeg, IsTaken, IsUnmarked};
ghost use Rattle.mcv_core.specs.View.{core_view};
ghost use Rattle.mcv_hub.specs.Events.{IsHubEvent, IsReceived, IsRequested, taken_part};
ghost use Rattle.mcv_hub.specs.Gate.{IsGate, IsHubBegun, IsHubTurn, is_chapter_due};
ghost use Rattle.mcv_hub.specs.History.{is_began, is_taken};
ghost use Rattle.mcv_hub.specs.Receipts.{ArePassed, AreRefused};
ghost use Rattle.mcv_hub.specs.State.{HistoryKeepsDeletes, IsOf, IsSame};
ghost use Rattle.mcv_hub.specs.Weights.{bytes_of};

use crate::entry::Entry;
use crate::gate::Gate;
use crate::history::Past;
use crate::ledger::HubLedger;
use crate::pass::Pass;
use crate::receipts::{Receipt, ReceiptFault, Report};
use crate::reply::LegReply;
use crate::seat::{Seat, TakenReply};
use crate::state::HubState;
use mcv_base::{CallId, LegId, Moment, Request, ServerId};
use mcv_core::{CoreFault, Dispatcher, Era, Step};
use mcv_spool::Stored;
use std::alloc::Global;
use std::marker::{Model, PhantomData};
use std::rt::Clock;
use std::sync::ledger::Ledger;
use std::sync::{Arc, Condvar, CondvarTimeouts, MutexGuard, Wait};
use std::time::Duration;

/// The locked state. While it lives, the pass with which it was got is borrowed.
#[derive(Drop)]
pub struct Guard<'a, B: HubLedger, T: Ledger> {
    state: MutexGuard<'a, HubState<B, T>>,
    pass: PhantomData<&'a mut Pass>,
}

impl<'a, B: HubLedger, T: Ledger> Model for Guard<'a, B, T> {
    ghost use Rattle.std.specs.Coded.{codes};
    ghost use Rattle.mcv_core.specs.contracts.dispatcher.Dispatcher as core_type;
    ghost use Rattle.mcv_hub.specs.contracts.entry.Entry as entry_type;
    ghost use Rattle.mcv_hub.specs.State.{HubView};

    ghost Value = { HubView };

    ghost coded = { Prim.hlevel (codes, core_type.the_row.coded, entry_type.the_row.coded) };

    ghost use Rattle.std.specs.Sync.Mutex.{mutex_guard_value};

    ghost view = { λ g. mutex_guard_value g.state };
}

impl<'a, B: HubLedger, T: Ledger> Guard<'a, B, T> {
    /// The locked state, got with a pass.
    pub(crate) fn new(state: MutexGuard<'a, HubState<B, T>>) -> Guard<'a, B, T> {
        Guard {
            state,
            pass: PhantomData,
        }
    }

    /// Lets go of the lock until the bell is rung, or for no reason; with no bell it keeps the lock.
    pub(crate) fn wait_at<R: Wait>(self, rt: &R, bell: Option<&Condvar>) -> Guard<'a, B, T> {
        let Guard { state, pass } = self;
        let state = match bell {
            Some(bell) => bell.wait(rt, state),
            None => state,
        };
        Guard { state, pass }
    }

    /// As `wait_at`, for so long at most.
    pub(crate) fn wait_at_for<R: Wait + Clock>(
        self,
        rt: &R,
        bell: Option<&Condvar>,
        most: Duration,
    ) -> Guard<'a, B, T> {
        let Guard { state, pass } = self;
        let state = match bell {
            Some(bell) => bell.wait_timeout(rt, state, most).0,
            None => state,
        };
        Guard { state, pass }
    }

    /// The core, for its readers.
    pub fn core(&self) -> &Dispatcher
        ensures { result.now ≡ self.now.core }
    {
        self.state.core()
    }

    /// Whether the next chapter is due: this one has gained half the entries for which it had room when it began, or its
    /// history holds 64 MiB.
    pub fn is_due(&self) -> bool
        ensures { result ≡ is_chapter_due self.now }
    {
        self.state.is_due()
    }

    /// How a call that wants to begin finds the chapter: where the next one is due, and can begin, it begins.
    pub fn gate(&mut self, alloc: Global) -> Gate
        ensures { IsGate self.old result self.new }
    {
        self.state.gate(alloc)
    }

    /// Whether a call has waited for the next chapter in vain, in this one; once this one is nearly full, whether a second has.
    pub(crate) fn was_awaited_in_vain(&self) -> bool {
        self.state.was_awaited_in_vain()
    }

    /// A call has waited for the next chapter in vain.
    pub(crate) fn note_vain_wait(&mut self)
        ensures { IsSame self.old self.new }
    {
        self.state.note_vain_wait()
    }

    /// Begins a call for one key of the request, counted from 0, and counts it in the seat's share. An error is that of the
    /// core, ChapterFull also where the history holds more than 256 MiB, and Memory where it gets no room.
    pub fn begin(
        &mut self,
        alloc: Global,
        seat: &mut Seat<B, T>,
        request: Arc<Request>,
        key: usize,
    ) -> Result<CallId, CoreFault>
        ensures event { IsHubBegun self.old (arc_value request) key result self.new }
        ensures entry { OnOk result (IsRequested self.old self.new request key) }
        ensures begun { seat.new.begun.amount + self.old.begun ≡ seat.old.begun.amount + self.new.begun }
        ensures taken { seat.new.taken.amount + self.old.taken ≡ seat.old.taken.amount + self.new.taken }
        ensures parts { (seat.new.begun.parts ≡ seat.old.begun.parts) × (seat.new.taken.parts ≡ seat.old.taken.parts) }
    {
        self.state.begin(alloc, seat, request, key)
    }

    /// Takes the reply to a running call, once, and counts it in the seat's share; None where the call has none, or it
    /// was taken. It takes no memory. An error is NoSuchCall, where the call doesn't run.
    pub fn take_reply(
        &mut self,
        seat: &mut Seat<B, T>,
        call: CallId,
    ) -> Result<Option<TakenReply>, CoreFault>
        ensures event { IsHubEvent (IsTaken (core_view self.old.core) call (taken_part result)) self.old self.new }
        ensures receipt { IfOk result (λ o. IfSome o (IsReceived self.old call)) }
        ensures begun { seat.new.begun.amount + self.old.begun ≡ seat.old.begun.amount + self.new.begun }
        ensures taken { seat.new.taken.amount + self.old.taken ≡ seat.old.taken.amount + self.new.taken }
        ensures parts { (seat.new.begun.parts ≡ seat.old.begun.parts) × (seat.new.taken.parts ≡ seat.old.taken.parts) }
    {
        self.state.take_reply(seat, call)
    }

    /// Sends the first leg that waits for a server: the one with the least number. An error is Busy, where as many legs of the
    /// server are in flight as may be, or NothingWaiting.
    pub fn next(&mut self, server: ServerId) -> Result<LegId, CoreFault>
        ensures { IsHubEvent (IsNext (core_view self.old.core) server result) self.old self.new }
    {
        self.state.next(server)
    }

    /// Sends the first leg of a server that is in the spool: the one with the least number. It stays in the spool. Errors
    /// are those of `next`.
    pub fn replay(&mut self, server: ServerId) -> Result<LegId, CoreFault>
        ensures { IsHubEvent (IsReplay (core_view self.old.core) server result) self.old self.new }
    {
        self.state.replay(server)
    }

    /// A leg in flight was answered. It takes no memory. An error is NoSuchLeg, where the leg isn't in flight.
    pub fn answered(&mut self, leg: LegId, reply: LegReply) -> Result<Step, CoreFault>
        ensures { IsHubEvent (IsAnsweredLeg (core_view self.old.core) leg reply result) self.old self.new }
    {
        self.state.answered(leg, reply)
    }

    /// A leg in flight was lost, and its server has one failure more. It takes no memory. An error is NoSuchLeg, where the leg
    /// isn't in flight.
    pub fn lost(&mut self, leg: LegId) -> Result<Step, CoreFault>
        ensures { IsHubEvent (IsLostLeg (core_view self.old.core) leg result) self.old self.new }
    {
        self.state.lost(leg)
    }

    /// A leg in flight was lost too, with the connection of which another leg's loss has told: its server has no failure more.
    /// The connection's oldest leg is `lost`, and each other one of it `lost_too`. It takes no memory. An error is NoSuchLeg,
    /// where the leg isn't in flight.
    pub fn lost_too(&mut self, leg: LegId) -> Result<Step, CoreFault>
        ensures { IsHubEvent (IsLostTooLeg (core_view self.old.core) leg result) self.old self.new }
    {
        self.state.lost_too(leg)
    }

    /// A held leg is stored in the spool, where the record is its server's text and its rest. The leg keeps the record's
    /// number. It takes no memory. An error is NoSuchLeg, where the leg isn't held, or the record is another one.
    pub fn spooled(&mut self, leg: LegId, stored: Stored) -> Result<Step, CoreFault>
        ensures { IsHubEvent (IsSpooledLeg (core_view self.old.core) leg stored result) self.old self.new }
    {
        self.state.spooled(leg, stored)
    }

    /// The spool refused a held leg: its call records an error, unless it has an outcome. It takes no memory. An error is
    /// NoSuchLeg, where the leg isn't held.
    pub fn spool_refused(&mut self, leg: LegId) -> Result<Step, CoreFault>
        ensures { IsHubEvent (IsRefusedLeg (core_view self.old.core) leg result) self.old self.new }
    {
        self.state.spool_refused(leg)
    }

    /// Marks the server where three or more failures came in a row.
    pub fn mark(&mut self, server: ServerId)
        ensures { IsHubEvent (IsMarked (core_view self.old.core) server) self.old self.new }
    {
        self.state.mark(server)
    }

    /// Takes the server's mark away, and its failures with it.
    pub fn unmark(&mut self, server: ServerId)
        ensures { IsHubEvent (IsUnmarked (core_view self.old.core) server) self.old self.new }
    {
        self.state.unmark(server)
    }

    /// Later calls have the era of this moment. Gives the era where it is another one. It takes no memory. An error is
    /// ClockBack, where the moment is earlier than the core's.
    pub fn clock(&mut self, moment: Moment) -> Result<Option<Era>, CoreFault>
        ensures { IsHubEvent (IsClocked (core_view self.old.core) moment result) self.old self.new }
    {
        self.state.clock(moment)
    }

    /// A new chapter begins, with an empty history, where no call runs, no leg is queued and none is in replay, and what is
    /// left of the old one is given. An error is Busy; it comes also where 2^63 calls were begun or replies taken, or no
    /// chapter has a greater number.
    pub fn turn(&mut self, alloc: Global) -> Result<Past, CoreFault>
        ensures { IsHubTurn self.old result self.new }
    {
        self.state.turn(alloc)
    }

    /// How many calls were begun and replies taken in all chapters, where all receipts that aren't of earlier chapters
    /// are good and no two name one entry. It changes nothing.
    pub fn close(
        &mut self,
        alloc: Global,
        seat: &mut Seat<B, T>,
        receipts: &[Receipt],
    ) -> Result<Report, ReceiptFault>
        ensures begun { IfOk result (λ p. p.begun ≡ self.old.begun) }
        ensures taken { IfOk result (λ p. p.taken ≡ self.old.taken) }
        ensures all_begun { seat.old.begun.parts ≡ B.parts → self.old.begun ≡ seat.old.begun.amount }
        ensures all_taken { seat.old.taken.parts ≡ T.parts → self.old.taken ≡ seat.old.taken.amount }
        ensures passed { IfOk result (λ p. ArePassed self.old.hub self.old.chapter self.old.history receipts.now p.older) }
        ensures err { IfErr result (AreRefused self.old.hub self.old.chapter self.old.history receipts.now) }
        ensures shares { (seat.new.begun.amount ≡ seat.old.begun.amount) × (seat.new.taken.amount ≡ seat.old.taken.amount) × (seat.new.begun.parts ≡ seat.old.begun.parts) × (seat.new.taken.parts ≡ seat.old.taken.parts) }
        ensures same { IsSame self.old self.new }
    {
        self.state.close(alloc, seat, receipts)
    }

    /// The entries of the chapter, the oldest first. Each book is what it was when the chapter began, and one for each
    /// entry since.
    pub fn history(&self) -> &[Entry]
        ensures history { result.now ≡ self.now.history }
        ensures begun { self.now.begun ≡ self.now.begun_before + count_by is_began result.now }
        ensures taken { self.now.taken ≡ self.now.taken_before + count_by is_taken result.now }
    {
        self.state.history()
    }

    /// The bytes that the history holds.
    pub fn bytes(&self) -> u64
        ensures { result ≡ bytes_of self.now.history }
    {
        self.state.bytes()
    }

    /// Deletes are kept in the world that the history leads to, and the core's calls and legs are what is left of it.
    pub fn deletes_are_kept(&self)
        ensures { HistoryKeepsDeletes (core_view self.now.core) self.now.history }
    {
        self.state.deletes_are_kept()
    }

    /// The hub has the routes and the limit of legs in flight that it was opened with, and in its first chapter a history that
    /// leads from how it was opened.
    pub fn is_opened(&self)
        ensures { IsOf B.opened self.now }
    {
        self.state.is_opened()
    }

    /// The hub has the number of its ledger, which is the one that its receipts name.
    pub fn is_numbered(&self)
        ensures { self.now.hub ≡ B.number }
    {
        self.state.is_numbered()
    }
}
