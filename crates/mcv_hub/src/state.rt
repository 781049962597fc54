//! What lies under the lock.

ghost use Rattle.std.specs.Prelude.{◌≡◌, ◌+◌, ◌<◌, ◌≤◌, ◌^◌, ◌⊎◌, ◌||◌, [], false, IfOk, OnOk, IfErr, IfSome, count_by, nat_le, vec_len, vec_capacity, None, MatchOption};
ghost use Rattle.std.specs.Arc.{arc_value};
ghost use Rattle.std.specs.Int.NonZero.{non_zero_usize_get};
ghost use Rattle.mcv_pools.specs.Hash.{fnv_index};
ghost use Rattle.mcv_symbolic.specs.CoveredRoutes.{AreCovered};
ghost use Rattle.mcv_core.specs.Events.{IsAnsweredLeg, IsBegun, IsClocked, IsLostLeg, IsLostTooLeg, IsMarked, IsNext, IsRefusedLeg, IsReplay, IsSpooledLeg, IsTaken, IsUnmarked};
ghost use Rattle.mcv_core.specs.Opening.{opened_within};
ghost use Rattle.mcv_core.specs.View.{core_view};
ghost use Rattle.mcv_core.specs.declared.fault.CoreFault.TheVariants.{Memory as OutOfMemory};
ghost use Rattle.mcv_hub.specs.Events.{IsHubEvent, IsReceived, IsRequested, taken_part};
ghost use Rattle.mcv_hub.specs.Gate.{IsGate, IsHubBegun, IsHubTurn, due_bytes, is_chapter_due, is_half_full};
ghost use Rattle.mcv_hub.specs.History.{is_began, is_taken};
ghost use Rattle.mcv_hub.specs.RemainingEntries.{break_count};
ghost use Rattle.mcv_hub.specs.Receipts.{ArePassed, AreRefused};
ghost use Rattle.mcv_hub.specs.Weights.{bytes_of};

use crate::entry::Entry;
use crate::gate::Gate;
use crate::history::{History, Past, change_of, era_entry, leg_entry, write};
use crate::ledger::HubLedger;
use crate::receipts::{Receipt, ReceiptFault, Report, count_older};
use crate::reply::LegReply;
use crate::seat::{Asked, Seat, TakenReply};
use mcv_base::{CallId, FixedReply, LegId, Moment, Part, Request, ServerId};
use mcv_check::Accepted;
use mcv_core::{Core, CoreFault, Dispatcher, Era, Step};
use mcv_pools::Fnv;
use mcv_spool::{SpoolRecord, Stored};
use std::alloc::Global;
use std::marker::Model;
use std::num::NonZeroUsize;
use std::sync::Arc;
use std::sync::ledger::{Blank, Book, Ledger, Share};

/// The most entries that a chapter's calls may write.
const ENTRY_LIMIT: usize = 1_000_000;

/// The bytes of a history from which on the next chapter is due: 64 MiB.
const DUE_BYTES: u64 = 64 << 20;

/// The bytes of a history from which on its chapter is nearly full: 160 MiB, halfway from where the next one is due.
const NEARLY_FULL_BYTES: u64 = 160 << 20;

/// The bytes of a history beyond which no call begins: 256 MiB.
const MOST_BYTES: u64 = 256 << 20;

/// The most places of a history.
const MOST_PLACES: usize = 1 << 62;

/// The most calls begun, and the most replies taken, when a chapter begins.
const MOST_COUNTED: u64 = (1 << 63) - 1;

/// The core, with the history of the chapter and the two books.
#[derive(Drop)]
pub struct HubState<B: HubLedger, T: Ledger> {
    core: Core<Fnv>,
    history: History,
    /// How many entries the chapter has at most, of those that began.
    places: usize,
    /// How many breaks the routes have.
    breaks: usize,
    /// The number of the hub.
    hub: usize,
    chapter: u64,
    /// How many entries might be written when the chapter began.
    entries_before: usize,
    begun: Book<B>,
    taken: Book<T>,
    begun_before: u64,
    taken_before: u64,
    /// How often a call has waited for the next chapter in vain.
    vain_waits: u8,
}

impl<B: HubLedger, T: Ledger> Model for HubState<B, T> {
    ghost use Rattle.std.specs.Coded.{codes};
    ghost use Rattle.mcv_core.specs.contracts.dispatcher.Dispatcher as core_type;
    ghost use Rattle.mcv_hub.specs.contracts.entry.Entry as entry_type;
    ghost use Rattle.mcv_hub.specs.State.{HubView, IsHub, IsOpenedAs, HasRoom};

    ghost Value = { HubView };

    ghost coded = { Prim.hlevel (codes, core_type.the_row.coded, entry_type.the_row.coded) };

    ghost use Rattle.std.specs.Prelude.{◌≡◌, vec_len, vec_capacity};
    ghost use Rattle.mcv_core.specs.View.{core_view};
    ghost use Rattle.mcv_hub.specs.RemainingEntries.{break_count, may_write};

    ghost view = { λ s. record { core = s.core.dispatcher; history = s.history.entries.items; hub = s.hub; chapter = s.chapter; entries_before = s.entries_before; begun = s.begun.total; taken = s.taken.total; begun_before = s.begun_before; taken_before = s.taken_before } };

    ghost invariant = { λ s. (IsHub (core_view s.core.dispatcher) s.history.entries.items s.chapter s.begun.total s.taken.total s.begun_before s.taken_before × HasRoom (vec_len s.history.entries) (vec_capacity s.history.entries) s.places (may_write (core_view s.core.dispatcher)) × (s.breaks ≡ break_count (core_view s.core.dispatcher).routes) × IsOpenedAs B.opened (core_view s.core.dispatcher) s.history.entries.items s.chapter) × (s.hub ≡ B.number) };
}

/// How many breaks the routes have, which are covered.
fn count_breaks(accepted: &Accepted) -> usize
    ensures count { result ≡ break_count accepted.now }
    ensures covered { AreCovered accepted.now }
{
    accepted.routes().breaks().len()
}

/// Makes room in a history for so many entries beside its places. The one error is Memory, and it leaves the entries.
fn make_room(history: &mut History, places: usize, left: usize) -> Result<(), CoreFault>
    requires { vec_len history.old.entries ≤ places }
    ensures items { history.new.entries.items ≡ history.old.entries.items }
    ensures len { vec_len history.new.entries ≡ vec_len history.old.entries }
    ensures grown { vec_capacity history.old.entries ≤ vec_capacity history.new.entries }
    ensures room { OnOk result (places + left ≤ vec_capacity history.new.entries) }
    ensures small { OnOk result (places + left ≤ 2 ^ 62) }
    ensures err { IfErr result (λ fault. fault ≡ OutOfMemory) }
{
    let Some(wanted) = places_for(places, left) else {
        return Err(CoreFault::Memory);
    };
    match history.reserve(wanted - history.len()) {
        Ok(()) => Ok(()),
        Err(_) => Err(CoreFault::Memory),
    }
}

/// The places of a chapter that begins with so many entries to be written, and breaks to come: no more than there were.
fn turned_places(places: usize, entries: usize, breaks: usize) -> usize
    ensures lesser { result ≤ places }
    ensures either { (result ≡ places) ⊎ (result ≡ entries + breaks) }
{
    match places_for(entries, breaks) {
        Some(other) if other < places => other,
        _ => places,
    }
}

/// The sum, where it is at most `MOST_PLACES`.
fn places_for(one: usize, other: usize) -> Option<usize>
    ensures { MatchOption result (2 ^ 62 < one + other) (λ places. (places ≡ one + other) × (places ≤ 2 ^ 62)) }
{
    let places = one.checked_add(other)?;
    if places > MOST_PLACES {
        return None;
    }
    Some(places)
}

/// Whether a chapter that opened with so many entries has gained as many as half of what it had room for.
fn is_half_full(before: usize, entries: usize) -> bool
    ensures { result ≡ is_half_full before entries }
{
    let gained = entries.saturating_sub(before);
    let room = ENTRY_LIMIT.saturating_sub(before);
    gained > 0 && room - room / 2 <= gained
}

/// Whether the next chapter is due where this one opened with so many entries, and has so many, which hold so many bytes.
fn is_due_with(before: usize, entries: usize, bytes: u64) -> bool
    ensures { result ≡ (is_half_full before entries || nat_le due_bytes bytes) }
{
    is_half_full(before, entries) || bytes >= DUE_BYTES
}

impl<B: HubLedger, T: Ledger> HubState<B, T> {
    ghost use Rattle.mcv_hub.specs.State.{HistoryKeepsDeletes, IsCallOf, IsOf, IsSame};

    /// A core over these routes with the records that the spool held, in which so many legs of each server may be in flight at a
    /// time, in the first chapter of the hub of this number, and the shares that count all its calls and replies. The first blank
    /// is that of the calls. The one error is Memory.
    pub(crate) fn new(
        alloc: Global,
        accepted: Arc<Accepted>,
        hub: usize,
        limit: NonZeroUsize,
        records: &[(u64, SpoolRecord)],
        blanks: (Blank, Blank),
    ) -> Result<(HubState<B, T>, Share<B>, Share<T>), CoreFault>
        requires begun { (blanks.0.name ≡ B.name) × (blanks.0.parts ≡ B.parts) }
        requires taken { (blanks.1.name ≡ T.name) × (blanks.1.parts ≡ T.parts) }
        requires number { hub ≡ B.number }
        requires opened { B.opened ≡ opened_within (non_zero_usize_get limit) (arc_value accepted) records.now }
        ensures view { IfOk result (λ r. core_view r.0.core ≡ opened_within (non_zero_usize_get limit) (arc_value accepted) records.now) }
        ensures history { IfOk result (λ r. (r.0.history ≡ []) × (r.0.hub ≡ hub) × (r.0.chapter ≡ 0)) }
        ensures due { IfOk result (λ r. is_chapter_due r.0 ≡ false) }
        ensures begun { IfOk result (λ r. (r.1.parts ≡ B.parts) × (r.1.amount ≡ 0) × (r.0.begun ≡ 0)) }
        ensures taken { IfOk result (λ r. (r.2.parts ≡ T.parts) × (r.2.amount ≡ 0) × (r.0.taken ≡ 0)) }
        ensures err { IfErr result (λ fault. fault ≡ OutOfMemory) }
    {
        let breaks = count_breaks(&accepted);
        let core = Core::with_limit(alloc, accepted, Fnv, records, limit)?;
        let before = core.state().entries();
        let Some(places) = places_for(before, breaks) else {
            return Err(CoreFault::Memory);
        };
        let Ok(history) = History::new(alloc, places) else {
            return Err(CoreFault::Memory);
        };
        let (begun, taken) = blanks;
        let (begun, begun_share) = begun.open::<B>();
        let (taken, taken_share) = taken.open::<T>();
        let state = HubState {
            core,
            history,
            places,
            breaks,
            hub,
            chapter: 0,
            entries_before: before,
            begun,
            taken,
            begun_before: 0,
            taken_before: 0,
            vain_waits: 0,
        };
        Ok((state, begun_share, taken_share))
    }

    /// The core, for its readers.
    pub(crate) fn core(&self) -> &Dispatcher
        ensures { result.now ≡ self.now.core }
    {
        self.core.state()
    }

    /// Whether the next chapter is due.
    pub(crate) fn is_due(&self) -> bool
        ensures { result ≡ is_chapter_due self.now }
    {
        let entries = self.core.state().entries();
        is_due_with(self.entries_before, entries, self.history.bytes())
    }

    /// A call begins, and is counted in the seat's share; where the history holds too many bytes none does.
    pub(crate) fn begin(
        &mut self,
        alloc: Global,
        seat: &mut Seat<B, T>,
        request: Arc<Request>,
        key: usize,
    ) -> Result<CallId, CoreFault>
        ensures event { IsHubBegun self.old (arc_value request) key result self.new }
        ensures entry { OnOk result (IsRequested self.old self.new request key) }
        ensures begun { seat.new.begun.amount + self.old.begun ≡ seat.old.begun.amount + self.new.begun }
        ensures taken { seat.new.taken.amount + self.old.taken ≡ seat.old.taken.amount + self.new.taken }
        ensures parts { (seat.new.begun.parts ≡ seat.old.begun.parts) × (seat.new.taken.parts ≡ seat.old.taken.parts) }
    {
        if self.bytes() > MOST_BYTES {
            return Err(CoreFault::ChapterFull);
        }
        self.begin_call(alloc, seat, request, key)
    }

    /// A call begins, and is counted in the seat's share; where the history gets no room it is Memory.
    fn begin_call(
        &mut self,
        alloc: Global,
        seat: &mut Seat<B, T>,
        request: Arc<Request>,
        key: usize,
    ) -> Result<CallId, CoreFault>
        ensures event { IsHubEvent (IsBegun (core_view self.old.core) fnv_index (arc_value request) key result) self.old self.new }
        ensures entry { OnOk result (IsRequested self.old self.new request key) }
        ensures begun { seat.new.begun.amount + self.old.begun ≡ seat.old.begun.amount + self.new.begun }
        ensures taken { seat.new.taken.amount + self.old.taken ≡ seat.old.taken.amount + self.new.taken }
        ensures parts { (seat.new.begun.parts ≡ seat.old.begun.parts) × (seat.new.taken.parts ≡ seat.old.taken.parts) }
    {
        let entries = self.core.state().entries();
        let left = ENTRY_LIMIT.saturating_sub(entries);
        make_room(&mut self.history, self.places, left)?;
        let Ok(shared) = Arc::try_clone(&request) else {
            return Err(CoreFault::Memory);
        };
        let call = self.core.begin(alloc, request, key)?;
        self.history.push(Entry::Began {
            request: shared,
            key,
        });
        let reserved = self.core.state().entries() - entries;
        self.places += reserved;
        self.begun.add(&mut seat.begun, 1);
        Ok(call)
    }

    /// What a running call asks. An error is NoSuchCall, where the call doesn't run.
    fn asked_by(&self, call: CallId) -> Result<Asked, CoreFault>
        ensures ok { IfOk result (λ a. IsCallOf self.now call.0 a.op a.route a.rest) }
        ensures err { IfErr result (λ fault. (fault ≡ CoreFault.NoSuchCall) × ((core_view self.now.core).rows.calls call.0 ≡ None)) }
    {
        match self.core.state().call(call) {
            Some(view) => Ok(Asked {
                op: view.op,
                route: view.route,
                rest: view.rest.copied(),
            }),
            None => Err(CoreFault::NoSuchCall),
        }
    }

    /// The reply to a call is taken, and counted in the seat's share.
    pub(crate) fn take_reply(
        &mut self,
        seat: &mut Seat<B, T>,
        call: CallId,
    ) -> Result<Option<TakenReply>, CoreFault>
        ensures event { IsHubEvent (IsTaken (core_view self.old.core) call (taken_part result)) self.old self.new }
        ensures receipt { IfOk result (λ o. IfSome o (IsReceived self.old call)) }
        ensures begun { seat.new.begun.amount + self.old.begun ≡ seat.old.begun.amount + self.new.begun }
        ensures taken { seat.new.taken.amount + self.old.taken ≡ seat.old.taken.amount + self.new.taken }
        ensures parts { (seat.new.begun.parts ≡ seat.old.begun.parts) × (seat.new.taken.parts ≡ seat.old.taken.parts) }
    {
        let asked = self.asked_by(call)?;
        let found = self.core.events().take(call)?;
        let Some(reply) = found else {
            return Ok(None);
        };
        let receipt = Receipt {
            hub: self.hub,
            chapter: self.chapter,
            entry: self.history.len(),
            call,
        };
        self.history.push(Entry::Taken(call));
        self.taken.add(&mut seat.taken, 1);
        Ok(Some(TakenReply {
            receipt,
            reply,
            asked,
        }))
    }

    /// A waiting leg is sent.
    pub(crate) fn next(&mut self, server: ServerId) -> Result<LegId, CoreFault>
        ensures { IsHubEvent (IsNext (core_view self.old.core) server result) self.old self.new }
    {
        self.core.events().next(server)
    }

    /// A leg in the spool is sent.
    pub(crate) fn replay(&mut self, server: ServerId) -> Result<LegId, CoreFault>
        ensures { IsHubEvent (IsReplay (core_view self.old.core) server result) self.old self.new }
    {
        self.core.events().replay(server)
    }

    /// A leg in flight was answered.
    pub(crate) fn answered(&mut self, leg: LegId, reply: LegReply) -> Result<Step, CoreFault>
        ensures { IsHubEvent (IsAnsweredLeg (core_view self.old.core) leg reply result) self.old self.new }
    {
        let (parts, part) = reply.into_parts();
        let answer = self.core.events().answered(leg, parts);
        write(&mut self.history, leg_entry(leg, part, change_of(&answer)));
        answer
    }

    /// A leg in flight was lost.
    pub(crate) fn lost(&mut self, leg: LegId) -> Result<Step, CoreFault>
        ensures { IsHubEvent (IsLostLeg (core_view self.old.core) leg result) self.old self.new }
    {
        let answer = self.core.events().lost(leg);
        write(
            &mut self.history,
            leg_entry(leg, Part::Fixed(FixedReply::Lost), change_of(&answer)),
        );
        answer
    }

    /// A leg in flight was lost too, with the connection of which another leg's loss has told.
    pub(crate) fn lost_too(&mut self, leg: LegId) -> Result<Step, CoreFault>
        ensures { IsHubEvent (IsLostTooLeg (core_view self.old.core) leg result) self.old self.new }
    {
        let answer = self.core.events().lost_too(leg);
        write(
            &mut self.history,
            leg_entry(leg, Part::Fixed(FixedReply::Lost), change_of(&answer)),
        );
        answer
    }

    /// The spool took a held leg.
    pub(crate) fn spooled(&mut self, leg: LegId, stored: Stored) -> Result<Step, CoreFault>
        ensures { IsHubEvent (IsSpooledLeg (core_view self.old.core) leg stored result) self.old self.new }
    {
        let answer = self.core.events().spooled(leg, stored);
        write(
            &mut self.history,
            leg_entry(leg, Part::Fixed(FixedReply::NotFound), change_of(&answer)),
        );
        answer
    }

    /// The spool refused a held leg.
    pub(crate) fn spool_refused(&mut self, leg: LegId) -> Result<Step, CoreFault>
        ensures { IsHubEvent (IsRefusedLeg (core_view self.old.core) leg result) self.old self.new }
    {
        let answer = self.core.events().spool_refused(leg);
        write(
            &mut self.history,
            leg_entry(leg, Part::Fixed(FixedReply::Lost), change_of(&answer)),
        );
        answer
    }

    /// The server is marked.
    pub(crate) fn mark(&mut self, server: ServerId)
        ensures { IsHubEvent (IsMarked (core_view self.old.core) server) self.old self.new }
    {
        self.core.events().mark(server)
    }

    /// The server's mark is taken away.
    pub(crate) fn unmark(&mut self, server: ServerId)
        ensures { IsHubEvent (IsUnmarked (core_view self.old.core) server) self.old self.new }
    {
        self.core.events().unmark(server)
    }

    /// Later calls have the era of this moment.
    pub(crate) fn clock(&mut self, moment: Moment) -> Result<Option<Era>, CoreFault>
        ensures { IsHubEvent (IsClocked (core_view self.old.core) moment result) self.old self.new }
    {
        let answer = self.core.events().clock(moment);
        write(&mut self.history, era_entry(&answer));
        answer
    }

    /// The next chapter begins where it is due, and can.
    pub(crate) fn gate(&mut self, alloc: Global) -> Gate
        ensures { IsGate self.old result self.new }
    {
        if !self.is_due() {
            return Gate::Open;
        }
        match self.turn(alloc) {
            Ok(past) => Gate::Turned(past),
            Err(_) => Gate::Closed,
        }
    }

    /// The next chapter begins.
    pub(crate) fn turn(&mut self, alloc: Global) -> Result<Past, CoreFault>
        ensures { IsHubTurn self.old result self.new }
    {
        let Some(chapter) = self.chapter.checked_add(1) else {
            return Err(CoreFault::Busy);
        };
        let (begun, taken) = self.totals();
        if begun > MOST_COUNTED || taken > MOST_COUNTED {
            return Err(CoreFault::Busy);
        }
        self.core.events().turn()?;
        let before = self.core.state().entries();
        self.places = turned_places(self.places, before, self.breaks);
        let past = self.history.renew(alloc, self.places);
        self.chapter = chapter;
        self.entries_before = before;
        self.begun_before = begun;
        self.taken_before = taken;
        self.vain_waits = 0;
        Ok(past)
    }

    /// Whether three quarters of the room for entries that the chapter began with are taken, or its history holds 160 MiB.
    fn is_nearly_full(&self) -> bool {
        let room = ENTRY_LIMIT.saturating_sub(self.entries_before);
        let left = ENTRY_LIMIT.saturating_sub(self.core.state().entries());
        left <= room / 4 || self.history.bytes() >= NEARLY_FULL_BYTES
    }

    /// Whether a call has waited for the next chapter in vain, in this one; once this one is nearly full, whether a second has.
    pub(crate) fn was_awaited_in_vain(&self) -> bool {
        match self.vain_waits {
            0 => false,
            1 => !self.is_nearly_full(),
            _ => true,
        }
    }

    /// A call has waited for the next chapter in vain.
    pub(crate) fn note_vain_wait(&mut self)
        ensures { IsSame self.old self.new }
    {
        self.vain_waits = self.vain_waits.saturating_add(1);
    }

    /// How many calls were begun and replies taken in all chapters.
    fn totals(&self) -> (u64, u64)
        ensures begun { result.0 ≡ self.now.begun }
        ensures taken { result.1 ≡ self.now.taken }
    {
        (
            self.begun_before + self.history.began(),
            self.taken_before + self.history.taken(),
        )
    }

    /// What the books and the receipts say; it changes nothing.
    pub(crate) fn close(
        &mut self,
        alloc: Global,
        seat: &mut Seat<B, T>,
        receipts: &[Receipt],
    ) -> Result<Report, ReceiptFault>
        ensures begun { IfOk result (λ p. p.begun ≡ self.old.begun) }
        ensures taken { IfOk result (λ p. p.taken ≡ self.old.taken) }
        ensures all_begun { seat.old.begun.parts ≡ B.parts → self.old.begun ≡ seat.old.begun.amount }
        ensures all_taken { seat.old.taken.parts ≡ T.parts → self.old.taken ≡ seat.old.taken.amount }
        ensures passed { IfOk result (λ p. ArePassed self.old.hub self.old.chapter self.old.history receipts.now p.older) }
        ensures err { IfErr result (AreRefused self.old.hub self.old.chapter self.old.history receipts.now) }
        ensures shares { (seat.new.begun.amount ≡ seat.old.begun.amount) × (seat.new.taken.amount ≡ seat.old.taken.amount) × (seat.new.begun.parts ≡ seat.old.begun.parts) × (seat.new.taken.parts ≡ seat.old.taken.parts) }
        ensures same { IsSame self.old self.new }
    {
        let (all_begun, all_taken) = self.totals();
        self.begun.audit(&mut seat.begun);
        self.taken.audit(&mut seat.taken);
        let history = self.history.as_slice();
        let older = count_older(alloc, history, self.hub, self.chapter, receipts)?;
        Ok(Report {
            begun: all_begun,
            taken: all_taken,
            older,
        })
    }

    /// The entries of the chapter, the oldest first.
    pub(crate) fn history(&self) -> &[Entry]
        ensures history { result.now ≡ self.now.history }
        ensures begun { self.now.begun ≡ self.now.begun_before + count_by is_began result.now }
        ensures taken { self.now.taken ≡ self.now.taken_before + count_by is_taken result.now }
    {
        self.history.as_slice()
    }

    /// The bytes that the history holds.
    pub(crate) fn bytes(&self) -> u64
        ensures { result ≡ bytes_of self.now.history }
    {
        self.history.bytes()
    }

    /// The hub is the one that was opened so.
    pub(crate) fn is_opened(&self)
        ensures { IsOf B.opened self.now }
    {
        let _core = &self.core;
    }

    /// The hub has this number.
    pub(crate) fn is_numbered(&self)
        ensures { self.now.hub ≡ B.number }
    {
        let _core = &self.core;
    }

    /// Deletes are kept in the world that the history leads to.
    pub(crate) fn deletes_are_kept(&self)
        ensures { HistoryKeepsDeletes (core_view self.now.core) self.now.history }
    {
        let _core = &self.core;
    }
}
