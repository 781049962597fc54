//! Calls begin: what takes memory.

ghost use Rattle.std.specs.Arc.{arc_value};
ghost use Rattle.std.specs.Prelude.{◌≡◌, ◌+◌, ◌*◌, ◌<◌, ◌≤◌, ◌^◌, ◌⊎◌, IfOk, IfErr, OnOk, OnErr, slice_index};
ghost use Rattle.mcv_queues.specs.Queues.{room as leg_room};
ghost use Rattle.mcv_base.specs.Key.{IsRest};
ghost use Rattle.mcv_route.specs.Outcomes.{IsChoice};
ghost use Rattle.mcv_route.specs.Routes.{IsSoundRoutes};
ghost use Rattle.mcv_symbolic.specs.CoveredRoutes.{sizes_of};
ghost use Rattle.mcv_core.specs.Beginning.{AreReadied, CanAdd, CanStart, HasBegun, HasLegRoom, HasRoom, IsNewCall, IsUnstarted, asked_call, began_by, began_for, has_begun};
ghost use Rattle.mcv_core.specs.Calls.{room as call_room};
ghost use Rattle.mcv_core.specs.CoreView.{Moved};
ghost use Rattle.mcv_core.specs.View.{core_view};
ghost use Rattle.mcv_core.specs.declared.fault.CoreFault.TheVariants.{Memory as OutOfMemory};

use crate::call::Call;
use crate::counts::Counts;
use crate::dispatcher::Dispatcher;
use crate::errand::{Errand, Laid};
use crate::fault::CoreFault;
use crate::launch::Entry;
use crate::progress::open;
use crate::settle::number_after;
use mcv_base::{CallId, Moment, Op, Request, Rest};
use mcv_plan::EvalState;
use mcv_pools::Choice;
use mcv_route::{Launch, Routes};
use std::alloc::{AllocError, AllocFailed, Global};
use std::sync::Arc;

/// The most legs that are queued or reserved.
const LEG_LIMIT: usize = 65_536;

/// The most entries of a chapter's history, reserved ones counted.
const ENTRY_LIMIT: usize = 1_000_000;

impl From<AllocError> for CoreFault {
    ghost from_gives = { λ _ e. e ≡ OutOfMemory };

    fn from(_fault: AllocError) -> CoreFault {
        CoreFault::Memory
    }
}

impl<T: Drop> From<AllocFailed<T>> for CoreFault {
    ghost from_gives = { λ _ e. e ≡ OutOfMemory };

    fn from(_fault: AllocFailed<T>) -> CoreFault {
        CoreFault::Memory
    }
}

/// What a call asks for.
#[derive(Drop)]
pub struct Asked {
    pub request: Arc<Request>,
    pub op: Op,
    pub route: usize,
    pub rest: Arc<Rest>,
    pub choice: Choice,
}

/// The pools of the routes are sound.
fn routes_are_sound(routes: &Routes)
    ensures { IsSoundRoutes routes.now }
{
    let _servers = routes.servers();
}

/// A rest has 1 to 250 key bytes.
fn rest_is_sound(rest: &Rest)
    ensures { IsRest rest.now }
{
    let _bytes = rest.as_bytes();
}

/// The entries of a call that begins, each with what its leg takes with it.
fn readied(alloc: Global, laid: &Arc<Laid>, number: u64) -> Result<Vec<Entry>, AllocError>
    ensures { IfOk result (λ entries. AreReadied (arc_value laid.now) number entries.items) }
{
    let count = laid.launches.len();
    let mut entries = Vec::with_capacity(alloc, count)?;
    for entry in 0..count {
        let errand = Errand {
            call: Some(number),
            laid: Arc::try_clone(laid)?,
            entry,
        };
        entries.push(Entry {
            errand: Some(errand),
            leg: None,
            place: None,
        })?;
    }
    Ok(entries)
}

/// The call before anything is launched.
fn new_call(
    alloc: Global,
    number: u64,
    since: Option<Moment>,
    asked: Asked,
    state: EvalState,
    launches: Vec<Launch>,
) -> Result<Call, AllocError>
    ensures { IfOk result (λ c. IsNewCall number since asked state launches.items c) }
{
    let Asked {
        request,
        op,
        route,
        rest,
        choice,
    } = asked;
    let count = launches.len();
    let laid = Arc::new(
        alloc,
        Laid {
            launches,
            rest,
            request: Some(request),
        },
    )?;
    let entries = readied(alloc, &laid, number)?;
    let recorded = Vec::with_capacity(alloc, count)?;
    Ok(Call {
        op,
        route,
        since,
        choice,
        laid,
        state,
        entries,
        recorded,
        left: count,
        taken: false,
    })
}

impl Counts {
    /// The counts after a call of so many entries began, and launched some of them.
    fn begun(self, count: usize, launched: usize) -> Counts
        requires within { launched ≤ count }
        requires small { self.queued + self.reserved + count ≤ 65536 }
        requires running { self.running + 1 < 2 ^ 128 }
        ensures reserved { result.reserved + launched ≡ self.reserved + count }
        ensures queued { result.queued ≡ self.queued + launched }
        ensures spooled { result.spooled ≡ self.spooled }
        ensures running { result.running ≡ self.running + 1 }
    {
        Counts {
            reserved: self.reserved + (count - launched),
            queued: self.queued + launched,
            spooled: self.spooled,
            running: self.running + 1,
        }
    }
}

impl Dispatcher {
    /// Begins a call: the legs that it launches at once are queued. It takes all memory of the call first, or changes
    /// nothing that contracts see.
    pub(crate) fn begin(&mut self, alloc: Global, asked: Asked) -> Result<CallId, CoreFault>
        requires choice { IsChoice (sizes_of (core_view self.old).routes) (slice_index asked.choice) }
        ensures moves { OnOk result (Moved (core_view self.old) (core_view self.new) (began_for asked)) }
        ensures call { IfOk result (λ call. call.0 ≡ (core_view self.old).rows.next_call) }
        ensures view { OnOk result (HasBegun (core_view self.old) (core_view self.new) (asked_call (core_view self.old) asked) (Some (arc_value asked.request))) }
        ensures refused { IfErr result (IsUnstarted (core_view self.old) asked) }
        ensures err { OnErr result (core_view self.new ≡ core_view self.old) }
    {
        let Some(tree) = self.accepted.routes().route(asked.route) else {
            return Err(CoreFault::UnknownPrefix);
        };
        let laid = open(
            alloc,
            tree,
            asked.op,
            &asked.rest,
            self.since,
            &asked.choice,
        )?;
        match self.has_room_for(laid.1.len()) {
            Ok(()) => self.start(alloc, asked, laid.0, laid.1),
            Err(fault) => Err(fault),
        }
    }

    /// Makes a call for which there is room, and adds it.
    fn start(
        &mut self,
        alloc: Global,
        asked: Asked,
        state: EvalState,
        launches: Vec<Launch>,
    ) -> Result<CallId, CoreFault>
        requires can { CanStart self.old asked state launches.items }
        ensures moves { OnOk result (Moved (core_view self.old) (core_view self.new) (began_for asked)) }
        ensures call { IfOk result (λ call. call.0 ≡ (core_view self.old).rows.next_call) }
        ensures view { OnOk result (HasBegun (core_view self.old) (core_view self.new) (asked_call (core_view self.old) asked) (Some (arc_value asked.request))) }
        ensures memory { IfErr result (λ fault. fault ≡ OutOfMemory) }
        ensures err { OnErr result (core_view self.new ≡ core_view self.old) }
    {
        self.make_room(launches.len())?;
        routes_are_sound(self.accepted.routes());
        rest_is_sound(&asked.rest);
        let number = self.next_call as u64;
        let call = new_call(alloc, number, self.since, asked, state, launches)?;
        Ok(self.add(call))
    }

    /// Whether a call with so many entries can begin: `LegsFull` and `ChapterFull` are looked for in this order.
    fn has_room_for(&self, count: usize) -> Result<(), CoreFault>
        ensures ok { OnOk result (HasRoom self.now count) }
        ensures legs { IfErr result (λ fault. (fault ≡ CoreFault.LegsFull) ⊎ (fault ≡ CoreFault.ChapterFull)) }
        ensures full { IfErr result (λ fault. fault ≡ CoreFault.LegsFull → HasLegRoom self.now count → ⊥) }
        ensures entries { IfErr result (λ fault. fault ≡ CoreFault.ChapterFull → HasLegRoom self.now count × (1000000 < self.now.entries + (2 + 3 * count))) }
    {
        if count > LEG_LIMIT - self.counts.queued - self.counts.reserved {
            return Err(CoreFault::LegsFull);
        }
        if self.next_call > u64::MAX as u128 {
            return Err(CoreFault::LegsFull);
        }
        if u64::MAX - self.next_leg < (self.counts.reserved + count) as u64 {
            return Err(CoreFault::LegsFull);
        }
        if self.entries > ENTRY_LIMIT || 2 + 3 * count > ENTRY_LIMIT - self.entries {
            return Err(CoreFault::ChapterFull);
        }
        Ok(())
    }

    /// Makes room for a call with so many entries.
    fn make_room(&mut self, count: usize) -> Result<(), CoreFault>
        requires { self.old.counts.reserved + count < 2 ^ 64 }
        ensures view { core_view self.new ≡ core_view self.old }
        ensures counts { self.new.counts ≡ self.old.counts }
        ensures accepted { self.new.accepted ≡ self.old.accepted }
        ensures since { self.new.since ≡ self.old.since }
        ensures next_call { self.new.next_call ≡ self.old.next_call }
        ensures next_leg { self.new.next_leg ≡ self.old.next_leg }
        ensures entries { self.new.entries ≡ self.old.entries }
        ensures calls { OnOk result (0 < call_room self.new.calls) }
        ensures legs { OnOk result (self.old.counts.reserved + count ≤ leg_room self.new.queues) }
        ensures err { IfErr result (λ fault. fault ≡ OutOfMemory) }
    {
        self.calls.reserve()?;
        self.queues.reserve(self.counts.reserved + count)?;
        Ok(())
    }

    /// Adds a call for which there is room, and launches what is launched at once.
    fn add(&mut self, mut call: Call) -> CallId
        requires { CanAdd self.old call }
        ensures number { result.0 ≡ (core_view self.old).rows.next_call }
        ensures view { core_view self.new ≡ has_begun (core_view self.old) call }
        ensures moves { Moved (core_view self.old) (core_view self.new) (began_by call) }
    {
        let number = self.next_call as u64;
        let count = call.left;
        let launched = call.launch(&mut self.queues, self.next_leg);
        self.calls.add(number, call);
        self.next_call += 1;
        self.next_leg = number_after(self.next_leg, launched);
        self.counts = self.counts.begun(count, launched);
        self.entries += 2 + 3 * count;
        CallId(number)
    }
}
