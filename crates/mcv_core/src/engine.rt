//! The core: the dispatcher with the hash that picks the servers of a key.

ghost use Rattle.std.specs.Arc.{arc_value};
ghost use Rattle.std.specs.Prelude.{◌≡◌, ◌≤◌, None, IfOk, IfErr, IfSome, length, true};
ghost use Rattle.std.specs.Borrow.{sem};
ghost use Rattle.std.specs.Int.NonZero.{non_zero_usize_get};
ghost use Rattle.mcv_base.specs.Key.{is_key_word};
ghost use Rattle.mcv_pools.specs.Choice.{HasIndexEach};
ghost use Rattle.mcv_symbolic.specs.CoveredRoutes.{AreCovered};
ghost use Rattle.mcv_events.specs.Rows.{world_of};
ghost use Rattle.mcv_core.specs.Asking.{HasNoKey, IsAsked, IsKeyOf, IsUnbegun};
ghost use Rattle.mcv_core.specs.BorrowedCore.{BorrowsEvents};
ghost use Rattle.mcv_core.specs.Events.{IsBegun, IsEvent};
ghost use Rattle.mcv_core.specs.KeptDeletes.{KeepsDeletes};
ghost use Rattle.mcv_core.specs.Opening.{opened_view, opened_within};
ghost use Rattle.mcv_core.specs.View.{core_view};
ghost use Rattle.mcv_core.specs.declared.fault.CoreFault.TheVariants.{Memory as OutOfMemory};

use crate::begin::Asked;
use crate::dispatcher::Dispatcher;
use crate::fault::CoreFault;
use mcv_base::{CallId, Op, Prefix, Request, Rest, cut_key, hashed_part};
use mcv_check::Accepted;
use mcv_pools::{KeyHash, choose};
use mcv_spool::SpoolRecord;
use std::alloc::Global;
use std::num::NonZeroUsize;
use std::sync::Arc;

/// The core of the proxy.
#[derive(Drop)]
pub struct Core<H> {
    pub(crate) dispatcher: Dispatcher,
    pub(crate) hash: H,
}

impl<H: KeyHash + Drop> Core<H> {
    /// A core over these routes, opened with the records that the spool held: their legs have the numbers from 0 in their
    /// order. Records of servers that the routes don't have are left to the file. One leg of a server may be in flight at a
    /// time. The one error is `Memory`.
    pub fn new(
        alloc: Global,
        accepted: Arc<Accepted>,
        hash: H,
        records: &[(u64, SpoolRecord)],
    ) -> Result<Core<H>, CoreFault>
        ensures view { IfOk result (λ core. core_view core.dispatcher ≡ opened_view (arc_value accepted) records.now) }
        ensures hash { IfOk result (λ core. core.hash ≡ hash) }
        ensures keeps { IfOk result (λ core. KeepsDeletes (core_view core.dispatcher) (world_of (core_view core.dispatcher).rows)) }
        ensures err { IfErr result (λ fault. fault ≡ OutOfMemory) }
    {
        deletes_are_covered(&accepted);
        let dispatcher = Dispatcher::open(alloc, accepted, records, 1)?;
        Ok(Core { dispatcher, hash })
    }

    /// The same, where so many legs of a server may be in flight at a time.
    pub fn with_limit(
        alloc: Global,
        accepted: Arc<Accepted>,
        hash: H,
        records: &[(u64, SpoolRecord)],
        limit: NonZeroUsize,
    ) -> Result<Core<H>, CoreFault>
        ensures view { IfOk result (λ core. core_view core.dispatcher ≡ opened_within (non_zero_usize_get limit) (arc_value accepted) records.now) }
        ensures hash { IfOk result (λ core. core.hash ≡ hash) }
        ensures keeps { IfOk result (λ core. KeepsDeletes (core_view core.dispatcher) (world_of (core_view core.dispatcher).rows)) }
        ensures err { IfErr result (λ fault. fault ≡ OutOfMemory) }
    {
        deletes_are_covered(&accepted);
        let dispatcher = Dispatcher::open(alloc, accepted, records, limit.get())?;
        Ok(Core { dispatcher, hash })
    }

    /// All events but `begin`. When the borrow ends, the core has the dispatcher as it was left, and its hash.
    pub fn events(&mut self) -> &mut Dispatcher
        ensures* writes_back { sem 𝓛 (BorrowsEvents H.row self.entry result) }
        ensures value { result.now ≡ self.old.dispatcher }
    {
        &mut self.dispatcher
    }

    /// What the readers look at.
    pub fn state(&self) -> &Dispatcher
        ensures { result.now ≡ self.now.dispatcher }
    {
        &self.dispatcher
    }

    /// Begins a call for one key of a request, counted from 0: its route is that of the key's prefix, its servers are those
    /// that the hash picks, and its era is the core's. `BadKey`, `UnknownPrefix`, `LegsFull` and `ChapterFull` are looked
    /// for in this order; `Memory` may come before them. A refused call changes nothing that contracts see.
    pub fn begin(
        &mut self,
        alloc: Global,
        request: Arc<Request>,
        key: usize,
    ) -> Result<CallId, CoreFault>
        ensures begun { IsEvent (IsBegun (core_view self.old.dispatcher) (H.chosen self.old.hash) (arc_value request) key result) (core_view self.new.dispatcher) }
        ensures hash { self.new.hash ≡ self.old.hash }
    {
        match self.asked(alloc, request, key) {
            Ok(asked) => self.dispatcher.begin(alloc, asked),
            Err(fault) => Err(fault),
        }
    }

    /// What a call for this key asks for.
    fn asked(&self, alloc: Global, request: Arc<Request>, key: usize) -> Result<Asked, CoreFault>
        ensures asked { IfOk result (λ asked. IsAsked (core_view self.now.dispatcher).routes (H.chosen self.now.hash) (arc_value request) key asked.op asked.route (arc_value asked.rest) asked.choice) }
        ensures request { IfOk result (λ asked. arc_value asked.request ≡ arc_value request) }
        ensures within { IfOk result (λ asked. HasIndexEach (core_view self.now.dispatcher).routes.symbols asked.choice) }
        ensures refused { IfErr result (IsUnbegun (core_view self.now.dispatcher) (H.chosen self.now.hash) (arc_value request) key) }
    {
        let Some((op, prefix, rest)) = key_of(&request, key) else {
            return Err(CoreFault::BadKey);
        };
        let Some(rest) = Rest::of(rest) else {
            unreachable!();
        };
        let routes = self.dispatcher.accepted.routes();
        let Some(route) = routes.route_of(&Prefix::of(prefix)) else {
            return Err(CoreFault::UnknownPrefix);
        };
        let choice = choose(alloc, &self.hash, routes.symbols(), hashed_part(&rest))?;
        Ok(Asked {
            request,
            op,
            route,
            rest: Arc::new(alloc, rest)?,
            choice,
        })
    }
}

/// Deletes are covered in what the checker accepted.
fn deletes_are_covered(accepted: &Accepted)
    ensures { AreCovered accepted.now }
{
    let _routes = accepted.routes();
}

/// The operation of a request, and the prefix and the rest of one of its keys.
fn key_of(request: &Request, key: usize) -> Option<(Op, &[u8], &[u8])>
    ensures some { IfSome result (λ k. IsKeyOf request.now key k.0 k.1.now k.2.now) }
    ensures prefix { IfSome result (λ k. length k.1.now ≤ 250) }
    ensures rest { IfSome result (λ k. is_key_word k.2.now ≡ true) }
    ensures none { result ≡ None → HasNoKey request.now key }
{
    let Request::Ask(ask) = request else {
        return None;
    };
    let word = ask.keys.get(key)?;
    match cut_key(word.as_slice()) {
        Ok((prefix, rest)) => Some((ask.op, prefix, rest)),
        Err(_) => None,
    }
}
