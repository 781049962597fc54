//! The lock, and the bells on which threads wait.

ghost use Rattle.std.specs.Prelude.{◌≡◌, ◌+◌, IfErr, IfOk};
ghost use Rattle.std.specs.Arc.{arc_value};
ghost use Rattle.std.specs.Int.NonZero.{non_zero_usize_get};
ghost use Rattle.mcv_core.specs.Opening.{opened_within};
ghost use Rattle.mcv_hub.specs.Gate.{is_closed, is_chapter_due};
ghost use Rattle.mcv_core.specs.declared.fault.CoreFault.TheVariants.{Memory as OutOfMemory};

use crate::gate::Gate;
use crate::guard::Guard;
use crate::ledger::HubLedger;
use crate::pass::{Pass, Passes};
use crate::state::HubState;
use mcv_base::{CallId, ServerId};
use mcv_check::Accepted;
use mcv_core::CoreFault;
use mcv_route::Routes;
use mcv_spool::SpoolRecord;
use std::alloc::{AllocError, Global};
use std::hint::spin_loop;
use std::marker::Model;
use std::num::NonZeroUsize;
use std::rt::Clock;
use std::sync::ledger::{Blank, Ledger};
use std::sync::{Arc, Condvar, Mutex, Wait};
use std::time::{Duration, Instant};

/// How long a call that waits for the next chapter sleeps at most, in milliseconds, until it looks again, should nobody ring.
const PAUSE: u64 = 10;

/// How often the lock is tried before a thread sleeps until it is free: for four microseconds or more.
const TRIES: u32 = 400;

/// What a thread waits for: a leg for a server's worker, the reply to a call for a session, a record for the spool's
/// worker, a leg in the spool for the replayer, the end of all calls and legs, or the next chapter, for a session that wants
/// to begin a call while that chapter is due.
#[derive(Clone, Copy, PartialEq, Eq)]
pub enum Bell {
    Server(ServerId),
    Call(CallId),
    Spool,
    Replayer,
    Chapter,
}

/// The state that threads share: one lock, and beside it a bell for each server's worker, bells for calls that sessions
/// await, one for the spool's worker, one for the replayer and one for a new chapter. Clauses see its routes.
#[derive(Drop)]
pub struct Hub<B: HubLedger, T: Ledger> {
    accepted: Arc<Accepted>,
    state: Mutex<HubState<B, T>>,
    servers: Vec<Condvar>,
    calls: Vec<Condvar>,
    spool: Condvar,
    replayer: Condvar,
    chapter: Condvar,
}

impl<B: HubLedger, T: Ledger> Model for Hub<B, T> {
    ghost use Rattle.std.specs.Prelude.{◌≡◌};
    ghost use Rattle.std.specs.Arc.{arc_value};
    ghost use Rattle.mcv_route.specs.Codes.{routes_code};
    ghost use Rattle.mcv_route.specs.Routes.{RoutesValue};

    ghost Value = { RoutesValue };

    ghost coded = { routes_code };

    ghost view = { λ h. arc_value h.accepted };

    ghost invariant = { λ h. arc_value h.accepted ≡ B.opened.routes };
}

/// As many bells as asked.
fn bells(alloc: Global, count: usize) -> Result<Vec<Condvar>, AllocError> {
    let mut bells = Vec::with_capacity(alloc, count)?;
    for _ in 0..count {
        bells.push(Condvar::new())?;
    }
    Ok(bells)
}

/// How many there are to be of what a hub begins with.
#[derive(Clone, Copy, Debug, PartialEq, Eq)]
pub struct Capacity {
    /// How many legs of a server may be in flight at a time.
    pub flights: NonZeroUsize,
    /// How many bells sessions wait at.
    pub bells: usize,
    /// How many seats there are for sessions.
    pub seats: u64,
}

/// How long a call waits for the next chapter.
#[derive(Clone, Copy)]
struct Patience {
    most: Duration,
    since: Option<Instant>,
}

impl Patience {
    /// Whether it is over; a call begins to wait where this is asked first. Where the clock can't be read it is.
    fn is_over<R: Clock>(&mut self, rt: &R) -> bool {
        let Ok(now) = Instant::now(rt) else {
            return true;
        };
        match self.since {
            Some(since) => now.duration_since(since) >= self.most,
            None => {
                self.since = Some(now);
                false
            }
        }
    }
}

impl<B: HubLedger, T: Ledger> Hub<B, T> {
    /// The hub of this number over these routes, with the records that the spool held, in its first chapter, with bells for
    /// their servers and for sessions, and what makes its passes and seats. Of each server as many legs may be in flight at a
    /// time as the capacity says. The one error is Memory.
    pub fn new(
        alloc: Global,
        accepted: Arc<Accepted>,
        hub: usize,
        records: &[(u64, SpoolRecord)],
        capacity: Capacity,
        begun: Blank,
        taken: Blank,
    ) -> Result<(Hub<B, T>, Passes<B, T>), CoreFault>
        requires begun { (begun.name ≡ B.name) × (begun.parts ≡ B.parts) × (begun.parts ≡ capacity.seats + 1) }
        requires taken { (taken.name ≡ T.name) × (taken.parts ≡ T.parts) × (taken.parts ≡ capacity.seats + 1) }
        requires number { hub ≡ B.number }
        requires opened { B.opened ≡ opened_within (non_zero_usize_get capacity.flights) (arc_value accepted) records.now }
        ensures seats { IfOk result (λ r. r.1.left ≡ capacity.seats) }
        ensures err { IfErr result (λ fault. fault ≡ OutOfMemory) }
    {
        let Ok(servers) = bells(alloc, accepted.routes().servers().len()) else {
            return Err(CoreFault::Memory);
        };
        let Ok(calls) = bells(alloc, capacity.bells) else {
            return Err(CoreFault::Memory);
        };
        let Ok(known) = Arc::try_clone(&accepted) else {
            return Err(CoreFault::Memory);
        };
        let limit = capacity.flights;
        let blanks = (begun, taken);
        let (state, begun, taken) = HubState::new(alloc, known, hub, limit, records, blanks)?;
        let hub = Hub {
            accepted,
            state: Mutex::new(state),
            servers,
            calls,
            spool: Condvar::new(),
            replayer: Condvar::new(),
            chapter: Condvar::new(),
        };
        Ok((hub, Passes::new(capacity.seats, begun, taken)))
    }

    /// The routes with which it was opened.
    pub fn routes(&self) -> &Routes
        ensures { result.now ≡ B.opened.routes }
    {
        self.accepted.routes()
    }

    /// Waits for the lock. It is held for about a microsecond, so it is tried for a while before the thread sleeps.
    pub fn lock<'a, R: Wait>(&'a self, rt: &R, _pass: &'a mut Pass) -> Guard<'a, B, T> {
        for _ in 0..TRIES {
            if let Some(state) = self.state.try_lock() {
                return Guard::new(state);
            }
            spin_loop();
        }
        Guard::new(self.state.lock(rt))
    }

    /// Lets go of the lock until the bell is rung, or for no reason; where there is no such server the lock is kept.
    pub fn wait<'a, R: Wait>(&self, rt: &R, guard: Guard<'a, B, T>, bell: Bell) -> Guard<'a, B, T> {
        guard.wait_at(rt, self.bell(bell))
    }

    /// As `wait`, for so long at most.
    pub fn wait_for<'a, R: Wait + Clock>(
        &self,
        rt: &R,
        guard: Guard<'a, B, T>,
        bell: Bell,
        most: Duration,
    ) -> Guard<'a, B, T> {
        guard.wait_at_for(rt, self.bell(bell), most)
    }

    /// Waits until a call may begin: where the next chapter is due, until nothing is left of this one. The first that finds
    /// nothing left begins the next chapter (Turned), and is to ring that bell once it has let go of the lock. A call that has
    /// waited for as long as this in vain (Closed) begins in this chapter, and so do all others at once; when three quarters of
    /// it are taken they wait once more, since slow calls may have ended meanwhile.
    pub fn enter<'a, R: Wait + Clock>(
        &self,
        rt: &R,
        alloc: Global,
        guard: Guard<'a, B, T>,
        most: Duration,
    ) -> (Guard<'a, B, T>, Gate)
        ensures { is_chapter_due result.0 ≡ is_closed result.1 }
    {
        let mut guard = guard;
        let mut patience = Patience { most, since: None };
        for _attempt in rt.forever() {
            let gate = guard.gate(alloc);
            if !gate.is_closed() || guard.was_awaited_in_vain() {
                return (guard, gate);
            }
            if patience.is_over(rt) {
                guard.note_vain_wait();
                return (guard, gate);
            }
            guard = self.wait_for(rt, guard, Bell::Chapter, Duration::from_millis(PAUSE));
        }
        unreachable!()
    }

    /// The condition variable of a bell. Calls whose numbers have one remainder by the number of their bells share one;
    /// None where there is no such server.
    fn bell(&self, bell: Bell) -> Option<&Condvar> {
        match bell {
            Bell::Server(server) => self.servers.get(server.0 as usize),
            Bell::Call(call) => {
                let count = self.calls.len();
                if count == 0 {
                    return None;
                }
                self.calls.get((call.0 % count as u64) as usize)
            }
            Bell::Spool => Some(&self.spool),
            Bell::Replayer => Some(&self.replayer),
            Bell::Chapter => Some(&self.chapter),
        }
    }

    /// Wakes who waits at the bell.
    pub fn ring(&self, bell: Bell) {
        if let Some(bell) = self.bell(bell) {
            bell.notify_all();
        }
    }
}
