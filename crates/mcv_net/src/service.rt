//! How a proxy serves, as an operator asks about it and ends it.

ghost use Rattle.std.specs.Prelude.{◌≡◌, ◌+◌, ◌*◌, min, None, IfNone, IfOk, is_some};
ghost use Rattle.std.specs.Arc.{arc_value};
ghost use Rattle.mcv_tally.specs.Tally.{listed, tallied};

use mcv_admin::Health;
use mcv_metrics::{ClientCounts, ServerCounts, Snapshot, SpoolCounts, WordCounts};
use mcv_serve::Found;
use mcv_tally::Tally;
use std::alloc::{AllocError, Global};
use std::sync::Arc;
use std::sync::atomic::{AtomicU64, Ordering};
use std::time::{Duration, Instant};

/// By when all has to be done where no end was asked for.
const NEVER: u64 = u64::MAX;

/// The version of the program, as `mcv --version` says it.
const VERSION: u64 = 1;

/// What the threads of a proxy share. Each of them may change it at any moment, so that no clause says what it is.
#[derive(Drop)]
struct State {
    /// From where moments are counted.
    since: Instant,
    /// By when all has to be done, in milliseconds from there; `NEVER` where no end was asked for.
    until: AtomicU64,
    /// How many hubs have a spool that refuses records.
    refusing: AtomicU64,
    tally: Arc<Tally>,
}

/// Whether clients are accepted, and whether the spool takes records, as one thread of a proxy sees it. Where no operator
/// may ask there is nothing to be seen, and no end is asked for.
#[derive(Drop)]
pub struct Service {
    state: Option<Arc<State>>,
}

/// The milliseconds from one moment to a later one.
fn millis_between(since: Instant, now: Instant) -> u64 {
    u64::try_from(now.duration_since(since).as_millis()).unwrap_or(u64::MAX)
}

/// The end that is so many seconds behind so many milliseconds; it is one in any case.
fn end_behind(millis: u64, seconds: u64) -> u64
    ensures { result ≡ min (millis + seconds * 1000) 18446744073709551614 }
{
    let more = seconds.saturating_mul(1000);
    millis.saturating_add(more).min(NEVER - 1)
}

/// How many deletes of the spool these servers have performed.
fn replayed_by(servers: &[ServerCounts]) -> u64 {
    let mut replayed = 0u64;
    for server in servers {
        replayed = replayed.saturating_add(server.replayed);
    }
    replayed
}

impl State {
    /// Whether an end was asked for.
    fn is_ending(&self) -> bool {
        self.until.load(Ordering::SeqCst) != NEVER
    }

    /// By when all has to be done; None where no end was asked for.
    fn end(&self) -> Option<Instant> {
        let until = self.until.load(Ordering::SeqCst);
        if until == NEVER {
            return None;
        }
        self.since.checked_add(Duration::from_millis(until))
    }

    fn health(&self) -> Health {
        if self.is_ending() {
            Health::Draining
        } else if self.refusing.load(Ordering::SeqCst) > 0 {
            Health::Refusing
        } else {
            Health::Serving
        }
    }

    /// What has been counted of the spool, where so many deletes of it were performed.
    fn spool(&self, replayed: u64) -> SpoolCounts {
        let spooled = self.tally.spool.spooled.now();
        let written = self.tally.spool.before.now().saturating_add(spooled);
        SpoolCounts {
            spooled,
            pending: written.saturating_sub(replayed),
            slots: self.tally.spool.slots.now(),
            refusing: self.refusing.load(Ordering::SeqCst),
        }
    }

    /// What has been counted up to this moment. Deletes that were performed come before those that were written, so that none
    /// of the former is counted whose latter isn't.
    fn snapshot(&self, alloc: Global, now: Instant) -> Result<Snapshot, AllocError>
        ensures { IfOk result (λ s. (s.version ≡ VERSION) × (listed s.servers.items ≡ tallied (arc_value self.now.tally).servers.items)) }
    {
        let servers = self.tally.servers(alloc)?;
        let spool = self.spool(replayed_by(servers.as_slice()));
        Ok(Snapshot {
            words: self.tally.words(alloc)?,
            servers,
            spool,
            hubs: self.tally.hubs(alloc)?,
            clients: self.tally.clients.counts(),
            uptime: now.duration_since(self.since).as_secs(),
            version: VERSION,
        })
    }
}

impl Service {
    /// Where no operator may ask.
    pub fn unasked() -> Service {
        Service { state: None }
    }

    /// Clients are accepted from this moment on, and the spool takes records. What happens is counted in the tally.
    pub fn new(alloc: Global, since: Instant, tally: Tally) -> Result<Service, AllocError> {
        let state = State {
            since,
            until: AtomicU64::new(NEVER),
            refusing: AtomicU64::new(0),
            tally: Arc::new(alloc, tally)?,
        };
        Ok(Service {
            state: Some(Arc::new(alloc, state)?),
        })
    }

    /// The same for another thread.
    pub fn another(&self) -> Service {
        let state = match &self.state {
            Some(state) => Arc::try_clone(state).ok(),
            None => None,
        };
        Service { state }
    }

    /// Whether an operator may ask.
    pub fn is_asked(&self) -> bool
        ensures { result ≡ is_some self.now.state }
    {
        self.state.is_some()
    }

    /// Asks for an end within so many seconds from now; where one was asked for already, within these or those, whichever is
    /// earlier. Whether none was asked for before.
    pub fn end_within(&self, now: Instant, seconds: u64) -> bool {
        let Some(state) = &self.state else {
            return false;
        };
        let end = end_behind(millis_between(state.since, now), seconds);
        state.until.fetch_min(end, Ordering::SeqCst) == NEVER
    }

    /// Whether an end was asked for.
    pub fn is_ending(&self) -> bool {
        match &self.state {
            Some(state) => state.is_ending(),
            None => false,
        }
    }

    /// By when all has to be done; None where no end was asked for.
    pub fn end(&self) -> Option<Instant>
        ensures { IfNone self.now.state (result ≡ None) }
    {
        match &self.state {
            Some(state) => state.end(),
            None => None,
        }
    }

    /// One hub more has a spool that refuses records.
    pub fn note_refusing(&self) {
        if let Some(state) = &self.state {
            let _before = state.refusing.fetch_add(1, Ordering::SeqCst);
        }
    }

    /// One less has.
    pub fn note_taking(&self) {
        if let Some(state) = &self.state {
            let _before = state.refusing.fetch_sub(1, Ordering::SeqCst);
        }
    }

    /// Where it is counted what happens; None where no operator may ask.
    pub fn tally(&self) -> Option<Arc<Tally>> {
        match &self.state {
            Some(state) => Arc::try_clone(&state.tally).ok(),
            None => None,
        }
    }

    /// The spool was found so at the start.
    pub fn note_found(&self, found: Found) {
        if let Some(state) = &self.state {
            state.tally.spool.before.set(found.pending as u64);
            state.tally.spool.slots.raise(found.slots as u64);
        }
    }

    /// One client more was accepted.
    pub fn note_accepted(&self) {
        if let Some(state) = &self.state {
            state.tally.clients.accepted.more();
        }
    }

    /// One that was accepted is gone.
    pub fn note_gone(&self) {
        if let Some(state) = &self.state {
            state.tally.clients.gone.more();
        }
    }

    /// One client more was refused.
    pub fn note_refused(&self) {
        if let Some(state) = &self.state {
            state.tally.clients.refused.more();
        }
    }

    /// What has been counted up to this moment; of nothing where no operator may ask.
    pub fn snapshot(&self, alloc: Global, now: Instant) -> Result<Snapshot, AllocError>
        ensures { IfOk result (λ s. s.version ≡ VERSION) }
    {
        match &self.state {
            Some(state) => state.snapshot(alloc, now),
            None => Ok(Snapshot {
                words: WordCounts {
                    calls: Vec::new(alloc),
                    replies: Vec::new(alloc),
                    refusals: Vec::new(alloc),
                },
                servers: Vec::new(alloc),
                spool: SpoolCounts::default(),
                hubs: Vec::new(alloc),
                clients: ClientCounts::default(),
                uptime: 0,
                version: VERSION,
            }),
        }
    }

    /// What an operator is told.
    pub fn health(&self) -> Health {
        match &self.state {
            Some(state) => state.health(),
            None => Health::Serving,
        }
    }
}
