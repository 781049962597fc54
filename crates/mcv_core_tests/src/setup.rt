//! Cores over small configurations, and what is asked of them.

ghost use Rattle.std.specs.Prelude.{[]};

use mcv_base::{Ask, Op, Request, Rest, ServerText};
use mcv_check::Accepted;
use mcv_core::Core;
use mcv_pools::Fnv;
use mcv_spool::{Disk, DiskFailed, Spool, SpoolRecord, Stored};
use mcv_verdict::{Judgement, judge_input};
use std::alloc::Global;
use std::num::NonZeroUsize;
use std::process::Abort;
use std::sync::Arc;

/// One pool of one server.
pub(crate) const ONE: &str =
    "{\"pools\":{\"A\":{\"servers\":[\"a:11211\"]}},\"route\":\"PoolRoute|A\"}";

/// Deletes go to both pools, and the first one replies.
pub(crate) const BOTH: &str =
    "{\"pools\":{\"A\":{\"servers\":[\"a:11211\"]},\"B\":{\"servers\":[\"b:11211\"]}},\"route\":{\"type\":\"OperationSelectorRoute\",\"operation_policies\":{\"delete\":{\"type\":\"AllInitialRoute\",\"children\":[\"PoolRoute|A\",\"PoolRoute|B\"]}},\"default_policy\":\"PoolRoute|B\"}}";

/// A get that pool A misses is asked of pool B, and what that hits is added to A. Deletes go to both.
pub(crate) const WARMING: &str =
    "{\"pools\":{\"A\":{\"servers\":[\"a:11211\"]},\"B\":{\"servers\":[\"b:11211\"]}},\"route\":{\"type\":\"OperationSelectorRoute\",\"operation_policies\":{\"delete\":{\"type\":\"AllSyncRoute\",\"children\":[\"PoolRoute|A\",\"PoolRoute|B\"]}},\"default_policy\":{\"type\":\"WarmUpRoute\",\"cold\":\"PoolRoute|A\",\"warm\":\"PoolRoute|B\",\"exptime\":60}}}";

/// A migration.
pub(crate) const MOVING: &str =
    "{\"pools\":{\"A\":{\"servers\":[\"a:11211\"]},\"B\":{\"servers\":[\"b:11211\"]}},\"route\":{\"type\":\"MigrateRoute\",\"from\":\"PoolRoute|A\",\"to\":\"PoolRoute|B\",\"start_time\":1000,\"interval\":3600}}";

/// What the checker accepts of a configuration; None where it can lose a delete.
pub(crate) fn accepted_of(rt: &(impl AllocGlobal + Abort), text: &str) -> Option<Arc<Accepted>> {
    let judgement = judge_input(rt.alloc(), &mut text.as_bytes(), 0);
    match judgement.expect(rt, "a configuration") {
        Judgement::Covered { accepted, .. } => {
            Some(Arc::new(rt.alloc(), accepted).expect(rt, "memory"))
        }
        Judgement::Lost { .. } => None,
    }
}

/// A core over accepted routes, opened with these records. So many legs of a server may be in flight at a time.
pub(crate) fn opened(
    rt: &(impl AllocGlobal + Abort),
    accepted: Arc<Accepted>,
    records: &[(u64, SpoolRecord)],
    limit: usize,
) -> Core<Fnv> {
    if limit == 1 {
        return Core::new(rt.alloc(), accepted, Fnv, records).expect(rt, "a core");
    }
    let limit = NonZeroUsize::new(limit).expect(rt, "a limit");
    Core::with_limit(rt.alloc(), accepted, Fnv, records, limit).expect(rt, "a core")
}

/// The bytes, owned.
pub(crate) fn bytes(rt: &(impl AllocGlobal + Abort), bytes: &[u8]) -> Vec<u8> {
    Vec::from_slice(rt.alloc(), bytes).expect(rt, "memory")
}

/// The bytes, shared.
pub(crate) fn shared(rt: &(impl AllocGlobal + Abort), text: &[u8]) -> Arc<Vec<u8>> {
    Arc::new(rt.alloc(), bytes(rt, text)).expect(rt, "memory")
}

/// What a client asks of one key.
fn ask(rt: &(impl AllocGlobal + Abort), op: Op, key: &[u8]) -> Ask {
    let mut keys = Vec::new(rt.alloc());
    keys.push(bytes(rt, key)).expect(rt, "memory");
    Ask {
        op,
        keys,
        flags: 0,
        exptime: 0,
        body: shared(rt, b""),
        cas: None,
        delta: 0,
        noreply: false,
    }
}

/// A request for a key.
pub(crate) fn request(rt: &(impl AllocGlobal + Abort), op: Op, key: &[u8]) -> Arc<Request> {
    Arc::new(rt.alloc(), Request::Ask(ask(rt, op, key))).expect(rt, "memory")
}

pub(crate) fn record(rt: &(impl AllocGlobal + Abort), server: &[u8], rest: &[u8]) -> SpoolRecord {
    SpoolRecord {
        server: ServerText::of(server).expect(rt, "a server"),
        rest: Rest::of(rest).expect(rt, "a rest"),
    }
}

/// A spool without records, in memory.
fn empty_spool(rt: &(impl AllocGlobal + Abort)) -> Spool<MemoryDisk> {
    let disk = MemoryDisk {
        bytes: Vec::new(rt.alloc()),
    };
    Spool::open(rt.alloc(), disk).expect(rt, "a spool")
}

/// The record, stored by a spool of its own after so many others.
pub(crate) fn stored_after(
    rt: &(impl AllocGlobal + Abort),
    others: u64,
    server: &[u8],
    rest: &[u8],
) -> Stored {
    let mut spool = empty_spool(rt);
    for _ in 0..others {
        let _ = spool.append(record(rt, server, rest)).expect(rt, "room");
    }
    spool.append(record(rt, server, rest)).expect(rt, "room")
}

/// A file in memory. It says nothing of the model, so it isn't proved to keep it.
#[derive(Drop)]
struct MemoryDisk {
    bytes: Vec<u8>,
}

impl Disk for MemoryDisk {
    ghost keeps_model = { ⊥ };

    ghost seen = { λ _. [] };

    ghost may_leave = { λ _ _. ⊥ };

    ghost moment = { λ _. 0 };

    ghost left_since = { λ _ _ _. ⊥ };

    ghost failures = { λ _. 0 };

    ghost read_may_stay = { λ none. absurd none };

    ghost counts_now = { λ none. absurd none };

    ghost only_now = { λ none. absurd none };

    fn len(&mut self) -> Result<usize, DiskFailed> {
        Ok(self.bytes.len())
    }

    fn read(&mut self, at: usize, bytes: &mut [u8]) -> Result<(), DiskFailed> {
        for (i, byte) in bytes.iter_mut().enumerate() {
            match self.bytes.get(at.saturating_add(i)) {
                Some(there) => *byte = *there,
                None => return Err(DiskFailed),
            }
        }
        Ok(())
    }

    fn write_at(&mut self, at: usize, bytes: &[u8]) -> Result<(), DiskFailed> {
        for (i, byte) in bytes.iter().enumerate() {
            match self.bytes.get_mut(at.saturating_add(i)) {
                Some(there) => *there = *byte,
                None => {
                    if self.bytes.push(*byte).is_err() {
                        return Err(DiskFailed);
                    }
                }
            }
        }
        Ok(())
    }

    fn cut(&mut self, len: usize) -> Result<(), DiskFailed> {
        self.bytes.truncate(len);
        Ok(())
    }

    fn sync(&mut self) -> Result<(), DiskFailed> {
        Ok(())
    }

    fn renew(&mut self) -> Result<(), DiskFailed> {
        Ok(())
    }
}
