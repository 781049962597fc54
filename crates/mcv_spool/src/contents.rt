//! What a file holds: the slots before its end gate, and the records that are pending in them.

ghost use Rattle.std.specs.Prelude.{◌≡◌, ℕ, ◌+◌, ◌*◌, ◌<◌, ◌≤◌, ◌↔◌, true, None, Some, IsTrue, IsSome, [], ◌∷◌, ◌++◌, length, map, set, slice_index_or, vec_len, vec_capacity, IfOk, OnOk, is_some, if◌then◌else◌, MatchOption};
ghost use Rattle.mcv_spool.specs.File.{damage, is_done, read_record, slots, waiting};
ghost use Rattle.mcv_spool.specs.FoundFile.{IsFindFault};

use crate::fault::SpoolFault;
use crate::record::{CLOSED, PENDING, SpoolRecord, read_record};
use std::alloc::{AllocError, AllocFailed, Global};
use std::marker::Model;

/// The bytes of a slot.
pub(crate) const SLOT_SIZE: usize = 640;

/// The most slots of a file.
pub(crate) const SLOT_LIMIT: usize = 1_000_000;

/// What is kept of a slot: its record while it is pending, on the heap, and nothing once it is done.
#[derive(Drop)]
pub struct Slot {
    record: Option<Box<SpoolRecord>>,
}

impl Model for Slot {
    ghost use Rattle.std.specs.Prelude.{Option, option_map};
    ghost use Rattle.mcv_spool.specs.declared.record.SpoolRecord.{SpoolRecord};

    ghost Value = { Option SpoolRecord };

    ghost view = { λ s. option_map (λ b. b.value) s.record };
}

impl Slot {
    fn done() -> Slot
        ensures { result ≡ None }
    {
        Slot { record: None }
    }

    pub(crate) fn pending(
        alloc: Global,
        delete: SpoolRecord,
    ) -> Result<Slot, AllocFailed<SpoolRecord>>
        ensures { IfOk result (λ slot. slot ≡ Some delete) }
    {
        Ok(Slot {
            record: Some(Box::new(alloc, delete)?),
        })
    }

    /// That of a slot with this record.
    fn of(
        alloc: Global,
        delete: SpoolRecord,
        is_pending: bool,
    ) -> Result<Slot, AllocFailed<SpoolRecord>>
        ensures { IfOk result (λ slot. slot ≡ (if is_pending then Some delete else None)) }
    {
        if is_pending {
            Slot::pending(alloc, delete)
        } else {
            Ok(Slot::done())
        }
    }

    fn is_pending(&self) -> bool
        ensures { result ≡ is_some self.now }
    {
        self.record.is_some()
    }

    /// The record, while it is pending.
    pub fn record(&self) -> Option<&SpoolRecord>
        ensures { MatchOption result (self.now ≡ None) (λ r. self.now ≡ Some r.now) }
    {
        match &self.record {
            Some(record) => Some(record),
            None => None,
        }
    }
}

/// What is kept of the slots of a file, as far as they are known: the slot of number k at place k.
#[derive(Drop)]
pub(crate) struct Contents {
    alloc: Global,
    pub(crate) pending: Vec<Slot>,
    ghost few: { length pending.items ≤ 1000000 },
}

impl Contents {
    /// Those of a file that has no slot.
    pub(crate) fn new(alloc: Global) -> Contents
        ensures { result.pending.items ≡ [] }
    {
        Contents {
            alloc,
            pending: Vec::new(alloc),
        }
    }

    /// How many slots there are.
    pub(crate) fn count(&self) -> usize
        ensures value { result ≡ length self.now.pending.items }
        ensures few { result ≤ 1000000 }
    {
        self.pending.len()
    }

    /// Takes one slot more.
    fn take(&mut self, slot: &[u8]) -> Result<(), SpoolFault>
        requires { length slot.now ≡ 640 }
        ensures sound { OnOk result (damage (length self.old.pending.items) (slot.now ∷ []) ≡ None) }
        ensures pending { OnOk result (self.new.pending.items ≡ self.old.pending.items ++ waiting slot.now ∷ []) }
        ensures damaged { (k : ℕ) → result ≡ Err (SpoolFault.Damaged k) → damage (length self.old.pending.items) (slot.now ∷ []) ≡ Some k }
        ensures alone { IsFindFault result }
    {
        let number = self.pending.len() as u64;
        if self.pending.len() >= SLOT_LIMIT {
            return Err(SpoolFault::Damaged(number));
        }
        let Some(record) = read_record(slot) else {
            return Err(SpoolFault::Damaged(number));
        };
        let kept = Slot::of(self.alloc, record, slot[1] == PENDING)?;
        self.pending.push(kept)?;
        Ok(())
    }

    /// Takes the slots with which the bytes begin.
    pub(crate) fn take_all(&mut self, bytes: &[u8]) -> Result<(), SpoolFault>
        ensures sound { OnOk result (damage (length self.old.pending.items) (slots bytes.now) ≡ None) }
        ensures within { OnOk result (640 * length self.new.pending.items ≤ 640 * length self.old.pending.items + length bytes.now) }
        ensures pending { OnOk result (self.new.pending.items ≡ self.old.pending.items ++ map waiting (slots bytes.now)) }
        ensures damaged { (k : ℕ) → result ≡ Err (SpoolFault.Damaged k) → damage (length self.old.pending.items) (slots bytes.now) ≡ Some k }
        ensures alone { IsFindFault result }
    {
        let mut rest = bytes;
        while rest.len() > SLOT_SIZE && rest[0] != CLOSED {
            let (slot, more) = rest.split_at(SLOT_SIZE);
            self.take(slot)?;
            rest = more;
        }
        Ok(())
    }

    /// Makes room for one slot.
    pub(crate) fn reserve(&mut self) -> Result<(), AllocError>
        ensures room { OnOk result (vec_len self.new.pending < vec_capacity self.new.pending) }
        ensures pending { self.new.pending.items ≡ self.old.pending.items }
    {
        self.pending.reserve(1)
    }

    /// Adds a slot that has been written.
    pub(crate) fn add(&mut self, slot: Slot)
        requires few { length self.old.pending.items < 1000000 }
        requires room { vec_len self.old.pending < vec_capacity self.old.pending }
        ensures { self.new.pending.items ≡ self.old.pending.items ++ slot ∷ [] }
    {
        match self.pending.push(slot) {
            Ok(()) => {}
            Err(_) => unreachable!(),
        }
    }

    /// Whether the record of this number is pending.
    pub(crate) fn has(&self, number: usize) -> bool
        ensures value { result ≡ is_some (slice_index_or self.now.pending.items number None) }
        ensures there { IsTrue result → number < length self.now.pending.items }
        ensures few { length self.now.pending.items ≤ 1000000 }
    {
        match self.pending.get(number) {
            Some(slot) => slot.is_pending(),
            None => false,
        }
    }

    /// Forgets the record of this number, which is done.
    pub(crate) fn forget(&mut self, number: usize)
        requires { number < length self.old.pending.items }
        ensures { self.new.pending.items ≡ set self.old.pending.items number None }
    {
        self.pending[number] = Slot::done();
    }

    /// The slots, each at its number.
    pub(crate) fn slots(&self) -> &[Slot]
        ensures { result.now ≡ self.now.pending.items }
    {
        self.pending.as_slice()
    }
}
