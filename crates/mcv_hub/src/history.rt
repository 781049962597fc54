//! The history of a chapter: its entries, and what is counted of them.

ghost use Rattle.std.specs.Prelude.{◌≡◌, ◌+◌, ◌-◌, ◌<◌, ◌≤◌, ◌⊎◌, [], ◌∷◌, ◌++◌, IfOk, OnOk, OnErr, vec_len, vec_capacity, count_by, take};
ghost use Rattle.mcv_hub.specs.History.{answer_change, answer_era, entries_in, era_entry, is_began, is_taken, leg_entry, with_entry};
ghost use Rattle.mcv_hub.specs.Weights.{bytes_of};

use crate::entry::Entry;
use mcv_base::{LegId, Part};
use mcv_core::{Change, CoreFault, Era, Step};
use std::alloc::{AllocError, Global};
use std::mem;

/// The entries of a chapter, the oldest first, with the number of the calls that began, the number of the replies that were
/// taken, and the bytes that all entries hold.
#[derive(Drop)]
pub(crate) struct History {
    pub(crate) entries: Vec<Entry>,
    began: u64,
    taken: u64,
    bytes: u64,
    ghost began_is: { began ≡ count_by is_began entries.items },
    ghost taken_is: { taken ≡ count_by is_taken entries.items },
    ghost bytes_is: { bytes ≡ bytes_of entries.items },
}

/// Entries of a chapter that has ended. To drop them takes a while where they are many, so that is left to who got them, for
/// when the lock is let go, and can be done in pieces.
#[derive(Drop)]
pub struct Past {
    entries: Vec<Entry>,
}

impl Past {
    /// How many entries these are.
    pub fn len(&self) -> usize
        ensures { result ≡ vec_len self.now.entries }
    {
        self.entries.len()
    }

    /// Drops so many of them, or all where there are no more. How many are left.
    pub fn shorten(&mut self, count: usize) -> usize
        ensures items { self.new.entries.items ≡ take (vec_len self.old.entries - count) self.old.entries.items }
        ensures left { result ≡ vec_len self.old.entries - count }
    {
        self.entries
            .truncate(self.entries.len().saturating_sub(count));
        self.entries.len()
    }
}

impl History {
    /// A history without entries, with room for so many.
    pub(crate) fn new(alloc: Global, places: usize) -> Result<History, AllocError>
        ensures items { IfOk result (λ h. h.entries.items ≡ []) }
        ensures len { IfOk result (λ h. vec_len h.entries ≡ 0) }
        ensures capacity { IfOk result (λ h. places ≤ vec_capacity h.entries) }
    {
        let entries = Vec::with_capacity(alloc, places)?;
        Ok(History {
            entries,
            began: 0,
            taken: 0,
            bytes: 0,
        })
    }

    /// How many entries it has.
    pub(crate) fn len(&self) -> usize
        ensures { result ≡ vec_len self.now.entries }
    {
        self.entries.len()
    }

    /// Its entries, the oldest first.
    pub(crate) fn as_slice(&self) -> &[Entry]
        ensures { result.now ≡ self.now.entries.items }
    {
        self.entries.as_slice()
    }

    /// How many calls began.
    pub(crate) fn began(&self) -> u64
        ensures count { result ≡ count_by is_began self.now.entries.items }
        ensures most { result ≤ vec_len self.now.entries }
    {
        self.began
    }

    /// How many replies were taken.
    pub(crate) fn taken(&self) -> u64
        ensures count { result ≡ count_by is_taken self.now.entries.items }
        ensures most { result ≤ vec_len self.now.entries }
    {
        self.taken
    }

    /// The bytes that its entries hold.
    pub(crate) fn bytes(&self) -> u64
        ensures { result ≡ bytes_of self.now.entries.items }
    {
        self.bytes
    }

    /// Makes room for so many more entries.
    pub(crate) fn reserve(&mut self, additional: usize) -> Result<(), AllocError>
        ensures items { self.new.entries.items ≡ self.old.entries.items }
        ensures len { vec_len self.new.entries ≡ vec_len self.old.entries }
        ensures grown { vec_capacity self.old.entries ≤ vec_capacity self.new.entries }
        ensures room { OnOk result (vec_len self.new.entries + additional ≤ vec_capacity self.new.entries) }
    {
        self.entries.reserve(additional)
    }

    /// Writes an entry at the end. It takes no memory.
    pub(crate) fn push(&mut self, entry: Entry)
        requires { vec_len self.old.entries < vec_capacity self.old.entries }
        ensures items { self.new.entries.items ≡ self.old.entries.items ++ entry ∷ [] }
        ensures len { vec_len self.new.entries ≡ vec_len self.old.entries + 1 }
        ensures capacity { vec_capacity self.new.entries ≡ vec_capacity self.old.entries }
    {
        let History {
            entries,
            began,
            taken,
            bytes,
        } = self;
        *began += u64::from(entry.is_began());
        *taken += u64::from(entry.is_taken());
        *bytes = bytes.saturating_add(entry.weight());
        entries.push_reserved(entry);
    }

    /// Begins anew with no entry and room for so many, and gives the old entries. Where there is no memory for that they are
    /// dropped at once, and none are given.
    pub(crate) fn renew(&mut self, alloc: Global, places: usize) -> Past
        requires { places ≤ vec_capacity self.old.entries }
        ensures items { self.new.entries.items ≡ [] }
        ensures len { vec_len self.new.entries ≡ 0 }
        ensures capacity { places ≤ vec_capacity self.new.entries }
        ensures past { (result.entries.items ≡ self.old.entries.items) ⊎ (result.entries.items ≡ []) }
    {
        let History {
            entries,
            began,
            taken,
            bytes,
        } = self;
        *began = 0;
        *taken = 0;
        *bytes = 0;
        Past {
            entries: emptied(alloc, entries, places),
        }
    }
}

/// Takes all entries out, and leaves room for so many; where there is no memory for that they are dropped, and none are given.
fn emptied(alloc: Global, entries: &mut Vec<Entry>, places: usize) -> Vec<Entry>
    requires { places ≤ vec_capacity entries.old }
    ensures items { entries.new.items ≡ [] }
    ensures len { vec_len entries.new ≡ 0 }
    ensures capacity { places ≤ vec_capacity entries.new }
    ensures past { (result.items ≡ entries.old.items) ⊎ (result.items ≡ []) }
{
    match Vec::with_capacity(alloc, places) {
        Ok(fresh) => mem::replace(entries, fresh),
        Err(_) => {
            entries.clear();
            Vec::new(alloc)
        }
    }
}

/// The entry of an event on a leg, where its reply was this.
pub(crate) fn leg_entry(leg: LegId, reply: Part, change: Change) -> Option<Entry>
    ensures { result ≡ leg_entry leg reply change }
{
    match change {
        Change::Nothing => None,
        Change::Answered => Some(Entry::Answered { leg, reply }),
        Change::Spooled => Some(Entry::Spooled(leg)),
        Change::Refused => Some(Entry::Refused(leg)),
        Change::Performed => Some(Entry::Performed(leg)),
    }
}

/// What an event on a leg changed; nothing where it was refused.
pub(crate) fn change_of(answer: &Result<Step, CoreFault>) -> Change
    ensures { result ≡ answer_change answer.now }
{
    match answer {
        Ok(step) => step.change,
        Err(_) => Change::Nothing,
    }
}

/// The entry of an era that began; None where the clock was refused.
pub(crate) fn era_entry(answer: &Result<Option<Era>, CoreFault>) -> Option<Entry>
    ensures { result ≡ era_entry (answer_era answer.now) }
{
    match answer {
        Ok(Some(era)) => Some(Entry::EraBegan(*era)),
        Ok(None) => None,
        Err(_) => None,
    }
}

/// Writes an entry, where there is one. It takes no memory.
pub(crate) fn write(history: &mut History, entry: Option<Entry>)
    requires { vec_len history.old.entries + entries_in entry ≤ vec_capacity history.old.entries }
    ensures items { history.new.entries.items ≡ with_entry history.old.entries.items entry }
    ensures len { vec_len history.new.entries ≡ vec_len history.old.entries + entries_in entry }
    ensures capacity { vec_capacity history.new.entries ≡ vec_capacity history.old.entries }
{
    if let Some(entry) = entry {
        history.push(entry);
    }
}
