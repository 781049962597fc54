//! What a loop and the spool's thread leave for each other.

ghost use Rattle.std.specs.Prelude.{◌≡◌, ◌+◌, ◌<◌, ◌≤◌, [], ◌∷◌, ◌++◌, true, false, if◌then◌else◌};
ghost use Rattle.std.specs.VecDeque.{deque_capacity, deque_len};
ghost use Rattle.std.specs.Option.{option_to_list};
ghost use Rattle.mcv_poll.specs.Letters.{TakesTask, tasks};

use mcv_turn::{HeldLeg, StoredLeg};
use std::alloc::Global;
use std::collections::VecDeque;

/// A leg whose record is to be written, for the hub of this number.
#[derive(Drop)]
pub(crate) struct Record {
    pub hub: usize,
    pub held: HeldLeg,
}

/// What the spool answered to a record, and how many slots its file has.
#[derive(Drop)]
pub(crate) struct Answer {
    pub hub: usize,
    pub stored: StoredLeg,
    pub slots: usize,
}

/// What the spool's thread is to do.
#[derive(Drop)]
pub(crate) enum Task {
    /// Write a record.
    Write(Record),
    /// Mark the record of this number as done.
    Finish(u64),
    /// End.
    End,
}

/// What a loop and the spool's thread leave for each other: of each kind what was left first is taken first.
#[derive(Drop)]
pub(crate) struct Letters {
    /// Records that are to be written.
    records: VecDeque<Record>,
    /// The numbers of records that are done.
    performed: VecDeque<u64>,
    /// What the spool answered. There is room for all answers that are owed.
    answers: VecDeque<Answer>,
    /// How many records were sent that aren't answered.
    owed: usize,
    /// The thread is to end.
    ends: bool,
    ghost room: { deque_len answers + owed ≤ deque_capacity answers },
}

impl Letters {
    /// None. They take no memory.
    pub(crate) fn new(alloc: Global) -> Letters
        ensures tasks { tasks result.records.items result.performed.items ≡ [] }
        ensures answers { result.answers.items ≡ [] }
        ensures goes_on { result.ends ≡ false }
    {
        Letters {
            records: VecDeque::new(alloc),
            performed: VecDeque::new(alloc),
            answers: VecDeque::new(alloc),
            owed: 0,
            ends: false,
        }
    }

    /// A record is to be written, behind those that are there. Whether there was memory for that, and for its answer.
    pub(crate) fn push_record(&mut self, leg: Record) -> bool
        ensures records { self.new.records.items ≡ if result then self.old.records.items ++ leg ∷ [] else self.old.records.items }
        ensures owed { self.new.owed ≡ if result then self.old.owed + 1 else self.old.owed }
        ensures others { (self.new.performed ≡ self.old.performed) × (self.new.ends ≡ self.old.ends) }
        ensures answers { self.new.answers.items ≡ self.old.answers.items }
    {
        let Some(owed) = self.owed.checked_add(1) else {
            return false;
        };
        if self.answers.reserve(owed).is_err() || self.records.push_back(leg).is_err() {
            return false;
        }
        self.owed = owed;
        true
    }

    /// The record of this number is to be marked as done, behind those that are there. Without memory for that it isn't.
    pub(crate) fn push_performed(&mut self, number: u64) -> bool
        ensures performed { self.new.performed.items ≡ if result then self.old.performed.items ++ number ∷ [] else self.old.performed.items }
        ensures others { (self.new.records ≡ self.old.records) × (self.new.ends ≡ self.old.ends) }
        ensures answers { (self.new.answers ≡ self.old.answers) × (self.new.owed ≡ self.old.owed) }
    {
        self.performed.push_back(number).is_ok()
    }

    /// What is to be done next, if there is something: records that are to be written come first.
    pub(crate) fn take_task(&mut self) -> Option<Task>
        ensures first { TakesTask (tasks self.old.records.items self.old.performed.items) self.old.ends result (tasks self.new.records.items self.new.performed.items) }
        ensures answers { (self.new.answers ≡ self.old.answers) × (self.new.owed ≡ self.old.owed) }
    {
        if let Some(record) = self.records.pop_front() {
            return Some(Task::Write(record));
        }
        if let Some(number) = self.performed.pop_front() {
            return Some(Task::Finish(number));
        }
        if self.ends { Some(Task::End) } else { None }
    }

    /// The spool has answered, which is behind its earlier answers. There is room where it owed one.
    pub(crate) fn push_answer(&mut self, answer: Answer)
        ensures answers { 0 < self.old.owed → self.new.answers.items ≡ self.old.answers.items ++ answer ∷ [] }
        ensures tasks { tasks self.new.records.items self.new.performed.items ≡ tasks self.old.records.items self.old.performed.items }
    {
        if self.owed > 0 {
            self.answers.push_back_reserved(answer);
            self.owed -= 1;
        }
    }

    /// How many answers of the spool are there.
    pub(crate) fn answers(&self) -> usize
        ensures { result ≡ deque_len self.now.answers }
    {
        self.answers.len()
    }

    /// The answer that was given first, if there is one.
    pub(crate) fn take_answer(&mut self) -> Option<Answer>
        ensures first { self.old.answers.items ≡ option_to_list result ++ self.new.answers.items }
        ensures tasks { tasks self.new.records.items self.new.performed.items ≡ tasks self.old.records.items self.old.performed.items }
    {
        self.answers.pop_front()
    }

    /// The thread is to end, once it has done what is to be done.
    pub(crate) fn end(&mut self)
        ensures ends { self.new.ends ≡ true }
        ensures tasks { tasks self.new.records.items self.new.performed.items ≡ tasks self.old.records.items self.old.performed.items }
    {
        self.ends = true;
    }
}
