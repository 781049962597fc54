//! Where a loop and the spool's thread leave letters for each other.

use crate::letters::{Answer, Letters, Record, Task};
use crate::tokens::WAKER;
use mcv_loop::Ready;
use mcv_turn::HeldLeg;
use mio::{Poll, Token, Waker};
use std::alloc::{AllocError, Global};
use std::io;
use std::net::Net;
use std::sync::{Arc, Condvar, Mutex, Wait};

/// Where a loop and the spool's thread leave letters for each other. Whoever has it can wake the loop. Another thread may change what is
/// in it at any moment, so that no clause says what that is; what is left and taken under its lock `Letters` says.
#[derive(Drop)]
pub struct Mailbox {
    letters: Mutex<Letters>,
    bell: Condvar,
    waker: Waker,
}

impl Mailbox {
    /// A mailbox without letters, and the poll that it wakes. An error is the system's, or that memory ran out.
    pub fn open<R: Net>(rt: &R, alloc: Global) -> io::Result<(Arc<Mailbox>, Poll)> {
        let poll = Poll::new(rt)?;
        let waker = Waker::new(poll.registry(), Token(WAKER))?;
        let mailbox = Mailbox {
            letters: Mutex::new(Letters::new(alloc)),
            bell: Condvar::new(),
            waker,
        };
        let mailbox = Arc::new(alloc, mailbox).map_err(AllocError::from)?;
        Ok((mailbox, poll))
    }

    /// Ends the wait of the loop that is under way, or else the next one.
    pub fn wake(&self) {
        let _ = self.waker.wake();
    }

    /// The record of a leg is to be written. Whether there was memory for that, and for the answer.
    pub(crate) fn send<R: Wait>(&self, rt: &R, hub: usize, held: HeldLeg) -> bool {
        let is_sent = self.letters.lock(rt).push_record(Record { hub, held });
        self.bell.notify_one();
        is_sent
    }

    /// The record of this number is done. Without memory for that it is pending until the next start.
    pub(crate) fn finish<R: Wait>(&self, rt: &R, number: u64) {
        let _ = self.letters.lock(rt).push_performed(number);
        self.bell.notify_one();
    }

    /// Puts what the spool has answered behind `ready`, in its order. Without memory for that all of it stays.
    pub(crate) fn take_answers<R: Wait, C: Drop>(
        &self,
        rt: &R,
        ready: &mut Vec<Ready<C>>,
    ) -> Result<(), AllocError> {
        let mut letters = self.letters.lock(rt);
        ready.reserve(letters.answers())?;
        for _answer in 0..letters.answers() {
            let Some(answer) = letters.take_answer() else {
                break;
            };
            let Answer { hub, stored, slots } = answer;
            ready.push(Ready::Stored { hub, stored, slots })?;
        }
        Ok(())
    }

    /// The spool's thread is to end, once it has done what was left for it.
    pub fn end<R: Wait>(&self, rt: &R) {
        self.letters.lock(rt).end();
        self.bell.notify_one();
    }

    /// What is to be done next, once there is something.
    pub(crate) fn next<R: Wait>(&self, rt: &R) -> Task {
        let mut letters = self.letters.lock(rt);
        for _turn in rt.forever() {
            if let Some(task) = letters.take_task() {
                return task;
            }
            letters = self.bell.wait(rt, letters);
        }
        unreachable!()
    }

    /// The spool has answered.
    pub(crate) fn answer<R: Wait>(&self, rt: &R, answer: Answer) {
        self.letters.lock(rt).push_answer(answer);
        self.wake();
    }
}
