//! What an operator sees while the proxy runs.

use crate::fault::NetFault;
use crate::service::Service;
use mcv_pace::Pace;
use mcv_spool::SpoolFault;
use mcv_watch::Shortage;
use std::alloc::{AllocError, Global};
use std::fmt;
use std::io::Eprint;
use std::rt::Clock;
use std::sync::{Arc, Mutex, Wait};
use std::time::Instant;

/// What an operator sees: a line where something changes, and none for a request.
#[derive(Clone, Copy, PartialEq, Eq)]
pub enum Notice<'a> {
    /// The server of this text has failed too often: it is sent nothing until it answers a probe.
    Marked(&'a str),
    /// It has answered a probe.
    Unmarked(&'a str),
    /// The spool refuses records, the first for this reason.
    Refusing(SpoolFault),
    /// It takes them again.
    Taking,
    /// There was no memory for a session.
    Unserved,
    /// Clients can't be accepted.
    Deaf,
    /// They are accepted again.
    Hearing,
    /// There were as many clients as there may be: so many have been refused since the start.
    Crowded(u64),
    /// There was no place for the calls of requests: so many have been refused since the start.
    Full(Shortage, u64),
    /// So many lines weren't said in a second, since there were too many.
    More(u64),
    /// There is no limit to how long a server may take.
    Unlimited,
    /// No more clients are accepted, and all has to be done within so many seconds.
    Draining(u64),
    /// The chapter of a hub that was full has ended, and calls begin in the next one.
    Turned,
    /// All is done, and so many legs are left that the spool refused. It is the last one.
    Drained(u64),
}

impl<'a> Notice<'a> {
    /// Whether none comes behind it.
    fn is_last(self) -> bool {
        match self {
            Notice::Drained(_) => true,
            _ => false,
        }
    }
}

impl<'a> fmt::Display for Notice<'a> {
    fn fmt<W: fmt::Write>(&self, f: &mut fmt::Formatter<W>) -> fmt::Result {
        match self {
            Notice::Marked(server) => write!(f, "mcv: server {server} is marked"),
            Notice::Unmarked(server) => write!(f, "mcv: server {server} answers again"),
            Notice::Refusing(fault) => write!(f, "mcv: the spool refuses records: {fault}"),
            Notice::Taking => write!(f, "mcv: the spool takes records again"),
            Notice::Unserved => write!(f, "mcv: no memory for a session"),
            Notice::Deaf => write!(f, "mcv: clients can't be accepted"),
            Notice::Hearing => write!(f, "mcv: clients are accepted again"),
            Notice::Crowded(refused) => write!(f, "mcv: too many clients: {refused} refused"),
            Notice::Full(Shortage::Legs, refused) => {
                write!(f, "mcv: too many legs wait: {refused} refused")
            }
            Notice::Full(Shortage::Chapter, refused) => {
                write!(f, "mcv: the chapter is full: {refused} refused")
            }
            Notice::More(held) => write!(f, "mcv: {held} lines more in a second"),
            Notice::Draining(seconds) => write!(f, "mcv: a drain began: {seconds} seconds"),
            Notice::Turned => write!(f, "mcv: the chapter begins again"),
            Notice::Drained(0) => write!(f, "mcv: a drain ended"),
            Notice::Drained(left) => write!(f, "mcv: a drain ended: {left} legs left"),
            Notice::Unlimited => write!(
                f,
                "mcv: no --server-timeout: a server that never answers will stop all clients"
            ),
        }
    }
}

/// Who shows notices to an operator.
pub trait Notices: Drop {
    fn note(&mut self, notice: Notice<'_>);

    /// Shows what is left to be said of an earlier second. It is called some times a second.
    fn catch_up(&mut self) {}
}

/// Shows notices of all threads as lines on standard error, which may fail: ten in a second, and how many there were more once
/// a later one has come.
#[derive(Drop)]
pub struct StandardError<R: Drop> {
    pub(crate) rt: R,
    /// From where seconds are counted.
    since: Instant,
    /// None where each is shown.
    pace: Option<Arc<Mutex<Pace>>>,
}

impl<R: Eprint + Clock + Wait + Copy + Drop> StandardError<R> {
    /// Nothing is shown yet.
    pub fn new(rt: R, alloc: Global) -> Result<StandardError<R>, NetFault> {
        let since = Instant::now(&rt)?;
        let pace = Arc::new(alloc, Mutex::new(Pace::default())).map_err(AllocError::from)?;
        Ok(StandardError {
            rt,
            since,
            pace: Some(pace),
        })
    }

    /// The same for another thread.
    pub fn another(&self) -> StandardError<R> {
        let pace = match &self.pace {
            Some(pace) => Arc::try_clone(pace).ok(),
            None => None,
        };
        StandardError {
            rt: self.rt,
            since: self.since,
            pace,
        }
    }

    /// The second that has come; None where the clock can't be read.
    fn second(&self) -> Option<u64> {
        let now = Instant::now(&self.rt).ok()?;
        Some(now.duration_since(self.since).as_secs())
    }

    /// How many lines weren't said in earlier seconds, and whether this one is said now. The last one has a second of its own:
    /// so it is said, behind how many weren't in this one.
    fn next_line(&self, notice: Notice<'_>) -> (u64, bool) {
        let Some(now) = self.second() else {
            return (0, true);
        };
        let second = if notice.is_last() {
            now.saturating_add(1)
        } else {
            now
        };
        match &self.pace {
            Some(pace) => next_line(&self.rt, &**pace, second),
            None => (0, true),
        }
    }

    /// How many lines weren't said in earlier seconds.
    fn held(&self) -> u64 {
        let Some(second) = self.second() else {
            return 0;
        };
        match &self.pace {
            Some(pace) => held_before(&self.rt, &**pace, second),
            None => 0,
        }
    }

    fn show(&self, notice: Notice<'_>) {
        let _ = eprintln!(self.rt; "{notice}");
    }

    /// Shows how many lines weren't said in earlier seconds, if there were any.
    fn show_held(&self, held: u64) {
        if held > 0 {
            self.show(Notice::More(held));
        }
    }
}

/// Comes to a second, and to a line in it: how many weren't said before, and whether it is.
fn next_line<R: Wait>(rt: &R, pace: &Mutex<Pace>, second: u64) -> (u64, bool) {
    let mut pace = pace.lock(rt);
    let held = pace.enter(second);
    (held, pace.admit())
}

/// Comes to a second: how many weren't said before.
fn held_before<R: Wait>(rt: &R, pace: &Mutex<Pace>, second: u64) -> u64 {
    let mut pace = pace.lock(rt);
    pace.enter(second)
}

impl<R: Eprint + Clock + Wait + Copy + Drop> Notices for StandardError<R> {
    fn note(&mut self, notice: Notice<'_>) {
        let (held, is_said) = self.next_line(notice);
        self.show_held(held);
        if is_said {
            self.show(notice);
        }
    }

    fn catch_up(&mut self) {
        let held = self.held();
        self.show_held(held);
    }
}

/// Shows each notice so, and keeps whether the spool takes records for who asks about it.
#[derive(Drop)]
pub struct Watched<R: Drop> {
    pub error: StandardError<R>,
    pub service: Service,
}

impl<R: Eprint + Clock + Wait + Copy + Drop> Notices for Watched<R> {
    fn note(&mut self, notice: Notice<'_>) {
        match notice {
            Notice::Refusing(_) => self.service.note_refusing(),
            Notice::Taking => self.service.note_taking(),
            _ => {}
        }
        self.error.note(notice);
    }

    fn catch_up(&mut self) {
        self.error.catch_up();
    }
}
