//! The loop.

ghost use Rattle.slab.specs.Slab.{slab_len};
ghost use Rattle.std.specs.Prelude.{◌≡◌, [], IfOk, IfSome, true};
ghost use Rattle.mcv_loop.specs.Ends.{HasEnded};
ghost use Rattle.mcv_schedule.specs.Ending.{is_without_clients};
ghost use Rattle.mcv_schedule.specs.declared.ending.Ending.TheVariants.{Serving};

use crate::lines::Lines;
use crate::sources::{Ready, Source, SourceFault, Sources};
use mcv_clients::Clients;
use mcv_connection::has_passed;
use mcv_hub::{Pass, Receipt};
use mcv_hubs::{HubNames, Hubs, Names, Seats};
use mcv_schedule::{Ending, Leftover, Post, TICK, Way, patience, pause, with_hub};
use mcv_watch::Watch;
use std::alloc::{AllocError, Global};
use std::mem;
use std::sync::Wait;
use std::time::{Duration, Instant};

/// The bytes of one read.
pub(crate) const PIECE: usize = 16_384;

/// The most pieces that are read in a row of one connection, so that others come too.
pub(crate) const MOST_PIECES: usize = 16;

/// The most turns in a row at a hub, so that others are read too.
const MOST_TURNS: usize = 16;

/// More turns than come.
pub(crate) const TURNS: u64 = u64::MAX;

/// How long clients that take nothing are kept behind the moment of a drain, in milliseconds, so that answers get out.
const GRACE: u64 = 1_000;

/// What a loop grants: the time that servers and clients have, None where they may take any, and the bytes of an answer.
#[derive(Clone, Copy)]
pub struct Limits {
    /// From a leg's sending to its reply.
    pub server: Option<Duration>,
    /// For a client to send a byte, or to take one.
    pub client: Option<Duration>,
    /// The most bytes that the values of an answer may have together.
    pub answer: usize,
}

/// How a loop came to its end.
#[derive(Clone, Copy, Debug, PartialEq, Eq)]
pub enum LoopEnd {
    /// No client is left. So many legs are still queued, since the spool refused each.
    Done { left: usize },
    /// The sources can't go on.
    Fault(SourceFault),
}

/// A loop over sources, at all hubs.
#[derive(Drop)]
pub struct Loop<'a, F: HubNames, G: Names, S: Sources, W: Watch> {
    pub(crate) alloc: Global,
    pub(crate) hubs: &'a Hubs<F, G>,
    pub(crate) pass: Pass,
    pub(crate) clients: Clients<'a, F, G, S::Client>,
    pub(crate) lines: Lines<S::Server>,
    /// One for each hub.
    pub(crate) posts: Vec<Post>,
    pub(crate) sources: S,
    pub(crate) watch: W,
    pub(crate) limits: Limits,
    pub(crate) ending: Ending,
    /// No more clients come, and none is left.
    pub(crate) is_leaving: bool,
    /// Something is left of an old chapter.
    pub(crate) is_dropping: bool,
    /// What is ready; its room is kept from one round to the next.
    ready: Vec<Ready<S::Client>>,
    /// For one read of a server.
    pub(crate) room: Vec<u8>,
    pub(crate) now: Option<Instant>,
    /// No leg's time runs out before this.
    pub(crate) late_at: Option<Instant>,
    /// When all clients and marked servers were looked at last.
    ticked: Option<Instant>,
    /// When the watch caught up last.
    caught_up: Option<Instant>,
}

/// One post for each hub.
fn posts_of(alloc: Global, hubs: usize) -> Result<Vec<Post>, AllocError> {
    let mut posts = Vec::new(alloc);
    for _hub in 0..hubs {
        posts.push(Post::new(alloc))?;
    }
    Ok(posts)
}

/// The spool is asked once more for each hub where it refuses records.
fn ask_all_again(posts: &mut [Post]) {
    for post in posts {
        post.ask_again();
    }
}

/// Room for one read.
fn room_of(alloc: Global) -> Result<Vec<u8>, AllocError> {
    let mut room = Vec::new(alloc);
    room.resize(PIECE, 0)?;
    Ok(room)
}

impl<'a, F: HubNames, G: Names, S: Sources, W: Watch> Loop<'a, F, G, S, W> {
    /// A loop that has no client and no connection. An error is that memory ran out.
    pub fn new(
        alloc: Global,
        hubs: &'a Hubs<F, G>,
        pass: Pass,
        seats: Seats<F, G>,
        sources: S,
        watch: W,
        limits: Limits,
    ) -> Result<Loop<'a, F, G, S, W>, AllocError>
        ensures none { IfOk result (λ l. l.clients.clients.slots ≡ []) }
        ensures hubs { IfOk result (λ l. l.clients.desks.hubs ≡ hubs.now.choice) }
        ensures answer { IfOk result (λ l. l.clients.desks.most ≡ limits.answer) }
        ensures serves { IfOk result (λ l. l.ending ≡ Serving) }
    {
        let servers = u32::try_from(hubs.hub0.routes().servers().len()).unwrap_or(u32::MAX);
        let lines = Lines::new(alloc, hubs.choice.hubs(), servers)?;
        let posts = posts_of(alloc, hubs.choice.hubs())?;
        let room = room_of(alloc)?;
        let clients = Clients::new(alloc, hubs, seats, limits.answer)?;
        Ok(Loop {
            alloc,
            hubs,
            pass,
            clients,
            lines,
            posts,
            sources,
            watch,
            limits,
            ending: Ending::Serving,
            is_leaving: false,
            is_dropping: false,
            ready: Vec::new(alloc),
            room,
            now: None,
            late_at: None,
            ticked: None,
            caught_up: None,
        })
    }

    /// What it talks to.
    pub fn sources(&mut self) -> &mut S {
        &mut self.sources
    }

    /// The seats, the receipts that were kept, the sources and the watch. An error is that there was no memory for all receipts.
    pub fn into_parts(self) -> (Seats<F, G>, Result<Vec<Receipt>, AllocError>, S, W)
        ensures seats { result.0 ≡ self.entry.clients.desks.tallies }
        ensures receipts { IfOk result.1 (λ v. v.items ≡ self.entry.clients.desks.receipts) }
        ensures sources { result.2 ≡ self.entry.sources }
        ensures watch { result.3 ≡ self.entry.watch }
    {
        let Loop {
            clients,
            sources,
            watch,
            ..
        } = self;
        let (seats, receipts) = clients.into_parts();
        (seats, receipts, sources, watch)
    }

    /// Goes on until it ends in order, or its sources can't go on.
    pub fn run<R: Wait>(&mut self, rt: &R) -> LoopEnd
        ensures { HasEnded result self.new.ending (slab_len self.new.clients.clients) }
    {
        for _round in rt.forever() {
            match self.round(rt) {
                Ok(None) => {}
                Ok(Some(left)) => return LoopEnd::Done { left },
                Err(fault) => return LoopEnd::Fault(fault),
            }
        }
        unreachable!()
    }

    /// One round: what is ready is read, each hub that it is for is locked once or, where answers make further requests free, once
    /// more, up to a limit, and what is to be written is. How many legs are left once the loop is over; None where it goes on.
    pub fn round<R: Wait>(&mut self, rt: &R) -> Result<Option<usize>, SourceFault>
        ensures { IfOk result (λ left. IfSome left (λ _. is_without_clients self.new.ending (slab_len self.new.clients.clients) ≡ true)) }
    {
        let most = self.patience();
        self.sources.wait(&self.pass, Some(most), &mut self.ready)?;
        self.now = self.sources.instant();
        self.take_ready();
        self.hear_more();
        self.tick();
        self.catch_up();
        self.follow_end();
        self.send_unsent();
        self.serve(rt);
        self.write_lines();
        self.drop_pieces();
        Ok(self.look_at_end())
    }

    /// For how long nothing need be done before something is ready.
    fn patience(&self) -> Duration {
        let is_busy = !self.clients.is_idle()
            || self.lines.unread() > 0
            || self.is_turn_due()
            || self.is_dropping;
        let ends_at = self.ending.next_moment(self.now);
        let pause = pause(self.ending);
        patience(is_busy, pause, self.now, self.late_at, ends_at)
    }

    /// Takes what is ready.
    fn take_ready(&mut self) {
        let mut ready = mem::replace(&mut self.ready, Vec::new(self.alloc));
        for one in ready.drain(..) {
            self.take(one);
        }
        self.ready = ready;
    }

    /// Takes one thing that is ready.
    fn take(&mut self, ready: Ready<S::Client>) {
        match ready {
            Ready::Client(connection) => self.welcome(connection),
            Ready::Read(Source::Client(number)) => {
                self.clients.note_readable(number, false, self.now);
            }
            Ready::Read(Source::Server { hub, server }) => self.hear(Way { hub, server }),
            Ready::Write(Source::Client(number)) => self.clients.note_writable(number, self.now),
            Ready::Write(Source::Server { hub, server }) => self.note_writable(Way { hub, server }),
            Ready::End(Source::Client(number)) => {
                self.clients.note_readable(number, true, self.now);
            }
            Ready::End(Source::Server { hub, server }) => self.hear_end(Way { hub, server }),
            Ready::Stored { hub, stored, slots } => self.take_stored(hub, stored, slots),
            Ready::Closed => self.ending = self.ending.closed(),
            Ready::Drains { until } => self.drain(until),
        }
    }

    /// A new client. Without memory for it, or where nothing would be said of its connection, it isn't served; and none is once a
    /// drain was asked for.
    fn welcome(&mut self, connection: S::Client) {
        if self.ending.is_draining() {
            return;
        }
        let number = self.clients.vacant();
        let mut connection = connection;
        if !self.sources.attend(&self.pass, &mut connection, number) {
            self.watch.note_unserved();
            return;
        }
        if self.clients.admit(connection, self.now).is_err() {
            self.watch.note_unserved();
        }
    }

    /// An end was asked for, up to this moment: nothing more is read of clients.
    fn drain(&mut self, until: Option<Instant>) {
        if !self.ending.is_draining() {
            self.clients.end_input();
        }
        self.ending = self.ending.drained(until);
    }

    /// Closes connections to servers whose time has run out. Once a second clients are looked at too, and marked servers are probed.
    fn tick(&mut self) {
        let tick = Some(Duration::from_millis(TICK));
        let is_tick = self.ticked.is_none() || has_passed(self.ticked, self.now, tick);
        if is_tick || self.may_be_late() {
            self.expire_lines();
        }
        if !is_tick {
            return;
        }
        self.ticked = self.now;
        self.clients.expire(self.now, self.limits.client);
        if !self.ending.is_past(self.now) {
            self.probe_marked();
        }
        self.want_turns();
    }

    /// Lets the watch say what is left to be said of an earlier time: once a second, and more often while the loop drains.
    fn catch_up(&mut self) {
        let pause = Some(pause(self.ending));
        if self.caught_up.is_none() || has_passed(self.caught_up, self.now, pause) {
            self.caught_up = self.now;
            self.watch.catch_up();
        }
    }

    /// Behind the moment of a drain what servers owe is late; and a while later clients that have taken nothing are closed.
    fn follow_end(&mut self) {
        if !self.ending.is_past(self.now) {
            return;
        }
        self.close_lines();
        if self
            .ending
            .has_passed(self.now, Duration::from_millis(GRACE))
        {
            self.clients.close_all();
        }
    }

    /// Serves clients and makes turns at hubs, as long as these have something to be told, up to a limit.
    fn serve<R: Wait>(&mut self, rt: &R) {
        for _turn in 0..MOST_TURNS {
            self.clients
                .serve_all(&self.pass, &mut self.watch, self.now);
            // What is sent now is late by a clock that is read now: the time that serving took isn't a server's.
            self.now = self.sources.instant();
            if !self.turn_all(rt) {
                return;
            }
            self.clients.answer_all(&mut self.watch, self.now);
        }
    }

    /// How many legs are left once the loop is over; None where it goes on: unless an end was asked for, and no client is left.
    fn look_at_end(&mut self) -> Option<usize>
        ensures { IfSome result (λ _. is_without_clients self.new.ending (slab_len self.new.clients.clients) ≡ true) }
    {
        if !self.ending.is_without_clients(self.clients.count()) {
            return None;
        }
        self.leave();
        self.left()
    }

    /// No client is left. As soon as that is so the spool is asked once more.
    fn leave(&mut self)
        ensures { (self.new.ending ≡ self.old.ending) × (self.new.clients ≡ self.old.clients) }
    {
        if self.is_leaving {
            return;
        }
        self.is_leaving = true;
        ask_all_again(self.posts.as_mut_slice());
    }

    /// How many legs are left, where nothing is to be done for any hub.
    fn left(&self) -> Option<usize> {
        let mut left = Some(0);
        for hub in 0..self.posts.len() {
            left = with_hub(left, self.leftover(hub));
        }
        left
    }

    /// What a hub has left.
    fn leftover(&self, hub: usize) -> Leftover {
        let is_due = self.is_due_at(hub) || self.clients.waits(hub);
        let is_flying = self.lines.is_flying(hub);
        match self.posts.get(hub) {
            Some(post) => Leftover {
                is_due: is_due || !post.unsent.is_empty(),
                is_writing: post.is_writing,
                is_flying,
                is_refused: post.spool.has_refused(),
                queued: post.queued,
            },
            None => Leftover {
                is_due,
                is_writing: false,
                is_flying,
                is_refused: false,
                queued: 0,
            },
        }
    }
}
