//! A loop at one hub: sessions, connections and servers in memory.

ghost use Rattle.std.specs.Prelude.{◌≡◌, ◌+◌, []};
ghost use Rattle.std.specs.Arc.{arc_value};
ghost use Rattle.std.specs.Int.NonZero.{non_zero_usize_get};
ghost use Rattle.mcv_core.specs.Opening.{opened_within};

use crate::disk::MemoryDisk;
use crate::server::Server;
use mcv_base::{LegId, Moment, ServerId};
use mcv_check::Accepted;
use mcv_hub::{Capacity, Hub, HubLedger, Pass, Passes, Receipt, Report, Seat};
use mcv_pipeline::Landed;
use mcv_session::Machine;
use mcv_spool::{Spool, SpoolFault};
use mcv_turn::{Answer, Arrival, Asker, Came, Gives, HeldLeg, LoopDesk, Marked, StoredLeg};
use mcv_upstream::Upstream;
use mcv_verdict::{Judgement, judge_input};
use mcv_watch::Load;
use std::num::NonZeroUsize;
use std::process::Abort;
use std::sync::ledger::{Blank, Ledger};
use std::sync::{Arc, Wait};

/// How many seats a hub has: the loop's.
pub(crate) const SEATS: u64 = 1;

/// What the checker accepts of a configuration.
pub(crate) fn accepted_of(rt: &(impl AllocGlobal + Abort), text: &str) -> Arc<Accepted> {
    let judgement = judge_input(rt.alloc(), &mut text.as_bytes(), 0);
    match judgement.expect(rt, "a configuration") {
        Judgement::Covered { accepted, .. } => Arc::new(rt.alloc(), accepted).expect(rt, "memory"),
        Judgement::Lost { .. } => panic!(rt; "the routes aren't covered"),
    }
}

/// The server of this number.
fn server_of(rt: &impl Abort, number: usize) -> ServerId {
    ServerId(u32::try_from(number).ok().expect(rt, "a server"))
}

/// A hub over these routes, of which each server may have so many legs in flight.
pub(crate) fn hub_of<B: HubLedger, T: Ledger>(
    rt: &(impl AllocGlobal + Abort),
    accepted: Arc<Accepted>,
    flights: NonZeroUsize,
    begun: Blank,
    taken: Blank,
) -> (Hub<B, T>, Passes<B, T>)
    requires begun { (begun.name ≡ B.name) × (begun.parts ≡ B.parts) × (begun.parts ≡ SEATS + 1) }
    requires taken { (taken.name ≡ T.name) × (taken.parts ≡ T.parts) × (taken.parts ≡ SEATS + 1) }
    requires number { 0 ≡ B.number }
    requires opened { B.opened ≡ opened_within (non_zero_usize_get flights) (arc_value accepted) [] }
{
    let capacity = Capacity {
        flights,
        bells: 1,
        seats: SEATS,
    };
    Hub::new(rt.alloc(), accepted, 0, &[], capacity, begun, taken).expect(rt, "memory")
}

/// A client's session, and all that was written to it.
#[derive(Drop)]
pub(crate) struct Client {
    machine: Machine,
    pub(crate) told: Vec<u8>,
    /// It is there.
    is_there: bool,
}

/// A loop at one hub.
#[derive(Drop)]
pub(crate) struct Scene<'a, B: HubLedger, T: Ledger> {
    hub: &'a Hub<B, T>,
    pass: Pass,
    pub(crate) desk: LoopDesk<'a, B, T>,
    upstreams: Vec<Upstream>,
    pub(crate) servers: Vec<Server>,
    pub(crate) clients: Vec<Client>,
    came: Came,
    spool: Spool<MemoryDisk>,
    /// How many records are done.
    pub(crate) finished: u64,
    /// The record that is to be written.
    pub(crate) held: Option<HeldLeg>,
    /// The marks that were told.
    pub(crate) marks: Vec<Marked>,
    /// What the last turn told of the hub.
    pub(crate) load: Load,
    pub(crate) waiting: Option<Vec<usize>>,
    pub(crate) queued: usize,
}

impl<'a, B: HubLedger, T: Ledger> Scene<'a, B, T> {
    /// So many clients and servers over a hub, of which nothing is asked yet.
    pub(crate) fn new(
        rt: &(impl AllocGlobal + Abort),
        hub: &'a Hub<B, T>,
        passes: &mut Passes<B, T>,
        clients: usize,
        servers: usize,
    ) -> Scene<'a, B, T> {
        let alloc = rt.alloc();
        let seat = passes.seat().expect(rt, "a seat");
        let desk = LoopDesk::new(alloc, hub, seat, usize::MAX).expect(rt, "memory");
        let mut scene = Scene {
            hub,
            pass: passes.pass(),
            desk,
            upstreams: Vec::new(alloc),
            servers: Vec::new(alloc),
            clients: Vec::new(alloc),
            came: Came::at(alloc, Moment(0)),
            spool: Spool::open(alloc, MemoryDisk::new(alloc))
                .ok()
                .expect(rt, "a spool"),
            finished: 0,
            held: None,
            marks: Vec::new(alloc),
            load: Load {
                chapter: 0,
                entries: 0,
                bytes: 0,
            },
            waiting: None,
            queued: 0,
        };
        for _server in 0..servers {
            scene
                .upstreams
                .push(Upstream::new(alloc))
                .ok()
                .expect(rt, "memory");
            scene
                .servers
                .push(Server::new(alloc))
                .ok()
                .expect(rt, "memory");
        }
        for _client in 0..clients {
            let client = Client {
                machine: Machine::new(alloc),
                told: Vec::new(alloc),
                is_there: true,
            };
            scene.clients.push(client).ok().expect(rt, "memory");
        }
        scene
    }

    /// A client sends these bytes.
    pub(crate) fn send(&mut self, rt: &impl Abort, client: usize, bytes: &[u8]) {
        let found = self.clients.get_mut(client).expect(rt, "a client");
        found.machine.feed(bytes).ok().expect(rt, "an open session");
    }

    /// A client goes.
    pub(crate) fn go(&mut self, rt: &impl Abort, client: usize) {
        self.clients.get_mut(client).expect(rt, "a client").is_there = false;
    }

    /// Legs in the spool are to be sent again.
    pub(crate) fn replay(&mut self) {
        self.came.replays = true;
    }

    /// The legs that wait are counted in the next turn.
    pub(crate) fn count(&mut self) {
        self.came.counts = true;
    }

    /// The spool takes records, or refuses them.
    pub(crate) fn may_store(&mut self, may_store: bool) {
        self.came.may_store = may_store;
    }

    /// What the spool answered to the record that was to be written.
    pub(crate) fn refuse(&mut self, rt: &impl Abort) {
        let held = self.held.take().expect(rt, "a record");
        self.came.stored = Some(StoredLeg {
            leg: held.leg,
            outcome: Err(SpoolFault::Full),
        });
    }

    /// The record that was to be written is.
    pub(crate) fn store(&mut self, rt: &impl Abort) {
        let held = self.held.take().expect(rt, "a record");
        let HeldLeg { leg, delete } = held;
        self.came.stored = Some(StoredLeg {
            leg,
            outcome: self.spool.append(delete),
        });
    }

    /// Asks the desk the next request of each client that has one.
    fn ask_all(&mut self, rt: &impl Abort) {
        for number in 0..self.clients.len() {
            let client = self.clients.get_mut(number).expect(rt, "a client");
            let request = client.machine.next_request().ok().expect(rt, "memory");
            if let Some(request) = request {
                self.desk
                    .ask(Asker::Session(number as u64), request)
                    .expect(rt, "memory");
            }
        }
    }

    /// Gives an answer to the session that asked.
    fn give(&mut self, rt: &impl Abort, answer: Answer) {
        let Answer { asker, outcome, .. } = answer;
        let Asker::Session(number) = asker else {
            panic!(rt; "no session asked");
        };
        let client = self.clients.get_mut(number as usize).expect(rt, "a client");
        if !client.is_there {
            return;
        }
        let given = match outcome {
            Ok(parts) => client.machine.answer(parts.as_slice()),
            Err(fault) => client.machine.refuse(fault),
        };
        given.ok().expect(rt, "a request that is out");
        client
            .told
            .extend_from_slice(client.machine.output())
            .expect(rt, "memory");
        client.machine.wrote_all();
    }

    /// One round of the loop: the requests that wait are asked, the hub is locked once, legs go to their connections, and answers to
    /// their clients. The lock is free when it ends.
    pub(crate) fn round<R: AllocGlobal + Abort + Wait>(&mut self, rt: &R) {
        self.ask_all(rt);
        let alloc = rt.alloc();
        let mut next = Came::at(alloc, Moment(0));
        next.may_store = self.came.may_store;
        let came = std::mem::replace(&mut self.came, next);
        let mut gives = Gives::new(alloc);
        let mut guard = self.hub.lock(rt, &mut self.pass);
        self.desk.turn(&mut guard, came, &mut gives);
        drop(guard);
        let Gives {
            flights,
            held,
            performed,
            past: _,
            marks,
            refused: _,
            load,
            waiting,
            queued,
        } = gives;
        self.load = load;
        self.waiting = waiting;
        self.queued = queued;
        for mark in marks {
            self.marks.push(mark).expect(rt, "memory");
        }
        for done in performed {
            self.spool.done(done.number()).ok().expect(rt, "a record");
            self.finished = self.finished.saturating_add(1);
        }
        for flight in flights {
            let upstream = self
                .upstreams
                .get_mut(flight.server.0 as usize)
                .expect(rt, "a server");
            if upstream.send(flight.leg, &flight.request).is_err() {
                let arrival = Arrival::lost(flight.server, flight.leg);
                self.came.arrivals.push(arrival).ok().expect(rt, "memory");
            }
        }
        if held.is_some() {
            self.held = held;
        }
        for _answer in 0..u64::MAX {
            let Some(answer) = self.desk.answer() else {
                return;
            };
            self.give(rt, answer);
        }
    }

    /// The bytes that are to be written to a server come there, and it answers them.
    pub(crate) fn serve(&mut self, rt: &impl Abort, server: usize) {
        let upstream = self.upstreams.get_mut(server).expect(rt, "a server");
        let found = self.servers.get_mut(server).expect(rt, "a server");
        found.read(rt, upstream.output());
        let count = upstream.output().len();
        upstream.wrote(count);
    }

    /// What a server says comes back, in pieces of so many bytes.
    pub(crate) fn hear(&mut self, rt: &(impl AllocGlobal + Abort), server: usize, cut: usize) {
        let found = self.servers.get_mut(server).expect(rt, "a server");
        let says = std::mem::replace(&mut found.says, Vec::new(rt.alloc()));
        let mut landed = Vec::new(rt.alloc());
        let upstream = self.upstreams.get_mut(server).expect(rt, "a server");
        let mut left = says.as_slice();
        for _piece in 0..says.len() {
            let count = cut.min(left.len());
            let piece = left.get(..count).expect(rt, "a piece");
            upstream.feed(piece, &mut landed).ok().expect(rt, "replies");
            left = left.get(count..).expect(rt, "the rest");
        }
        self.land(rt, server, landed);
    }

    /// The first bytes of what a server says come back, and no others.
    pub(crate) fn hear_first(
        &mut self,
        rt: &(impl AllocGlobal + Abort),
        server: usize,
        count: usize,
    ) {
        let found = self.servers.get_mut(server).expect(rt, "a server");
        let says = std::mem::replace(&mut found.says, Vec::new(rt.alloc()));
        let mut landed = Vec::new(rt.alloc());
        let upstream = self.upstreams.get_mut(server).expect(rt, "a server");
        let piece = says.as_slice().get(..count).expect(rt, "a piece");
        upstream.feed(piece, &mut landed).ok().expect(rt, "replies");
        self.land(rt, server, landed);
    }

    fn land(&mut self, rt: &(impl AllocGlobal + Abort), server: usize, landed: Vec<Landed>) {
        for came in landed {
            let Landed { leg, reply } = came;
            let arrival = Arrival::landed(rt.alloc(), server_of(rt, server), leg, reply);
            self.came.arrivals.push(arrival).ok().expect(rt, "memory");
        }
    }

    /// The connection to a server breaks. How many legs are lost with it.
    pub(crate) fn break_off(&mut self, rt: &(impl AllocGlobal + Abort), server: usize) -> usize {
        let upstream = self.upstreams.get_mut(server).expect(rt, "a server");
        upstream.close();
        let mut lost: Vec<LegId> = Vec::new(rt.alloc());
        for _leg in 0..u64::MAX {
            let Some(leg) = upstream.lost() else {
                break;
            };
            lost.push(leg).expect(rt, "memory");
        }
        for (number, leg) in lost.iter().enumerate() {
            let arrival = Arrival::lost_as(server_of(rt, server), *leg, number);
            self.came.arrivals.push(arrival).ok().expect(rt, "memory");
        }
        lost.len()
    }

    /// A new connection to the server.
    pub(crate) fn connect(&mut self, rt: &(impl AllocGlobal + Abort), server: usize) {
        let found = self.upstreams.get_mut(server).expect(rt, "a server");
        *found = Upstream::new(rt.alloc());
    }

    /// One round, and what the servers answer to it.
    pub(crate) fn pass<R: AllocGlobal + Abort + Wait>(&mut self, rt: &R) {
        self.round(rt);
        for server in 0..self.servers.len() {
            self.serve(rt, server);
            self.hear(rt, server, 1_000);
        }
    }

    /// A marked server has answered a probe.
    pub(crate) fn answers_probe(&mut self, rt: &impl Abort, server: ServerId) {
        self.came.answering.push(server).expect(rt, "memory");
    }

    /// What a server was asked.
    pub(crate) fn asked(&self, rt: &impl Abort, server: usize) -> &str {
        self.servers
            .get(server)
            .expect(rt, "a server")
            .asked
            .as_str()
    }

    /// Rounds until nothing more comes of them.
    pub(crate) fn settle<R: AllocGlobal + Abort + Wait>(&mut self, rt: &R, cut: usize) {
        for _round in 0..8 {
            self.round(rt);
            for server in 0..self.servers.len() {
                self.serve(rt, server);
                self.hear(rt, server, cut);
            }
        }
        self.round(rt);
    }

    /// What was told to a client.
    pub(crate) fn check_told(&self, rt: &impl Abort, client: usize, wanted: &[u8]) {
        let found = self.clients.get(client).expect(rt, "a client");
        let told = found.told.as_slice();
        assert!(rt; told == wanted, "client {client} was told {told:?}");
    }

    /// What a server was asked.
    pub(crate) fn check_asked(&self, rt: &impl Abort, server: usize, wanted: &str) {
        let found = self.servers.get(server).expect(rt, "a server");
        let asked = found.asked.as_str();
        assert!(rt; asked == wanted, "server {server} was asked {asked}");
    }

    /// The hub's books, over the receipts that the desk kept: so many calls were begun, and as many replies taken.
    pub(crate) fn check_books<R: AllocGlobal + Abort + Wait>(self, rt: &R, calls: u64) {
        let Scene {
            hub,
            pass,
            desk,
            ..
        } = self;
        let (seat, receipts) = desk.into_parts();
        close(rt, hub, pass, seat, receipts, calls);
    }
}

/// The hub closes over these receipts.
fn close<B: HubLedger, T: Ledger, R: AllocGlobal + Abort + Wait>(
    rt: &R,
    hub: &Hub<B, T>,
    pass: Pass,
    seat: Seat<B, T>,
    receipts: Vec<Receipt>,
    calls: u64,
) {
    let (mut pass, mut seat) = (pass, seat);
    let mut guard = hub.lock(rt, &mut pass);
    let found = guard.close(rt.alloc(), &mut seat, receipts.as_slice());
    let wanted = Report {
        begun: calls,
        taken: calls,
        older: 0,
    };
    assert!(rt; found == Ok(wanted), "{found:?}");
}
