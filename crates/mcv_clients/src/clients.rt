//! The clients of a loop.

ghost use Rattle.slab.specs.Slab.{get, slab_len, Updates};
ghost use Rattle.std.specs.Prelude.{◌≡◌, ◌≢◌, ◌↔◌, ◌<◌, ℕ, [], true, None, Some, IfOk, OnErr, length};
ghost use Rattle.mcv_clients.specs.Clients.{AreLeft, AreSame, AreStill, AskersStay};
ghost use Rattle.mcv_clients.specs.Life.{ClientView, IsAnswered, came_client, wire};
ghost use Rattle.mcv_desks.specs.Open.{AreSameRequests, asked_of, entering_of, servers_of};
ghost use Rattle.mcv_turn.specs.Shown.{is_known_marked};

use crate::asking::Asking;
use crate::client::Client;
use crate::limits::{MOST_PIECES, PIECE, TURNS};
use crate::table::{
    Standing, answer_at, end_input_at, is_late_at, is_readable_at, next_request_at, note_asked_at,
    note_readable_at, note_served_at, note_writable_at, read_at, refuse_at, standing_at, touch_at,
    write_at,
};
use mcv_base::ServerId;
use mcv_connection::Connection;
use mcv_hub::{Pass, Receipt};
use mcv_hubs::{HubNames, Hubs, Names, Seats};
use mcv_session::DeskFault;
use mcv_turn::{Came, Gives};
use mcv_watch::Watch;
use slab::Slab;
use std::alloc::{AllocError, Global};
use std::marker::Model;
use std::mem;
use std::sync::Wait;
use std::time::{Duration, Instant};

/// The clients of a loop, each under a number, and the desks that they ask. A number is that of another client once its own has gone.
/// Clauses see each client's life, what is open at the desks, and who is to be served.
#[derive(Drop)]
pub struct Clients<'a, F: HubNames, G: Names, C: Connection> {
    alloc: Global,
    clients: Slab<Client<F, C>>,
    asking: Asking<'a, F, G>,
    /// How many hubs there are.
    hubs: usize,
    /// The numbers of the clients that are to be served. One may have gone.
    touched: Vec<usize>,
    /// Room for those that are served next.
    spare: Vec<usize>,
    /// The room of a read.
    room: Vec<u8>,
    /// Nothing more is read.
    is_ending: bool,
}

impl<'a, F: HubNames, G: Names, C: Connection> Model for Clients<'a, F, G, C> {
    ghost use Rattle.mcv_clients.specs.Clients.{AreClients, ClientsView};

    ghost Value = { ClientsView };

    ghost view = { λ c. record { clients = c.clients; desks = c.asking.desks; touched = c.touched.items } };

    ghost invariant = { λ c. AreClients c.asking.desks c.asking.next c.hubs c.clients c.room.items };
}

/// Room for the bytes of one read.
fn piece_room(alloc: Global) -> Result<Vec<u8>, AllocError>
    ensures { IfOk result (λ room. 0 < length room.items) }
{
    let mut room = Vec::new(alloc);
    room.resize(PIECE, 0)?;
    Ok(room)
}

impl<'a, F: HubNames, G: Names, C: Connection> Clients<'a, F, G, C> {
    /// No clients, and desks that were asked nothing, whose answers may have values of so many bytes together. An error is that memory
    /// ran out.
    pub fn new(
        alloc: Global,
        hubs: &'a Hubs<F, G>,
        seats: Seats<F, G>,
        most: usize,
    ) -> Result<Clients<'a, F, G, C>, AllocError>
        ensures none { IfOk result (λ c. c.clients.slots ≡ []) }
        ensures hubs { IfOk result (λ c. c.desks.hubs ≡ hubs.now.choice) }
        ensures most { IfOk result (λ c. c.desks.most ≡ most) }
        ensures idle { IfOk result (λ c. c.touched ≡ []) }
    {
        let room = piece_room(alloc)?;
        let asking = Asking::new(alloc, hubs, seats, most)?;
        Ok(Clients {
            alloc,
            clients: Slab::new(alloc),
            asking,
            hubs: hubs.choice.hubs(),
            touched: Vec::new(alloc),
            spare: Vec::new(alloc),
            room,
            is_ending: false,
        })
    }

    /// At this moment the client of this number was told, in order, the answers of the hubs to the first of the requests that it sent
    /// since it came.
    pub fn client_is_answered_in_order(&self, number: usize)
        ensures answered { (c : ClientView) → get self.now.clients number ≡ Some c → IsAnswered F.opened_of c }
        ensures hubs { (c : ClientView) → get self.now.clients number ≡ Some c → c.hubs ≡ self.now.desks.hubs }
    {
        if let Some(client) = self.clients.get(number) {
            client.is_answered_in_order();
        }
    }

    /// The number that the next client gets.
    pub fn vacant(&self) -> usize
        ensures { result ≡ self.now.clients.vacant_key }
    {
        self.clients.vacant_key()
    }

    /// How many clients there are.
    pub fn count(&self) -> usize
        ensures { result ≡ slab_len self.now.clients }
    {
        self.clients.len()
    }

    /// A new client, which is to be served: its number. Without memory for it its connection is closed.
    pub fn admit(&mut self, connection: C, now: Option<Instant>) -> Result<usize, AllocError>
        ensures number { IfOk result (λ number. number ≡ self.old.clients.vacant_key) }
        ensures ok { IfOk result (λ number. Updates self.old.clients self.new.clients number (Some (came_client (wire (C.unread connection) (C.written connection)) self.old.desks.hubs))) }
        ensures err { OnErr result (AreSame self.old.clients self.new.clients) }
        ensures desks { self.new.desks ≡ self.old.desks }
    {
        self.touched.reserve(1)?;
        let mut client = Client::new(self.alloc, connection, self.hubs, now);
        client.touch();
        if self.is_ending {
            client.end_input();
        }
        let Ok(number) = self.clients.insert(client) else {
            return Err(AllocError);
        };
        self.touched.push_reserved(number);
        Ok(number)
    }

    /// The client of this number, if there is one, is to be served. Without memory to note it it is closed.
    fn touch(&mut self, number: usize)
        ensures left { AreLeft self.old.clients self.new.clients }
        ensures desks { self.new.desks ≡ self.old.desks }
    {
        if !touch_at(&mut self.clients, number) {
            return;
        }
        if self.touched.push(number).is_err() {
            self.drop_client(number);
        }
    }

    /// The connection of the client of this number is closed. A request that is out goes on without it.
    fn drop_client(&mut self, number: usize)
        ensures gone { get self.new.clients number ≡ None }
        ensures others { (other : ℕ) → other ≢ number → get self.new.clients other ≡ get self.old.clients other }
        ensures desks { self.new.desks ≡ self.old.desks }
    {
        let Some(client) = self.clients.try_remove(number) else {
            return;
        };
        if let Some(serial) = client.out() {
            self.asking.forget(serial);
        }
    }

    /// Bytes of the client of this number may be there, or it has ended; it `ends` where it sends no more, and then what it sent is
    /// read to its end. It is to be served.
    pub fn note_readable(&mut self, number: usize, ends: bool, now: Option<Instant>)
        ensures left { AreLeft self.old.clients self.new.clients }
        ensures desks { self.new.desks ≡ self.old.desks }
    {
        note_readable_at(&mut self.clients, number, ends, now);
        self.touch(number);
    }

    /// The client of this number takes bytes again. It is to be served.
    pub fn note_writable(&mut self, number: usize, now: Option<Instant>)
        ensures left { AreLeft self.old.clients self.new.clients }
        ensures desks { self.new.desks ≡ self.old.desks }
    {
        note_writable_at(&mut self.clients, number, now);
        self.touch(number);
    }

    /// Serves all clients that are to be: what they sent is read, the first request of each is asked, and what they are told is
    /// written, with one write for each. Those whose session or whose bytes have ended are closed once all is answered and written.
    pub fn serve_all<W: Watch>(&mut self, _pass: &Pass, watch: &mut W, now: Option<Instant>)
        ensures still { AreStill self.old.clients self.new.clients }
        ensures hubs { self.new.desks.hubs ≡ self.old.desks.hubs }
    {
        let mut served = self.take_touched();
        self.serve_each(served.as_slice(), watch, now);
        served.clear();
        self.spare = served;
    }

    /// The numbers of the clients that are to be served, which then no longer are.
    fn take_touched(&mut self) -> Vec<usize>
        ensures touched { result.items ≡ self.old.touched }
        ensures clients { self.new.clients ≡ self.old.clients }
        ensures desks { self.new.desks ≡ self.old.desks }
    {
        let spare = mem::replace(&mut self.spare, Vec::new(self.alloc));
        mem::replace(&mut self.touched, spare)
    }

    /// Serves the clients of these numbers.
    fn serve_each<W: Watch>(&mut self, numbers: &[usize], watch: &mut W, now: Option<Instant>)
        ensures still { AreStill self.old.clients self.new.clients }
        ensures hubs { self.new.desks.hubs ≡ self.old.desks.hubs }
    {
        for number in numbers.iter() {
            self.serve(*number, watch, now);
        }
    }

    /// Serves the client of this number.
    fn serve<W: Watch>(&mut self, number: usize, watch: &mut W, now: Option<Instant>)
        ensures still { AreStill self.old.clients self.new.clients }
        ensures hubs { self.new.desks.hubs ≡ self.old.desks.hubs }
    {
        if self.exchange(number, watch, now) {
            self.settle(number);
        } else {
            self.drop_client(number);
        }
    }

    /// Reads, asks and writes for the client of this number. False where its connection is broken.
    fn exchange<W: Watch>(&mut self, number: usize, watch: &mut W, now: Option<Instant>) -> bool
        ensures still { AreStill self.old.clients self.new.clients }
        ensures hubs { self.new.desks.hubs ≡ self.old.desks.hubs }
    {
        if !self.hear(number, watch, now) {
            return false;
        }
        self.tell(number, now)
    }

    /// Writes what the client of this number is told, with one write. False where its connection is broken.
    fn tell(&mut self, number: usize, now: Option<Instant>) -> bool
        ensures still { AreStill self.old.clients self.new.clients }
        ensures desks { self.new.desks ≡ self.old.desks }
    {
        write_at(&mut self.clients, number, now)
    }

    /// Reads the client of this number, with one read. False where its connection is broken.
    fn read(&mut self, number: usize, now: Option<Instant>) -> bool
        ensures still { AreStill self.old.clients self.new.clients }
        ensures desks { self.new.desks ≡ self.old.desks }
    {
        read_at(&mut self.clients, number, self.room.as_mut_slice(), now)
    }

    /// Asks the next request of the client of this number, or reads it, up to a limit. False where its connection is broken.
    fn hear<W: Watch>(&mut self, number: usize, watch: &mut W, now: Option<Instant>) -> bool
        ensures still { AreStill self.old.clients self.new.clients }
        ensures hubs { self.new.desks.hubs ≡ self.old.desks.hubs }
    {
        self.note_served(number);
        for _piece in 0..MOST_PIECES {
            self.ask_next(number, watch, now);
            if !self.is_readable(number) {
                return true;
            }
            if !self.read(number, now) {
                return false;
            }
        }
        self.ask_next(number, watch, now);
        true
    }

    /// The client of this number is being served.
    fn note_served(&mut self, number: usize)
        ensures still { AreStill self.old.clients self.new.clients }
        ensures desks { self.new.desks ≡ self.old.desks }
    {
        note_served_at(&mut self.clients, number);
    }

    /// Whether a read of the client of this number may give bytes.
    fn is_readable(&self, number: usize) -> bool {
        is_readable_at(&self.clients, number)
    }

    /// Asks the next request of the client of this number, if it has one and none is out. Those that can't be asked are refused.
    fn ask_next<W: Watch>(&mut self, number: usize, watch: &mut W, now: Option<Instant>)
        ensures still { AreStill self.old.clients self.new.clients }
        ensures hubs { self.new.desks.hubs ≡ self.old.desks.hubs }
    {
        for _request in 0..TURNS {
            if !self.ask_one(number, watch, now) {
                return;
            }
        }
    }

    /// Asks the next request of the client of this number, or refuses it. Whether a further one may be asked.
    fn ask_one<W: Watch>(&mut self, number: usize, watch: &mut W, now: Option<Instant>) -> bool
        ensures still { AreStill self.old.clients self.new.clients }
        ensures hubs { self.new.desks.hubs ≡ self.old.desks.hubs }
    {
        let Some(request) = next_request_at(&mut self.clients, number) else {
            return false;
        };
        watch.note_asked(&request);
        match self.asking.ask(number, &request) {
            Some(serial) => {
                note_asked_at(&mut self.clients, number, serial);
                false
            }
            None => {
                watch.note_answer(&request, &Err(DeskFault::Memory));
                refuse_at(&mut self.clients, number, now);
                true
            }
        }
    }

    /// What is to be done with the client of this number, now that it was served.
    fn settle(&mut self, number: usize)
        ensures left { AreLeft self.old.clients self.new.clients }
        ensures desks { self.new.desks ≡ self.old.desks }
    {
        match standing_at(&self.clients, number) {
            Standing::Waits => {}
            Standing::Due => self.touch(number),
            Standing::Over => self.drop_client(number),
        }
    }

    /// Gives all answers that are there to the clients that asked, which are then to be served. The answer to one that has gone is
    /// dropped.
    pub fn answer_all<W: Watch>(&mut self, watch: &mut W, now: Option<Instant>)
        ensures still { AreStill self.old.clients self.new.clients }
        ensures hubs { self.new.desks.hubs ≡ self.old.desks.hubs }
    {
        for _answer in 0..TURNS {
            if !self.answer_one(watch, now) {
                return;
            }
        }
    }

    /// Gives the next answer that is there to the client that asked. Whether there was one.
    fn answer_one<W: Watch>(&mut self, watch: &mut W, now: Option<Instant>) -> bool
        ensures still { AreStill self.old.clients self.new.clients }
        ensures hubs { self.new.desks.hubs ≡ self.old.desks.hubs }
    {
        let Some(answer) = self.asking.answer() else {
            return false;
        };
        watch.note_answer(&answer.request, &answer.outcome);
        let Some(number) = answer.client else {
            return true;
        };
        if answer_at(
            &mut self.clients,
            number,
            answer.serial,
            answer.outcome,
            now,
        ) {
            self.touch(number);
        }
        true
    }

    /// Whether no client is to be served.
    pub fn is_idle(&self) -> bool
        ensures { (result ≡ true) ↔ (self.now.touched ≡ []) }
    {
        self.touched.is_empty()
    }

    /// One turn at the hub of this number, under its lock. The same requests are open as before.
    pub fn turn<R: Wait>(
        &mut self,
        rt: &R,
        hubs: &Hubs<F, G>,
        pass: &mut Pass,
        hub: usize,
        came: Came,
        gives: &mut Gives,
    )
        ensures clients { self.new.clients ≡ self.old.clients }
        ensures touched { self.new.touched ≡ self.old.touched }
        ensures desks { AreSameRequests self.old.desks self.new.desks }
    {
        self.asking.turn(rt, hubs, pass, hub, came, gives);
    }

    /// Whether requests wait to begin at the hub of this number.
    pub fn waits(&self, hub: usize) -> bool
        ensures { (result ≡ true) ↔ (0 < entering_of self.now.desks hub) }
    {
        self.asking.waits(hub)
    }

    /// Whether requests were asked at the hub of this number since its last turn.
    pub fn is_asked(&self, hub: usize) -> bool
        ensures { result ≡ asked_of self.now.desks hub }
    {
        self.asking.is_asked(hub)
    }

    /// Whether the server was marked in the last turn at the hub of this number.
    pub fn is_marked(&self, hub: usize, server: ServerId) -> bool
        ensures { result ≡ is_known_marked (servers_of self.now.desks hub) server }
    {
        self.asking.is_marked(hub, server)
    }

    /// Closes the clients that have sent no byte and taken none for so long, though no request of them is out.
    pub fn expire(&mut self, now: Option<Instant>, limit: Option<Duration>)
        ensures left { AreLeft self.old.clients self.new.clients }
        ensures askers { AskersStay self.old.clients self.new.clients }
        ensures desks { self.new.desks ≡ self.old.desks }
    {
        for number in 0..self.clients.capacity() {
            self.expire_one(number, now, limit);
        }
    }

    /// Closes the client of this number, if it has sent no byte and taken none for so long, though no request of it is out.
    fn expire_one(&mut self, number: usize, now: Option<Instant>, limit: Option<Duration>)
        ensures left { AreLeft self.old.clients self.new.clients }
        ensures askers { AskersStay self.old.clients self.new.clients }
        ensures desks { self.new.desks ≡ self.old.desks }
    {
        if is_late_at(&self.clients, number, now, limit) {
            self.drop_client(number);
        }
    }

    /// Nothing more is read. What was read is asked and answered, and each client is closed once all that it is told is written.
    pub fn end_input(&mut self)
        ensures left { AreLeft self.old.clients self.new.clients }
        ensures desks { self.new.desks ≡ self.old.desks }
    {
        self.is_ending = true;
        self.end_each_input();
    }

    /// Nothing more is read of the clients that are there. They are to be served.
    fn end_each_input(&mut self)
        ensures left { AreLeft self.old.clients self.new.clients }
        ensures desks { self.new.desks ≡ self.old.desks }
    {
        for number in 0..self.clients.capacity() {
            self.end_input_of(number);
        }
    }

    /// Nothing more is read of the client of this number. It is to be served.
    fn end_input_of(&mut self, number: usize)
        ensures left { AreLeft self.old.clients self.new.clients }
        ensures desks { self.new.desks ≡ self.old.desks }
    {
        end_input_at(&mut self.clients, number);
        self.touch(number);
    }

    /// Closes all clients.
    pub fn close_all(&mut self)
        ensures none { self.new.clients.slots ≡ [] }
        ensures idle { self.new.touched ≡ [] }
        ensures desks { self.new.desks ≡ self.old.desks }
    {
        self.clients.clear();
        self.asking.forget_all();
        self.touched.clear();
    }

    /// The seats, and the receipts that were kept. An error is that there was no memory for all receipts.
    pub fn into_parts(self) -> (Seats<F, G>, Result<Vec<Receipt>, AllocError>)
        ensures seats { result.0 ≡ self.entry.desks.tallies }
        ensures receipts { IfOk result.1 (λ v. v.items ≡ self.entry.desks.receipts) }
    {
        let Clients { asking, .. } = self;
        asking.into_parts()
    }
}
