//! The desks of a loop at all hubs.

ghost use Rattle.std.specs.Prelude.{◌≡◌, ◌≢◌, ◌↔◌, ◌<◌, ◌≤◌, ◌⊎◌, ℕ, true, Err, None, Ok, IfErr, IfNone, IfOk, IfSome, OnErr, OnOk, sum_by};
ghost use Rattle.std.specs.Arc.{arc_value};
ghost use Rattle.mcv_desks.specs.Asked.{AreSameMixed, AreSomeLeft, IfNotWhole, IfWhole, IsAnswerOf, IsNextKey, joined_of, mixed_at};
ghost use Rattle.mcv_desks.specs.Desks.{AsksHubs};
ghost use Rattle.mcv_desks.specs.Mixed.{IsKeyAnswer};
ghost use Rattle.mcv_desks.specs.Open.{AreInPlace, AreSameRequests, IsOneLess, IsOneMore, IsOpen, IsTakenAway, asked_of, entering_of, servers_of};
ghost use Rattle.mcv_session.specs.Desk.{answer_value};
ghost use Rattle.mcv_text.specs.Request.{RequestValue, request_value};
ghost use Rattle.mcv_turn.specs.Shown.{is_known_marked};
ghost use Rattle.mcv_turn.specs.Values.{value_bytes};

use crate::hub_desks::HubDesks;
use crate::mixed::Mixed;
use crate::one_hub::one_hub;
use mcv_base::{Part, Request, ServerId};
use mcv_hub::{Pass, Receipt};
use mcv_hubs::{HubChoice, HubNames, Hubs, MOST_HUBS, Names, Seats};
use mcv_session::DeskFault;
use mcv_turn::{Answer, Asker, Came, Gives, are_within};
use slab::Slab;
use std::alloc::{AllocError, Global};
use std::marker::Model;
use std::sync::{Arc, Wait};

/// More answers than come.
const TURNS: u64 = u64::MAX;

/// A desk at each hub, and the requests whose keys have several hubs. Clauses see how many hubs have keys, which requests are open, and
/// what each desk has noted.
#[derive(Drop)]
pub struct LoopDesks<'a, F: HubNames, G: Names> {
    alloc: Global,
    choice: &'a HubChoice,
    mixed: Slab<Mixed<F>>,
    /// The serial number of the next one of these.
    next: u64,
    /// How many bytes the values of an answer may have.
    most: usize,
    desks: HubDesks<'a, F, G>,
}

impl<'a, F: HubNames, G: Names> Model for LoopDesks<'a, F, G> {
    ghost use Rattle.mcv_desks.specs.Asked.{AreDesks, desks_view, mixed_at, questions_at};
    ghost use Rattle.mcv_desks.specs.Open.{DesksView};

    ghost Value = { DesksView };

    ghost view = { λ d. desks_view d.choice.now d.most d.mixed d.desks };

    ghost invariant = { λ d. AreDesks d.choice.now d.next (mixed_at d.mixed) (questions_at d.desks) };
}

/// The next key that is to be asked of a request of several hubs.
#[derive(Drop)]
struct NextKey {
    hub: usize,
    /// The serial number of the request.
    serial: u64,
    key: usize,
    /// What is asked for it.
    alone: Arc<Request>,
}

/// What comes of the next answer of one desk.
#[derive(Drop)]
enum Joined {
    /// There was none.
    Nothing,
    /// It is for one key of a request, and others are missing.
    Reply,
    /// A request of a session is answered.
    Whole(Answer),
}

/// What comes of an answer for one key, where this answers the request, if it does.
fn joined_of(whole: Option<Answer>) -> Joined
    ensures { result ≡ joined_of whole }
{
    match whole {
        Some(answer) => Joined::Whole(answer),
        None => Joined::Reply,
    }
}

/// The same, or, where the values of the replies have more than so many bytes, that memory has run out.
fn limited(outcome: Result<Vec<Part>, DeskFault>, most: usize) -> Result<Vec<Part>, DeskFault>
    ensures within { IfOk result (λ parts. sum_by value_bytes parts.items ≤ most) }
    ensures ok { IfOk result (λ parts. outcome ≡ Ok parts) }
    ensures err { IfErr result (λ fault. (outcome ≡ Err fault) ⊎ ((fault ≡ DeskFault.Memory) × IfOk outcome (λ parts. most < sum_by value_bytes parts.items))) }
{
    match outcome {
        Ok(parts) => {
            if are_within(parts.as_slice(), most) {
                Ok(parts)
            } else {
                Err(DeskFault::Memory)
            }
        }
        Err(fault) => Err(fault),
    }
}

/// The next key that is to be asked of the request at this place; None where there is none.
fn next_key<F: HubNames>(
    choice: &HubChoice,
    mixed: &mut Slab<Mixed<F>>,
    place: usize,
) -> Option<NextKey>
    ensures same { AreSameMixed mixed.old mixed.new }
    ensures key { IfSome result (λ k. IsNextKey choice.now (mixed_at mixed.old place) k) }
    ensures there { IfSome result (λ k. k.hub < 8) }
{
    let Some(one) = mixed.get_mut(place) else {
        return None;
    };
    let Some(alone) = one.next_key() else {
        return None;
    };
    Some(NextKey {
        hub: choice.hub_of_key(one.request(), alone.key),
        serial: one.serial(),
        key: alone.key,
        alone: alone.request,
    })
}

/// For want of memory a key of the request at this place isn't asked.
fn refuse_at<F: HubNames>(mixed: &mut Slab<Mixed<F>>, place: usize)
    ensures { AreSameMixed mixed.old mixed.new }
{
    let Some(one) = mixed.get_mut(place) else {
        return;
    };
    one.refuse(DeskFault::Memory);
}

/// A key of the request at this place is answered so, if that has this serial number.
fn put_at<F: HubNames>(
    mixed: &mut Slab<Mixed<F>>,
    place: usize,
    serial: u64,
    key: usize,
    outcome: Result<Vec<Part>, DeskFault>,
)
    requires { IfSome (mixed_at mixed.old place) (λ q. q.serial ≡ serial → IsKeyAnswer F.opened_of q key (answer_value outcome)) }
    ensures { AreSameMixed mixed.old mixed.new }
{
    let Some(one) = mixed.get_mut(place) else {
        return;
    };
    if one.serial() != serial {
        return;
    }
    one.put(key, outcome);
}

/// Takes the request at this place away, if it is done: its answer.
fn take_done<F: HubNames>(mixed: &mut Slab<Mixed<F>>, place: usize) -> Option<Answer>
    ensures answer { IfSome result (λ a. IsAnswerOf F.opened_of (mixed_at mixed.old place) a.asker (request_value (arc_value a.request)) (answer_value a.outcome)) }
    ensures gone { IfSome result (λ a. mixed_at mixed.new place ≡ None) }
    ensures others { (other : ℕ) → other ≢ place → mixed_at mixed.new other ≡ mixed_at mixed.old other }
    ensures none { IfNone result (AreSameMixed mixed.old mixed.new) }
    ensures left { AreSomeLeft (mixed_at mixed.old) (mixed_at mixed.new) }
{
    let Some(one) = mixed.get(place) else {
        return None;
    };
    if !one.is_done() {
        return None;
    }
    let Some(done) = mixed.try_remove(place) else {
        return None;
    };
    Some(done.into_answer())
}

impl<'a, F: HubNames, G: Names> LoopDesks<'a, F, G> {
    /// Desks that were asked nothing, whose answers may have values of so many bytes together. An error is that memory ran out.
    pub fn new(
        alloc: Global,
        hubs: &'a Hubs<F, G>,
        seats: Seats<F, G>,
        most: usize,
    ) -> Result<LoopDesks<'a, F, G>, AllocError>
        ensures hubs { IfOk result (λ d. d.hubs ≡ hubs.now.choice) }
        ensures most { IfOk result (λ d. d.most ≡ most) }
        ensures none { IfOk result (λ d. (number : ℕ) (request : RequestValue) → IsOpen d number request → ⊥) }
    {
        let desks = HubDesks::new(alloc, hubs, seats, most)?;
        let mixed = Slab::new(alloc);
        Ok(LoopDesks {
            alloc,
            choice: &hubs.choice,
            mixed,
            next: 0,
            most,
            desks,
        })
    }

    /// Takes a request of a session, which has this number: the next turns begin calls for its keys at their hubs. An error is that memory
    /// ran out, or that 2^64 - 1 requests of several hubs were asked, and nothing was asked then.
    pub fn ask(&mut self, number: u64, request: Arc<Request>) -> Result<(), AllocError>
        ensures asked { OnOk result (IsOneMore self.old self.new number (request_value (arc_value request))) }
        ensures err { OnErr result (AreSameRequests self.old self.new) }
    {
        match one_hub(self.choice, &request) {
            Some(hub) => self.desks.ask_at(hub, Asker::Session(number), request),
            None => self.ask_mixed(number, request),
        }
    }

    /// Takes a request whose keys have several hubs.
    fn ask_mixed(&mut self, number: u64, request: Arc<Request>) -> Result<(), AllocError>
        ensures asked { OnOk result (IsOneMore self.old self.new number (request_value (arc_value request))) }
        ensures err { OnErr result (AreSameRequests self.old self.new) }
    {
        let Some(next) = self.next.checked_add(1) else {
            return Err(AllocError);
        };
        let hubs = self.choice.hubs();
        let mixed = Mixed::new(self.alloc, self.next, number, hubs, request, self.most)?;
        let place = self.mixed.insert(mixed)?;
        self.next = next;
        self.ask_keys(place);
        if self.take_done(place).is_some() {
            // There was no memory to ask the first key: no answer will come.
            return Err(AllocError);
        }
        Ok(())
    }

    /// Asks further keys of a request of several hubs, each alone at its hub.
    fn ask_keys(&mut self, place: usize)
        ensures { AreInPlace self.old self.new }
    {
        for _key in 0..TURNS {
            if !self.ask_key(place) {
                return;
            }
        }
    }

    /// Asks the next key of a request of several hubs alone at its hub. Whether a further one may be asked.
    fn ask_key(&mut self, place: usize) -> bool
        ensures { AreInPlace self.old self.new }
    {
        let Some(next) = next_key(self.choice, &mut self.mixed, place) else {
            return false;
        };
        let asker = Asker::Key {
            request: place,
            serial: next.serial,
            key: next.key,
        };
        match self.desks.ask_at(next.hub, asker, next.alone) {
            Ok(()) => true,
            Err(_) => {
                refuse_at(&mut self.mixed, place);
                false
            }
        }
    }

    /// The next answer to a request of a session, from replies of the hubs of its keys, in the order of the keys; None where none is
    /// there. Where their values have too many bytes, it is that memory has run out.
    pub fn answer(&mut self) -> Option<Answer>
        ensures answered { IfSome result (λ a. (number : ℕ) × (a.asker ≡ Asker.Session number) × IsOneLess self.old self.new number (request_value (arc_value a.request))) }
        ensures none { IfNone result (AreSameRequests self.old self.new) }
        ensures answer { IfSome result (λ a. AsksHubs F.opened_of self.old.hubs (request_value (arc_value a.request)) (answer_value a.outcome)) }
        ensures within { IfSome result (λ a. IfOk a.outcome (λ parts. sum_by value_bytes parts.items ≤ self.old.most)) }
    {
        for hub in 0..MOST_HUBS {
            if let Some(answer) = self.answer_of(hub) {
                let Answer {
                    asker,
                    request,
                    outcome,
                } = answer;
                let outcome = limited(outcome, self.most);
                return Some(Answer {
                    asker,
                    request,
                    outcome,
                });
            }
        }
        None
    }

    /// The next answer to a request of a session that the desk at the hub of this number gives.
    fn answer_of(&mut self, hub: usize) -> Option<Answer>
        requires { hub < 8 }
        ensures answered { IfSome result (λ a. (number : ℕ) × (a.asker ≡ Asker.Session number) × IsOneLess self.old self.new number (request_value (arc_value a.request))) }
        ensures none { IfNone result (AreSameRequests self.old self.new) }
        ensures answer { IfSome result (λ a. AsksHubs F.opened_of self.old.hubs (request_value (arc_value a.request)) (answer_value a.outcome)) }
    {
        for _answer in 0..TURNS {
            match self.next_of(hub) {
                Joined::Nothing => return None,
                Joined::Reply => {}
                Joined::Whole(answer) => return Some(answer),
            }
        }
        None
    }

    /// Takes the next answer of the desk at the hub of this number.
    fn next_of(&mut self, hub: usize) -> Joined
        requires { hub < 8 }
        ensures answered { IfWhole result (λ a. (number : ℕ) × (a.asker ≡ Asker.Session number) × IsOneLess self.old self.new number (request_value (arc_value a.request))) }
        ensures none { IfNotWhole result (AreSameRequests self.old self.new) }
        ensures answer { IfWhole result (λ a. AsksHubs F.opened_of self.old.hubs (request_value (arc_value a.request)) (answer_value a.outcome)) }
    {
        let Some(answer) = self.desks.answer_at(hub) else {
            return Joined::Nothing;
        };
        match answer.asker {
            Asker::Session(_) => Joined::Whole(answer),
            Asker::Key {
                request,
                serial,
                key,
            } => {
                put_at(&mut self.mixed, request, serial, key, answer.outcome);
                self.ask_keys(request);
                joined_of(self.take_done(request))
            }
        }
    }

    /// Takes the request of several hubs at this place away, if it is done: its answer.
    fn take_done(&mut self, place: usize) -> Option<Answer>
        ensures taken { IfSome result (λ a. (number : ℕ) × (a.asker ≡ Asker.Session number) × IsTakenAway self.old self.new place number (request_value (arc_value a.request))) }
        ensures none { IfNone result (AreInPlace self.old self.new) }
        ensures answer { IfSome result (λ a. AsksHubs F.opened_of self.old.hubs (request_value (arc_value a.request)) (answer_value a.outcome)) }
    {
        take_done(&mut self.mixed, place)
    }

    /// One turn at the hub of this number, under its lock. The same requests are open as before.
    pub fn turn<R: Wait>(
        &mut self,
        rt: &R,
        hubs: &Hubs<F, G>,
        pass: &mut Pass,
        hub: usize,
        came: Came,
        gives: &mut Gives,
    )
        ensures { AreSameRequests self.old self.new }
    {
        self.desks.turn(rt, hubs, pass, hub, came, gives);
    }

    /// Whether requests were asked at the hub of this number since its last turn.
    pub fn is_asked(&self, hub: usize) -> bool
        ensures { result ≡ asked_of self.now hub }
    {
        self.desks.is_asked(hub)
    }

    /// Whether requests wait to begin at the hub of this number.
    pub fn waits(&self, hub: usize) -> bool
        ensures { (result ≡ true) ↔ (0 < entering_of self.now hub) }
    {
        self.desks.waits(hub)
    }

    /// Whether the server was marked at the end of the last turn at the hub of this number.
    pub fn is_marked(&self, hub: usize, server: ServerId) -> bool
        ensures { result ≡ is_known_marked (servers_of self.now hub) server }
    {
        self.desks.is_marked(hub, server)
    }

    /// The seats, and the receipts that were kept, those of the first hub first. An error is that there was no memory for all receipts.
    pub fn into_parts(self) -> (Seats<F, G>, Result<Vec<Receipt>, AllocError>)
        ensures seats { result.0 ≡ self.entry.tallies }
        ensures receipts { IfOk result.1 (λ v. v.items ≡ self.entry.receipts) }
    {
        let LoopDesks { desks, .. } = self;
        desks.into_parts()
    }
}
