//! A request whose keys have several hubs.

ghost use Rattle.std.specs.Prelude.{◌≡◌, ◌≤◌, ℕ, [], false, true, None, Some, Option, Err, List, Ok, IfErr, IfOk, IfSome, length, map, slice_get, vec_capacity};
ghost use Rattle.std.specs.Arc.{arc_value};
ghost use Rattle.mcv_base.specs.declared.reply.Part.{Part as ReplyPart};
ghost use Rattle.mcv_desks.specs.Desks.{AsksHubs};
ghost use Rattle.mcv_desks.specs.Mixed.{IsDone, IsFilled, IsKeyAlone, IsKeyAnswer};
ghost use Rattle.mcv_session.specs.Desk.{answer_value};
ghost use Rattle.mcv_text.specs.Request.{request_value};

use crate::one_key::requests_of_keys;
use mcv_base::{Part, Request, key_words_have_one_reading};
use mcv_hubs::HubNames;
use mcv_session::DeskFault;
use mcv_turn::{Answer, Asker, key_count, value_bytes};
use std::alloc::{AllocError, Global};
use std::marker::{Model, PhantomData};
use std::sync::Arc;

/// The most keys of one request that are asked at a time.
const MOST_OPEN: usize = 1024;

/// A request of a session of which each key is asked alone, at the hubs that `F` stands for. Clauses see the request, how many of its
/// keys are answered, and why one has no reply.
#[derive(Drop)]
pub(crate) struct Mixed<F: HubNames> {
    serial: u64,
    /// The number that it has as a request of a session.
    number: u64,
    /// Among how many hubs its keys are.
    hubs: usize,
    request: Arc<Request>,
    of_keys: Vec<Arc<Request>>,
    /// The reply for each key that has one, by its number.
    replies: Vec<Option<Part>>,
    /// Where the replies are put in the end.
    parts: Vec<Part>,
    /// How many first keys were asked.
    asked: usize,
    /// How many of these are answered.
    answered: usize,
    /// Why a key has no reply.
    fault: Option<DeskFault>,
    /// The bytes of the values of the replies; no further key is asked once they are more than `most`.
    held: usize,
    most: usize,
    names: PhantomData<F>,
}

impl<F: HubNames> Model for Mixed<F> {
    ghost use Rattle.std.specs.Arc.{arc_value};
    ghost use Rattle.mcv_desks.specs.Mixed.{IsMixed, MixedView};

    ghost Value = { MixedView };

    ghost view = { λ m. record { request = record { serial = m.serial; number = m.number; hubs = m.hubs; asked = arc_value m.request }; answered = m.answered; fault = m.fault } };

    ghost invariant = { λ m. IsMixed F.opened_of (record { serial = m.serial; number = m.number; hubs = m.hubs; asked = arc_value m.request }) m.of_keys.items m.replies.items m.parts m.answered m.fault };
}

/// What is asked for one key of a request.
#[derive(Drop)]
pub(crate) struct KeyAlone {
    /// The number of the key, from 0.
    pub(crate) key: usize,
    pub(crate) request: Arc<Request>,
}

/// So many places without a reply.
fn no_replies(alloc: Global, count: usize) -> Result<Vec<Option<Part>>, AllocError>
    ensures many { IfOk result (λ v. length v.items ≡ count) }
    ensures none { IfOk result (λ v. (key : ℕ) (reply : Option ReplyPart) → slice_get v.items key ≡ Some reply → reply ≡ None) }
{
    let mut replies = Vec::with_capacity(alloc, count)?;
    for _key in 0..count {
        replies.push(None)?;
    }
    Ok(replies)
}

/// The replies, each of which is there, put where there is room for them.
fn joined(replies: Vec<Option<Part>>, parts: Vec<Part>) -> Vec<Part>
    requires each { (ps : List ReplyPart) × (replies.items ≡ map Some ps) }
    requires empty { parts.items ≡ [] }
    requires room { length replies.items ≤ vec_capacity parts }
    ensures { map Some result.items ≡ replies.items }
{
    let mut parts = parts;
    for reply in replies {
        parts.push_reserved(reply.unwrap());
    }
    parts
}

/// Whether there is a place for the reply to the key of this number, and it is empty.
fn is_vacant(replies: &[Option<Part>], key: usize) -> bool
    ensures { result ≡ true → slice_get replies.now key ≡ Some None }
{
    match replies.get(key) {
        Some(reply) => reply.is_none(),
        None => false,
    }
}

/// Puts a reply into its place, if that is empty. Whether it was.
fn fill(replies: &mut Vec<Option<Part>>, key: usize, part: Part) -> bool
    ensures filled { result ≡ true → IsFilled replies.old.items key part replies.new.items }
    ensures kept { result ≡ false → replies.new.items ≡ replies.old.items }
{
    if !is_vacant(replies.as_slice(), key) {
        return false;
    }
    let Some(place) = replies.get_mut(key) else {
        return false;
    };
    *place = Some(part);
    true
}

/// What is answered where a key has no reply for this reason, or each has one.
fn outcome_of(
    fault: Option<DeskFault>,
    replies: Vec<Option<Part>>,
    parts: Vec<Part>,
) -> Result<Vec<Part>, DeskFault>
    requires each { fault ≡ None → (ps : List ReplyPart) × (replies.items ≡ map Some ps) }
    requires empty { parts.items ≡ [] }
    requires room { length replies.items ≤ vec_capacity parts }
    ensures ok { IfOk result (λ v. (fault ≡ None) × (map Some v.items ≡ replies.items)) }
    ensures err { IfErr result (λ f. fault ≡ Some f) }
{
    match fault {
        Some(fault) => Err(fault),
        None => Ok(joined(replies, parts)),
    }
}

impl<F: HubNames> Mixed<F> {
    /// A request among so many hubs, of which no key was asked yet. No further key is asked once the values of its replies have more than
    /// `most` bytes together.
    pub(crate) fn new(
        alloc: Global,
        serial: u64,
        number: u64,
        hubs: usize,
        request: Arc<Request>,
        most: usize,
    ) -> Result<Mixed<F>, AllocError>
        ensures { IfOk result (λ m. m ≡ record { request = record { serial = serial; number = number; hubs = hubs; asked = arc_value request }; answered = 0; fault = None }) }
    {
        let words: &Request = &request;
        let of_keys = requests_of_keys(alloc, words)?;
        let count = key_count(words);
        let replies = no_replies(alloc, count)?;
        let parts = Vec::with_capacity(alloc, count)?;
        Ok(Mixed {
            serial,
            number,
            hubs,
            request,
            of_keys,
            replies,
            parts,
            asked: 0,
            answered: 0,
            fault: None,
            held: 0,
            most,
            names: PhantomData,
        })
    }

    /// The request that it was made of.
    pub(crate) fn request(&self) -> &Request
        ensures { result.now ≡ self.now.request.asked }
    {
        &self.request
    }

    /// Its serial number.
    pub(crate) fn serial(&self) -> u64
        ensures { result ≡ self.now.request.serial }
    {
        self.serial
    }

    /// What is asked for the next key; None while 1,024 keys are unanswered, or where one has no reply, as where there are values of too
    /// many bytes.
    pub(crate) fn next_key(&mut self) -> Option<KeyAlone>
        ensures same { self.new.request ≡ self.old.request }
        ensures key { IfSome result (λ k. IsKeyAlone self.old.request k.key (request_value (arc_value k.request))) }
    {
        if self.fault.is_some() || self.asked.saturating_sub(self.answered) >= MOST_OPEN {
            return None;
        }
        if self.held > self.most {
            self.fault = Some(DeskFault::Memory);
            return None;
        }
        let key = self.asked;
        let Some(alone) = self.of_keys.as_slice().get(key) else {
            return None;
        };
        match Arc::try_clone(alone) {
            Ok(request) => {
                self.asked = key.saturating_add(1);
                Some(KeyAlone { key, request })
            }
            Err(_) => {
                self.fault = Some(DeskFault::Memory);
                None
            }
        }
    }

    /// A key that was asked has no reply, for this reason.
    pub(crate) fn refuse(&mut self, fault: DeskFault)
        requires { AsksHubs F.opened_of self.old.request.hubs (request_value self.old.request.asked) (Err fault) }
        ensures { self.new.request ≡ self.old.request }
    {
        self.answered = self.answered.saturating_add(1);
        self.fault = Some(self.fault.unwrap_or(fault));
    }

    /// A key that was asked has the last one of these replies.
    fn keep(&mut self, key: usize, parts: Vec<Part>)
        requires { IsKeyAnswer F.opened_of self.old.request key (answer_value (Ok parts)) }
        ensures { self.new.request ≡ self.old.request }
    {
        key_words_have_one_reading();
        let mut parts = parts;
        let Some(part) = parts.pop() else {
            return;
        };
        let held = self.held.saturating_add(value_bytes(&part));
        if !fill(&mut self.replies, key, part) {
            return;
        }
        self.answered = self.answered.saturating_add(1);
        self.held = held;
    }

    /// A key that was asked is answered so.
    pub(crate) fn put(&mut self, key: usize, outcome: Result<Vec<Part>, DeskFault>)
        requires { IsKeyAnswer F.opened_of self.old.request key (answer_value outcome) }
        ensures { self.new.request ≡ self.old.request }
    {
        match outcome {
            Ok(parts) => self.keep(key, parts),
            Err(fault) => self.refuse(fault),
        }
    }

    /// Whether it can be answered: all keys that were asked are answered, and no further one is to be asked.
    pub(crate) fn is_done(&self) -> bool
        ensures { result ≡ true → IsDone self.now }
    {
        if self.answered != self.asked {
            return false;
        }
        if self.asked == self.of_keys.len() {
            return true;
        }
        self.fault.is_some()
    }

    /// Its answer, once it is done.
    pub(crate) fn into_answer(self) -> Answer
        requires { IsDone self }
        ensures asker { result.asker ≡ Asker.Session self.request.number }
        ensures request { arc_value result.request ≡ self.request.asked }
        ensures answer { AsksHubs F.opened_of self.request.hubs (request_value self.request.asked) (answer_value result.outcome) }
    {
        let Mixed {
            number,
            request,
            replies,
            parts,
            fault,
            ..
        } = self;
        let outcome = outcome_of(fault, replies, parts);
        Answer {
            asker: Asker::Session(number),
            request,
            outcome,
        }
    }
}
