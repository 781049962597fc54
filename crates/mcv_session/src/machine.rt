//! A session that waits for nobody: it is fed with bytes, gives requests one after the other, is given their answers,
//! and holds what is to be written.

ghost use Rattle.std.specs.Prelude.{◌≡◌, ◌≢◌, ◌↔◌, ◌<◌, ◌≤◌, ◌++◌, [], map, length, drop, None, Some, IfOk, OnOk, OnErr, MatchOption, ⊤, Err, Ok};
ghost use Rattle.std.specs.Option.{option_to_list};
ghost use Rattle.std.specs.Result.{IsErrOf};
ghost use Rattle.std.specs.Arc.{arc_value};
ghost use Rattle.mcv_base.specs.Reply.{part_value};
ghost use Rattle.mcv_text.specs.Request.{AskValue, asking, item_value, request_value};
ghost use Rattle.mcv_text.specs.Stream.{Awaits, Held};
ghost use Rattle.mcv_session.specs.Exchange.{by_desk, text_of};
ghost use Rattle.mcv_session.specs.Machine.{Fails, Feeds, History, Lived, Passes, Replies, unused};
ghost use Rattle.mcv_session.specs.Turns.{Asked, Passed, Turns};

use crate::desk::DeskFault;
use crate::item::ends;
use crate::outgoing::Outgoing;
use crate::phase::Phase;
use crate::session::SessionFault;
use crate::turn::Turn;
use mcv_base::{Part, Request};
use mcv_text::{Item, RequestReader, TextFault, reply_text};
use std::alloc::{AllocError, Global};
use std::collections::VecDeque;
use std::marker::Model;
use std::sync::Arc;

/// The most items for which room is kept where none waits.
const KEPT: usize = 16;

/// Puts items behind those that wait.
fn push_items(waiting: &mut VecDeque<Item>, items: Vec<Item>) -> Result<(), AllocError>
    ensures { OnOk result (map item_value waiting.new.items ≡ map item_value waiting.old.items ++ map item_value items.items) }
{
    for item in items {
        if waiting.push_back(item).is_err() {
            return Err(AllocError);
        }
    }
    Ok(())
}

/// Takes the first item that waits. Where none does, the room of more than 16 is given back.
fn take_first(waiting: &mut VecDeque<Item>) -> Option<Item>
    ensures items { waiting.old.items ≡ option_to_list result ++ waiting.new.items }
    ensures none { MatchOption result (waiting.old.items ≡ []) (λ _. ⊤) }
{
    match waiting.pop_front() {
        Some(item) => Some(item),
        None => {
            waiting.shrink_to(KEPT);
            None
        }
    }
}

/// A client's session that waits for nobody.
#[derive(Drop)]
pub struct Machine {
    alloc: Global,
    reader: RequestReader,
    waiting: VecDeque<Item>,
    request: Option<Arc<Request>>,
    output: Outgoing,
    phase: Phase,
}

impl Model for Machine {
    ghost use Rattle.std.specs.Prelude.{map};
    ghost use Rattle.std.specs.Option.{option_map};
    ghost use Rattle.std.specs.Arc.{arc_value};
    ghost use Rattle.mcv_text.specs.Request.{item_value, request_value};
    ghost use Rattle.mcv_session.specs.Machine.{MachineValue};

    ghost Value = { MachineValue };

    ghost view = { λ m. record { reader = m.reader; waiting = map item_value m.waiting.items; request = option_map (λ r. request_value (arc_value r)) m.request; output = m.output; phase = m.phase } };
}

impl Machine {
    /// A session that no byte has come to.
    pub fn new(alloc: Global) -> Machine
        ensures { result ≡ unused (Held []) }
    {
        Machine {
            alloc,
            reader: RequestReader::new(alloc),
            waiting: VecDeque::new(alloc),
            request: None,
            output: Outgoing::new(alloc),
            phase: Phase::Open,
        }
    }

    /// What is to be written, from its first byte on.
    pub fn output(&self) -> &[u8]
        ensures { result.now ≡ self.now.output }
    {
        self.output.bytes()
    }

    /// Whether it goes on.
    pub fn phase(&self) -> Phase
        ensures { result ≡ self.now.phase }
    {
        self.phase
    }

    /// The first `count` bytes of the output are written.
    pub fn wrote(&mut self, count: usize)
        requires { count ≤ length self.old.output }
        ensures { self.new ≡ record self.old { output = drop count self.old.output } }
    {
        self.output.wrote(count);
    }

    /// The whole output is written.
    pub fn wrote_all(&mut self)
        ensures { self.new ≡ record self.old { output = [] } }
    {
        self.output.clear();
    }

    fn fail(&mut self)
        ensures { Fails self.old self.new }
    {
        self.waiting.clear();
        self.request = None;
        self.phase = Phase::Failed;
    }

    /// Takes the next piece of the client's bytes.
    pub fn feed(&mut self, piece: &[u8]) -> Result<(), SessionFault>
        ensures ok { OnOk result (Feeds self.old piece.now self.new) }
        ensures ended { IsErrOf result SessionFault.Ended ↔ (self.old.phase ≢ Phase.Open) }
        ensures same { IsErrOf result SessionFault.Ended → self.new ≡ self.old }
        ensures memory { IsErrOf result SessionFault.Memory → Fails self.old self.new }
    {
        if self.phase != Phase::Open {
            return Err(SessionFault::Ended);
        }
        let items = match self.reader.feed(piece) {
            Ok(items) => items,
            Err(TextFault::Failed) => return Ok(()),
            Err(TextFault::Memory) => {
                self.fail();
                return Err(SessionFault::Memory);
            }
        };
        if push_items(&mut self.waiting, items).is_err() {
            self.fail();
            return Err(SessionFault::Memory);
        }
        Ok(())
    }

    /// Puts an answer behind what is to be written.
    fn put(&mut self, text: &[u8]) -> Result<(), AllocError>
        ensures ok { OnOk result (Replies (record self.old { request = None }) text.now self.new) }
        ensures err { OnErr result (Fails self.old self.new) }
    {
        self.request = None;
        if self.output.push(text).is_err() {
            self.fail();
            return Err(AllocError);
        }
        Ok(())
    }

    /// The request was answered with these replies, one for each key.
    pub fn answer(&mut self, parts: &[Part]) -> Result<(), SessionFault>
        ensures ok { OnOk result ((ask : AskValue) → self.old.request ≡ Some (asking ask) → Replies self.old (text_of (by_desk ask (Ok (map part_value parts.now)))) self.new) }
        ensures ended { IsErrOf result SessionFault.Ended ↔ (self.old.request ≡ None) }
        ensures same { IsErrOf result SessionFault.Ended → self.new ≡ self.old }
        ensures memory { IsErrOf result SessionFault.Memory → Fails self.old self.new }
    {
        let Some(request) = self.request.take() else {
            return Err(SessionFault::Ended);
        };
        if is_silent(&request) {
            return Ok(());
        }
        let Ok(text) = reply_text(self.alloc, &request, parts) else {
            self.fail();
            return Err(SessionFault::Memory);
        };
        match self.put(text.as_slice()) {
            Ok(()) => Ok(()),
            Err(_) => Err(SessionFault::Memory),
        }
    }

    /// The request was answered with a fault.
    pub fn refuse(&mut self, fault: DeskFault) -> Result<(), SessionFault>
        ensures ok { OnOk result ((ask : AskValue) → self.old.request ≡ Some (asking ask) → Replies self.old (text_of (by_desk ask (Err fault))) self.new) }
        ensures ended { IsErrOf result SessionFault.Ended ↔ (self.old.request ≡ None) }
        ensures same { IsErrOf result SessionFault.Ended → self.new ≡ self.old }
        ensures memory { IsErrOf result SessionFault.Memory → Fails self.old self.new }
    {
        let Some(request) = self.request.take() else {
            return Err(SessionFault::Ended);
        };
        if is_silent(&request) {
            return Ok(());
        }
        match self.put(fault.text().as_bytes()) {
            Ok(()) => Ok(()),
            Err(_) => Err(SessionFault::Memory),
        }
    }

    /// An item that is answered without a desk.
    fn pass(&mut self, text: &'static str, is_last: bool) -> Result<Turn, AllocError>
        requires { self.old.request ≡ None }
        ensures ok { IfOk result (λ turn. Passed self.old text.now is_last turn self.new) }
        ensures err { OnErr result (Fails self.old self.new) }
    {
        self.put(text.as_bytes())?;
        if is_last {
            self.waiting.clear();
            self.phase = Phase::Ended;
            return Ok(Turn::Ended);
        }
        Ok(Turn::Passed)
    }

    /// Gives a request out.
    fn ask(&mut self, request: Request) -> Result<Turn, AllocError>
        ensures ok { IfOk result (λ turn. Asked self.old (request_value request) turn self.new) }
        ensures err { OnErr result (Fails self.old self.new) }
    {
        match given(self.alloc, request) {
            Ok((kept, given)) => {
                self.request = Some(kept);
                Ok(Turn::Asks(given))
            }
            Err(_) => {
                self.fail();
                Err(AllocError)
            }
        }
    }

    /// Takes one item that waits.
    fn turn(&mut self) -> Result<Turn, AllocError>
        requires open { self.old.phase ≡ Phase.Open }
        requires free { self.old.request ≡ None }
        ensures ok { IfOk result (λ turn. Turns self.old turn self.new) }
        ensures err { OnErr result (Fails self.old self.new) }
    {
        let Some(item) = take_first(&mut self.waiting) else {
            return Ok(Turn::Idle);
        };
        let is_last = ends(&item);
        match item {
            Item::Refused(refusal) => self.pass(refusal.text(), is_last),
            Item::Asked(Request::Version) => self.pass("VERSION mcv 1\r\n", is_last),
            Item::Asked(Request::Quit) => self.pass("", is_last),
            Item::Asked(Request::Ask(ask)) => self.ask(Request::Ask(ask)),
        }
    }

    /// The next request, once the last one is answered. What waits before it is answered here.
    pub fn next_request(&mut self) -> Result<Option<Arc<Request>>, SessionFault>
        ensures lives { (from : Awaits) (h : History) → Lived from h self.old → Passes from h self.new }
        ensures asks { IfOk result (λ found. MatchOption found (self.new.request ≡ self.old.request)
            (λ r. ((ask : AskValue) × (request_value (arc_value r) ≡ asking ask)) × (self.new.request ≡ Some (request_value (arc_value r))) × (self.old.request ≡ None) × (self.new.phase ≡ Phase.Open) × (length self.new.waiting < length self.old.waiting))) }
        ensures idle { IfOk result (λ found. found ≡ None → self.new.request ≡ None → self.new.phase ≡ Phase.Open → self.new.waiting ≡ []) }
        ensures goes_on { OnOk result (self.new.phase ≡ Phase.Failed → self.old.phase ≡ Phase.Failed) }
        ensures err { OnErr result (self.new.phase ≡ Phase.Failed) }
    {
        if self.request.is_some() {
            return Ok(None);
        }
        while self.phase == Phase::Open {
            match self.turn() {
                Ok(Turn::Passed) => {}
                Ok(Turn::Idle) => return Ok(None),
                Ok(Turn::Ended) => return Ok(None),
                Ok(Turn::Asks(request)) => return Ok(Some(request)),
                Err(_) => return Err(SessionFault::Memory),
            }
        }
        Ok(None)
    }
}

/// Whether the client wants no reply.
fn is_silent(request: &Request) -> bool
    ensures { (ask : AskValue) → request_value request.now ≡ asking ask → result ≡ ask.noreply }
{
    match request {
        Request::Ask(ask) => ask.noreply,
        _ => false,
    }
}

/// The request twice: to be kept, and to be given out.
fn given(alloc: Global, request: Request) -> Result<(Arc<Request>, Arc<Request>), AllocError>
    ensures { IfOk result (λ two. (request_value (arc_value two.0) ≡ request_value request) × (request_value (arc_value two.1) ≡ request_value request)) }
{
    let kept = Arc::new(alloc, request)?;
    let given = kept.clone()?;
    Ok((kept, given))
}
