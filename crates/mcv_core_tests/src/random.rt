//! Random lists of events: the core answers as a second account of calls and legs does, and deletes are kept.

use crate::draw::{Deed, Dice, drawn};
use crate::expect::Expected;
use crate::ground::Ground;
use crate::model::Model;
use crate::setup::{opened, record, request, stored_after};
use mcv_base::{CallId, LegId, Moment, ServerId};
use mcv_core::{Answer, Core, Event, LegState};
use mcv_pools::Fnv;
use mcv_spool::SpoolRecord;
use std::process::Abort;
use std::sync::Arc;

/// The pools of all configurations.
const POOLS: &str =
    "{\"pools\":{\"A\":{\"servers\":[\"a:1\"]},\"B\":{\"servers\":[\"b:1\"]},\"C\":{\"servers\":[\"c:1\"]},\"D\":{\"servers\":[\"a:1\",\"b:1\",\"d:1\"]},\"E\":{\"servers\":[\"c:1\",\"d:1\"]}},";

/// A route a line, or a list of routes. The last five aren't covered.
const ROUTES: &str = "\
\"PoolRoute|A\"
\"PoolRoute|D\"
\"NullRoute\"
{\"type\":\"OperationSelectorRoute\",\"operation_policies\":{\"delete\":{\"type\":\"AllSyncRoute\",\"children\":[\"PoolRoute|A\",\"PoolRoute|B\"]}},\"default_policy\":{\"type\":\"FailoverRoute\",\"children\":[\"PoolRoute|A\",\"PoolRoute|B\"]}}
{\"type\":\"OperationSelectorRoute\",\"operation_policies\":{\"delete\":{\"type\":\"AllSyncRoute\",\"children\":[\"PoolRoute|A\",\"PoolRoute|B\"]}},\"default_policy\":{\"type\":\"MissFailoverRoute\",\"children\":[\"PoolRoute|A\",\"PoolRoute|B\"]}}
{\"type\":\"OperationSelectorRoute\",\"operation_policies\":{\"delete\":{\"type\":\"AllSyncRoute\",\"children\":[\"PoolRoute|A\",\"PoolRoute|B\"]}},\"default_policy\":{\"type\":\"WarmUpRoute\",\"cold\":\"PoolRoute|A\",\"warm\":\"PoolRoute|B\"}}
{\"type\":\"OperationSelectorRoute\",\"operation_policies\":{\"delete\":{\"type\":\"AllSyncRoute\",\"children\":[\"PoolRoute|A\",\"PoolRoute|B\",\"PoolRoute|C\"]}},\"default_policy\":{\"type\":\"WarmUpRoute\",\"cold\":\"PoolRoute|A\",\"warm\":{\"type\":\"WarmUpRoute\",\"cold\":\"PoolRoute|B\",\"warm\":\"PoolRoute|C\"}}}
{\"type\":\"OperationSelectorRoute\",\"operation_policies\":{\"delete\":{\"type\":\"AllSyncRoute\",\"children\":[\"PoolRoute|D\",\"PoolRoute|E\"]}},\"default_policy\":{\"type\":\"WarmUpRoute\",\"cold\":\"PoolRoute|D\",\"warm\":\"PoolRoute|E\"}}
{\"type\":\"OperationSelectorRoute\",\"operation_policies\":{\"delete\":{\"type\":\"AllSyncRoute\",\"children\":[\"PoolRoute|D\",\"PoolRoute|E\"]}},\"default_policy\":{\"type\":\"FailoverRoute\",\"children\":[\"PoolRoute|D\",\"PoolRoute|E\"]}}
{\"type\":\"OperationSelectorRoute\",\"operation_policies\":{\"get\":\"PoolRoute|A\",\"gets\":\"PoolRoute|B\",\"delete\":{\"type\":\"AllSyncRoute\",\"children\":[\"PoolRoute|A\",\"PoolRoute|B\",\"PoolRoute|C\"]}},\"default_policy\":\"PoolRoute|C\"}
{\"type\":\"OperationSelectorRoute\",\"operation_policies\":{\"delete\":{\"type\":\"AllInitialRoute\",\"children\":[\"PoolRoute|D\",\"PoolRoute|E\"]}},\"default_policy\":{\"type\":\"MissFailoverRoute\",\"children\":[\"PoolRoute|D\",\"PoolRoute|E\"]}}
{\"type\":\"OperationSelectorRoute\",\"operation_policies\":{\"delete\":{\"type\":\"AllAsyncRoute\",\"children\":[\"PoolRoute|D\",\"PoolRoute|E\"]}},\"default_policy\":{\"type\":\"FailoverRoute\",\"children\":[\"PoolRoute|E\",\"PoolRoute|D\"]}}
{\"type\":\"MigrateRoute\",\"from\":{\"type\":\"OperationSelectorRoute\",\"operation_policies\":{\"delete\":{\"type\":\"AllSyncRoute\",\"children\":[\"PoolRoute|A\",\"PoolRoute|B\"]}},\"default_policy\":{\"type\":\"FailoverRoute\",\"children\":[\"PoolRoute|A\",\"PoolRoute|B\"]}},\"to\":{\"type\":\"OperationSelectorRoute\",\"operation_policies\":{\"delete\":{\"type\":\"AllSyncRoute\",\"children\":[\"PoolRoute|B\",\"PoolRoute|C\"]}},\"default_policy\":{\"type\":\"FailoverRoute\",\"children\":[\"PoolRoute|B\",\"PoolRoute|C\"]}},\"start_time\":1000,\"interval\":100}
{\"type\":\"OperationSelectorRoute\",\"operation_policies\":{\"delete\":{\"type\":\"AllSyncRoute\",\"children\":[\"PoolRoute|A\",\"PoolRoute|B\"]}},\"default_policy\":{\"type\":\"WarmUpRoute\",\"cold\":\"PoolRoute|A\",\"warm\":{\"type\":\"FailoverRoute\",\"children\":[\"PoolRoute|B\",\"PoolRoute|A\"]}}}
{\"type\":\"MigrateRoute\",\"from\":\"PoolRoute|A\",\"to\":\"PoolRoute|B\",\"start_time\":1000,\"interval\":100}
{\"type\":\"MigrateRoute\",\"from\":\"PoolRoute|D\",\"to\":\"PoolRoute|E\",\"start_time\":1000,\"interval\":100}
{\"type\":\"OperationSelectorRoute\",\"operation_policies\":{\"delete\":{\"type\":\"AllSyncRoute\",\"children\":[\"PoolRoute|A\",\"PoolRoute|B\"]}},\"default_policy\":{\"type\":\"MigrateRoute\",\"from\":\"PoolRoute|A\",\"to\":\"PoolRoute|B\",\"start_time\":1000,\"interval\":100}}
{\"type\":\"MigrateRoute\",\"from\":{\"type\":\"AllSyncRoute\",\"children\":[\"PoolRoute|A\",\"PoolRoute|B\"]},\"to\":{\"type\":\"AllSyncRoute\",\"children\":[\"PoolRoute|B\",\"PoolRoute|C\"]},\"start_time\":1000,\"interval\":100}
{\"type\":\"OperationSelectorRoute\",\"operation_policies\":{\"get\":{\"type\":\"MigrateRoute\",\"from\":\"PoolRoute|A\",\"to\":\"PoolRoute|B\",\"start_time\":1000,\"interval\":100},\"delete\":{\"type\":\"AllSyncRoute\",\"children\":[\"PoolRoute|A\",\"PoolRoute|B\",\"PoolRoute|D\"]}},\"default_policy\":\"PoolRoute|D\"}
{\"type\":\"OperationSelectorRoute\",\"operation_policies\":{\"delete\":{\"type\":\"AllInitialRoute\",\"children\":[\"PoolRoute|A\",\"PoolRoute|B\"]}},\"default_policy\":\"PoolRoute|B\"}
{\"type\":\"OperationSelectorRoute\",\"operation_policies\":{\"delete\":{\"type\":\"AllInitialRoute\",\"children\":[\"PoolRoute|A\",\"PoolRoute|B\"]}},\"default_policy\":{\"type\":\"MissFailoverRoute\",\"children\":[\"PoolRoute|A\",\"PoolRoute|B\"]}}
{\"type\":\"OperationSelectorRoute\",\"operation_policies\":{\"delete\":{\"type\":\"AllInitialRoute\",\"children\":[\"PoolRoute|A\",\"PoolRoute|B\",\"PoolRoute|C\"]}},\"default_policy\":{\"type\":\"MissFailoverRoute\",\"children\":[\"PoolRoute|A\",\"PoolRoute|B\",\"PoolRoute|C\"]}}
{\"type\":\"OperationSelectorRoute\",\"operation_policies\":{\"delete\":{\"type\":\"AllInitialRoute\",\"children\":[\"PoolRoute|A\",{\"type\":\"FailoverRoute\",\"children\":[\"PoolRoute|B\",\"PoolRoute|C\"]}]}},\"default_policy\":{\"type\":\"FailoverRoute\",\"children\":[\"PoolRoute|A\",\"PoolRoute|B\"]}}
{\"type\":\"OperationSelectorRoute\",\"operation_policies\":{\"delete\":{\"type\":\"AllAsyncRoute\",\"children\":[\"PoolRoute|A\",\"PoolRoute|B\"]}},\"default_policy\":{\"type\":\"FailoverRoute\",\"children\":[\"PoolRoute|A\",\"PoolRoute|B\"]}}
{\"type\":\"OperationSelectorRoute\",\"operation_policies\":{\"delete\":{\"type\":\"AllAsyncRoute\",\"children\":[\"PoolRoute|A\",{\"type\":\"AllSyncRoute\",\"children\":[\"PoolRoute|B\",\"PoolRoute|C\"]}]}},\"default_policy\":{\"type\":\"MissFailoverRoute\",\"children\":[\"PoolRoute|A\",\"PoolRoute|B\"]}}
{\"type\":\"OperationSelectorRoute\",\"operation_policies\":{\"delete\":{\"type\":\"AllAsyncRoute\",\"children\":[\"PoolRoute|A\",\"PoolRoute|B\"]}},\"default_policy\":{\"type\":\"WarmUpRoute\",\"cold\":\"PoolRoute|A\",\"warm\":\"PoolRoute|B\"}}
{\"type\":\"OperationSelectorRoute\",\"operation_policies\":{\"delete\":{\"type\":\"AllAsyncRoute\",\"children\":[\"PoolRoute|A\",\"PoolRoute|B\"]}},\"default_policy\":{\"type\":\"MigrateRoute\",\"from\":\"PoolRoute|A\",\"to\":\"PoolRoute|B\",\"start_time\":1000,\"interval\":100}}
{\"type\":\"OperationSelectorRoute\",\"operation_policies\":{\"delete\":{\"type\":\"AllSyncRoute\",\"children\":[\"PoolRoute|A\",{\"type\":\"AllAsyncRoute\",\"children\":[\"PoolRoute|B\",\"PoolRoute|C\"]}]}},\"default_policy\":{\"type\":\"MissFailoverRoute\",\"children\":[\"PoolRoute|A\",\"PoolRoute|B\",\"PoolRoute|C\"]}}
{\"type\":\"OperationSelectorRoute\",\"operation_policies\":{\"delete\":{\"type\":\"AllSyncRoute\",\"children\":[\"PoolRoute|A\",{\"type\":\"AllInitialRoute\",\"children\":[\"PoolRoute|B\",\"PoolRoute|C\"]}]}},\"default_policy\":{\"type\":\"MissFailoverRoute\",\"children\":[\"PoolRoute|A\",\"PoolRoute|B\",\"PoolRoute|C\"]}}
{\"type\":\"OperationSelectorRoute\",\"operation_policies\":{\"delete\":{\"type\":\"AllSyncRoute\",\"children\":[\"PoolRoute|A\",\"PoolRoute|B\",\"PoolRoute|C\"]}},\"default_policy\":{\"type\":\"FailoverRoute\",\"children\":[\"PoolRoute|A\",{\"type\":\"MissFailoverRoute\",\"children\":[\"PoolRoute|B\",\"PoolRoute|C\"]}]}}
{\"type\":\"OperationSelectorRoute\",\"operation_policies\":{\"delete\":\"AllSyncRoute|Pool|D\"},\"default_policy\":\"PoolRoute|D\"}
{\"type\":\"OperationSelectorRoute\",\"operation_policies\":{\"delete\":\"AllAsyncRoute|Pool|D\"},\"default_policy\":\"PoolRoute|D\"}
{\"type\":\"PoolRoute\",\"pool\":\"A\",\"shadows\":[{\"target\":\"PoolRoute|B\",\"index_range\":[0,0]}]}
{\"type\":\"PoolRoute\",\"pool\":\"D\",\"shadows\":[{\"target\":{\"type\":\"AllSyncRoute\",\"children\":[\"PoolRoute|B\",\"PoolRoute|C\"]},\"index_range\":[0,0]},{\"target\":\"PoolRoute|E\",\"index_range\":[0,0]}]}
{\"type\":\"OperationSelectorRoute\",\"operation_policies\":{\"delete\":{\"type\":\"AllSyncRoute\",\"children\":[{\"type\":\"PoolRoute\",\"pool\":\"A\",\"shadows\":[{\"target\":\"PoolRoute|C\",\"index_range\":[0,0]}]},\"PoolRoute|B\"]}},\"default_policy\":{\"type\":\"FailoverRoute\",\"children\":[\"PoolRoute|A\",\"PoolRoute|B\"]}}
{\"type\":\"OperationSelectorRoute\",\"operation_policies\":{\"get\":{\"type\":\"FailoverRoute\",\"children\":[\"PoolRoute|A\",\"PoolRoute|B\"]},\"delete\":{\"type\":\"AllSyncRoute\",\"children\":[\"PoolRoute|A\",\"PoolRoute|B\"]}},\"default_policy\":{\"type\":\"PoolRoute\",\"pool\":\"A\",\"shadows\":[{\"target\":\"PoolRoute|B\",\"index_range\":[0,0]}]}}
{\"type\":\"AllSyncRoute\",\"children\":[\"PoolRoute|A\",\"PoolRoute|B\"]}
{\"type\":\"AllInitialRoute\",\"children\":[\"PoolRoute|A\",\"PoolRoute|B\"]}
{\"type\":\"AllAsyncRoute\",\"children\":[\"PoolRoute|A\",\"PoolRoute|B\"]}
{\"type\":\"OperationSelectorRoute\",\"operation_policies\":{\"delete\":{\"type\":\"FailoverRoute\",\"children\":[\"PoolRoute|A\",\"PoolRoute|B\"]}},\"default_policy\":\"PoolRoute|A\"}
{\"type\":\"OperationSelectorRoute\",\"operation_policies\":{\"delete\":{\"type\":\"MissFailoverRoute\",\"children\":[\"PoolRoute|A\",\"PoolRoute|B\"]}},\"default_policy\":\"PoolRoute|A\"}
{\"type\":\"OperationSelectorRoute\",\"operation_policies\":{\"delete\":{\"type\":\"AllSyncRoute\",\"children\":[{\"type\":\"FailoverRoute\",\"children\":[{\"type\":\"AllSyncRoute\",\"children\":[\"PoolRoute|A\",\"ErrorRoute\"]},\"PoolRoute|B\"]}]}},\"default_policy\":{\"type\":\"MissFailoverRoute\",\"children\":[\"PoolRoute|A\",\"PoolRoute|B\"]}}
{\"type\":\"OperationSelectorRoute\",\"operation_policies\":{\"delete\":\"NullRoute\"},\"default_policy\":\"ErrorRoute\"}
{\"type\":\"OperationSelectorRoute\",\"operation_policies\":{\"delete\":\"ErrorRoute\"},\"default_policy\":\"PoolRoute|A\"}
{\"type\":\"PrefixSelectorRoute\",\"policies\":{\"a\":\"PoolRoute|A\",\"b\":{\"type\":\"OperationSelectorRoute\",\"operation_policies\":{\"delete\":{\"type\":\"AllSyncRoute\",\"children\":[\"PoolRoute|B\",\"PoolRoute|C\"]}},\"default_policy\":{\"type\":\"MissFailoverRoute\",\"children\":[\"PoolRoute|B\",\"PoolRoute|C\"]}}},\"wildcard\":\"PoolRoute|C\"}
{\"type\":\"PrefixSelectorRoute\",\"policies\":{\"a\":{\"type\":\"OperationSelectorRoute\",\"operation_policies\":{\"delete\":{\"type\":\"AllInitialRoute\",\"children\":[\"PoolRoute|A\",\"PoolRoute|B\"]}},\"default_policy\":{\"type\":\"WarmUpRoute\",\"cold\":\"PoolRoute|A\",\"warm\":\"PoolRoute|B\"}},\"ab\":{\"type\":\"OperationSelectorRoute\",\"operation_policies\":{\"delete\":{\"type\":\"AllAsyncRoute\",\"children\":[\"PoolRoute|B\",\"PoolRoute|C\"]}},\"default_policy\":{\"type\":\"FailoverRoute\",\"children\":[\"PoolRoute|B\",\"PoolRoute|C\"]}}}}
{\"type\":\"WarmUpRoute\",\"cold\":\"PoolRoute|A\",\"warm\":\"PoolRoute|A\"}
{\"type\":\"FailoverRoute\",\"children\":[\"PoolRoute|A\",\"PoolRoute|A\"]}
[{\"aliases\":[\"/././\"],\"route\":\"PoolRoute|A\"},{\"aliases\":[\"/x/y/\",\"/x/z/\"],\"route\":{\"type\":\"OperationSelectorRoute\",\"operation_policies\":{\"delete\":{\"type\":\"AllSyncRoute\",\"children\":[\"PoolRoute|B\",\"PoolRoute|C\"]}},\"default_policy\":{\"type\":\"FailoverRoute\",\"children\":[\"PoolRoute|B\",\"PoolRoute|C\"]}}}]
[{\"aliases\":[\"/x/y/\"],\"route\":{\"type\":\"OperationSelectorRoute\",\"operation_policies\":{\"delete\":{\"type\":\"AllInitialRoute\",\"children\":[\"PoolRoute|A\",\"PoolRoute|B\"]}},\"default_policy\":{\"type\":\"WarmUpRoute\",\"cold\":\"PoolRoute|A\",\"warm\":\"PoolRoute|B\"}}}]
{\"type\":\"WarmUpRoute\",\"cold\":\"PoolRoute|A\",\"warm\":\"PoolRoute|B\"}
{\"type\":\"FailoverRoute\",\"children\":[\"PoolRoute|A\",\"PoolRoute|B\"]}
{\"type\":\"OperationSelectorRoute\",\"operation_policies\":{\"delete\":\"PoolRoute|A\"},\"default_policy\":{\"type\":\"MissFailoverRoute\",\"children\":[\"PoolRoute|A\",\"PoolRoute|B\"]}}
{\"type\":\"OperationSelectorRoute\",\"operation_policies\":{\"delete\":{\"type\":\"PoolRoute\",\"pool\":\"A\",\"shadows\":[{\"target\":\"PoolRoute|B\",\"index_range\":[0,0]}]}},\"default_policy\":{\"type\":\"FailoverRoute\",\"children\":[\"PoolRoute|A\",\"PoolRoute|B\"]}}
{\"type\":\"OperationSelectorRoute\",\"operation_policies\":{\"delete\":{\"type\":\"AllAsyncRoute\",\"children\":[{\"type\":\"FailoverRoute\",\"children\":[{\"type\":\"AllSyncRoute\",\"children\":[\"PoolRoute|A\",\"ErrorRoute\"]},\"PoolRoute|B\"]}]}},\"default_policy\":{\"type\":\"MissFailoverRoute\",\"children\":[\"PoolRoute|A\",\"PoolRoute|B\"]}}";

/// How many of them aren't covered.
const UNCOVERED: usize = 5;

/// How many lists of events each covered configuration has.
const LISTS: u64 = 200;

/// The most events of a list.
const EVENTS: usize = 60;

/// How much the lists have seen: some of each, so that no check is empty.
#[derive(Clone, Copy, Debug)]
struct Seen {
    lists: u64,
    performed: u64,
    spooled: u64,
    taken: u64,
    turned: u64,
    /// Legs that were sent while others of their server were in flight.
    beside: u64,
    /// Legs that acknowledged deletes keep.
    kept: u64,
}

impl Seen {
    fn nothing() -> Seen {
        Seen {
            lists: 0,
            performed: 0,
            spooled: 0,
            taken: 0,
            turned: 0,
            beside: 0,
            kept: 0,
        }
    }

    fn count(&mut self, deed: Deed, answer: &Answer) {
        let counter = match (deed, answer) {
            (_, Answer::State(LegState::Performed)) => &mut self.performed,
            (Deed::Spooled(_, _), Answer::State(_)) => &mut self.spooled,
            (_, Answer::Reply(Some(_))) => &mut self.taken,
            (Deed::Turn, Answer::Done) => &mut self.turned,
            _ => return,
        };
        *counter = counter.saturating_add(1);
    }

    fn is_enough(&self) -> bool {
        self.lists == 10_000
            && self.performed >= 2_000
            && self.spooled >= 1_000
            && self.taken >= 2_000
            && self.turned >= 2_000
            && self.beside >= 2_000
            && self.kept >= 2_000
    }
}

/// A configuration of a line.
fn text_of(rt: &(impl AllocGlobal + Abort), line: &str) -> String {
    let key = if line.starts_with('[') {
        "\"routes\":"
    } else {
        "\"route\":"
    };
    format!(in rt.alloc(); "{POOLS}{key}{line}}}").expect(rt, "memory")
}

/// A stored record of the leg, or one of another key.
fn spooled(rt: &(impl AllocGlobal + Abort), model: &Model<'_>, number: usize, own: bool) -> Event {
    let Some(leg) = model.legs.get(number) else {
        return Event::Lost(LegId(number as u64));
    };
    let server = model.ground.routes().servers().text(leg.launch.server);
    let server = server.expect(rt, "a server").as_bytes();
    let key = model.key(leg.key).expect(rt, "a key");
    let rest = if own { key.rest.as_bytes() } else { b"zz" };
    Event::Spooled(LegId(number as u64), stored_after(rt, 0, server, rest))
}

fn event_of(rt: &(impl AllocGlobal + Abort), model: &Model<'_>, deed: Deed) -> Event {
    match deed {
        Deed::Begin(op, key) => {
            let key = model.key(key).expect(rt, "a key");
            Event::Begin(request(rt, op, key.word), 0)
        }
        Deed::Next(server) => Event::Next(server),
        Deed::Answered(leg, say) => Event::Answered(LegId(leg as u64), say.parts(rt, leg)),
        Deed::Lost(leg) => Event::Lost(LegId(leg as u64)),
        Deed::LostToo(leg) => Event::LostToo(LegId(leg as u64)),
        Deed::Spooled(leg, own) => spooled(rt, model, leg, own),
        Deed::SpoolRefused(leg) => Event::SpoolRefused(LegId(leg as u64)),
        Deed::Replay(server) => Event::Replay(server),
        Deed::Mark(server) => Event::Mark(server),
        Deed::Unmark(server) => Event::Unmark(server),
        Deed::Clock(moment) => Event::Clock(Moment(moment)),
        Deed::Turn => Event::Turn,
        Deed::Take(call) => Event::Take(CallId(call as u64)),
    }
}

/// A record of a server and a key, which the spool holds when the core is opened.
fn record_of(
    rt: &(impl AllocGlobal + Abort),
    ground: &Ground,
    server: ServerId,
    key: usize,
) -> SpoolRecord {
    let text = ground.routes().servers().text(server).unwrap_or("x:1");
    let key = ground.keys.get(key).expect(rt, "a key");
    record(rt, text.as_bytes(), key.rest.as_bytes())
}

/// What is amiss, and after how many events of a list.
#[derive(Clone, Copy)]
struct Amiss {
    what: &'static str,
    events: usize,
}

/// A core with its model, and where the two weren't one for the first time.
#[derive(Drop)]
struct Run<'a> {
    core: Core<Fnv>,
    model: Model<'a>,
    events: usize,
    amiss: Option<Amiss>,
}

impl<'a> Run<'a> {
    /// Opens a core with up to two records. Up to three legs of a server may be in flight at a time.
    fn open(rt: &(impl AllocGlobal + Abort), ground: &'a Ground, dice: &mut Dice) -> Run<'a> {
        let limit = dice.below(3).saturating_add(1);
        let mut model = Model::new(rt, ground, limit);
        let mut records = Vec::new(rt.alloc());
        for seq in 0..dice.below(3) {
            let server = dice.below(ground.routes().servers().len().saturating_add(1));
            let server = ServerId(u32::try_from(server).unwrap_or(0));
            let key = dice.below(ground.keys.len());
            let record = record_of(rt, ground, server, key);
            records.push((seq as u64, record)).expect(rt, "memory");
            model.open(rt, server, key);
        }
        let accepted = Arc::try_clone(&ground.accepted).expect(rt, "memory");
        Run {
            core: opened(rt, accepted, records.as_slice(), limit),
            model,
            events: 0,
            amiss: None,
        }
    }

    /// The core takes in an event, and the model what the core answers. Whether it is the expected answer.
    fn agrees(
        &mut self,
        rt: &(impl AllocGlobal + Abort),
        deed: Deed,
        expected: Expected,
        seen: &mut Seen,
    ) -> bool {
        let event = event_of(rt, &self.model, deed);
        let beside = self.model.is_beside_others(deed);
        let answer = self.core.answer(rt.alloc(), event);
        let agrees = self.model.is_expected(rt, expected, &answer);
        seen.count(deed, &answer);
        if beside && matches!(answer, Answer::Leg(_)) {
            seen.beside = seen.beside.saturating_add(1);
        }
        self.model.take_in(rt, deed, &answer);
        agrees
    }

    /// An event, and whether the core and the model are one after it.
    fn step(
        &mut self,
        rt: &(impl AllocGlobal + Abort),
        deed: Deed,
        seen: &mut Seen,
    ) -> Result<(), &'static str> {
        let expected = self.model.expected(rt, deed);
        if !self.agrees(rt, deed, expected, seen) {
            return Err("the core's answer isn't the model's");
        }
        self.model.check_legs(&self.core)?;
        match (deed, expected) {
            (Deed::Turn, Expected::Done) => self.model.check_entries(&self.core),
            _ => Ok(()),
        }
    }

    fn found(&self, what: &'static str) -> Amiss {
        let events = self.events;
        Amiss { what, events }
    }

    /// The same, where the list goes on with what is amiss.
    fn go_on(&mut self, rt: &(impl AllocGlobal + Abort), deed: Deed, seen: &mut Seen) {
        self.events = self.events.saturating_add(1);
        if let Err(what) = self.step(rt, deed, seen) {
            if self.amiss.is_none() {
                self.amiss = Some(self.found(what));
            }
        }
    }

    /// What is amiss. Deletes are looked for first: a core that is wrong is shown by a delete that it lost, if it lost one.
    fn end(&self, rt: &(impl AllocGlobal + Abort), seen: &mut Seen) -> Option<Amiss> {
        seen.lists = seen.lists.saturating_add(1);
        match self.model.check_kept(rt, &self.core) {
            Ok(kept) => {
                seen.kept = seen.kept.saturating_add(kept as u64);
                self.amiss
            }
            Err(what) => Some(self.found(what)),
        }
    }
}

/// A list of events. What is amiss.
fn run_list(
    rt: &(impl AllocGlobal + Abort),
    ground: &Ground,
    seed: u64,
    seen: &mut Seen,
) -> Option<Amiss> {
    let mut dice = Dice::new(seed);
    let calm = dice.below(2) == 0;
    let mut run = Run::open(rt, ground, &mut dice);
    for _ in 0..dice.below(EVENTS.saturating_add(1)) {
        let deed = drawn(&mut dice, &run.model, calm);
        run.go_on(rt, deed, seen);
    }
    run.end(rt, seen)
}

/// The lists of one configuration.
fn run_lists(
    rt: &(impl AllocGlobal + Abort),
    line: &str,
    ground: &Ground,
    first: u64,
    seen: &mut Seen,
) {
    for number in 0..LISTS {
        let seed = first.wrapping_add(number);
        if let Some(Amiss { what, events }) = run_list(rt, ground, seed, seen) {
            panic!(rt; "{what}, {events} events into list {seed} of {line}");
        }
    }
}

/// The lists of the configuration of a line. Whether it is covered.
fn run_line(rt: &(impl AllocGlobal + Abort), number: usize, line: &str, seen: &mut Seen) -> bool {
    let text = text_of(rt, line);
    match Ground::of(rt, text.as_str()) {
        Some(mut ground) => {
            ground.read(rt);
            let first = (number as u64).wrapping_mul(1_000_000);
            run_lists(rt, line, &ground, first, seen);
            true
        }
        None => false,
    }
}

#[test]
fn random_events_keep_deletes(rt: HostRuntime) {
    let mut seen = Seen::nothing();
    let mut uncovered: usize = 0;
    for (number, line) in ROUTES.lines().enumerate() {
        if !run_line(&rt, number, line, &mut seen) {
            uncovered = uncovered.saturating_add(1);
        }
    }
    assert_eq!(rt; uncovered, UNCOVERED);
    assert!(rt; seen.is_enough(), "{seen:?}");
}
