//! The numbers of a proxy.

ghost use Rattle.std.specs.Prelude.{◌≡◌, ◌<◌, IfOk, Some, length, map, slice_get, string_bytes, vec_len};
ghost use Rattle.std.specs.List.{range_with_len};
ghost use Rattle.std.specs.Option.{option_map};
ghost use Rattle.mcv_tally.specs.Tally.{HaveLevels, listed, tallied};
ghost use Rattle.mcv_tally.specs.Words.{causes, counted_words, operations, outcomes, tallied_words};

use crate::count::{Count, Level};
use crate::words;
use crate::words::{CAUSES, OPERATIONS, OUTCOMES, WordTally, cause_word, reply_word};
use mcv_base::{Op, Part, ServerId};
use mcv_metrics::{ClientCounts, HubCounts, ServerCounts, WordCounts};
use mcv_pools::Servers;
use mcv_session::DeskFault;
use std::alloc::{AllocError, Global};

/// What is counted of one server.
#[derive(Drop)]
pub struct ServerTally {
    /// Its text, `host:port`.
    pub server: String,
    /// Legs begun.
    pub sent: Count,
    /// Legs of these that got no reply.
    pub lost: Count,
    /// How often a hub marked it.
    pub marked: Count,
    /// How often it answered such a hub again.
    pub unmarked: Count,
    /// Deletes of the spool that it has performed.
    pub replayed: Count,
}

/// What is counted of the spool.
#[derive(Drop)]
pub struct SpoolTally {
    /// Deletes that were pending at the start.
    pub before: Level,
    /// Deletes that were written into it since.
    pub spooled: Count,
    /// The slots that its file has.
    pub slots: Level,
}

/// What is known of a hub.
#[derive(Drop)]
pub struct HubTally {
    /// The legs that waited for each server when they were last counted, in the order of the servers' numbers.
    pub waiting: Vec<Level>,
    /// The entries that its chapter has or may get.
    pub entries: Level,
    /// The bytes that it holds.
    pub bytes: Level,
    /// How many chapters of it have ended.
    pub turned: Level,
}

/// What is counted of clients.
#[derive(Drop)]
pub struct ClientTally {
    pub accepted: Count,
    /// Those of them that are gone.
    pub gone: Count,
    pub refused: Count,
}

/// What is counted while a proxy runs.
#[derive(Drop)]
pub struct Tally {
    /// Calls that clients asked for, by operation: one for each key of a request.
    pub calls: Vec<WordTally>,
    /// Replies to those of them that were answered, by outcome.
    pub replies: Vec<WordTally>,
    /// Requests that were refused, by cause.
    pub refusals: Vec<WordTally>,
    /// In the order of the servers' numbers.
    pub servers: Vec<ServerTally>,
    pub spool: SpoolTally,
    /// In the order of the hubs' numbers.
    pub hubs: Vec<HubTally>,
    pub clients: ClientTally,
    pub ghost words: { (tallied_words calls.items ≡ operations) × (tallied_words replies.items ≡ outcomes) × (tallied_words refusals.items ≡ causes) },
}

/// How much later and more often one thing happened than what comes behind it. That is read first, so that none of the
/// latter is counted whose former isn't.
fn left(before: &Count, behind: &Count) -> u64 {
    let behind = behind.now();
    before.now().saturating_sub(behind)
}

impl ServerTally {
    fn new(server: String) -> ServerTally
        ensures { result.server ≡ server }
    {
        ServerTally {
            server,
            sent: Count::new(),
            lost: Count::new(),
            marked: Count::new(),
            unmarked: Count::new(),
            replayed: Count::new(),
        }
    }

    /// What was counted of it up to now, where so many legs wait for it.
    fn counts(&self, alloc: Global, waiting: u64) -> Result<ServerCounts, AllocError>
        ensures server { IfOk result (λ counts. string_bytes counts.server ≡ string_bytes self.now.server) }
        ensures waiting { IfOk result (λ counts. counts.waiting ≡ waiting) }
    {
        let server = String::from_str(alloc, self.server.as_str())?;
        // Those that are lost first: each of them was begun.
        let lost = self.lost.now();
        Ok(ServerCounts {
            server,
            sent: self.sent.now(),
            lost,
            waiting,
            marked: left(&self.marked, &self.unmarked),
            replayed: self.replayed.now(),
        })
    }
}

impl SpoolTally {
    fn new() -> SpoolTally {
        SpoolTally {
            before: Level::new(),
            spooled: Count::new(),
            slots: Level::new(),
        }
    }
}

/// So many levels, at 0.
fn levels_of(alloc: Global, count: usize) -> Result<Vec<Level>, AllocError>
    ensures { IfOk result (λ levels. vec_len levels ≡ count) }
{
    let mut levels = Vec::new(alloc);
    for _server in 0..count {
        levels.push(Level::new())?;
    }
    Ok(levels)
}

impl HubTally {
    /// Nothing yet, where there are so many servers.
    fn new(alloc: Global, servers: usize) -> Result<HubTally, AllocError>
        ensures { IfOk result (λ hub. vec_len hub.waiting ≡ servers) }
    {
        Ok(HubTally {
            waiting: levels_of(alloc, servers)?,
            entries: Level::new(),
            bytes: Level::new(),
            turned: Level::new(),
        })
    }

    /// So many legs wait for each server, in the order of the servers' numbers.
    pub fn note_waiting(&self, counts: &[usize]) {
        for (server, count) in counts.iter().enumerate() {
            if let Some(level) = self.waiting.get(server) {
                level.set(*count as u64);
            }
        }
    }

    /// How many legs waited for the server of this number when they were last counted; 0 where there is no such server.
    fn waiting_for(&self, server: usize) -> u64 {
        match self.waiting.get(server) {
            Some(level) => level.now(),
            None => 0,
        }
    }

    /// What is known of the hub of this number.
    fn counts(&self, hub: u64) -> HubCounts
        ensures { result.hub ≡ hub }
    {
        HubCounts {
            hub,
            entries: self.entries.now(),
            bytes: self.bytes.now(),
            turned: self.turned.now(),
        }
    }
}

impl ClientTally {
    fn new() -> ClientTally {
        ClientTally {
            accepted: Count::new(),
            gone: Count::new(),
            refused: Count::new(),
        }
    }

    /// What was counted of them up to now.
    pub fn counts(&self) -> ClientCounts {
        ClientCounts {
            connected: left(&self.accepted, &self.gone),
            accepted: self.accepted.now(),
            refused: self.refused.now(),
        }
    }
}

/// The text of the server of this number.
#[tactic(auto, using(crate::proofs::Texts::text_there))]
fn text_of(servers: &Servers, id: ServerId) -> &str
    requires { id.0 < length servers.now }
    ensures { slice_get servers.now id.0 ≡ Some result.now }
{
    match servers.text(id) {
        Some(text) => text,
        None => unreachable!(),
    }
}

/// Nothing yet, of each of these servers.
#[tactic(auto, using(crate::proofs::Texts::tallied_more))]
fn tallies_of(alloc: Global, servers: &Servers) -> Result<Vec<ServerTally>, AllocError>
    ensures { IfOk result (λ tallies. tallied tallies.items ≡ servers.now) }
{
    let mut tallies = Vec::new(alloc);
    for number in 0..servers.len() {
        let text = text_of(servers, ServerId(number as u32));
        let server = String::from_str(alloc, text)?;
        tallies.push(ServerTally::new(server))?;
    }
    Ok(tallies)
}

/// Nothing yet, of so many hubs with so many servers.
#[tactic(auto, using(crate::proofs::Texts::levels_more))]
fn hubs_of(alloc: Global, count: usize, servers: usize) -> Result<Vec<HubTally>, AllocError>
    ensures count { IfOk result (λ hubs. vec_len hubs ≡ count) }
    ensures levels { IfOk result (λ hubs. HaveLevels servers hubs.items) }
{
    let mut hubs = Vec::new(alloc);
    for _number in 0..count {
        hubs.push(HubTally::new(alloc, servers)?)?;
    }
    Ok(hubs)
}

/// How many legs waited for the server of this number at all hubs, when they were last counted.
fn waiting_at(hubs: &[HubTally], server: usize) -> u64 {
    let mut legs = 0u64;
    for hub in hubs {
        legs = legs.saturating_add(hub.waiting_for(server));
    }
    legs
}

impl Tally {
    /// Nothing yet, of these servers, of so many hubs and of no clients.
    pub fn new(alloc: Global, servers: &Servers, hubs: usize) -> Result<Tally, AllocError>
        ensures servers { IfOk result (λ tally. tallied tally.servers.items ≡ servers.now) }
        ensures hubs { IfOk result (λ tally. vec_len tally.hubs ≡ hubs) }
        ensures levels { IfOk result (λ tally. HaveLevels (length servers.now) tally.hubs.items) }
    {
        Ok(Tally {
            calls: words::tallies_of(alloc, &OPERATIONS)?,
            replies: words::tallies_of(alloc, &OUTCOMES)?,
            refusals: words::tallies_of(alloc, &CAUSES)?,
            servers: tallies_of(alloc, servers)?,
            spool: SpoolTally::new(),
            hubs: hubs_of(alloc, hubs, servers.len())?,
            clients: ClientTally::new(),
        })
    }

    /// Counts the calls of a request for this operation, one for each of so many keys, as they are asked for: those to a server
    /// that never answers are among them.
    pub fn note_asked(&self, op: Op, keys: usize) {
        words::count_word(self.calls.as_slice(), op.name(), keys as u64);
    }

    /// Counts what a request came to: a reply for each key, or a refusal.
    pub fn note_answer(&self, answer: &Result<Vec<Part>, DeskFault>) {
        match answer {
            Ok(replies) => {
                for reply in replies {
                    words::count_word(self.replies.as_slice(), reply_word(reply), 1);
                }
            }
            Err(fault) => words::count_word(self.refusals.as_slice(), cause_word(*fault), 1),
        }
    }

    /// What was counted by words up to now. Replies come first: each was one of a call that is counted.
    pub fn words(&self, alloc: Global) -> Result<WordCounts, AllocError>
        ensures calls { IfOk result (λ counts. counted_words counts.calls.items ≡ tallied_words self.now.calls.items) }
        ensures replies { IfOk result (λ counts. counted_words counts.replies.items ≡ tallied_words self.now.replies.items) }
        ensures refusals { IfOk result (λ counts. counted_words counts.refusals.items ≡ tallied_words self.now.refusals.items) }
    {
        let replies = words::counts_of(alloc, self.replies.as_slice())?;
        Ok(WordCounts {
            calls: words::counts_of(alloc, self.calls.as_slice())?,
            replies,
            refusals: words::counts_of(alloc, self.refusals.as_slice())?,
        })
    }

    /// That of the server of this number.
    pub fn server(&self, number: usize) -> Option<&ServerTally>
        ensures { option_map (λ tally. tally.now) result ≡ slice_get self.now.servers.items number }
    {
        self.servers.get(number)
    }

    /// What was counted of each server up to now, in the order of their numbers.
    #[tactic(auto, using(crate::proofs::Texts::listed_more))]
    pub fn servers(&self, alloc: Global) -> Result<Vec<ServerCounts>, AllocError>
        ensures { IfOk result (λ counts. listed counts.items ≡ tallied self.now.servers.items) }
    {
        let mut counts = Vec::new(alloc);
        for (number, server) in self.servers.iter().enumerate() {
            let waiting = waiting_at(self.hubs.as_slice(), number);
            counts.push(server.counts(alloc, waiting)?)?;
        }
        Ok(counts)
    }

    /// What is known of each hub, in the order of their numbers.
    #[tactic(auto, using(crate::proofs::Texts::numbered_more))]
    pub fn hubs(&self, alloc: Global) -> Result<Vec<HubCounts>, AllocError>
        ensures { IfOk result (λ counts. map (λ c. c.hub) counts.items ≡ range_with_len 0 (vec_len self.now.hubs)) }
    {
        let mut counts = Vec::new(alloc);
        for (number, hub) in self.hubs.iter().enumerate() {
            counts.push(hub.counts(number as u64))?;
        }
        Ok(counts)
    }

    /// That of the hub of this number.
    pub fn hub(&self, number: usize) -> Option<&HubTally>
        ensures { option_map (λ tally. tally.now) result ≡ slice_get self.now.hubs.items number }
    {
        self.hubs.get(number)
    }
}
