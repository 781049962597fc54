//! What a proxy has counted up to one moment.

ghost use Rattle.std.specs.Prelude.{◌≡◌};
ghost use Rattle.mcv_metrics.specs.Counts.{client_count, hub_count, server_count, spool_count, word_counts};

use crate::metric::{ClientMetric, HubMetric, ServerMetric, SpoolMetric, WordMetric};

/// How often a word was counted.
#[derive(Drop)]
pub struct WordCount {
    pub word: String,
    pub number: u64,
}

/// What is counted by words.
#[derive(Drop)]
pub struct WordCounts {
    /// Calls that clients asked for, by operation.
    pub calls: Vec<WordCount>,
    /// Replies to these, by outcome.
    pub replies: Vec<WordCount>,
    /// Requests that were refused, by cause.
    pub refusals: Vec<WordCount>,
}

impl WordCounts {
    /// What a metric says.
    pub fn of(&self, metric: WordMetric) -> &[WordCount]
        ensures { result.now ≡ word_counts self.now metric }
    {
        match metric {
            WordMetric::Calls => self.calls.as_slice(),
            WordMetric::Replies => self.replies.as_slice(),
            WordMetric::Refusals => self.refusals.as_slice(),
        }
    }
}

/// What is counted of one server.
#[derive(Drop)]
pub struct ServerCounts {
    /// Its text, `host:port`.
    pub server: String,
    /// Legs begun, in all.
    pub sent: u64,
    /// Legs of these that got no reply, in all.
    pub lost: u64,
    /// Legs that waited to be sent to it when they were last counted.
    pub waiting: u64,
    /// How many hubs have marked it as down now.
    pub marked: u64,
    /// Deletes of the spool that it has performed, in all.
    pub replayed: u64,
}

impl ServerCounts {
    /// What a metric says of it.
    pub fn of(&self, metric: ServerMetric) -> u64
        ensures { result ≡ server_count self.now metric }
    {
        match metric {
            ServerMetric::Sent => self.sent,
            ServerMetric::Lost => self.lost,
            ServerMetric::Waiting => self.waiting,
            ServerMetric::Marked => self.marked,
            ServerMetric::Replayed => self.replayed,
        }
    }
}

/// What is counted of the spool.
#[derive(Clone, Copy, Default)]
pub struct SpoolCounts {
    /// Deletes that were written into it since the start.
    pub spooled: u64,
    /// Those in it that their servers haven't performed.
    pub pending: u64,
    /// The slots of its file that are used, those of deletes that were performed too.
    pub slots: u64,
    /// How many hubs have their records refused by it now.
    pub refusing: u64,
}

impl SpoolCounts {
    /// What a metric says of it.
    pub fn of(&self, metric: SpoolMetric) -> u64
        ensures { result ≡ spool_count self.now metric }
    {
        match metric {
            SpoolMetric::Spooled => self.spooled,
            SpoolMetric::Pending => self.pending,
            SpoolMetric::Slots => self.slots,
            SpoolMetric::Refusing => self.refusing,
        }
    }
}

/// What is known of a hub.
#[derive(Clone, Copy)]
pub struct HubCounts {
    /// Its number, from 0.
    pub hub: u64,
    /// The entries that its chapter has or may get.
    pub entries: u64,
    /// The bytes that it holds.
    pub bytes: u64,
    /// How many chapters of it have ended.
    pub turned: u64,
}

impl HubCounts {
    /// What a metric says of it.
    pub fn of(&self, metric: HubMetric) -> u64
        ensures { result ≡ hub_count self.now metric }
    {
        match metric {
            HubMetric::Entries => self.entries,
            HubMetric::Bytes => self.bytes,
            HubMetric::Turned => self.turned,
        }
    }
}

/// What is counted of the clients.
#[derive(Clone, Copy, Default)]
pub struct ClientCounts {
    /// Those that are connected now.
    pub connected: u64,
    /// Those accepted since the start.
    pub accepted: u64,
    /// Those refused since the start, since there were too many.
    pub refused: u64,
}

impl ClientCounts {
    /// What a metric says of them.
    pub fn of(&self, metric: ClientMetric) -> u64
        ensures { result ≡ client_count self.now metric }
    {
        match metric {
            ClientMetric::Connected => self.connected,
            ClientMetric::Accepted => self.accepted,
            ClientMetric::Refused => self.refused,
        }
    }
}

/// What has been counted up to one moment.
#[derive(Drop)]
pub struct Snapshot {
    pub words: WordCounts,
    pub servers: Vec<ServerCounts>,
    pub spool: SpoolCounts,
    pub hubs: Vec<HubCounts>,
    pub clients: ClientCounts,
    /// Seconds since the start.
    pub uptime: u64,
    /// The version of the program.
    pub version: u64,
}
