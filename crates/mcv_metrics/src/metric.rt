//! The families of the text.

ghost use Rattle.std.specs.Prelude.{◌≡◌};
ghost use Rattle.mcv_metrics.specs.Metrics.{kind_name, metric_help, metric_kind, metric_name, word_label};

/// Whether a number only grows while the program runs, or may fall too.
#[derive(Clone, Copy, Debug, PartialEq, Eq)]
pub enum Kind {
    Counter,
    Gauge,
}

impl Kind {
    /// Its word in the text.
    pub fn name(self) -> &'static str
        ensures { result.now ≡ kind_name self }
    {
        match self {
            Kind::Counter => "counter",
            Kind::Gauge => "gauge",
        }
    }
}

/// What is counted by words: one number for each word.
#[derive(Clone, Copy, Debug, PartialEq, Eq)]
pub enum WordMetric {
    /// By operation.
    Calls,
    /// By outcome.
    Replies,
    /// By cause.
    Refusals,
}

impl WordMetric {
    /// What its words name.
    pub fn label(self) -> &'static str
        ensures { result.now ≡ word_label self }
    {
        match self {
            WordMetric::Calls => "operation",
            WordMetric::Replies => "outcome",
            WordMetric::Refusals => "cause",
        }
    }
}

/// What is said of each server.
#[derive(Clone, Copy, Debug, PartialEq, Eq)]
pub enum ServerMetric {
    Sent,
    Lost,
    Waiting,
    Marked,
    Replayed,
}

/// What is said of the spool.
#[derive(Clone, Copy, Debug, PartialEq, Eq)]
pub enum SpoolMetric {
    Spooled,
    Pending,
    Slots,
    Refusing,
}

/// What is said of each hub.
#[derive(Clone, Copy, Debug, PartialEq, Eq)]
pub enum HubMetric {
    Entries,
    Bytes,
    Turned,
}

/// What is said of the clients.
#[derive(Clone, Copy, Debug, PartialEq, Eq)]
pub enum ClientMetric {
    Connected,
    Accepted,
    Refused,
}

/// A family of the text.
#[derive(Clone, Copy, Debug, PartialEq, Eq)]
pub enum Metric {
    Words(WordMetric),
    Servers(ServerMetric),
    Spool(SpoolMetric),
    Hubs(HubMetric),
    Clients(ClientMetric),
    Uptime,
    Build,
}

impl Metric {
    /// Its name.
    pub fn name(self) -> &'static str
        ensures { result.now ≡ metric_name self }
    {
        match self {
            Metric::Words(WordMetric::Calls) => "mcv_calls_total",
            Metric::Words(WordMetric::Replies) => "mcv_replies_total",
            Metric::Words(WordMetric::Refusals) => "mcv_refusals_total",
            Metric::Servers(ServerMetric::Sent) => "mcv_legs_sent_total",
            Metric::Servers(ServerMetric::Lost) => "mcv_legs_lost_total",
            Metric::Servers(ServerMetric::Waiting) => "mcv_legs_waiting",
            Metric::Servers(ServerMetric::Marked) => "mcv_server_marked",
            Metric::Servers(ServerMetric::Replayed) => "mcv_records_replayed_total",
            Metric::Spool(SpoolMetric::Spooled) => "mcv_records_spooled_total",
            Metric::Spool(SpoolMetric::Pending) => "mcv_records_pending",
            Metric::Spool(SpoolMetric::Slots) => "mcv_spool_slots",
            Metric::Spool(SpoolMetric::Refusing) => "mcv_spool_refusing",
            Metric::Hubs(HubMetric::Entries) => "mcv_chapter_entries",
            Metric::Hubs(HubMetric::Bytes) => "mcv_chapter_bytes",
            Metric::Hubs(HubMetric::Turned) => "mcv_chapters_turned_total",
            Metric::Clients(ClientMetric::Connected) => "mcv_clients",
            Metric::Clients(ClientMetric::Accepted) => "mcv_clients_accepted_total",
            Metric::Clients(ClientMetric::Refused) => "mcv_clients_refused_total",
            Metric::Uptime => "mcv_uptime_seconds",
            Metric::Build => "mcv_build_info",
        }
    }

    /// What it says, for a reader.
    pub fn help(self) -> &'static str
        ensures { result.now ≡ metric_help self }
    {
        match self {
            Metric::Words(WordMetric::Calls) => "Calls that clients asked for, by operation.",
            Metric::Words(WordMetric::Replies) => "Replies to these calls, by outcome.",
            Metric::Words(WordMetric::Refusals) => "Requests that were refused, by cause.",
            Metric::Servers(ServerMetric::Sent) => "Legs begun, by server.",
            Metric::Servers(ServerMetric::Lost) => "Legs that got no reply, by server.",
            Metric::Servers(ServerMetric::Waiting) => {
                "Legs that waited to be sent when they were last counted, by server."
            }
            Metric::Servers(ServerMetric::Marked) => {
                "Hubs that have marked the server as down, by server."
            }
            Metric::Servers(ServerMetric::Replayed) => {
                "Deletes of the spool that the server has performed, by server."
            }
            Metric::Spool(SpoolMetric::Spooled) => "Deletes that were written into the spool.",
            Metric::Spool(SpoolMetric::Pending) => {
                "Deletes in the spool that their servers haven't performed."
            }
            Metric::Spool(SpoolMetric::Slots) => {
                "Slots of the spool's file that are used, of 1000000."
            }
            Metric::Spool(SpoolMetric::Refusing) => "Hubs whose records the spool refuses.",
            Metric::Hubs(HubMetric::Entries) => "Entries that the chapter has or may get, by hub.",
            Metric::Hubs(HubMetric::Bytes) => "Bytes that the chapter holds, by hub.",
            Metric::Hubs(HubMetric::Turned) => "Chapters that have ended, by hub.",
            Metric::Clients(ClientMetric::Connected) => "Clients that are connected.",
            Metric::Clients(ClientMetric::Accepted) => "Clients that were accepted.",
            Metric::Clients(ClientMetric::Refused) => {
                "Clients that were refused, since there were too many."
            }
            Metric::Uptime => "Seconds since the start.",
            Metric::Build => "1, by the version of the program.",
        }
    }

    /// Whether it only grows.
    pub fn kind(self) -> Kind
        ensures { result ≡ metric_kind self }
    {
        match self {
            Metric::Words(_)
            | Metric::Servers(ServerMetric::Sent)
            | Metric::Servers(ServerMetric::Lost)
            | Metric::Servers(ServerMetric::Replayed)
            | Metric::Spool(SpoolMetric::Spooled)
            | Metric::Hubs(HubMetric::Turned)
            | Metric::Clients(ClientMetric::Accepted)
            | Metric::Clients(ClientMetric::Refused) => Kind::Counter,
            _ => Kind::Gauge,
        }
    }
}
