//! What `check` and `run` are asked for. Each number has a type of its own, which keeps it in the range of its option's row.

ghost use Rattle.std.specs.Prelude.{◌≡◌, ◌↔◌, ◌≤◌, ℕ, IfSome, IsSome};
ghost use Rattle.mcv_words.specs.Table.{NumberOption, answer_bytes_option, client_timeout_option, hubs_option, max_clients_option, option_of, server_timeout_option, sessions_option, window_option};

use crate::table::{
    ANSWER_BYTES, CLIENT_TIMEOUT, HUBS, MAX_CLIENTS, NumberRow, SERVER_TIMEOUT, SESSIONS, WINDOW,
};

/// A number that an option takes.
pub trait InRange: Drop + Sized {
    ghost option: { NumberOption };

    ghost value: { Self → ℕ };

    /// The row of the option.
    fn row() -> NumberRow
        ensures { option_of result ≡ option };

    /// This number; None where it is out of the option's range.
    fn new(number: u64) -> Option<Self>
        ensures some { IsSome result ↔ ((option.least ≤ number) × (number ≤ option.most)) }
        ensures value { IfSome result (λ made. value made ≡ number) };
}

/// After how many sessions a run ends, from 1 to 1,000,000,000.
#[derive(Clone, Copy, Debug, PartialEq, Eq)]
pub struct Sessions {
    pub count: u64,
    pub ghost in_range: { (sessions_option.least ≤ count) × (count ≤ sessions_option.most) },
}

impl InRange for Sessions {
    ghost option = { sessions_option };

    ghost value = { λ sessions. sessions.count };

    fn row() -> NumberRow {
        SESSIONS
    }

    fn new(number: u64) -> Option<Sessions> {
        if !Self::row().contains(number) {
            return None;
        }
        Some(Sessions { count: number })
    }
}

/// How many hubs run side by side, from 1 to 8.
#[derive(Clone, Copy, Debug, PartialEq, Eq)]
pub struct Hubs {
    pub count: u64,
    pub ghost in_range: { (hubs_option.least ≤ count) × (count ≤ hubs_option.most) },
}

impl InRange for Hubs {
    ghost option = { hubs_option };

    ghost value = { λ hubs. hubs.count };

    fn row() -> NumberRow {
        HUBS
    }

    fn new(number: u64) -> Option<Hubs> {
        if !Self::row().contains(number) {
            return None;
        }
        Some(Hubs { count: number })
    }
}

/// How far apart, in seconds, a delete and a get are looked at, from 0 to 4,294,967,295; 0: in one era alone.
#[derive(Clone, Copy, Debug, PartialEq, Eq)]
pub struct Window {
    pub seconds: u64,
    pub ghost in_range: { seconds ≤ window_option.most },
}

impl InRange for Window {
    ghost option = { window_option };

    ghost value = { λ window. window.seconds };

    fn row() -> NumberRow {
        WINDOW
    }

    fn new(number: u64) -> Option<Window> {
        if !Self::row().contains(number) {
            return None;
        }
        Some(Window { seconds: number })
    }
}

/// How long a server may take for a reply, a connection or a probe, from 1 ms to an hour.
#[derive(Clone, Copy, Debug, PartialEq, Eq)]
pub struct ServerTimeout {
    pub millis: u64,
    pub ghost in_range: { (server_timeout_option.least ≤ millis) × (millis ≤ server_timeout_option.most) },
}

impl InRange for ServerTimeout {
    ghost option = { server_timeout_option };

    ghost value = { λ timeout. timeout.millis };

    fn row() -> NumberRow {
        SERVER_TIMEOUT
    }

    fn new(number: u64) -> Option<ServerTimeout> {
        if !Self::row().contains(number) {
            return None;
        }
        Some(ServerTimeout { millis: number })
    }
}

/// How long a client may send nothing, or take nothing of its answer, from 1 ms to an hour.
#[derive(Clone, Copy, Debug, PartialEq, Eq)]
pub struct ClientTimeout {
    pub millis: u64,
    pub ghost in_range: { (client_timeout_option.least ≤ millis) × (millis ≤ client_timeout_option.most) },
}

impl InRange for ClientTimeout {
    ghost option = { client_timeout_option };

    ghost value = { λ timeout. timeout.millis };

    fn row() -> NumberRow {
        CLIENT_TIMEOUT
    }

    fn new(number: u64) -> Option<ClientTimeout> {
        if !Self::row().contains(number) {
            return None;
        }
        Some(ClientTimeout { millis: number })
    }
}

/// How many clients are served at once, from 1 to 1,000,000.
#[derive(Clone, Copy, Debug, PartialEq, Eq)]
pub struct MaxClients {
    pub count: u64,
    pub ghost in_range: { (max_clients_option.least ≤ count) × (count ≤ max_clients_option.most) },
}

impl InRange for MaxClients {
    ghost option = { max_clients_option };

    ghost value = { λ clients. clients.count };

    fn row() -> NumberRow {
        MAX_CLIENTS
    }

    fn new(number: u64) -> Option<MaxClients> {
        if !Self::row().contains(number) {
            return None;
        }
        Some(MaxClients { count: number })
    }
}

/// How many bytes of values the answer to one request may hold, from 1 to 1,099,511,627,776.
#[derive(Clone, Copy, Debug, PartialEq, Eq)]
pub struct AnswerBytes {
    pub bytes: u64,
    pub ghost in_range: { (answer_bytes_option.least ≤ bytes) × (bytes ≤ answer_bytes_option.most) },
}

impl InRange for AnswerBytes {
    ghost option = { answer_bytes_option };

    ghost value = { λ answer. answer.bytes };

    fn row() -> NumberRow {
        ANSWER_BYTES
    }

    fn new(number: u64) -> Option<AnswerBytes> {
        if !Self::row().contains(number) {
            return None;
        }
        Some(AnswerBytes { bytes: number })
    }
}

/// Within which window a configuration is judged, and what is said of it.
#[derive(Clone, Copy, Debug, PartialEq, Eq)]
pub struct CheckOptions {
    pub window: Window,
    /// With an explanation behind the verdict.
    pub explain: bool,
    /// As a report in JSON in place of its text.
    pub json: bool,
    /// With one line for a fault, in place of two.
    pub quiet: bool,
}

/// The numbers of `run`'s options.
#[derive(Clone, Copy, Debug, PartialEq, Eq)]
pub struct Settings {
    /// None where the run doesn't end by itself.
    pub sessions: Option<Sessions>,
    pub hubs: Hubs,
    /// Within what the configuration is judged.
    pub window: Window,
    /// None where a server may take any time.
    pub server_timeout: Option<ServerTimeout>,
    /// None where a client may take any time.
    pub client_timeout: Option<ClientTimeout>,
    /// None where any number of clients is served at once.
    pub max_clients: Option<MaxClients>,
    pub answer_bytes: AnswerBytes,
}

/// What `run` is asked for.
#[derive(Clone, Copy, Debug, PartialEq, Eq)]
pub struct RunOptions<'a> {
    /// The address at which clients connect.
    pub listen: &'a str,
    /// The name of the spool's file.
    pub spool: &'a str,
    /// The address at which an operator may ask; None where none may.
    pub admin: Option<&'a str>,
    pub settings: Settings,
}

/// What `spool` is asked for.
#[derive(Clone, Copy, Debug, PartialEq, Eq)]
pub struct SpoolOptions<'a> {
    /// The name of the spool's file.
    pub file: &'a str,
    /// Whether records that are done are shown, too.
    pub all: bool,
}
