//! Legs, and the states that they go through.

ghost use Rattle.std.specs.Prelude.{◌≡◌};
ghost use Rattle.mcv_queues.specs.Legs.{is_flight, is_waiting};

use mcv_base::ServerId;

/// Where a leg is that is neither performed nor gone.
#[derive(Clone, Copy, Debug, PartialEq, Eq)]
pub enum State {
    /// It waits for its turn at its server.
    Waiting,
    /// It is in flight to its server.
    Sent,
    /// Its server didn't perform it, and its call has no outcome of it yet.
    Held,
    /// Its server didn't perform it, the spool refused it, and its call has an outcome of it.
    Refused,
    /// It is stored in the spool.
    InSpool,
    /// It is stored in the spool, and in flight to its server again.
    InReplay,
}

impl State {
    /// Whether a leg in this state is in flight.
    pub(crate) fn is_flight(self) -> bool
        ensures { result ≡ is_flight self }
    {
        match self {
            State::Sent | State::InReplay => true,
            State::Waiting | State::Held | State::Refused | State::InSpool => false,
        }
    }

    /// Whether a leg in this state waits to be sent.
    pub(crate) fn is_waiting(self) -> bool
        ensures { result ≡ is_waiting self }
    {
        self == State::Waiting
    }
}

/// A leg: its server, its state, its record, and what its caller keeps of it.
#[derive(Drop)]
pub struct Leg<T> {
    pub server: ServerId,
    pub state: State,
    /// The number of its record in the spool; None until it is stored there.
    pub record: Option<u64>,
    pub content: T,
}
