//! What an event did to its leg.

/// Where a leg is.
#[derive(Clone, Copy, Debug, PartialEq, Eq)]
pub enum LegState {
    /// It waits for its turn at its server.
    Waiting,
    /// It is in flight to its server.
    Sent,
    /// A counted delete that its server didn't perform: it waits for the spool.
    Held,
    /// It is stored in the spool, in flight again or not.
    Spooled,
    /// A delete that its server performed.
    Performed,
    /// It is done with.
    Gone,
}

/// Which move of the world an event on a leg was.
#[derive(Clone, Copy, Debug, PartialEq, Eq)]
pub enum Change {
    /// None.
    Nothing,
    Answered,
    Spooled,
    /// By the spool.
    Refused,
    /// A spooled leg, by its server.
    Performed,
}

/// What an event did to its leg: the state that the leg has then, and the move.
#[derive(Clone, Copy, PartialEq, Eq)]
pub struct Step {
    pub state: LegState,
    pub change: Change,
}
