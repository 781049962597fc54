//! What a server says to a leg, and what that amounts to.

ghost use Rattle.std.specs.Prelude.{◌≡◌, IfOk, IsOk, IsTrue};
ghost use Rattle.mcv_base.specs.Reply.{badness, fixed_value, is_good, is_small, may_answer, outcome_of, part_value, reply_value, worse};

use crate::operation::Op;
use std::alloc::{AllocError, Global};
use std::marker::Model;
use std::sync::Arc;

/// What a reply amounts to for the handles of a route.
#[derive(Clone, Copy, Debug, PartialEq, Eq)]
pub enum Outcome {
    /// A hit, a number, or done.
    Good,
    /// A miss, or not done.
    Soft,
    /// An error of the server, or of the way to it.
    Error,
}

impl Outcome {
    pub fn is_good(self) -> bool
        ensures { result ≡ is_good self }
    {
        matches!(self, Outcome::Good)
    }

    /// How bad it is: 0 is Good, 2 an Error.
    pub fn badness(self) -> u8
        ensures { result ≡ badness self }
    {
        match self {
            Outcome::Good => 0,
            Outcome::Soft => 1,
            Outcome::Error => 2,
        }
    }

    /// The worse of the two.
    pub fn worse(self, other: Outcome) -> Outcome
        ensures { result ≡ worse self other }
    {
        match (self, other) {
            (Outcome::Error, _) | (_, Outcome::Error) => Outcome::Error,
            (Outcome::Soft, _) | (_, Outcome::Soft) => Outcome::Soft,
            (Outcome::Good, Outcome::Good) => Outcome::Good,
        }
    }
}

/// A server's reply to one leg.
#[derive(Debug, Drop)]
pub enum Reply {
    Hit {
        flags: u32,
        /// The unique number of the value, where gets asked for it.
        cas: Option<u64>,
        body: Arc<Vec<u8>>,
    },
    Miss,
    Stored,
    NotStored,
    Exists,
    NotFound,
    Deleted,
    Touched,
    /// The new number, for incr and decr.
    Number(u64),
    /// An error line (`ERROR`, `CLIENT_ERROR ..` or `SERVER_ERROR ..`), without its end.
    Fault(Vec<u8>),
}

/// A reply that takes no memory. The last two are the proxy's own Faults.
#[derive(Clone, Copy, Debug, PartialEq, Eq)]
pub enum FixedReply {
    Miss,
    Stored,
    NotStored,
    Exists,
    NotFound,
    Deleted,
    Touched,
    /// The new number, for incr and decr.
    Number(u64),
    /// `SERVER_ERROR error route`
    ErrorRoute,
    /// `SERVER_ERROR destination failed`
    Lost,
}

/// One reply, wherever it is kept.
#[derive(Debug, Drop)]
pub enum Part {
    Fixed(FixedReply),
    Owned(Arc<Reply>),
}

/// One reply three times over: for a call's outcomes, for who takes it, and for the history. Clauses see the reply.
#[derive(Drop)]
pub struct Parts {
    outcome: Part,
    taken: Part,
    history: Part,
}

impl Model for Parts {
    ghost use Rattle.std.specs.Prelude.{◌≡◌};
    ghost use Rattle.mcv_base.specs.Reply.{ReplyValue, part_value};

    ghost Value = { ReplyValue };

    ghost view = { λ p. part_value p.outcome };

    ghost invariant = { λ p. (part_value p.taken ≡ part_value p.outcome) × (part_value p.history ≡ part_value p.outcome) };
}

impl Reply {
    /// What the reply amounts to.
    pub fn outcome(&self) -> Outcome
        ensures { result ≡ outcome_of (reply_value self.now) }
    {
        match self {
            Reply::Hit { .. }
            | Reply::Stored
            | Reply::Deleted
            | Reply::Touched
            | Reply::Number(_) => Outcome::Good,
            Reply::Miss | Reply::NotFound | Reply::NotStored | Reply::Exists => Outcome::Soft,
            Reply::Fault(_) => Outcome::Error,
        }
    }

    /// Whether a server may answer the operation so (memcached's `protocol.txt`): any operation with a Fault.
    pub fn may_answer(&self, op: Op) -> bool
        ensures { result ≡ may_answer op (reply_value self.now) }
    {
        match self {
            Reply::Hit { cas: None, .. } => op.is(Op::Get),
            Reply::Hit { cas: Some(_), .. } => op.is(Op::Gets),
            Reply::Miss => op.is_reading(),
            Reply::Stored | Reply::NotStored => op.is_storing(),
            Reply::Exists => op.is(Op::Cas),
            Reply::NotFound => {
                op.is(Op::Cas) || op.is_delete() || op.is(Op::Touch) || op.is_adjusting()
            }
            Reply::Deleted => op.is_delete(),
            Reply::Touched => op.is(Op::Touch),
            Reply::Number(_) => op.is_adjusting(),
            Reply::Fault(_) => true,
        }
    }
}

impl FixedReply {
    /// What the reply amounts to.
    pub fn outcome(self) -> Outcome
        ensures { result ≡ outcome_of (fixed_value self) }
    {
        match self {
            FixedReply::Stored
            | FixedReply::Deleted
            | FixedReply::Touched
            | FixedReply::Number(_) => Outcome::Good,
            FixedReply::Miss | FixedReply::NotFound | FixedReply::NotStored | FixedReply::Exists =>
                { Outcome::Soft }
            FixedReply::ErrorRoute | FixedReply::Lost => Outcome::Error,
        }
    }

    /// Whether a server may answer the operation so; the proxy's own Faults may answer any.
    pub fn may_answer(self, op: Op) -> bool
        ensures { result ≡ may_answer op (fixed_value self) }
    {
        match self {
            FixedReply::Miss => op.is_reading(),
            FixedReply::Stored | FixedReply::NotStored => op.is_storing(),
            FixedReply::Exists => op.is(Op::Cas),
            FixedReply::NotFound => {
                op.is(Op::Cas) || op.is_delete() || op.is(Op::Touch) || op.is_adjusting()
            }
            FixedReply::Deleted => op.is_delete(),
            FixedReply::Touched => op.is(Op::Touch),
            FixedReply::Number(_) => op.is_adjusting(),
            FixedReply::ErrorRoute | FixedReply::Lost => true,
        }
    }
}

impl Part {
    /// What the reply amounts to.
    pub fn outcome(&self) -> Outcome
        ensures { result ≡ outcome_of (part_value self.now) }
    {
        match self {
            Part::Fixed(reply) => reply.outcome(),
            Part::Owned(reply) => reply.outcome(),
        }
    }

    /// Whether a server may answer the operation so.
    pub fn may_answer(&self, op: Op) -> bool
        ensures { result ≡ may_answer op (part_value self.now) }
    {
        match self {
            Part::Fixed(reply) => reply.may_answer(op),
            Part::Owned(reply) => reply.may_answer(op),
        }
    }
}

impl Parts {
    /// Three parts of the reply. It takes memory for a Hit and a Fault alone.
    pub fn new(alloc: Global, reply: Reply) -> Result<Parts, AllocError>
        ensures value { IfOk result (λ p. p ≡ reply_value reply) }
        ensures small { IsTrue (is_small (reply_value reply)) → IsOk result }
    {
        match reply {
            Reply::Miss => Ok(Parts::fixed(FixedReply::Miss)),
            Reply::Stored => Ok(Parts::fixed(FixedReply::Stored)),
            Reply::NotStored => Ok(Parts::fixed(FixedReply::NotStored)),
            Reply::Exists => Ok(Parts::fixed(FixedReply::Exists)),
            Reply::NotFound => Ok(Parts::fixed(FixedReply::NotFound)),
            Reply::Deleted => Ok(Parts::fixed(FixedReply::Deleted)),
            Reply::Touched => Ok(Parts::fixed(FixedReply::Touched)),
            Reply::Number(value) => Ok(Parts::fixed(FixedReply::Number(value))),
            Reply::Hit { flags, cas, body } => Parts::shared(
                alloc,
                Reply::Hit { flags, cas, body },
            ),
            Reply::Fault(line) => Parts::shared(alloc, Reply::Fault(line)),
        }
    }

    fn shared(alloc: Global, reply: Reply) -> Result<Parts, AllocError>
        ensures { IfOk result (λ p. p ≡ reply_value reply) }
    {
        let first = Arc::new(alloc, reply)?;
        let second = Arc::try_clone(&first)?;
        let third = Arc::try_clone(&first)?;
        Ok(Parts {
            outcome: Part::Owned(first),
            taken: Part::Owned(second),
            history: Part::Owned(third),
        })
    }

    /// Three parts of a reply that takes no memory.
    pub fn fixed(reply: FixedReply) -> Parts
        ensures { result ≡ fixed_value reply }
    {
        Parts {
            outcome: Part::Fixed(reply),
            taken: Part::Fixed(reply),
            history: Part::Fixed(reply),
        }
    }

    /// What the reply amounts to.
    pub fn outcome(&self) -> Outcome
        ensures { result ≡ outcome_of self.now }
    {
        self.outcome.outcome()
    }

    /// Whether a server may answer the operation so.
    pub fn may_answer(&self, op: Op) -> bool
        ensures { result ≡ may_answer op self.now }
    {
        self.outcome.may_answer(op)
    }

    /// The three parts: for a call's outcomes, for who takes the reply, and for the history.
    pub fn into_parts(self) -> (Part, Part, Part)
        ensures outcome { part_value result.0 ≡ self }
        ensures taken { part_value result.1 ≡ self }
        ensures history { part_value result.2 ≡ self }
    {
        (self.outcome, self.taken, self.history)
    }
}
