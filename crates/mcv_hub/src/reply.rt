//! A reply to a leg, and once more for the history.

ghost use Rattle.std.specs.Prelude.{◌≡◌, IfOk};
ghost use Rattle.mcv_base.specs.Reply.{fixed_value, part_value, reply_value};

use mcv_base::{FixedReply, Part, Parts, Reply};
use std::alloc::{AllocError, Global};
use std::marker::Model;
use std::sync::Arc;

/// A server's reply to one leg, for the core and for the history. Clauses see the reply.
#[derive(Drop)]
pub struct LegReply {
    parts: Parts,
    history: Part,
}

impl Model for LegReply {
    ghost use Rattle.std.specs.Prelude.{◌≡◌};
    ghost use Rattle.mcv_base.specs.Reply.{ReplyValue, part_value};

    ghost Value = { ReplyValue };

    ghost view = { λ r. r.parts };

    ghost invariant = { λ r. part_value r.history ≡ r.parts };
}

impl LegReply {
    /// The reply. It takes memory for a Hit and a Fault alone.
    pub fn new(alloc: Global, reply: Reply) -> Result<LegReply, AllocError>
        ensures { IfOk result (λ r. r ≡ reply_value reply) }
    {
        match reply {
            Reply::Miss => Ok(LegReply::fixed(FixedReply::Miss)),
            Reply::Stored => Ok(LegReply::fixed(FixedReply::Stored)),
            Reply::NotStored => Ok(LegReply::fixed(FixedReply::NotStored)),
            Reply::Exists => Ok(LegReply::fixed(FixedReply::Exists)),
            Reply::NotFound => Ok(LegReply::fixed(FixedReply::NotFound)),
            Reply::Deleted => Ok(LegReply::fixed(FixedReply::Deleted)),
            Reply::Touched => Ok(LegReply::fixed(FixedReply::Touched)),
            Reply::Number(value) => Ok(LegReply::fixed(FixedReply::Number(value))),
            Reply::Hit { flags, cas, body } => LegReply::hit(alloc, flags, cas, body),
            Reply::Fault(line) => LegReply::fault(alloc, line),
        }
    }

    fn hit(
        alloc: Global,
        flags: u32,
        cas: Option<u64>,
        body: Arc<Vec<u8>>,
    ) -> Result<LegReply, AllocError>
        ensures { IfOk result (λ r. r ≡ reply_value (Reply.Hit flags cas body)) }
    {
        let shared = Arc::try_clone(&body)?;
        let history = Arc::new(
            alloc,
            Reply::Hit {
                flags,
                cas,
                body: shared,
            },
        )?;
        let parts = Parts::new(alloc, Reply::Hit { flags, cas, body })?;
        Ok(LegReply {
            parts,
            history: Part::Owned(history),
        })
    }

    fn fault(alloc: Global, line: Vec<u8>) -> Result<LegReply, AllocError>
        ensures { IfOk result (λ r. r ≡ reply_value (Reply.Fault line)) }
    {
        let copy = line.clone()?;
        let history = Arc::new(alloc, Reply::Fault(copy))?;
        let parts = Parts::new(alloc, Reply::Fault(line))?;
        Ok(LegReply {
            parts,
            history: Part::Owned(history),
        })
    }

    /// A reply that takes no memory.
    pub fn fixed(reply: FixedReply) -> LegReply
        ensures { result ≡ fixed_value reply }
    {
        LegReply {
            parts: Parts::fixed(reply),
            history: Part::Fixed(reply),
        }
    }

    /// The reply for the core, and for the history.
    pub(crate) fn into_parts(self) -> (Parts, Part)
        ensures parts { result.0 ≡ self }
        ensures history { part_value result.1 ≡ self }
    {
        (self.parts, self.history)
    }
}
