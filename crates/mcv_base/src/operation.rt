//! The operations of memcached's classic text protocol, and the marks of legs.

ghost use Rattle.std.specs.Prelude.{◌≡◌, ◌≢◌, MatchOption};
ghost use Rattle.mcv_base.specs.Operation.{is_adjusting, is_counting, is_delete, is_reading, is_same_op, is_storing, op_name, shows_value};

/// An operation of the classic text protocol (memcached's `protocol.txt`) that routes know.
#[derive(Clone, Copy, Debug, PartialEq, Eq)]
pub enum Op {
    Get,
    Gets,
    Set,
    Add,
    Replace,
    Append,
    Prepend,
    Cas,
    Delete,
    Touch,
    Incr,
    Decr,
}

/// Why a leg is sent: all but `Shadow` are counted when deletes are acknowledged.
#[derive(Clone, Copy, Debug, PartialEq, Eq)]
pub enum Mark {
    /// Its reply may be waited for.
    Plain,
    /// No reply waits for it.
    Async,
    /// A copy for a shadow pool. It is not counted.
    Shadow,
    /// The add by which a warm-up fills its cold side.
    Add,
}

impl Op {
    /// The first word of its request line.
    pub fn name(self) -> &'static str
        ensures { result.now ≡ op_name self }
    {
        match self {
            Op::Get => "get",
            Op::Gets => "gets",
            Op::Set => "set",
            Op::Add => "add",
            Op::Replace => "replace",
            Op::Append => "append",
            Op::Prepend => "prepend",
            Op::Cas => "cas",
            Op::Delete => "delete",
            Op::Touch => "touch",
            Op::Incr => "incr",
            Op::Decr => "decr",
        }
    }

    /// The operation with this name, if there is one.
    pub fn named(name: &[u8]) -> Option<Op>
        ensures { MatchOption result ((op : Op) → op_name op ≢ name.now) (λ op. op_name op ≡ name.now) }
    {
        match name {
            b"get" => Some(Op::Get),
            b"gets" => Some(Op::Gets),
            b"set" => Some(Op::Set),
            b"add" => Some(Op::Add),
            b"replace" => Some(Op::Replace),
            b"append" => Some(Op::Append),
            b"prepend" => Some(Op::Prepend),
            b"cas" => Some(Op::Cas),
            b"delete" => Some(Op::Delete),
            b"touch" => Some(Op::Touch),
            b"incr" => Some(Op::Incr),
            b"decr" => Some(Op::Decr),
            _ => None,
        }
    }

    /// Whether the two are one operation.
    pub fn is(self, other: Op) -> bool
        ensures { result ≡ is_same_op self other }
    {
        self == other
    }

    /// Whether it reads a value: get and gets.
    pub fn is_reading(self) -> bool
        ensures { result ≡ is_reading self }
    {
        matches!(self, Op::Get | Op::Gets)
    }

    /// Whether it changes a number in place: incr and decr.
    pub fn is_adjusting(self) -> bool
        ensures { result ≡ is_adjusting self }
    {
        matches!(self, Op::Incr | Op::Decr)
    }

    /// Whether a Good reply to it tells what value the server has: get, gets, incr and decr.
    pub fn shows_value(self) -> bool
        ensures { result ≡ shows_value self }
    {
        self.is_reading() || self.is_adjusting()
    }

    /// Whether it sends a value to be stored: set, add, replace, append, prepend and cas.
    pub fn is_storing(self) -> bool
        ensures { result ≡ is_storing self }
    {
        matches!(
            self,
            Op::Set | Op::Add | Op::Replace | Op::Append | Op::Prepend | Op::Cas
        )
    }

    /// Whether it is delete.
    pub fn is_delete(self) -> bool
        ensures { result ≡ is_delete self }
    {
        matches!(self, Op::Delete)
    }
}

impl Mark {
    /// Whether a leg with this mark counts for an acknowledged delete: all but a shadow's.
    pub fn is_counting(self) -> bool
        ensures { result ≡ is_counting self }
    {
        !matches!(self, Mark::Shadow)
    }
}
