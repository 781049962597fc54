//! Why a configuration is refused: a fault in the text, with its path; and why it isn't read: that, or memory.

ghost use Rattle.std.specs.Prelude.{◌≡◌};
ghost use Rattle.mcv_names.specs.declared.fault.ReadFault.TheVariants.{Memory};

use std::alloc::{AllocError, AllocFailed};
use thiserror::Error;

/// What is wrong with the value or the key at a path.
#[derive(Clone, Copy, Debug, PartialEq, Eq)]
pub enum FaultKind {
    NotJson = 1,
    /// A key, or the name of an operation, that isn't known.
    UnknownKey = 2,
    /// A value of another kind, or none.
    WrongKind = 3,
    UnknownHandle = 4,
    UnknownPool = 5,
    /// No servers, children, aliases or routes.
    Empty = 6,
    Limit = 7,
    BadServer = 8,
    AliasTwice = 9,
    /// What mcrouter has and mcv doesn't.
    LeftOut = 10,
}

/// A fault in the text: what is wrong, and where.
#[derive(Debug, Drop, Error)]
#[error("configuration {} at {path}", *kind as u8)]
pub struct ConfigFault {
    pub kind: FaultKind,
    /// `/` and the key or the list number for each step, `.` for the root.
    pub path: String,
}

/// Why a configuration, or a part of one, isn't read.
#[derive(Debug, Drop, Error)]
pub enum ReadFault {
    #[error(transparent)]
    Config(ConfigFault),
    #[error("out of memory")]
    Memory,
}

impl ConfigFault {
    ghost use Rattle.mcv_names.specs.Fault.{fault_number, fault_path};

    /// The number of the fault, 1 to 10.
    pub fn number(&self) -> u8
        ensures { result ≡ fault_number self.now }
    {
        self.kind as u8
    }

    /// Where the fault is.
    pub fn path(&self) -> &str
        ensures { result.now ≡ fault_path self.now }
    {
        self.path.as_str()
    }
}

impl From<AllocError> for ReadFault {
    ghost from_gives = { λ _ e. e ≡ Memory };

    fn from(_e: AllocError) -> ReadFault {
        ReadFault::Memory
    }
}

impl<T: Drop> From<AllocFailed<T>> for ReadFault {
    ghost from_gives = { λ _ e. e ≡ Memory };

    fn from(_e: AllocFailed<T>) -> ReadFault {
        ReadFault::Memory
    }
}
