//! Why a certificate isn't accepted.

ghost use Rattle.std.specs.Prelude.{◌≡◌};
ghost use Rattle.mcv_check.specs.Fault.{fault_number};
ghost use Rattle.mcv_check.specs.declared.fault.CheckFault.TheVariants.{Memory as OutOfMemory, Pair as Wrong};

use mcv_judge::PairFault;
use std::alloc::AllocError;
use thiserror::Error;

/// Why a certificate isn't accepted.
#[derive(Clone, Copy, Debug, PartialEq, Eq, Error)]
pub enum CheckFault {
    /// The first fault in it, in the order of its pairs.
    #[error("{0}")]
    Pair(PairFault),
    #[error("out of memory")]
    Memory,
    /// It isn't for the window of the routes.
    #[error("the certificate is for another window")]
    Window,
}

impl CheckFault {
    /// Its number: that of a `PairFault`, from 1 to 5, 6 where memory ran out, and 7 for the window.
    pub fn number(self) -> u8
        ensures { result ≡ fault_number self }
    {
        match self {
            CheckFault::Pair(fault) => fault.number(),
            CheckFault::Memory => 6,
            CheckFault::Window => 7,
        }
    }
}

impl From<PairFault> for CheckFault {
    ghost from_gives = { λ fault e. e ≡ Wrong fault };

    fn from(fault: PairFault) -> CheckFault {
        CheckFault::Pair(fault)
    }
}

impl From<AllocError> for CheckFault {
    ghost from_gives = { λ _ e. e ≡ OutOfMemory };

    fn from(_fault: AllocError) -> CheckFault {
        CheckFault::Memory
    }
}
