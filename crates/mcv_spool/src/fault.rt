//! Why a call of the spool is refused.

ghost use Rattle.std.specs.Prelude.{◌≡◌};
ghost use Rattle.mcv_spool.specs.Fault.{fault_number};
ghost use Rattle.mcv_spool.specs.declared.fault.SpoolFault.TheVariants.{Device, Memory};

use crate::disk::DiskFailed;
use std::alloc::{AllocError, AllocFailed};
use thiserror::Error;

/// Why a call of the spool is refused.
#[derive(Clone, Copy, Debug, PartialEq, Eq, Error)]
pub enum SpoolFault {
    /// A call of the disk failed.
    #[error("the disk failed")]
    Device,
    /// The file has 1,000,000 slots.
    #[error("the spool is full")]
    Full,
    #[error("out of memory")]
    Memory,
    /// An earlier call answered `Device`, or a `reopen` was refused; `reopen` first.
    #[error("the spool has to be opened again")]
    Reopen,
    /// The slot of this number doesn't read, or it is slot 1,000,000.
    #[error("slot {0} of the spool is damaged")]
    Damaged(u64),
}

impl SpoolFault {
    /// The number of the fault, from 1.
    pub fn number(self) -> u8
        ensures { result ≡ fault_number self }
    {
        match self {
            SpoolFault::Device => 1,
            SpoolFault::Full => 2,
            SpoolFault::Memory => 3,
            SpoolFault::Reopen => 4,
            SpoolFault::Damaged(_) => 5,
        }
    }
}

impl From<DiskFailed> for SpoolFault {
    ghost from_gives = { λ _ e. e ≡ Device };

    fn from(_fault: DiskFailed) -> SpoolFault {
        SpoolFault::Device
    }
}

impl From<AllocError> for SpoolFault {
    ghost from_gives = { λ _ e. e ≡ Memory };

    fn from(_fault: AllocError) -> SpoolFault {
        SpoolFault::Memory
    }
}

impl<T: Drop> From<AllocFailed<T>> for SpoolFault {
    ghost from_gives = { λ _ e. e ≡ Memory };

    fn from(_fault: AllocFailed<T>) -> SpoolFault {
        SpoolFault::Memory
    }
}
