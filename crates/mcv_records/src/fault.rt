//! Why the records of a file aren't all written.

ghost use Rattle.std.specs.Prelude.{◌≡◌};
ghost use Rattle.mcv_records.specs.Fault.{fault_number};
ghost use Rattle.mcv_records.specs.declared.fault.RecordsFault.TheVariants.{Device, Memory};

use mcv_spool::DiskFailed;
use std::alloc::AllocError;
use thiserror::Error;

/// Why the records of a file aren't all written.
#[derive(Clone, Copy, Debug, PartialEq, Eq, Error)]
pub enum RecordsFault {
    /// The slot of this number doesn't read, or it is slot 1,000,000.
    #[error("slot {0} of the spool is damaged")]
    Damaged(u64),
    /// The file couldn't be read, or the text not be written.
    #[error("device failed")]
    Device,
    #[error("out of memory")]
    Memory,
}

impl RecordsFault {
    /// The number of the fault, from 1.
    pub fn number(self) -> u8
        ensures { result ≡ fault_number self }
    {
        match self {
            RecordsFault::Damaged(_) => 1,
            RecordsFault::Device => 2,
            RecordsFault::Memory => 3,
        }
    }
}

impl From<DiskFailed> for RecordsFault {
    ghost from_gives = { λ _ e. e ≡ Device };

    fn from(_fault: DiskFailed) -> RecordsFault {
        RecordsFault::Device
    }
}

impl From<AllocError> for RecordsFault {
    ghost from_gives = { λ _ e. e ≡ Memory };

    fn from(_fault: AllocError) -> RecordsFault {
        RecordsFault::Memory
    }
}
