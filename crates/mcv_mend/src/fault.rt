//! What became of a configuration, and why nothing was written.

ghost use Rattle.std.specs.Prelude.{◌≡◌};
ghost use Rattle.mcv_input.specs.declared.fault.RunFault.TheVariants.{Memory as out_of_memory};
ghost use Rattle.mcv_mend.specs.declared.fault.MendFault.TheVariants.{Run as of_run};

use mcv_config::ConfigFault;
use mcv_input::RunFault;
use std::alloc::{AllocError, AllocFailed};

/// What became of a configuration.
#[derive(Clone, Copy, Debug, PartialEq, Eq)]
pub enum Mending {
    /// It is covered, and was written as it is.
    Unchanged,
    /// It wasn't covered, and one that is was written.
    Mended,
}

/// Why nothing is written.
#[derive(Drop)]
pub enum MendFault {
    /// A run can't be done.
    Run(RunFault),
    /// The mended configuration is over a limit.
    Limit(ConfigFault),
    /// No change was found.
    GaveUp,
}

impl From<AllocError> for MendFault {
    ghost from_gives = { λ _ e. e ≡ of_run out_of_memory };

    fn from(_error: AllocError) -> MendFault {
        MendFault::Run(RunFault::Memory)
    }
}

impl<T: Drop> From<AllocFailed<T>> for MendFault {
    ghost from_gives = { λ _ e. e ≡ of_run out_of_memory };

    fn from(_error: AllocFailed<T>) -> MendFault {
        MendFault::Run(RunFault::Memory)
    }
}

impl From<RunFault> for MendFault {
    ghost from_gives = { λ fault e. e ≡ of_run fault };

    fn from(fault: RunFault) -> MendFault {
        MendFault::Run(fault)
    }
}
