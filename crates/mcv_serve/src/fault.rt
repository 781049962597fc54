//! Why a proxy ends other than by its last client.

ghost use Rattle.std.specs.Prelude.{◌≡◌};
ghost use Rattle.mcv_serve.specs.declared.fault.ProxyFault.TheVariants.{Memory as out_of_memory};
ghost use Rattle.mcv_serve.specs.Faults.{fault_behind};

use mcv_hub::ReceiptFault;
use mcv_loop::SourceFault;
use mcv_spool::SpoolFault;
use std::alloc::{AllocError, AllocFailed};
use thiserror::Error;

/// Why a proxy ends other than by its last client.
#[derive(Clone, Copy, Debug, PartialEq, Eq, Error)]
pub enum ProxyFault {
    #[error("out of memory")]
    Memory = 1,
    /// The disk failed, or what it holds isn't a spool; or what the proxy talks to failed as a whole.
    #[error("the spool's disk failed")]
    Device = 2,
    /// A reply was taken that the history doesn't have, or one twice.
    #[error("the receipts of replies are wrong")]
    Receipt = 3,
}

impl From<AllocError> for ProxyFault {
    ghost from_gives = { λ _ e. e ≡ out_of_memory };

    fn from(_fault: AllocError) -> ProxyFault {
        ProxyFault::Memory
    }
}

impl<T: Drop> From<AllocFailed<T>> for ProxyFault {
    ghost from_gives = { λ _ e. e ≡ out_of_memory };

    fn from(_fault: AllocFailed<T>) -> ProxyFault {
        ProxyFault::Memory
    }
}

impl From<SpoolFault> for ProxyFault {
    fn from(fault: SpoolFault) -> ProxyFault {
        match fault {
            SpoolFault::Memory => ProxyFault::Memory,
            SpoolFault::Device | SpoolFault::Full | SpoolFault::Reopen | SpoolFault::Damaged(_) =>
                ProxyFault::Device,
        }
    }
}

impl From<ReceiptFault> for ProxyFault {
    fn from(fault: ReceiptFault) -> ProxyFault {
        match fault {
            ReceiptFault::Memory => ProxyFault::Memory,
            ReceiptFault::Stranger | ReceiptFault::Twice => ProxyFault::Receipt,
        }
    }
}

impl From<SourceFault> for ProxyFault {
    ghost from_gives = { λ fault e. e ≡ fault_behind fault };

    fn from(fault: SourceFault) -> ProxyFault {
        match fault {
            SourceFault::Memory => ProxyFault::Memory,
            SourceFault::Failed => ProxyFault::Device,
        }
    }
}
