//! Why a certificate's text isn't read: a fault in it, or memory.

ghost use Rattle.std.specs.Prelude.{◌≡◌};
ghost use Rattle.mcv_cert.specs.Fault.{fault_line, fault_number};
ghost use Rattle.mcv_cert.specs.declared.fault.CertFault.TheVariants.{Memory};

use std::alloc::AllocError;
use thiserror::Error;

/// A fault in a certificate's text. Lines are counted from 1.
#[derive(Clone, Copy, Debug, PartialEq, Eq, Error)]
pub enum CertTextFault {
    /// The line of this number breaks the form, or is missing.
    #[error("line {0} is no line of a certificate")]
    Syntax(usize),
    /// The pair in the line of this number doesn't come behind the one before it.
    #[error("line {0} is out of order")]
    Order(usize),
    /// The text has more than 268,435,456 bytes.
    #[error("the certificate is longer than 268435456 bytes")]
    Limit,
}

impl CertTextFault {
    /// The number of the fault, from 1.
    pub fn number(self) -> u8
        ensures { result ≡ fault_number self }
    {
        match self {
            CertTextFault::Syntax(_) => 1,
            CertTextFault::Order(_) => 2,
            CertTextFault::Limit => 3,
        }
    }

    /// The number of the line at fault, from 1. A text over the limit is at fault at line 1.
    pub fn line(self) -> usize
        ensures { result ≡ fault_line self }
    {
        match self {
            CertTextFault::Syntax(line) | CertTextFault::Order(line) => line,
            CertTextFault::Limit => 1,
        }
    }
}

/// Why a certificate's text isn't read.
#[derive(Clone, Copy, Debug, PartialEq, Eq, Error)]
pub enum CertFault {
    #[error(transparent)]
    Text(CertTextFault),
    #[error("out of memory")]
    Memory,
}

impl From<AllocError> for CertFault {
    ghost from_gives = { λ _ e. e ≡ Memory };

    fn from(_fault: AllocError) -> CertFault {
        CertFault::Memory
    }
}
