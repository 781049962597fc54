//! Why a command ends before its work is done.

ghost use Rattle.std.specs.Prelude.{◌≡◌, Some};
ghost use Rattle.mcv_input.specs.Fault.{of_reading, of_text, run_fault_number, run_fault_status, run_fault_text};
ghost use Rattle.mcv_input.specs.declared.fault.RunFault.TheVariants.{Memory as out_of_memory};

use mcv_cert::{CertFault, CertTextFault};
use mcv_config::{ConfigFault, ReadFault};
use mcv_judge::PairFault;
use std::alloc::AllocError;
use std::error::Error;
use std::fmt;

/// Why a command ends before its work is done.
#[derive(Debug, Drop)]
pub enum RunFault {
    /// The input begins with no request line.
    Line,
    /// The request's prefix is an alias of no route.
    NoRoute,
    /// A fault in the configuration.
    Config(ConfigFault),
    /// A fault in the certificate's text.
    CertificateText(CertTextFault),
    /// The first fault in the certificate.
    Certificate(PairFault),
    /// The certificate is for another window.
    Window,
    /// Memory ran out, in whatever part.
    Memory,
    /// A reader, a writer, a file or the address of the proxy failed.
    Device,
}

impl RunFault {
    /// The number of the fault, from 1.
    pub fn number(&self) -> u8
        ensures { result ≡ run_fault_number self.now }
    {
        match self {
            RunFault::Line => 1,
            RunFault::NoRoute => 2,
            RunFault::Config(_) => 3,
            RunFault::CertificateText(_) => 4,
            RunFault::Certificate(_) => 5,
            RunFault::Memory => 6,
            RunFault::Device => 7,
            RunFault::Window => 8,
        }
    }

    /// The exit status of the program: 1, 2, 4 or 5.
    pub fn status(&self) -> u8
        ensures { result ≡ run_fault_status self.now }
    {
        match self {
            RunFault::Line => 1,
            RunFault::NoRoute | RunFault::Config(_) => 2,
            RunFault::Memory | RunFault::Device => 4,
            RunFault::CertificateText(_) | RunFault::Certificate(_) | RunFault::Window => 5,
        }
    }
}

impl fmt::Display for RunFault {
    ghost output = { λ fault. Some (run_fault_text fault) };

    fn fmt<W: fmt::Write>(&self, f: &mut fmt::Formatter<W>) -> fmt::Result {
        match self {
            RunFault::Line => write!(f, "bad request line"),
            RunFault::NoRoute => write!(f, "no route"),
            RunFault::Config(fault) => {
                let number = fault.number();
                let path = fault.path();
                write!(f, "configuration {number} at {path}")
            }
            RunFault::CertificateText(fault) => {
                let number = fault.number();
                let line = fault.line();
                write!(f, "certificate text {number} line {line}")
            }
            RunFault::Certificate(fault) => {
                let number = fault.number();
                write!(f, "certificate fault {number}")
            }
            RunFault::Window => write!(f, "certificate fault 7"),
            RunFault::Memory => write!(f, "out of memory"),
            RunFault::Device => write!(f, "device failed"),
        }
    }
}

impl Error for RunFault {}

impl From<AllocError> for RunFault {
    ghost from_gives = { λ _ e. e ≡ out_of_memory };

    fn from(_error: AllocError) -> RunFault {
        RunFault::Memory
    }
}

impl From<ReadFault> for RunFault {
    ghost from_gives = { λ fault e. e ≡ of_reading fault };

    fn from(fault: ReadFault) -> RunFault {
        match fault {
            ReadFault::Config(fault) => RunFault::Config(fault),
            ReadFault::Memory => RunFault::Memory,
        }
    }
}

impl From<CertFault> for RunFault {
    ghost from_gives = { λ fault e. e ≡ of_text fault };

    fn from(fault: CertFault) -> RunFault {
        match fault {
            CertFault::Text(fault) => RunFault::CertificateText(fault),
            CertFault::Memory => RunFault::Memory,
        }
    }
}
