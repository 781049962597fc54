//! Why a proxy on sockets can't be run.

ghost use Rattle.std.specs.Prelude.{◌≡◌, ◌≢◌};
ghost use Rattle.std.specs.IoError.{error_kind};
ghost use Rattle.std.specs.declared.io.ErrorKind.TheVariants.{OutOfMemory};
ghost use Rattle.mcv_net.specs.declared.fault.NetFault.TheVariants.{Device, Memory as out_of_memory};
ghost use Rattle.mcv_net.specs.Fault.{fault_number, net_fault};

use mcv_serve::ProxyFault;
use std::alloc::AllocError;
use std::io;
use thiserror::Error;

/// Why a proxy on sockets can't be run.
#[derive(Clone, Copy, Debug, PartialEq, Eq, Error)]
pub enum NetFault {
    #[error("out of memory")]
    Memory = 1,
    /// The address, the spool's file or the writer failed, or the receipts of replies are wrong.
    #[error("device failed")]
    Device = 2,
}

impl NetFault {
    /// The number of the fault, from 1.
    pub fn number(self) -> u8
        ensures { result ≡ fault_number self }
    {
        self as u8
    }
}

impl From<AllocError> for NetFault {
    ghost from_gives = { λ _ fault. fault ≡ out_of_memory };

    fn from(_fault: AllocError) -> NetFault {
        NetFault::Memory
    }
}

impl From<ProxyFault> for NetFault {
    ghost from_gives = { λ fault result. result ≡ net_fault fault };

    fn from(fault: ProxyFault) -> NetFault {
        match fault {
            ProxyFault::Memory => NetFault::Memory,
            ProxyFault::Device | ProxyFault::Receipt => NetFault::Device,
        }
    }
}

impl From<io::Error> for NetFault {
    ghost from_gives = { λ error fault. (error_kind error ≡ OutOfMemory → fault ≡ out_of_memory) × (error_kind error ≢ OutOfMemory → fault ≡ Device) };

    fn from(error: io::Error) -> NetFault {
        if error.kind() == io::ErrorKind::OutOfMemory {
            NetFault::Memory
        } else {
            NetFault::Device
        }
    }
}
