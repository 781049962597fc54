//! Why there is no certificate.

ghost use Rattle.std.specs.Prelude.{◌≡◌};
ghost use Rattle.mcv_make.specs.declared.fault.MakeFault.TheVariants.{Memory as out_of_memory};

use mcv_witness::Finding;
use std::alloc::AllocError;

/// Why there is no certificate.
#[derive(Drop)]
pub enum MakeFault {
    /// The first finding that shows how a delete is lost.
    Lost(Finding),
    /// Memory ran out.
    Memory,
}

impl From<AllocError> for MakeFault {
    ghost from_gives = { λ _ e. e ≡ out_of_memory };

    fn from(_error: AllocError) -> MakeFault {
        MakeFault::Memory
    }
}
