//! Whether routes are covered.

ghost use Rattle.std.specs.Prelude.{◌≡◌, IfOk, IsTrue, false};
ghost use Rattle.mcv_symbolic.specs.CoveredRoutes.{AreCovered};

use mcv_blocks::justified_is_covered;
use mcv_certify::{CertifyFault, certify};
use mcv_route::Routes;
use std::alloc::{AllocError, Global};

/// Whether the routes are covered, by a certificate that is made for them.
pub fn is_covered(alloc: Global, routes: &Routes) -> Result<bool, AllocError>
    ensures covered { IfOk result (λ is. IsTrue is → AreCovered routes.now) }
    ensures lost { IfOk result (λ is. is ≡ false → AreCovered routes.now → ⊥) }
{
    justified_is_covered();
    // Routes are sound.
    let _servers = routes.servers();
    match certify(alloc, routes) {
        Ok(certificate) => {
            // Its pairs rise.
            let _ = certificate.pairs();
            Ok(true)
        }
        Err(CertifyFault::Lost(_)) => Ok(false),
        Err(CertifyFault::Memory) => Err(AllocError),
    }
}
