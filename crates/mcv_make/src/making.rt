//! A certificate, or the finding that shows why there is none.

ghost use Rattle.std.specs.Prelude.{◌≡◌, ◌<◌, All, IfErr, IfOk, length};
ghost use Rattle.mcv_blocks.specs.Blocks.{IsJustifiedBy};
ghost use Rattle.mcv_certify.specs.PickedReasons.{IsPickedOf};
ghost use Rattle.mcv_make.specs.FirstFinding.{IfLost, IsRightLoss};
ghost use Rattle.mcv_make.specs.ShownFinding.{IsShown};
ghost use Rattle.mcv_make.specs.declared.fault.MakeFault.TheVariants.{Memory as out_of_memory};
ghost use Rattle.mcv_symbolic.specs.CoveredRoutes.{AreCovered};
ghost use Rattle.mcv_witness.specs.Finding.{finding_of};

use crate::fault::MakeFault;
use crate::finder::find;
use mcv_cert::Certificate;
use mcv_certify::{CertifyFault, certify};
use mcv_route::Routes;
use std::alloc::Global;

/// The certificate of the routes, if they are covered. Else the first finding that shows how a delete is lost: none
/// at an earlier place (by route, class, delete's era, get's era, leaf and index) breaks coverage.
///
/// Of the reasons that hold for a leaf the certificate names the first in the order never, twin, same and all, with
/// the least positions. Takes time and memory in proportion to the nodes of the routes times their classes and eras,
/// and to the servers of their legs.
pub fn make(alloc: Global, routes: &Routes) -> Result<Certificate, MakeFault>
    ensures justified { IfOk result (λ c. IsJustifiedBy routes.now c) }
    ensures picked { IfOk result (λ c. All (IsPickedOf routes.now) c.pairs) }
    ensures covered { AreCovered routes.now → IfErr result (λ f. f ≡ out_of_memory) }
    ensures lost { IfErr result (λ f. IsRightLoss routes.now f) }
    ensures uncovered { IfErr result (λ f. IfLost f (λ _. AreCovered routes.now → ⊥)) }
    ensures shown { IfErr result (λ f. IfLost f (λ g. IsShown routes.now (finding_of g))) }
    ensures known { IfErr result (λ f. IfLost f (λ g. g.server.0 < length routes.now.servers)) }
{
    // What it takes that a finding of the first gap is the first: the routes are sound.
    let _servers = routes.servers();
    match certify(alloc, routes) {
        Ok(certificate) => Ok(certificate),
        Err(CertifyFault::Lost(gap)) => Err(MakeFault::Lost(find(alloc, routes, &gap)?)),
        Err(CertifyFault::Memory) => Err(MakeFault::Memory),
    }
}
