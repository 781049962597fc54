//! Routes with a justified certificate.

ghost use Rattle.std.specs.Prelude.{◌≡◌, IfErr, IfOk};
ghost use Rattle.mcv_blocks.specs.Blocks.{IsJustifiedBy};
ghost use Rattle.mcv_check.specs.Fault.{IsFaultOfCertificate};
ghost use Rattle.mcv_check.specs.declared.fault.CheckFault.TheVariants.{Memory as OutOfMemory};

use crate::fault::CheckFault;
use crate::judging::judge_routes;
use mcv_blocks::{justified_is_covered, one_list_of_blocks};
use mcv_cert::Certificate;
use mcv_route::Routes;
use std::alloc::Global;
use std::marker::Model;

/// Routes for which a justified certificate was seen: they are covered. Clauses see the routes.
#[derive(Drop)]
pub struct Accepted {
    routes: Routes,
}

impl Model for Accepted {
    ghost use Rattle.mcv_route.specs.Codes.{routes_code};
    ghost use Rattle.mcv_route.specs.Routes.{RoutesValue};
    ghost use Rattle.mcv_symbolic.specs.CoveredRoutes.{AreCovered};

    ghost Value = { RoutesValue };

    ghost coded = { routes_code };

    ghost view = { λ a. a.routes };

    ghost invariant = { λ a. AreCovered a.routes };
}

impl Accepted {
    ghost use Rattle.mcv_symbolic.specs.CoveredRoutes.{AreCovered};

    /// The routes. They are covered at every rest, by a delete in every era and a get in each that is near it.
    pub fn routes(&self) -> &Routes
        ensures value { result.now ≡ self.now }
        ensures covered { AreCovered self.now }
    {
        &self.routes
    }

    /// How far apart, in seconds, a delete and a get were looked at.
    pub fn window(&self) -> u64
        ensures { result ≡ self.now.window }
    {
        self.routes.window()
    }
}

/// Judges the certificate against the routes, looked at within their window: accepts it exactly when it is justified,
/// or else reports that it is for another window, and then the first fault in it.
///
/// An error drops the routes. `Memory` may come for any certificate that is for the window.
pub fn check(
    alloc: Global,
    routes: Routes,
    certificate: &Certificate,
) -> Result<Accepted, CheckFault>
    ensures accepted { IfOk result (λ a. (a ≡ routes) × IsJustifiedBy routes certificate.now) }
    ensures fault { IfErr result (IsFaultOfCertificate routes certificate.now) }
    ensures justified { IsJustifiedBy routes certificate.now → IfErr result (λ f. f ≡ OutOfMemory) }
{
    if certificate.window() != routes.window() {
        return Err(CheckFault::Window);
    }
    one_list_of_blocks();
    justified_is_covered();
    // Routes are sound.
    let _servers = routes.servers();
    judge_routes(alloc, &routes, certificate.pairs())?;
    Ok(Accepted { routes })
}
