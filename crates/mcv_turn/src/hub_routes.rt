//! The routes of a hub, as a desk knows them.

use mcv_hub::{Hub, HubLedger};
use mcv_route::Routes;
use std::marker::{Model, PhantomData};
use std::sync::ledger::Ledger;

/// The routes with which a hub was opened. They aren't asked of the hub at each request: what lies beside its lock is slow to
/// read while others take it.
#[derive(Drop)]
pub(crate) struct HubRoutes<'a, B: HubLedger> {
    routes: &'a Routes,
    hub: PhantomData<B>,
}

impl<'a, B: HubLedger> Model for HubRoutes<'a, B> {
    ghost use Rattle.std.specs.Prelude.{◌≡◌};
    ghost use Rattle.mcv_route.specs.Codes.{routes_code};
    ghost use Rattle.mcv_route.specs.Routes.{RoutesValue};

    ghost Value = { RoutesValue };

    ghost coded = { routes_code };

    ghost view = { λ r. r.routes.now };

    ghost invariant = { λ r. r.routes.now ≡ B.opened.routes };
}

impl<'a, B: HubLedger> HubRoutes<'a, B> {
    ghost use Rattle.std.specs.Prelude.{◌≡◌};

    /// Those of this hub.
    pub(crate) fn of<T: Ledger>(hub: &'a Hub<B, T>) -> HubRoutes<'a, B> {
        HubRoutes {
            routes: hub.routes(),
            hub: PhantomData,
        }
    }

    /// The routes.
    pub(crate) fn get(&self) -> &'a Routes
        ensures { result.now ≡ B.opened.routes }
    {
        self.routes
    }
}
