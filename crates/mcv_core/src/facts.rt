//! What the core looks at of a leg, without a loan of it.

ghost use Rattle.std.specs.Prelude.{◌≡◌, Option, Some, option_map};
ghost use Rattle.mcv_queues.specs.declared.leg.Leg.{Leg as Row};
ghost use Rattle.mcv_core.specs.declared.errand.Errand.{Errand as Content};
ghost use Rattle.mcv_core.specs.Settling.{IsOwner};
ghost use Rattle.mcv_core.specs.Facts.{facts_of, is_counting_delete};

use crate::errand::Errand;
use crate::settle::Owner;
use mcv_base::{Mark, Op, ServerId};
use mcv_queues::{Leg, State};

/// What the core looks at of a leg.
#[derive(Clone, Copy, PartialEq, Eq)]
pub struct LegFacts {
    pub server: ServerId,
    pub state: State,
    pub op: Op,
    /// It is a delete that lies under no shadow.
    pub counted_delete: bool,
    pub call: Option<u64>,
    pub entry: usize,
}

impl LegFacts {
    /// The server of the leg, and its call and entry; 0 where it has none.
    pub(crate) fn owner(self) -> Owner
        ensures owner { (leg : Option (Row Content)) → option_map facts_of leg ≡ Some self → IsOwner leg result }
        ensures server { result.server ≡ self.server }
    {
        Owner {
            server: self.server,
            call: self.call.unwrap_or(0),
            entry: self.entry,
        }
    }
}

/// The facts of a leg.
pub fn facts_of(leg: &Leg<Errand>) -> LegFacts
    ensures { result ≡ facts_of leg.now }
{
    let errand = &leg.content;
    let op = errand.op();
    LegFacts {
        server: leg.server,
        state: leg.state,
        op,
        counted_delete: is_counting_delete(op, errand.mark()),
        call: errand.call,
        entry: errand.entry,
    }
}

/// Whether it is a delete that lies under no shadow.
fn is_counting_delete(op: Op, mark: Mark) -> bool
    ensures { result ≡ is_counting_delete op mark }
{
    op.is_delete() && mark.is_counting()
}
