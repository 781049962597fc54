//! The names of the hubs' ledgers.

ghost use Rattle.std.specs.Prelude.{◌≡◌, ℕ, []};
ghost use Rattle.mcv_core.specs.CoreView.{CoreView};
ghost use Rattle.mcv_core.specs.Opening.{opened_view};

use mcv_hub::HubLedger;
use std::marker::{Brand, PhantomData};
use std::sync::ledger::{Blank, Ledger};

/// The name of each hub's ledger, by the number of the hub, and into how many parts each of them is cut.
pub trait Names {
    ghost name_of: { ℕ → ℕ };

    ghost parts_of: { ℕ };
}

impl Names for Brand {
    ghost name_of = { λ hub. 0 };

    ghost parts_of = { 0 };
}

/// The names of the ledgers that stand for the hubs, and with which core each hub was opened.
pub trait HubNames: Names {
    ghost opened_of: { ℕ → CoreView };
}

// Who passes `Brand` picks what is opened.
impl HubNames for Brand {
    ghost opened_of = { λ hub. opened_view (record { servers = []; symbols = []; entries = []; window = 0 }) [] };
}

/// The ledger of the hub of this number.
pub struct At<F: Names, const HUB: usize> {
    family: PhantomData<F>,
}

impl<F: Names, const HUB: usize> Ledger for At<F, HUB> {
    ghost name = { F.name_of HUB };

    ghost parts = { F.parts_of };
}

impl<F: HubNames, const HUB: usize> HubLedger for At<F, HUB> {
    ghost number = { HUB };

    ghost opened = { F.opened_of HUB };
}

/// A new ledger for each hub.
#[derive(Drop)]
pub struct Blanks {
    pub blank0: Blank,
    pub blank1: Blank,
    pub blank2: Blank,
    pub blank3: Blank,
    pub blank4: Blank,
    pub blank5: Blank,
    pub blank6: Blank,
    pub blank7: Blank,
}

impl Blanks {
    ghost use Rattle.mcv_hubs.specs.Blanks.{HaveParts};

    /// Ledgers of so many parts each.
    pub fn new(parts: u64) -> Blanks
        ensures { HaveParts parts result }
    {
        Blanks {
            blank0: Blank::new(parts),
            blank1: Blank::new(parts),
            blank2: Blank::new(parts),
            blank3: Blank::new(parts),
            blank4: Blank::new(parts),
            blank5: Blank::new(parts),
            blank6: Blank::new(parts),
            blank7: Blank::new(parts),
        }
    }
}
