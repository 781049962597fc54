//! The ledger that stands for a hub.

ghost use Rattle.std.specs.Prelude.{ℕ, []};
ghost use Rattle.mcv_core.specs.CoreView.{CoreView};
ghost use Rattle.mcv_core.specs.Opening.{opened_view};

use std::marker::Brand;
use std::sync::ledger::Ledger;

/// The ledger of the calls that a hub begins: it stands for the hub, and knows the hub's number and with which core that was
/// opened.
pub trait HubLedger: Ledger {
    ghost number: { ℕ };

    ghost opened: { CoreView };
}

// Who passes `Brand` picks what is opened.
impl HubLedger for Brand {
    ghost number = { 0 };

    ghost opened = { opened_view (record { servers = []; symbols = []; entries = []; window = 0 }) [] };
}
