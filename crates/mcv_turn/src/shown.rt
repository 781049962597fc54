//! What there is to be noted of a hub at the end of a turn.

ghost use Rattle.std.specs.Prelude.{◌≡◌, false, None, IfSome};
ghost use Rattle.mcv_turn.specs.Shown.{AreCounts, IsLoad};

use mcv_hub::{Guard, HubLedger};
use mcv_watch::Load;
use std::alloc::Global;
use std::sync::ledger::Ledger;

/// How full the chapter is, which has this number.
pub(crate) fn load_of<B: HubLedger, T: Ledger>(guard: &Guard<'_, B, T>, chapter: u64) -> Load
    ensures { IsLoad chapter guard.now result }
{
    Load {
        chapter,
        entries: guard.core().entries() as u64,
        bytes: guard.bytes(),
    }
}

/// How many legs wait for each server, where that is to be counted; None also where there is no memory for it.
pub(crate) fn waiting_of<B: HubLedger, T: Ledger>(
    alloc: Global,
    guard: &Guard<'_, B, T>,
    counts: bool,
) -> Option<Vec<usize>>
    ensures unasked { counts ≡ false → result ≡ None }
    ensures counted { IfSome result (λ v. AreCounts guard.now v.items) }
{
    if !counts {
        return None;
    }
    match guard.core().waiting(alloc) {
        Ok(waiting) => Some(waiting),
        Err(_) => None,
    }
}
