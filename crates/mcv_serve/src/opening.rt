//! The hubs of a proxy as they are opened.

ghost use Rattle.std.specs.Prelude.{◌≡◌, ◌+◌, ℕ};
ghost use Rattle.std.specs.Arc.{arc_value};
ghost use Rattle.std.specs.Int.NonZero.{non_zero_usize_get};
ghost use Rattle.mcv_core.specs.Opening.{opened_within};
ghost use Rattle.mcv_hubs.specs.Blanks.{AreOf};
ghost use Rattle.mcv_hubs.specs.Choice.{records_at};

use crate::fault::ProxyFault;
use mcv_check::Accepted;
use mcv_hub::Capacity;
use mcv_hubs::{Blanks, HubChoice, HubNames, HubPasses, Hubs, Names, Seats};
use mcv_spool::SpoolRecord;
use std::alloc::Global;
use std::num::NonZeroUsize;
use std::sync::Arc;

/// The seats for sessions: the loop has one for all of its clients.
pub(crate) const SEATS: u64 = 1;

/// How many bells of each hub sessions wait at; the loop waits at none.
const BELLS: usize = 1;

/// How many legs of a server of each hub may be in flight at a time.
fn flights() -> NonZeroUsize
    ensures { non_zero_usize_get result ≡ 64 }
{
    match NonZeroUsize::new(64) {
        Some(flights) => flights,
        None => unreachable!(),
    }
}

/// Hubs that were opened, what makes their passes, and the loop's seats.
#[derive(Drop)]
pub(crate) struct Opened<F: HubNames, G: Names> {
    pub(crate) hubs: Hubs<F, G>,
    pub(crate) passes: HubPasses<F, G>,
    pub(crate) seats: Seats<F, G>,
}

/// The books in which calls begun and replies taken are counted, before they are opened.
#[derive(Drop)]
pub(crate) struct Books {
    pub(crate) begun: Blanks,
    pub(crate) taken: Blanks,
}

/// The hubs, each with the records of its keys.
pub(crate) fn open_hubs<F: HubNames, G: Names>(
    alloc: Global,
    accepted: Arc<Accepted>,
    choice: HubChoice,
    records: &[(u64, SpoolRecord)],
    books: Books,
) -> Result<Opened<F, G>, ProxyFault>
    requires begun { AreOf F.name_of F.parts_of (SEATS + 1) books.begun }
    requires taken { AreOf G.name_of G.parts_of (SEATS + 1) books.taken }
    requires opened { (hub : ℕ) → F.opened_of hub ≡ opened_within 64 (arc_value accepted) (records_at choice hub records.now) }
{
    let capacity = Capacity {
        flights: flights(),
        bells: BELLS,
        seats: SEATS,
    };
    let Books { begun, taken } = books;
    let opened = Hubs::<F, G>::new(alloc, accepted, choice, records, capacity, begun, taken);
    let Ok((hubs, mut passes)) = opened else {
        return Err(ProxyFault::Memory);
    };
    let Some(seats) = passes.seats() else {
        return Err(ProxyFault::Memory);
    };
    Ok(Opened {
        hubs,
        passes,
        seats,
    })
}
