//! The spool as it is found.

ghost use Rattle.std.specs.Prelude.{◌≡◌, IfOk, map};
ghost use Rattle.mcv_serve.specs.Pending.{numbered};
ghost use Rattle.mcv_spool.specs.File.{slots, waiting};

use crate::fault::ProxyFault;
use mcv_spool::{Disk, Slot, Spool, SpoolRecord};
use std::alloc::{AllocError, Global};

/// The spool, and what is pending.
#[derive(Drop)]
pub(crate) struct Store<D: Disk> {
    pub(crate) spool: Spool<D>,
    /// The records that were pending when the spool was opened, each with its number.
    pub(crate) records: Vec<(u64, SpoolRecord)>,
}

/// The records that are pending in these slots, each with its number, in the order of numbers.
fn pending_records(alloc: Global, slots: &[Slot]) -> Result<Vec<(u64, SpoolRecord)>, AllocError>
    ensures { IfOk result (λ records. records.items ≡ numbered 0 slots.now) }
{
    let mut records = Vec::new(alloc);
    for (number, slot) in slots.iter().enumerate() {
        if let Some(record) = slot.record() {
            records.push((number as u64, record.copied()))?;
        }
    }
    Ok(records)
}

/// The spool of a disk, and the records that are pending in it.
pub(crate) fn open_spool<D: Disk>(alloc: Global, disk: D) -> Result<Store<D>, ProxyFault>
    ensures { D.keeps_model → IfOk result (λ store. store.records.items ≡ numbered 0 (map waiting (slots (D.seen disk)))) }
{
    let spool = Spool::open(alloc, disk)?;
    let records = pending_records(alloc, spool.pending())?;
    Ok(Store { spool, records })
}
