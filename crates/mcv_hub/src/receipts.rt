//! Receipts of replies that were taken, and whether they are good.

ghost use Rattle.std.specs.Prelude.{◌≡◌, ◌≢◌, ℕ, true, false, Some, length, IfErr, IfOk, slice_get, slice_set};
ghost use Rattle.mcv_hub.specs.Receipts.{ArePassed, AreRefused, IsGood, is_older};

use crate::entry::Entry;
use mcv_base::CallId;
use std::alloc::{AllocError, Global};
use thiserror::Error;

/// Where in the history of a chapter the reply to a call was taken.
#[derive(Clone, Copy, Debug, PartialEq, Eq)]
pub struct Receipt {
    /// The number of the hub, from 0.
    pub hub: usize,
    /// The number of the chapter, from 0.
    pub chapter: u64,
    /// The number of the entry in the chapter, from 0.
    pub entry: usize,
    pub call: CallId,
}

/// What a hub counted.
#[derive(Clone, Copy, Debug, PartialEq, Eq)]
pub struct Report {
    /// Calls that were begun, in all chapters.
    pub begun: u64,
    /// Replies that were taken, in all chapters.
    pub taken: u64,
    /// Receipts of earlier chapters, which can't be looked up any more.
    pub older: u64,
}

/// Why receipts are refused.
#[derive(Clone, Copy, Debug, PartialEq, Eq, Error)]
pub enum ReceiptFault {
    #[error("a receipt that names no reply of its call")]
    Stranger = 1,
    #[error("two receipts of one reply")]
    Twice = 2,
    #[error("out of memory")]
    Memory = 3,
}

/// Whether a receipt is one of an earlier chapter of the hub. Any other one is good, names an entry that wasn't seen before, and is
/// seen now.
#[tactic(auto, using(crate::proofs::CheckedReceipts::is_of_earlier, crate::proofs::CheckedReceipts::is_of_other_hub, crate::proofs::CheckedReceipts::isnt_of_earlier))]
fn check_receipt(
    history: &[Entry],
    hub: usize,
    chapter: u64,
    seen: &mut Vec<bool>,
    receipt: Receipt,
) -> Result<bool, ReceiptFault>
    requires { length seen.old.items ≡ length history.now }
    ensures older { IfOk result (λ older. older ≡ is_older hub chapter receipt) }
    ensures skipped { IfOk result (λ older. older ≡ true → seen.new.items ≡ seen.old.items) }
    ensures good { IfOk result (λ older. older ≡ false → IsGood hub chapter history.now receipt) }
    ensures marks { IfOk result (λ older. older ≡ false → (slice_get seen.old.items receipt.entry ≡ Some false) × (seen.new.items ≡ slice_set seen.old.items receipt.entry true)) }
    ensures len { length seen.new.items ≡ length history.now }
    ensures stranger { IfErr result (λ fault. fault ≡ ReceiptFault.Stranger → (is_older hub chapter receipt ≡ false) × (IsGood hub chapter history.now receipt → ⊥)) }
    ensures twice { IfErr result (λ fault. fault ≡ ReceiptFault.Twice → (receipt.hub ≡ hub) × (receipt.chapter ≡ chapter) × (slice_get seen.old.items receipt.entry ≡ Some true)) }
    ensures memory { IfErr result (λ fault. fault ≢ ReceiptFault.Memory) }
{
    if receipt.hub != hub {
        return Err(ReceiptFault::Stranger);
    }
    if receipt.chapter < chapter {
        return Ok(true);
    }
    if receipt.chapter != chapter {
        return Err(ReceiptFault::Stranger);
    }
    match history.get(receipt.entry) {
        Some(Entry::Taken(call)) => {
            if *call != receipt.call {
                return Err(ReceiptFault::Stranger);
            }
            if seen[receipt.entry] {
                return Err(ReceiptFault::Twice);
            }
            seen[receipt.entry] = true;
            Ok(false)
        }
        _ => Err(ReceiptFault::Stranger),
    }
}

/// As many marks as asked, none of them set.
fn no_marks(alloc: Global, count: usize) -> Result<Vec<bool>, AllocError>
    ensures len { IfOk result (λ v. length v.items ≡ count) }
    ensures unset { IfOk result (λ v. (k : ℕ) → slice_get v.items k ≢ Some true) }
{
    let mut marks = Vec::new(alloc);
    marks.resize(count, false)?;
    Ok(marks)
}

/// How many receipts are of earlier chapters, where all others are good and none is there twice.
pub(crate) fn count_older(
    alloc: Global,
    history: &[Entry],
    hub: usize,
    chapter: u64,
    receipts: &[Receipt],
) -> Result<u64, ReceiptFault>
    ensures passed { IfOk result (ArePassed hub chapter history.now receipts.now) }
    ensures err { IfErr result (AreRefused hub chapter history.now receipts.now) }
{
    let Ok(mut seen) = no_marks(alloc, history.len()) else {
        return Err(ReceiptFault::Memory);
    };
    let mut older = 0u64;
    for index in 0..receipts.len() {
        if check_receipt(history, hub, chapter, &mut seen, receipts[index])? {
            older += 1;
        }
    }
    Ok(older)
}
