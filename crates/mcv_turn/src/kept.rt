//! The receipts that a session keeps.

ghost use Rattle.std.specs.Prelude.{◌≡◌, ◌+◌, ◌<◌, ◌≤◌, [], fold, length, nat_le, vec_len, vec_capacity, OnOk};
ghost use Rattle.std.specs.List.{All, filter};
ghost use Rattle.mcv_turn.specs.Answers.{with_receipt};

use mcv_hub::{Receipt, TakenReply};
use std::alloc::{AllocError, Global};

/// The receipts of replies that were taken, without those of earlier chapters than that of the last one.
#[derive(Drop)]
pub(crate) struct Kept {
    pub(crate) receipts: Vec<Receipt>,
    /// No receipt is of an earlier chapter.
    chapter: u64,
    ghost current: { All (λ r. chapter ≤ r.chapter) receipts.items },
}

/// Drops the receipts of chapters before this one; none of them is of an earlier one than `oldest`.
fn drop_older(receipts: &mut Vec<Receipt>, oldest: u64, chapter: u64)
    requires { All (λ r. oldest ≤ r.chapter) receipts.old.items }
    ensures items { receipts.new.items ≡ filter (λ r. nat_le chapter r.chapter) receipts.old.items }
    ensures len { vec_len receipts.new ≤ vec_len receipts.old }
    ensures room { vec_capacity receipts.new ≡ vec_capacity receipts.old }
{
    if chapter <= oldest {
        return;
    }
    receipts.retain(|receipt| receipt.chapter >= chapter);
}

impl Kept {
    /// No receipts.
    pub(crate) fn new(alloc: Global) -> Kept
        ensures { result.receipts.items ≡ [] }
    {
        Kept {
            receipts: Vec::new(alloc),
            chapter: 0,
        }
    }

    /// Makes room for so many more.
    pub(crate) fn reserve(&mut self, count: usize) -> Result<(), AllocError>
        ensures same { self.new.receipts.items ≡ self.old.receipts.items }
        ensures room { OnOk result (vec_len self.new.receipts + count ≤ vec_capacity self.new.receipts) }
    {
        self.receipts.reserve(count)
    }

    /// Drops the receipts of chapters before this one.
    fn enter(&mut self, chapter: u64)
        ensures items { self.new.receipts.items ≡ filter (λ r. nat_le chapter r.chapter) self.old.receipts.items }
        ensures chapter { self.new.chapter ≡ chapter }
        ensures len { vec_len self.new.receipts ≤ vec_len self.old.receipts }
        ensures room { vec_capacity self.new.receipts ≡ vec_capacity self.old.receipts }
    {
        drop_older(&mut self.receipts, self.chapter, chapter);
        self.chapter = chapter;
    }

    /// Keeps the receipt of a reply, and drops those of earlier chapters.
    pub(crate) fn keep(&mut self, taken: &TakenReply)
        requires { vec_len self.old.receipts < vec_capacity self.old.receipts }
        ensures kept { self.new.receipts.items ≡ with_receipt self.old.receipts.items taken.now }
        ensures len { vec_len self.new.receipts ≤ vec_len self.old.receipts + 1 }
        ensures room { vec_capacity self.new.receipts ≡ vec_capacity self.old.receipts }
    {
        let receipt = taken.receipt();
        self.enter(receipt.chapter);
        self.receipts.push_reserved(receipt);
    }
}
