//! Calls that were refused for want of a place.

ghost use Rattle.std.specs.Prelude.{◌≡◌, IfSome};
ghost use Rattle.mcv_turn.specs.Refusals.{WasCallRefused, WereRefused, one_more, with_refusal};

use mcv_core::CoreFault;
use mcv_hub::HubLedger;
use std::marker::{Model, PhantomData};

/// How many calls were refused for want of a place. At 2^64 - 1 it stays.
#[derive(Clone, Copy, Debug, PartialEq, Eq)]
pub struct Refused {
    /// The queues of legs had none.
    pub legs: u64,
    /// The history of the chapter had none.
    pub chapter: u64,
}

/// The calls that a hub has refused so since they were taken last. Clauses see how many these are.
#[derive(Drop)]
pub(crate) struct Refusals<B: HubLedger> {
    counts: Refused,
    hub: PhantomData<B>,
}

impl<B: HubLedger> Model for Refusals<B> {
    ghost use Rattle.mcv_turn.specs.Refusals.{WereRefused};
    ghost use Rattle.mcv_turn.specs.declared.refusals.Refused.{Refused as RefusedValue};

    ghost Value = { RefusedValue };

    ghost view = { λ r. r.counts };

    ghost invariant = { λ r. WereRefused B.opened r.counts };
}

/// One more.
fn next(count: u64) -> u64
    ensures { result ≡ one_more count }
{
    count.saturating_add(1)
}

impl<B: HubLedger> Refusals<B> {
    /// None so far.
    pub(crate) fn new() -> Refusals<B>
        ensures { result ≡ record { legs = 0; chapter = 0 } }
    {
        Refusals {
            counts: Refused {
                legs: 0,
                chapter: 0,
            },
            hub: PhantomData,
        }
    }

    /// A call was refused so, if one was.
    pub(crate) fn note(&mut self, refused: Option<CoreFault>)
        requires { IfSome refused (WasCallRefused B.opened) }
        ensures { self.new ≡ with_refusal self.old refused }
    {
        match refused {
            Some(CoreFault::LegsFull) => self.counts.legs = next(self.counts.legs),
            Some(CoreFault::ChapterFull) => self.counts.chapter = next(self.counts.chapter),
            _ => {}
        }
    }

    /// Takes what was counted; it begins again then.
    pub(crate) fn take(&mut self) -> Refused
        ensures taken { result ≡ self.old }
        ensures were { WereRefused B.opened result }
        ensures none { self.new ≡ record { legs = 0; chapter = 0 } }
    {
        let counts = self.counts;
        self.counts = Refused {
            legs: 0,
            chapter: 0,
        };
        counts
    }
}
