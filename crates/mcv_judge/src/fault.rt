//! What may be wrong with a certificate.

ghost use Rattle.std.specs.Prelude.{◌≡◌};
ghost use Rattle.mcv_judge.specs.Numbers.{number_of};

use thiserror::Error;

/// What is wrong at a place of a certificate.
#[derive(Clone, Copy, Debug, PartialEq, Eq, Error)]
pub enum PairFault {
    #[error("a readable leaf or one of its indexes has no pair")]
    Missing,
    #[error("a pair where no readable leaf wants one")]
    Stray,
    #[error("a leg that not every delete that has a reply has sent")]
    NotAcknowledged,
    #[error("another symbol, number of leaves or server than the reason says")]
    OtherServer,
    #[error("never, where a delete can be acknowledged")]
    CanBeAcknowledged,
}

impl PairFault {
    /// Its number, from 1 in the order of the variants.
    pub fn number(self) -> u8
        ensures { result ≡ number_of self }
    {
        match self {
            PairFault::Missing => 1,
            PairFault::Stray => 2,
            PairFault::NotAcknowledged => 3,
            PairFault::OtherServer => 4,
            PairFault::CanBeAcknowledged => 5,
        }
    }
}
