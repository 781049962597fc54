//! Where a delete can be lost.

ghost use Rattle.std.specs.Prelude.{◌≡◌, ◌<◌, All, IfOk};
ghost use Rattle.mcv_judge.specs.PairsInMemory.{block_of};
ghost use Rattle.mcv_pairs.specs.Gaps.{IsFirstGapIn};
ghost use Rattle.mcv_certify.specs.BlockSteps.{ReportsGapOf};
ghost use Rattle.mcv_certify.specs.declared.gap.CertifyFault.TheVariants.{Memory as out_of_memory};

use mcv_base::ServerId;
use mcv_cert::Place;
use mcv_judge::Block;
use mcv_pairs::BlockGap;
use std::alloc::{AllocError, Global};

/// A leaf from which a get, gets, incr or decr can be answered, and an index of it: an acknowledged delete may not have
/// reached the server that the leaf has there.
#[derive(Drop)]
pub struct Gap {
    pub place: Place,
    /// The index of the leaf's symbol, from 0.
    pub at: usize,
    /// The server that the leaf has at the index.
    pub server: ServerId,
}

/// Why there is no certificate.
#[derive(Drop)]
pub enum CertifyFault {
    /// The first place where a delete can be lost.
    Lost(Gap),
    /// Memory ran out.
    Memory,
}

impl From<AllocError> for CertifyFault {
    ghost from_gives = { λ _ e. e ≡ out_of_memory };

    fn from(_error: AllocError) -> CertifyFault {
        CertifyFault::Memory
    }
}

/// The bytes of a word, in memory of their own.
fn copied(alloc: Global, word: &[u8]) -> Result<Vec<u8>, AllocError>
    ensures same { IfOk result (λ v. v.items ≡ word.now) }
    ensures bytes { IfOk result (λ v. All (λ c. c < 256) v.items) }
{
    Vec::from_slice(alloc, word)
}

/// The first gap of a block, as it is reported.
pub fn gap_of(alloc: Global, block: &Block, gap: BlockGap) -> Result<Gap, AllocError>
    requires { IsFirstGapIn (block_of block.now) gap.leaf gap.at }
    ensures { IfOk result (λ f. ReportsGapOf (block_of block.now) f) }
{
    let leaf = &block.readable[gap.leaf];
    let servers = leaf.servers;
    let server = servers[gap.at];
    Ok(Gap {
        place: Place {
            route: block.spot.route,
            class: copied(alloc, block.spot.class)?,
            era: block.spot.era,
            get_era: block.spot.get_era,
            leaf: leaf.position.copy(alloc)?,
        },
        at: gap.at,
        server,
    })
}
