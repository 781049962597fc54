//! Makes the certificate of covered routes, or reports the first place where a delete can be lost.
//!
//! `certify` goes from block to block: a block's readable leaves get their pairs, or one of them has an index for which
//! no reason answers. What such a gap is: specs/Gap.antt. Routes with a gap aren't covered (`gap_is_loss`).
#![tactic(auto)]

mod block;
mod gap;
mod laws;
mod making;

pub use gap::{CertifyFault, Gap};
pub use laws::gap_is_loss;
pub use making::certify;
