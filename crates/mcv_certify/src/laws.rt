//! What a gap means.

ghost use Rattle.mcv_certify.specs.Gap.{GapIsLoss};

/// Routes with a gap aren't covered: for some rest, near eras, choice and outcomes a server that an acknowledged delete
/// hasn't been sent to can be read.
pub fn gap_is_loss()
    ensures { GapIsLoss }
{}
