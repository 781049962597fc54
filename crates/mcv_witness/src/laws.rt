//! The law of findings, which holds of the definitions alone.

ghost use Rattle.mcv_witness.specs.Breaks.{FindingsAreLosses};

/// Routes for which a finding breaks coverage aren't covered.
pub fn findings_are_losses()
    ensures { FindingsAreLosses }
{}
