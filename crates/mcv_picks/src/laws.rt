//! What is picked, beside what is judged.

ghost use Rattle.mcv_picks.specs.Reasons.{NoOtherReasonHolds, PickedReasonsHold};

/// A reason that is picked has no fault.
pub fn picked_reasons_hold()
    ensures { PickedReasonsHold }
{}

/// Where none is picked for a leaf at an index, each reason has a fault.
pub fn no_other_reason_holds()
    ensures { NoOtherReasonHolds }
{}
