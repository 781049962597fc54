//! What holds of the definitions.

ghost use Rattle.mcv_judge.specs.Answers.{AnsweredIsFaultless};

/// Pairs that answer each readable leaf of the blocks, one leaf after the other, rise, and no fault is in them.
pub fn answered_is_faultless()
    ensures { AnsweredIsFaultless }
{}
