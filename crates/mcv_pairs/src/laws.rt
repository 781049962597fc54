//! What pairs that answer have to do with reasons, and that the reasons that are picked leave one list of them.

ghost use Rattle.mcv_pairs.specs.Gaps.{AnsweredHasReasons};
ghost use Rattle.mcv_pairs.specs.Reasons.{OneListOfPairs};

/// Where pairs answer blocks, each index of each readable leaf has a reason.
pub fn answered_has_reasons()
    ensures { AnsweredHasReasons }
{}

/// Pairs that answer a block in order, each with the reason that is picked, are one list.
pub fn one_list_of_pairs()
    ensures { OneListOfPairs }
{}
