//! What certificates have to do with coverage. The laws hold of the definitions alone.

ghost use Rattle.mcv_blocks.specs.Coverage.{CoveredHasReasons, JustifiedIsCovered, OneListOfBlocks};

/// Routes have one list of blocks: what is judged is determined by the routes.
pub fn one_list_of_blocks()
    ensures { OneListOfBlocks }
{}

/// Routes with a justified certificate are covered, for every key, in every era, under every choice and at all
/// outcomes that can come.
pub fn justified_is_covered()
    ensures { JustifiedIsCovered }
{}

/// Where routes are covered, some reason without a fault answers for each leaf that can be read, at each of its
/// indexes: a certificate that is justified is there to be found.
pub fn covered_has_reasons()
    ensures { CoveredHasReasons }
{}
