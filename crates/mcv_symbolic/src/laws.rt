//! The laws by which finitely many comparisons decide coverage. They hold of the definitions alone.

ghost use Rattle.mcv_symbolic.specs.CoveredRoutes.{CoveredByMembers, CoveredForLess, CoveredInOneEra};
ghost use Rattle.mcv_symbolic.specs.JustifiedRoutes.{SymbolsAreIndependent};
ghost use Rattle.mcv_symbolic.specs.Laws.{AcknowledgedIgnoresTheChoice, AcknowledgedIsExact, AcknowledgedIsLeast, AlikeAreCovered, CoveredIsJustified, DoneIgnoresTheChoice, DoneIsExact, HitsAreExact, HitsIgnoreTheChoice};

/// The sets are the same under every choice.
pub fn sets_ignore_the_choice()
    ensures hits { HitsIgnoreTheChoice }
    ensures done { DoneIgnoresTheChoice }
    ensures acknowledged { AcknowledgedIgnoresTheChoice }
{}

/// The sets are those that the structure of the route's plan gives, by a rule for each form of a plan.
pub fn sets_are_exact()
    ensures hits { HitsAreExact }
    ensures done { DoneIsExact }
    ensures acknowledged { AcknowledgedIsExact }
    ensures least { AcknowledgedIsLeast }
{}

/// Under some choice no acknowledged leg has the server of a leaf at an index exactly when each symbol by itself has
/// an index at which none of its acknowledged legs has it; the leaf's own symbol, at that index. And under every
/// choice one has it exactly when some symbol by itself has it at each of its indexes.
pub fn symbols_are_independent()
    ensures { SymbolsAreIndependent }
{}

/// A route is covered at a rest exactly when a delete can't be acknowledged, or each leaf that can be read is answered
/// for at each index; a whole class is where one of its rests is; so all rests are where a member of each class is.
/// What is covered for a time is for less; for no time, in each era by itself.
pub fn covered_is_justified()
    ensures justified { CoveredIsJustified }
    ensures class { AlikeAreCovered }
    ensures members { CoveredByMembers }
    ensures less { CoveredForLess }
    ensures one { CoveredInOneEra }
{}
