//! The laws of worlds: what holds of the definitions alone, and so of all code that meets them.

ghost use Rattle.mcv_world.specs.Laws.{ChosenIsChoice, CoveredIsKept, CoveredWorldsAreKept, ForgetsSafely, LegsStay, MomentsHaveEras, MovesAreLive, MovesKeepDeletes, MovesKeepWorlds, MovesOfEveryWorld, NothingLaunchedIsLost, OpeningIsWorld, ReadableIsLaunched, RepliesStay};

/// What holds of an opening world (`IsWorld`) still holds after each possible move.
pub fn moves_keep_worlds()
    ensures opening { OpeningIsWorld }
    ensures moves { MovesKeepWorlds }
{}

/// After every list of possible moves each leg that a call has launched is there, each call's outcomes are reachable,
/// and no counted delete leg is Gone.
pub fn nothing_launched_is_lost()
    ensures { NothingLaunchedIsLost }
{}

/// Where the routes are covered and a delete has a reply that is no error, a leg of it that lies under no shadow was
/// launched to each server that could answer a get, gets, incr or decr of its rest.
pub fn readable_servers_are_launched()
    ensures { ReadableIsLaunched }
{}

/// Where the routes are covered, each delete whose reply is no error keeps its legs after every list of possible moves.
pub fn deletes_are_kept()
    ensures { CoveredIsKept }
{}

/// Where the routes are covered, deletes are kept in every world of which what moves keep holds, and so after each
/// possible move from it.
pub fn covered_worlds_are_kept()
    ensures worlds { CoveredWorldsAreKept }
    ensures moves { MovesKeepDeletes }
{}

/// Calls and legs that have ended make no difference to later moves, so a proxy may forget them.
pub fn forgets_safely()
    ensures live { ForgetsSafely }
    ensures moves { MovesAreLive }
    ensures every { MovesOfEveryWorld }
{}

/// A leg keeps its number, its call and what it sends; a call that has its reply keeps it.
pub fn what_is_there_stays()
    ensures legs { LegsStay }
    ensures replies { RepliesStay }
{}

/// A hash that keeps its law chooses an index for each symbol, and a moment's era is one of the routes'.
pub fn hashes_make_choices()
    ensures choices { ChosenIsChoice }
    ensures eras { MomentsHaveEras }
{}
