//! The laws of a core's rows: what holds of the definitions alone, and so of all code that meets them.

ghost use Rattle.mcv_events.specs.Entries.{CallsAreLaidOut, FreshAreEntries, LaidOutByMembers, LaunchedAreEntries, QueuedOneByOne, SettledByEntries};
ghost use Rattle.mcv_events.specs.Events.{AnsweredMoves, BeganMoves, EraMoves, PerformedMoves, RefusedMoves, SpooledMoves, StatesAreNoMoves, StatesKeepCores, TakenMoves};
ghost use Rattle.mcv_events.specs.QueuedLegs.{BeginningQueues, PuttingCounts, RecordingQueues};
ghost use Rattle.mcv_events.specs.Reservations.{BeginningReserves, RecordingSpends, TakingReserves};
ghost use Rattle.mcv_events.specs.Runs.{CoresKeepDeletes, OpenedIsCore, RunsAreMoves, SpooledRowsOpen};
ghost use Rattle.mcv_events.specs.Status.{HistoriesAgree, StatusIsReply};

/// Each call has entries, and they say which legs it has launched, which a further reply launches, and whether each
/// launched leg has an outcome.
pub fn legs_are_entries()
    ensures laid_out { CallsAreLaidOut }
    ensures members { LaidOutByMembers }
    ensures launched { LaunchedAreEntries }
    ensures fresh { FreshAreEntries }
    ensures settled { SettledByEntries }
    ensures queued { QueuedOneByOne }
{}

/// Each event on a core's rows is its move of the world that they keep, or leaves it as it is, and what holds of a
/// core's rows holds after it.
pub fn events_are_moves()
    ensures began { BeganMoves }
    ensures answered { AnsweredMoves }
    ensures spooled { SpooledMoves }
    ensures refused { RefusedMoves }
    ensures performed { PerformedMoves }
    ensures era { EraMoves }
    ensures taken { TakenMoves }
    ensures no_moves { StatesAreNoMoves }
    ensures states { StatesKeepCores }
{}

/// Where the routes are covered, deletes are kept after every list of events from opened records on, in the world of
/// the moves that these events are; the rows keep what is left of that world. Rows without calls, all of whose legs are
/// in the spool, open a further chapter.
pub fn cores_keep_deletes()
    ensures opened { OpenedIsCore }
    ensures opening { SpooledRowsOpen }
    ensures runs { RunsAreMoves }
    ensures kept { CoresKeepDeletes }
{}

/// A call that begins reserves its entries, what it launches later it had reserved, and what is reserved never grows
/// otherwise.
pub fn legs_are_reserved()
    ensures began { BeginningReserves }
    ensures recorded { RecordingSpends }
    ensures taken { TakingReserves }
{}

/// How many legs are queued after each change of the rows.
pub fn queued_legs_are_counted()
    ensures began { BeginningQueues }
    ensures recorded { RecordingQueues }
    ensures put { PuttingCounts }
{}

/// The reply of a call is what its status names, over the code's list of what it has recorded.
pub fn status_is_reply()
    ensures histories { HistoriesAgree }
    ensures status { StatusIsReply }
{}
