//! For how long a loop may wait.

ghost use Rattle.std.specs.Prelude.{◌≡◌};
ghost use Rattle.std.specs.Duration.{as_nanos};
ghost use Rattle.mcv_connection.specs.Elapsed.{nanos_between};
ghost use Rattle.mcv_schedule.specs.Patience.{IsLateAt, patience, pause, up_to};

use crate::ending::Ending;
use mcv_connection::between;
use std::time::{Duration, Instant};

/// How long at most it is until clients' times and marked servers are looked at, in milliseconds.
pub const TICK: u64 = 1_000;

/// How long at most it is until a loop that drains looks whether it is over, in milliseconds.
const DRAIN_TICK: u64 = 100;

/// The longest that a loop waits.
pub fn pause(ending: Ending) -> Duration
    ensures { as_nanos result ≡ pause ending }
{
    if ending.is_draining() {
        Duration::from_millis(DRAIN_TICK)
    } else {
        Duration::from_millis(TICK)
    }
}

/// So long, and no longer than up to this moment.
fn up_to(now: Option<Instant>, moment: Option<Instant>, most: Duration) -> Duration
    ensures { as_nanos result ≡ up_to (nanos_between now moment) (as_nanos most) }
{
    match between(now, moment) {
        Some(left) => most.min(left),
        None => most,
    }
}

/// A moment before which no leg's time runs out, where no server owes an answer since before this one.
pub fn late_at(oldest: Option<Instant>, limit: Option<Duration>) -> Option<Instant>
    ensures { IsLateAt oldest limit result }
{
    match (oldest, limit) {
        (Some(oldest), Some(limit)) => oldest.checked_add(limit),
        _ => None,
    }
}

/// For how long nothing need be done before something is ready: not at all where something is to be done, else up to the nearest time
/// of a leg and the moment of a drain, and no longer than the pause.
pub fn patience(
    is_busy: bool,
    pause: Duration,
    now: Option<Instant>,
    late_at: Option<Instant>,
    ends_at: Option<Instant>,
) -> Duration
    ensures { as_nanos result ≡ patience is_busy (as_nanos pause) now late_at ends_at }
{
    if is_busy {
        return Duration::from_millis(0);
    }
    up_to(now, ends_at, up_to(now, late_at, pause))
}
