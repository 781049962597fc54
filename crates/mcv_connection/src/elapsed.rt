//! How much time has passed, by a clock that can't always be read.

ghost use Rattle.std.specs.Prelude.{◌≡◌, option_map};
ghost use Rattle.std.specs.Duration.{as_nanos};
ghost use Rattle.mcv_connection.specs.Elapsed.{has_passed, nanos_between};

use std::time::{Duration, Instant};

/// How long it is from a moment to another one, if both are known; nothing where that one comes first.
pub fn between(from: Option<Instant>, to: Option<Instant>) -> Option<Duration>
    ensures { option_map as_nanos result ≡ nanos_between from to }
{
    match (from, to) {
        (Some(from), Some(to)) => Some(to.duration_since(from)),
        _ => None,
    }
}

/// Whether so much time or more has passed since a moment. Not where one of them isn't known.
pub fn has_passed(since: Option<Instant>, now: Option<Instant>, limit: Option<Duration>) -> bool
    ensures { result ≡ has_passed since now limit }
{
    match (since, now, limit) {
        (Some(since), Some(now), Some(limit)) => limit
            .saturating_sub(now.duration_since(since))
            .is_zero(),
        _ => false,
    }
}
