//! When something may be done again.

ghost use Rattle.std.specs.Prelude.{◌≡◌};
ghost use Rattle.mcv_poll.specs.Due.{is_due, shorter};

use std::time::{Duration, Instant};

/// Whether something that was done at the one moment, if it was, may be done again at the other, where so much has to be between
/// them. Where the clock can't be read it may.
pub(crate) fn is_due(last: Option<Instant>, now: Option<Instant>, respite: Duration) -> bool
    ensures { result ≡ is_due last now respite }
{
    match (last, now) {
        (Some(last), Some(now)) => { now.duration_since(last).as_nanos() >= respite.as_nanos() }
        _ => true,
    }
}

/// The shorter one of two times to wait, of which each may have no limit.
pub(crate) fn shorter(one: Option<Duration>, other: Option<Duration>) -> Option<Duration>
    ensures { result ≡ shorter one other }
{
    match (one, other) {
        (Some(a), Some(b)) => {
            if b.as_nanos() < a.as_nanos() {
                Some(b)
            } else {
                Some(a)
            }
        }
        (Some(a), None) => Some(a),
        (None, other) => other,
    }
}
