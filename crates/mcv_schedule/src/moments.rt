//! Moments of a clock that can't always be read.

ghost use Rattle.std.specs.Prelude.{◌≡◌};
ghost use Rattle.mcv_schedule.specs.Moments.{earlier, has_come, nearer};

use std::time::Instant;

/// Whether a moment has come.
pub fn has_come(moment: Option<Instant>, now: Option<Instant>) -> bool
    ensures { result ≡ has_come moment now }
{
    match (moment, now) {
        (Some(moment), Some(now)) => moment.duration_since(now).is_zero(),
        _ => false,
    }
}

/// The earlier one of two moments.
fn nearer(a: Instant, b: Instant) -> Instant
    ensures { result ≡ nearer a b }
{
    if a.duration_since(b).is_zero() { a } else { b }
}

/// The earlier one of two moments, of which each may be missing.
pub fn earlier(one: Option<Instant>, other: Option<Instant>) -> Option<Instant>
    ensures { result ≡ earlier one other }
{
    match (one, other) {
        (Some(a), Some(b)) => Some(nearer(a, b)),
        (Some(a), None) => Some(a),
        (None, other) => other,
    }
}
