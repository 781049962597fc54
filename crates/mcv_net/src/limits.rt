//! The limits of time.

ghost use Rattle.std.specs.Prelude.{◌≡◌, ◌*◌};
ghost use Rattle.std.specs.Option.{option_map};
ghost use Rattle.std.specs.Duration.{as_nanos};

use mcv_words::{ClientTimeout, ServerTimeout};
use std::time::Duration;

/// So many milliseconds.
fn time_of(millis: u64) -> Duration
    ensures { as_nanos result ≡ millis * 1_000_000 }
{
    Duration::from_millis(millis)
}

/// How long a server may take; None where it may take any time.
pub(crate) fn server_limit(timeout: Option<ServerTimeout>) -> Option<Duration>
    ensures { option_map as_nanos result ≡ option_map (λ t. t.millis * 1_000_000) timeout }
{
    match timeout {
        Some(timeout) => Some(time_of(timeout.millis)),
        None => None,
    }
}

/// For how long a client may send nothing or take nothing; None where it may for any time.
pub(crate) fn client_limit(timeout: Option<ClientTimeout>) -> Option<Duration>
    ensures { option_map as_nanos result ≡ option_map (λ t. t.millis * 1_000_000) timeout }
{
    match timeout {
        Some(timeout) => Some(time_of(timeout.millis)),
        None => None,
    }
}
