//! The times of a warm-up and of a migration that a configuration may leave out.

ghost use Rattle.serde_json.specs.View.{view};
ghost use Rattle.mcv_names.specs.Fault.{Gives};
ghost use Rattle.mcv_names.specs.Path.{path_of};
ghost use Rattle.mcv_config.specs.Routes.{exptime_read, interval_read};

use crate::numbers::read_seconds_or;
use mcv_names::{ReadFault, Trail};
use serde_json::Value;
use std::alloc::Global;

/// The exptime of a warm-up that names none.
const DEFAULT_EXPTIME: u32 = 0;

/// The interval of a migration that names none: an hour.
const DEFAULT_INTERVAL: u32 = 3_600;

/// The exptime of a warm-up's add.
#[tactic(auto, using(mcv_names::proofs::Faults::faults), unfolding(crate::specs::Routes::exptime_read))]
pub(crate) fn read_exptime(
    alloc: Global,
    trail: &Trail<'_>,
    value: &Value,
) -> Result<u32, ReadFault>
    ensures { Gives (λ n. n) result (exptime_read (path_of trail.now) (view value.now)) }
{
    let here = Trail::Key(trail, "exptime");
    read_seconds_or(alloc, DEFAULT_EXPTIME, &here, value.get("exptime"))
}

/// The interval of a migration.
#[tactic(auto, using(mcv_names::proofs::Faults::faults), unfolding(crate::specs::Routes::interval_read))]
pub(crate) fn read_interval(
    alloc: Global,
    trail: &Trail<'_>,
    value: &Value,
) -> Result<u32, ReadFault>
    ensures { Gives (λ n. n) result (interval_read (path_of trail.now) (view value.now)) }
{
    let here = Trail::Key(trail, "interval");
    read_seconds_or(alloc, DEFAULT_INTERVAL, &here, value.get("interval"))
}
