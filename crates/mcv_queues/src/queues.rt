//! The legs of all servers. The calls of `Queues` are in transitions.rt.

ghost use Rattle.std.specs.Prelude.{length};
ghost use Rattle.mcv_queues.specs.Rows.{links, legs};
ghost use Rattle.mcv_queues.specs.Soundness.{IsQueues};
ghost use Rattle.mcv_queues.specs.Roots.{root_of, flights};

use crate::roots::Roots;
use crate::rows::Rows;

/// The legs of all servers, by number.
#[derive(Drop)]
pub struct Queues<T> {
    pub(crate) rows: Rows<T>,
    pub(crate) roots: Roots,
    ghost sound: { IsQueues (legs rows) (links rows) (root_of roots) (flights roots) (length roots.servers.items) },
}
