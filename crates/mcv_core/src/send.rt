//! Legs are sent, for the first time or from the spool.

ghost use Rattle.std.specs.Prelude.{◌≡◌};
ghost use Rattle.mcv_core.specs.Events.{IsEvent, IsNext, IsReplay};
ghost use Rattle.mcv_core.specs.Fault.{queue_fault};
ghost use Rattle.mcv_core.specs.View.{core_view};

use crate::dispatcher::Dispatcher;
use crate::fault::CoreFault;
use mcv_base::{LegId, ServerId};
use mcv_queues::QueueFault;

impl CoreFault {
    /// Why a server is handed no leg.
    fn refused(fault: QueueFault) -> CoreFault
        ensures { result ≡ queue_fault fault }
    {
        match fault {
            QueueFault::Busy => CoreFault::Busy,
            QueueFault::NothingWaiting => CoreFault::NothingWaiting,
        }
    }
}

impl Dispatcher {
    /// Sends the first leg that waits for a server: the one with the least number. `Busy` where as many legs of the server
    /// are in flight as may be, else `NothingWaiting` where none waits.
    pub fn next(&mut self, server: ServerId) -> Result<LegId, CoreFault>
        ensures { IsEvent (IsNext (core_view self.old) server result) (core_view self.new) }
    {
        match self.queues.next(server, self.limit) {
            Ok(leg) => Ok(leg),
            Err(fault) => Err(CoreFault::refused(fault)),
        }
    }

    /// Sends the first leg of a server that is in the spool and not in flight: the one with the least number. It stays in the
    /// spool. `Busy` and `NothingWaiting` as in `next`.
    pub fn replay(&mut self, server: ServerId) -> Result<LegId, CoreFault>
        ensures { IsEvent (IsReplay (core_view self.old) server result) (core_view self.new) }
    {
        match self.queues.replay(server, self.limit) {
            Ok(leg) => Ok(leg),
            Err(fault) => Err(CoreFault::refused(fault)),
        }
    }
}
