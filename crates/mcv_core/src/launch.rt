//! Launching entries of a call: what an entry had ready goes into the queue of its server.

ghost use Rattle.std.specs.Prelude.{◌≡◌, ◌<◌, ◌≤◌, ◌+◌, ℕ, Some, IsSome, length};
ghost use Rattle.mcv_queues.specs.Queues.{legs, room, in_flight, servers as known};
ghost use Rattle.mcv_core.specs.Launching.{CanLaunch, IsLaunched};

use crate::errand::Errand;
use mcv_base::LegId;
use mcv_queues::Queues;

/// An entry of a call: a leg that it can launch.
#[derive(Drop)]
pub struct Entry {
    /// What its leg takes with it, until it is launched.
    pub errand: Option<Errand>,
    /// The number of its leg, once it was launched.
    pub leg: Option<u64>,
    /// The place of its reply in what the call has recorded.
    pub place: Option<usize>,
}

impl Entry {
    /// Takes out what the entry's leg takes with it, and keeps the leg's number.
    fn launch(&mut self, number: u64) -> Option<Errand>
        ensures errand { result ≡ self.old.errand }
        ensures leg { self.new.leg ≡ Some number }
        ensures place { self.new.place ≡ self.old.place }
    {
        self.leg = Some(number);
        self.errand.take()
    }
}

/// Launches these entries, one after another: their legs wait under the numbers from `next` on. It takes no memory.
pub fn launch_each(
    fresh: &[usize],
    entries: &mut Vec<Entry>,
    queues: &mut Queues<Errand>,
    next: u64,
)
    requires can { CanLaunch fresh.now entries.old.items (legs queues.old) (room queues.old) (known queues.old) next }
    ensures launched { IsLaunched next fresh.now entries.old.items entries.new.items (legs queues.old) (legs queues.new) }
    ensures flights { (s : ℕ) → in_flight queues.new s ≡ in_flight queues.old s }
    ensures servers { known queues.new ≡ known queues.old }
    ensures room { room queues.old ≤ room queues.new + length fresh.now }
{
    let mut number = next;
    for entry in fresh {
        if let Some(errand) = entries[*entry].launch(number) {
            let server = errand.server();
            queues.push(LegId(number), server, errand);
        }
        number += 1;
    }
}
