//! The running calls by number.

ghost use Rattle.std.specs.Prelude.{◌≡◌, ◌<◌, ◌≤◌, ◌+◌, ℕ, Some, None, OnOk, cond, option_copied};
ghost use Rattle.mcv_queues.specs.Queues.{legs, room as leg_room, in_flight, servers as known};
ghost use Rattle.mcv_world.specs.World.{put};
ghost use Rattle.mcv_core.specs.declared.call.Call.{Call as Running};
ghost use Rattle.mcv_core.specs.Calls.{CanNoteAt, IsRecordedAt, calls_at, room};
ghost use Rattle.mcv_core.specs.Facts.{records_in};

use crate::call::{Call, Recording};
use crate::errand::Errand;
use mcv_base::Part;
use mcv_queues::{NumberHasher, Queues};
use std::alloc::{AllocError, Global};
use std::collections::HashMap;
use std::hash::BuildHasherDefault;

/// The running calls by number.
#[derive(Drop)]
pub struct Calls {
    pub(crate) calls: HashMap<u64, Call, BuildHasherDefault<NumberHasher>>,
}

impl Calls {
    pub fn new(alloc: Global) -> Calls
        ensures { calls_at result ≡ (λ k. None) }
    {
        Calls {
            calls: HashMap::with_hasher(alloc, BuildHasherDefault::new()),
        }
    }

    /// The call of a number.
    pub fn get(&self, number: u64) -> Option<&Call>
        ensures { option_copied result ≡ calls_at self.now number }
    {
        self.calls.get(&number)
    }

    /// Makes room for one call more.
    pub fn reserve(&mut self) -> Result<(), AllocError>
        ensures same { calls_at self.new ≡ calls_at self.old }
        ensures ok { OnOk result (0 < room self.new) }
    {
        self.calls.reserve(1)
    }

    /// Adds a call, where there is room.
    pub fn add(&mut self, number: u64, call: Call)
        requires { 0 < room self.old }
        ensures { calls_at self.new ≡ put (calls_at self.old) number (Some call) }
    {
        let _ = self.calls.insert(number, call);
    }

    /// Takes a call out.
    pub fn remove(&mut self, number: u64)
        ensures { calls_at self.new ≡ put (calls_at self.old) number None }
    {
        let _ = self.calls.remove(&number);
    }

    /// Takes a call out where it has ended.
    pub fn remove_if(&mut self, number: u64, ended: bool)
        ensures { calls_at self.new ≡ cond ended (put (calls_at self.old) number None) (calls_at self.old) }
    {
        if ended {
            self.remove(number);
        }
    }

    /// A call hears the reply of an entry that is launched and has none. It takes no memory.
    pub fn hear(
        &mut self,
        queues: &mut Queues<Errand>,
        number: u64,
        entry: usize,
        outcome: Part,
        taken: Part,
        next: u64,
    ) -> Recording
        requires can { CanNoteAt (calls_at self.old) number entry (legs queues.old) (leg_room queues.old) (known queues.old) next }
        ensures recorded { (c : Running) → calls_at self.old number ≡ Some c → IsRecordedAt (calls_at self.old) (calls_at self.new) number c entry outcome taken next (legs queues.old) (legs queues.new) result }
        ensures records { records_in (legs queues.new) ≡ records_in (legs queues.old) }
        ensures flights { (s : ℕ) → in_flight queues.new s ≡ in_flight queues.old s }
        ensures servers { known queues.new ≡ known queues.old }
        ensures room { leg_room queues.old ≤ leg_room queues.new + result.launched }
    {
        match self.calls.get_mut(&number) {
            Some(call) => call.hear(queues, entry, outcome, taken, next),
            None => Recording {
                launched: 0,
                left: 0,
                ended: false,
            },
        }
    }
}
