//! Replies are taken.

ghost use Rattle.std.specs.Prelude.{◌≡◌, ◌≤◌, ◌+◌, ◌&&◌, not, None, Some, cond, is_some, IfSome, IfNone, option_and_then, option_map};
ghost use Rattle.mcv_base.specs.Reply.{part_value};
ghost use Rattle.mcv_world.specs.Moves.{is_move, Taken as WasTaken};
ghost use Rattle.mcv_events.specs.Rows.{world_of};
ghost use Rattle.mcv_core.specs.Calls.{calls_at};
ghost use Rattle.mcv_core.specs.Events.{IsEvent, IsTaken};
ghost use Rattle.mcv_core.specs.Launching.{places_of};
ghost use Rattle.mcv_core.specs.Rows.{taken_at};
ghost use Rattle.mcv_core.specs.Taking.{AreKept, HasTaken, IsTakenAt, source_reply};
ghost use Rattle.mcv_core.specs.View.{core_view};
ghost use Rattle.mcv_core.specs.declared.call.Call.{Call as Running};

use crate::call::{Call, Recorded};
use crate::calls::Calls;
use crate::counts::Counts;
use crate::dispatcher::Dispatcher;
use crate::fault::CoreFault;
use mcv_base::{CallId, Part};
use mcv_plan::Source;

/// What came of taking a call's reply.
#[derive(Drop)]
pub struct Taking {
    pub part: Option<Part>,
    /// How many entries the call may still launch.
    pub left: usize,
    pub ended: bool,
}

impl Recorded {
    /// Hands out the part for who takes the reply.
    fn hand_out(&mut self) -> Option<Part>
        ensures part { result ≡ self.old.taken }
        ensures same { self.new ≡ record self.old { taken = None } }
    {
        self.taken.take()
    }
}

impl Call {
    /// Hands out the reply that an entry has.
    fn hand_out(&mut self, entry: usize) -> Option<Part>
        ensures same { self.new ≡ record self.old { recorded = self.new.recorded } }
        ensures kept { AreKept self.old.recorded self.new.recorded }
        ensures value { option_map part_value result ≡ option_and_then (taken_at self.old.recorded.items) (places_of self.old.entries.items entry) }
        ensures none { result ≡ None → self.new ≡ self.old }
    {
        let Some(place) = self.place_of(entry) else {
            return None;
        };
        if !self.is_there(place) {
            return None;
        }
        self.recorded[place].hand_out()
    }

    /// Whether the reply at the place is there, and wasn't taken.
    fn is_there(&self, place: usize) -> bool
        ensures { result ≡ is_some (taken_at self.now.recorded.items place) }
    {
        if place < self.recorded.len() {
            self.recorded[place].taken.is_some()
        } else {
            false
        }
    }

    /// The place of the reply that an entry has.
    fn place_of(&self, entry: usize) -> Option<usize>
        ensures { result ≡ places_of self.now.entries.items entry }
    {
        if entry < self.entries.len() {
            self.entries[entry].place
        } else {
            None
        }
    }

    /// Hands out the reply of a source.
    fn part_of(&mut self, source: Source) -> Option<Part>
        ensures same { self.new ≡ record self.old { recorded = self.new.recorded } }
        ensures kept { AreKept self.old.recorded self.new.recorded }
        ensures value { option_map part_value result ≡ source_reply self.old source }
        ensures none { result ≡ None → self.new ≡ self.old }
    {
        match source {
            Source::Fixed(reply) => Some(Part::Fixed(reply)),
            Source::Entry(entry) => self.hand_out(entry),
        }
    }

    /// Whether a source has its reply, which wasn't taken.
    fn has_reply(&self, source: Source) -> bool
        ensures { result ≡ is_some (source_reply self.now source) }
    {
        match source {
            Source::Fixed(_) => true,
            Source::Entry(entry) => match self.place_of(entry) {
                Some(place) => self.is_there(place),
                None => false,
            },
        }
    }

    /// Whether its reply is there, and wasn't taken.
    fn can_be_taken(&self) -> bool
        ensures { result ≡ (not self.now.taken && is_some (option_and_then (λ a. source_reply self.now a.source) self.now.state.reply)) }
    {
        if self.taken {
            return false;
        }
        match self.state.status() {
            Some(answer) => self.has_reply(answer.source),
            None => false,
        }
    }

    /// Takes the reply, once it is there.
    fn take(&mut self) -> Option<Part>
        ensures { HasTaken self.old self.new result }
    {
        if self.taken {
            return None;
        }
        let answer = self.state.status()?;
        let part = self.part_of(answer.source);
        self.taken = part.is_some();
        part
    }
}

impl Calls {
    /// Takes the reply of a call, once it is there; None where no call has the number.
    fn take(&mut self, number: u64) -> Option<Taking>
        ensures taken { IfSome result (λ taking. (c : Running) → calls_at self.old number ≡ Some c → IsTakenAt (calls_at self.old) (calls_at self.new) number c taking) }
        ensures runs { is_some result ≡ is_some (calls_at self.old number) }
        ensures none { IfNone result (calls_at self.new ≡ calls_at self.old) }
    {
        match self.calls.get_mut(&number) {
            Some(call) => {
                let part = call.take();
                Some(Taking {
                    part,
                    left: call.left,
                    ended: call.has_ended(),
                })
            }
            None => None,
        }
    }
}

impl Counts {
    /// The counts after a call's reply was taken.
    fn taken(self, ended: bool, left: usize) -> Counts
        requires reserved { left ≤ self.reserved }
        requires running { 1 ≤ self.running }
        ensures queued { result.queued ≡ self.queued }
        ensures spooled { result.spooled ≡ self.spooled }
        ensures reserved { result.reserved + cond ended left 0 ≡ self.reserved }
        ensures running { result.running + cond ended 1 0 ≡ self.running }
    {
        if !ended {
            return self;
        }
        Counts {
            reserved: self.reserved - left,
            queued: self.queued,
            spooled: self.spooled,
            running: self.running - 1,
        }
    }
}

impl Dispatcher {
    /// Takes the reply to a call, once; None while the call has none.
    pub fn take(&mut self, call: CallId) -> Result<Option<Part>, CoreFault>
        ensures { IsEvent (IsTaken (core_view self.old) call result) (core_view self.new) }
    {
        let Some(taking) = self.calls.take(call.0) else {
            return Err(CoreFault::NoSuchCall);
        };
        self.calls.remove_if(call.0, taking.ended);
        self.counts = self.counts.taken(taking.ended, taking.left);
        Ok(taking.part)
    }

    /// Whether the reply to a call can be taken: the call runs, has a reply, and it wasn't taken.
    pub fn can_take(&self, call: CallId) -> bool
        ensures { result ≡ is_move (core_view self.now).routes (world_of (core_view self.now).rows) (WasTaken call.0) }
    {
        match self.calls.get(call.0) {
            Some(running) => running.can_be_taken(),
            None => false,
        }
    }
}
