//! How many legs there are, and how many calls.

ghost use Rattle.std.specs.Prelude.{◌≡◌, ◌↔◌, ◌+◌, ◌-◌, ◌≤◌, IsTrue, ◌<◌, ◌^◌, cond};
ghost use Rattle.mcv_core.specs.Settling.{HasCounted, freed_by, is_settling, is_storing_leg};

use crate::call::Recording;
use crate::settle::Settling;

/// How many legs there are, and how many calls.
#[derive(Clone, Copy, PartialEq, Eq)]
pub struct Counts {
    /// Legs that the running calls may still launch.
    pub reserved: usize,
    /// Legs that are queued.
    pub queued: usize,
    /// Legs that are in the spool.
    pub spooled: usize,
    /// Calls that run: as many as have a number, at most.
    pub running: u128,
}

impl Recording {
    /// How many reserved legs are reserved no more.
    fn freed(self) -> usize
        requires { self.launched + self.left < 2 ^ 64 }
        ensures { result ≡ freed_by self }
    {
        if self.ended {
            self.launched + self.left
        } else {
            self.launched
        }
    }

    /// How many calls have ended.
    fn ending(self) -> u128
        ensures { result ≡ cond self.ended 1 0 }
    {
        u128::from(self.ended)
    }
}

impl Settling {
    /// How many of the queued legs it takes away.
    fn leaving(self) -> usize
        ensures { result ≡ is_settling self }
    {
        match self {
            Settling::Gone | Settling::InSpool(_) => 1,
            Settling::Refused => 0,
        }
    }

    /// How many legs more it puts into the spool.
    fn storing(self) -> usize
        ensures { result ≡ is_storing_leg self }
    {
        match self {
            Settling::InSpool(_) => 1,
            Settling::Gone | Settling::Refused => 0,
        }
    }
}

impl Counts {
    /// The counts after a leg has left its state and its call has recorded a reply.
    pub fn settled(self, to: Settling, step: Recording) -> Counts
        requires spent { step.launched + step.left ≤ self.reserved }
        requires leaving { is_settling to ≤ self.queued }
        requires small { self.queued + self.reserved ≤ 65536 }
        requires stored { self.spooled + 1 < 2 ^ 64 }
        requires ending { cond step.ended 1 0 ≤ self.running }
        ensures { HasCounted self to step result }
    {
        Counts {
            reserved: self.reserved - step.freed(),
            queued: self.queued + step.launched - to.leaving(),
            spooled: self.spooled + to.storing(),
            running: self.running - step.ending(),
        }
    }

    /// The counts after a leg of the spool was performed.
    pub fn performed(self) -> Counts
        requires { 1 ≤ self.spooled }
        ensures { result ≡ record self { spooled = self.spooled - 1 } }
    {
        Counts {
            spooled: self.spooled - 1,
            ..self
        }
    }

    /// The counts after a queued leg was stored in the spool.
    pub fn stored(self) -> Counts
        requires queued { 1 ≤ self.queued }
        requires fits { self.spooled + 1 < 2 ^ 64 }
        ensures { result ≡ record self { queued = self.queued - 1; spooled = self.spooled + 1 } }
    {
        Counts {
            queued: self.queued - 1,
            spooled: self.spooled + 1,
            ..self
        }
    }

    /// Whether no call runs and no leg is queued.
    pub fn are_quiet(self) -> bool
        ensures { IsTrue result ↔ ((self.running ≡ 0) × (self.queued ≡ 0)) }
    {
        self.running == 0 && self.queued == 0
    }
}
