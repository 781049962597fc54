//! The clock, chapters and marks.

ghost use Rattle.std.specs.Prelude.{◌≡◌, ◌↔◌, None, IfSome, IsTrue};
ghost use Rattle.mcv_route.specs.Eras.{breaks_of, era_at};
ghost use Rattle.mcv_core.specs.Chapters.{IsAtRest};
ghost use Rattle.mcv_core.specs.Events.{IsClocked, IsEvent, IsMarked, IsTurned, IsUnmarked};
ghost use Rattle.mcv_core.specs.View.{core_view};

use crate::dispatcher::Dispatcher;
use crate::fault::CoreFault;
use mcv_base::{Moment, ServerId};

/// The era that began at this break, or the first one.
#[derive(Clone, Copy, Debug, PartialEq, Eq)]
pub struct Era {
    pub since: Option<Moment>,
}

impl Era {
    /// The era that began at the second break, where that isn't the first one.
    fn after(old: Option<Moment>, since: Option<Moment>) -> Option<Era>
        ensures changed { IfSome result (λ era. era.since ≡ since) }
        ensures other { IfSome result (λ era. since ≡ old → ⊥) }
        ensures same { result ≡ None → since ≡ old }
    {
        if since == old {
            None
        } else {
            Some(Era { since })
        }
    }
}

impl Dispatcher {
    /// Later calls have the era of this moment. Gives the era where it is another one.
    pub fn clock(&mut self, moment: Moment) -> Result<Option<Era>, CoreFault>
        ensures { IsEvent (IsClocked (core_view self.old) moment result) (core_view self.new) }
    {
        if moment.0 < self.moment.0 {
            return Err(CoreFault::ClockBack);
        }
        let since = self.accepted.routes().since(moment);
        let era = Era::after(self.since, since);
        self.moment = moment;
        self.since = since;
        Ok(era)
    }

    /// Whether no call runs, no leg is queued and none is in replay.
    pub fn is_at_rest(&self) -> bool
        ensures { IsTrue result ↔ IsAtRest (core_view self.now) }
    {
        if !self.counts.are_quiet() {
            return false;
        }
        self.queues.in_replay().is_none()
    }

    /// A new chapter begins, where no call runs, no leg is queued and none is in replay. It has an entry for each leg in
    /// the spool.
    pub fn turn(&mut self) -> Result<(), CoreFault>
        ensures { IsEvent (IsTurned (core_view self.old) result) (core_view self.new) }
    {
        if !self.is_at_rest() {
            return Err(CoreFault::Busy);
        }
        let Some(chapter) = self.chapter.checked_add(1) else {
            return Err(CoreFault::Busy);
        };
        self.chapter = chapter;
        self.entries = self.counts.spooled;
        Ok(())
    }

    /// Marks the server where three or more failures came in a row.
    pub fn mark(&mut self, server: ServerId)
        ensures { IsEvent (IsMarked (core_view self.old) server) (core_view self.new) }
    {
        self.marks.mark(server);
    }

    /// Takes the server's mark away, and its failures with it.
    pub fn unmark(&mut self, server: ServerId)
        ensures { IsEvent (IsUnmarked (core_view self.old) server) (core_view self.new) }
    {
        self.marks.unmark(server);
    }

    /// Whether the server is marked.
    pub fn marked(&self, server: ServerId) -> bool
        ensures { result ≡ ((core_view self.now).marks server.0).marked }
    {
        self.marks.get(server).marked
    }

    /// The number of the era.
    pub fn era(&self) -> usize
        ensures { result ≡ era_at (breaks_of (core_view self.now).routes) (core_view self.now).moment }
    {
        self.accepted.routes().era_of(self.moment)
    }

    /// How many entries of its history the chapter's calls and spooled legs may write.
    pub fn entries(&self) -> usize
        ensures { result ≡ (core_view self.now).entries }
    {
        self.entries
    }
}
