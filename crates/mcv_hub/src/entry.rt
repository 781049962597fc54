//! Entries of a history.

ghost use Rattle.std.specs.Prelude.{◌≡◌};
ghost use Rattle.mcv_hub.specs.History.{is_began, is_taken};

use mcv_base::{CallId, LegId, Part, Request};
use mcv_core::Era;
use std::sync::Arc;

/// What happened to the core: a call began for a key of a request, counted from 0; a leg got the reply that its call
/// recorded; the spool took or refused a leg's record; a leg that was sent again was performed; an era began; or the
/// reply to a call was taken.
#[derive(Drop)]
pub enum Entry {
    Began { request: Arc<Request>, key: usize },
    Answered { leg: LegId, reply: Part },
    Spooled(LegId),
    Refused(LegId),
    Performed(LegId),
    EraBegan(Era),
    Taken(CallId),
}

impl Entry {
    /// Whether a call began.
    pub fn is_began(&self) -> bool
        ensures { result ≡ is_began self.now }
    {
        matches!(self, Entry::Began { .. })
    }

    /// Whether a reply was taken.
    pub fn is_taken(&self) -> bool
        ensures { result ≡ is_taken self.now }
    {
        matches!(self, Entry::Taken(_))
    }
}
