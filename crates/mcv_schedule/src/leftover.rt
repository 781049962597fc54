//! What a hub has left when the clients have gone.

ghost use Rattle.std.specs.Prelude.{◌≡◌};
ghost use Rattle.mcv_schedule.specs.Leftover.{is_done, with_hub};

/// What a hub has left.
#[derive(Clone, Copy)]
pub struct Leftover {
    /// Something is to be told to it, or requests wait to begin there.
    pub is_due: bool,
    /// A record is being written.
    pub is_writing: bool,
    /// Legs are in flight over its connections.
    pub is_flying: bool,
    /// The spool has refused a record since no client is left, and none since then was taken.
    pub is_refused: bool,
    /// How many legs are queued.
    pub queued: usize,
}

impl Leftover {
    /// Whether nothing is to be done for it any more: no leg is queued, or the spool refuses all that are.
    pub fn is_done(self) -> bool
        ensures { result ≡ is_done self }
    {
        !self.is_due && !self.is_writing && (self.queued == 0 || !self.is_flying && self.is_refused)
    }
}

/// How many legs are left at some hubs and this one; None where something is to be done for one of them.
pub fn with_hub(left: Option<usize>, hub: Leftover) -> Option<usize>
    ensures { result ≡ with_hub left hub }
{
    match left {
        Some(left) if hub.is_done() => Some(left.saturating_add(hub.queued)),
        _ => None,
    }
}
