//! What follows for deletes from what each event says of itself.

ghost use Rattle.mcv_core.specs.KeptDeletes.{EventsKeepDeletes, OpenedCoresKeepDeletes};

/// Where the routes are covered, deletes are kept in the world of a core that is opened; and where the core keeps what is
/// left of a world in which they are kept, it keeps, after each event, what is left of that world after the event's move, and
/// they are kept in it. So a delete stays kept whose call the core has forgotten. Each answer of `Core::answer` says the same.
pub fn events_keep_deletes()
    ensures opened { OpenedCoresKeepDeletes }
    ensures events { EventsKeepDeletes }
{}
