//! The table of the clients, each under its number.

ghost use Rattle.slab.specs.Slab.{Slab as Table, get};
ghost use Rattle.std.specs.Prelude.{◌≡◌, ◌<◌, Err, IfSome, Some, length, true};
ghost use Rattle.std.specs.Arc.{arc_value};
ghost use Rattle.mcv_session.specs.Desk.{answer_value};
ghost use Rattle.mcv_session.specs.declared.desk.DeskFault.{DeskFault as Fault};
ghost use Rattle.mcv_text.specs.Request.{request_value};
ghost use Rattle.mcv_clients.specs.Clients.{AreSame, ChangesAt, HasAsked, WantsAnswer};
ghost use Rattle.mcv_clients.specs.Life.{ClientView, IsToldOf};
ghost use Rattle.mcv_clients.specs.Steps.{Asked, Goes, Told, ToldIf};

use crate::client::Client;
use mcv_base::{Part, Request};
use mcv_connection::Connection;
use mcv_hubs::HubNames;
use mcv_session::DeskFault;
use slab::Slab;
use std::sync::Arc;
use std::time::{Duration, Instant};

/// How it stands with a client that was served.
#[derive(Clone, Copy, Debug, PartialEq, Eq)]
pub(crate) enum Standing {
    /// It waits for its connection, or for an answer.
    Waits,
    /// There is more to be done.
    Due,
    /// Its connection is to be closed.
    Over,
}

/// The next request of the client of this number, where none is out. It is to be asked, or refused.
pub(crate) fn next_request_at<F: HubNames, C: Connection>(
    clients: &mut Slab<Client<F, C>>,
    number: usize,
) -> Option<Arc<Request>>
    ensures goes { ChangesAt Goes number clients.old clients.new }
    ensures asks { IfSome result (λ r. HasAsked clients.new number (request_value (arc_value r))) }
{
    let Some(client) = clients.get_mut(number) else {
        return None;
    };
    client.note_room();
    client.next_request()
}

/// The request of the client of this number is out, under this serial number.
pub(crate) fn note_asked_at<F: HubNames, C: Connection>(
    clients: &mut Slab<Client<F, C>>,
    number: usize,
    serial: u64,
)
    ensures { ChangesAt (Asked serial) number clients.old clients.new }
{
    let Some(client) = clients.get_mut(number) else {
        return;
    };
    client.note_asked(serial);
}

/// For want of memory the request of the client of this number isn't asked.
pub(crate) fn refuse_at<F: HubNames, C: Connection>(
    clients: &mut Slab<Client<F, C>>,
    number: usize,
    now: Option<Instant>,
)
    requires { WantsAnswer clients.old number }
    ensures { ChangesAt (Told (Err Fault.Memory)) number clients.old clients.new }
{
    let Some(client) = clients.get_mut(number) else {
        return;
    };
    client.answer(Err(DeskFault::Memory), now);
}

/// Gives the client of this number the answer to its request, if that has this serial number. Whether it has.
pub(crate) fn answer_at<F: HubNames, C: Connection>(
    clients: &mut Slab<Client<F, C>>,
    number: usize,
    serial: u64,
    outcome: Result<Vec<Part>, DeskFault>,
    now: Option<Instant>,
) -> bool
    requires { (c : ClientView) → get clients.old number ≡ Some c → c.out ≡ Some serial → IsToldOf F.opened_of c (answer_value outcome) }
    ensures { ChangesAt (ToldIf serial (answer_value outcome)) number clients.old clients.new }
{
    let Some(client) = clients.get_mut(number) else {
        return false;
    };
    if !client.awaits(serial) {
        return false;
    }
    client.answer(outcome, now);
    true
}

/// Whether a read of the client of this number may give bytes.
pub(crate) fn is_readable_at<F: HubNames, C: Connection>(
    clients: &Slab<Client<F, C>>,
    number: usize,
) -> bool {
    match clients.get(number) {
        Some(client) => client.is_readable(),
        None => false,
    }
}

/// Reads the client of this number, with one read. False where its connection is broken.
pub(crate) fn read_at<F: HubNames, C: Connection>(
    clients: &mut Slab<Client<F, C>>,
    number: usize,
    room: &mut [u8],
    now: Option<Instant>,
) -> bool
    requires { 0 < length room.old }
    ensures { ChangesAt Goes number clients.old clients.new }
{
    let Some(client) = clients.get_mut(number) else {
        return true;
    };
    client.read(room, now)
}

/// Writes what the client of this number is told, with one write. False where its connection is broken.
pub(crate) fn write_at<F: HubNames, C: Connection>(
    clients: &mut Slab<Client<F, C>>,
    number: usize,
    now: Option<Instant>,
) -> bool
    ensures { ChangesAt Goes number clients.old clients.new }
{
    let Some(client) = clients.get_mut(number) else {
        return true;
    };
    client.write(now)
}

/// How it stands with the client of this number.
pub(crate) fn standing_at<F: HubNames, C: Connection>(
    clients: &Slab<Client<F, C>>,
    number: usize,
) -> Standing {
    let Some(client) = clients.get(number) else {
        return Standing::Waits;
    };
    if client.is_over() {
        return Standing::Over;
    }
    if client.is_due() {
        return Standing::Due;
    }
    Standing::Waits
}

/// Whether the client of this number has sent no byte and taken none for so long, though no request of it is out.
pub(crate) fn is_late_at<F: HubNames, C: Connection>(
    clients: &Slab<Client<F, C>>,
    number: usize,
    now: Option<Instant>,
    limit: Option<Duration>,
) -> bool
    ensures { result ≡ true → (c : ClientView) → get clients.now number ≡ Some c → c.out ≡ None }
{
    match clients.get(number) {
        Some(client) => client.is_late(now, limit),
        None => false,
    }
}

/// The client of this number is to be served. Whether there is one, and it was not to be before.
pub(crate) fn touch_at<F: HubNames, C: Connection>(
    clients: &mut Slab<Client<F, C>>,
    number: usize,
) -> bool
    ensures { AreSame clients.old clients.new }
{
    let Some(client) = clients.get_mut(number) else {
        return false;
    };
    client.touch()
}

/// The client of this number is being served.
pub(crate) fn note_served_at<F: HubNames, C: Connection>(
    clients: &mut Slab<Client<F, C>>,
    number: usize,
)
    ensures { AreSame clients.old clients.new }
{
    let Some(client) = clients.get_mut(number) else {
        return;
    };
    client.note_served();
}

/// Bytes of the client of this number may be there. It `ends` where it sends no more.
pub(crate) fn note_readable_at<F: HubNames, C: Connection>(
    clients: &mut Slab<Client<F, C>>,
    number: usize,
    ends: bool,
    now: Option<Instant>,
)
    ensures { AreSame clients.old clients.new }
{
    let Some(client) = clients.get_mut(number) else {
        return;
    };
    client.note_readable(ends, now);
}

/// The client of this number takes bytes again.
pub(crate) fn note_writable_at<F: HubNames, C: Connection>(
    clients: &mut Slab<Client<F, C>>,
    number: usize,
    now: Option<Instant>,
)
    ensures { AreSame clients.old clients.new }
{
    let Some(client) = clients.get_mut(number) else {
        return;
    };
    client.note_writable(now);
}

/// Nothing more is read of the client of this number.
pub(crate) fn end_input_at<F: HubNames, C: Connection>(
    clients: &mut Slab<Client<F, C>>,
    number: usize,
)
    ensures { AreSame clients.old clients.new }
{
    let Some(client) = clients.get_mut(number) else {
        return;
    };
    client.end_input();
}
