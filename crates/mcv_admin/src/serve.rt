//! One request on a connection.

ghost use Rattle.std.specs.Prelude.{◌≡◌, ◌<◌, ◌≤◌, ◌++◌, [], IfOk, OnOk, length, take};
ghost use Rattle.std.specs.Io.KnownBytes.{Appends, Consumes, IsAtEnd};
ghost use Rattle.mcv_admin.specs.Serving.{IsAnswerTo, IsRead, IsServed};
ghost use Rattle.mcv_http.specs.Reading.{IsAnswered, IsKnown, byte_limit};
ghost use Rattle.mcv_admin.specs.declared.serve.AdminFault.TheVariants.{Memory};

use crate::answer::answer;
use crate::panel::Panel;
use mcv_http::{REQUEST_LIMIT, Refusal, Request, RequestReader};
use std::alloc::{AllocError, Global};
use std::io::{Read, Write};
use thiserror::Error;

/// Why a request isn't answered.
#[derive(Clone, Copy, Debug, PartialEq, Eq, Error)]
pub enum AdminFault {
    /// The connection couldn't be read or written, or its time was over.
    #[error("the connection failed")]
    Connection,
    #[error("out of memory")]
    Memory,
}

impl From<AllocError> for AdminFault {
    ghost from_gives = { λ _ fault. fault ≡ Memory };

    fn from(_error: AllocError) -> AdminFault {
        AdminFault::Memory
    }
}

/// The next bytes of a connection: how many, none at its end.
fn next_piece<I: Read>(reader: &mut I, room: &mut [u8]) -> Result<usize, AdminFault>
    requires { 0 < length room.old }
    ensures within { IfOk result (λ count. count ≤ length room.new) }
    ensures read { IfOk result (λ count. Consumes (I.remaining reader.old) (I.remaining reader.new) (take count room.new)) }
    ensures ended { IfOk result (λ count. count ≡ 0 → IsAtEnd (I.remaining reader.new)) }
{
    match reader.read(room) {
        Ok(count) => Ok(count),
        Err(_) => Err(AdminFault::Connection),
    }
}

/// A request as far as it has come, and what is known from that.
#[derive(Drop)]
struct Coming {
    request: RequestReader,
    known: Option<Result<Request, Refusal>>,
}

impl Coming {
    /// One of which nothing has come.
    fn new(alloc: Global) -> Result<Coming, AllocError>
        ensures empty { IfOk result (λ coming. coming.request ≡ []) }
        ensures known { IfOk result (λ coming. IsKnown coming.request coming.known) }
        ensures answered { IfOk result (λ coming. IsAnswered coming.request coming.known) }
    {
        let mut request = RequestReader::new(alloc);
        let known = request.feed(&[])?;
        Ok(Coming { request, known })
    }

    /// Takes the next piece, as far as it can matter.
    fn take(&mut self, piece: &[u8]) -> Result<(), AllocError>
        ensures taken { OnOk result (self.new.request ≡ take byte_limit (self.old.request ++ piece.now)) }
        ensures known { OnOk result (IsKnown self.new.request self.new.known) }
        ensures answered { OnOk result (IsAnswered self.new.request self.new.known) }
    {
        self.known = self.request.feed(piece)?;
        Ok(())
    }
}

/// What the next request asks for, or why it is refused. None where the connection ends before that is known.
fn next_request<I: Read>(
    alloc: Global,
    reader: &mut I,
) -> Result<Option<Result<Request, Refusal>>, AdminFault>
    ensures { IfOk result (IsRead (I.remaining reader.old) (I.remaining reader.new)) }
{
    let mut coming = Coming::new(alloc)?;
    let mut room = [0; 1024];
    for _read in 0..REQUEST_LIMIT + 1 {
        if coming.known.is_some() {
            return Ok(coming.known);
        }
        let count = next_piece(reader, &mut room)?;
        if count == 0 {
            return Ok(None);
        }
        coming.take(&room[..count])?;
    }
    unreachable!()
}

fn write<O: Write>(writer: &mut O, bytes: &[u8]) -> Result<(), AdminFault>
    ensures { OnOk result (Appends (O.contents writer.old) (O.contents writer.new) bytes.now) }
{
    match writer.write_all(bytes) {
        Ok(()) => Ok(()),
        Err(_) => Err(AdminFault::Connection),
    }
}

/// Asks the panel what is known of a request, and writes the response; nothing, where nothing is known.
fn respond<O: Write, P: Panel>(
    alloc: Global,
    writer: &mut O,
    panel: &mut P,
    known: Option<Result<Request, Refusal>>,
) -> Result<(), AdminFault>
    ensures { OnOk result (IsAnswerTo P.has_counted P.is_in P.drains panel.old panel.new (O.contents writer.old) (O.contents writer.new) known) }
{
    let Some(request) = known else {
        return Ok(());
    };
    let bytes = answer(alloc, panel, request)?;
    write(writer, bytes.as_slice())?;
    Ok(())
}

/// Reads one request, asks the panel, and writes the response; nothing, where the connection ends before it is known what
/// the request asks for. On an error a drain may have begun, and a part of the response may be written.
pub fn serve_request<I: Read, O: Write, P: Panel>(
    alloc: Global,
    reader: &mut I,
    writer: &mut O,
    panel: &mut P,
) -> Result<(), AdminFault>
    ensures { OnOk result (IsServed P.has_counted P.is_in P.drains panel.old panel.new (I.remaining reader.old) (I.remaining reader.new) (O.contents writer.old) (O.contents writer.new)) }
{
    let known = next_request(alloc, reader)?;
    respond(alloc, writer, panel, known)?;
    Ok(())
}
