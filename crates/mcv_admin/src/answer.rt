//! The response to a request.

ghost use Rattle.std.specs.Prelude.{◌≡◌, IfOk};
ghost use Rattle.mcv_http.specs.Response.{response_text};
ghost use Rattle.mcv_admin.specs.Replies.{IsReply, ShowsCounts, ShowsHealth, WasAsked, plain_text, refusal_text};

use crate::panel::Panel;
use mcv_http::{Refusal, Request, Response, Status, response_bytes};
use mcv_metrics::{CONTENT_TYPE, metrics_text};
use std::alloc::{AllocError, Global};

/// What a response says that its text is, where that isn't of what was counted.
const PLAIN_TEXT: &str = "text/plain; charset=utf-8";

fn refusal_text(refusal: Refusal) -> &'static [u8]
    ensures { result.now ≡ refusal_text refusal }
{
    match refusal {
        Refusal::BadRequest => b"bad request\n",
        Refusal::NotFound => b"not found\n",
        Refusal::MethodNotAllowed(_) => b"method not allowed\n",
        Refusal::TooLong => b"too long\n",
    }
}

/// The bytes of a response of a line of text.
fn plain(alloc: Global, status: Status, text: &[u8]) -> Result<Vec<u8>, AllocError>
    ensures { IfOk result (λ bytes. bytes.items ≡ response_text status plain_text text.now) }
{
    response_bytes(
        alloc,
        Response {
            status,
            content_type: PLAIN_TEXT,
            body: text,
        },
    )
}

fn counts<P: Panel>(alloc: Global, panel: &P) -> Result<Vec<u8>, AllocError>
    ensures { IfOk result (λ bytes. ShowsCounts (P.has_counted panel.now) bytes.items) }
{
    let snapshot = panel.snapshot(alloc)?;
    let text = metrics_text(alloc, &snapshot)?;
    response_bytes(
        alloc,
        Response {
            status: Status::Done,
            content_type: CONTENT_TYPE,
            body: text.as_slice(),
        },
    )
}

fn health<P: Panel>(alloc: Global, panel: &P) -> Result<Vec<u8>, AllocError>
    ensures { IfOk result (λ bytes. ShowsHealth (P.is_in panel.now) bytes.items) }
{
    let health = panel.health();
    plain(alloc, health.status(), health.text())
}

/// The response to a request, or to what is none. A drain has begun where one was asked for, also where memory runs out.
pub(crate) fn answer<P: Panel>(
    alloc: Global,
    panel: &mut P,
    known: Result<Request, Refusal>,
) -> Result<Vec<u8>, AllocError>
    ensures replies { IfOk result (λ bytes. IsReply (P.has_counted panel.old) (P.is_in panel.old) known bytes.items) }
    ensures asked { WasAsked P.drains panel.old panel.new known }
{
    match known {
        Ok(Request::Metrics) => counts(alloc, &*panel),
        Ok(Request::Health) => health(alloc, &*panel),
        Ok(Request::Drain(seconds)) => {
            panel.drain(seconds);
            plain(alloc, Status::Done, b"draining\n")
        }
        Err(refusal) => plain(alloc, Status::Refused(refusal), refusal_text(refusal)),
    }
}
