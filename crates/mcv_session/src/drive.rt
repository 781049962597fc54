//! A session that waits for nobody with a desk that answers at once.

ghost use Rattle.std.specs.Prelude.{◌≡◌, [], List, ℕ, Some, None, OnOk, OnErr};
ghost use Rattle.std.specs.Arc.{arc_value};
ghost use Rattle.mcv_text.specs.Request.{AskValue, asking, request_value};
ghost use Rattle.mcv_text.specs.Stream.{Awaits};
ghost use Rattle.mcv_session.specs.Drive.{AsksDesk, Drives};
ghost use Rattle.mcv_session.specs.Exchange.{text_of};
ghost use Rattle.mcv_session.specs.Machine.{Fails, History, Lived, Replies};
ghost use Rattle.mcv_session.specs.Session.{Breaks};

use crate::desk::Desk;
use crate::machine::Machine;
use crate::phase::Phase;
use crate::session::SessionFault;
use mcv_base::Request;
use std::sync::Arc;

/// Asks the desk the request that the session gave out.
fn ask_desk<D: Desk>(
    session: &mut Machine,
    desk: &mut D,
    request: &Arc<Request>,
) -> Result<(), SessionFault>
    requires was { session.old.request ≡ Some (request_value (arc_value request.now)) }
    requires is { (ask : AskValue) × (request_value (arc_value request.now) ≡ asking ask) }
    ensures ok { OnOk result ((a : AsksDesk D.asks desk.old desk.new session.old) × Replies session.old (text_of a.exchange) session.new) }
    ensures err { OnErr result (AsksDesk D.asks desk.old desk.new session.old × Fails session.old session.new) }
{
    match desk.ask(request) {
        Ok(parts) => session.answer(parts.as_slice()),
        Err(fault) => session.refuse(fault),
    }
}

/// Asks the desk each request that waits.
pub(crate) fn drive<D: Desk>(session: &mut Machine, desk: &mut D) -> Result<(), SessionFault>
    requires { session.old.request ≡ None }
    ensures lives { OnOk result ((from : Awaits) (h : History) → Lived from h session.old → Drives D.asks from h desk.old desk.new session.new) }
    ensures free { OnOk result (session.new.request ≡ None) }
    ensures idle { OnOk result (session.new.phase ≡ Phase.Open → session.new.waiting ≡ []) }
    ensures err { OnErr result ((from : Awaits) (bytes : List ℕ) → Lived from (record { bytes = bytes; log = []; written = [] }) session.old → Breaks D.asks desk.old desk.new from bytes session.new.output) }
{
    while let Some(request) = session.next_request()? {
        ask_desk(session, desk, &request)?;
    }
    Ok(())
}
