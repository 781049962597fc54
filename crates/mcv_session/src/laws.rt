//! A session's answers don't depend on how its bytes were cut.

ghost use Rattle.std.specs.Prelude.{◌≡◌, ◌++◌, [], ◌∷◌, List, ℕ, None, Some, Result, take, drop, map};
ghost use Rattle.mcv_base.specs.Reply.{ReplyValue};
ghost use Rattle.mcv_text.specs.Request.{AskValue, asking};
ghost use Rattle.mcv_text.specs.Stream.{Awaits, Held};
ghost use Rattle.mcv_session.specs.declared.desk.DeskFault.{DeskFault};
ghost use Rattle.mcv_session.specs.Exchange.{by_desk, item_of, text_of};
ghost use Rattle.mcv_session.specs.Machine.{Fails, Feeds, History, Keeps, Lived, MachineValue, Replies, unlived, unused};
ghost use Rattle.mcv_session.specs.Session.{Serves, taken};

use crate::desk::Desk;
use crate::phase::Phase;
use crate::session::Flow;
use mcv_text::any_pieces;

/// Two pieces, one behind the other, are served as both at once.
pub fn any_cut<D: Desk>()
    ensures { (old mid new : D) (from s rest : Awaits) (a b t u : List ℕ) (flow : Flow) → Serves D.asks old mid from a t Flow.GoesOn s
        → Serves D.asks mid new s b u flow rest → Serves D.asks old new from (a ++ b) (t ++ u) flow rest }
{
    any_pieces();
}

/// Before its first byte a session has asked and written nothing.
pub fn nothing_read<D: Desk>()
    ensures { (desk : D) → Serves D.asks desk desk (Held []) [] [] Flow.GoesOn (Held []) }
{}

/// A session that nothing has come to has lived through nothing.
pub fn life_begins()
    ensures { Lived (Held []) unlived (unused (Held [])) }
{}

/// A piece that was read is in a session's life.
pub fn life_of_feeding()
    ensures { (from : Awaits) (h : History) (old : MachineValue) (piece : List ℕ) (new : MachineValue) → old.phase ≡ Phase.Open → Lived from h old → Feeds old piece new → Lived from (record h { bytes = h.bytes ++ piece }) new }
{
    any_pieces();
}

/// An answer that was put is in a session's life.
pub fn life_of_answering()
    ensures { (from : Awaits) (h : History) (old new : MachineValue) (ask : AskValue) (answer : Result (List ReplyValue) DeskFault) → old.phase ≡ Phase.Open → old.request ≡ Some (asking ask) → Lived from h old
        → Replies old (text_of (by_desk ask answer)) new → Lived from (record h { log = h.log ++ by_desk ask answer ∷ [] }) new }
{}

/// What was written is in a session's life.
pub fn life_of_writing()
    ensures { (from : Awaits) (h : History) (old : MachineValue) (n : ℕ) → Lived from h old → Lived from (record h { written = h.written ++ take n old.output }) (record old { output = drop n old.output }) }
{}

/// A session that failed lived through what it had before.
pub fn life_of_failing()
    ensures { (from : Awaits) (h : History) (old new : MachineValue) → Lived from h old → Fails old new → Lived from h new }
{}

/// At each moment of a session's life what is written, and what waits to be, are the answers, in order, to the first of the items that it takes.
pub fn life_promises()
    ensures { (from : Awaits) (h : History) (now : MachineValue) → Lived from h now → Keeps from h now }
{}

/// A session that goes on and has nothing to do answered each item that was read; one that has ended each up to the item that ends it.
pub fn life_is_whole()
    ensures idle { (from : Awaits) (h : History) (now : MachineValue) → now.phase ≡ Phase.Open → now.request ≡ None → now.waiting ≡ [] → (l : Lived from h now) → map item_of h.log ≡ l.items }
    ensures ended { (from : Awaits) (h : History) (now : MachineValue) → now.phase ≡ Phase.Ended → (l : Lived from h now) → map item_of h.log ≡ taken l.items }
{}
