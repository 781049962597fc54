//! Each leg that was sent is written in its turn, and lands with its own reply or is lost.

ghost use Rattle.std.specs.Prelude.{◌≡◌, ◌≤◌, ◌++◌, ◌∷◌, [], List, ℕ, Option, Result, Ok, Err, drop, length, map, take};
ghost use Rattle.std.specs.Option.{option_to_list};
ghost use Rattle.mcv_pipeline.specs.Pipeline.{Lands, Loses, leg_of};
ghost use Rattle.mcv_reply.specs.Replies.{Closed, Leg};
ghost use Rattle.mcv_upstream.specs.Life.{Carried, History, unlived};
ghost use Rattle.mcv_upstream.specs.Upstream.{SendsText, UpstreamValue, output_after, unused};

use mcv_base::LegId;
use mcv_pipeline::Landed;
use mcv_reply::ReplyFault;

/// What is written and what is to be written are the texts of the legs that were sent, in the order of sending, while the
/// connection is open; and each of these legs has landed, was told as lost, or is neither yet, in that order. Each step keeps it so.
pub fn written_legs_land_or_are_lost()
    ensures begins { Carried unlived unused }
    ensures sends { (h : History) (old new : UpstreamValue) (number : LegId) (leg : Leg) (text : List ℕ) → Carried h old → SendsText old number leg text (Ok tt) new → Carried (record h { sent = h.sent ++ number ∷ []; texts = h.texts ++ text ∷ [] }) new }
    ensures refuses { (h : History) (old new : UpstreamValue) (number : LegId) (leg : Leg) (text : List ℕ) (fault : ReplyFault) → Carried h old → SendsText old number leg text (Err fault) new → Carried h new }
    ensures writes { (h : History) (old : UpstreamValue) (count : ℕ) → count ≤ length old.output → Carried h old → Carried (record h { written = h.written ++ take count old.output }) (record old { output = drop count old.output }) }
    ensures lands { (h : History) (old new : UpstreamValue) (piece : List ℕ) (landed : List Landed) (result : Result Unit ReplyFault) → Carried h old → Lands old.legs piece landed result new.legs → new.output ≡ output_after result old.output → Carried (record h { landed = h.landed ++ map leg_of landed }) new }
    ensures loses { (h : History) (old new : UpstreamValue) (found : Option LegId) → Carried h old → Loses old.legs found new.legs → new.output ≡ old.output → Carried (record h { lost = h.lost ++ option_to_list found }) new }
    ensures closes { (h : History) (old : UpstreamValue) → Carried h old → Carried h (record { legs = record old.legs { connection = Closed }; output = [] }) }
{}
