//! Each leg that was sent lands once or is lost once.

ghost use Rattle.std.specs.Prelude.{◌++◌, ◌∷◌, [], List, ℕ, Option, Result, Ok, Err, map};
ghost use Rattle.std.specs.Option.{option_to_list};
ghost use Rattle.mcv_pipeline.specs.Life.{History, Lived, unlived, unused};
ghost use Rattle.mcv_pipeline.specs.Pipeline.{Lands, Loses, PipelineValue, SendsLeg, leg_of};
ghost use Rattle.mcv_reply.specs.Replies.{Closed, Leg};

use crate::landed::Landed;
use mcv_base::LegId;
use mcv_reply::ReplyFault;

/// Each leg that was sent has landed, was told as lost, or is neither yet, in the order of sending: each step keeps it so.
pub fn legs_land_or_are_lost()
    ensures begins { Lived unlived unused }
    ensures sends { (h : History) (old new : PipelineValue) (number : LegId) (leg : Leg) → Lived h old → SendsLeg old number leg (Ok tt) new → Lived (record h { sent = h.sent ++ number ∷ [] }) new }
    ensures refuses { (h : History) (old new : PipelineValue) (number : LegId) (leg : Leg) (fault : ReplyFault) → Lived h old → SendsLeg old number leg (Err fault) new → Lived h new }
    ensures lands { (h : History) (old new : PipelineValue) (piece : List ℕ) (landed : List Landed) (result : Result Unit ReplyFault) → Lived h old → Lands old piece landed result new → Lived (record h { landed = h.landed ++ map leg_of landed }) new }
    ensures loses { (h : History) (old new : PipelineValue) (found : Option LegId) → Lived h old → Loses old found new → Lived (record h { lost = h.lost ++ option_to_list found }) new }
    ensures closes { (h : History) (old : PipelineValue) → Lived h old → Lived h (record old { connection = Closed }) }
{}
