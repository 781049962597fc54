//! Laws of the definitions: a list of bytes is at most one reply, no reply begins another, and a
//! reply is one that may answer its leg.

ghost use Rattle.std.specs.Prelude.{◌≡◌, ◌∷◌, ◌++◌, ℕ, List, [], true, Result, Ok, Err, Some};
ghost use Rattle.mcv_base.specs.Key.{is_key_word};
ghost use Rattle.mcv_base.specs.Reply.{ReplyValue, may_answer, reply_value};
ghost use Rattle.mcv_reply.specs.Reader.{Closed, Feeds, ReaderState, Reading};
ghost use Rattle.mcv_reply.specs.Probe.{FeedsProbe};
ghost use Rattle.mcv_reply.specs.Replies.{Connection, HaveKeys, Leg, Open, Receives, Replied};
ghost use Rattle.mcv_reply.specs.Reply.{Spells, SpellsVersion};

use crate::fault::ReplyFault;
use mcv_base::{Op, Reply};

/// A list of bytes is at most one reply to a leg, and a reply to a leg begins with no other.
pub fn one_reply()
    ensures one { (op : Op) (key bytes : List ℕ) (reply other : ReplyValue) → is_key_word key ≡ true → Spells op key bytes reply → Spells op key bytes other → reply ≡ other }
    ensures no_front { (op : Op) (key bytes more : List ℕ) (reply other : ReplyValue) → is_key_word key ≡ true → Spells op key bytes reply → Spells op key (bytes ++ more) other → more ≡ [] }
{}

/// A reply to a leg is one that may answer the leg's operation, and so is what a reader gives.
pub fn replies_may_answer()
    ensures spelled { (op : Op) (key bytes : List ℕ) (reply : ReplyValue) → Spells op key bytes reply → may_answer op reply ≡ true }
    ensures fed { (old new : Reading) (piece : List ℕ) (reply : Reply) → Feeds old piece (Ok (Some reply)) new → may_answer old.op (reply_value reply) ≡ true }
{}

/// A connection's bytes are read alike in any cuts: two pieces are as one, of both pieces' bytes, with the replies of both.
pub fn replies_in_any_cuts()
    ensures { (old mid new : Connection) (a b : List ℕ) (xs ys : List ReplyValue) (result : Result Unit ReplyFault) → Receives old a xs (Ok tt) mid → Receives mid b ys result new → Receives old (a ++ b) (xs ++ ys) result new }
{}

/// A connection's bytes are replies in one way alone, and go on or don't; a leg that is sent later changes no reply.
pub fn replies_come_in_order()
    ensures one { (legs : List Leg) (held piece : List ℕ) (xs ys : List ReplyValue) (new other : Connection) → HaveKeys legs → Receives (Open legs held) piece xs (Ok tt) new → Receives (Open legs held) piece ys (Ok tt) other → (xs ≡ ys) × (new ≡ other) }
    ensures fault { (legs : List Leg) (held piece : List ℕ) (xs ys : List ReplyValue) (new other : Connection) → HaveKeys legs → Receives (Open legs held) piece xs (Err ReplyFault.NotAReply) new → Receives (Open legs held) piece ys (Err ReplyFault.NotAReply) other → xs ≡ ys }
    ensures never_both { (legs : List Leg) (held piece : List ℕ) (xs ys : List ReplyValue) (new other : Connection) → HaveKeys legs → Receives (Open legs held) piece xs (Ok tt) new → Receives (Open legs held) piece ys (Err ReplyFault.NotAReply) other → ⊥ }
    ensures later { (legs left : List Leg) (bytes rest : List ℕ) (xs : List ReplyValue) (leg : Leg) → Replied legs bytes xs left rest → Replied (legs ++ leg ∷ []) bytes xs (left ++ leg ∷ []) rest }
{}

/// A fault closes a reader, where memory is refused too: the bytes fed are lost, and no reply comes of them.
pub fn faults_close_readers()
    ensures reply { (old new : Reading) (piece : List ℕ) (fault : ReplyFault) → Feeds old piece (Err fault) new → new.state ≡ Closed }
    ensures probe { (old new : ReaderState) (piece : List ℕ) (fault : ReplyFault) → FeedsProbe old piece (Err fault) new → new ≡ Closed }
{}

/// A list of bytes is at most one answer to a probe, and an answer begins with no other.
pub fn one_version()
    ensures one { (bytes version other : List ℕ) → SpellsVersion bytes version → SpellsVersion bytes other → version ≡ other }
    ensures no_front { (bytes more version other : List ℕ) → SpellsVersion bytes version → SpellsVersion (bytes ++ more) other → more ≡ [] }
{}
