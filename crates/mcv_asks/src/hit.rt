//! What the `warm` of a WarmUpRoute replied.

ghost use Rattle.std.specs.Prelude.{◌≡◌, ◌++◌, ◌∷◌, [], IfOk, map, option_map, slice_get, take};
ghost use Rattle.mcv_base.specs.Reply.{part_value};
ghost use Rattle.mcv_route.specs.Reply.{reply};
ghost use Rattle.mcv_route.specs.View.{view};
ghost use Rattle.mcv_rules.specs.History.{history_of};
ghost use Rattle.mcv_rules.specs.Status.{status_of};
ghost use Rattle.mcv_asks.specs.Hits.{answered_of, behind, below, heard_of, replied, replies_of, situation_of, warm_reply};
ghost use Rattle.mcv_asks.specs.WarmUps.{warming};

use crate::warm_up::WarmUp;
use mcv_base::{Moment, Op, Part, Position, Rest};
use mcv_pools::Choice;
use mcv_route::{Answered, Route};
use mcv_rules::{Eval, Outcomes, Source, Status};
use std::alloc::{AllocError, Global};
use std::sync::Arc;

/// What came of a leg of a call.
#[derive(Clone, Copy)]
pub struct Heard<'a> {
    pub position: &'a [usize],
    pub reply: &'a Part,
}

/// A call: what it asks, under which choice of servers, and the replies of its legs, the oldest first.
#[derive(Clone, Copy)]
pub struct Call<'a> {
    pub op: Op,
    pub rest: &'a Rest,
    /// The break at which its era began, and none in the first era.
    pub since: Option<Moment>,
    pub choice: &'a Choice,
    pub heard: &'a [Heard<'a>],
}

/// What `warm` replied to a call, for the add at this position.
pub fn warm_reply(
    alloc: Global,
    call: Call,
    position: &[usize],
    warm_up: WarmUp,
) -> Result<Option<Part>, AllocError>
    ensures { IfOk result (λ r. option_map part_value r ≡ warm_reply (situation_of call.entry) (replies_of call.entry) position.now (warming warm_up.entry)) }
{
    let place = warm_place(alloc, position, warm_up.depth)?;
    let own = below(alloc, call.heard, &place)?;
    replied(alloc, warm_up.warm, call, &own)
}

/// The position of the `warm` of the WarmUpRoute to which so many steps of a position lead.
fn warm_place(alloc: Global, position: &[usize], depth: usize) -> Result<Vec<usize>, AllocError>
    ensures { IfOk result (λ p. p.items ≡ take depth position.now ++ 1 ∷ []) }
{
    let end = depth.min(position.len());
    let mut place = Vec::from_slice(alloc, &position[..end])?;
    place.push(1)?;
    Ok(place)
}

/// The replies of the legs below the handle at a position, by their positions from there.
fn below(alloc: Global, heard: &[Heard], place: &[usize]) -> Result<Vec<Answered>, AllocError>
    ensures { IfOk result (λ r. map answered_of r.items ≡ below place.now (map heard_of heard.now)) }
{
    let mut found = Vec::new(alloc);
    for leg in heard {
        if let Some(position) = behind(place, leg.position) {
            found.push(Answered {
                position: Position::at(alloc, position)?,
                reply: shared(leg.reply)?,
            })?;
        }
    }
    Ok(found)
}

/// What follows in a position behind that of a handle, if it lies below it.
fn behind<'a>(place: &[usize], position: &'a [usize]) -> Option<&'a [usize]>
    ensures { option_map (λ q. q.now) result ≡ behind place.now position.now }
{
    match position.strip_prefix(place) {
        Some(others) => Some(others),
        None => None,
    }
}

/// The same reply once more. It shares a value's bytes.
fn shared(reply: &Part) -> Result<Part, AllocError>
    ensures { IfOk result (λ r. part_value r ≡ part_value reply.now) }
{
    match reply {
        Part::Fixed(reply) => Ok(Part::Fixed(*reply)),
        Part::Owned(reply) => Ok(Part::Owned(Arc::try_clone(reply)?)),
    }
}

/// What a route replied, once its legs have these replies, the oldest first.
fn replied(
    alloc: Global,
    route: &Route,
    call: Call,
    answered: &[Answered],
) -> Result<Option<Part>, AllocError>
    ensures { IfOk result (λ r. option_map part_value r ≡ replied (view route.now) (situation_of call.entry) (map answered_of answered.now)) }
{
    match status(alloc, route, call, answered)? {
        Status::Waits => Ok(None),
        Status::Replied(Source::Fixed(reply)) => Ok(Some(Part::Fixed(reply))),
        Status::Replied(Source::Outcome(place)) => reply_of(answered, place),
    }
}

/// Whether a route has replied then, and by which of the replies.
fn status(
    alloc: Global,
    route: &Route,
    call: Call,
    answered: &[Answered],
) -> Result<Status, AllocError>
    ensures { IfOk result (λ s. s ≡ status_of call.entry.op answered.now (reply (view route.now) (situation_of call.entry) (history_of answered.now))) }
{
    let eval = Eval::new(alloc, route, call.op, call.rest, call.since, call.choice)?;
    let outcomes = Outcomes::of(alloc, answered)?;
    Ok(eval.status(&outcomes))
}

/// The reply at a place of the list.
fn reply_of(answered: &[Answered], place: usize) -> Result<Option<Part>, AllocError>
    ensures { IfOk result (λ r. option_map part_value r ≡ option_map (λ a. part_value a.reply) (slice_get answered.now place)) }
{
    match answered.get(place) {
        Some(leg) => Ok(Some(shared(&leg.reply)?)),
        None => Ok(None),
    }
}
