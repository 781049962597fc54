//! What a block of a route has.

ghost use Rattle.std.specs.Prelude.{◌≡◌, ◌↔◌, false, IfOk, option_map};
ghost use Rattle.mcv_judge.specs.PairsInMemory.{legs_of};
ghost use Rattle.mcv_route.specs.View.{view};
ghost use Rattle.mcv_symbolic.specs.JustifiedRoutes.{IsNeverAcknowledged, IsReadableAt};
ghost use Rattle.mcv_blocks.specs.Blocks.{AreLeavesAt, IsAcknowledgedAt};

use crate::legs::{all_borrowed, merged};
use mcv_base::{Moment, Op, Rest};
use mcv_judge::Leg;
use mcv_route::Route;
use mcv_symbolic::Case;
use std::alloc::{AllocError, Global};
use std::marker::Model;

/// A route at a rest in an era: what a block of it has. Clauses see its tree, the rest and the break that opened the era.
#[derive(Drop)]
pub struct Sets<'a> {
    delete: Case<'a>,
    get: Case<'a>,
    gets: Case<'a>,
    incr: Case<'a>,
    decr: Case<'a>,
}

impl<'a> Model for Sets<'a> {
    ghost use Rattle.mcv_blocks.specs.Sets.{AreCases, SetsValue, sets_code};

    ghost Value = { SetsValue };

    ghost coded = { sets_code };

    ghost view = { λ s. record { tree = s.delete.tree; rest = s.delete.rest; since = s.delete.since } };

    ghost invariant = { λ s. AreCases s.delete s.get s.gets s.incr s.decr };
}

impl<'a> Sets<'a> {
    /// The route at this rest, in the era that began at `since` (none: the first one).
    pub fn new(
        alloc: Global,
        route: &'a Route,
        rest: &'a Rest,
        since: Option<Moment>,
    ) -> Result<Sets<'a>, AllocError>
        ensures { IfOk result (λ s. s ≡ record { tree = view route.now; rest = rest.now; since = option_map (λ m. m.0) since }) }
    {
        let delete = Case::new(alloc, route, Op::Delete, rest, since)?;
        let get = Case::new(alloc, route, Op::Get, rest, since)?;
        let gets = Case::new(alloc, route, Op::Gets, rest, since)?;
        let incr = Case::new(alloc, route, Op::Incr, rest, since)?;
        let decr = Case::new(alloc, route, Op::Decr, rest, since)?;
        Ok(Sets {
            delete,
            get,
            gets,
            incr,
            decr,
        })
    }

    /// The legs from which a get, gets, incr or decr can be answered, in the order of their positions.
    pub fn readable(&self, alloc: Global) -> Result<Vec<Leg<'_>>, AllocError>
        ensures { IfOk result (λ legs. AreLeavesAt self.now.tree (IsReadableAt self.now.tree self.now.rest self.now.since) (legs_of legs.items)) }
    {
        let get = self.get.readable(alloc)?;
        let gets = self.gets.readable(alloc)?;
        let incr = self.incr.readable(alloc)?;
        let decr = self.decr.readable(alloc)?;
        let read = merged(alloc, get.as_slice(), gets.as_slice())?;
        let adjusted = merged(alloc, incr.as_slice(), decr.as_slice())?;
        let all = merged(alloc, read.as_slice(), adjusted.as_slice())?;
        all_borrowed(alloc, all.as_slice())
    }

    /// The legs that every delete that has a reply has sent, in the order of their positions.
    pub fn acknowledged(&self, alloc: Global) -> Result<Vec<Leg<'_>>, AllocError>
        ensures { IfOk result (λ legs. AreLeavesAt self.now.tree (IsAcknowledgedAt self.now.tree self.now.rest self.now.since) (legs_of legs.items)) }
    {
        let legs = self.delete.acknowledged_legs(alloc)?;
        all_borrowed(alloc, legs.as_slice())
    }

    /// Whether a delete can have a reply that isn't an error.
    pub fn can_be_acknowledged(&self) -> bool
        ensures { (result ≡ false) ↔ IsNeverAcknowledged self.now.tree self.now.rest self.now.since }
    {
        self.delete.can_acknowledge()
    }
}
